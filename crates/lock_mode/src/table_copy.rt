//! One of the two copies of the tables.
ghost use Rattle.std.specs.Prelude.{◌≡◌, ◌<◌, true, [], length};
ghost use Rattle.nf_engine.specs.Looks.{IfDone, IfNeedsWrite};
ghost use Rattle.lock_core.specs.Events.{IsLook, IsQuietBehind};
ghost use Rattle.nf_base.specs.Doors.{IsServed};
ghost use Rattle.nf_base.specs.Functions.{function_of};
ghost use Rattle.lock_mode.specs.TableCopies.{IsNext, RanTo};

use crate::history_counter::{Naming, SeenHistory};
use left_right::Absorb;
use lock_core::Entry;
use nf_base::func::Func;
use nf_base::packet::Packet;
use nf_engine::{Look, look, replay};
use std::alloc::AllocError;
use std::marker::Model;
use vig_tables::Tables;

/// What the writer publishes: the history with one entry more, and that entry.
#[derive(Drop)]
pub struct Op<J: Naming> {
    prefix: SeenHistory<J>,
    entry: Entry,
}

impl<J: Naming> Model for Op<J> {
    ghost use Rattle.std.specs.Prelude.{List};
    ghost use Rattle.lock_core.specs.declared.call.Entry.{Entry};
    ghost use Rattle.nf_base.specs.Functions.{function_of};
    ghost use Rattle.lock_mode.specs.TableCopies.{IsNext, RanTo};

    ghost Value = { List Entry };

    ghost view = { λ o. o.prefix };

    ghost invariant = { λ o. IsNext J.function o.prefix o.entry };
}

impl<J: Naming> Op<J> {
    pub fn new(prefix: SeenHistory<J>, entry: Entry) -> Op<J>
        requires { IsNext J.function prefix entry }
        ensures { result ≡ prefix }
    {
        Op { prefix, entry }
    }
}

/// The tables, with the history that they have run.
#[derive(Drop)]
pub struct TableCopy<J: Naming> {
    func: Func,
    tables: Tables,
    whole: bool,
    prefix: SeenHistory<J>,
}

impl<J: Naming> Model for TableCopy<J> {
    ghost use Rattle.std.specs.Prelude.{Bool, List};
    ghost use Rattle.nf_base.specs.Functions.{function_of};
    ghost use Rattle.lock_core.specs.declared.call.Entry.{Entry};
    ghost use Rattle.lock_mode.specs.TableCopies.{Ran};

    ghost Value = { List Entry × Bool };

    ghost view = { λ s. (s.prefix, s.whole) };

    ghost invariant = { λ s. Ran J.function (function_of s.func) s.whole s.tables s.prefix };
}

impl<J: Naming> TableCopy<J> {
    /// The opening tables of the function.
    pub fn opening(func: Func, tables: Tables, prefix: SeenHistory<J>) -> TableCopy<J>
        requires function { function_of func ≡ J.function }
        requires ran { RanTo J.function tables [] }
        requires empty { prefix ≡ [] }
        ensures { result ≡ ([], true) }
    {
        TableCopy {
            func,
            tables,
            whole: true,
            prefix,
        }
    }

    /// A look at a packet, without a write.
    pub fn look(&self, packet: &Packet) -> Look
        requires whole { self.now.1 ≡ true }
        requires port { packet.now.id.port < length J.function.handlers }
        requires served { IsServed J.function packet.now }
        ensures done { IfDone result (λ done. IsLook J.function self.now.0 packet.now done) }
        ensures needs { IfNeedsWrite result (IsQuietBehind J.function self.now.0 packet.now → ⊥) }
    {
        look(&self.tables, &self.func, packet)
    }

    /// The history.
    pub fn seen(&self) -> SeenHistory<J>
        ensures { result ≡ self.now.0 }
    {
        self.prefix.again()
    }
}

impl<J: Naming> Absorb<Op<J>> for TableCopy<J> {
    ghost use Rattle.lock_mode.specs.TableCopies.{after};

    type State = ([Entry; 0], bool);

    ghost state = { λ s. s };

    ghost applied = { after };

    ghost never_fails = { Unit {0} };

    fn absorb_first(&mut self, op: &Op<J>, _other: &TableCopy<J>) -> Result<(), AllocError> {
        let (had, has) = (self.prefix.len(), op.prefix.len());
        if self.whole && has > 0 && had == has - 1 {
            let both = self.prefix.longer(&op.prefix);
            let done = replay(
                &mut self.tables,
                &self.func,
                &op.entry.packet,
                &op.entry.done.picks,
            );
            drop(done);
            self.prefix = both;
        } else {
            self.whole = false;
            self.prefix = op.prefix.again();
        }
        Ok(())
    }
}
