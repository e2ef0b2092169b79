//! The end of the history, where the next packet is handled.
ghost use Rattle.std.specs.Prelude.{◌≡◌, ◌<◌, ◌+◌, ◌^◌, ◌++◌, ◌∷◌, [], length, replicate, Some, IfOk, IfSome};
ghost use Rattle.nf_base.specs.Doors.{IsServed};
ghost use Rattle.nf_base.specs.Functions.{function_of};
ghost use Rattle.nf_base.specs.Step.{step};
ghost use Rattle.nf_engine.specs.View.{fixed_of};
ghost use Rattle.lock_core.specs.Calls.{count_of};
ghost use Rattle.lock_core.specs.Events.{IsStep};
ghost use Rattle.lock_mode.specs.TableCopies.{IsNext, RanTo};

use crate::history_counter::{HistoryCounter, Naming, SeenHistory};
use lock_core::Entry;
use nf_base::done::Done;
use nf_base::func::Func;
use nf_base::packet::Packet;
use nf_engine::{Handled, handle};
use std::alloc::{AllocError, Global};
use std::marker::Model;
use vig_tables::Tables;

/// The tables where the history ends, and how many entries each seat has there.
///
/// Contracts see it as the history.
#[derive(Drop)]
pub struct HistoryEnd<J: Naming> {
    func: Func,
    tables: Tables,
    prefix: SeenHistory<J>,
    counts: Vec<u64>,
}

impl<J: Naming> Model for HistoryEnd<J> {
    ghost use Rattle.std.specs.Prelude.{List};
    ghost use Rattle.nf_base.specs.Functions.{function_of};
    ghost use Rattle.lock_core.specs.declared.call.Entry.{Entry};
    ghost use Rattle.lock_mode.specs.HistoryEnds.{IsHistoryEnd};

    ghost Value = { List Entry };

    ghost view = { λ t. t.prefix };

    ghost invariant = { λ t.
        IsHistoryEnd J.function (function_of t.func) J.seats t.tables t.prefix t.counts.items };
}

/// Handles a packet in tables with the whole share, which is never full.
fn handle_whole(tables: &mut Tables, func: &Func, packet: &Packet) -> Done
    requires of_func { tables.old.decls ≡ func.now.chains }
    requires whole { tables.old.share.of ≡ 1 }
    requires port { packet.now.id.port < length func.now.handlers }
    requires served { IsServed (function_of func.now) packet.now }
    ensures steps { step (function_of func.now) tables.old.state packet.now result.picks
        ≡ Some (record { state = tables.new.state; done = result }) }
    ensures same { fixed_of tables.new ≡ fixed_of tables.old }
{
    match handle(tables, func, packet) {
        Handled::Done(done) => done,
        Handled::ShareFull(_) => unreachable!(),
    }
}

/// So many zeros.
fn zeros(alloc: Global, count: u32) -> Result<Vec<u64>, AllocError>
    ensures { IfOk result (λ zeros. zeros.items ≡ replicate count 0) }
{
    Ok(vec![in alloc; 0; count as usize]?)
}

impl<J: Naming> HistoryEnd<J> {
    /// The end of an empty history.
    pub fn opening(
        alloc: Global,
        func: Func,
        tables: Tables,
        prefix: SeenHistory<J>,
        seats: u32,
    ) -> Result<HistoryEnd<J>, AllocError>
        requires function { function_of func ≡ J.function }
        requires ran { RanTo J.function tables [] }
        requires empty { prefix ≡ [] }
        requires seats { seats ≡ J.seats }
        ensures { IfOk result (λ history_end. history_end ≡ []) }
    {
        let counts = zeros(alloc, seats)?;
        Ok(HistoryEnd {
            func,
            tables,
            prefix,
            counts,
        })
    }

    /// The tables where the history ends.
    pub fn into_tables(self) -> Tables
        ensures { RanTo J.function result self }
    {
        let HistoryEnd {
            func: _func,
            tables,
            prefix: _prefix,
            counts: _counts,
        } = self;
        tables
    }

    /// The history.
    pub fn seen(&self) -> SeenHistory<J>
        ensures { result ≡ self.now }
    {
        self.prefix.again()
    }

    /// Handles a packet of a seat at the end of the history, which has its entry then.
    ///
    /// `None` where the history has more than this end, which is given up then.
    pub fn alone(
        self,
        book: &HistoryCounter<J>,
        seat: u32,
        packet: &Packet,
    ) -> Option<(HistoryEnd<J>, Entry)>
        requires room { length self < 2 ^ 62 }
        requires seat { seat < J.seats }
        requires port { packet.now.id.port < length J.function.handlers }
        requires served { IsServed J.function packet.now }
        ensures entry { IfSome result (λ r. (r.1.seat ≡ seat) × (r.1.packet ≡ packet.now)) }
        ensures number { IfSome result (λ r. r.1.number ≡ count_of seat self) }
        ensures history { IfSome result (λ r. r.0 ≡ self ++ r.1 ∷ []) }
        ensures steps { IfSome result (λ r. IsStep J.function self packet.now r.1.done) }
        ensures next { IfSome result (λ r. IsNext J.function r.0 r.1) }
    {
        let HistoryEnd {
            func,
            mut tables,
            mut prefix,
            mut counts,
        } = self;
        let done = handle_whole(&mut tables, &func, packet);
        let entry = Entry {
            seat,
            number: counts[seat as usize],
            packet: *packet,
            done,
        };
        if !prefix.add(book, &entry) {
            return None;
        }
        counts[seat as usize] += 1;
        let history_end = HistoryEnd {
            func,
            tables,
            prefix,
            counts,
        };
        Some((history_end, entry))
    }
}
