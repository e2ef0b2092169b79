//! The ways into the published tables, each of which may refuse.
ghost use Rattle.std.specs.Prelude.{◌≡◌};

use crate::history_counter::Naming;
use crate::opening::{MakeFault, TablePair, readers_of};
use crate::rule::{Seeing, TableEntry, TableReader};
use crate::table_copy::TableCopy;
use left_right::writer::Writer;
use std::alloc::Global;
use std::sync::Wait;

/// What lets seats in, and counts how often it refused.
///
/// A seat holds a gate of its own.
pub trait Gate: Sized {
    ghost use Rattle.std.specs.Prelude.{◌≡◌, ℕ, ◌≤◌, ◌<◌, true, [], length, drop, IfOk, IfErr, OnErr};
    ghost use Rattle.lock_mode.specs.declared.opening.MakeFault.TheVariants.{Refused};
    ghost use Rattle.left_right.specs.Sides.{view};
    ghost use Rattle.lock_mode.specs.Gates.{Rose};
    ghost use Rattle.lock_mode.specs.TableCopies.{Sees};

    /// How often it refused, at most 2^64 - 1.
    ghost refused: { Self → ℕ };

    /// A gate that has refused nothing, for one seat to hold.
    fn seat(&self) -> Self
        ensures { refused result ≡ 0 };

    /// Lets a reader in, which then sees no less than it knew of; or it comes back as it was, only
    /// where the count rose or stands at its end.
    fn enter<J: Naming>(&mut self, reader: TableReader<J>) -> Result<TableEntry<J>, TableReader<J>>
        ensures sees { IfOk result (λ entry.
            Sees (view reader.place) entry.part.value entry.part.value (view entry.place)) }
        ensures back { IfErr result (λ back. view back.place ≡ view reader.place) }
        ensures rises { refused self.old ≤ refused self.new }
        ensures refused { OnErr result (Rose (refused self.old) (refused self.new)) };

    /// Opens published tables for so many readers, on two copies of the opening tables. It may wait.
    ///
    /// `Refused` comes only where the count rose or stands at its end.
    fn make<J: Naming, R: Wait>(
        &mut self,
        rt: &R,
        alloc: Global,
        first: TableCopy<J>,
        second: TableCopy<J>,
        seats: u32,
    ) -> Result<TablePair<J>, MakeFault>
        requires opens { first ≡ ([], true) }
        requires alike { second ≡ first }
        requires some { 0 < seats }
        ensures published { IfOk result (λ pair. pair.writer.desk.shown.value ≡ first) }
        ensures pending { IfOk result (λ pair.
            drop pair.writer.behind pair.writer.log.items ≡ []) }
        ensures readers { IfOk result (λ pair. length pair.readers.items ≡ seats) }
        ensures rises { refused self.old ≤ refused self.new }
        ensures refused { IfErr result (λ fault.
            fault ≡ Refused → Rose (refused self.old) (refused self.new)) };
}

/// The gate over the pack of the toolchain.
#[derive(Drop)]
pub struct PackGate {
    refused: u64,
}

impl PackGate {
    /// A gate that has refused nothing.
    pub fn new() -> PackGate
        ensures { result.refused ≡ 0 }
    {
        PackGate { refused: 0 }
    }
}

impl Gate for PackGate {
    ghost refused = { λ g. g.refused };

    fn seat(&self) -> PackGate {
        PackGate { refused: 0 }
    }

    fn enter<J: Naming>(
        &mut self,
        reader: TableReader<J>,
    ) -> Result<TableEntry<J>, TableReader<J>> {
        match reader.enter_as::<Seeing>() {
            Ok(entry) => Ok(entry),
            Err(reader) => {
                self.refused = self.refused.saturating_add(1);
                Err(reader)
            }
        }
    }

    fn make<J: Naming, R: Wait>(
        &mut self,
        rt: &R,
        alloc: Global,
        first: TableCopy<J>,
        second: TableCopy<J>,
        seats: u32,
    ) -> Result<TablePair<J>, MakeFault> {
        let Ok(writer) = Writer::new(alloc, first, second, seats as usize) else {
            return Err(MakeFault::Memory);
        };
        match readers_of(alloc, &writer, seats) {
            Ok(readers) => Ok(TablePair { writer, readers }),
            Err(fault) => {
                let _table_copy = writer.take(rt);
                if fault == MakeFault::Refused {
                    self.refused = self.refused.saturating_add(1);
                }
                Err(fault)
            }
        }
    }
}
