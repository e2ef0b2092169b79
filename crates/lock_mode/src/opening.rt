//! The published tables, opened for so many readers.
ghost use Rattle.std.specs.Prelude.{◌≡◌, ◌<◌, ◌≤◌, [], true, length, drop, IfOk};
ghost use Rattle.nf_base.specs.Functions.{function_of};
ghost use Rattle.lock_mode.specs.Gates.{Rose};
ghost use Rattle.lock_mode.specs.Opening.{IfMany, IfOneSeat, AreNew, AreOpening};

use crate::gate::Gate;
use crate::history_counter::{HistoryCounter, Naming, SeenHistory};
use crate::history_end::HistoryEnd;
use crate::rule::{Rising, TableReader, TableWriter};
use crate::seat::Seat;
use crate::shared::Shared;
use crate::table_copy::{Op, TableCopy};
use crossbeam_utils::rule::Protocol;
use left_right::Absorb;
use nf_base::func::Func;
use nf_base::share::Share;
use std::alloc::{AllocError, Global};
use std::sync::Wait;
use vig_tables::Tables;

/// The share of one queue that has all indices.
const WHOLE: Share = Share { queue: 0, of: 1 };

/// Why tables can't be opened.
#[derive(Clone, Copy, Debug, PartialEq, Eq)]
pub enum MakeFault {
    /// A reader was refused, for another cause than memory.
    Refused,
    /// Memory ran out.
    Memory,
}

/// The writer of published tables, and their readers. It is not `Drop`.
pub struct TablePair<J: Naming>
where
    TableCopy<J>: Absorb<Op<J>>,
    Rising: Protocol<TableCopy<J>, u64>,
{
    pub writer: TableWriter<J>,
    pub readers: Vec<TableReader<J>>,
}

/// So many readers.
pub(crate) fn readers_of<J: Naming>(
    alloc: Global,
    writer: &TableWriter<J>,
    seats: u32,
) -> Result<Vec<TableReader<J>>, MakeFault>
    ensures { IfOk result (λ readers. length readers.items ≡ seats) }
{
    let mut readers = Vec::new(alloc);
    for _ in 0..seats {
        let Ok(reader) = writer.factory().reader() else {
            return Err(MakeFault::Refused);
        };
        if readers.push(reader).is_err() {
            return Err(MakeFault::Memory);
        }
    }
    Ok(readers)
}

/// What tables were opened as.
pub enum Opened<S, T> {
    /// Shared tables, and their seats.
    Many(S, T),
    /// The tables for one seat, since the gate refused a reader.
    OneSeat(Tables),
}

/// A copy of the opening tables.
fn table_copy_of<J: Naming>(
    alloc: Global,
    func: &Func,
    prefix: &SeenHistory<J>,
) -> Result<TableCopy<J>, AllocError>
    requires function { function_of func.now ≡ J.function }
    requires empty { prefix.now ≡ [] }
    ensures { IfOk result (λ table_copy. table_copy ≡ ([], true)) }
{
    let tables = Tables::new(alloc, func, WHOLE)?;
    let func = func.copy(alloc)?;
    Ok(TableCopy::opening(func, tables, prefix.again()))
}

/// The end of an empty history.
fn history_end_of<J: Naming>(
    alloc: Global,
    func: &Func,
    prefix: &SeenHistory<J>,
    seats: u32,
) -> Result<HistoryEnd<J>, AllocError>
    requires function { function_of func.now ≡ J.function }
    requires empty { prefix.now ≡ [] }
    requires seats { J.seats ≡ seats }
    ensures { IfOk result (λ history_end. history_end ≡ []) }
{
    let tables = Tables::new(alloc, func, WHOLE)?;
    let func = func.copy(alloc)?;
    HistoryEnd::opening(alloc, func, tables, prefix.again(), seats)
}

/// Two copies of the opening tables to be published, and the end of an empty history.
#[derive(Drop)]
pub(crate) struct Copies<J: Naming> {
    first: TableCopy<J>,
    second: TableCopy<J>,
    history_end: HistoryEnd<J>,
}

/// Copies of a function's opening tables.
pub(crate) fn copies_of<J: Naming>(
    alloc: Global,
    func: &Func,
    prefix: &SeenHistory<J>,
    seats: u32,
) -> Result<Copies<J>, AllocError>
    requires function { function_of func.now ≡ J.function }
    requires empty { prefix.now ≡ [] }
    requires seats { J.seats ≡ seats }
    ensures first { IfOk result (λ copies. copies.first ≡ ([], true)) }
    ensures second { IfOk result (λ copies. copies.second ≡ ([], true)) }
    ensures history_end { IfOk result (λ copies. copies.history_end ≡ []) }
{
    let first = table_copy_of(alloc, func, prefix)?;
    let second = table_copy_of(alloc, func, prefix)?;
    let history_end = history_end_of(alloc, func, prefix, seats)?;
    Ok(Copies {
        first,
        second,
        history_end,
    })
}

/// A seat for each reader, with a gate of its own.
fn seats_of<J: Naming, G: Gate + Drop>(
    alloc: Global,
    gate: &G,
    prefix: &SeenHistory<J>,
    readers: Vec<TableReader<J>>,
    seats: u32,
) -> Result<Vec<Seat<J, G>>, AllocError>
    requires empty { prefix.now ≡ [] }
    requires seats { J.seats ≡ seats }
    requires each { length readers.items ≡ seats }
    ensures { IfOk result (λ all. AreNew J.seats all.items) }
{
    let mut readers = readers;
    let mut all = Vec::with_capacity(alloc, seats as usize)?;
    for number in 0..seats {
        let Some(reader) = readers.pop() else {
            unreachable!()
        };
        let seat = Seat::new(alloc, number, gate.seat(), prefix.again(), reader);
        all.push(seat)?;
    }
    Ok(all)
}

/// Shared tables over what a gate has made, with a seat for each reader.
fn seated<J: Naming, G: Gate + Drop, R: Wait>(
    rt: &R,
    alloc: Global,
    gate: &G,
    pair: TablePair<J>,
    history_end: HistoryEnd<J>,
    book: HistoryCounter<J>,
    seats: u32,
) -> Result<Opened<Shared<J>, Vec<Seat<J, G>>>, AllocError>
    requires empty { history_end ≡ [] }
    requires seats { J.seats ≡ seats }
    requires same { pair.writer.desk.shown.value ≡ ([], true) }
    requires settled { drop pair.writer.behind pair.writer.log.items ≡ [] }
    requires each { length pair.readers.items ≡ seats }
    ensures many { IfOk result (λ opened. IfMany opened (λ _ all. AreNew J.seats all.items)) }
    ensures several { IfOk result (λ opened. IfOneSeat opened (λ _. ⊥)) }
{
    let TablePair { writer, readers } = pair;
    match seats_of(alloc, gate, &history_end.seen(), readers, seats) {
        Ok(all) => Ok(Opened::Many(Shared::over(writer, history_end, book), all)),
        Err(refused) => {
            let _table_copy = writer.take(rt);
            Err(refused)
        }
    }
}

/// Shared tables as a gate opens them, or the tables for one seat where it refused.
pub(crate) fn opened_by<J: Naming, G: Gate + Drop, R: Wait>(
    rt: &R,
    alloc: Global,
    gate: &mut G,
    copies: Copies<J>,
    book: HistoryCounter<J>,
    seats: u32,
) -> Result<Opened<Shared<J>, Vec<Seat<J, G>>>, AllocError>
    requires some { 0 < seats }
    requires seats { J.seats ≡ seats }
    requires first { copies.first ≡ ([], true) }
    requires second { copies.second ≡ ([], true) }
    requires history_end { copies.history_end ≡ [] }
    ensures many { IfOk result (λ opened. IfMany opened (λ _ all. AreNew J.seats all.items)) }
    ensures tables { IfOk result (λ opened. IfOneSeat opened (λ tables.
        AreOpening J.function tables)) }
    ensures refused { IfOk result (λ opened. IfOneSeat opened (λ _.
        Rose (G.refused gate.old) (G.refused gate.new))) }
    ensures rises { G.refused gate.old ≤ G.refused gate.new }
{
    let Copies {
        first,
        second,
        history_end,
    } = copies;
    match gate.make(rt, alloc, first, second, seats) {
        Ok(pair) => seated(rt, alloc, gate, pair, history_end, book, seats),
        Err(MakeFault::Refused) => Ok(Opened::OneSeat(history_end.into_tables())),
        Err(MakeFault::Memory) => Err(AllocError),
    }
}
