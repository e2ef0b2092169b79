//! The tables that seats share.
ghost use Rattle.std.specs.Prelude.{◌≡◌, ◌<◌, ◌≤◌, ◌+◌, ◌++◌, ◌∷◌, [], length, drop, true, IfOk, IfErr, OnErr};
ghost use Rattle.std.specs.Vec.{vec_capacity};
ghost use mathlib.Core.List.{IsPrefix};
ghost use Rattle.nf_base.specs.Doors.{IsServed};
ghost use Rattle.nf_base.specs.Functions.{function_of};
ghost use Rattle.lock_core.specs.declared.call.Way.TheVariants as way;
ghost use Rattle.lock_log.specs.Turns.{in_turn, calls_of_each, AreThere};
ghost use Rattle.lock_mode.specs.Alone.{IsAlone};
ghost use Rattle.lock_mode.specs.Closing.{IsClosed};
ghost use Rattle.lock_mode.specs.Gates.{Rose};
ghost use Rattle.lock_mode.specs.Merging.{calls_each};
ghost use Rattle.lock_mode.specs.Opening.{IfMany, IfOneSeat, AreNew, AreOpening};
ghost use Rattle.lock_mode.specs.Seats.{AreAll};

use crate::gate::Gate;
use crate::history_counter::{HistoryCounter, Naming, NewCounter};
use crate::history_end::HistoryEnd;
use crate::opening::{Opened, copies_of, opened_by};
use crate::publisher::{Publisher, Turned};
use crate::rule::{Rising, TableWriter};
use crate::seat::Seat;
use crate::table_copy::{Op, TableCopy};
use crossbeam_utils::rule::Protocol;
use left_right::Absorb;
use lock_core::Placed;
use lock_log::{CallLog, Order};
use nf_base::func::Func;
use nf_base::packet::Packet;
use nf_base::seq::Seq;
use std::alloc::{AllocError, Global};
use std::hint::spin_loop;
use std::sync::{Mutex, MutexGuard, Wait};
use vig_tables::Tables;

/// The tables of a function that seats share. It is not `Drop`: it ends by `close` or `give_up`.
pub struct Shared<J: Naming>
where
    TableCopy<J>: Absorb<Op<J>>,
    Rising: Protocol<TableCopy<J>, u64>,
{
    publisher: Mutex<Publisher<J>>,
}

/// What all seats did, as one order, and the tables that it leaves.
#[derive(Drop)]
pub struct Closed {
    pub tables: Tables,
    pub order: Order,
}

/// The calls of seats that have ended; there is room for them.
fn logs_of<J: Naming, G: Gate + Drop>(logs: Vec<CallLog>, seats: Vec<Seat<J, G>>) -> Vec<CallLog>
    requires none { logs.items ≡ [] }
    requires room { length seats.items ≤ vec_capacity logs }
    ensures { calls_of_each result.items ≡ calls_each seats.items }
{
    let mut logs = logs;
    let mut rest = Seq::from_vec(seats);
    for _k in 0..rest.len() {
        let seat = rest.remove_first();
        logs.push_reserved(seat.into_calls());
    }
    logs
}

/// What seats that have ended did, in the order of these turns.
fn closed_of<J: Naming, G: Gate + Drop>(
    logs: Vec<CallLog>,
    seats: Vec<Seat<J, G>>,
    turned: Turned,
) -> Closed
    requires none { logs.items ≡ [] }
    requires room { length seats.items ≤ vec_capacity logs }
    requires there { AreThere (calls_each seats.items) turned.turns.items }
    requires closed { IsClosed J.function seats.items
        (in_turn (calls_each seats.items) turned.turns.items) turned.tables }
    ensures { IsClosed J.function seats.items result.order result.tables }
{
    let Turned { tables, turns } = turned;
    let order = Order::of(logs_of(logs, seats), turns);
    Closed { tables, order }
}

/// The tables that seats looked at, once they are closed. It is not `Drop`: it ends by `end`.
pub struct Published<J: Naming>
where
    TableCopy<J>: Absorb<Op<J>>,
    Rising: Protocol<TableCopy<J>, u64>,
{
    pub(crate) writer: TableWriter<J>,
}

impl<J: Naming> Published<J> {
    /// Ends them, and waits until nobody looks at them.
    ///
    /// It leaves nothing that a clause could speak of.
    pub fn end<R: Wait>(self, rt: &R) {
        let Published { writer } = self;
        let _table_copy = writer.take(rt);
    }
}

/// Shared tables and their seats, which are not closed for want of memory. It is not `Drop`.
pub struct CloseRefused<J: Naming, G: Gate + Drop>
where
    TableCopy<J>: Absorb<Op<J>>,
    Rising: Protocol<TableCopy<J>, u64>,
{
    pub shared: Shared<J>,
    pub seats: Vec<Seat<J, G>>,
}

impl<J: Naming> Shared<J> {
    /// Opens the tables of a function for so many seats to share. It may wait.
    ///
    /// `OneSeat` comes only where the gate refused a reader, and `Err` for want of memory.
    pub fn new<R: Wait, G: Gate + Drop>(
        rt: &R,
        alloc: Global,
        func: &Func,
        seats: u32,
        book: NewCounter,
        gate: &mut G,
    ) -> Result<Opened<Shared<J>, Vec<Seat<J, G>>>, AllocError>
        requires some { 0 < seats }
        requires seats { J.seats ≡ seats }
        requires function { function_of func.now ≡ J.function }
        requires book { book.seen.book ≡ J.book }
        // All seats, which have seen and done nothing.
        ensures many { IfOk result (λ opened. IfMany opened (λ _ all. AreNew J.seats all.items)) }
        ensures tables { IfOk result (λ opened. IfOneSeat opened (λ tables.
            AreOpening J.function tables)) }
        ensures refused { IfOk result (λ opened. IfOneSeat opened (λ _.
            Rose (G.refused gate.old) (G.refused gate.new))) }
        ensures rises { G.refused gate.old ≤ G.refused gate.new }
    {
        let (book, prefix) = book.named::<J>();
        match copies_of(alloc, func, &prefix, seats) {
            Ok(copies) => opened_by(rt, alloc, gate, copies, book, seats),
            Err(refused) => Err(refused),
        }
    }

    /// Tables that were opened, for seats to share.
    pub(crate) fn over(
        writer: TableWriter<J>,
        history_end: HistoryEnd<J>,
        book: HistoryCounter<J>,
    ) -> Shared<J>
        requires settled { drop writer.behind writer.log.items ≡ [] }
        requires same { writer.desk.shown.value ≡ (history_end, true) }
    {
        Shared {
            publisher: Mutex::new(Publisher::over(writer, history_end, book)),
        }
    }

    /// Handles a packet at the end of the history, which the seat has then seen. It may wait: for the
    /// writer's lock, and for those that look at the tables that it is to change.
    ///
    /// `Err` is for want of memory, and leaves the history. It doesn't wait for memory to come back.
    pub fn alone<R: Wait, G: Gate + Drop>(
        &self,
        rt: &R,
        seat: &mut Seat<J, G>,
        packet: &Packet,
    ) -> Result<Placed, AllocError>
        requires port { packet.now.id.port < length J.function.handlers }
        requires served { IsServed J.function packet.now }
        ensures stands { IfOk result (λ placed. IsAlone J.function seat.old.seen
            seat.old.number packet.now placed seat.new.seen) }
        ensures called { IfOk result (λ placed. seat.new.calls ≡ seat.old.calls
            ++ (record { way = way.Alone; place = placed.place; packet = packet.now; done = placed.done }) ∷ []) }
        ensures unseen { OnErr result (seat.new.seen ≡ seat.old.seen) }
        ensures same { OnErr result (seat.new.calls ≡ seat.old.calls) }
        ensures number { seat.new.number ≡ seat.old.number }
        ensures refused { seat.new.refused ≡ seat.old.refused }
        ensures room { seat.old.room ≤ seat.new.room + 1 }
    {
        seat.reserve(1)?;
        let mut guard = taken(&self.publisher, rt);
        let placed = guard.place(rt, seat, packet);
        MutexGuard::unlock(guard);
        placed
    }

    /// Takes all seats, and gives what was done as one order, with the tables that it leaves. It
    /// waits for nobody. What is published is still to be ended.
    ///
    /// `Err` is for want of memory.
    pub fn close<G: Gate + Drop>(
        self,
        alloc: Global,
        seats: Vec<Seat<J, G>>,
    ) -> Result<(Closed, Published<J>), CloseRefused<J, G>>
        requires all { AreAll J.seats seats.items }
        ensures closed { IfOk result (λ r.
            IsClosed J.function seats.items r.0.order r.0.tables) }
        ensures refused { IfErr result (λ refused. refused.seats ≡ seats) }
    {
        let Ok(logs) = Vec::with_capacity(alloc, seats.len()) else {
            return Err(CloseRefused {
                shared: self,
                seats,
            });
        };
        let Shared { publisher } = self;
        match publisher.into_inner().close(alloc, seats.as_slice()) {
            Ok((turned, published)) => Ok((closed_of(logs, seats, turned), published)),
            Err(publisher) => Err(CloseRefused {
                shared: Shared {
                    publisher: Mutex::new(publisher),
                },
                seats,
            }),
        }
    }

    /// Ends the tables, with all their seats, without an answer. It takes no memory, and may wait.
    ///
    /// It leaves nothing that a clause could speak of.
    pub fn give_up<R: Wait, G: Gate + Drop>(self, rt: &R, seats: Vec<Seat<J, G>>) {
        drop(seats);
        let Shared { publisher } = self;
        publisher.into_inner().published().end(rt);
    }
}

/// How often a lock is tried again before a thread sleeps until it is free: to wake one costs more than a
/// packet that is handled under it.
const TRIES: u32 = 500;

// Takes a lock, at first by trying again.
fn taken<'m, T, R: Wait>(lock: &'m Mutex<T>, rt: &R) -> MutexGuard<'m, T> {
    for _ in 0..TRIES {
        if let Some(guard) = lock.try_lock() {
            return guard;
        }
        spin_loop();
    }
    lock.lock(rt)
}
