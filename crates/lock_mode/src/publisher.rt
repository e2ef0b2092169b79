//! What lies under the writer's lock: the writer, and the end of the history.
ghost use Rattle.std.specs.Prelude.{◌≡◌, ◌<◌, ◌≤◌, ◌+◌, ◌^◌, ◌++◌, ◌∷◌, [], length, drop, true, None, IfOk, OnErr};
ghost use Rattle.std.specs.Bool.{OnTrue};
ghost use Rattle.nf_base.specs.Doors.{IsServed};
ghost use Rattle.lock_core.specs.declared.call.Way.TheVariants as way;
ghost use Rattle.lock_core.specs.Events.{IsStep};
ghost use mathlib.Core.List.{IsPrefix};
ghost use Rattle.lock_core.specs.Calls.{count_of};
ghost use Rattle.lock_mode.specs.Alone.{IsAlone};
ghost use Rattle.lock_mode.specs.Closing.{IsClosed};
ghost use Rattle.lock_log.specs.Turns.{in_turn, AreThere};
ghost use Rattle.lock_mode.specs.Merging.{HaveSeen, AreMerged, calls_each};
ghost use Rattle.lock_mode.specs.Seats.{AreAll};
ghost use Rattle.lock_mode.specs.TableCopies.{IsNext};
ghost use Rattle.lock_mode.specs.HistoryEnds.{end_of};

use crate::gate::Gate;
use crate::history_counter::{HistoryCounter, Naming, SeenHistory};
use crate::history_end::HistoryEnd;
use crate::merge::merged;
use crate::rule::{Rising, Seeing, TableWriter};
use crate::seat::Seat;
use crate::seat_reader::until;
use crate::shared::Published;
use crate::table_copy::{Op, TableCopy};
use core::mem::replace_with;
use crossbeam_utils::rule::Protocol;
use left_right::Absorb;
use lock_core::{Entry, Placed, again};
use lock_log::Turn;
use nf_base::packet::Packet;
use std::alloc::{AllocError, Global};
use std::sync::Wait;
use vig_tables::Tables;

/// How many entries a history has at most.
const MOST: u64 = 1 << 32;

/// The writer, which has published all of the history. It is not `Drop`.
///
/// `history_end` is where the history ends. Once a packet was handled there and couldn't be
/// published for
/// want of memory it is gone: then the history stays as it is.
pub(crate) struct Publisher<J: Naming>
where
    TableCopy<J>: Absorb<Op<J>>,
    Rising: Protocol<TableCopy<J>, u64>,
{
    writer: TableWriter<J>,
    history_end: Option<HistoryEnd<J>>,
    prefix: SeenHistory<J>,
    book: HistoryCounter<J>,
    pub ghost settled: { drop writer.behind writer.log.items ≡ [] },
    pub ghost same: { writer.desk.shown.value.0 ≡ prefix },
    pub ghost whole: { writer.desk.shown.value.1 ≡ true },
    pub ghost ends: { end_of history_end prefix ≡ prefix },
}

/// The turns of all that seats did, and the tables that these leave.
#[derive(Drop)]
pub(crate) struct Turned {
    pub(crate) tables: Tables,
    pub(crate) turns: Vec<Turn>,
}

/// Whether a history begins with what was seen.
fn begins<J: Naming>(seen: &SeenHistory<J>, all: &SeenHistory<J>) -> bool
    ensures { OnTrue result (IsPrefix seen.now all.now) }
{
    if seen.len() > all.len() {
        return false;
    }
    let _prefix = until(seen, all.again());
    true
}

/// Whether a history begins with what each seat has seen.
fn have_seen<J: Naming, G: Gate + Drop>(seats: &[Seat<J, G>], all: &SeenHistory<J>) -> bool
    ensures { OnTrue result (HaveSeen seats.now all.now (length seats.now)) }
{
    for at in 0..seats.len() {
        let seat = &seats[at];
        if !begins(seat.seen(), all) {
            return false;
        }
    }
    true
}

impl<J: Naming> Publisher<J> {
    /// A writer that has published the history so far.
    pub(crate) fn over(
        writer: TableWriter<J>,
        history_end: HistoryEnd<J>,
        book: HistoryCounter<J>,
    ) -> Publisher<J>
        requires settled { drop writer.behind writer.log.items ≡ [] }
        requires same { writer.desk.shown.value ≡ (history_end, true) }
        ensures { result.prefix ≡ history_end }
    {
        let prefix = history_end.seen();
        Publisher {
            writer,
            history_end: Some(history_end),
            prefix,
            book,
        }
    }

    /// The same with the history's end taken out.
    fn without_end(self) -> (Publisher<J>, Option<HistoryEnd<J>>)
        ensures prefix { result.0.prefix ≡ self.prefix }
        ensures end { end_of result.1 self.prefix ≡ self.prefix }
    {
        let Publisher {
            writer,
            history_end,
            prefix,
            book,
        } = self;
        let publisher = Publisher {
            writer,
            history_end: None,
            prefix,
            book,
        };
        (publisher, history_end)
    }

    /// Publishes the tables behind one entry more.
    ///
    /// `Err` is for want of memory, and leaves what was published.
    fn publish<R: Wait>(
        self,
        rt: &R,
        history_end: HistoryEnd<J>,
        entry: Entry,
    ) -> (Publisher<J>, Result<Placed, AllocError>)
        requires next { IsNext J.function history_end entry }
        requires grown { history_end ≡ self.prefix ++ entry ∷ [] }
        ensures place { IfOk result.1 (λ placed. placed.place ≡ length self.prefix) }
        ensures done { IfOk result.1 (λ placed. placed.done ≡ entry.done) }
        ensures history { IfOk result.1 (λ _. result.0.prefix ≡ history_end) }
        ensures same { OnErr result.1 (result.0.prefix ≡ self.prefix) }
    {
        let Publisher {
            mut writer,
            history_end: _end,
            prefix,
            book,
        } = self;
        let placed = Placed {
            place: prefix.len(),
            done: again(&entry.done),
        };
        let seen = history_end.seen();
        match writer.append(Op::new(history_end.seen(), entry)) {
            Ok(()) => {
                let (writer, published) = writer.publish_as::<Seeing, R>(rt);
                match published {
                    Ok(()) => {
                        let publisher = Publisher {
                            writer,
                            history_end: Some(history_end),
                            prefix: seen,
                            book,
                        };
                        (publisher, Ok(placed))
                    }
                    Err(_) => unreachable!(),
                }
            }
            Err(_op) => {
                let publisher = Publisher {
                    writer,
                    history_end: None,
                    prefix,
                    book,
                };
                (publisher, Err(AllocError))
            }
        }
    }

    /// Handles a packet of a seat at the end of the history, and publishes the tables behind it.
    ///
    /// `Err` is for want of memory, and leaves the history.
    fn alone<R: Wait>(
        self,
        rt: &R,
        seat: u32,
        packet: &Packet,
    ) -> (Publisher<J>, Result<Placed, AllocError>)
        requires room { length self.prefix < 2 ^ 32 }
        requires seat { seat < J.seats }
        requires port { packet.now.id.port < length J.function.handlers }
        requires served { IsServed J.function packet.now }
        ensures place { IfOk result.1 (λ placed. placed.place ≡ length self.prefix) }
        ensures steps { IfOk result.1 (λ placed.
            IsStep J.function self.prefix packet.now placed.done) }
        ensures history { IfOk result.1 (λ placed. result.0.prefix ≡ self.prefix
            ++ (record { seat = seat; number = count_of seat self.prefix; packet = packet.now; done = placed.done }) ∷ []) }
        ensures same { OnErr result.1 (result.0.prefix ≡ self.prefix) }
    {
        let (publisher, history_end) = self.without_end();
        match history_end {
            Some(history_end) => match history_end.alone(&publisher.book, seat, packet) {
                Some((history_end, entry)) => publisher.publish(rt, history_end, entry),
                None => (publisher, Err(AllocError)),
            },
            None => (publisher, Err(AllocError)),
        }
    }

    /// Handles a packet of a seat behind all that the seat has seen, and tells the history then.
    ///
    /// `Err` is for want of memory, and leaves the history.
    fn put<R: Wait>(
        &mut self,
        rt: &R,
        seen: &SeenHistory<J>,
        seat: u32,
        packet: &Packet,
    ) -> Result<(Placed, SeenHistory<J>), AllocError>
        requires seat { seat < J.seats }
        requires port { packet.now.id.port < length J.function.handlers }
        requires served { IsServed J.function packet.now }
        ensures stands { IfOk result (λ r. IsAlone J.function seen.now seat packet.now r.0 r.1) }
        ensures once { IfOk result (λ r. r.0.place ≡ length self.old.prefix) }
        ensures last { IfOk result (λ r. r.1 ≡ self.new.prefix) }
        ensures same { OnErr result (self.new.prefix ≡ self.old.prefix) }
    {
        if self.prefix.len() >= MOST || !begins(seen, &self.prefix) {
            return Err(AllocError);
        }
        let placed = replace_with(self, rt, |publisher, rt| publisher.alone(rt, seat, packet));
        match placed {
            Ok(placed) => Ok((placed, self.prefix.again())),
            Err(refused) => Err(refused),
        }
    }

    /// Handles a packet of a seat behind all that the seat has seen: the history has one entry more
    /// then, which the seat has seen, and the seat one call. The seat has room for it.
    ///
    /// `Err` is for want of memory, and leaves the history.
    pub(crate) fn place<R: Wait, G: Gate + Drop>(
        &mut self,
        rt: &R,
        seat: &mut Seat<J, G>,
        packet: &Packet,
    ) -> Result<Placed, AllocError>
        requires port { packet.now.id.port < length J.function.handlers }
        requires served { IsServed J.function packet.now }
        requires room { 0 < seat.old.room }
        ensures stands { IfOk result (λ placed. IsAlone J.function seat.old.seen
            seat.old.number packet.now placed seat.new.seen) }
        ensures called { IfOk result (λ placed. seat.new.calls ≡ seat.old.calls
            ++ (record { way = way.Alone; place = placed.place; packet = packet.now; done = placed.done }) ∷ []) }
        // Nothing else came into the history.
        ensures once { IfOk result (λ placed. placed.place ≡ length self.old.prefix) }
        ensures last { IfOk result (λ _. seat.new.seen ≡ self.new.prefix) }
        ensures history { OnErr result (self.new.prefix ≡ self.old.prefix) }
        ensures unseen { OnErr result (seat.new.seen ≡ seat.old.seen) }
        ensures same { OnErr result (seat.new.calls ≡ seat.old.calls) }
        ensures number { seat.new.number ≡ seat.old.number }
        ensures refused { seat.new.refused ≡ seat.old.refused }
        ensures room { seat.old.room ≤ seat.new.room + 1 }
    {
        match self.put(rt, seat.seen(), seat.number(), packet) {
            Ok((placed, prefix)) => {
                seat.stand(rt, prefix, packet, &placed);
                Ok(placed)
            }
            Err(refused) => Err(refused),
        }
    }

    /// The turns of all calls of all seats in one order.
    ///
    /// `Err` is for want of memory, or where they are not the whole history.
    fn turns<G: Gate + Drop>(
        &self,
        alloc: Global,
        seats: &[Seat<J, G>],
    ) -> Result<Vec<Turn>, AllocError>
        requires { AreAll J.seats seats.now }
        ensures there { IfOk result (λ turns. AreThere (calls_each seats.now) turns.items) }
        ensures merged { IfOk result (λ turns. AreMerged J.function self.now.prefix seats.now
            (in_turn (calls_each seats.now) turns.items)) }
    {
        if !have_seen(seats, &self.prefix) {
            return Err(AllocError);
        }
        merged(alloc, seats, &self.prefix)
    }

    /// The turns of all that seats did in one order, with the tables that it leaves; and what is
    /// published.
    ///
    /// `Err` is for want of memory, or where the seats' calls are not the whole history.
    pub(crate) fn close<G: Gate + Drop>(
        self,
        alloc: Global,
        seats: &[Seat<J, G>],
    ) -> Result<(Turned, Published<J>), Publisher<J>>
        requires { AreAll J.seats seats.now }
        ensures there { IfOk result (λ r. AreThere (calls_each seats.now) r.0.turns.items) }
        ensures closed { IfOk result (λ r. IsClosed J.function seats.now
            (in_turn (calls_each seats.now) r.0.turns.items) r.0.tables) }
    {
        let Ok(turns) = self.turns(alloc, seats) else {
            return Err(self);
        };
        let (publisher, history_end) = self.without_end();
        match history_end {
            Some(history_end) => {
                let tables = history_end.into_tables();
                Ok((Turned { tables, turns }, publisher.published()))
            }
            None => Err(publisher),
        }
    }

    /// What is published.
    pub(crate) fn published(self) -> Published<J> {
        let Publisher {
            writer,
            history_end: _history_end,
            prefix: _prefix,
            book: _book,
        } = self;
        Published { writer }
    }
}
