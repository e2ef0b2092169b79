//! A seat: it looks at the published tables, and knows all that it did.
ghost use Rattle.std.specs.Prelude.{◌≡◌, ◌<◌, ◌≤◌, ◌+◌, ◌++◌, ◌∷◌, [], length, OnOk};
ghost use mathlib.Core.List.{IsPrefix};
ghost use Rattle.nf_base.specs.Doors.{IsServed};
ghost use Rattle.lock_core.specs.declared.call.Way.TheVariants as way;
ghost use Rattle.lock_core.specs.Events.{IsLook, IsQuietBehind};
ghost use Rattle.lock_mode.specs.Alone.{IsAlone};
ghost use Rattle.lock_mode.specs.Gates.{Rose};
ghost use Rattle.lock_mode.specs.Looks.{IfDone, IfNeedsWrite, IfRefused};
ghost use Rattle.lock_mode.specs.Seats.{AreMade};

use crate::gate::Gate;
use crate::history_counter::{Naming, SeenHistory};
use crate::look_result::LookResult;
use crate::rule::TableReader;
use crate::seat_reader::{SeatReader, catch_up, look_by};
use core::mem::replace_with;
use lock_core::{Placed, Way};
use lock_log::CallLog;
use nf_base::packet::Packet;
use std::alloc::{AllocError, Global};
use std::marker::Model;
use std::sync::Wait;

/// One of those who share the tables.
///
/// It has a gate of its own, knows the beginning of the history that it has seen, and its calls in
/// their order. Contracts see it as these, its number, the count of its gate, and for how many more
/// calls it has room.
#[derive(Drop)]
pub struct Seat<J: Naming, G: Gate + Drop> {
    number: u32,
    gate: G,
    seat_reader: SeatReader<J>,
    calls: CallLog,
}

impl<J: Naming, G: Gate + Drop> Model for Seat<J, G> {
    ghost use Rattle.lock_mode.specs.Seats.{SeatState, IsSeat};

    ghost Value = { SeatState };

    ghost view = { λ s. record {
      number = s.number;
      seen = s.seat_reader.prefix;
      calls = s.calls.calls;
      room = s.calls.room;
      refused = G.refused s.gate;
    } };

    ghost invariant = { λ s.
        IsSeat J.function J.seats s.number s.seat_reader.prefix s.calls.calls };
}

/// Appends a look that was done to the calls of a seat, which have room.
fn add_look(calls: &mut CallLog, place: u64, packet: &Packet, looked: &LookResult)
    requires room { 0 < calls.old.room }
    ensures done { IfDone looked.now (λ done. calls.new.calls ≡ calls.old.calls
        ++ (record { way = way.Look; place = place; packet = packet.now; done = done }) ∷ []) }
    ensures needs { IfNeedsWrite looked.now (calls.new ≡ calls.old) }
    ensures refused { IfRefused looked.now (calls.new ≡ calls.old) }
    ensures room { calls.old.room ≤ calls.new.room + 1 }
{
    match looked {
        LookResult::Done(done) => calls.push(Way::Look, place, packet, done),
        LookResult::NeedsWrite => {}
        LookResult::Refused => {}
    }
}

/// A look by value.
fn look_seat<J: Naming, G: Gate + Drop>(
    seat: Seat<J, G>,
    packet: &Packet,
) -> (Seat<J, G>, LookResult)
    requires port { packet.now.id.port < length J.function.handlers }
    requires served { IsServed J.function packet.now }
    requires room { 0 < seat.room }
    ensures seen { IsPrefix seat.seen result.0.seen }
    ensures done { IfDone result.1 (λ done. IsLook J.function result.0.seen packet.now done) }
    ensures called { IfDone result.1 (λ done. result.0.calls ≡ seat.calls
        ++ (record { way = way.Look; place = length result.0.seen; packet = packet.now; done = done }) ∷ []) }
    ensures needs { IfNeedsWrite result.1 (
        IsQuietBehind J.function result.0.seen packet.now → ⊥) }
    ensures uncalled { IfNeedsWrite result.1 (result.0.calls ≡ seat.calls) }
    ensures refused { IfRefused result.1 (Rose seat.refused result.0.refused) }
    ensures unseen { IfRefused result.1 (result.0.seen ≡ seat.seen) }
    ensures same { IfRefused result.1 (result.0.calls ≡ seat.calls) }
    ensures rises { seat.refused ≤ result.0.refused }
    ensures number { result.0.number ≡ seat.number }
    ensures room { seat.room ≤ result.0.room + 1 }
{
    let Seat {
        number,
        mut gate,
        seat_reader,
        mut calls,
    } = seat;
    let (seat_reader, looked) = look_by(&mut gate, seat_reader, packet);
    add_look(&mut calls, seat_reader.prefix.len(), packet, &looked);
    (
        Seat {
            number,
            gate,
            seat_reader,
            calls,
        },
        looked,
    )
}

/// A seat that has handled a packet alone, and seen the history behind it; it has room for one call.
fn stand_seat<J: Naming, G: Gate + Drop, R: Wait>(
    rt: &R,
    seat: Seat<J, G>,
    prefix: SeenHistory<J>,
    packet: &Packet,
    placed: &Placed,
) -> (Seat<J, G>, ())
    requires room { 0 < seat.room }
    requires stands { IsAlone J.function seat.seen seat.number packet.now placed.now prefix }
    ensures seen { result.0.seen ≡ prefix }
    ensures called { result.0.calls ≡ seat.calls
        ++ (record { way = way.Alone; place = placed.now.place; packet = packet.now; done = placed.now.done }) ∷ [] }
    ensures number { result.0.number ≡ seat.number }
    ensures refused { result.0.refused ≡ seat.refused }
    ensures room { seat.room ≤ result.0.room + 1 }
{
    let Seat {
        number,
        gate,
        seat_reader,
        mut calls,
    } = seat;
    calls.push(Way::Alone, placed.place, packet, &placed.done);
    let SeatReader {
        prefix: _seen,
        reader,
    } = seat_reader;
    let seat_reader = catch_up(rt, reader, prefix);
    (
        Seat {
            number,
            gate,
            seat_reader,
            calls,
        },
        (),
    )
}

impl<J: Naming, G: Gate + Drop> Seat<J, G> {
    /// A seat that has done nothing, over one of the readers of the tables; its calls have no room
    /// yet.
    pub(crate) fn new(
        alloc: Global,
        number: u32,
        gate: G,
        prefix: SeenHistory<J>,
        reader: TableReader<J>,
    ) -> Seat<J, G>
        requires below { number < J.seats }
        requires empty { prefix ≡ [] }
        ensures number { result.number ≡ number }
        ensures refused { result.refused ≡ G.refused gate }
        ensures seen { result.seen ≡ [] }
        ensures calls { result.calls ≡ [] }
    {
        Seat {
            number,
            gate,
            seat_reader: SeatReader::new(prefix, reader),
            calls: CallLog::new(alloc),
        }
    }

    /// Its number among the seats, from 0.
    pub fn number(&self) -> u32
        ensures number { result ≡ self.now.number }
        ensures below { result < J.seats }
    {
        self.number
    }

    /// Its calls, in their order.
    pub fn calls(&self) -> &CallLog
        ensures calls { result.now.calls ≡ self.now.calls }
        ensures made { AreMade J.function self.now.number self.now.seen self.now.calls }
    {
        &self.calls
    }

    /// The same, where the seat has ended.
    pub(crate) fn into_calls(self) -> CallLog
        ensures { result.calls ≡ self.calls }
    {
        let Seat {
            number: _number,
            gate: _gate,
            seat_reader: _seat_reader,
            calls,
        } = self;
        calls
    }

    /// The beginning of the history that it has seen.
    pub(crate) fn seen(&self) -> &SeenHistory<J>
        ensures { result.now ≡ self.now.seen }
    {
        &self.seat_reader.prefix
    }

    /// Makes room for so many calls.
    ///
    /// `Err` is for want of memory.
    pub fn reserve(&mut self, count: usize) -> Result<(), AllocError>
        ensures room { OnOk result (count ≤ self.new.room) }
        ensures kept { self.old.room ≤ self.new.room }
        ensures number { self.new.number ≡ self.old.number }
        ensures refused { self.new.refused ≡ self.old.refused }
        ensures seen { self.new.seen ≡ self.old.seen }
        ensures calls { self.new.calls ≡ self.old.calls }
    {
        self.calls.reserve(count)
    }

    /// Looks at a packet in the published tables. It waits for nobody and takes no memory; it needs
    /// room for one call.
    ///
    /// `Refused` comes only where the seat's gate refused.
    pub fn look(&mut self, packet: &Packet) -> LookResult
        requires port { packet.now.id.port < length J.function.handlers }
        requires served { IsServed J.function packet.now }
        requires room { 0 < self.old.room }
        ensures seen { IsPrefix self.old.seen self.new.seen }
        // The packet's quiet step, behind the history that is then seen.
        ensures done { IfDone result (λ done. IsLook J.function self.new.seen packet.now done) }
        ensures called { IfDone result (λ done. self.new.calls ≡ self.old.calls
            ++ (record { way = way.Look; place = length self.new.seen; packet = packet.now; done = done }) ∷ []) }
        ensures needs { IfNeedsWrite result (
            IsQuietBehind J.function self.new.seen packet.now → ⊥) }
        ensures uncalled { IfNeedsWrite result (self.new.calls ≡ self.old.calls) }
        ensures refused { IfRefused result (Rose self.old.refused self.new.refused) }
        ensures unseen { IfRefused result (self.new.seen ≡ self.old.seen) }
        ensures same { IfRefused result (self.new.calls ≡ self.old.calls) }
        ensures rises { self.old.refused ≤ self.new.refused }
        ensures number { self.new.number ≡ self.old.number }
        ensures room { self.old.room ≤ self.new.room + 1 }
    {
        replace_with(self, packet, |seat, packet| look_seat(seat, packet))
    }

    /// Stands behind an entry of its own; it has room for one call.
    pub(crate) fn stand<R: Wait>(
        &mut self,
        rt: &R,
        prefix: SeenHistory<J>,
        packet: &Packet,
        placed: &Placed,
    )
        requires room { 0 < self.old.room }
        requires stands { IsAlone J.function self.old.seen self.old.number packet.now
            placed.now prefix }
        ensures seen { self.new.seen ≡ prefix }
        ensures called { self.new.calls ≡ self.old.calls
            ++ (record { way = way.Alone; place = placed.now.place; packet = packet.now; done = placed.now.done }) ∷ [] }
        ensures number { self.new.number ≡ self.old.number }
        ensures refused { self.new.refused ≡ self.old.refused }
        ensures room { self.old.room ≤ self.new.room + 1 }
    {
        replace_with(
            self,
            prefix,
            |seat, prefix| stand_seat(rt, seat, prefix, packet, placed),
        );
    }
}
