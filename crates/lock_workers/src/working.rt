// Each worker handles its packets, in a thread of its own.
ghost use Rattle.std.specs.Prelude.{◌≡◌, ◌<◌, ◌≤◌, ◌++◌, ◌∷◌, [], length, MatchBool, OnOk, OnErr, slice_index_or};
ghost use Rattle.nf_base.specs.Doors.{IsServed};
ghost use Rattle.lock_mode.specs.Seats.{SeatState};
ghost use Rattle.lock_workers.specs.Working.{packets_in, AreAtPlaces, AreOf, HasWorked, AllHaveWorked, CanWork, AreWorkers};

use crate::hint::Hint;
use lock_mode::{Gate, LookResult, Naming, Seat, Shared};
use nf_base::packet::Packet;
use nf_base::seq::Seq;
use nf_base::worker_turns::Turns;
use std::alloc::AllocError;
use std::sync::Wait;
use std::thread;
use std::thread::Threads;

// Looks at a packet, unless that is hardly worth it, and says whether it is done.
fn look<J: Naming, G: Gate + Drop>(seat: &mut Seat<J, G>, packet: &Packet, hint: &mut Hint) -> bool
    requires port { packet.now.id.port < length J.function.handlers }
    requires served { IsServed J.function packet.now }
    requires room { 0 < seat.old.room }
    ensures looked { MatchBool result
        (packets_in seat.new.calls ≡ packets_in seat.old.calls ++ packet.now ∷ [])
        (seat.new.calls ≡ seat.old.calls) }
    ensures number { seat.new.number ≡ seat.old.number }
{
    if hint.passes() {
        return false;
    }
    match seat.look(packet) {
        LookResult::Done(_) => {
            hint.done();
            true
        }
        LookResult::NeedsWrite | LookResult::Refused => {
            hint.gave_up();
            false
        }
    }
}

// Looks at a packet, and handles it alone where something would be written, where the gate refused,
// or where the looks before gave up.
fn handle<J: Naming, R: Wait, G: Gate + Drop>(
    rt: &R,
    shared: &Shared<J>,
    seat: &mut Seat<J, G>,
    packet: &Packet,
    hint: &mut Hint,
) -> Result<(), AllocError>
    requires port { packet.now.id.port < length J.function.handlers }
    requires served { IsServed J.function packet.now }
    requires room { 0 < seat.old.room }
    ensures ok { OnOk result (
        packets_in seat.new.calls ≡ packets_in seat.old.calls ++ packet.now ∷ []) }
    ensures err { OnErr result (seat.new.calls ≡ seat.old.calls) }
    ensures number { seat.new.number ≡ seat.old.number }
{
    if look(seat, packet, hint) {
        return Ok(());
    }
    match shared.alone(rt, seat, packet) {
        Ok(_) => Ok(()),
        Err(refused) => Err(refused),
    }
}

// Handles a packet, and tells when it comes to it and when it has.
fn work_one<J: Naming, R: Wait, G: Gate + Drop, T: Turns>(
    rt: &R,
    shared: &Shared<J>,
    seat: &mut Seat<J, G>,
    packet: &Packet,
    turns: &T,
    hint: &mut Hint,
) -> Result<(), AllocError>
    requires port { packet.now.id.port < length J.function.handlers }
    requires served { IsServed J.function packet.now }
    ensures ok { OnOk result (
        packets_in seat.new.calls ≡ packets_in seat.old.calls ++ packet.now ∷ []) }
    ensures err { OnErr result (seat.new.calls ≡ seat.old.calls) }
    ensures number { seat.new.number ≡ seat.old.number }
{
    let number = seat.number();
    turns.before(number, packet.id);
    seat.reserve(1)?;
    handle(rt, shared, seat, packet, hint)?;
    turns.after(number, packet.id);
    Ok(())
}

// Handles the packets at places, one after another, until memory runs out. All room is taken first.
fn work_own<J: Naming, R: Wait, G: Gate + Drop, T: Turns>(
    rt: &R,
    shared: &Shared<J>,
    seat: &mut Seat<J, G>,
    packets: &[Packet],
    places: &Seq<u32>,
    turns: &T,
)
    requires of { AreOf J.function packets.now places.now }
    requires none { seat.old.calls ≡ [] }
    ensures { HasWorked packets.now places.now seat.old seat.new }
{
    match seat.reserve(places.len()) {
        Ok(()) => {}
        Err(_) => return,
    }
    let mut hint = Hint::new();
    for k in 0..places.len() {
        let packet = &packets[*places.item(k) as usize];
        match work_one(rt, shared, seat, packet, turns, &mut hint) {
            Ok(()) => {}
            Err(_) => return,
        }
    }
}

/// Each seat handles the packets at its places, in a thread of its own where one can be made. The
/// others' work is done by the caller's thread.
pub(crate) fn work_each<
    J: Naming + Send + Sync,
    R: Threads + Wait + Sync,
    G: Gate + Drop + Send,
    T: Turns + Sync,
>(
    rt: &R,
    shared: &Shared<J>,
    seats: &mut Vec<Seat<J, G>>,
    packets: &[Packet],
    own: &Seq<Seq<u32>>,
    turns: &T,
)
    requires workers { AreWorkers J.function packets.now own.now seats.old.items }
    ensures { AllHaveWorked packets.now own.now seats.old.items seats.new.items }
{
    let work = |i: usize, seat: &mut Seat<J, G>|
        requires { CanWork J.function packets.now own.now i seat.now }
        ensures { HasWorked packets.entry.now (slice_index_or own.entry.now i [])
            seat.entry.now seat.exit.now }
    { work_own(rt, shared, seat, packets, own.item(i), turns) };
    thread::for_each_mut(rt, seats.as_mut_slice(), 16, &work);
}
