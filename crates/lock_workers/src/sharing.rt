// Workers in tables that they share.
ghost use Rattle.std.specs.Prelude.{◌≡◌, ◌<◌, ◌≤◌, [], length, All, IfOk};
ghost use Rattle.std.specs.Bool.{OnTrue};
ghost use Rattle.nf_base.specs.Doors.{IsServed};
ghost use Rattle.nf_base.specs.Functions.{function_of};
ghost use Rattle.lock_mode.specs.Gates.{Rose};
ghost use Rattle.lock_mode.specs.Opening.{AreNew, AreOpening};
ghost use Rattle.lock_mode.specs.Seats.{SeatState};
ghost use Rattle.lock_workers.specs.Dealing.{AreDealt};
ghost use Rattle.lock_workers.specs.Sharing.{AreAllDone, IsShared, IfTogether, IfAlone};

use crate::working::work_each;
use lock_mode::{CloseRefused, Closed, Gate, Naming, NewCounter, Opened, Seat, Shared};
use nf_base::func::Func;
use nf_base::packet::Packet;
use nf_base::seq::Seq;
use nf_base::worker_turns::Turns;
use std::alloc::{AllocError, Global};
use std::sync::Wait;
use std::thread::Threads;
use vig_tables::Tables;

// Whether each seat has called for all packets at its places.
fn are_done<J: Naming, G: Gate + Drop>(seats: &[Seat<J, G>], own: &Seq<Seq<u32>>) -> bool
    requires { length own.now ≡ length seats.now }
    ensures { OnTrue result (AreAllDone own.now seats.now) }
{
    for w in 0..seats.len() {
        if seats[w].calls().len() != own.item(w).len() {
            return false;
        }
    }
    true
}

// All seats handle the packets at their places, and what they did is put into one order.
fn work_shared<
    J: Naming + Send + Sync,
    R: Threads + Wait + Sync,
    G: Gate + Drop + Send,
    T: Turns + Sync,
>(
    rt: &R,
    alloc: Global,
    shared: Shared<J>,
    seats: Vec<Seat<J, G>>,
    packets: &[Packet],
    own: &Seq<Seq<u32>>,
    turns: &T,
) -> Result<Closed, AllocError>
    requires new { AreNew J.seats seats.items }
    requires dealt { AreDealt J.seats packets.now own.now }
    requires ports { All (λ p. p.id.port < length J.function.handlers) packets.now }
    requires served { All (IsServed J.function) packets.now }
    ensures { IfOk result (λ closed.
        IsShared J.function packets.now own.now closed.order closed.tables) }
{
    let mut seats = seats;
    work_each(rt, &shared, &mut seats, packets, own, turns);
    if !are_done(seats.as_slice(), own) {
        shared.give_up(rt, seats);
        return Err(AllocError);
    }
    match shared.close(alloc, seats) {
        Ok((closed, published)) => {
            published.end(rt);
            Ok(closed)
        }
        Err(refused) => {
            let CloseRefused { shared, seats } = refused;
            shared.give_up(rt, seats);
            Err(AllocError)
        }
    }
}

/// What sharing tables came to.
pub(crate) enum SharingResult {
    /// All packets were handled by workers together.
    Together(Closed),
    /// The gate refused a reader, and the opening tables are there for one.
    Alone(Tables),
}

/// Workers handle the packets at their places in tables that they share.
///
/// `Alone` comes only where the gate refused a reader, and `Err` for want of memory.
pub(crate) fn share<
    J: Naming + Send + Sync,
    R: Threads + Wait + Sync,
    G: Gate + Drop + Send,
    T: Turns + Sync,
>(
    rt: &R,
    alloc: Global,
    func: &Func,
    workers: u32,
    packets: &[Packet],
    own: &Seq<Seq<u32>>,
    turns: &T,
    gate: &mut G,
    book: NewCounter,
) -> Result<SharingResult, AllocError>
    requires some { 0 < workers }
    requires seats { J.seats ≡ workers }
    requires function { function_of func.now ≡ J.function }
    requires book { book.seen.book ≡ J.book }
    requires dealt { AreDealt workers packets.now own.now }
    requires ports { All (λ p. p.id.port < length func.now.handlers) packets.now }
    requires served { All (IsServed (function_of func.now)) packets.now }
    ensures together { let f = function_of func.now in IfOk result (λ met. IfTogether met (λ closed.
        IsShared f packets.now own.now closed.order closed.tables)) }
    ensures alone { let f = function_of func.now in IfOk result (λ met. IfAlone met (λ tables.
        AreOpening f tables)) }
    ensures refused { IfOk result (λ met. IfAlone met (λ _.
        Rose (G.refused gate.old) (G.refused gate.new))) }
    ensures rises { G.refused gate.old ≤ G.refused gate.new }
{
    match Shared::<J>::new(rt, alloc, func, workers, book, gate) {
        Ok(Opened::Many(shared, seats)) => {
            match work_shared(rt, alloc, shared, seats, packets, own, turns) {
                Ok(closed) => Ok(SharingResult::Together(closed)),
                Err(refused) => Err(refused),
            }
        }
        Ok(Opened::OneSeat(tables)) => Ok(SharingResult::Alone(tables)),
        Err(refused) => Err(refused),
    }
}
