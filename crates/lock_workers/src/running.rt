//! Workers that share tables, or one where they can't.
ghost use Rattle.std.specs.Prelude.{◌≡◌, ◌<◌, ◌≤◌, ◌⊎◌, ◌^◌, length, All, IfOk};
ghost use Rattle.nf_base.specs.Doors.{IsServed};
ghost use Rattle.nf_base.specs.Functions.{function_of};
ghost use Rattle.lock_mode.specs.Gates.{Rose};
ghost use Rattle.lock_mode.specs.Opening.{AreOpening};
ghost use Rattle.lock_workers.specs.Dealing.{AreDealt};
ghost use Rattle.lock_workers.specs.RunResult.{AreHandled};
ghost use Rattle.lock_workers.specs.Sharing.{IsShared, IfTogether, IfAlone};

use crate::alone::handle_all;
use crate::dealing::deal;
use crate::joining::places_of;
use crate::sharing::{SharingResult, share};
use lock_log::Order;
use lock_mode::{Closed, Gate, NewCounter};
use nf_base::func::Func;
use nf_base::packet::Packet;
use nf_base::seq::Seq;
use nf_base::state::State;
use nf_base::worker_turns::Turns;
use std::alloc::{AllocError, Global};
use std::marker::Brand;
use std::sync::Wait;
use std::thread::Threads;
use vig_tables::Tables;

/// What workers came to.
#[derive(Drop)]
pub struct RunResult {
    /// How many handled the packets: as many as were asked for, or one, where the gate refused.
    pub workers: u32,
    /// The packets in the order in which they were handled, with who handled each and what it came
    /// to.
    pub order: Order,
    /// The place of each of them among the packets.
    pub places: Vec<u32>,
    /// The state that is left.
    pub state: State,
}

// The same, where the book has no name yet.
fn share_anew<R: Threads + Wait + Sync, T: Turns + Sync, G: Gate + Drop + Send>(
    rt: &R,
    alloc: Global,
    func: &Func,
    workers: u32,
    packets: &[Packet],
    own: &Seq<Seq<u32>>,
    turns: &T,
    gate: &mut G,
) -> Result<SharingResult, AllocError>
    requires some { 0 < workers }
    requires dealt { AreDealt workers packets.now own.now }
    requires ports { All (λ p. p.id.port < length func.now.handlers) packets.now }
    requires served { All (IsServed (function_of func.now)) packets.now }
    ensures together { let f = function_of func.now in IfOk result (λ met. IfTogether met (λ closed.
        IsShared f packets.now own.now closed.order closed.tables)) }
    ensures alone { let f = function_of func.now in IfOk result (λ met. IfAlone met (λ tables.
        AreOpening f tables)) }
    ensures refused { IfOk result (λ met. IfAlone met (λ _.
        Rose (G.refused gate.old) (G.refused gate.new))) }
    ensures rises { G.refused gate.old ≤ G.refused gate.new }
{
    let book = NewCounter::new();
    share::<Brand, R, G, T>(rt, alloc, func, workers, packets, own, turns, gate, book)
}

// What workers together came to, with the place of each packet.
fn joined(
    alloc: Global,
    workers: u32,
    packets: &[Packet],
    own: &Seq<Seq<u32>>,
    func: &Func,
    closed: Closed,
) -> Result<RunResult, AllocError>
    requires some { 0 < workers }
    requires dealt { AreDealt workers packets.now own.now }
    requires shared { IsShared (function_of func.now) packets.now own.now
        closed.order closed.tables }
    ensures handled { IfOk result (λ all. AreHandled (function_of func.now) all.workers
        packets.now all.order all.places.items all.state) }
    ensures as_many { IfOk result (λ all. all.workers ≡ workers) }
{
    let Closed { tables, order } = closed;
    let places = places_of(alloc, &order, own)?;
    let state = tables.state(alloc)?;
    Ok(RunResult {
        workers,
        order,
        places,
        state,
    })
}

// What one worker comes to, in the opening tables.
fn work_alone(
    alloc: Global,
    func: &Func,
    packets: &[Packet],
    tables: Tables,
) -> Result<RunResult, AllocError>
    requires opens { AreOpening (function_of func.now) tables }
    requires few { length packets.now ≤ 2 ^ 32 }
    requires ports { All (λ p. p.id.port < length func.now.handlers) packets.now }
    requires served { All (IsServed (function_of func.now)) packets.now }
    ensures handled { IfOk result (λ all. AreHandled (function_of func.now) all.workers
        packets.now all.order all.places.items all.state) }
    ensures one { IfOk result (λ all. all.workers ≡ 1) }
{
    let mut tables = tables;
    let own = deal(alloc, packets, 1)?;
    match handle_all(alloc, func, &mut tables, packets) {
        Ok(order) => joined(alloc, 1, packets, &own, func, Closed { tables, order }),
        Err(refused) => Err(refused),
    }
}

/// Handles packets by workers that share the tables of a function: a worker has the packets whose
/// port is its number modulo theirs, and handles them in their order, in a thread of its own where
/// one can be made. Where the gate refuses a reader one worker handles them all.
///
/// A worker looks at a packet in the published tables, without waiting, and where something would
/// be written it handles it alone; where its last looks gave up it mostly does so at once. `turns`
/// is told when a worker comes to a packet and when it has handled it, and nothing depends on it.
/// `Err` is for want of memory.
pub fn run<R: Threads + Wait + Sync, T: Turns + Sync, G: Gate + Drop + Send>(
    rt: &R,
    alloc: Global,
    func: &Func,
    workers: u32,
    packets: &[Packet],
    turns: &T,
    gate: &mut G,
) -> Result<RunResult, AllocError>
    requires some { 0 < workers }
    requires few { length packets.now ≤ 2 ^ 32 }
    requires ports { All (λ p. p.id.port < length func.now.handlers) packets.now }
    requires served { All (IsServed (function_of func.now)) packets.now }
    ensures handled { IfOk result (λ all. AreHandled (function_of func.now) all.workers
        packets.now all.order all.places.items all.state) }
    // One worker did only where the gate's count rose or stands at its end.
    ensures as_many { IfOk result (λ all. (all.workers ≡ workers)
        ⊎ ((all.workers ≡ 1) × Rose (G.refused gate.old) (G.refused gate.new))) }
    ensures rises { G.refused gate.old ≤ G.refused gate.new }
{
    let own = deal(alloc, packets, workers)?;
    match share_anew(rt, alloc, func, workers, packets, &own, turns, gate) {
        Ok(SharingResult::Together(closed)) => joined(alloc, workers, packets, &own, func, closed),
        Ok(SharingResult::Alone(tables)) => work_alone(alloc, func, packets, tables),
        Err(refused) => Err(refused),
    }
}
