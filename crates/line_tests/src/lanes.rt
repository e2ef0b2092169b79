//! Workers of the policer's queues, each in a thread of its own or without one.
ghost use Rattle.ring_line.specs.Handed.{IsNext};
ghost use Rattle.ring_line.specs.QueueWorkers.{QueueWorkerHasAnswer, QueueWorkerHalted};

use crate::policer::policer;
use nf_base::packet::Packet;
use nf_base::workers::Workers;
use ring_line::{Next, QueueWorker, Turns};
use rss_table::share;
use std::alloc::{AllocError, Global};
use std::sync::{Arc, Wait};
use std::thread::{Parker, Threads};
use vig_tables::Tables;

/// A worker of queue 0 or 1, whose packs have so many packets.
pub fn open<
    R: Threads + Wait + Clone + Send + Drop + 'static,
    G: Turns + Send + Sync + Drop + 'static,
>(
    rt: &R,
    alloc: Global,
    second: bool,
    size: usize,
    turns: &Arc<G>,
    bell: &Arc<Parker>,
) -> Result<QueueWorker<G>, AllocError> {
    let func = policer(alloc)?;
    let queue = if second { 1 } else { 0 };
    let share = share(queue, Workers::new(2));
    let tables = Tables::new(alloc, &func, share)?;
    QueueWorker::start(rt, alloc, &func, tables, share, size, turns, bell)
}

/// A worker of queue 1 without a thread.
pub fn open_beside<G: Turns + Send + Sync + Drop + 'static>(
    alloc: Global,
    turns: &Arc<G>,
) -> Result<QueueWorker<G>, AllocError> {
    let func = policer(alloc)?;
    QueueWorker::beside(alloc, &func, share(1, Workers::new(2)), turns)
}

/// Sends packets while there is room, and tells how many were sent.
pub fn send<R: Wait, G: Turns + Drop>(
    rt: &R,
    place: &mut QueueWorker<G>,
    packets: &[Packet],
) -> usize {
    let mut sent = 0usize;
    for packet in packets {
        if place.has_room() {
            place.send(rt, packet);
            sent = sent.wrapping_add(1);
        }
    }
    sent
}

/// Waits until something has come of the first packet that is in flight.
pub fn await_next<R: Wait, G: Turns + Drop>(rt: &R, place: &mut QueueWorker<G>) -> Next
    ensures { IsNext result (QueueWorkerHasAnswer place.new) (QueueWorkerHalted place.new) }
{
    for _ in rt.forever() {
        match place.next() {
            Next::Nothing => {}
            next => return next,
        }
        place.flush(rt);
        place.turn(rt);
    }
    unreachable!()
}
