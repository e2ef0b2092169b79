//! Workers of all queues are started.
ghost use Rattle.std.specs.Prelude.{◌≡◌, ◌≤◌, ◌<◌, ◌+◌, [], length, IfOk, OnOk};
ghost use Rattle.std.specs.Vec.{vec_capacity};
ghost use Rattle.nf_base.specs.Functions.{function_of};
ghost use Rattle.shard_machine.specs.Machine.{Setup};
ghost use Rattle.shard_machine.specs.Moments.{IsSetup};
ghost use Rattle.ring_line.specs.QueueWorkers.{all_in_flight};
ghost use Rattle.ring_line.specs.Openings.{AreOpenedFrom};
ghost use Rattle.ring_line.specs.Lines.{LineStands, AreStarted};

use super::finish::finish_all;
use super::{ALL_IN_FLIGHT, Line};
use crate::opening::{Opened, open_each};
use crate::queue_worker::QueueWorker;
use nf_base::func::Func;
use nf_base::seq::Seq;
use nf_base::worker_turns::Turns;
use nf_base::workers::Workers;
use std::alloc::{AllocError, Global};
use std::collections::VecDeque;
use std::sync::{Arc, Wait};
use std::thread::{Parker, Threads};

impl<G: Turns + Send + Sync + Drop + 'static> Line<G> {
    /// Starts a worker of each queue, in a thread of its own where one can be started. A pack goes out once
    /// it has so many packets, 64 at most, or when an answer is waited for.
    ///
    /// Tables are opened side by side. `turns` is told of each packet that a worker comes to. At an `Err` no
    /// worker is left running.
    pub fn start<R: Threads + Wait + Clone + Send + Sync + Drop + 'static>(
        rt: &R,
        alloc: Global,
        func: &Func,
        workers: Workers,
        size: usize,
        turns: &Arc<G>,
    ) -> Result<Line<G>, AllocError>
        ensures stands { IfOk result (λ line. (x : Setup) → IsSetup x →
            x.function ≡ function_of func.now → x.workers ≡ workers →
            LineStands line x [] []) }
        ensures queues { IfOk result (λ line. length line.queue_workers ≡ workers) }
        ensures none { IfOk result (λ line. line.order.items ≡ []) }
    {
        let opened = open_each(rt, alloc, func, workers)?;
        let order = VecDeque::with_capacity(alloc, ALL_IN_FLIGHT)?;
        let parts = Vec::with_capacity(alloc, 16)?;
        let mut queue_workers = Vec::with_capacity(alloc, 16)?;
        match start_all(
            rt,
            alloc,
            func,
            opened,
            workers,
            size,
            turns,
            &mut queue_workers,
        ) {
            Ok(()) => Ok(Line {
                queue_workers: Seq::from_vec(queue_workers),
                order,
                parts,
                time: 0,
            }),
            Err(fault) => {
                finish_all(rt, Seq::from_vec(queue_workers), parts);
                Err(fault)
            }
        }
    }
}

/// Starts workers, of one queue after another, each with its tables. There is room for them.
fn start_all<
    R: Threads + Wait + Clone + Send + Drop + 'static,
    G: Turns + Send + Sync + Drop + 'static,
>(
    rt: &R,
    alloc: Global,
    func: &Func,
    opened: Seq<Opened>,
    workers: Workers,
    size: usize,
    turns: &Arc<G>,
    queue_workers: &mut Vec<QueueWorker<G>>,
) -> Result<(), AllocError>
    requires opened { AreOpenedFrom (function_of func.now) workers 0 opened }
    requires new { queue_workers.old.items ≡ [] }
    requires room { 16 ≤ vec_capacity queue_workers.old }
    ensures started { OnOk result (AreStarted (function_of func.now) workers queue_workers.new.items) }
    ensures all { OnOk result (length queue_workers.new.items ≡ workers) }
    ensures most { length queue_workers.new.items ≤ 16 }
    ensures none { OnOk result (all_in_flight queue_workers.new.items ≡ 0) }
{
    let bell = Arc::new(alloc, Parker::new())?;
    let mut opened = opened;
    for queue in 0..workers.get() {
        let Ok(tables) = opened.remove_first() else {
            return Err(AllocError);
        };
        let share = tables.share();
        match QueueWorker::start(rt, alloc, func, tables, share, size, turns, &bell) {
            Ok(queue_worker) => queue_workers.push_reserved(queue_worker),
            Err(fault) => return Err(fault),
        }
    }
    Ok(())
}
