//! The end of all workers.
ghost use Rattle.std.specs.Prelude.{◌≡◌, ◌≤◌, ◌<◌, ◌+◌, List, [], ◌∷◌, ◌++◌, length};
ghost use Rattle.std.specs.Vec.{vec_capacity};
ghost use Rattle.nf_base.specs.declared.packet.Packet as arrival;
ghost use Rattle.shard_machine.specs.Machine.{Setup};
ghost use Rattle.shard_core.specs.declared.collected.Collected as got;
ghost use Rattle.ring_line.specs.Lines.{LineStands, LineFinishes, AreFinished, MovesOn};

use super::Line;
use crate::queue_worker::QueueWorker;
use nf_base::seq::Seq;
use nf_base::worker_turns::Turns;
use std::sync::Wait;
use std::thread::Threads;
use vig_tables::Tables;

impl<G: Turns + Drop> Line<G> {
    /// Ends all workers once they have worked what was sent, and hands their tables out, in the order of
    /// their queues. It takes no memory.
    pub fn finish<R: Threads + Wait>(self, rt: &R) -> Vec<Tables>
        ensures count { length result.items ≡ length self.queue_workers }
        ensures finishes { (x : Setup) → (packets : List arrival.Packet) →
            (got : List got.Collected) → LineStands self x packets got →
            LineFinishes self x packets got result.items }
    {
        let Line {
            queue_workers,
            order: _,
            parts,
            time: _,
        } = self;
        finish_all(rt, queue_workers, parts)
    }
}

/// Ends workers, one after another, and keeps their tables: there is room for them.
pub(crate) fn finish_all<R: Threads + Wait, G: Turns + Drop>(
    rt: &R,
    queue_workers: Seq<QueueWorker<G>>,
    parts: Vec<Tables>,
) -> Vec<Tables>
    requires none { parts.items ≡ [] }
    requires room { length queue_workers ≤ vec_capacity parts }
    ensures { AreFinished queue_workers result.items }
{
    let mut queue_workers = queue_workers;
    let mut parts = parts;
    for w in 0..queue_workers.len() {
        finish_first(rt, &mut queue_workers, &mut parts);
    }
    parts
}

/// Ends the first of some workers, and keeps its tables behind the others.
fn finish_first<R: Threads + Wait, G: Turns + Drop>(
    rt: &R,
    queue_workers: &mut Seq<QueueWorker<G>>,
    parts: &mut Vec<Tables>,
)
    requires some { 0 < length queue_workers.old }
    requires room { length parts.old.items < vec_capacity parts.old }
    ensures moved { MovesOn queue_workers.old parts.old.items queue_workers.new parts.new.items }
    ensures left { length queue_workers.old ≡ length queue_workers.new + 1 }
    ensures long { length parts.new.items ≡ length parts.old.items + 1 }
    ensures capacity { vec_capacity parts.new ≡ vec_capacity parts.old }
{
    let queue_worker = queue_workers.remove_first();
    parts.push_reserved(queue_worker.finish(rt));
}
