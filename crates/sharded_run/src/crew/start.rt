//! The workers of a run are started, and ended.
ghost use Rattle.std.specs.Prelude.{◌≡◌, [], List, length, IfOk};
ghost use Rattle.nf_base.specs.declared.packet.Packet.{Packet};
ghost use Rattle.nf_base.specs.Functions.{function_of};
ghost use Rattle.shard_machine.specs.Machine.{Setup};
ghost use Rattle.shard_core.specs.declared.collected.Collected.{Collected};
ghost use Rattle.ring_line.specs.Lines.{LineStands, LineFinishes};
ghost use Rattle.sharded_run.specs.Passing.{IsNewCrew};

use super::Crew;
use crate::frames::Frames;
use crate::plain_answer::PlainAnswer;
use crate::router::Router;
use nf_base::func::Func;
use nf_base::keys::Keys;
use nf_base::workers::Workers;
use ring_line::{Line, Turns};
use std::alloc::{AllocError, Global};
use std::sync::{Arc, Wait};
use std::thread::Threads;
use vig_tables::Tables;

// How many packets a pack has: with few workers small packs keep all at work.
fn pack_size(workers: Workers) -> usize {
    let count = workers.get();
    if count < 4 {
        16
    } else if count < 8 {
        32
    } else {
        64
    }
}

impl<G: Turns + Send + Sync + Drop + 'static> Crew<G> {
    /// Workers of a function, before the first packet, with a key for each of its ports.
    pub(crate) fn start<R: Threads + Wait + Clone + Send + Sync + Drop + 'static>(
        rt: &R,
        alloc: Global,
        func: &Func,
        keys: &Keys,
        workers: Workers,
        turns: &Arc<G>,
    ) -> Result<Crew<G>, AllocError>
        ensures { IfOk result (λ crew. IsNewCrew crew func.now keys.now workers) }
    {
        let router = Router::new(alloc, keys, workers)?;
        let line = Line::start(rt, alloc, func, workers, pack_size(workers), turns)?;
        Ok(Crew {
            line,
            frames: Frames::new(alloc),
            router,
            ports: func.handlers.len(),
            plain: PlainAnswer::new(),
            met: None,
        })
    }
}

impl<G: Turns + Drop> Crew<G> {
    /// Ends all workers, and hands their tables out, with the time of the last handled packet that was
    /// collected.
    pub(crate) fn finish<R: Threads + Wait>(self, rt: &R) -> (Vec<Tables>, u64)
        ensures finishes { (x : Setup) → (packets : List Packet) → (got : List Collected) →
            LineStands self.line x packets got →
            LineFinishes self.line x packets got result.0.items }
        ensures time { result.1 ≡ self.line.time }
    {
        let Crew {
            line,
            frames: _,
            router: _,
            ports: _,
            plain: _,
            met: _,
        } = self;
        let time = line.time();
        (line.finish(rt), time)
    }
}
