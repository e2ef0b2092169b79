// Workers that work what waits for them, each in a thread of its own.
ghost use Rattle.std.specs.Prelude.{◌≡◌, ◌≤◌, ◌<◌, ℕ, true, false, List, suc, length, Some, slice_get};
ghost use Rattle.std.specs.Vec.{vec_len};
ghost use denote.Param.Send.{IsSync};
ghost use Rattle.nf_base.specs.Functions.{function_of};
ghost use Rattle.shard_machine.specs.Machine.{Setup, Machine};
ghost use Rattle.shard_core.specs.Held.{Held, WorkedTimes, first_id};
ghost use Rattle.shard_core.specs.Sharded.{StandsFor, IsWhole, IsWorker};
ghost use Rattle.shard_core.specs.Plays.{SameSize};
ghost use Rattle.shard_rounds.specs.Workings.{AreWorkers, CanWork, WorkedThrough, AllWorkedThrough, WentOn, WorkedAll};

use nf_base::func::Func;
use nf_base::packet::PacketId;
use nf_base::worker_turns::Turns;
use shard_core::{Shards, Worker};
use shard_machine::Worked;
use std::thread;
use std::thread::{Threads, join_mut};

/// Lets each worker work all that waits for it, in a thread of its own where one can be made.
pub fn work_apart<R: Threads + Sync, G: Turns + Sync>(rt: &R, shards: &mut Shards, turns: &G)
    requires { IsWhole shards.old }
    ensures worked { (x : Setup) → (m : Machine) → StandsFor x m shards.old →
        WorkedAll x m shards.new }
    ensures left { length shards.new.queues.items ≡ length shards.old.queues.items }
    ensures size { SameSize shards.old shards.new }
{
    let mut workers = shards.apart();
    work_each(rt, &mut workers, shards.func(), turns);
    shards.together(workers);
}

/// The same in other threads, where one can be made, while this one calls something else.
pub fn work_beside<R: Threads + Sync, G: Turns + Sync, H: FnMut() -> B, B>(
    rt: &R,
    shards: &mut Shards,
    turns: &G,
    other: &mut H,
) -> B
    requires whole { IsWhole shards.old }
    requires other { H.pre other.old }
    ensures worked { (x : Setup) → (m : Machine) → StandsFor x m shards.old →
        WorkedAll x m shards.new }
    ensures left { length shards.new.queues.items ≡ length shards.old.queues.items }
    ensures size { SameSize shards.old shards.new }
    ensures other { H.step other.old result other.new }
{
    let mut workers = shards.apart();
    let came = each_beside(rt, &mut workers, shards.func(), turns, other);
    shards.together(workers);
    came
}

/// The same of workers alone.
fn each_beside<R: Threads + Sync, G: Turns + Sync, H: FnMut() -> B, B>(
    rt: &R,
    workers: &mut Vec<Worker>,
    func: &Func,
    turns: &G,
    other: &mut H,
) -> B
    requires workers { AreWorkers func.now workers.old.items }
    requires other { H.pre other.old }
    ensures worked { AllWorkedThrough (function_of func.now) workers.old.items workers.new.items }
    ensures other { H.step other.old result other.new }
{
    let mut work = ||
        requires { IsSync R.row × IsSync G.row × AreWorkers func.now workers.now.items }
        ensures { let f = function_of func.entry.now in
            AllWorkedThrough f workers.entry.now.items workers.exit.now.items }
    { work_each(rt, workers, func, turns) };
    let (_, came) = join_mut(rt, &mut work, other);
    came
}

/// Lets workers alone work all that waits for them, each in a thread of its own where one can be
/// made. The others' work is done by the caller's thread.
fn work_each<R: Threads + Sync, G: Turns + Sync>(
    rt: &R,
    workers: &mut Vec<Worker>,
    func: &Func,
    turns: &G,
)
    requires { AreWorkers func.now workers.old.items }
    ensures { AllWorkedThrough (function_of func.now) workers.old.items workers.new.items }
{
    let work = |i: usize, worker: &mut Worker|
        requires { (i < 16) × CanWork func.now worker.now }
        ensures { WorkedThrough (function_of func.entry.now) worker.entry.now worker.exit.now }
    { work_all(worker, func, i as u32, turns) };
    thread::for_each_mut(rt, workers.as_mut_slice(), 16, &work);
}

/// Works all that waits for a worker, up to and with the packet that it stops at.
fn work_all<G: Turns>(worker: &mut Worker, func: &Func, number: u32, turns: &G)
    requires { CanWork func.now worker.old }
    ensures { WorkedThrough (function_of func.now) worker.old worker.new }
{
    while let Some(packet) = worker.waiting() {
        if !work_one(worker, func, number, turns, packet) {
            return;
        }
    }
}

/// Works the packet that comes next, and tells whether the worker goes on.
fn work_one<G: Turns>(
    worker: &mut Worker,
    func: &Func,
    number: u32,
    turns: &G,
    packet: PacketId,
) -> bool
    requires can { CanWork func.now worker.old }
    requires waits { first_id worker.old.waiting ≡ Some packet }
    ensures can { CanWork func.now worker.new }
    ensures times { (n : ℕ) → (first : Held) →
        WorkedTimes (function_of func.now) first n worker.old →
        WorkedTimes (function_of func.now) first (suc n) worker.new }
    ensures went { WentOn result worker.old worker.new }
{
    turns.before(number, packet);
    match worker.work(func) {
        Worked::Done => {
            turns.after(number, packet);
            true
        }
        Worked::Stopped => false,
        Worked::Idle => unreachable!(),
    }
}
