//! A run, from its files to the files that it leaves.
ghost use Rattle.std.specs.Prelude.{◌≡◌, ◌+◌, ◌≤◌, ◌∷◌, [], length, ℕ};
ghost use Rattle.nf_base.specs.Functions.{function_of};
ghost use Rattle.nf_files.specs.Told.{IsEmptyIfTold, IsRead, IsWritten};
ghost use Rattle.packet_feed.specs.Told.{EachFile};
ghost use Rattle.command_words.specs.View as view;
ghost use Rattle.call_base.specs.Names.{reading};
ghost use Rattle.call_base.specs.Outside.{Outside, HasOnlyAsked, seen};
ghost use Rattle.call_base.specs.Reading.{HasFound};
ghost use Rattle.run_call.specs.Ending.{RunsTo};
ghost use Rattle.run_call.specs.Modes.{IsWorkerPlan, Serves};
ghost use Rattle.run_call.specs.Progress.{IsJob, HasFed, HasReady, asked};
ghost use Rattle.run_call.specs.declared.worker_plan.WorkerPlan.TheVariants.{Shards, Tables};
ghost use Rattle.lock_mode.specs.Gates.{Rose};

use crate::job::Job;
use crate::leaving::{leave_ran, print_ran};
use crate::worker_plan::{WorkerPlan, worker_plan_of};
use call_base::inputs::{Inputs, open_inputs};
use call_base::layout::{FileOrder, Layout};
use call_base::loading::{Found, read_function};
use call_base::object_name::full_share;
use call_base::opening::create_targets;
use call_base::status::{End, Halt, Refusal};
use command_words::RunCommand;
use lock_mode::Gate;
use locked_run::run as run_locked;
use nf_base::keys::Keys;
use nf_base::worker_turns::Turns;
use nf_files::Files;
use packet_feed::Feed;
use run_history::line::Mode;
use sharded_run::{ShardedResult, run as run_sharded};
use std::alloc::Global;
use std::sync::{Arc, Wait};
use std::thread::Threads;
use stream_run::run as run_stream;

// Handles all packets by one worker, and leaves what comes of them in the files that were created.
fn run_one<F: Files>(
    alloc: Global,
    files: &mut F,
    job: &Job,
    feed: &mut Feed,
    captures: &[u32],
    targets: &[u32],
) -> Result<End, Halt>
    ghost before: { Outside }
    requires job { IsJob before.told job.now }
    requires alone { (asked job.now).workers ≡ 1 }
    requires opened { EachFile (IsRead (F.told files.old)) captures.now }
    requires created { EachFile (IsWritten (F.told files.old)) targets.now }
    requires ready { HasReady before (seen (F.told files.old) (F.counted files.old)) job.now
        captures.now targets.now feed.old }
    ensures runs { (old new : ℕ) → RunsTo (Rose old new) (asked job.now) before
        (seen (F.told files.new) (F.counted files.new)) result }
{
    let (card, format) = (job.command.card, job.command.format);
    match run_stream(
        alloc, files, job.func, card, format, feed, captures, targets,
    ) {
        Ok(ran) => {
            let last = targets[job.layout.ports as usize];
            leave_ran(alloc, files, job, Mode::One, &ran, feed.torn(), last)
        }
        Err(stop) => Err(job.layout.halt(stop)),
    }
}

// The same by several workers, under these keys.
fn run_shards<
    R: Threads + Wait + Clone + Send + Sync + Drop + 'static,
    F: Files,
    G: Turns + Send + Sync + Drop + 'static,
>(
    rt: &R,
    alloc: Global,
    files: &mut F,
    job: &Job,
    keys: &Keys,
    feed: &mut Feed,
    captures: &[u32],
    targets: &[u32],
    turns: &Arc<G>,
) -> Result<End, Halt>
    ghost before: { Outside }
    requires job { IsJob before.told job.now }
    requires several { IsWorkerPlan (asked job.now) (function_of job.now.func.now) (Shards keys.now) }
    requires opened { EachFile (IsRead (F.told files.old)) captures.now }
    requires created { EachFile (IsWritten (F.told files.old)) targets.now }
    requires ready { HasReady before (seen (F.told files.old) (F.counted files.old)) job.now
        captures.now targets.now feed.old }
    ensures runs { (old new : ℕ) → RunsTo (Rose old new) (asked job.now) before
        (seen (F.told files.new) (F.counted files.new)) result }
{
    let workers = job.command.workers;
    let (card, format) = (job.command.card, job.command.format);
    match run_sharded(
        rt, alloc, files, job.func, keys, workers, card, format, feed, captures, targets, turns,
    ) {
        Ok(ShardedResult::Ran(ran)) => {
            let last = targets[job.layout.ports as usize];
            leave_ran(alloc, files, job, Mode::Shard, &ran, feed.torn(), last)
        }
        Ok(ShardedResult::Full(full)) => {
            let end = End::ShareFull(full_share(job.func, full.stop));
            print_ran(files, job, Mode::Shard, full.packets, end)
        }
        Err(stop) => Err(job.layout.halt(stop)),
    }
}

// The same by several workers that share the tables.
fn run_tables<R: Threads + Wait + Sync, F: Files, G: Turns + Sync, L: Gate + Drop + Send>(
    rt: &R,
    alloc: Global,
    files: &mut F,
    job: &Job,
    feed: &mut Feed,
    captures: &[u32],
    targets: &[u32],
    turns: &G,
    gate: &mut L,
) -> Result<End, Halt>
    ghost before: { Outside }
    requires job { IsJob before.told job.now }
    requires several { IsWorkerPlan (asked job.now) (function_of job.now.func.now) Tables }
    requires opened { EachFile (IsRead (F.told files.old)) captures.now }
    requires created { EachFile (IsWritten (F.told files.old)) targets.now }
    requires ready { HasReady before (seen (F.told files.old) (F.counted files.old)) job.now
        captures.now targets.now feed.old }
    ensures runs { RunsTo (Rose (L.refused gate.old) (L.refused gate.new)) (asked job.now) before
        (seen (F.told files.new) (F.counted files.new)) result }
{
    let workers = job.command.workers;
    let (card, format) = (job.command.card, job.command.format);
    match run_locked(
        rt, alloc, files, job.func, workers, card, format, feed, captures, targets, turns, gate,
    ) {
        Ok(came) => {
            let last = targets[job.layout.ports as usize];
            leave_ran(alloc, files, job, came.mode, &came.ran, feed.torn(), last)
        }
        Err(stop) => Err(job.layout.halt(stop)),
    }
}

// Handles all packets, and leaves what comes of them in the files that were created.
fn run_ready<
    R: Threads + Wait + Clone + Send + Sync + Drop + 'static,
    F: Files,
    G: Turns + Send + Sync + Drop + 'static,
    L: Gate + Drop + Send,
>(
    rt: &R,
    alloc: Global,
    files: &mut F,
    job: &Job,
    feed: &mut Feed,
    captures: &[u32],
    targets: &[u32],
    turns: &Arc<G>,
    gate: &mut L,
) -> Result<End, Halt>
    ghost before: { Outside }
    requires job { IsJob before.told job.now }
    requires opened { EachFile (IsRead (F.told files.old)) captures.now }
    requires created { EachFile (IsWritten (F.told files.old)) targets.now }
    requires ready { HasReady before (seen (F.told files.old) (F.counted files.old)) job.now
        captures.now targets.now feed.old }
    ensures runs { RunsTo (Rose (L.refused gate.old) (L.refused gate.new)) (asked job.now) before
        (seen (F.told files.new) (F.counted files.new)) result }
{
    match job.worker_plan {
        WorkerPlan::One => run_one(alloc, files, job, feed, captures, targets),
        WorkerPlan::Shards(keys) => run_shards(
            rt, alloc, files, job, keys, feed, captures, targets, turns,
        ),
        WorkerPlan::Tables => run_tables(
            rt, alloc, files, job, feed, captures, targets, &**turns, gate,
        ),
    }
}

// Creates the outputs and the journal, and runs.
fn run_fed<
    R: Threads + Wait + Clone + Send + Sync + Drop + 'static,
    F: Files,
    G: Turns + Send + Sync + Drop + 'static,
    L: Gate + Drop + Send,
>(
    rt: &R,
    alloc: Global,
    files: &mut F,
    job: &Job,
    feed: &mut Feed,
    captures: &[u32],
    turns: &Arc<G>,
    gate: &mut L,
) -> Result<End, Halt>
    ghost before: { Outside }
    requires job { IsJob before.told job.now }
    requires opened { EachFile (IsRead (F.told files.old)) captures.now }
    requires fed { HasFed before (seen (F.told files.old) (F.counted files.old)) job.now
        captures.now feed.old }
    ensures runs { RunsTo (Rose (L.refused gate.old) (L.refused gate.new)) (asked job.now) before
        (seen (F.told files.new) (F.counted files.new)) result }
{
    let ports = job.layout.ports;
    let last = captures[ports as usize - 1];
    let out = &job.command.out;
    match create_targets(alloc, files, job.command.format, out, ports, last) {
        Ok(targets) => {
            let targets = targets.as_slice();
            run_ready(rt, alloc, files, job, feed, captures, targets, turns, gate)
        }
        Err(stop) => Err(job.layout.halt(stop)),
    }
}

// Opens the captures, and runs.
fn run_job<
    R: Threads + Wait + Clone + Send + Sync + Drop + 'static,
    F: Files,
    G: Turns + Send + Sync + Drop + 'static,
    L: Gate + Drop + Send,
>(
    rt: &R,
    alloc: Global,
    files: &mut F,
    job: &Job,
    turns: &Arc<G>,
    gate: &mut L,
) -> Result<End, Halt>
    ghost before: { Outside }
    requires job { IsJob before.told job.now }
    requires next { (F.told files.old).next ≡ before.told.next + 1 }
    requires only { HasOnlyAsked (reading (asked job.now).function ∷ []) before
        (seen (F.told files.old) (F.counted files.old)) }
    ensures runs { RunsTo (Rose (L.refused gate.old) (L.refused gate.new)) (asked job.now) before
        (seen (F.told files.new) (F.counted files.new)) result }
{
    let names = job.command.captures.as_slice();
    match open_inputs(alloc, files, job.func, names, job.command.most, job.layout) {
        Ok(Inputs { captures, mut feed }) => {
            let captures = captures.as_slice();
            run_fed(rt, alloc, files, job, &mut feed, captures, turns, gate)
        }
        Err(halt) => Err(halt),
    }
}

// Runs, where it is known who handles the packets.
fn run_served<
    R: Threads + Wait + Clone + Send + Sync + Drop + 'static,
    F: Files,
    G: Turns + Send + Sync + Drop + 'static,
    L: Gate + Drop + Send,
>(
    rt: &R,
    alloc: Global,
    files: &mut F,
    command: &RunCommand,
    found: &Found,
    worker_plan: &WorkerPlan,
    turns: &Arc<G>,
    gate: &mut L,
) -> Result<End, Halt>
    ghost before: { Outside }
    requires some { 1 ≤ length command.now.captures.items }
    requires few { length command.now.captures.items ≤ 4 }
    requires as_many { length command.now.captures.items ≡ length found.now.source.func.handlers }
    requires worker_plan { IsWorkerPlan (view.run command.now) (function_of found.now.source.func) worker_plan.now }
    requires found { HasFound (view.run command.now).function before
        (seen (F.told files.old) (F.counted files.old)) found.now }
    ensures runs { RunsTo (Rose (L.refused gate.old) (L.refused gate.new)) (view.run command.now)
        before (seen (F.told files.new) (F.counted files.new)) result }
{
    let func = &found.source.func;
    let ports = func.handlers.len();
    let layout = Layout {
        first: found.file,
        captures: ports,
        ports,
        behind: FileOrder::Created,
    };
    let job = Job {
        command,
        func,
        worker_plan,
        layout,
    };
    run_job(rt, alloc, files, &job, turns, gate)
}

// Runs, where the captures are as many as the function's ports, and it has keys where they are needed.
fn run_found<
    R: Threads + Wait + Clone + Send + Sync + Drop + 'static,
    F: Files,
    G: Turns + Send + Sync + Drop + 'static,
    L: Gate + Drop + Send,
>(
    rt: &R,
    alloc: Global,
    files: &mut F,
    command: &RunCommand,
    found: &Found,
    turns: &Arc<G>,
    gate: &mut L,
) -> Result<End, Halt>
    ghost before: { Outside }
    requires some { 1 ≤ length command.now.captures.items }
    requires few { length command.now.captures.items ≤ 4 }
    requires found { HasFound (view.run command.now).function before
        (seen (F.told files.old) (F.counted files.old)) found.now }
    ensures runs { RunsTo (Rose (L.refused gate.old) (L.refused gate.new)) (view.run command.now)
        before (seen (F.told files.new) (F.counted files.new)) result }
{
    let func = &found.source.func;
    if command.captures.len() != func.handlers.len() as usize {
        return Err(Halt::Refusal(Refusal::Usage));
    }
    match worker_plan_of(alloc, command, func) {
        Ok(worker_plan) => run_served(rt, alloc, files, command, found, &worker_plan, turns, gate),
        Err(halt) => Err(halt),
    }
}

/// Does the run that is asked for.
pub fn run<
    R: Threads + Wait + Clone + Send + Sync + Drop + 'static,
    F: Files,
    G: Turns + Send + Sync + Drop + 'static,
    L: Gate + Drop + Send,
>(
    rt: &R,
    alloc: Global,
    files: &mut F,
    command: &RunCommand,
    turns: &Arc<G>,
    gate: &mut L,
) -> Result<End, Halt>
    ghost before: { Outside }
    requires begins { seen (F.told files.old) (F.counted files.old) ≡ before }
    requires some { 1 ≤ length command.now.captures.items }
    requires few { length command.now.captures.items ≤ 4 }
    ensures runs { RunsTo (Rose (L.refused gate.old) (L.refused gate.new)) (view.run command.now)
        before (seen (F.told files.new) (F.counted files.new)) result }
{
    match read_function(alloc, files, &command.function) {
        Ok(found) => run_found(rt, alloc, files, command, &found, turns, gate),
        Err(none) => Err(none.halt()),
    }
}
