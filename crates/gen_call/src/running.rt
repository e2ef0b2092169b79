//! A run over made-up traffic, from the function's file to the files that it leaves.
ghost use Rattle.std.specs.Prelude.{◌≡◌, ◌+◌, ◌≤◌, ◌∷◌, ℕ, [], length, slice_get, Some};
ghost use Rattle.nf_files.specs.Told.{IsWritten};
ghost use Rattle.nf_base.specs.Functions.{function_of};
ghost use Rattle.lock_mode.specs.Gates.{Rose};
ghost use Rattle.packet_feed.specs.Told.{EachFile};
ghost use Rattle.traffic_run.specs.Runs.{Serves};
ghost use Rattle.command_words.specs.View as view;
ghost use Rattle.call_base.specs.Names.{reading};
ghost use Rattle.call_base.specs.Leaving.{FinishesTo, HasCreated};
ghost use Rattle.call_base.specs.Outside.{Outside, HasOnlyAsked, seen};
ghost use Rattle.call_base.specs.Reading.{HasFound};
ghost use Rattle.gen_call.specs.Runs.{IsWorkerPlan};
ghost use Rattle.gen_call.specs.Ending.{GensTo};
ghost use Rattle.gen_call.specs.Progress.{IsJob, asked, leaves_of, lines_of, state_name, state_text};

use crate::job::Job;
use crate::summing::lines_on;
use crate::worker_plan::worker_plan_of;
use call_base::finishing::finish;
use call_base::layout::{FileOrder, Layout};
use call_base::loading::{Found, read_function};
use call_base::object_name::full_share;
use call_base::opening::create_targets;
use call_base::status::{End, Halt};
use command_words::GenCommand;
use lock_mode::Gate;
use nf_base::state::State;
use nf_base::worker_turns::Turns;
use nf_files::Files;
use run_history::line::Mode;
use std::alloc::Global;
use std::sync::{Arc, Wait};
use std::thread::Threads;
use stream_run::RunFault;
use traffic_run::{TrafficResult, TrafficSpec, WorkerPlan, run};

// Leaves the last state, behind a number that was given last, and prints the lines on the run.
fn leave_run<F: Files>(
    alloc: Global,
    files: &mut F,
    job: &Job,
    mode: Mode,
    state: &State,
    sent: u64,
    last: u32,
) -> Result<(), RunFault>
    requires some { 1 ≤ length job.now.func.now.handlers }
    requires last { (F.told files.old).next ≡ last + 1 }
    ensures { FinishesTo (state_name job.now) (state_text job.now state.now)
        (lines_of job.now mode state.now sent) (seen (F.told files.old) (F.counted files.old))
        (seen (F.told files.new) (F.counted files.new)) result }
{
    let out = &job.command.out;
    match lines_on(alloc, job.command, job.func, mode, state, sent) {
        Ok(lines) => finish(
            alloc,
            files,
            job.func,
            job.command.format,
            out,
            state,
            lines.as_slice(),
            last,
        ),
        Err(_) => Err(RunFault::Memory),
    }
}

// Handles all packets, and leaves what comes of them in the files that were created.
fn run_created<
    R: Threads + Wait + Clone + Send + Sync + Drop + 'static,
    F: Files,
    T: Turns + Send + Sync + Drop + 'static,
    G: Gate + Drop + Send,
>(
    rt: &R,
    alloc: Global,
    files: &mut F,
    job: &Job,
    worker_plan: &WorkerPlan,
    targets: &[u32],
    turns: &Arc<T>,
    gate: &mut G,
) -> Result<End, Halt>
    ghost before: { Outside }
    requires job { IsJob before job.now }
    requires flows { 1 ≤ (asked job.now).flows }
    requires worker_plan { IsWorkerPlan (asked job.now) (function_of job.now.func.now) worker_plan.now }
    requires serves { Serves (function_of job.now.func.now) worker_plan.now }
    requires created { EachFile (IsWritten (F.told files.old)) targets.now }
    requires ready { let l = leaves_of (asked job.now) before job.now.layout.ports in
        HasCreated l before (seen (F.told files.old) (F.counted files.old)) targets.now }
    ensures gens { let Refused = Rose (G.refused gate.old) (G.refused gate.new) in
        GensTo (asked job.now) Refused before (seen (F.told files.new) (F.counted files.new)) result }
{
    let asked = TrafficSpec {
        seed: job.command.seed,
        count: job.command.count,
        flows: job.command.flows,
        card: job.command.card,
        format: job.command.format,
    };
    let first = targets[0];
    match run(
        rt,
        alloc,
        files,
        job.func,
        worker_plan,
        asked,
        first,
        targets,
        turns,
        gate,
    ) {
        Ok(TrafficResult::Whole { mode, state, sent }) => {
            let last = targets[job.layout.ports as usize];
            match leave_run(alloc, files, job, mode, &state, sent, last) {
                Ok(()) => Ok(End::Whole),
                Err(stop) => Err(job.layout.halt(stop)),
            }
        }
        Ok(TrafficResult::Full(full)) => Ok(End::ShareFull(full_share(job.func, full.stop))),
        Err(stop) => Err(job.layout.halt(stop)),
    }
}

// Creates the outputs and the journal, and runs.
fn run_served<
    R: Threads + Wait + Clone + Send + Sync + Drop + 'static,
    F: Files,
    T: Turns + Send + Sync + Drop + 'static,
    G: Gate + Drop + Send,
>(
    rt: &R,
    alloc: Global,
    files: &mut F,
    job: &Job,
    worker_plan: &WorkerPlan,
    turns: &Arc<T>,
    gate: &mut G,
) -> Result<End, Halt>
    ghost before: { Outside }
    requires job { IsJob before job.now }
    requires flows { 1 ≤ (asked job.now).flows }
    requires worker_plan { IsWorkerPlan (asked job.now) (function_of job.now.func.now) worker_plan.now }
    requires serves { Serves (function_of job.now.func.now) worker_plan.now }
    requires next { (F.told files.old).next ≡ before.told.next + 1 }
    requires only { HasOnlyAsked (reading (asked job.now).function ∷ []) before
        (seen (F.told files.old) (F.counted files.old)) }
    ensures gens { let Refused = Rose (G.refused gate.old) (G.refused gate.new) in
        GensTo (asked job.now) Refused before (seen (F.told files.new) (F.counted files.new)) result }
{
    let Layout { first, ports, .. } = job.layout;
    let out = &job.command.out;
    match create_targets(alloc, files, job.command.format, out, ports, first) {
        Ok(targets) => run_created(
            rt,
            alloc,
            files,
            job,
            worker_plan,
            targets.as_slice(),
            turns,
            gate,
        ),
        Err(stop) => Err(job.layout.halt(stop)),
    }
}

// Runs, where it is known who handles the packets.
fn run_found<
    R: Threads + Wait + Clone + Send + Sync + Drop + 'static,
    F: Files,
    T: Turns + Send + Sync + Drop + 'static,
    G: Gate + Drop + Send,
>(
    rt: &R,
    alloc: Global,
    files: &mut F,
    command: &GenCommand,
    found: &Found,
    turns: &Arc<T>,
    gate: &mut G,
) -> Result<End, Halt>
    ghost before: { Outside }
    requires flows { 1 ≤ (view.gen command.now).flows }
    requires found { HasFound (view.gen command.now).function before
        (seen (F.told files.old) (F.counted files.old)) found.now }
    ensures gens { let Refused = Rose (G.refused gate.old) (G.refused gate.new) in
        GensTo (view.gen command.now) Refused before
        (seen (F.told files.new) (F.counted files.new)) result }
{
    let func = &found.source.func;
    let worker_plan = match worker_plan_of(alloc, command, func) {
        Ok(worker_plan) => worker_plan,
        Err(halt) => return Err(halt),
    };
    let job = Job {
        command,
        func,
        layout: Layout {
            first: found.file,
            captures: 0,
            ports: func.handlers.len(),
            behind: FileOrder::Created,
        },
    };
    run_served(rt, alloc, files, &job, &worker_plan, turns, gate)
}

/// Runs a function over the traffic that is asked for, and sums the run up.
pub fn generate<
    R: Threads + Wait + Clone + Send + Sync + Drop + 'static,
    F: Files,
    T: Turns + Send + Sync + Drop + 'static,
    G: Gate + Drop + Send,
>(
    rt: &R,
    alloc: Global,
    files: &mut F,
    command: &GenCommand,
    turns: &Arc<T>,
    gate: &mut G,
) -> Result<End, Halt>
    ghost before: { Outside }
    requires begins { seen (F.told files.old) (F.counted files.old) ≡ before }
    requires flows { 1 ≤ (view.gen command.now).flows }
    ensures gens { let Refused = Rose (G.refused gate.old) (G.refused gate.new) in
        GensTo (view.gen command.now) Refused before
        (seen (F.told files.new) (F.counted files.new)) result }
{
    match read_function(alloc, files, &command.function) {
        Ok(found) => run_found(rt, alloc, files, command, &found, turns, gate),
        Err(none) => Err(none.halt()),
    }
}
