//! A whole run of made-up traffic.
ghost use Rattle.std.specs.Prelude.{◌≡◌, ◌+◌, ◌<◌, ◌≤◌, ◌^◌, ℕ, List, [], Some, true, length, slice_get, nat_lt};
ghost use Rattle.nf_base.specs.Functions.{function_of};
ghost use Rattle.nf_base.specs.Doors.{six_ports};
ghost use Rattle.lock_mode.specs.Gates.{Rose};
ghost use Rattle.nf_files.specs.Told.{Told, IsEmptyIfTold, IsWritten};
ghost use Rattle.packet_feed.specs.Told.{EachFile, IsApart};
ghost use Rattle.made_captures.specs.Captures.{IsMade};
ghost use Rattle.made_captures.specs.Told.{with_made};
ghost use Rattle.made_captures.specs.Outputs.{counts_right, journal_of, told_beside};
ghost use Rattle.traffic_run.specs.TrafficSpecs.{asked_for};
ghost use Rattle.traffic_run.specs.Runs.{ArePackets, Leaves, Serves, Runs};
ghost use Rattle.traffic_run.specs.Beside.{AreBefore, CountsTo, StaysKnown, told_file, came_of};
ghost use Rattle.stream_run.specs.Writing.{WentOn};
ghost use Rattle.stream_run.specs.Given.{HasTargets};

use crate::handling::run_over;
use crate::result::{TrafficResult, UncountedResult};
use crate::sent::records_in;
use crate::traffic_spec::TrafficSpec;
use crate::worker_plan::WorkerPlan;
use capture_format::CaptureFormat;
use lock_mode::Gate;
use made_captures::laws::captures_are_traffic;
use made_captures::{Captures, MadeCaptures, Outputs};
use nf_base::func::Func;
use nf_base::worker_turns::Turns;
use nf_files::Files;
use std::alloc::Global;
use std::sync::{Arc, Wait};
use std::thread::Threads;
use stream_run::RunFault;

// Packets are handled of captures that stand beside the files.
fn run_beside<
    'a,
    R: Threads + Wait + Clone + Send + Sync + Drop + 'static,
    F: Files,
    T: Turns + Send + Sync + Drop + 'static,
    G: Gate + Drop + Send,
>(
    rt: &R,
    alloc: Global,
    beside: &mut MadeCaptures<'a, F>,
    func: &Func,
    worker_plan: &WorkerPlan,
    asked: &TrafficSpec,
    captures: &[u32],
    targets: &[u32],
    turns: &Arc<T>,
    gate: &mut G,
) -> Result<UncountedResult, RunFault>
    requires serves { Serves (function_of func.now) worker_plan.now }
    requires right { counts_right beside.old.outputs (F.told beside.old.files.now) ≡ true }
    requires made { let all = asked_for asked.now (length func.now.handlers) in
        let six = six_ports (function_of func.now) in
        ArePackets six captures.now (told_beside beside.old.captures.now beside.old.files.ghost_name
        beside.old.outputs (F.told beside.old.files.now) (F.counted beside.old.files.now)) all }
    requires alone { IsApart captures.now }
    requires opened { EachFile (IsMade beside.old.captures.now) captures.now }
    requires before { AreBefore beside.old.outputs targets.now }
    requires low { journal_of beside.old.outputs + length beside.old.captures.now < 2 ^ 32 }
    requires ports { length captures.now ≡ length func.now.handlers }
    requires some_port { 1 ≤ length func.now.handlers }
    requires few_ports { length captures.now ≤ 4 }
    requires targets { HasTargets func.now targets.now (F.told beside.old.files.now) }
    ensures same_files { beside.new.files.ghost_name ≡ beside.old.files.ghost_name }
    ensures leaves { let Refused = Rose (G.refused gate.old) (G.refused gate.new) in
        let all = asked_for asked.now (length func.now.handlers) in
        Leaves worker_plan.now asked.now.card asked.now.format Refused (function_of func.now) all
        (F.told beside.new.files.now) targets.now result }
    ensures counts { let c = beside.old.outputs in
        CountsTo c.first c.count (F.told beside.new.files.now) beside.new.outputs.bytes }
    ensures known { StaysKnown (journal_of beside.old.outputs)
        (F.counted beside.old.files.now) (F.counted beside.new.files.now) }
    ensures went { let told = F.told beside.old.files.now in
        let counted = F.counted beside.old.files.now in
        WentOn captures.now targets.now told (F.told beside.new.files.now)
        counted (F.counted beside.new.files.now) result }
{
    run_over(
        rt,
        alloc,
        beside,
        func,
        worker_plan,
        asked,
        captures,
        targets,
        turns,
        gate,
    )
}

/// What handling packets came to, and how many bytes the outputs were given, modulo 2^64.
#[derive(Drop)]
struct Handled {
    result: Result<UncountedResult, RunFault>,
    bytes: u64,
}

// The same where they are put there.
fn run_made<
    R: Threads + Wait + Clone + Send + Sync + Drop + 'static,
    F: Files,
    T: Turns + Send + Sync + Drop + 'static,
    G: Gate + Drop + Send,
>(
    rt: &R,
    alloc: Global,
    files: &mut F,
    made: Captures,
    func: &Func,
    worker_plan: &WorkerPlan,
    asked: &TrafficSpec,
    captures: &[u32],
    first: u32,
    targets: &[u32],
    turns: &Arc<T>,
    gate: &mut G,
) -> Handled
    requires serves { Serves (function_of func.now) worker_plan.now }
    requires made { let all = asked_for asked.now (length func.now.handlers) in
        let six = six_ports (function_of func.now) in
        (mark : List ℕ) → (told : Told) →
        ArePackets six captures.now (with_made made mark told) all }
    requires alone { IsApart captures.now }
    requires opened { EachFile (IsMade made) captures.now }
    requires from_two { 2 ≤ first }
    requires fit { first + length func.now.handlers + length made < 2 ^ 32 }
    requires numbers { (k : ℕ) → (file : ℕ) → slice_get targets.now k ≡ Some file → file ≡ first + k }
    requires ports { length captures.now ≡ length func.now.handlers }
    requires some_port { 1 ≤ length func.now.handlers }
    requires few_ports { length captures.now ≤ 4 }
    requires created { EachFile (IsWritten (F.told files.old)) targets.now }
    requires as_many { length targets.now ≡ length func.now.handlers + 1 }
    requires empty { (k : ℕ) → (file : ℕ) → slice_get targets.now k ≡ Some file →
        IsEmptyIfTold ((F.told files.old).given file) }
    ensures leaves { let Refused = Rose (G.refused gate.old) (G.refused gate.new) in
        let all = asked_for asked.now (length func.now.handlers) in
        Leaves worker_plan.now asked.now.card asked.now.format Refused (function_of func.now) all
        (F.told files.new) targets.now result.result }
    ensures counts { CountsTo first (length func.now.handlers) (F.told files.new) result.bytes }
    ensures known { StaysKnown (first + length func.now.handlers)
        (F.counted files.old) (F.counted files.new) }
    ensures went { WentOn captures.now targets.now (F.told files.old) (F.told files.new)
        (F.counted files.old) (F.counted files.new) result.result }
{
    let mut made = made;
    let outputs = Outputs::new(first, func.handlers.len());
    let mut beside = MadeCaptures::beside(files, &mut made, outputs);
    let result = run_beside(
        rt,
        alloc,
        &mut beside,
        func,
        worker_plan,
        asked,
        captures,
        targets,
        turns,
        gate,
    );
    Handled {
        result,
        bytes: beside.bytes(),
    }
}

// The file that is told to have failed, of those of a run.
fn told_file(first: u32, ports: u32, file: u32) -> u32
    requires { first + ports < 2 ^ 32 }
    ensures { result ≡ told_file first ports file }
{
    if first <= file && file <= first + ports {
        file
    } else {
        first
    }
}

// What a run came to.
fn came_of(
    handled: Handled,
    format: CaptureFormat,
    first: u32,
    ports: u32,
) -> Result<TrafficResult, RunFault>
    requires { first + ports < 2 ^ 32 }
    ensures { result ≡ came_of format first ports handled.bytes handled.result }
{
    let Handled { result, bytes } = handled;
    match result {
        Ok(UncountedResult::Whole { mode, state }) => Ok(TrafficResult::Whole {
            mode,
            state,
            sent: records_in(format, bytes, ports),
        }),
        Ok(UncountedResult::Full(full)) => Ok(TrafficResult::Full(full)),
        Err(RunFault::File(file)) => Err(RunFault::File(told_file(first, ports, file))),
        Err(RunFault::Memory) => Err(RunFault::Memory),
    }
}

// Whether the numbers of so many outputs from one on, and of the journal, lie below those of as many made
// captures.
fn is_low(first: u32, ports: u32) -> bool
    requires { ports ≤ 4 }
    ensures { result ≡ nat_lt (first + ports + ports) (2 ^ 32) }
{
    u64::from(first) + u64::from(ports) + u64::from(ports) < 0x1_0000_0000
}

/// Handles made-up traffic, and writes the outputs, in the format that is asked for, and the journal.
///
/// The traffic comes in at the function's ports in turn. The targets are the outputs in the order of the
/// ports, and the journal behind them, numbered one after another from `first` on; nothing was given to
/// them yet. After an `Err` each of them holds a front of what one run leaves there. Where so many files
/// were opened before that their numbers run out, that is want of memory.
///
/// One worker, or several that share nothing, hold one packet of each capture, and those that are in flight;
/// several that share all tables hold all packets.
pub fn run<
    R: Threads + Wait + Clone + Send + Sync + Drop + 'static,
    F: Files,
    T: Turns + Send + Sync + Drop + 'static,
    G: Gate + Drop + Send,
>(
    rt: &R,
    alloc: Global,
    files: &mut F,
    func: &Func,
    worker_plan: &WorkerPlan,
    asked: TrafficSpec,
    first: u32,
    targets: &[u32],
    turns: &Arc<T>,
    gate: &mut G,
) -> Result<TrafficResult, RunFault>
    requires flows { 1 ≤ asked.flows }
    requires some_port { 1 ≤ length func.now.handlers }
    requires few_ports { length func.now.handlers ≤ 4 }
    requires serves { Serves (function_of func.now) worker_plan.now }
    requires from_two { 2 ≤ first }
    requires numbers { (k : ℕ) → (file : ℕ) → slice_get targets.now k ≡ Some file → file ≡ first + k }
    requires created { EachFile (IsWritten (F.told files.old)) targets.now }
    requires as_many { length targets.now ≡ length func.now.handlers + 1 }
    requires empty { (k : ℕ) → (file : ℕ) → slice_get targets.now k ≡ Some file →
        IsEmptyIfTold ((F.told files.old).given file) }
    // One run's files are whole, and it handled all packets of the traffic, or those before a share
    // stop; or each file holds a front of what such a run leaves there.
    ensures runs { let Refused = Rose (G.refused gate.old) (G.refused gate.new) in
        let all = asked_for asked (length func.now.handlers) in
        Runs worker_plan.now asked.card asked.format Refused (function_of func.now) all
        (F.told files.new) targets.now first result }
    // The file that failed is one of the targets.
    ensures went { WentOn [] targets.now (F.told files.old) (F.told files.new)
        (F.counted files.old) (F.counted files.new) result }
{
    captures_are_traffic();
    let ports = func.handlers.len();
    if !is_low(first, ports) {
        return Err(RunFault::Memory);
    }
    let captures = match Captures::new(alloc, asked.seed, asked.count(), asked.flows, ports) {
        Ok(captures) => captures,
        Err(_) => return Err(RunFault::Memory),
    };
    let numbers = match captures.numbers(alloc) {
        Ok(numbers) => numbers,
        Err(_) => return Err(RunFault::Memory),
    };
    let numbers = numbers.as_slice();
    let handled = run_made(
        rt,
        alloc,
        files,
        captures,
        func,
        worker_plan,
        &asked,
        numbers,
        first,
        targets,
        turns,
        gate,
    );
    came_of(handled, asked.format, first, ports)
}
