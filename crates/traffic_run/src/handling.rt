//! Packets of captures that are made of traffic, handled.
ghost use Rattle.std.specs.Prelude.{◌≡◌, ◌+◌, ◌<◌, ◌≤◌, length};
ghost use Rattle.nf_base.specs.Functions.{function_of};
ghost use Rattle.nf_base.specs.Doors.{six_ports};
ghost use Rattle.toeplitz_hash.specs.Meeting.{HashAlikeWhereTheyMeet};
ghost use Rattle.lock_mode.specs.Gates.{Rose};
ghost use Rattle.nf_files.specs.Told.{IsRead};
ghost use Rattle.packet_feed.specs.Told.{EachFile, IsApart};
ghost use Rattle.traffic_run.specs.TrafficSpecs.{asked_for};
ghost use Rattle.traffic_run.specs.Runs.{ArePackets, Leaves, Serves};
ghost use Rattle.traffic_run.specs.Started.{HasStarted};
ghost use Rattle.traffic_run.specs.declared.worker_plan.WorkerPlan.TheVariants.{One, Shards, Sharing};
ghost use Rattle.stream_run.specs.Writing.{WentOn};
ghost use Rattle.stream_run.specs.Given.{HasTargets};

use crate::result::UncountedResult;
use crate::traffic_spec::TrafficSpec;
use crate::worker_plan::WorkerPlan;
use lock_mode::Gate;
use nf_base::func::Func;
use nf_base::keys::Keys;
use nf_base::worker_turns::Turns;
use nf_base::workers::Workers;
use nf_files::Files;
use packet_feed::Feed;
use run_history::line::Mode;
use sharded_run::ShardedResult;
use std::alloc::Global;
use std::sync::{Arc, Wait};
use std::thread::Threads;
use stream_run::{RunFault, stop_in};

// By one worker.
fn run_one<F: Files>(
    alloc: Global,
    files: &mut F,
    func: &Func,
    asked: &TrafficSpec,
    feed: &mut Feed,
    captures: &[u32],
    targets: &[u32],
) -> Result<UncountedResult, RunFault>
    requires started { let all = asked_for asked.now (length func.now.handlers) in
        let six = six_ports (function_of func.now) in
        HasStarted six captures.now feed.old (F.told files.old) all }
    requires ports { length captures.now ≡ length func.now.handlers }
    requires opened { EachFile (IsRead (F.told files.old)) captures.now }
    requires targets { HasTargets func.now targets.now (F.told files.old) }
    ensures leaves { let all = asked_for asked.now (length func.now.handlers) in
        Leaves One asked.now.card asked.now.format ⊥ (function_of func.now) all
        (F.told files.new) targets.now result }
    ensures went { WentOn captures.now targets.now (F.told files.old) (F.told files.new)
        (F.counted files.old) (F.counted files.new) result }
{
    let (card, format) = (asked.card, asked.format);
    match stream_run::run(alloc, files, func, card, format, feed, captures, targets) {
        Ok(ran) => Ok(UncountedResult::Whole {
            mode: Mode::One,
            state: ran.state,
        }),
        Err(stop) => Err(stop),
    }
}

// By several that share nothing.
fn run_shards<
    R: Threads + Wait + Clone + Send + Sync + Drop + 'static,
    F: Files,
    T: Turns + Send + Sync + Drop + 'static,
>(
    rt: &R,
    alloc: Global,
    files: &mut F,
    func: &Func,
    keys: &Keys,
    workers: Workers,
    asked: &TrafficSpec,
    feed: &mut Feed,
    captures: &[u32],
    targets: &[u32],
    turns: &Arc<T>,
) -> Result<UncountedResult, RunFault>
    requires started { let all = asked_for asked.now (length func.now.handlers) in
        let six = six_ports (function_of func.now) in
        HasStarted six captures.now feed.old (F.told files.old) all }
    requires several { 1 < workers }
    requires keyed { length func.now.handlers ≤ length keys.now.ports }
    requires alike { HashAlikeWhereTheyMeet (function_of func.now) keys.now }
    requires ports { length captures.now ≡ length func.now.handlers }
    requires opened { EachFile (IsRead (F.told files.old)) captures.now }
    requires targets { HasTargets func.now targets.now (F.told files.old) }
    ensures leaves { let all = asked_for asked.now (length func.now.handlers) in
        let worker_plan = Shards keys.now workers in
        Leaves worker_plan asked.now.card asked.now.format ⊥ (function_of func.now) all
        (F.told files.new) targets.now result }
    ensures went { WentOn captures.now targets.now (F.told files.old) (F.told files.new)
        (F.counted files.old) (F.counted files.new) result }
{
    match sharded_run::run(
        rt,
        alloc,
        files,
        func,
        keys,
        workers,
        asked.card,
        asked.format,
        feed,
        captures,
        targets,
        turns,
    ) {
        Ok(ShardedResult::Ran(ran)) => Ok(UncountedResult::Whole {
            mode: Mode::Shard,
            state: ran.state,
        }),
        Ok(ShardedResult::Full(full)) => Ok(UncountedResult::Full(full)),
        Err(stop) => Err(stop),
    }
}

// By several that share all tables.
fn run_sharing<R: Threads + Wait + Sync, F: Files, T: Turns + Sync, G: Gate + Drop + Send>(
    rt: &R,
    alloc: Global,
    files: &mut F,
    func: &Func,
    workers: Workers,
    asked: &TrafficSpec,
    feed: &mut Feed,
    captures: &[u32],
    targets: &[u32],
    turns: &T,
    gate: &mut G,
) -> Result<UncountedResult, RunFault>
    requires started { let all = asked_for asked.now (length func.now.handlers) in
        let six = six_ports (function_of func.now) in
        HasStarted six captures.now feed.old (F.told files.old) all }
    requires several { 1 < workers }
    requires ports { length captures.now ≡ length func.now.handlers }
    requires opened { EachFile (IsRead (F.told files.old)) captures.now }
    requires targets { HasTargets func.now targets.now (F.told files.old) }
    ensures leaves { let Refused = Rose (G.refused gate.old) (G.refused gate.new) in
        let all = asked_for asked.now (length func.now.handlers) in
        Leaves (Sharing workers) asked.now.card asked.now.format Refused (function_of func.now) all
        (F.told files.new) targets.now result }
    ensures went { WentOn captures.now targets.now (F.told files.old) (F.told files.new)
        (F.counted files.old) (F.counted files.new) result }
{
    match locked_run::run(
        rt,
        alloc,
        files,
        func,
        workers,
        asked.card,
        asked.format,
        feed,
        captures,
        targets,
        turns,
        gate,
    ) {
        Ok(came) => Ok(UncountedResult::Whole {
            mode: came.mode,
            state: came.ran.state,
        }),
        Err(stop) => Err(stop),
    }
}

// By who is to.
fn run_by<
    R: Threads + Wait + Clone + Send + Sync + Drop + 'static,
    F: Files,
    T: Turns + Send + Sync + Drop + 'static,
    G: Gate + Drop + Send,
>(
    rt: &R,
    alloc: Global,
    files: &mut F,
    func: &Func,
    worker_plan: &WorkerPlan,
    asked: &TrafficSpec,
    feed: &mut Feed,
    captures: &[u32],
    targets: &[u32],
    turns: &Arc<T>,
    gate: &mut G,
) -> Result<UncountedResult, RunFault>
    requires started { let all = asked_for asked.now (length func.now.handlers) in
        let six = six_ports (function_of func.now) in
        HasStarted six captures.now feed.old (F.told files.old) all }
    requires serves { Serves (function_of func.now) worker_plan.now }
    requires ports { length captures.now ≡ length func.now.handlers }
    requires opened { EachFile (IsRead (F.told files.old)) captures.now }
    requires targets { HasTargets func.now targets.now (F.told files.old) }
    ensures leaves { let Refused = Rose (G.refused gate.old) (G.refused gate.new) in
        let all = asked_for asked.now (length func.now.handlers) in
        Leaves worker_plan.now asked.now.card asked.now.format Refused (function_of func.now) all
        (F.told files.new) targets.now result }
    ensures went { WentOn captures.now targets.now (F.told files.old) (F.told files.new)
        (F.counted files.old) (F.counted files.new) result }
{
    match worker_plan {
        WorkerPlan::One => run_one(alloc, files, func, asked, feed, captures, targets),
        WorkerPlan::Shards(keys, workers) => run_shards(
            rt, alloc, files, func, keys, *workers, asked, feed, captures, targets, turns,
        ),
        WorkerPlan::Sharing(workers) => run_sharing(
            rt, alloc, files, func, *workers, asked, feed, captures, targets, &**turns, gate,
        ),
    }
}

/// Reads captures that are made of the traffic, and handles their packets.
pub(crate) fn run_over<
    R: Threads + Wait + Clone + Send + Sync + Drop + 'static,
    F: Files,
    T: Turns + Send + Sync + Drop + 'static,
    G: Gate + Drop + Send,
>(
    rt: &R,
    alloc: Global,
    files: &mut F,
    func: &Func,
    worker_plan: &WorkerPlan,
    asked: &TrafficSpec,
    captures: &[u32],
    targets: &[u32],
    turns: &Arc<T>,
    gate: &mut G,
) -> Result<UncountedResult, RunFault>
    requires serves { Serves (function_of func.now) worker_plan.now }
    requires made { let all = asked_for asked.now (length func.now.handlers) in
        ArePackets (six_ports (function_of func.now)) captures.now (F.told files.old) all }
    requires alone { IsApart captures.now }
    requires ports { length captures.now ≡ length func.now.handlers }
    requires opened { EachFile (IsRead (F.told files.old)) captures.now }
    requires targets { HasTargets func.now targets.now (F.told files.old) }
    ensures leaves { let Refused = Rose (G.refused gate.old) (G.refused gate.new) in
        let all = asked_for asked.now (length func.now.handlers) in
        Leaves worker_plan.now asked.now.card asked.now.format Refused (function_of func.now) all
        (F.told files.new) targets.now result }
    ensures went { WentOn captures.now targets.now (F.told files.old) (F.told files.new)
        (F.counted files.old) (F.counted files.new) result }
{
    match Feed::start(alloc, files, func, captures, asked.count) {
        Ok(mut feed) => run_by(
            rt,
            alloc,
            files,
            func,
            worker_plan,
            asked,
            &mut feed,
            captures,
            targets,
            turns,
            gate,
        ),
        Err(fault) => Err(stop_in(captures, fault)),
    }
}
