//! A whole run in mode `shard`.
ghost use Rattle.std.specs.Prelude.{◌≡◌, ◌+◌, ◌<◌, ◌≤◌, ℕ, List, [], length, IfOk};
ghost use Rattle.nf_base.specs.declared.card.Card.{Card};
ghost use Rattle.nf_base.specs.declared.keys.Keys as keys;
ghost use Rattle.nf_base.specs.Functions.{function_of};
ghost use Rattle.capture_format.specs.declared.format.CaptureFormat.{CaptureFormat};
ghost use Rattle.toeplitz_hash.specs.Meeting.{HashAlikeWhereTheyMeet};
ghost use Rattle.run_history.specs.declared.line.Mode.TheVariants as mode;
ghost use Rattle.vig_tables.specs.Union.{AreOf};
ghost use Rattle.shard_core.specs.Sharded.{Sharded};
ghost use Rattle.stream_run.specs.Given.{HasCaptures, HasTargets, AreWritable};
ghost use Rattle.stream_run.specs.Runs.{Handled};
ghost use Rattle.stream_run.specs.Writing.{files_of, AreHeld, WentOn};
ghost use Rattle.sharded_run.specs.Going.{HaveWorked, IsLast, IsMadeOf};
ghost use Rattle.sharded_run.specs.Lawful.{Runs};

use crate::crew::Crew;
use crate::result::{RunEnd, ShardedResult};
use crate::streaming::flow;
use capture_format::CaptureFormat;
use nf_base::card::Card;
use nf_base::func::Func;
use nf_base::keys::Keys;
use nf_base::seq::Seq;
use nf_base::workers::Workers;
use nf_files::Files;
use packet_feed::Feed;
use ring_line::Turns;
use run_history::line::Mode;
use std::alloc::{AllocError, Global};
use std::sync::{Arc, Wait};
use std::thread::Threads;
use stream_run::{Ending, Ran, RunFault, Sink, begin_sinks};
use vig_tables::Tables;

// The last state, from the workers' tables, where all packets were collected.
fn conclude(
    alloc: Global,
    func: &Func,
    parts: &[Tables],
    time: u64,
    ending: Ending,
    packets: u32,
) -> Result<Ran, AllocError>
    requires some { 1 ≤ length parts.now }
    requires of_one { AreOf func.now.chains parts.now }
    ensures { let f = function_of func.now in
        (keys : keys.Keys) → (workers : ℕ) → (hs : List Handled) → (v : Sharded) →
        1 < workers → HashAlikeWhereTheyMeet f keys → HaveWorked f keys workers hs v →
        IsMadeOf v func.now parts.now time →
        IfOk result (IsLast f keys workers hs ending packets) }
{
    let tables = Tables::merge(alloc, func, parts, time)?;
    let state = tables.state(alloc)?;
    Ok(Ran {
        ending,
        packets,
        state,
    })
}

// The same from new workers, and the state that is left.
fn stream<
    R: Threads + Wait + Clone + Send + Sync + Drop + 'static,
    F: Files,
    G: Turns + Send + Sync + Drop + 'static,
>(
    rt: &R,
    alloc: Global,
    files: &mut F,
    func: &Func,
    keys: &Keys,
    workers: Workers,
    feed: &mut Feed,
    captures: &[u32],
    sinks: &mut Seq<Sink>,
    turns: &Arc<G>,
) -> Result<ShardedResult, RunFault>
    requires several { 1 < workers }
    requires most { workers ≤ 16 }
    requires keyed { length func.now.handlers ≤ length keys.now.ports }
    requires alike { HashAlikeWhereTheyMeet (function_of func.now) keys.now }
    requires captures { HasCaptures func.now captures.now feed.old (F.told files.old) }
    requires new { feed.old.given ≡ 0 }
    requires writable { AreWritable (F.told files.old) (files_of sinks.old) }
    // All files are held as they begin, with some card and outputs of some format.
    requires heads { let ports = length func.now.handlers in
        (card : Card) × (format : CaptureFormat)
        × AreHeld mode.Shard workers card format ports [] (F.told files.old) sinks.old }
    ensures runs { let ports = length func.now.handlers in
        (card : Card) → (format : CaptureFormat) →
        AreHeld mode.Shard workers card format ports [] (F.told files.old) sinks.old →
        Runs (function_of func.now) keys.now workers card format feed.old (F.told files.old)
        feed.new (F.told files.new) (files_of sinks.old) result }
    ensures went { WentOn captures.now (files_of sinks.old) (F.told files.old)
        (F.told files.new) (F.counted files.old) (F.counted files.new) result }
{
    let mut crew = match Crew::start(rt, alloc, func, keys, workers, turns) {
        Ok(crew) => crew,
        Err(_) => return Err(RunFault::Memory),
    };
    let ended = flow(rt, alloc, files, &mut crew, feed, captures, sinks);
    let (parts, time) = crew.finish(rt);
    match ended {
        Ok(RunEnd::Full(full)) => Ok(ShardedResult::Full(full)),
        Ok(RunEnd::Over(ending)) => {
            match conclude(alloc, func, parts.as_slice(), time, ending, feed.given()) {
                Ok(ran) => Ok(ShardedResult::Ran(ran)),
                Err(_) => Err(RunFault::Memory),
            }
        }
        Err(stop) => Err(stop),
    }
}

/// Handles the packets of captures in capture order, each by the worker of its queue, and writes the
/// outputs, in this format, and the journal as the run goes.
///
/// Each worker runs in a thread of its own from the first packet to the last; where one can't be started,
/// the caller does its work. `turns` is told when a worker comes to a packet and when it has handled it, and
/// nothing depends on it. The keys are one for each port, by which packets
/// that meet have equal hashes. The captures are those of the feed, which gave no packet yet, and was
/// started for the function's ports. The targets are the outputs in the order of their ports, and the
/// journal behind them; nothing was given to them yet.
/// Where a share has no index left at a packet, the run ends before it, and the files of the packets before
/// it are whole. After an `Err` each of them holds a front of what a run over some first packets leaves
/// there.
pub fn run<
    R: Threads + Wait + Clone + Send + Sync + Drop + 'static,
    F: Files,
    G: Turns + Send + Sync + Drop + 'static,
>(
    rt: &R,
    alloc: Global,
    files: &mut F,
    func: &Func,
    keys: &Keys,
    workers: Workers,
    card: Card,
    format: CaptureFormat,
    feed: &mut Feed,
    captures: &[u32],
    targets: &[u32],
    turns: &Arc<G>,
) -> Result<ShardedResult, RunFault>
    requires several { 1 < workers }
    requires keyed { length func.now.handlers ≤ length keys.now.ports }
    requires alike { HashAlikeWhereTheyMeet (function_of func.now) keys.now }
    requires captures { HasCaptures func.now captures.now feed.old (F.told files.old) }
    requires new { feed.old.given ≡ 0 }
    requires targets { HasTargets func.now targets.now (F.told files.old) }
    // One run's files are whole, and it handled the first packets of the captures in capture order, or
    // those before a share stop; or each file holds a front of what such a run leaves there.
    ensures runs { Runs (function_of func.now) keys.now workers card format feed.old
        (F.told files.old) feed.new (F.told files.new) targets.now result }
    // The file that failed is one of the captures or of the targets.
    ensures went { WentOn captures.now targets.now (F.told files.old) (F.told files.new)
        (F.counted files.old) (F.counted files.new) result }
{
    let ports = func.handlers.len();
    let mode = Mode::Shard;
    let mut sinks = match begin_sinks(alloc, mode, workers, card, format, ports, targets) {
        Ok(sinks) => sinks,
        Err(_) => return Err(RunFault::Memory),
    };
    stream(
        rt, alloc, files, func, keys, workers, feed, captures, &mut sinks, turns,
    )
}
