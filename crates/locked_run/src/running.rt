//! A whole run in mode `lock`.
ghost use Rattle.std.specs.Prelude.{◌≡◌, ◌^◌, ◌+◌, ◌<◌, ◌≤◌, ◌⊎◌, [], length, map, All, IfOk};
ghost use Rattle.nf_base.specs.Doors.{IsServed};
ghost use Rattle.nf_base.specs.Functions.{function_of};
ghost use Rattle.packet_feed.specs.Arrivals.{packet_of};
ghost use Rattle.stream_run.specs.Given.{HasCaptures, HasTargets};
ghost use Rattle.stream_run.specs.Writing.{KeepsBut, IsStopCause, StopsAmong, WentOn};
ghost use Rattle.lock_mode.specs.Gates.{Rose};
ghost use Rattle.run_history.specs.Headings.{IsHeading};
ghost use Rattle.lock_workers.specs.RunResult.{AreAt, AreHandled};
ghost use Rattle.locked_run.specs.Handled.{joined};
ghost use Rattle.locked_run.specs.Going.{mode_of, AreFresh, Writes, Settles};
ghost use Rattle.locked_run.specs.Lawful.{Runs};

use crate::kept::Batch;
use crate::reading::read_all;
use crate::result::{LockedResult, Settled};
use crate::rounds::Rounds;
use crate::writing::{chunk_count, chunk_size};
use capture_format::CaptureFormat;
use lock_mode::Gate;
use lock_workers::{RunResult, Turns};
use nf_base::card::Card;
use nf_base::func::Func;
use nf_base::workers::Workers;
use nf_files::Files;
use packet_feed::Feed;
use run_history::line::Mode;
use std::alloc::{AllocError, Global};
use std::sync::Wait;
use std::thread::Threads;
use stream_run::{Ran, RunFault, begin_sinks, flush_all};

// How packets were handled: by all workers, or by one where the gate refused.
fn mode_of(handled_by: u32, workers: u32) -> Mode
    ensures { result ≡ mode_of handled_by workers }
{
    if handled_by == workers {
        Mode::Lock
    } else {
        Mode::One
    }
}

// The workers handle the packets that were read.
fn work<R: Threads + Wait + Sync, T: Turns + Sync, G: Gate + Drop + Send>(
    rt: &R,
    alloc: Global,
    func: &Func,
    workers: Workers,
    batch: &Batch,
    turns: &T,
    gate: &mut G,
) -> Result<RunResult, AllocError>
    requires few { length batch.now ≤ 2 ^ 32 }
    requires ports { let ports = length func.now.handlers in
        All (λ p. p.id.port < ports) (map packet_of batch.now) }
    requires served { All (IsServed (function_of func.now)) (map packet_of batch.now) }
    ensures handled { IfOk result (λ all. AreHandled (function_of func.now) all.workers
        (map packet_of batch.now) all.order all.places.items all.state) }
    ensures as_many { IfOk result (λ all. (all.workers ≡ workers)
        ⊎ ((all.workers ≡ 1) × Rose (G.refused gate.old) (G.refused gate.new))) }
    ensures rises { G.refused gate.old ≤ G.refused gate.new }
{
    lock_workers::run(rt, alloc, func, workers.get(), batch.packets(), turns, gate)
}

// Writes what files begin with.
fn write_heads<F: Files>(
    alloc: Global,
    files: &mut F,
    mode: Mode,
    workers: Workers,
    card: Card,
    format: CaptureFormat,
    ports: u32,
    targets: &[u32],
) -> Result<(), RunFault>
    requires heading { IsHeading (record { mode = mode; workers = workers; card = card }) }
    requires fresh { AreFresh (F.told files.old) targets.now }
    ensures written { Writes mode workers card format ports [] (F.told files.new) targets.now result }
    ensures kept { KeepsBut targets.now (F.told files.old) (F.told files.new) }
    ensures cause { IsStopCause (F.counted files.old) (F.counted files.new) result }
    ensures among { StopsAmong [] targets.now result }
{
    match begin_sinks(alloc, mode, workers, card, format, ports, targets) {
        Ok(sinks) => {
            let mut sinks = sinks;
            flush_all(&mut sinks, files)
        }
        Err(_) => Err(RunFault::Memory),
    }
}

// Writes what packets leave, from what files begin with on.
fn write<R: Threads + Sync, F: Files>(
    rt: &R,
    alloc: Global,
    files: &mut F,
    mode: Mode,
    workers: Workers,
    card: Card,
    format: CaptureFormat,
    ports: u32,
    batch: &Batch,
    worked: &RunResult,
    targets: &[u32],
) -> Result<(), RunFault>
    requires heading { IsHeading (record { mode = mode; workers = workers; card = card }) }
    requires at { AreAt (map packet_of batch.now) worked.now.order worked.now.places.items }
    requires fresh { AreFresh (F.told files.old) targets.now }
    ensures written { let hs = joined batch.now worked.now.order worked.now.places.items in
        Writes mode workers card format ports hs (F.told files.new) targets.now result }
    ensures kept { KeepsBut targets.now (F.told files.old) (F.told files.new) }
    ensures cause { IsStopCause (F.counted files.old) (F.counted files.new) result }
    ensures among { StopsAmong [] targets.now result }
{
    let size = chunk_size(batch, workers.get());
    let count = chunk_count(batch, workers.get(), size);
    let mut rounds = match Rounds::new(alloc, count, size, format, targets) {
        Ok(rounds) => rounds,
        Err(_) => return Err(RunFault::Memory),
    };
    match write_heads(alloc, files, mode, workers, card, format, ports, targets) {
        Ok(()) => rounds.write_all(rt, files, ports, batch, worked, targets),
        Err(stop) => Err(stop),
    }
}

// Packets that were read are handled, and what they leave is written.
fn settle<R: Threads + Wait + Sync, F: Files, T: Turns + Sync, G: Gate + Drop + Send>(
    rt: &R,
    alloc: Global,
    files: &mut F,
    func: &Func,
    workers: Workers,
    card: Card,
    format: CaptureFormat,
    batch: &Batch,
    targets: &[u32],
    turns: &T,
    gate: &mut G,
) -> Result<Settled, RunFault>
    requires several { 1 < workers }
    requires few_packets { length batch.now ≤ 2 ^ 32 }
    requires ports { let ports = length func.now.handlers in
        All (λ p. p.id.port < ports) (map packet_of batch.now) }
    requires served { All (IsServed (function_of func.now)) (map packet_of batch.now) }
    requires fresh { AreFresh (F.told files.old) targets.now }
    ensures settles { let Refused = Rose (G.refused gate.old) (G.refused gate.new) in
        Settles (function_of func.now) workers card format Refused (length func.now.handlers)
        batch.now (F.told files.new) targets.now result }
    ensures rises { G.refused gate.old ≤ G.refused gate.new }
    ensures kept { KeepsBut targets.now (F.told files.old) (F.told files.new) }
    ensures cause { IsStopCause (F.counted files.old) (F.counted files.new) result }
    ensures among { StopsAmong [] targets.now result }
{
    let worked = match work(rt, alloc, func, workers, batch, turns, gate) {
        Ok(worked) => worked,
        Err(_) => return Err(RunFault::Memory),
    };
    let mode = mode_of(worked.workers, workers.get());
    let ports = func.handlers.len();
    match write(
        rt, alloc, files, mode, workers, card, format, ports, batch, &worked, targets,
    ) {
        Ok(()) => Ok(Settled {
            mode,
            state: worked.state,
        }),
        Err(stop) => Err(stop),
    }
}

/// Reads the packets of captures, handles them by workers that share the tables, and writes the
/// outputs and the journal in the order in which they were handled.
///
/// A worker has the packets whose port is its number modulo theirs, and handles them in capture
/// order, in a thread of its own; `turns` is told when a worker comes to a packet and when it has
/// handled it, and nothing depends on it. All packets and their frames are held in memory until the
/// end, beside three copies of the tables and what each packet came to. What they leave is made by
/// chunks of up to 8,192 packets, as many side by side as there are workers, while the chunks
/// before them are written, one after another. So beside them stands what is made and not written
/// yet: of each worker what the packets of two chunks leave, whose frames come to at most 4 MiB a
/// chunk, or which are 1,024. Where the gate refuses a reader one worker handles them in capture
/// order, in mode `one`.
///
/// The captures are those of the feed, which gave no packet yet, and was started for the function's
/// ports. The targets are the outputs in the order of their ports, and the journal behind them;
/// nothing was given to them yet. After an `Err` each of them holds a front of what a run over some
/// first packets leaves there.
pub fn run<R: Threads + Wait + Sync, F: Files, T: Turns + Sync, G: Gate + Drop + Send>(
    rt: &R,
    alloc: Global,
    files: &mut F,
    func: &Func,
    workers: Workers,
    card: Card,
    format: CaptureFormat,
    feed: &mut Feed,
    captures: &[u32],
    targets: &[u32],
    turns: &T,
    gate: &mut G,
) -> Result<LockedResult, RunFault>
    requires several { 1 < workers }
    requires captures { HasCaptures func.now captures.now feed.old (F.told files.old) }
    requires new { feed.old.given ≡ 0 }
    requires targets { HasTargets func.now targets.now (F.told files.old) }
    // One run's files are whole, and it handled the first packets of the captures, each port's in
    // their order; or each file holds a front of what such a run leaves there. It is in mode `one`,
    // and in capture order, only where the gate's count rose.
    ensures runs { let Refused = Rose (G.refused gate.old) (G.refused gate.new) in
        Runs (function_of func.now) workers card format Refused feed.old (F.told files.old)
        feed.new (F.told files.new) targets.now result }
    ensures rises { G.refused gate.old ≤ G.refused gate.new }
    // The file that failed is one of the captures or of the targets.
    ensures went { WentOn captures.now targets.now (F.told files.old) (F.told files.new)
        (F.counted files.old) (F.counted files.new) result }
{
    let mut batch = Batch::new(alloc);
    let ending = match read_all(alloc, files, feed, captures, &mut batch) {
        Ok(ending) => ending,
        Err(stop) => return Err(stop),
    };
    let packets = feed.given();
    match settle(
        rt, alloc, files, func, workers, card, format, &batch, targets, turns, gate,
    ) {
        Ok(settled) => Ok(LockedResult {
            mode: settled.mode,
            ran: Ran {
                ending,
                packets,
                state: settled.state,
            },
        }),
        Err(stop) => Err(stop),
    }
}
