//! A whole run by one worker.
ghost use Rattle.std.specs.Prelude.{◌≡◌, [], length};
ghost use Rattle.nf_base.specs.Step.{opening};
ghost use Rattle.nf_base.specs.Functions.{function_of};
ghost use Rattle.run_history.specs.declared.line.Mode.TheVariants.{One};
ghost use Rattle.stream_run.specs.Given.{HasCaptures, HasTargets, AreWritable};
ghost use Rattle.stream_run.specs.Writing.{AreHeld, files_of, WentOn};
ghost use Rattle.stream_run.specs.Lawful.{Runs, Flows, Streams};
ghost use Rattle.capture_format.specs.declared.format.CaptureFormat.{CaptureFormat};

use crate::ending::Ending;
use crate::fault::RunFault;
use crate::heads::begin_sinks;
use crate::ran::Ran;
use crate::running::handle_all;
use crate::sink::Sink;
use crate::sinks::flush_all;
use capture_format::CaptureFormat;
use nf_base::card::Card;
use nf_base::func::Func;
use nf_base::seq::Seq;
use nf_base::share::Share;
use nf_base::workers::Workers;
use nf_code::ready::Ready;
use nf_files::Files;
use packet_feed::Feed;
use run_history::line::Mode;
use std::alloc::Global;
use vig_tables::Tables;

// Handles all packets, and gives to the files what is held for them.
fn flow<F: Files>(
    files: &mut F,
    func: &Ready,
    tables: &mut Tables,
    feed: &mut Feed,
    captures: &[u32],
    sinks: &mut Seq<Sink>,
) -> Result<Ending, RunFault>
    requires of_func { tables.old.decls ≡ func.now.chains }
    requires whole { tables.old.share.of ≡ 1 }
    requires opens { tables.old.state ≡ opening (function_of func.now) }
    requires captures { HasCaptures func.now captures.now feed.old (F.told files.old) }
    requires new { feed.old.given ≡ 0 }
    requires writable { AreWritable (F.told files.old) (files_of sinks.old) }
    ensures flows { let ports = length func.now.handlers in
        (card : Card) → (format : CaptureFormat) →
        AreHeld One 1 card format ports [] (F.told files.old) sinks.old →
        Flows (function_of func.now) card format ports
        feed.old (F.told files.old) feed.new (F.told files.new)
        (files_of sinks.old) tables.new.state result }
    ensures went { WentOn captures.now (files_of sinks.old) (F.told files.old) (F.told files.new)
        (F.counted files.old) (F.counted files.new) result }
{
    let ending = match handle_all(files, func, tables, feed, captures, sinks) {
        Ok(ending) => ending,
        Err(stop) => return Err(stop),
    };
    match flush_all(sinks, files) {
        Ok(()) => Ok(ending),
        Err(stop) => Err(stop),
    }
}

// The same from new tables, and the state that is left.
fn stream<F: Files>(
    alloc: Global,
    files: &mut F,
    func: &Func,
    feed: &mut Feed,
    captures: &[u32],
    sinks: &mut Seq<Sink>,
) -> Result<Ran, RunFault>
    requires captures { HasCaptures func.now captures.now feed.old (F.told files.old) }
    requires new { feed.old.given ≡ 0 }
    requires writable { AreWritable (F.told files.old) (files_of sinks.old) }
    ensures streams { let ports = length func.now.handlers in
        (card : Card) → (format : CaptureFormat) →
        AreHeld One 1 card format ports [] (F.told files.old) sinks.old →
        Streams (function_of func.now) card format ports
        feed.old (F.told files.old) feed.new (F.told files.new) (files_of sinks.old) result }
    ensures went { WentOn captures.now (files_of sinks.old) (F.told files.old) (F.told files.new)
        (F.counted files.old) (F.counted files.new) result }
{
    let mut tables = match Tables::new(alloc, func, Share { queue: 0, of: 1 }) {
        Ok(tables) => tables,
        Err(_) => return Err(RunFault::Memory),
    };
    let ready = match Ready::of(alloc, func) {
        Ok(ready) => ready,
        Err(_) => return Err(RunFault::Memory),
    };
    let ending = match flow(files, &ready, &mut tables, feed, captures, sinks) {
        Ok(ending) => ending,
        Err(stop) => return Err(stop),
    };
    match tables.state(alloc) {
        Ok(state) => Ok(Ran {
            ending,
            packets: feed.given(),
            state,
        }),
        Err(_) => Err(RunFault::Memory),
    }
}

/// Handles the packets of captures in capture order, by one worker, and writes the outputs, in this
/// format, and the journal as the run goes.
///
/// The captures are those of the feed, which gave no packet yet, and was started for the function's
/// ports. The targets are the outputs in the order of their ports, and the journal behind them;
/// nothing was given to them yet. After an `Err` each of them holds a front of what one run leaves
/// there.
pub fn run<F: Files>(
    alloc: Global,
    files: &mut F,
    func: &Func,
    card: Card,
    format: CaptureFormat,
    feed: &mut Feed,
    captures: &[u32],
    targets: &[u32],
) -> Result<Ran, RunFault>
    requires captures { HasCaptures func.now captures.now feed.old (F.told files.old) }
    requires new { feed.old.given ≡ 0 }
    requires targets { HasTargets func.now targets.now (F.told files.old) }
    // One run's files are whole, and it handled the first packets of the captures in capture order;
    // or each file holds a front of what such a run leaves there.
    ensures runs { Runs (function_of func.now) card format feed.old (F.told files.old)
        feed.new (F.told files.new) targets.now result }
    // The file that failed is one of the captures or of the targets.
    ensures went { WentOn captures.now targets.now (F.told files.old) (F.told files.new)
        (F.counted files.old) (F.counted files.new) result }
{
    let ports = func.handlers.len();
    let workers = Workers::new(1);
    let mut sinks = match begin_sinks(alloc, Mode::One, workers, card, format, ports, targets) {
        Ok(sinks) => sinks,
        Err(_) => return Err(RunFault::Memory),
    };
    stream(alloc, files, func, feed, captures, &mut sinks)
}
