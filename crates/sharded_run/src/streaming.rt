//! All packets, one after another.
ghost use Rattle.std.specs.Prelude.{◌≡◌, ◌≤◌, ℕ, List, length};
ghost use Rattle.nf_base.specs.declared.card.Card.{Card};
ghost use Rattle.capture_format.specs.declared.format.CaptureFormat.{CaptureFormat};
ghost use Rattle.nf_files.specs.Told.{Told};
ghost use Rattle.packet_feed.specs.Arrivals.{Arrival};
ghost use Rattle.packet_feed.specs.Sources.{files_in};
ghost use Rattle.packet_feed.specs.Feeding.{Feeding};
ghost use Rattle.run_history.specs.declared.line.Mode.TheVariants as mode;
ghost use Rattle.shard_machine.specs.Machine.{Setup};
ghost use Rattle.stream_run.specs.Given.{AreWritable, ReadsFrom};
ghost use Rattle.stream_run.specs.Writing.{files_of, AreHeld, AreFronts, WentOn};
ghost use Rattle.sharded_run.specs.Reading.{Gathers, IsOver};
ghost use Rattle.sharded_run.specs.Going.{AreWhole};
ghost use Rattle.sharded_run.specs.Passing.{Passing, SameCrew, Suits, FlowsSo};

use crate::crew::Crew;
use crate::passing::{pass_one, write_next};
use crate::result::{ReadResult, RunEnd, ShareFull};
use nf_base::seq::Seq;
use nf_files::Files;
use packet_feed::Feed;
use ring_line::Turns;
use std::alloc::Global;
use std::sync::Wait;
use stream_run::{Ending, RunFault, Sink, flush_all};

// Writes what is left behind the last packet, as the answers come; a share stop comes before the end of
// the captures.
fn drain<R: Wait, F: Files, G: Turns + Drop>(
    rt: &R,
    files: &mut F,
    crew: &mut Crew<G>,
    feed: &Feed,
    sinks: &mut Seq<Sink>,
    ending: Ending,
) -> Result<RunEnd, RunFault>
    requires fewer { length crew.old.frames ≤ feed.now.given }
    requires writable { AreWritable (F.told files.old) (files_of sinks.old) }
    ensures flows { (x : Setup) → (card : Card) → (format : CaptureFormat) → (ports : ℕ) →
        (begun : Feeding) → (start : Told) → (all : List Arrival) →
        Passing x card format (F.told files.old) crew.old sinks.old all →
        Gathers ports begun feed.now start (F.told files.old) all →
        IsOver ending begun start feed.now all →
        FlowsSo x ports begun start feed.now (F.told files.new) crew.new
        (λ hs. AreHeld mode.Shard x.workers card format crew.new.ports hs
        (F.told files.new) sinks.new)
        (λ hs. AreFronts mode.Shard x.workers card format crew.new.ports hs
        (F.told files.new) (files_of sinks.new)) result }
    ensures same { SameCrew crew.old crew.new }
    ensures same_files { files_of sinks.new ≡ files_of sinks.old }
    ensures went { (captures : List ℕ) → WentOn captures (files_of sinks.old) (F.told files.old)
        (F.told files.new) (F.counted files.old) (F.counted files.new) result }
{
    for _ in rt.forever() {
        if crew.line.left() == 0 {
            return Ok(RunEnd::Over(ending));
        }
        match write_next(rt, files, crew, sinks) {
            Ok(None) => {}
            Ok(Some(stop)) => {
                let packets = feed.given() - crew.line.left() as u32;
                return Ok(RunEnd::Full(ShareFull { stop, packets }));
            }
            Err(stop) => return Err(stop),
        }
    }
    unreachable!()
}

// Hands out packet after packet, until none is left, as many were handed out as may be, or a share has
// no index left at one; and writes what they leave.
fn pass_all<R: Wait, F: Files, G: Turns + Drop>(
    rt: &R,
    alloc: Global,
    files: &mut F,
    crew: &mut Crew<G>,
    feed: &mut Feed,
    captures: &[u32],
    sinks: &mut Seq<Sink>,
) -> Result<RunEnd, RunFault>
    requires captures { ReadsFrom captures.now feed.old (F.told files.old) }
    requires keyed { length captures.now ≤ length crew.old.router.keys.ports }
    requires fewer { length crew.old.frames ≤ feed.old.given }
    requires writable { AreWritable (F.told files.old) (files_of sinks.old) }
    ensures flows { let ports = length captures.now in
        (x : Setup) → (card : Card) → (format : CaptureFormat) → (begun : Feeding) →
        (start : Told) → (all : List Arrival) → Suits x ports crew.old feed.old →
        length (files_in begun.sources) ≡ ports →
        Passing x card format (F.told files.old) crew.old sinks.old all →
        Gathers ports begun feed.old start (F.told files.old) all →
        FlowsSo x ports begun start feed.new (F.told files.new) crew.new
        (λ hs. AreHeld mode.Shard x.workers card format crew.old.ports hs
        (F.told files.new) sinks.new)
        (λ hs. AreFronts mode.Shard x.workers card format crew.old.ports hs
        (F.told files.new) (files_of sinks.old)) result }
    ensures same_files { files_of sinks.new ≡ files_of sinks.old }
    ensures went { WentOn captures.now (files_of sinks.old) (F.told files.old)
        (F.told files.new) (F.counted files.old) (F.counted files.new) result }
{
    for _ in rt.forever() {
        match pass_one(rt, alloc, files, crew, feed, captures, sinks) {
            Ok(ReadResult::On) => {}
            Ok(ReadResult::End(ending)) => return drain(rt, files, crew, feed, sinks, ending),
            Ok(ReadResult::Met(packets)) => return Ok(RunEnd::Full(crew.share_full(packets))),
            Err(stop) => return Err(stop),
        }
    }
    unreachable!()
}

// The same, and what is held is given to the files.
pub(crate) fn flow<R: Wait, F: Files, G: Turns + Drop>(
    rt: &R,
    alloc: Global,
    files: &mut F,
    crew: &mut Crew<G>,
    feed: &mut Feed,
    captures: &[u32],
    sinks: &mut Seq<Sink>,
) -> Result<RunEnd, RunFault>
    requires captures { ReadsFrom captures.now feed.old (F.told files.old) }
    requires keyed { length captures.now ≤ length crew.old.router.keys.ports }
    requires fewer { length crew.old.frames ≤ feed.old.given }
    requires writable { AreWritable (F.told files.old) (files_of sinks.old) }
    ensures flows { let ports = length captures.now in
        (x : Setup) → (card : Card) → (format : CaptureFormat) → (begun : Feeding) →
        (start : Told) → (all : List Arrival) → Suits x ports crew.old feed.old →
        length (files_in begun.sources) ≡ ports →
        Passing x card format (F.told files.old) crew.old sinks.old all →
        Gathers ports begun feed.old start (F.told files.old) all →
        FlowsSo x ports begun start feed.new (F.told files.new) crew.new
        (AreWhole x.workers card format crew.old.ports (F.told files.new) (files_of sinks.old))
        (λ hs. AreFronts mode.Shard x.workers card format crew.old.ports hs
        (F.told files.new) (files_of sinks.old)) result }
    ensures went { WentOn captures.now (files_of sinks.old) (F.told files.old)
        (F.told files.new) (F.counted files.old) (F.counted files.new) result }
{
    let ended = match pass_all(rt, alloc, files, crew, feed, captures, sinks) {
        Ok(ended) => ended,
        Err(stop) => return Err(stop),
    };
    match flush_all(sinks, files) {
        Ok(()) => Ok(ended),
        Err(stop) => Err(stop),
    }
}
