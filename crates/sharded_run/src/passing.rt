//! Packets are read, handed to their workers, and what they leave is written as their answers come.
ghost use Rattle.std.specs.Prelude.{◌≡◌, ◌<◌, ◌≤◌, ℕ, List, length, IfErr};
ghost use Rattle.nf_base.specs.declared.card.Card.{Card};
ghost use Rattle.capture_format.specs.declared.format.CaptureFormat.{CaptureFormat};
ghost use Rattle.nf_files.specs.Told.{Told};
ghost use Rattle.packet_feed.specs.Arrivals.{Arrival};
ghost use Rattle.packet_feed.specs.Sources.{files_in};
ghost use Rattle.packet_feed.specs.Feeding.{Feeding, SameFeed, frame_of, shown};
ghost use Rattle.shard_machine.specs.Machine.{Setup};
ghost use Rattle.ring_line.specs.Lines.{HasRoom, LineHasAnswer};
ghost use Rattle.ring_line.specs.QueueWorkers.{CanHandle};
ghost use Rattle.stream_run.specs.declared.fault.RunFault.TheVariants as stops;
ghost use Rattle.stream_run.specs.Given.{AreWritable, ReadsFrom};
ghost use Rattle.stream_run.specs.Writing.{Holding, files_of, WentOn};
ghost use Rattle.stream_run.specs.Rules.{queue_by};
ghost use Rattle.sharded_run.specs.Reading.{Gathers};
ghost use Rattle.sharded_run.specs.Passing.{Passing, Wrote, WroteOne, SameCrew, SameButOne, HasMade, SentSo, HandedOut, HasMet, Suits, PassedSo, Fits};

use crate::crew::Crew;
use crate::frames::fits;
use crate::result::ReadResult;
use crate::writing::write_told;
use nf_base::packet::Packet;
use nf_base::seq::Seq;
use nf_files::Files;
use packet_feed::{Fed, Feed};
use ring_line::{First, Turns};
use std::alloc::Global;
use std::sync::Wait;
use stream_run::{Ending, RunFault, Sink, stop_in};

/// How many packets are in flight at most, of all queues.
const ALL_IN_FLIGHT: usize = 1_024;

// Writes what the first packet leaves, whose answer lies ready.
#[inline(always)]
fn write_ready<F: Files, G: Turns + Drop>(
    files: &mut F,
    crew: &mut Crew<G>,
    sinks: &mut Seq<Sink>,
) -> Result<(), RunFault>
    requires ready { LineHasAnswer crew.old.line }
    requires some { 0 < length crew.old.frames }
    requires writable { AreWritable (F.told files.old) (files_of sinks.old) }
    ensures wrote { (x : Setup) → (card : Card) → (format : CaptureFormat) → (all : List Arrival) →
        Passing x card format (F.told files.old) crew.old sinks.old all →
        WroteOne x card format (F.told files.new) crew.new sinks.new all result }
    ensures same { SameCrew crew.old crew.new }
    ensures same_files { files_of sinks.new ≡ files_of sinks.old }
    ensures went { (captures : List ℕ) → WentOn captures (files_of sinks.old) (F.told files.old)
        (F.told files.new) (F.counted files.old) (F.counted files.new) result }
    ensures rests { (g : ℕ) → (F.told files.new).rest g ≡ (F.told files.old).rest g }
{
    let answer = crew.line.answer();
    let kept = crew.frames.first();
    let plain = &mut crew.plain;
    let written = write_told(
        files,
        sinks,
        crew.ports,
        kept,
        answer.queue,
        answer.told,
        plain,
    );
    crew.line.pass();
    crew.frames.drop_first();
    match written {
        Ok(()) => Ok(()),
        Err(stop) => Err(stop),
    }
}

// Writes what packets leave, in the order sent, as long as their answers lie ready.
fn write_come<F: Files, G: Turns + Drop>(
    files: &mut F,
    crew: &mut Crew<G>,
    sinks: &mut Seq<Sink>,
) -> Result<(), RunFault>
    requires writable { AreWritable (F.told files.old) (files_of sinks.old) }
    ensures wrote { (x : Setup) → (card : Card) → (format : CaptureFormat) → (all : List Arrival) →
        Passing x card format (F.told files.old) crew.old sinks.old all →
        WroteOne x card format (F.told files.new) crew.new sinks.new all result }
    ensures same { SameCrew crew.old crew.new }
    ensures same_files { files_of sinks.new ≡ files_of sinks.old }
    ensures went { (captures : List ℕ) → WentOn captures (files_of sinks.old) (F.told files.old)
        (F.told files.new) (F.counted files.old) (F.counted files.new) result }
    ensures rests { (g : ℕ) → (F.told files.new).rest g ≡ (F.told files.old).rest g }
{
    for _ in 0..ALL_IN_FLIGHT {
        if !crew.line.is_ready() {
            return Ok(());
        }
        match write_ready(files, crew, sinks) {
            Ok(()) => {}
            Err(stop) => return Err(stop),
        }
    }
    Ok(())
}

// Waits for the next answer in the order sent, and writes what its packet leaves, and those behind it
// whose answers lie ready: the share stop at that packet, if it is one.
pub(crate) fn write_next<R: Wait, F: Files, G: Turns + Drop>(
    rt: &R,
    files: &mut F,
    crew: &mut Crew<G>,
    sinks: &mut Seq<Sink>,
) -> Result<Option<shard_core::Stop>, RunFault>
    requires some { 0 < length crew.old.frames }
    requires writable { AreWritable (F.told files.old) (files_of sinks.old) }
    ensures wrote { (x : Setup) → (card : Card) → (format : CaptureFormat) → (all : List Arrival) →
        Passing x card format (F.told files.old) crew.old sinks.old all →
        Wrote x card format (F.told files.new) crew.new sinks.new all result }
    ensures same { SameCrew crew.old crew.new }
    ensures same_files { files_of sinks.new ≡ files_of sinks.old }
    ensures went { (captures : List ℕ) → WentOn captures (files_of sinks.old) (F.told files.old)
        (F.told files.new) (F.counted files.old) (F.counted files.new) result }
    ensures rests { (g : ℕ) → (F.told files.new).rest g ≡ (F.told files.old).rest g }
{
    match crew.line.await_first(rt) {
        First::Answer => match write_come(files, crew, sinks) {
            Ok(()) => Ok(None),
            Err(stop) => Err(stop),
        },
        First::Stop(stop) => Ok(Some(stop)),
    }
}

// Writes what packets leave until another one can be sent to a queue, or a share stop is met.
fn make_room<R: Wait, F: Files, G: Turns + Drop>(
    rt: &R,
    files: &mut F,
    crew: &mut Crew<G>,
    sinks: &mut Seq<Sink>,
    queue: u32,
) -> Result<Option<shard_core::Stop>, RunFault>
    requires queue { queue < crew.old.router.workers }
    requires writable { AreWritable (F.told files.old) (files_of sinks.old) }
    ensures wrote { (x : Setup) → (card : Card) → (format : CaptureFormat) → (all : List Arrival) →
        Passing x card format (F.told files.old) crew.old sinks.old all →
        Wrote x card format (F.told files.new) crew.new sinks.new all result }
    ensures room { HasMade crew.new queue result }
    ensures same { SameCrew crew.old crew.new }
    ensures same_files { files_of sinks.new ≡ files_of sinks.old }
    ensures went { (captures : List ℕ) → WentOn captures (files_of sinks.old) (F.told files.old)
        (F.told files.new) (F.counted files.old) (F.counted files.new) result }
    ensures rests { (g : ℕ) → (F.told files.new).rest g ≡ (F.told files.old).rest g }
{
    for _ in rt.forever() {
        if crew.line.has_room(queue) {
            return Ok(None);
        }
        match write_next(rt, files, crew, sinks) {
            Ok(None) => {}
            Ok(Some(stop)) => return Ok(Some(stop)),
            Err(stop) => return Err(stop),
        }
    }
    unreachable!()
}

// Keeps the frame of the packet that was read last, and sends it to its queue, where there is room.
#[inline(always)]
fn send<R: Wait, G: Turns + Drop>(
    rt: &R,
    alloc: Global,
    crew: &mut Crew<G>,
    feed: &Feed,
    queue: u32,
    packet: &Packet,
) -> Result<(), RunFault>
    requires queue { queue < crew.old.router.workers }
    requires room { HasRoom crew.old.line queue }
    requires fits { Fits packet.now (frame_of feed.now) }
    ensures sent { (x : Setup) → (card : Card) → (format : CaptureFormat) → (now : Told) →
        (sinks : List Holding) → (all : List Arrival) →
        Passing x card format now crew.old sinks all →
        CanHandle x.function packet.now → x.queue packet.now ≡ queue →
        SentSo x card format now crew.new sinks all (shown packet.now feed.now) result }
    ensures same { SameButOne crew.old crew.new }
    ensures memory { IfErr result (λ stop. stop ≡ stops.Memory) }
{
    match crew
        .frames
        .push(alloc, packet, feed.original(), feed.frame())
    {
        Ok(()) => {}
        Err(_) => return Err(RunFault::Memory),
    }
    crew.line.send(rt, queue, packet);
    Ok(())
}

// Hands the packet that was read last to the worker of its queue, once there is room.
#[inline(always)]
fn hand_out<R: Wait, F: Files, G: Turns + Drop>(
    rt: &R,
    alloc: Global,
    files: &mut F,
    crew: &mut Crew<G>,
    feed: &Feed,
    packet: &Packet,
    sinks: &mut Seq<Sink>,
) -> Result<ReadResult, RunFault>
    requires port { packet.now.id.port < length crew.old.router.keys.ports }
    requires fits { Fits packet.now (frame_of feed.now) }
    requires fewer { length crew.old.frames < feed.now.given }
    requires writable { AreWritable (F.told files.old) (files_of sinks.old) }
    ensures handed { let queue = queue_by crew.old.router.keys crew.old.router.workers packet.now in
        (x : Setup) → (card : Card) → (format : CaptureFormat) → (all : List Arrival) →
        Passing x card format (F.told files.old) crew.old sinks.old all →
        CanHandle x.function packet.now → x.queue packet.now ≡ queue →
        HandedOut x card format (F.told files.new) crew.new sinks.new all
        (shown packet.now feed.now) feed.now.given result }
    ensures met { HasMet crew.new result }
    ensures same { SameButOne crew.old crew.new }
    ensures same_files { files_of sinks.new ≡ files_of sinks.old }
    ensures went { (captures : List ℕ) → WentOn captures (files_of sinks.old) (F.told files.old)
        (F.told files.new) (F.counted files.old) (F.counted files.new) result }
    ensures rests { (g : ℕ) → (F.told files.new).rest g ≡ (F.told files.old).rest g }
{
    let queue = crew.router.queue(packet);
    match make_room(rt, files, crew, sinks, queue) {
        Ok(None) => match send(rt, alloc, crew, feed, queue, packet) {
            Ok(()) => Ok(ReadResult::On),
            Err(stop) => Err(stop),
        },
        Ok(Some(stop)) => {
            let packets = feed.given() - 1 - crew.line.left() as u32;
            crew.met = Some(stop);
            Ok(ReadResult::Met(packets))
        }
        Err(stop) => Err(stop),
    }
}

// Reads the next packet, and hands it to the worker of its queue.
pub(crate) fn pass_one<R: Wait, F: Files, G: Turns + Drop>(
    rt: &R,
    alloc: Global,
    files: &mut F,
    crew: &mut Crew<G>,
    feed: &mut Feed,
    captures: &[u32],
    sinks: &mut Seq<Sink>,
) -> Result<ReadResult, RunFault>
    requires captures { ReadsFrom captures.now feed.old (F.told files.old) }
    requires keyed { length captures.now ≤ length crew.old.router.keys.ports }
    requires fewer { length crew.old.frames ≤ feed.old.given }
    requires writable { AreWritable (F.told files.old) (files_of sinks.old) }
    ensures passed { let ports = length captures.now in
        (x : Setup) → (card : Card) → (format : CaptureFormat) → (begun : Feeding) →
        (start : Told) → (all : List Arrival) → Suits x ports crew.old feed.old →
        length (files_in begun.sources) ≡ ports →
        Passing x card format (F.told files.old) crew.old sinks.old all →
        Gathers ports begun feed.old start (F.told files.old) all →
        PassedSo x card format ports begun start feed.new (F.told files.new) crew.new
        sinks.new all result }
    ensures met { HasMet crew.new result }
    ensures same_files { files_of sinks.new ≡ files_of sinks.old }
    ensures same { SameButOne crew.old crew.new }
    ensures fed { SameFeed feed.old feed.new }
    ensures fewer { length crew.new.frames ≤ feed.new.given }
    ensures went { WentOn captures.now (files_of sinks.old) (F.told files.old)
        (F.told files.new) (F.counted files.old) (F.counted files.new) result }
{
    match feed.next(files) {
        Ok(Fed::Packet(packet)) => {
            fits(packet);
            hand_out(rt, alloc, files, crew, feed, &packet, sinks)
        }
        Ok(Fed::End) => Ok(ReadResult::End(Ending::All)),
        Ok(Fed::TooMany) => Ok(ReadResult::End(Ending::TooMany)),
        Err(fault) => Err(stop_in(captures, fault)),
    }
}
