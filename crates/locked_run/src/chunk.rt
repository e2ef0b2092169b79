//! What the packets of a chunk leave, made and held before any of it is given to a file.
ghost use Rattle.std.specs.Prelude.{◌≡◌, ◌^◌, ◌+◌, ◌*◌, ◌<◌, ◌≤◌, ◌∷◌, ◌++◌, [], ℕ, List, length, map, slice_get, Some, IfOk, OnOk};
ghost use Rattle.std.specs.Bool.{OnTrue};
ghost use Rattle.nf_files.specs.Told.{IsWritten};
ghost use Rattle.nf_base.specs.declared.card.Card.{Card};
ghost use Rattle.nf_base.specs.declared.done.Action.TheVariants.{Skip};
ghost use Rattle.capture_format.specs.declared.format.CaptureFormat.{CaptureFormat};
ghost use Rattle.packet_feed.specs.Arrivals.{Arrival, packet_of};
ghost use Rattle.packet_feed.specs.Told.{EachFile, IsApart};
ghost use Rattle.run_history.specs.declared.line.Mode.{Mode};
ghost use Rattle.stream_run.specs.Runs.{Handled};
ghost use Rattle.stream_run.specs.Texts.{piece};
ghost use Rattle.stream_run.specs.Writing.{files_of, AreGrown, KeepsAllBut, IsStopCause, StopsAmong};
ghost use Rattle.short_answers.specs.Answers as answers;
ghost use Rattle.lock_workers.specs.RunResult.{AreAt};
ghost use Rattle.locked_run.specs.Handled.{joined};
ghost use Rattle.locked_run.specs.Going.{AreWhole, Writes};
ghost use Rattle.locked_run.specs.Chunks.{chunk_at, HoldPieces, AreBare, IsFilled, AreFilled, AreOf, AreIdle};

use crate::kept::Batch;
use capture_format::CaptureFormat;
use lock_log::{Order, Told, plain};
use nf_base::done::{Action, Done};
use nf_base::seq::Seq;
use nf_files::Files;
use std::alloc::{AllocError, Global};
use std::thread;
use std::thread::Threads;
use stream_run::{RunFault, Sink, flush_all, hold_all};

/// What the packets of a chunk leave for each file, from when it is made until it is written.
#[derive(Drop)]
pub(crate) struct Chunk {
    /// All of it is held. Else memory ran out.
    made: bool,
    sinks: Seq<Sink>,
}

// Puts what one packet leaves behind what is held for each file.
fn hold_one(
    sinks: &mut Seq<Sink>,
    ports: u32,
    batch: &Batch,
    place: usize,
    worker: u32,
    told: Told,
    none: &Done,
) -> Result<(), AllocError>
    requires place { place < length batch.now }
    requires none { none.now ≡ answers.plain Skip }
    ensures ok { (arrival : Arrival) → slice_get batch.now place ≡ Some arrival →
        let done = answers.done_told told.entry in
        let h : Handled = record { arrival = arrival; worker = worker; done = done } in
        OnOk result (AreGrown (λ k format. piece format ports k h) sinks.old sinks.new) }
    ensures same_files { files_of sinks.new ≡ files_of sinks.old }
{
    match told {
        Told::Plain(action) => {
            let handled = batch.handled(place, worker, action, &none.edits, &none.picks);
            hold_all(sinks, ports, &handled)
        }
        Told::Whole(done) => {
            let handled = batch.handled(place, worker, done.action, &done.edits, &done.picks);
            hold_all(sinks, ports, &handled)
        }
    }
}

// Puts what so many packets of an order leave, from one on, behind what is held for each file.
fn hold_chunk(
    sinks: &mut Seq<Sink>,
    ports: u32,
    batch: &Batch,
    order: &Order,
    places: &[u32],
    from: usize,
    size: usize,
) -> Result<(), AllocError>
    requires at { AreAt (map packet_of batch.now) order.now places.now }
    ensures ok { let chunk = chunk_at (joined batch.now order.now places.now) from size in
        OnOk result ((format : CaptureFormat) → AreBare format sinks.old →
        HoldPieces format ports chunk sinks.new) }
    ensures same_files { files_of sinks.new ≡ files_of sinks.old }
{
    let none = plain(Action::Skip);
    let count = size.min(places.len().saturating_sub(from));
    for j in 0..count {
        let k = from + j;
        match hold_one(
            sinks,
            ports,
            batch,
            places[k] as usize,
            order.seat(k),
            order.told(k),
            &none,
        ) {
            Ok(()) => {}
            Err(refused) => return Err(refused),
        }
    }
    Ok(())
}

impl Chunk {
    /// One for these files, in which nothing is held.
    pub(crate) fn new(
        alloc: Global,
        format: CaptureFormat,
        targets: &[u32],
    ) -> Result<Chunk, AllocError>
        ensures files { IfOk result (λ chunk. files_of chunk.sinks ≡ targets.now) }
        ensures bare { IfOk result (λ chunk. AreBare format chunk.sinks) }
    {
        let mut sinks = Seq::new(alloc);
        for k in 0..targets.len() {
            sinks.push(Sink::new(targets[k], format, Vec::new(alloc)))?;
        }
        Ok(Chunk { made: true, sinks })
    }

    /// Makes what so many packets of an order leave, from one on, each of which stands at its
    /// place.
    pub(crate) fn fill(
        &mut self,
        ports: u32,
        batch: &Batch,
        order: &Order,
        places: &[u32],
        from: usize,
        size: usize,
    )
        requires { AreAt (map packet_of batch.now) order.now places.now }
        ensures { let chunk = chunk_at (joined batch.now order.now places.now) from size in
            IsFilled ports chunk self.old self.new }
    {
        match hold_chunk(&mut self.sinks, ports, batch, order, places, from, size) {
            Ok(()) => self.made = true,
            Err(_) => self.made = false,
        }
    }

    /// Gives what was made to the files, behind what packets before it leave there.
    pub(crate) fn write<F: Files>(&mut self, files: &mut F) -> Result<(), RunFault>
        requires created { EachFile (IsWritten (F.told files.old)) (files_of self.old.sinks) }
        requires apart { IsApart (files_of self.old.sinks) }
        ensures goes_on { (mode : Mode) → (workers : ℕ) → (card : Card) →
            (format : CaptureFormat) → (ports : ℕ) → (hs chunk : List Handled) →
            OnTrue self.old.made (HoldPieces format ports chunk self.old.sinks) →
            AreWhole mode workers card format ports hs
            (F.told files.old) (files_of self.old.sinks) →
            Writes mode workers card format ports (hs ++ chunk)
            (F.told files.new) (files_of self.old.sinks) result
            × OnOk result (AreBare format self.new.sinks) }
        ensures same_files { files_of self.new.sinks ≡ files_of self.old.sinks }
        ensures kept { KeepsAllBut (files_of self.old.sinks) (F.told files.old) (F.told files.new) }
        ensures cause { IsStopCause (F.counted files.old) (F.counted files.new) result }
        ensures among { StopsAmong [] (files_of self.old.sinks) result }
    {
        if self.made {
            flush_all(&mut self.sinks, files)
        } else {
            Err(RunFault::Memory)
        }
    }
}

/// So many chunks for these files, in which nothing is held.
pub(crate) fn idle_chunks(
    alloc: Global,
    count: usize,
    format: CaptureFormat,
    targets: &[u32],
) -> Result<Vec<Chunk>, AllocError>
    ensures count { IfOk result (λ chunks. length chunks.items ≡ count) }
    ensures files { IfOk result (λ chunks. AreOf targets.now chunks.items) }
    ensures idle { IfOk result (λ chunks. AreIdle format chunks.items) }
{
    let mut chunks = Vec::new(alloc);
    for _i in 0..count {
        chunks.push(Chunk::new(alloc, format, targets)?)?;
    }
    Ok(chunks)
}

/// Makes chunks of an order, one behind another from a packet on, side by side: each in a thread of
/// its own where one can be made. The others are made by the caller's thread.
#[tactic(auto, using(crate::proofs::Crossing::order_shared))]
pub(crate) fn fill_each<R: Threads + Sync>(
    rt: &R,
    chunks: &mut Vec<Chunk>,
    ports: u32,
    batch: &Batch,
    order: &Order,
    places: &[u32],
    from: usize,
    size: usize,
)
    requires at { AreAt (map packet_of batch.now) order.now places.now }
    requires room { from + length chunks.old.items * size < 2 ^ 64 }
    ensures { let all = joined batch.now order.now places.now in
        AreFilled ports all from size chunks.old.items chunks.new.items }
{
    let fill = |i: usize, chunk: &mut Chunk|
        requires { (from + i * size < 2 ^ 64)
            × AreAt (map packet_of batch.now) order.now places.now }
        ensures { let all = joined batch.entry.now order.entry.now places.entry.now in
            IsFilled ports (chunk_at all (from + i * size) size) chunk.entry.now chunk.exit.now }
    { chunk.fill(ports, batch, order, places, from + i * size, size) };
    thread::for_each_mut(rt, chunks.as_mut_slice(), 16, &fill);
}
