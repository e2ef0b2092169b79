//! Chunks that are written while those behind them are made.
ghost use Rattle.std.specs.Prelude.{◌≡◌, ◌^◌, ◌+◌, ◌*◌, ◌<◌, ◌≤◌, [], ℕ, List, length, map, take, IfOk};
ghost use Rattle.nf_files.specs.Told.{IsWritten};
ghost use denote.Param.Send.{IsSync};
ghost use Rattle.nf_base.specs.declared.card.Card.{Card};
ghost use Rattle.capture_format.specs.declared.format.CaptureFormat.{CaptureFormat};
ghost use Rattle.packet_feed.specs.Arrivals.{packet_of};
ghost use Rattle.packet_feed.specs.Told.{EachFile, IsApart};
ghost use Rattle.run_history.specs.declared.line.Mode.{Mode};
ghost use Rattle.stream_run.specs.Writing.{KeepsBut, IsStopCause, StopsAmong};
ghost use Rattle.lock_workers.specs.RunResult.{AreAt};
ghost use Rattle.locked_run.specs.Handled.{joined};
ghost use Rattle.locked_run.specs.Going.{AreWhole, Writes};
ghost use Rattle.locked_run.specs.Chunks.{AreFilled, AreOf, AreGiven};
ghost use Rattle.locked_run.specs.Rounds.{step_of, AreRounds, AreAllIdle, AreReady, TurnsTo};

use crate::chunk::{Chunk, fill_each, idle_chunks};
use crate::kept::Batch;
use crate::writing::write_made;
use capture_format::CaptureFormat;
use lock_workers::RunResult;
use nf_files::Files;
use std::alloc::{AllocError, Global};
use std::mem;
use std::thread::{Threads, join_mut};
use stream_run::RunFault;

/// The chunks of two rounds: while those of one are written, those of the next are made.
#[derive(Drop)]
pub(crate) struct Rounds {
    /// What is to be written next.
    made: Vec<Chunk>,
    /// As many more, in which nothing is held.
    next: Vec<Chunk>,
    /// How many packets a chunk is of.
    size: usize,
}

impl Rounds {
    /// Rounds of so many chunks for these files, each of so many packets, in which nothing is held.
    pub(crate) fn new(
        alloc: Global,
        count: usize,
        size: usize,
        format: CaptureFormat,
        targets: &[u32],
    ) -> Result<Rounds, AllocError>
        requires apart { IsApart targets.now }
        requires some { 0 < count * size }
        requires few { count * size ≤ 2147483648 }
        ensures rounds { IfOk result (AreRounds targets.now (count * size)) }
        ensures idle { IfOk result (AreAllIdle format) }
    {
        let made = idle_chunks(alloc, count, format, targets)?;
        let next = idle_chunks(alloc, count, format, targets)?;
        Ok(Rounds { made, next, size })
    }

    // How many packets the chunks of one round are of.
    fn step(&self) -> usize
        requires { step_of self.now ≤ 2147483648 }
        ensures { result ≡ step_of self.now }
    {
        self.made.len() * self.size
    }

    // Makes the first chunks.
    fn begin<R: Threads + Sync>(&mut self, rt: &R, ports: u32, batch: &Batch, worked: &RunResult)
        requires at { AreAt (map packet_of batch.now) worked.now.order worked.now.places.items }
        requires room { step_of self.old < 2 ^ 64 }
        ensures filled { let all = joined batch.now worked.now.order worked.now.places.items in
            AreFilled ports all 0 self.old.size self.old.made.items self.new.made.items }
        ensures next { self.new.next ≡ self.old.next }
        ensures size { self.new.size ≡ self.old.size }
    {
        let places = worked.places.as_slice();
        fill_each(
            rt,
            &mut self.made,
            ports,
            batch,
            &worked.order,
            places,
            0,
            self.size,
        );
    }

    // Gives what is made to the files, while the chunks behind it are made by other threads, where
    // one can be started; else they are made then.
    #[tactic(auto, using(crate::proofs::Crossing::order_shared))]
    fn write_beside<R: Threads + Sync, F: Files>(
        &mut self,
        rt: &R,
        files: &mut F,
        ports: u32,
        batch: &Batch,
        worked: &RunResult,
        from: usize,
        targets: &[u32],
    ) -> Result<(), RunFault>
        requires at { AreAt (map packet_of batch.now) worked.now.order worked.now.places.items }
        requires rounds { AreRounds targets.now (step_of self.old) self.old }
        requires room { from + (step_of self.old + step_of self.old) < 2 ^ 64 }
        requires created { EachFile (IsWritten (F.told files.old)) targets.now }
        ensures filled { let all = joined batch.now worked.now.order worked.now.places.items in
            AreFilled ports all (from + step_of self.old) self.old.size self.old.next.items
            self.new.next.items }
        ensures given { AreGiven (F.counted files.old) (F.counted files.new)
            (F.told files.old) (F.told files.new)
            targets.now self.old.made.items self.new.made.items result }
        ensures size { self.new.size ≡ self.old.size }
    {
        let size = self.size;
        let behind = from + self.step();
        let order = &worked.order;
        let places = worked.places.as_slice();
        let made = &mut self.made;
        let next = &mut self.next;
        let mut fill = ||
            requires { IsSync R.row × (behind + length next.now.items * size < 2 ^ 64)
                × AreAt (map packet_of batch.now) order.now places.now }
            ensures { let all = joined batch.entry.now order.entry.now places.entry.now in
                AreFilled ports all behind size next.entry.now.items next.exit.now.items }
        { fill_each(rt, next, ports, batch, order, places, behind, size) };
        let mut write = ||
            requires { AreOf targets.now made.now.items
                × EachFile (IsWritten (F.told files.now)) targets.now × IsApart targets.now }
            ensures { let was = files.entry.now in let is = files.exit.now in
                AreGiven (F.counted was) (F.counted is) (F.told was) (F.told is) targets.entry.now made.entry.now.items
                made.exit.now.items result }
        { write_made(files, made, targets) };
        let (_, written) = join_mut(rt, &mut fill, &mut write);
        written
    }

    // The same, and what was made beside is what is to be written next.
    fn turn<R: Threads + Sync, F: Files>(
        &mut self,
        rt: &R,
        files: &mut F,
        ports: u32,
        batch: &Batch,
        worked: &RunResult,
        from: usize,
        targets: &[u32],
    ) -> Result<(), RunFault>
        requires at { AreAt (map packet_of batch.now) worked.now.order worked.now.places.items }
        requires rounds { AreRounds targets.now (step_of self.old) self.old }
        requires room { from + (step_of self.old + step_of self.old) < 2 ^ 64 }
        requires created { EachFile (IsWritten (F.told files.old)) targets.now }
        ensures goes_on { let all = joined batch.now worked.now.order worked.now.places.items in
            (mode : Mode) → (workers : ℕ) → (card : Card) → (format : CaptureFormat) →
            AreReady format ports all from self.old →
            AreWhole mode workers card format ports (take from all)
            (F.told files.old) targets.now →
            TurnsTo mode workers card format ports all (from + step_of self.old)
            (F.told files.new) targets.now self.new result }
        ensures rounds { AreRounds targets.now (step_of self.old) self.new }
        ensures kept { KeepsBut targets.now (F.told files.old) (F.told files.new) }
        ensures cause { IsStopCause (F.counted files.old) (F.counted files.new) result }
        ensures among { StopsAmong [] targets.now result }
    {
        match self.write_beside(rt, files, ports, batch, worked, from, targets) {
            Ok(()) => {
                mem::swap(&mut self.made, &mut self.next);
                Ok(())
            }
            Err(stop) => Err(stop),
        }
    }

    /// Writes what packets leave, behind what the files begin with, in an order of them, each of
    /// which stands at its place.
    ///
    /// It is made by chunks, as many side by side as there are in a round, while those of the round
    /// before are given to the files, one after another. The room of the chunks is used again.
    pub(crate) fn write_all<R: Threads + Sync, F: Files>(
        &mut self,
        rt: &R,
        files: &mut F,
        ports: u32,
        batch: &Batch,
        worked: &RunResult,
        targets: &[u32],
    ) -> Result<(), RunFault>
        requires at { AreAt (map packet_of batch.now) worked.now.order worked.now.places.items }
        requires rounds { AreRounds targets.now (step_of self.old) self.old }
        requires created { EachFile (IsWritten (F.told files.old)) targets.now }
        ensures goes_on { let all = joined batch.now worked.now.order worked.now.places.items in
            (mode : Mode) → (workers : ℕ) → (card : Card) → (format : CaptureFormat) →
            AreAllIdle format self.old →
            AreWhole mode workers card format ports [] (F.told files.old) targets.now →
            Writes mode workers card format ports all (F.told files.new) targets.now result }
        ensures kept { KeepsBut targets.now (F.told files.old) (F.told files.new) }
        ensures cause { IsStopCause (F.counted files.old) (F.counted files.new) result }
        ensures among { StopsAmong [] targets.now result }
    {
        let places = worked.places.as_slice();
        let step = self.step();
        self.begin(rt, ports, batch, worked);
        let mut from = 0;
        'rounds: while from + step < places.len() {
            match self.turn(rt, files, ports, batch, worked, from, targets) {
                Ok(()) => {}
                Err(stop) => return Err(stop),
            }
            from += step;
        }
        write_made(files, &mut self.made, targets)
    }
}
