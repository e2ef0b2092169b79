//! How many packets a chunk is of, and how chunks are written.
ghost use Rattle.std.specs.Prelude.{◌+◌, ◌*◌, ◌<◌, ◌≤◌, [], ℕ, List, length, take};
ghost use Rattle.nf_files.specs.Told.{IsWritten};
ghost use Rattle.nf_base.specs.declared.card.Card.{Card};
ghost use Rattle.capture_format.specs.declared.format.CaptureFormat.{CaptureFormat};
ghost use Rattle.packet_feed.specs.Told.{EachFile, IsApart};
ghost use Rattle.run_history.specs.declared.line.Mode.{Mode};
ghost use Rattle.stream_run.specs.Runs.{Handled};
ghost use Rattle.stream_run.specs.Writing.{KeepsBut, IsStopCause, StopsAmong};
ghost use Rattle.locked_run.specs.Going.{AreWhole};
ghost use Rattle.locked_run.specs.Chunks.{AreOf, HoldAll, GoOnTo, AreGiven};

use crate::chunk::Chunk;
use crate::kept::Batch;
use nf_files::Files;
use stream_run::RunFault;

/// A chunk is of no more packets.
const MOST_PACKETS: usize = 8_192;

/// A chunk is of so many packets at least, as far as there are some: fewer are made sooner than a
/// thread is started for them, and would be written in small pieces.
const LEAST_PACKETS: usize = 1_024;

/// The frames of a chunk come to no more bytes, but for those of 1,024 packets.
const MOST_BYTES: usize = 4_194_304;

/// How many packets a chunk is of, where so many can be made side by side.
pub(crate) fn chunk_size(batch: &Batch, workers: u32) -> usize
    ensures some { 0 < result }
    ensures most { result ≤ 8192 }
{
    let in_room = MOST_BYTES / batch.longest().max(1);
    let each = batch.len().div_ceil(workers.max(1) as usize);
    in_room.min(each).max(LEAST_PACKETS).min(MOST_PACKETS)
}

/// How many chunks of so many packets are made side by side: no more than there are.
pub(crate) fn chunk_count(batch: &Batch, workers: u32, size: usize) -> usize
    requires { 0 < size }
    ensures some { 0 < result }
    ensures most { result ≤ 16 }
{
    batch
        .len()
        .div_ceil(size)
        .min(workers as usize)
        .max(1)
        .min(16)
}

// Gives chunks to the files, one after another.
fn write_each<F: Files>(
    files: &mut F,
    chunks: &mut [Chunk],
    targets: &[u32],
) -> Result<(), RunFault>
    requires files { AreOf targets.now chunks.old }
    requires created { EachFile (IsWritten (F.told files.old)) targets.now }
    requires apart { IsApart targets.now }
    ensures goes_on { (mode : Mode) → (workers : ℕ) → (card : Card) →
        (format : CaptureFormat) → (ports : ℕ) → (all : List Handled) → (from size : ℕ) →
        HoldAll format ports all from size chunks.old →
        AreWhole mode workers card format ports (take from all)
        (F.told files.old) targets.now →
        GoOnTo mode workers card format ports all (from + length chunks.old * size)
        (F.told files.new) targets.now chunks.new result }
    ensures same_files { AreOf targets.now chunks.new }
    ensures kept { KeepsBut targets.now (F.told files.old) (F.told files.new) }
    ensures cause { IsStopCause (F.counted files.old) (F.counted files.new) result }
    ensures among { StopsAmong [] targets.now result }
{
    for i in 0..chunks.len() {
        let chunk = &mut chunks[i];
        match chunk.write(files) {
            Ok(()) => {}
            Err(stop) => return Err(stop),
        }
    }
    Ok(())
}

/// The same of all that a round has.
pub(crate) fn write_made<F: Files>(
    files: &mut F,
    chunks: &mut Vec<Chunk>,
    targets: &[u32],
) -> Result<(), RunFault>
    requires files { AreOf targets.now chunks.old.items }
    requires created { EachFile (IsWritten (F.told files.old)) targets.now }
    requires apart { IsApart targets.now }
    ensures { AreGiven (F.counted files.old) (F.counted files.new) (F.told files.old) (F.told files.new)
        targets.now chunks.old.items chunks.new.items result }
{
    write_each(files, chunks.as_mut_slice(), targets)
}
