//! All packets are read before any of them is handled.
ghost use Rattle.std.specs.Prelude.{◌≡◌, ℕ, List, [], length};
ghost use Rattle.nf_files.specs.Told.{IsRead};
ghost use Rattle.packet_feed.specs.Told.{EachFile};
ghost use Rattle.packet_feed.specs.Sources.{files_in};
ghost use Rattle.stream_run.specs.Writing.{KeepsBut, IsStopCause, StopsAmong};
ghost use Rattle.locked_run.specs.Reading.{ReadsAll};

use crate::kept::{Batch, keep};
use nf_files::Files;
use packet_feed::{Fed, Feed};
use std::alloc::Global;
use stream_run::{Ending, RunFault, stop_in};

/// Reads all packets that a feed gives, and how the captures end then.
pub(crate) fn read_all<F: Files>(
    alloc: Global,
    files: &mut F,
    feed: &mut Feed,
    captures: &[u32],
    batch: &mut Batch,
) -> Result<Ending, RunFault>
    requires captures { files_in feed.old.sources ≡ captures.now }
    requires opened { EachFile (IsRead (F.told files.old)) captures.now }
    requires empty { batch.old ≡ [] }
    ensures reads_all { ReadsAll (length captures.now)
        feed.old (F.told files.old) feed.new (F.told files.new) batch.new result }
    ensures kept { (targets : List ℕ) → KeepsBut targets (F.told files.old) (F.told files.new) }
    ensures cause { IsStopCause (F.counted files.old) (F.counted files.new) result }
    ensures among { (targets : List ℕ) → StopsAmong captures.now targets result }
{
    'packets: loop {
        match feed.next(files) {
            Ok(Fed::End) => return Ok(Ending::All),
            Ok(Fed::TooMany) => return Ok(Ending::TooMany),
            Err(fault) => return Err(stop_in(captures, fault)),
            Ok(Fed::Packet(packet)) => {
                match keep(alloc, batch, &packet, feed.original(), feed.frame()) {
                    Ok(()) => {}
                    Err(_) => return Err(RunFault::Memory),
                }
            }
        }
    }
}
