//! The packets that the lines of a journal are of.
ghost use Rattle.std.specs.Prelude.{◌<◌, []};
ghost use Rattle.packet_feed.specs.Told.{KeepsOthers};
ghost use Rattle.run_history.specs.declared.line.Mode.TheVariants.{One, Lock};
ghost use Rattle.stream_run.specs.Given.{ReadsFrom};
ghost use Rattle.stream_run.specs.Writing.{IsStopCause, StopsAmong};
ghost use Rattle.packet_feed.specs.Feeding.{SameFeed};
ghost use Rattle.replay_run.specs.Turns.{Fetches, CountsOne};

use journal_check::port_of;
use nf_base::packet::Packet;
use nf_files::Files;
use packet_feed::{Fed, Feed};
use run_history::line::{JournalLine, Mode};
use stream_run::{RunFault, stop_in};

// The next packet in capture order; None where none is left.
fn next_of_all<F: Files>(
    files: &mut F,
    feed: &mut Feed,
    captures: &[u32],
    line: &JournalLine,
) -> Result<Option<Packet>, RunFault>
    requires captures { ReadsFrom captures.now feed.old (F.told files.old) }
    requires room { feed.old.given < feed.old.most }
    ensures fetches { Fetches One line.now feed.old feed.new (F.told files.old) (F.told files.new) result }
    ensures counts { CountsOne feed.old feed.new result }
    ensures same { SameFeed feed.old feed.new }
    ensures kept { KeepsOthers captures.now (F.told files.old) (F.told files.new) }
    ensures cause { IsStopCause (F.counted files.old) (F.counted files.new) result }
    ensures among { StopsAmong captures.now [] result }
{
    match feed.next(files) {
        Ok(Fed::Packet(packet)) => Ok(Some(packet)),
        Ok(Fed::End) => Ok(None),
        Ok(Fed::TooMany) => unreachable!(),
        Err(fault) => Err(stop_in(captures, fault)),
    }
}

// The next packet of the port that a line tells; None where none is left, or it tells none.
fn next_of_port<F: Files>(
    files: &mut F,
    feed: &mut Feed,
    captures: &[u32],
    line: &JournalLine,
) -> Result<Option<Packet>, RunFault>
    requires captures { ReadsFrom captures.now feed.old (F.told files.old) }
    requires room { feed.old.given < feed.old.most }
    ensures fetches { Fetches Lock line.now feed.old feed.new (F.told files.old) (F.told files.new) result }
    ensures counts { CountsOne feed.old feed.new result }
    ensures same { SameFeed feed.old feed.new }
    ensures kept { KeepsOthers captures.now (F.told files.old) (F.told files.new) }
    ensures cause { IsStopCause (F.counted files.old) (F.counted files.new) result }
    ensures among { StopsAmong captures.now [] result }
{
    match port_of(line) {
        None => Ok(None),
        Some(port) => {
            if port as usize >= captures.len() {
                return Ok(None);
            }
            match feed.next_at(files, port) {
                Ok(next) => Ok(next),
                Err(fault) => Err(stop_in(captures, fault)),
            }
        }
    }
}

/// The packet that a line has to be of: in mode `lock` the next one of its port, else the next one in
/// capture order; None where none is left.
pub(crate) fn packet_for<F: Files>(
    files: &mut F,
    feed: &mut Feed,
    mode: Mode,
    captures: &[u32],
    line: &JournalLine,
) -> Result<Option<Packet>, RunFault>
    requires captures { ReadsFrom captures.now feed.old (F.told files.old) }
    requires room { feed.old.given < feed.old.most }
    ensures fetches { Fetches mode line.now feed.old feed.new (F.told files.old) (F.told files.new) result }
    ensures counts { CountsOne feed.old feed.new result }
    ensures same { SameFeed feed.old feed.new }
    ensures kept { KeepsOthers captures.now (F.told files.old) (F.told files.new) }
    ensures cause { IsStopCause (F.counted files.old) (F.counted files.new) result }
    ensures among { StopsAmong captures.now [] result }
{
    match mode {
        Mode::One => next_of_all(files, feed, captures, line),
        Mode::Shard => next_of_all(files, feed, captures, line),
        Mode::Lock => next_of_port(files, feed, captures, line),
    }
}
