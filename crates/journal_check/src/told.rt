//! What a line tells of a packet.
ghost use Rattle.std.specs.Prelude.{◌≡◌, ◌↔◌, ◌%◌, ◌≤◌, IsTrue, Some, None};
ghost use Rattle.run_history.specs.Headings.{Heading};
ghost use Rattle.journal_check.specs.Judging.{worker_by, port_in};
ghost use Rattle.journal_check.specs.Telling.{Tells};

use nf_base::done::Action;
use nf_base::packet::PacketId;
use nf_base::picks::Picks;
use run_history::header::Header;
use run_history::line::{JournalLine, Mode};

/// The port whose next packet a line has to be of; None for a first line.
pub fn port_of(line: &JournalLine) -> Option<u32>
    ensures { result ≡ port_in line.now }
{
    match line {
        JournalLine::Header(_header) => None,
        JournalLine::Packet {
            id,
            worker: _,
            action: _,
            picks: _,
        } => Some(id.port),
    }
}

/// Who handles the packets of a queue, or those that come in at a port.
pub(crate) fn worker_by(header: &Header, queue: u32, port: u32) -> u32
    ensures { result ≡ worker_by header.now.mode header.now.workers queue port }
{
    let workers = header.workers().get();
    match header.mode() {
        Mode::One => 0,
        Mode::Shard => queue,
        Mode::Lock => port % workers,
    }
}

/// Whether two actions are one.
pub(crate) fn is_same(a: Action, b: Action) -> bool
    ensures { IsTrue result ↔ (a ≡ b) }
{
    match a {
        Action::Skip => match b {
            Action::Skip => true,
            _ => false,
        },
        Action::Drop => match b {
            Action::Drop => true,
            _ => false,
        },
        Action::Flood => match b {
            Action::Flood => true,
            _ => false,
        },
        Action::To(port) => match b {
            Action::To(other) => port == other,
            _ => false,
        },
    }
}

/// The action and the choices that a line tells, where it is one of this packet and this worker.
pub(crate) fn told<'a>(
    line: &'a JournalLine,
    packet: PacketId,
    by: u32,
) -> Option<(Action, &'a Picks)>
    ensures { Tells packet by line.now result }
{
    match line {
        JournalLine::Header(_header) => None,
        JournalLine::Packet {
            id,
            worker,
            action,
            picks,
        } => if id.port == packet.port && id.seq == packet.seq && *worker == by {
            Some((*action, picks))
        } else {
            None
        },
    }
}
