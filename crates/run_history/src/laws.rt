//! Laws of journal lines.
//!
//! Each function's contract is a law; its body does nothing, or takes a value apart.
ghost use Rattle.std.specs.List.{AllByRecursion};
ghost use Rattle.run_history.specs.Laws.{LinesAreOne, LinesEndByLf};
ghost use Rattle.run_history.specs.Lines.{IsShort, IsPacket, IsLine};

use crate::line::JournalLine;
use nf_base::done::Action;
use nf_base::packet::PacketId;
use nf_base::picks::Picks;

/// Two lines with the same bytes are one line.
pub fn lines_are_one()
    ensures { LinesAreOne }
{}

/// A line ends by LF, which stands nowhere else in it.
pub fn lines_end_by_lf()
    ensures { LinesEndByLf }
{}

fn are_short(indices: &[u32])
    ensures { AllByRecursion IsShort indices.now }
{}

fn is_packet(id: PacketId, worker: u32, action: Action, picks: &Picks)
    ensures { IsPacket id worker action picks.now }
{
    let _few = picks.len();
    are_short(picks.as_slice());
}

/// Every value of the type is a line that a journal may have.
pub fn values_are_lines(line: &JournalLine)
    ensures { IsLine line.now }
{
    match line {
        JournalLine::Header(header) => {
            let _mode = header.mode();
        }
        JournalLine::Packet {
            id,
            worker,
            action,
            picks,
        } => is_packet(*id, *worker, *action, picks),
    }
}
