//! What some bytes begin with.
ghost use Rattle.std.specs.Prelude.{◌≡◌};
ghost use Rattle.journal_read.specs.Firsts.{IsLineEnd, IsOnlyLine, IsFirst};

use run_history::laws::values_are_lines;
use run_history::line::JournalLine;
use run_history::reader::read_line;

/// No line has as many bytes.
pub(crate) const LONG: usize = 512;

/// What some bytes of a journal begin with.
#[derive(Debug, Drop)]
pub(crate) enum First {
    /// A line, of so many bytes.
    Line { line: JournalLine, end: usize },
    /// No line, whatever follows the bytes.
    Wrong,
    /// Bytes that may be the front of a line.
    Open,
}

// How many bytes stand up to the first LF, with it; None where there is none.
fn line_end(bytes: &[u8]) -> Option<usize>
    ensures { IsLineEnd bytes.now result }
{
    for (i, byte) in bytes.iter().enumerate() {
        if *byte == b'\n' {
            return Some(i + 1);
        }
    }
    None
}

// A line of these bytes alone.
fn line_of(bytes: &[u8]) -> Option<JournalLine>
    ensures { IsOnlyLine bytes.now result }
{
    match read_line(bytes) {
        Some(line) => {
            values_are_lines(&line);
            Some(line)
        }
        None => None,
    }
}

/// What these bytes begin with.
pub(crate) fn front_of(bytes: &[u8]) -> First
    ensures { IsFirst bytes.now result }
{
    let Some(end) = line_end(bytes) else {
        return if bytes.len() < LONG {
            First::Open
        } else {
            First::Wrong
        };
    };
    match line_of(&bytes[..end]) {
        Some(line) => First::Line { line, end },
        None => First::Wrong,
    }
}
