//! What comes next of a journal.

use run_history::line::JournalLine;

/// What comes next of a journal.
#[derive(Debug, Drop)]
pub enum Next {
    /// The line that came next.
    Line(JournalLine),
    /// What is left of it begins with no line.
    Wrong,
    /// Nothing is left of it.
    End,
}
