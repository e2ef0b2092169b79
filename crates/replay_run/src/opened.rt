//! A journal whose first line was read.

use journal_read::Journal;
use run_history::header::Header;

/// A journal whose first line was read, and what that tells. Keys have to be for its card.
#[derive(Drop)]
pub struct OpenedJournal {
    pub lines: Journal,
    pub header: Header,
}
