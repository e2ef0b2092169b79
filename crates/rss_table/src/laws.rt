//! Laws over tables and shares. Each function's contract is one law; its body does nothing.
ghost use Rattle.rss_table.specs.Tables.{EntriesGoRound};
ghost use Rattle.rss_table.specs.Shares.{SharesPartIndices};

/// Entry `i` of the 128 or 512 is queue `i` modulo the number of workers, so a hash has the queue
/// that its low 7 or 9 bits are modulo that number.
pub fn entries_go_round()
    ensures { EntriesGoRound }
{}

/// Each index is in the share of exactly one queue.
pub fn shares_part_indices()
    ensures { SharesPartIndices }
{}
