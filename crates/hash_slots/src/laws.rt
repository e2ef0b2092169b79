//! What holds of tags.
//!
//! The function's contract is a law; its body does nothing.
ghost use Rattle.hash_slots.specs.Hashes.{LowWordsCount};

/// A part's low word counts also where its high word makes the factor 0.
pub fn low_words_count()
    ensures { LowWordsCount }
{}
