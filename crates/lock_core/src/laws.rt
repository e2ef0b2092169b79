//! Laws of what seats do.
//!
//! Each function's contract is a law; its body does nothing.
ghost use Rattle.lock_core.specs.Histories.{EventsAreOneHistory, ValidEventsAreAnswered, HistoriesGrow, OnlySeatsCall};

/// Whatever valid events come, what the seats did is one legal order, and only they are in it.
pub fn events_are_one_history()
    ensures history { EventsAreOneHistory }
    ensures seats { OnlySeatsCall }
{}

/// Each event that may come has an answer.
pub fn valid_events_are_answered()
    ensures { ValidEventsAreAnswered }
{}

/// An entry of the history stays where it is.
pub fn histories_grow()
    ensures { HistoriesGrow }
{}
