//! The locations that a packet touches, and the numbers of entries.
ghost use Rattle.nf_laws.specs.Touching.{TouchedIsALocation, NoOtherLocationIs};
ghost use Rattle.nf_laws.specs.Numbering.{NewsMakeEntries, OnlyNewsMakeEntries, EntriesAreCounted, NewEntriesTakeTheNext, OtherEntriesKeepTheirs, LaterEntriesAreGreater, EntriesAreApart};

/// The locations of a record are what its events touch, by the numbers that entries have at each.
pub fn locations_are_touched()
    ensures each { TouchedIsALocation }
    ensures only { NoOtherLocationIs }
{}

/// An entry is made by a `new` alone, with its labels and at its index.
pub fn news_make_entries()
    ensures each { NewsMakeEntries }
    ensures only { OnlyNewsMakeEntries }
{}

/// Entries are numbered by chain, in the order in which they are made.
pub fn entries_are_numbered()
    ensures counted { EntriesAreCounted }
    ensures next { NewEntriesTakeTheNext }
    ensures kept { OtherEntriesKeepTheirs }
    ensures greater { LaterEntriesAreGreater }
{}

/// The entries made at the indices of a chain have different numbers, each below the number made.
pub fn entries_are_apart()
    ensures { EntriesAreApart }
{}
