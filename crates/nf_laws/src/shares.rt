//! A queue's share of a function.
ghost use Rattle.nf_laws.specs.Shares.{EachIndexHasAnOwner, NoIndexHasTwo, NoneVacantIsNone, OwnersSeeEntries, OwnersSeeCells, SharesGoAlike, SharesStepAlike, WholeSharesNeverStop, SharesStopAtNews, StopsAreTold, ShareStopsAreTold};

/// Of so many queues exactly one owns an index.
pub fn each_index_has_one_owner()
    ensures each { EachIndexHasAnOwner }
    ensures once { NoIndexHasTwo }
{}

/// No own index is vacant exactly where none that is own is.
pub fn none_vacant_is_none()
    ensures { NoneVacantIsNone }
{}

/// What an owner sees of a list is the list where an index is own, and else the opening values.
pub fn owners_see_their_own()
    ensures entries { OwnersSeeEntries }
    ensures cells { OwnersSeeCells }
{}

/// A share's handler does what the undivided one does, with the same record, unless it stops; so its
/// step is the undivided step.
pub fn shares_go_alike()
    ensures courses { SharesGoAlike }
    ensures steps { SharesStepAlike }
{}

/// The one share of the whole never stops.
pub fn whole_shares_never_stop()
    ensures { WholeSharesNeverStop }
{}

/// A share of several stops at a `new` with no key taken, where no own index is vacant.
pub fn shares_stop_at_news()
    ensures { SharesStopAtNews }
{}

/// A share stops exactly where its record ends with a `new` that stops, and an entry was made at each
/// choice before.
pub fn stops_are_told()
    ensures courses { StopsAreTold }
    ensures packets { ShareStopsAreTold }
{}
