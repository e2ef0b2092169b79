//! Cover: what a packet touches, it touches at a site. Each function's contract is a law; its body
//! does nothing.
ghost use Rattle.nf_sites.specs.CoverLaws.{SitesCover, RecordsAreCovered, EventsAreCovered, EntriesKeepTheirLabels, RunsAreCovered};

/// Whatever the state, the choices and the numbers of entries: what an event of a handled packet
/// touches, it touches at a site of its port and of its own statement, or of the `get`, `find` or
/// `new` that bound its variable; a key at a look-up of its map with its key, a cell at an access
/// with its index. Also the events before a choice that is not legal.
pub fn sites_cover()
    ensures { SitesCover }
{}

/// Where live entries, and those that the packet makes, have labels that are told by their numbers,
/// the packet touches them at sites that give these labels, on the path that it takes.
pub fn records_are_covered()
    ensures records { RecordsAreCovered }
    ensures events { EventsAreCovered }
{}

/// In a run each live entry has the labels that its `new` gave, and those that are together are
/// equal.
pub fn entries_keep_their_labels()
    ensures { EntriesKeepTheirLabels }
{}

/// What a packet of a run touches, it touches at a site of its port, up to and with the first
/// packet that has no step.
pub fn runs_are_covered()
    ensures { RunsAreCovered }
{}
