//! Shares of the indices, their rule and their stop.
ghost use Rattle.shard_laws.specs.ShareLaws.{SharesHaltOwn, RunsByStopsAreRuns, StopsAreUndivided, MeetingSharesCompose, MeetingSharesRecompose, MeetingStopsAreUndivided};

/// A share stops only where no index of it is vacant, and as far as its run has a meaning, that is
/// the run that stops nowhere.
pub fn shares_run_alike()
    ensures halts { SharesHaltOwn }
    ensures runs { RunsByStopsAreRuns }
{}

/// Where a share's handler stops on its queue's part, it stops on the whole state, and the other
/// way, with the same choices left.
pub fn share_stops_alike()
    ensures { StopsAreUndivided }
{}

/// The commutation law for shares: where lines keep the share rule and packets that meet have one
/// queue, the runs of the queues by their shares make up the run of all packets.
pub fn meeting_shares_compose()
    ensures { MeetingSharesCompose }
{}

/// The other way: where each queue has a run by its share, all packets have one, and its lines keep
/// the share rule.
pub fn meeting_shares_recompose()
    ensures { MeetingSharesRecompose }
{}

/// A share's stop behind a run is one of all packets' run, and the other way, with all choices used.
pub fn meeting_stops_are_undivided()
    ensures { MeetingStopsAreUndivided }
{}
