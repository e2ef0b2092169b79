//! What holds of shards after any list of events. Each function's contract is a law; its body does
//! nothing.
ghost use Rattle.shard_machine.specs.Laws.{NewShardsHold, EventsKeepWhatHolds, CollectedIsARun, AllCollectedIsTheUnion, StopsAreShareStops, NothingBehindAStop};

/// After every list of events from new shards on: each worker has worked the first of its queue's
/// packets, in order, with the state and the answers of the run by its share over these alone, and
/// those collected are the first that were dispatched.
pub fn events_keep_what_holds()
    ensures begin { NewShardsHold }
    ensures go_on { EventsKeepWhatHolds }
{}

/// At each moment what was collected is a run of all: with the answers that were given, with lines
/// that keep the share rule, and with the union of the queues' states over the collected packets.
pub fn collected_is_a_run()
    ensures { CollectedIsARun }
{}

/// Where all were collected, the state of that run is the union of the workers' states.
pub fn all_collected_is_the_union()
    ensures { AllCollectedIsTheUnion }
{}

/// A stop of shards is a share stop at the state of the run of all that were collected, and nothing
/// at or behind a packet that a worker stopped at is ever collected.
pub fn stops_are_share_stops()
    ensures stops { StopsAreShareStops }
    ensures nothing_behind { NothingBehindAStop }
{}
