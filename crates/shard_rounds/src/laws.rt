//! What a round's outcome says of its batch, and the events of a few packets. Each function's
//! contract is a law; its body does nothing.
ghost use Rattle.shard_rounds.specs.Laws.{HandsOutItsBatch, HandsOutUpToTheStop};
ghost use Rattle.shard_rounds.specs.Rows.{EventsOfRounds};

/// Of shards with nothing left, a round hands out its batch, in order, up to the packet of its stop.
pub fn rounds_hand_out_their_batch()
    ensures whole { HandsOutItsBatch }
    ensures front { HandsOutUpToTheStop }
{}

/// The events of a round of three packets at two queues.
pub fn events_of_a_round()
    ensures { EventsOfRounds }
{}
