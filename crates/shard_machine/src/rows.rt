//! Worked rows: what shards of two queues come to with a few packets, event by event.
ghost use Rattle.shard_machine.specs.Rows.{TwoPacketsAreWorkedBy, AShareStopsFor, OtherThingsAreRefusedBy, SetupsAreToldOf};

/// Two packets of two queues, worked in either order and collected in the order dispatched.
pub fn two_packets_are_worked()
    ensures { TwoPacketsAreWorkedBy }
{}

/// A worker whose share is full stops at its packet, and nothing behind it is collected.
pub fn a_share_stops()
    ensures { AShareStopsFor }
{}

/// No worker idles with a packet, works once it has stopped, or has its packets collected before
/// their time.
pub fn other_things_are_refused()
    ensures { OtherThingsAreRefusedBy }
{}

/// What a setup is, which times fall, and which packets are of a queue.
pub fn setups_are_told()
    ensures { SetupsAreToldOf }
{}
