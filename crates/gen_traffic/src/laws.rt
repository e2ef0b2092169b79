//! Laws of made-up traffic, and worked rows.
//!
//! Each function's contract is a law or a row; its body does nothing.
ghost use Rattle.gen_traffic.specs.Traffic.{Recipe};
ghost use Rattle.gen_traffic.specs.Laws.{FramesAreWellMade, EachIsHandled, TimesNeverFall, PortsTakeTurns, FlowsAreApart, IsCounted, TrafficIsInOrder};
ghost use Rattle.gen_traffic.specs.Rows.{SeedZeroDraws, FlowZeroIsChecked, ReplyToFlowOne, OneFlow, TwoFlows, ThreePorts, ClientsAreMany, OneFlowIsLetThrough, AnUnaskedReplyIsDropped};

/// A frame has 42 bytes, its fields are those that are read from it, and the checksum of its IP header
/// is right.
pub fn frames_are_well_made()
    ensures { FramesAreWellMade }
{}

/// Each packet is handled, with the fields of its frame.
pub fn each_is_handled()
    ensures { EachIsHandled }
{}

/// No packet comes before an earlier one.
pub fn times_never_fall()
    ensures { TimesNeverFall }
{}

/// The ports take turns, and the packets of each are numbered from 0.
pub fn ports_take_turns()
    ensures { PortsTakeTurns }
{}

/// Two flows have two clients.
pub fn flows_are_apart()
    ensures { FlowsAreApart }
{}

/// There are as many packets as were asked for.
pub fn traffic_is_counted()
    ensures { (r : Recipe) → IsCounted r }
{}

/// The packets stand in capture order.
pub fn traffic_is_in_order()
    ensures { TrafficIsInOrder }
{}

/// The numbers behind seed 0, the checksum and a frame of the first flows.
pub fn numbers_and_frames()
    ensures numbers { SeedZeroDraws }
    ensures checksum { FlowZeroIsChecked }
    ensures frame { ReplyToFlowOne }
{}

/// Four packets of one flow, of two, and at three ports.
pub fn four_packets()
    ensures one { OneFlow }
    ensures two { TwoFlows }
    ensures three_ports { ThreePorts }
{}

/// The clients of some flows.
pub fn some_clients()
    ensures { ClientsAreMany }
{}

/// A firewall lets a flow and its replies through, and no reply of another flow.
pub fn through_a_firewall()
    ensures one { OneFlowIsLetThrough }
    ensures two { AnUnaskedReplyIsDropped }
{}
