//! Laws of runs by a rule: one relation for the runs of every mode.
//!
//! Each function's contract is a law; its body does nothing.
ghost use Rattle.stream_run.specs.RuleLaws.{FramesKeepPackets, PortsAreKept, FirstStayFirst, RulesAreTold, NothingIsARun, HandledAreRuns, FrontsHaveFronts, RunsGoOnByOne, HandledHaveFronts};

/// Whichever order a run keeps, it keeps that of each port, with frames and without, and what may come
/// first stays so. The first line of a journal tells the order.
pub fn orders_are_kept()
    ensures frames { FramesKeepPackets }
    ensures ports { PortsAreKept }
    ensures first { FirstStayFirst }
    ensures told { RulesAreTold }
{}

/// No packets are a run by any rule; what is handled by one is a run by it; and what stands in front of a
/// run that ends early is one.
pub fn handled_are_runs()
    ensures nothing { NothingIsARun }
    ensures runs { HandledAreRuns }
    ensures fronts { FrontsHaveFronts }
{}

/// Packets that are handled by a rule go on by one that is, and by no other, and those in front of others
/// are handled by it.
pub fn runs_go_on()
    ensures one { RunsGoOnByOne }
    ensures less { HandledHaveFronts }
{}
