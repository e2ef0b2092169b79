//! Laws of the summary.
//!
//! Each function's contract is a law; its body does nothing.
ghost use Rattle.traffic_summary.specs.Laws.{PortsAreCounted};

/// As many packets of traffic come in at a port as its line says.
pub fn ports_are_counted()
    ensures { PortsAreCounted }
{}
