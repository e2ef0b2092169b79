//! Separation. The function's contract is the law; its body does nothing.
ghost use Rattle.nf_sites.specs.Separation.{MeetingPacketsHashAlike};

/// Two packets of a run that touch one location of a written object have one hash, for each hash
/// that is admissible by sites; up to and with the first packet that has no step.
pub fn meeting_packets_hash_alike()
    ensures { MeetingPacketsHashAlike }
{}
