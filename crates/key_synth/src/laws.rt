//! Laws over the definitions. Each function's contract is one law; its body does nothing.
ghost use Rattle.key_synth.specs.Laws.{MeetingPacketsHashAlike, GivenKeysAreOne};
ghost use Rattle.key_synth.specs.Causes.{UnkeptObjectsKeepNone};
ghost use Rattle.key_synth.specs.Verdicts.{VerdictsAreOne};

/// Separation: under admissible keys two packets of a run that touch one location of a written
/// object have equal hashes, whatever the packets and the choices; up to and with the first packet
/// that has no step.
pub fn meeting_packets_hash_alike()
    ensures { MeetingPacketsHashAlike }
{}

/// The given keys of a function for a card are one.
pub fn given_keys_are_one()
    ensures { GivenKeysAreOne }
{}

/// The objects that a cause may name are the written ones that have sites and keep no label, each
/// with the one rule that fits.
pub fn unkept_objects_keep_none()
    ensures { UnkeptObjectsKeepNone }
{}

/// A function has one verdict for a card: its given keys are one, they are given exactly where there are any,
/// and where there are none the cause is one.
pub fn verdicts_are_one()
    ensures { VerdictsAreOne }
{}
