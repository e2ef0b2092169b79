//! Laws of replays.
//!
//! Each function's contract is a law; its body does nothing.
ghost use Rattle.replay_run.specs.Laws.{RunsAreRight, FrontsAreRight, TakenAreFronts, RunsAreFronts, RightIsAccepted, FirstIsFound, FirstAreOfPorts, OthersMayBeFirst, NoneIsPassedOver};

/// What a run by any rule leaves is right, also where it ends early: its packets are a run that a replay
/// takes, and its journal and outputs hold what a replay asks for.
pub fn runs_are_right()
    ensures runs { RunsAreRight }
    ensures fronts { FrontsAreRight }
{}

/// What a replay takes for a run by a rule is one that ends early; and each run of the first packets of
/// captures in capture order is.
pub fn taken_are_fronts()
    ensures taken { TakenAreFronts }
    ensures runs { RunsAreFronts }
{}

/// Where all files are told, and a run's journal and outputs are there, a replay takes them for right
/// and tells the state that the run left, and nothing else.
pub fn right_is_accepted()
    ensures { RightIsAccepted }
{}

/// The first line of a run's journal is found where that is there, and no other one.
pub fn first_is_found()
    ensures { FirstIsFound }
{}

/// Where each port's packets stand in their order: so they do in capture order; a packet of another port
/// may come first, and one of the same port may not.
pub fn ports_keep_their_order()
    ensures first { FirstAreOfPorts }
    ensures others { OthersMayBeFirst }
    ensures never { NoneIsPassedOver }
{}
