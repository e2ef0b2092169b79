//! A packet's step.
ghost use Rattle.nf_laws.specs.Steps.{StepsAreLegal, LegalStepsAre, OtherPortsHaveNone, SomeChoicesAreLegal, StepsPickTheirChoices, OneStepAtMost, SkippedIsNothing};

/// A packet has a step exactly where each `new` of its record got an answer, and its choices are the
/// indices of the entries made, in order.
pub fn steps_are_legal()
    ensures legal { StepsAreLegal }
    ensures steps { LegalStepsAre }
    ensures other { OtherPortsHaveNone }
{}

/// A packet that is skipped, or came in at one of the function's ports, has a step with some choices,
/// at every state.
pub fn some_choices_are_legal()
    ensures { SomeChoicesAreLegal }
{}

/// By its choices a packet has one step at most, and the step picks them.
pub fn steps_pick_their_choices()
    ensures picks { StepsPickTheirChoices }
    ensures once { OneStepAtMost }
{}

/// A packet whose fields are not known has a step with no choices alone, which changes nothing.
pub fn skipped_is_nothing()
    ensures { SkippedIsNothing }
{}
