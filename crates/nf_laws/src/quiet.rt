//! Packets that change nothing.
ghost use Rattle.nf_laws.specs.Quiet.{QuietAnswersSteps, QuietIsSame, QuietNumbersNothing, QuietChangesNothing, ChangesAreTheseEvents, OperationsChange, NewsChange};

/// Exactly a packet that has a step is quiet or not.
pub fn quiet_answers_steps()
    ensures { QuietAnswersSteps }
{}

/// A quiet step leaves the state and the numbers of entries as they were.
pub fn quiet_is_same()
    ensures state { QuietIsSame }
    ensures numbers { QuietNumbersNothing }
{}

/// A step isn't quiet exactly where an entry expires or an operation of it changed something.
pub fn quiet_changes_nothing()
    ensures { QuietChangesNothing }
{}

/// What is told as a change is one: the state after it is another.
pub fn changes_change_the_state()
    ensures events { ChangesAreTheseEvents }
    ensures operations { OperationsChange }
    ensures news { NewsChange }
{}
