//! Laws of judgements. Each function's contract is a law; its body does nothing.
ghost use Rattle.certify_call.specs.Judgements.{JudgementsAreOne};

/// A text comes to one thing as a function's certificate: where it is right it isn't wrong at a line,
/// and it is wrong at one line alone.
pub fn judgements_are_one()
    ensures { JudgementsAreOne }
{}
