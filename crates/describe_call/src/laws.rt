//! Laws of texts. Each function's contract is a law; its body does nothing.
ghost use Rattle.describe_call.specs.Describing.{DescriptionsAreOne};

/// A function has one text of each kind: two that `check`, `explain` or `keys` may print of it, for one
/// network card, are equal.
pub fn descriptions_are_one()
    ensures { DescriptionsAreOne }
{}
