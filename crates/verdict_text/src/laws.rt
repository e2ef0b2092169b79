//! Laws of texts. Each function's contract is a law; its body does nothing.
ghost use Rattle.verdict_text.specs.Rows.{TextsAreSo};

/// The texts of some functions, worked out by hand.
pub fn texts_are_so()
    ensures { TextsAreSo }
{}
