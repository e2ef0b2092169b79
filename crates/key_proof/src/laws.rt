//! Laws over the definitions. Each function's contract is one law; its body does nothing.
ghost use Rattle.key_proof.specs.Shown.{NothingWrongShows};

/// Where no line of a text is wrong as a certificate of a function, its first line tells the truth:
/// some keys are the given ones for the card that it names, or no admissible keys spread.
pub fn nothing_wrong_shows()
    ensures { NothingWrongShows }
{}
