//! Laws of certificates that are written. Each function's contract is a law; its body does nothing.
ghost use Rattle.prove_call.specs.Texts.{CertificatesShowTheirVerdicts};

/// A text of which no line is wrong, and whose first line tells the card and the kind of a function's
/// verdict, shows that verdict alone: so `certify` prints `certified` of what `keys --proof` wrote.
pub fn certificates_show_their_verdicts()
    ensures { CertificatesShowTheirVerdicts }
{}
