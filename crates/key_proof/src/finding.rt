//! What a certificate comes to.
ghost use Rattle.std.specs.Prelude.{◌≡◌};
ghost use Rattle.key_proof.specs.Found.{fault_found};

use nf_base::keys::Keys;

/// What reading a certificate comes to.
#[derive(Drop)]
pub enum Finding {
    /// The line of this number is the first wrong one.
    Wrong(usize),
    /// No line is wrong, and these keys are told.
    Told(Keys),
    /// No line is wrong, and the first one says that there are no keys.
    NoKeys,
}

impl Finding {
    /// The number of the first wrong line, where there is one.
    pub fn fault(&self) -> Option<usize>
        ensures { result ≡ fault_found self.now }
    {
        match self {
            Finding::Wrong(line) => Some(*line),
            Finding::Told(_) | Finding::NoKeys => None,
        }
    }
}
