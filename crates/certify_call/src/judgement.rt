//! What a certificate comes to.
ghost use Rattle.std.specs.Prelude.{◌≡◌};
ghost use Rattle.certify_call.specs.Judgements.{judged_status};

use call_base::status::Status;

/// What a certificate comes to.
#[derive(Clone, Copy, Debug, PartialEq, Eq)]
pub enum Judgement {
    /// No line is wrong.
    Right,
    /// This line is the first wrong one. Lines count from 1, and an end too early counts as the line
    /// after the last.
    Fails { line: u64 },
}

impl Judgement {
    /// The status of a call that ends so.
    pub fn status(self) -> Status
        ensures { result ≡ judged_status self }
    {
        match self {
            Judgement::Right => Status::Done,
            Judgement::Fails { line } => Status::ProofFails { line },
        }
    }
}
