//! What a look of a seat comes to.
ghost use Rattle.std.specs.Prelude.{◌≡◌};
ghost use Rattle.lock_mode.specs.Looks.{let_in};

use nf_base::done::Done;
use nf_engine::Look;

/// What a look of a seat came to.
#[derive(Debug, Drop)]
pub enum LookResult {
    /// It is done, and nothing had to be written.
    Done(Done),
    /// Something would have to be written.
    NeedsWrite,
    /// The seat's gate didn't let it in.
    Refused,
}

/// What a look that was let in came to.
pub(crate) fn let_in(look: Look) -> LookResult
    ensures { result ≡ let_in look }
{
    match look {
        Look::Done(done) => LookResult::Done(done),
        Look::NeedsWrite => LookResult::NeedsWrite,
    }
}
