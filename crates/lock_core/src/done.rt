// An answer once more.
ghost use Rattle.std.specs.Prelude.{◌≡◌};

use nf_base::done::Done;

/// The same answer once more.
pub fn again(done: &Done) -> Done
    ensures { result ≡ done.now }
{
    Done {
        action: done.action,
        edits: done.edits,
        picks: done.picks.again(),
    }
}
