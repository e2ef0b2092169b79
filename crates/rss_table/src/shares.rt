ghost use Rattle.std.specs.Prelude.{◌≡◌, ℕ, ◌%◌, ◌<◌, ◌↔◌, IsTrue};
ghost use Rattle.nf_base.specs.Shares.{owns};

use nf_base::share::Share;
use nf_base::workers::Workers;

/// The indices of a chain that a queue owns, of as many queues as there are workers.
pub fn share(queue: u32, workers: Workers) -> Share
    requires { queue < workers }
    ensures queue { result.queue ≡ queue }
    ensures of { result.of ≡ workers }
    ensures indices { (index : ℕ) → IsTrue (owns result index) ↔ (index % workers ≡ queue) }
{
    Share {
        queue,
        of: workers.get(),
    }
}
