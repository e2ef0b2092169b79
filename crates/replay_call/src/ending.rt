//! How a replay ends.
ghost use Rattle.std.specs.Prelude.{◌≡◌};
ghost use Rattle.replay_call.specs.ReplayEnd.{checked_status};

use call_base::status::{Difference, Status};

/// How a replay ends that nothing stops.
#[derive(Clone, Copy, Debug, PartialEq, Eq)]
pub enum ReplayEnd {
    /// The journal and the outputs are those of a run.
    Same,
    /// As many lines of packets as this are right, and there is more behind them.
    TooMany { most: u32 },
    /// The first line that is wrong, or the least output.
    Differs(Difference),
}

impl ReplayEnd {
    /// The status of a call that ends so.
    pub fn status(self) -> Status
        ensures { result ≡ checked_status self }
    {
        match self {
            ReplayEnd::Same => Status::Done,
            ReplayEnd::TooMany { most } => Status::TooMany { most },
            ReplayEnd::Differs(at) => Status::Differs(at),
        }
    }
}
