//! What a run came to.

use nf_base::state::State;
use run_history::line::Mode;
use sharded_run::ShareFull;

/// What a run came to that nothing stopped.
#[derive(Drop)]
pub enum TrafficResult {
    /// All packets were handled.
    Whole {
        /// The mode in which they were.
        mode: Mode,
        /// The state that they left.
        state: State,
        /// How many records stand in all outputs; in mode `lock` that is not told.
        sent: u64,
    },
    /// A share has no index left at a packet, and those before it were handled.
    Full(ShareFull),
}

/// The same before records are counted.
#[derive(Drop)]
pub(crate) enum UncountedResult {
    Whole { mode: Mode, state: State },
    Full(ShareFull),
}
