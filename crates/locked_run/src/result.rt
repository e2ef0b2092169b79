//! What a run in mode `lock` came to.

use nf_base::state::State;
use run_history::line::Mode;
use stream_run::Ran;

/// What handling and writing all packets came to.
#[derive(Drop)]
pub(crate) struct Settled {
    pub(crate) mode: Mode,
    /// The state that they left.
    pub(crate) state: State,
}

/// What a run came to that nothing stopped.
#[derive(Drop)]
pub struct LockedResult {
    /// Mode `lock`, or mode `one` where the gate refused.
    pub mode: Mode,
    pub ran: Ran,
}
