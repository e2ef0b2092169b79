//! What a run came to.

use crate::ending::Ending;
use nf_base::state::State;

/// What a run came to that nothing stopped.
#[derive(Drop)]
pub struct Ran {
    pub ending: Ending,
    /// How many packets were handled.
    pub packets: u32,
    /// The state that they left.
    pub state: State,
}
