//! What a replay comes to.

use nf_base::state::State;

/// What a replay comes to.
#[derive(Drop)]
pub enum ReplayResult {
    /// The journal is that of a run, and the outputs are that run's. It left this state.
    Same(State),
    /// As many lines of packets as were asked for are right, and there is more behind them.
    TooMany,
    /// The first line that is wrong. Lines count from 1.
    Line(u64),
    /// All lines are right, and this is the least port whose output isn't that of the run.
    Output(u32),
}
