//! How a run ends that nothing stops.

/// How a run ends that nothing stops.
#[derive(Clone, Copy, Debug, PartialEq, Eq)]
pub enum Ending {
    /// Each whole record of each capture was handled.
    All,
    /// As many packets were handled as were asked for, and there are more.
    TooMany,
}
