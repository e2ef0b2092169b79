// What the number of an opened file is good for.

/// What an opened file is good for.
#[derive(Clone, Copy, Debug, PartialEq, Eq)]
pub enum Kind {
    /// It is read.
    Input,
    /// It is written.
    Output,
}
