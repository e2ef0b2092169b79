//! What is told of a record beside its frame.

/// What is told of a record beside its frame.
#[derive(Clone, Copy, Debug, PartialEq, Eq)]
pub struct Head {
    /// In nanoseconds, at most 4,294,967,295,999,999,999.
    pub time: u64,
    /// How many bytes of the frame were captured: at most 262,144.
    pub captured: u32,
    /// The length of the frame on the wire, in bytes.
    pub original: u32,
}
