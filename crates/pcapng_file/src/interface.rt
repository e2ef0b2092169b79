//! An interface of a section.

/// An interface that a section describes.
#[derive(Clone, Copy, Debug, PartialEq, Eq)]
pub struct Interface {
    /// Its link type, 1 for Ethernet.
    pub link: u16,
    /// The most bytes of a frame that are captured, and 0 for no bound.
    pub most: u32,
    /// The unit of its times, as option 9 (`if_tsresol`) says it: the low 7 bits are k, and the unit is
    /// 10^-k seconds, or 2^-k seconds with the top bit set.
    pub resolution: u8,
}
