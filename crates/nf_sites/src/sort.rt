/// How a site touches its object. Maps go by their number in their chain, from 0.
#[derive(Clone, Copy, Debug, PartialEq, Eq)]
pub enum Sort {
    /// A `get`: the look-up of a key of a map.
    Get { map: u32 },
    /// A `find`: a look at an index.
    Find,
    /// A `new`.
    New,
    /// The look-up of a key of a map by which a `new` learns whether it is taken.
    Name { map: u32 },
    /// A read of a cell.
    Load,
    /// A write to a cell.
    Store,
}
