/// What making an entry comes to.
#[derive(Clone, Copy, Debug, PartialEq, Eq)]
pub enum Created {
    /// An entry at this index.
    Made(u32),
    /// One of its keys is bound.
    Taken,
    /// No own index is vacant.
    Full,
}
