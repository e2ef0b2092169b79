/// How a statement branches: a look-up or a test hits or misses; a `new` makes an entry, or answers
/// `taken` or `full`.
#[derive(Clone, Copy, Debug, PartialEq, Eq)]
pub enum Branch {
    Hits,
    Misses,
    Makes,
    IsTaken,
    IsFull,
}
