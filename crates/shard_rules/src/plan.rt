use crate::rule::Rule;
use key_rows::Object;
use nf_base::seq::Seq;

/// What an object's sites come to.
#[derive(Drop)]
pub enum ObjectVerdict {
    /// The text doesn't write it.
    ReadOnly,
    /// The text writes it, and no feasible path uses it.
    Unused,
    Ruled {
        rule: Rule,
        /// The labels that each of its sites knows, by number, in text order.
        kept: Seq<u32>,
    },
}

/// What a function's sites come to.
#[derive(Drop)]
pub struct Plan {
    /// One for each object of the function, in text order.
    pub standings: Seq<ObjectVerdict>,
    /// The places of each object that the text writes and that has sites, in the order in which the
    /// sites come to them.
    pub objects: Seq<Object>,
}
