use nf_base::decl::ObjectId;
use nf_base::keys::Keys;
use shard_rules::Rule;

/// Why no keys serve a function.
#[derive(Clone, Copy, Debug, PartialEq, Eq)]
pub enum Cause {
    /// The first written object in text order that has sites and keeps no label, with its rule.
    Object { object: ObjectId, rule: Rule },
    /// Each object keeps a label: the hash itself can't serve all of them.
    Hash,
}

/// Whether a function's packets can be told apart by a hash, so that those that meet have one.
#[derive(Drop)]
pub enum Verdict {
    /// By these keys, one for each port.
    Sharded(Keys),
    Locked(Cause),
}
