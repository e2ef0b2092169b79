//! Why there are no keys.
ghost use Rattle.std.specs.Prelude.{◌≡◌, length};
ghost use Rattle.key_synth.specs.Verdicts.{unkept_rule, IsCause};

use crate::verdict::Cause;
use nf_base::decl::ObjectId;
use shard_rules::{ObjectVerdict, Rule};

/// The rule of an object that has sites and keeps no label.
fn unkept_rule(standing: &ObjectVerdict) -> Option<Rule>
    ensures { result ≡ unkept_rule standing.now }
{
    match standing {
        ObjectVerdict::ReadOnly | ObjectVerdict::Unused => None,
        ObjectVerdict::Ruled { rule, kept } => { if kept.len() == 0 { Some(*rule) } else { None } }
    }
}

/// The cause, by what each of a function's objects comes to.
pub fn cause(objects: &[ObjectId], standings: &[ObjectVerdict]) -> Cause
    requires { length objects.now ≡ length standings.now }
    ensures { IsCause objects.now standings.now result }
{
    for i in 0..objects.len() {
        if let Some(rule) = unkept_rule(&standings[i]) {
            return Cause::Object {
                object: objects[i],
                rule,
            };
        }
    }
    Cause::Hash
}
