//! The verdict that a certificate shows.
ghost use Rattle.std.specs.Prelude.{◌≡◌, IfErr, IfOk, length};
ghost use Rattle.nf_base.specs.Functions.{function_of};
ghost use Rattle.shard_rules.specs.Served.{own_sites, own_plan};
ghost use Rattle.key_synth.specs.Verdicts.{unkept_rule, IsCause};
ghost use Rattle.key_proof.specs.Shown.{IsCertified, IsFailedBy};

use crate::checking::find;
use crate::finding::Finding;
use access_keys::Site;
use key_synth::{Cause, Verdict};
use nf_base::decl::ObjectId;
use nf_base::func::Func;
use shard_rules::{ObjectVerdict, Plan, Rule};
use std::alloc::Global;
use thiserror::Error;

/// Why a certificate shows no verdict.
#[derive(Clone, Copy, Debug, PartialEq, Eq, Error)]
pub enum CertifyFault {
    /// The line of this number is the first one that has not the form or whose check fails. Lines are
    /// numbered from 1, and an end too early counts as the line after the last.
    #[error("line {0} is wrong")]
    Fails(usize),
    /// Memory ran out.
    #[error("out of memory")]
    Memory,
}

/// The rule of an object that has sites and keeps no label.
fn unkept_rule(standing: &ObjectVerdict) -> Option<Rule>
    ensures { result ≡ unkept_rule standing.now }
{
    match standing {
        ObjectVerdict::ReadOnly | ObjectVerdict::Unused => None,
        ObjectVerdict::Ruled { rule, kept } => { if kept.len() == 0 { Some(*rule) } else { None } }
    }
}

/// Why there are no keys, by what each of a function's objects comes to.
fn cause(objects: &[ObjectId], standings: &[ObjectVerdict]) -> Cause
    requires { length objects.now ≡ length standings.now }
    ensures { IsCause objects.now standings.now result }
{
    for i in 0..objects.len() {
        if let Some(rule) = unkept_rule(&standings[i]) {
            return Cause::Object {
                object: objects[i],
                rule,
            };
        }
    }
    Cause::Hash
}

/// The verdict on a function that a text shows as its certificate, for the network card that the
/// text's first line names: the keys that it tells, which are then the given ones, or that there are
/// none, with the cause. It is found from the function's sites and their plan, with no call of what
/// finds keys.
///
/// The work is bounded by the text's length times the bits of four keys, and by the pairs of places of
/// an object.
pub fn certify(
    alloc: Global,
    func: &Func,
    sites: &[Site],
    plan: &Plan,
    text: &[u8],
) -> Result<Verdict, CertifyFault>
    requires sites { sites.now ≡ own_sites (function_of func.now) }
    requires plan { plan.now ≡ own_plan (function_of func.now) }
    ensures certified { IfOk result (IsCertified (function_of func.now) text.now) }
    ensures fails { IfErr result (IsFailedBy (function_of func.now) text.now) }
{
    match find(alloc, func, sites, plan, text) {
        Ok(Finding::Told(keys)) => Ok(Verdict::Sharded(keys)),
        Ok(Finding::NoKeys) => {
            let why = cause(func.objects.as_slice(), plan.standings.as_slice());
            Ok(Verdict::Locked(why))
        }
        Ok(Finding::Wrong(line)) => Err(CertifyFault::Fails(line)),
        Err(_) => Err(CertifyFault::Memory),
    }
}
