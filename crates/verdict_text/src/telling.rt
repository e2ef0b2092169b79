//! The text of a verdict, and the whole text of `explain`.
//!
//! | verdict | text |
//! |---|---|
//! | keys | `sharded`, and per port `key <port> <80 or 104 hexadecimal digits>` |
//! | none, for an object keeps no label | `locked <object> <rule>` |
//! | none, for another cause | `locked hash` |
//!
//! Each line ends by LF.
ghost use Rattle.std.specs.Prelude.{◌≡◌, ◌++◌, OnOk, IfOk};
ghost use Rattle.nf_base.specs.Functions.{function_of};
ghost use Rattle.verdict_text.specs.Verdict.{key_text, keys_text, cause_text, verdict_text, explained_whole};

use crate::explaining::push_explained;
use crate::text::{push_bytes, push_decimal};
use access_keys::Site;
use key_synth::{Cause, Verdict};
use nf_base::func::Func;
use nf_base::keys::Keys;
use shard_rules::Plan;
use std::alloc::{AllocError, Global};

fn push_key(alloc: Global, out: &mut Vec<u8>, port: u32, key: &[u8]) -> Result<(), AllocError>
    ensures ok { OnOk result (out.new.items ≡ out.old.items ++ key_text port key.now) }
{
    push_bytes(out, b"key ")?;
    push_decimal(out, u64::from(port))?;
    push_bytes(out, b" ")?;
    let digits = hex::encode(alloc, key)?;
    push_bytes(out, digits.as_bytes())?;
    push_bytes(out, b"\n")
}

fn push_keys(alloc: Global, out: &mut Vec<u8>, keys: &Keys) -> Result<(), AllocError>
    ensures ok { OnOk result (out.new.items ≡ out.old.items ++ keys_text 0 keys.now.ports) }
{
    for port in 0..keys.ports.len() {
        push_key(alloc, out, port, keys.ports.item(port).as_slice())?;
    }
    Ok(())
}

fn push_cause(out: &mut Vec<u8>, func: &Func, cause: Cause) -> Result<(), AllocError>
    ensures ok { OnOk result (out.new.items
        ≡ out.old.items ++ cause_text (function_of func.now) cause) }
{
    match cause {
        Cause::Object { object, rule } => {
            push_bytes(out, func.object_name(object))?;
            push_bytes(out, b" ")?;
            push_bytes(out, rule.word().as_bytes())
        }
        Cause::Hash => push_bytes(out, b"hash"),
    }
}

fn push_verdict(
    alloc: Global,
    out: &mut Vec<u8>,
    func: &Func,
    verdict: &Verdict,
) -> Result<(), AllocError>
    ensures ok { OnOk result (out.new.items
        ≡ out.old.items ++ verdict_text (function_of func.now) verdict.now) }
{
    match verdict {
        Verdict::Sharded(keys) => {
            push_bytes(out, b"sharded\n")?;
            push_keys(alloc, out, keys)
        }
        Verdict::Locked(cause) => {
            push_bytes(out, b"locked ")?;
            push_cause(out, func, *cause)?;
            push_bytes(out, b"\n")
        }
    }
}

/// The text of a verdict on a function: the keys of its ports, or why there are none.
pub fn verdict_part(alloc: Global, func: &Func, verdict: &Verdict) -> Result<Vec<u8>, AllocError>
    ensures text { IfOk result (λ v.
        v.items ≡ verdict_text (function_of func.now) verdict.now) }
{
    let mut out = Vec::new(alloc);
    push_verdict(alloc, &mut out, func, verdict)?;
    Ok(out)
}

/// The text of a function's objects, with what its sites come to, and then its verdict.
pub fn explain(
    alloc: Global,
    func: &Func,
    sites: &[Site],
    plan: &Plan,
    verdict: &Verdict,
) -> Result<Vec<u8>, AllocError>
    ensures text { IfOk result (λ v.
        v.items ≡ explained_whole (function_of func.now) sites.now plan.now verdict.now) }
{
    let mut out = Vec::new(alloc);
    push_explained(&mut out, func, sites, plan)?;
    push_verdict(alloc, &mut out, func, verdict)?;
    Ok(out)
}
