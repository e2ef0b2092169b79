//! The analysis of a function: its sites, what they come to, and the verdict.
ghost use Rattle.std.specs.Prelude.{◌≡◌, IfOk};
ghost use Rattle.nf_base.specs.Functions.{function_of};
ghost use Rattle.shard_rules.specs.Served.{own_sites, own_plan};
ghost use Rattle.key_synth.specs.Verdicts.{IsVerdict, Separates};
ghost use Rattle.call_base.specs.Source.{HasFewPaths};

use access_keys::{Site, sites};
use key_synth::{Verdict, synthesise};
use nf_base::card::Card;
use nf_base::func::Func;
use shard_rules::{Plan, join};
use std::alloc::{AllocError, Global};

/// The sites of a function. Its few paths bound the work.
pub fn own_sites(alloc: Global, func: &Func) -> Result<Vec<Site>, AllocError>
    ensures { IfOk result (λ all. all.items ≡ own_sites (function_of func.now)) }
{
    sites(alloc, func)
}

/// What the sites of a function come to. They are given up with this call.
pub fn own_plan(alloc: Global, func: &Func) -> Result<Plan, AllocError>
    requires few { HasFewPaths (function_of func.now) }
    ensures { IfOk result (λ plan. plan ≡ own_plan (function_of func.now)) }
{
    match own_sites(alloc, func) {
        Ok(sites) => join(alloc, func, sites.as_slice()),
        Err(error) => Err(error),
    }
}

/// The verdict on a function for a network card: the keys of its ports, under which packets that
/// meet have equal hashes, or why there are none.
pub fn verdict_of(alloc: Global, func: &Func, card: Card) -> Result<Verdict, AllocError>
    requires few { HasFewPaths (function_of func.now) }
    ensures verdict { IfOk result (IsVerdict (function_of func.now) card) }
    ensures separates { IfOk result (Separates (function_of func.now)) }
{
    match own_plan(alloc, func) {
        Ok(plan) => synthesise(alloc, func, &plan, card),
        Err(error) => Err(error),
    }
}
