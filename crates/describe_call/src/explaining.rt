//! The analysis of a function, as text: its objects with their sites, and the verdict.
ghost use Rattle.std.specs.Prelude.{◌≡◌, IfOk};
ghost use Rattle.nf_base.specs.Functions.{function_of};
ghost use Rattle.shard_rules.specs.Served.{own_sites, own_plan};
ghost use Rattle.call_base.specs.Source.{HasFewPaths};
ghost use Rattle.describe_call.specs.Describing.{IsVerdictText, IsExplanation};

use access_keys::Site;
use call_base::analysing::{own_plan, own_sites};
use key_synth::synthesise;
use nf_base::card::Card;
use nf_base::func::Func;
use shard_rules::{Plan, join};
use std::alloc::{AllocError, Global};
use verdict_text::{explain, verdict_part};

// The text of the verdict, by what the sites come to.
fn planned_verdict(
    alloc: Global,
    func: &Func,
    plan: &Plan,
    card: Card,
) -> Result<Vec<u8>, AllocError>
    requires plan { plan.now ≡ own_plan (function_of func.now) }
    ensures { IfOk result (λ text. IsVerdictText (function_of func.now) card text.items) }
{
    match synthesise(alloc, func, plan, card) {
        Ok(verdict) => verdict_part(alloc, func, &verdict),
        Err(error) => Err(error),
    }
}

/// The text of the verdict on a function for a network card.
pub fn verdict(alloc: Global, func: &Func, card: Card) -> Result<Vec<u8>, AllocError>
    requires few { HasFewPaths (function_of func.now) }
    ensures { IfOk result (λ text. IsVerdictText (function_of func.now) card text.items) }
{
    match own_plan(alloc, func) {
        Ok(plan) => planned_verdict(alloc, func, &plan, card),
        Err(error) => Err(error),
    }
}

// The whole text, by the sites and what they come to.
fn planned_explanation(
    alloc: Global,
    func: &Func,
    sites: &[Site],
    plan: &Plan,
    card: Card,
) -> Result<Vec<u8>, AllocError>
    requires sites { sites.now ≡ own_sites (function_of func.now) }
    requires plan { plan.now ≡ own_plan (function_of func.now) }
    ensures { IfOk result (λ text. IsExplanation (function_of func.now) card text.items) }
{
    match synthesise(alloc, func, plan, card) {
        Ok(verdict) => explain(alloc, func, sites, plan, &verdict),
        Err(error) => Err(error),
    }
}

// The whole text, by the sites.
fn explanation_by(
    alloc: Global,
    func: &Func,
    sites: &[Site],
    card: Card,
) -> Result<Vec<u8>, AllocError>
    requires sites { sites.now ≡ own_sites (function_of func.now) }
    ensures { IfOk result (λ text. IsExplanation (function_of func.now) card text.items) }
{
    match join(alloc, func, sites) {
        Ok(plan) => planned_explanation(alloc, func, sites, &plan, card),
        Err(error) => Err(error),
    }
}

/// The objects of a function with their sites, and then the verdict for a network card.
pub fn explanation(alloc: Global, func: &Func, card: Card) -> Result<Vec<u8>, AllocError>
    requires few { HasFewPaths (function_of func.now) }
    ensures { IfOk result (λ text. IsExplanation (function_of func.now) card text.items) }
{
    match own_sites(alloc, func) {
        Ok(sites) => explanation_by(alloc, func, sites.as_slice(), card),
        Err(error) => Err(error),
    }
}
