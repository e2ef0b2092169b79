//! The texts of a verdict: its certificate, and what is printed of it.
ghost use Rattle.std.specs.Prelude.{◌≡◌, IfOk};
ghost use Rattle.nf_base.specs.Functions.{function_of};
ghost use Rattle.shard_rules.specs.Served.{own_sites, own_plan};
ghost use Rattle.declared_laws.specs.Declares.{DeclaresObjects};
ghost use Rattle.key_synth.specs.Verdicts.{IsVerdict};
ghost use Rattle.call_base.specs.Source.{HasFewPaths};
ghost use Rattle.prove_call.specs.Texts.{AreTexts};

use access_keys::Site;
use call_base::analysing::own_sites;
use key_certificate::prove;
use key_synth::{Verdict, synthesise};
use nf_base::card::Card;
use nf_base::func::Func;
use shard_rules::{Plan, join};
use std::alloc::{AllocError, Global};
use verdict_text::verdict_part;

/// The texts of a verdict.
#[derive(Drop)]
pub(crate) struct Texts {
    /// The certificate, which is written.
    pub certificate: Vec<u8>,
    /// What is printed.
    pub printed: Vec<u8>,
}

// The texts of a verdict, by the sites of a function and their plan.
fn texts_by_verdict(
    alloc: Global,
    func: &Func,
    sites: &[Site],
    plan: &Plan,
    verdict: &Verdict,
    card: Card,
) -> Result<Texts, AllocError>
    requires declares { DeclaresObjects (function_of func.now) }
    requires sites { sites.now ≡ own_sites (function_of func.now) }
    requires plan { plan.now ≡ own_plan (function_of func.now) }
    requires verdict { IsVerdict (function_of func.now) card verdict.now }
    ensures { IfOk result (λ t. AreTexts (function_of func.now) card t.certificate.items t.printed.items) }
{
    match prove(alloc, func, sites, plan, verdict, card) {
        Ok(certificate) => match verdict_part(alloc, func, verdict) {
            Ok(printed) => Ok(Texts {
                certificate,
                printed,
            }),
            Err(error) => Err(error),
        },
        Err(error) => Err(error),
    }
}

// The same by the plan.
fn texts_by_plan(
    alloc: Global,
    func: &Func,
    sites: &[Site],
    plan: &Plan,
    card: Card,
) -> Result<Texts, AllocError>
    requires declares { DeclaresObjects (function_of func.now) }
    requires sites { sites.now ≡ own_sites (function_of func.now) }
    requires plan { plan.now ≡ own_plan (function_of func.now) }
    ensures { IfOk result (λ t. AreTexts (function_of func.now) card t.certificate.items t.printed.items) }
{
    match synthesise(alloc, func, plan, card) {
        Ok(verdict) => texts_by_verdict(alloc, func, sites, plan, &verdict, card),
        Err(error) => Err(error),
    }
}

// The same by the sites.
fn texts_by_sites(
    alloc: Global,
    func: &Func,
    sites: &[Site],
    card: Card,
) -> Result<Texts, AllocError>
    requires declares { DeclaresObjects (function_of func.now) }
    requires sites { sites.now ≡ own_sites (function_of func.now) }
    ensures { IfOk result (λ t. AreTexts (function_of func.now) card t.certificate.items t.printed.items) }
{
    match join(alloc, func, sites) {
        Ok(plan) => texts_by_plan(alloc, func, sites, &plan, card),
        Err(error) => Err(error),
    }
}

/// The texts of the verdict on a function for a network card.
pub(crate) fn texts_of(alloc: Global, func: &Func, card: Card) -> Result<Texts, AllocError>
    requires few { HasFewPaths (function_of func.now) }
    requires declares { DeclaresObjects (function_of func.now) }
    ensures { IfOk result (λ t. AreTexts (function_of func.now) card t.certificate.items t.printed.items) }
{
    match own_sites(alloc, func) {
        Ok(sites) => texts_by_sites(alloc, func, sites.as_slice(), card),
        Err(error) => Err(error),
    }
}
