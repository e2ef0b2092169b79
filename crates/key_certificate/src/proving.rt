//! The certificate of a verdict.
ghost use Rattle.std.specs.Prelude.{◌≡◌, true, Some, IfOk};
ghost use Rattle.nf_base.specs.Functions.{function_of};
ghost use Rattle.shard_rules.specs.Served.{own_sites, own_plan};
ghost use Rattle.declared_laws.specs.Declares.{DeclaresObjects};
ghost use Rattle.key_synth.specs.Verdicts.{IsVerdict};
ghost use Rattle.certificate_text.specs.Pieces.{lines_of};
ghost use Rattle.key_proof.specs.Faults.{heading_of};
ghost use Rattle.key_certificate.specs.Plain.{heading_for, IsRightText};

use crate::plain::{heading_for, plain};
use access_keys::Site;
use certificate_find::find;
use certificate_text::{Heading, Kind, heading_in, next_line};
use key_proof::{first_wrong, subject_of};
use key_synth::Verdict;
use nf_base::card::{Card, KeySize, TableSize};
use nf_base::func::Func;
use shard_rules::Plan;
use std::alloc::{AllocError, Global};

fn same_table(a: TableSize, b: TableSize) -> bool
    ensures { result ≡ true → a ≡ b }
{
    match (a, b) {
        (TableSize::Entries128, TableSize::Entries128) => true,
        (TableSize::Entries512, TableSize::Entries512) => true,
        _ => false,
    }
}

fn same_size(a: KeySize, b: KeySize) -> bool
    ensures { result ≡ true → a ≡ b }
{
    match (a, b) {
        (KeySize::Bytes40, KeySize::Bytes40) => true,
        (KeySize::Bytes52, KeySize::Bytes52) => true,
        _ => false,
    }
}

fn same_kind(a: Kind, b: Kind) -> bool
    ensures { result ≡ true → a ≡ b }
{
    match (a, b) {
        (Kind::Sharded, Kind::Sharded) => true,
        (Kind::Locked, Kind::Locked) => true,
        _ => false,
    }
}

/// Whether two first lines say the same.
fn same_heading(a: Heading, b: Heading) -> bool
    ensures { result ≡ true → a ≡ b }
{
    same_table(a.card.table, b.card.table)
        && same_size(a.card.key, b.card.key)
        && same_kind(a.kind, b.kind)
}

/// Whether the first line of a text says this.
#[tactic(auto, using(crate::proofs::Saying::says_this))]
fn says(text: &[u8], heading: Heading) -> bool
    ensures { result ≡ true → heading_of (lines_of text.now) ≡ Some heading }
{
    let Some(line) = next_line(text, 0) else {
        return false;
    };
    match heading_in(line) {
        Some(told) => same_heading(told, heading),
        None => false,
    }
}

/// Whether no line of a text is wrong, and the first one says this.
fn is_right(
    alloc: Global,
    func: &Func,
    sites: &[Site],
    plan: &Plan,
    heading: Heading,
    text: &[u8],
) -> Result<bool, AllocError>
    requires sites { sites.now ≡ own_sites (function_of func.now) }
    requires plan { plan.now ≡ own_plan (function_of func.now) }
    ensures { IfOk result (λ yes. yes ≡ true →
        IsRightText (function_of func.now) heading text.now) }
{
    if !says(text, heading) {
        return Ok(false);
    }
    let wrong = first_wrong(alloc, func, sites, plan, text)?;
    Ok(wrong.is_none())
}

/// The certificate of a verdict on a function for a card, from the function's sites and their plan: a
/// text of which no line is wrong, and whose first line tells the card and whether there are keys.
///
/// A short one is found by elimination, and tested before it is handed out. Were a line of it wrong,
/// a plain one is written, with all rows and with trees that split bit by bit.
pub fn prove(
    alloc: Global,
    func: &Func,
    sites: &[Site],
    plan: &Plan,
    verdict: &Verdict,
    card: Card,
) -> Result<Vec<u8>, AllocError>
    requires sites { sites.now ≡ own_sites (function_of func.now) }
    requires plan { plan.now ≡ own_plan (function_of func.now) }
    // As each function does that breaks no rule.
    requires declares { DeclaresObjects (function_of func.now) }
    requires verdict { IsVerdict (function_of func.now) card verdict.now }
    ensures right { IfOk result (λ text.
        IsRightText (function_of func.now) (heading_for card verdict.now) text.items) }
{
    let subject = subject_of(alloc, func, sites, plan)?;
    let objects = plan.objects.as_slice();
    let short = find(alloc, &subject, objects, card, verdict)?;
    let heading = heading_for(card, verdict);
    if is_right(alloc, func, sites, plan, heading, short.as_slice())? {
        return Ok(short);
    }
    plain(alloc, func, objects, &subject, card, verdict)
}
