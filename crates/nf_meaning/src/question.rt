// What a statement with two blocks asks.
ghost use Rattle.std.specs.Prelude.{◌≡◌, ◌+◌, ◌≤◌, [], List, ℕ, length, drop, IfOk, map, slice_get, None, Some};
ghost use Rattle.std.specs.Option.{option_map};
ghost use Rattle.nf_base.specs.Context.{value, given, has_labels, is_given};
ghost use Rattle.nf_base.specs.Operations.{answer, bound, key_found, index_found};
ghost use Rattle.nf_base.specs.View.{expression_of, given_of, guard_of, question_of};
ghost use Rattle.nf_meaning.specs.View.{context_of, input_of};
ghost use Rattle.nf_meaning.specs.Course.{Answers};

use crate::chain::{found, maps_of, slots_of};
use crate::context::{Context, Input, bind};
use crate::values::{all_given, given, value};
use nf_base::block::Question;
use nf_base::expr::{Expr, Given, Guard};
use nf_base::state::Entry;
use nf_base::value::compares;
use std::alloc::{AllocError, Global};

/// The index that a key has in a map of a chain.
fn key_found(context: &Context, p: &Input, chain: u32, map: u32, key: &[u128]) -> Option<u32>
    ensures { result ≡ key_found (input_of p.now) (context_of [] context.now) chain map key.now }
{
    let m = maps_of(p.decls, chain).get(map as usize)?;
    found(m, key, slots_of(context.state.chains.as_slice(), chain))
}

/// The index that a `get` finds.
fn look_up(
    alloc: Global,
    context: &Context,
    p: &Input,
    chain: u32,
    m: u32,
    key: &[Given],
) -> Result<Option<u32>, AllocError>
    ensures { IfOk result (λ hit.
        hit ≡ key_found (input_of p.now) (context_of [] context.now) chain m
        (map (given (input_of p.now) (context_of [] context.now)) (map given_of key.now))) }
{
    let key = all_given(alloc, context, p, key)?;
    Ok(key_found(context, p, chain, m, &key))
}

/// Whether an entry has the labels that a `find` asks for.
fn has_labels(context: &Context, p: &Input, guards: &[Guard], entry: &Entry) -> bool
    ensures { result
        ≡ has_labels (input_of p.now) (context_of [] context.now)
        (map guard_of guards.now) entry.now }
{
    for g in guards {
        if !has_label(entry, g.label, given(context, p, &g.given)) {
            return false;
        }
    }
    true
}

fn has_label(entry: &Entry, label: u32, v: u128) -> bool
    ensures { result ≡ is_given v (slice_get entry.now.labels label) }
{
    match entry.labels.as_slice().get(label as usize) {
        None => false,
        Some(w) => *w == v,
    }
}

/// The index that a `find` finds in a chain.
fn search(context: &Context, p: &Input, chain: u32, at: &Expr, guards: &[Guard]) -> Option<u32>
    ensures { result
        ≡ index_found (input_of p.now) (context_of [] context.now) chain
        (value (input_of p.now) (context_of [] context.now) (expression_of at.now))
        (map guard_of guards.now) }
{
    let i = value(context, p, at);
    let slots = slots_of(context.state.chains.as_slice(), chain);
    if i >= slots.len() as u128 {
        return None;
    }
    match slots.get(i as usize) {
        None => None,
        Some(None) => None,
        Some(Some(entry)) => {
            if has_labels(context, p, guards, entry) {
                Some(i as u32)
            } else {
                None
            }
        }
    }
}

/// Binds a variable to what a look-up found, if it found something.
fn bind_found(
    context: &mut Context,
    hit: Option<u32>,
    chain: u32,
    var: u32,
) -> Result<bool, AllocError>
    ensures bound { IfOk result (λ hits.
        Answers hits context.old context.new (λ c. option_map (bound var chain c) hit)) }
    ensures picks { context.new.picks ≡ context.old.picks }
    ensures full { context.new.full ≡ context.old.full }
{
    match hit {
        None => Ok(false),
        Some(i) => {
            bind(context, var, chain, i)?;
            Ok(true)
        }
    }
}

/// Whether a question hits; a variable that it binds is bound then.
pub fn ask(
    alloc: Global,
    context: &mut Context,
    p: &Input,
    question: &Question,
) -> Result<bool, AllocError>
    ensures answers { IfOk result (λ hits. Answers hits context.old context.new
        (λ c. answer (input_of p.now) c (question_of question.now))) }
    ensures picks { context.new.picks ≡ context.old.picks }
    ensures full { context.new.full ≡ context.old.full }
{
    match question {
        Question::Get {
            chain,
            map,
            key,
            var,
            ..
        } => {
            let hit = look_up(alloc, context, p, *chain, *map, key.as_slice())?;
            let hits = bind_found(context, hit, *chain, *var)?;
            Ok(hits)
        }
        Question::Find {
            chain,
            at,
            guards,
            var,
            ..
        } => {
            let hit = search(context, p, *chain, at, guards.as_slice());
            let hits = bind_found(context, hit, *chain, *var)?;
            Ok(hits)
        }
        Question::Test {
            comparison,
            left,
            right,
            ..
        } => {
            let left = value(context, p, left);
            let right = value(context, p, right);
            Ok(compares(*comparison, left, right))
        }
    }
}
