// The entry that a `new` makes.
ghost use Rattle.std.specs.Prelude.{◌≡◌, ◌<◌, ◌≤◌, ◌+◌, ◌++◌, ◌∷◌, [], List, ℕ, length, drop, IfOk, OnOk, IfSome, IfNone, map, slice_get, slice_set, None, Some, true, false, IsTrue};
ghost use Rattle.nf_base.specs.Chains.{chain_at, stamped, fresh, is_vacant, is_full, zeros_of};
ghost use Rattle.nf_base.specs.Operations.{never, new_result, with_new, chosen};
ghost use Rattle.nf_base.specs.View.{creation_of};
ghost use Rattle.nf_meaning.specs.View.{context_of, input_of};
ghost use Rattle.nf_meaning.specs.Choices.{MayBe, AreGiven, NextIs};
ghost use Rattle.nf_meaning.specs.Course.{ComesTo, Makes, IfMade, result_with, new_with};

use crate::chain::{is_full, is_taken, is_vacant, least_vacant, maps_of, put, slots_of, zeros_of};
use crate::context::{Context, Input, bind};
use crate::values::all_given;
use nf_base::block::Creation;
use nf_base::picks::Picks;
use nf_base::seq::Seq;
use nf_base::state::{Chain, Entry};
use std::alloc::{AllocError, Global};

/// What a `new` comes to.
#[derive(Clone, Copy)]
pub enum NewResult {
    /// An entry at this index.
    Made(u32),
    /// One of its keys is bound.
    Taken,
    /// No index is vacant.
    Full,
    /// The next choice is not vacant, or there is none.
    Illegal,
}

/// The index that a `new` tries: the next of the choices, or the least vacant one.
fn next_choice(choices: Option<&Picks>, picks: &Picks, slots: &[Option<Entry>]) -> Option<u32>
    requires within { length slots.now ≤ 65536 }
    requires vacant { is_full slots.now ≡ false }
    ensures { NextIs result choices.entry picks.now slots.now }
{
    match choices {
        None => Some(least_vacant(slots)),
        Some(choices) => {
            let i = choices.as_slice().get(picks.len() as usize)?;
            Some(*i)
        }
    }
}

/// What a `new` with these labels comes to.
#[tactic(auto, using(crate::proofs::Vacant::chain_there, crate::proofs::Vacant::vacant_index))]
fn new_result(context: &Context, p: &Input, chain: u32, labels: &[u128]) -> NewResult
    ensures comes { ComesTo result p.now.choices context.now.picks
        (result_with (input_of p.now) (context_of [] context.now) chain labels.now) }
    ensures there { IfMade result (λ i.
        (chain < length context.now.state.chains)
        × (i < length (chain_at context.now.state.chains chain).slots)) }
{
    let slots = slots_of(context.state.chains.as_slice(), chain);
    if is_taken(maps_of(p.decls, chain), labels, slots) {
        return NewResult::Taken;
    }
    if is_full(slots) {
        return NewResult::Full;
    }
    match next_choice(p.choices, &context.picks, slots) {
        None => NewResult::Illegal,
        Some(i) => {
            if is_vacant(slots, i) {
                NewResult::Made(i)
            } else {
                NewResult::Illegal
            }
        }
    }
}

/// Makes an entry with these labels at an index.
fn enter(
    alloc: Global,
    context: &mut Context,
    p: &Input,
    creation: &Creation,
    i: u32,
    labels: Vec<u128>,
) -> Result<(), AllocError>
    requires chain { creation.now.chain < length context.old.state.chains }
    requires index { i < length (chain_at context.old.state.chains creation.now.chain).slots }
    requires room { length context.old.picks < 16 }
    ensures picks { OnOk result (context.new.picks ≡ context.old.picks ++ i ∷ []) }
    ensures full { context.new.full ≡ context.old.full }
    ensures made { OnOk result ((left : List ℕ) →
        new_with (input_of p.now) (context_of (i ∷ left) context.old) (creation_of creation.now)
        labels.items i
        ≡ context_of left context.new) }
{
    let columns = zeros_of(alloc, p.decls, creation.chain)?;
    let chain = context.state.chains.item_mut(creation.chain as usize);
    put(
        chain,
        p.time,
        i,
        Seq::from_vec(labels),
        Seq::from_vec(columns),
    );
    context.picks.push(i);
    bind(context, creation.var, creation.chain, i)?;
    Ok(())
}

/// Makes an entry, if one can be made.
pub fn make(
    alloc: Global,
    context: &mut Context,
    p: &Input,
    creation: &Creation,
) -> Result<NewResult, AllocError>
    requires room { length context.old.picks < 16 }
    ensures { IfOk result (λ new. Makes new p.now.choices context.old context.new
        (λ c. new_result never (input_of p.now) c (creation_of creation.now))
        (λ c. with_new (input_of p.now) c (creation_of creation.now))) }
{
    let labels = all_given(alloc, context, p, creation.labels.as_slice())?;
    match new_result(context, p, creation.chain, &labels) {
        NewResult::Made(i) => {
            enter(alloc, context, p, creation, i, labels)?;
            Ok(NewResult::Made(i))
        }
        NewResult::Taken => Ok(NewResult::Taken),
        NewResult::Full => {
            context.full = true;
            Ok(NewResult::Full)
        }
        NewResult::Illegal => Ok(NewResult::Illegal),
    }
}
