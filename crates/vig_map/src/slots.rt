//! Slots, each with a pair or empty.
ghost use Rattle.std.specs.Prelude.{◌≡◌, ℕ, ◌+◌, ◌<◌, ◌≤◌, ◌↔◌, length, None, Some, vec_len, IsTrue, IfOk, replicate, false};
ghost use Rattle.std.specs.Option.{option_map};
ghost use Rattle.vig_map.specs.Hashes.{first_slot};
ghost use Rattle.vig_map.specs.Slots.{slot_at, IsStop, AreMet, AreMetButOver, AreSamePairs};

use crate::hash::first_slot;
use nf_base::key::Key;
use std::alloc::{AllocError, Global};

/// A key and its value.
#[derive(Drop)]
pub struct Pair {
    pub key: Key,
    pub value: u32,
}

/// So many empty slots.
pub fn empty_slots(alloc: Global, count: u32) -> Result<Vec<Option<Pair>>, AllocError>
    ensures { IfOk result (λ slots. slots.items ≡ replicate count None) }
{
    let mut slots = Vec::with_capacity(alloc, count as usize)?;
    for _index in 0..count {
        slots.push(None)?;
    }
    Ok(slots)
}

/// What a slot holds, once more.
fn copied(slot: &Option<Pair>) -> Option<Pair>
    ensures { result ≡ slot.now }
{
    match slot {
        Some(pair) => Some(Pair {
            key: pair.key.again(),
            value: pair.value,
        }),
        None => None,
    }
}

/// Makes slots the same as as many others.
pub fn copy_slots(slots: &mut Vec<Option<Pair>>, others: &[Option<Pair>])
    requires { length slots.old.items ≡ length others.now }
    ensures { slots.new.items ≡ others.now }
{
    for i in 0..others.len() {
        slots[i] = copied(&others[i]);
    }
}

/// Whether two keys are equal.
fn is_same(a: &Key, b: &Key) -> bool
    ensures { IsTrue result ↔ (a.now ≡ b.now) }
{
    a.as_slice() == b.as_slice()
}

/// Whether the search for a key stops at a slot: it is empty, or the key stands there.
fn stops(slot: &Option<Pair>, key: &Key) -> bool
    ensures at { IsTrue result → (pair : Pair) → slot.now ≡ Some pair → pair.key ≡ key.now }
    ensures past { result ≡ false →
        (pair : Pair) × (slot.now ≡ Some pair) × (pair.key ≡ key.now → ⊥) }
{
    match slot {
        Some(pair) => is_same(&pair.key, key),
        None => true,
    }
}

/// The first slot, from where a key's search begins on, that is empty or has the key: the number of
/// slots where none is.
///
/// The searches begin in so many slots, the first ones.
pub fn search(slots: &[Option<Pair>], starts: u32, key: &Key) -> usize
    requires some { 0 < starts }
    requires within { starts ≤ length slots.now }
    ensures { IsStop slots.now (first_slot starts key.now) key.now result }
{
    for i in first_slot(key, starts) as usize..slots.len() {
        if stops(&slots[i], key) {
            return i;
        }
    }
    slots.len()
}

/// The value in a slot: none in an empty slot, and none past the end.
pub fn value_at(slots: &[Option<Pair>], i: usize) -> Option<u32>
    ensures { result ≡ option_map (λ pair. pair.value) (slot_at slots.now i) }
{
    match slots.get(i) {
        Some(slot) => value_in(slot),
        None => None,
    }
}

fn value_in(slot: &Option<Pair>) -> Option<u32>
    ensures { result ≡ option_map (λ pair. pair.value) slot.now }
{
    match slot {
        Some(pair) => Some(pair.value),
        None => None,
    }
}

/// Moves pairs from behind an empty slot, so that the search for each key comes to it again.
pub fn close_gap(slots: &mut Vec<Option<Pair>>, empty: usize, starts: u32)
    requires some { 0 < starts }
    requires within { empty < vec_len slots.old }
    requires gap { AreMetButOver starts empty (empty + 1) slots.old.items }
    ensures met { AreMet starts slots.new.items }
    ensures same { AreSamePairs slots.old.items slots.new.items }
{
    let mut gap = empty;
    for at in empty + 1..slots.len() {
        if slots[at].is_none() {
            return;
        }
        gap = shift(slots, gap, at, starts);
    }
}

/// Moves the pair at a slot into the gap before it, where its key's search begins no later than the
/// gap, and says where the gap is then.
fn shift(slots: &mut Vec<Option<Pair>>, gap: usize, at: usize, starts: u32) -> usize
    requires some { 0 < starts }
    requires within { at < vec_len slots.old }
    requires gap { AreMetButOver starts gap at slots.old.items }
    ensures gap { AreMetButOver starts result (at + 1) slots.new.items }
    ensures same { AreSamePairs slots.old.items slots.new.items }
{
    if !fits(&slots[at], gap, starts) {
        return gap;
    }
    let moved = slots[at].take();
    slots[gap] = moved;
    at
}

/// Whether a slot has a pair whose key's search begins no later than a gap.
fn fits(slot: &Option<Pair>, gap: usize, starts: u32) -> bool
    requires { 0 < starts }
    ensures yes { IsTrue result →
        (pair : Pair) × (slot.now ≡ Some pair) × (first_slot starts pair.key ≤ gap) }
    ensures no { result ≡ false →
        (pair : Pair) → slot.now ≡ Some pair → gap < first_slot starts pair.key }
{
    match slot {
        Some(pair) => first_slot(&pair.key, starts) as usize <= gap,
        None => false,
    }
}
