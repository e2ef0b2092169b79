//! The memory: eight bytes a slot.
ghost use Rattle.std.specs.Prelude.{◌≡◌, ℕ, ◌<◌, ◌≤◌, ◌+◌, ◌^◌, ◌++◌, max, length, None, Some, IfOk, OnSome, replicate, slice_set};
ghost use Rattle.std.specs.Vec.{vec_capacity};
ghost use Rattle.hash_slots.specs.Cells.{pair_in, empty_slot, IsNarrow};
ghost use Rattle.hash_slots.specs.Places.{slot_at};

use std::alloc::{AllocError, Global};
use std::marker::Model;

/// A tag, and the index under which a key with this tag stands.
#[derive(Clone, Copy, Drop)]
pub struct Pair {
    pub tag: u32,
    pub index: u32,
}

/// A pair, or none.
#[derive(Clone, Copy, Drop)]
struct Slot {
    tag: u32,
    /// The index and 1; 0 where no pair stands.
    link: u32,
}

/// Slots, each with a pair or empty.
///
/// The memory is taken at once, but touched only up to the last slot that was set.
#[derive(Drop)]
pub struct Cells {
    /// How many slots there are.
    count: usize,
    /// The first of them: those behind them are empty.
    slots: Vec<Slot>,
}

impl Model for Cells {
    ghost use Rattle.std.specs.Prelude.{List, Option, map, length};
    ghost use Rattle.std.specs.Vec.{vec_capacity};
    ghost use Rattle.hash_slots.specs.declared.cells.Pair.{Pair};
    ghost use Rattle.hash_slots.specs.Cells.{pair_in, filled, HasSlots};

    ghost Value = { List (Option Pair) };

    ghost view = { λ a. filled a.count (map pair_in a.slots.items) };

    ghost invariant = { λ a. HasSlots a.count (length a.slots.items) (vec_capacity a.slots) };
}

/// The pair in a slot, by the slot's fields.
#[inline]
fn pair_in(tag: u32, link: u32) -> Option<Pair>
    ensures value { result ≡ pair_in (record { tag = tag; link = link }) }
    ensures narrow { IsNarrow result }
{
    if link == 0 {
        None
    } else {
        Some(Pair {
            tag,
            index: link - 1,
        })
    }
}

#[inline]
fn slot_of(pair: Option<Pair>) -> Slot
    requires { IsNarrow pair }
    ensures { pair_in result ≡ pair }
{
    match pair {
        Some(pair) => Slot {
            tag: pair.tag,
            link: pair.index + 1,
        },
        None => Slot { tag: 0, link: 0 },
    }
}

/// Lets a slot stand, and those before it, for which there is room.
#[inline]
fn reach(slots: &mut Vec<Slot>, i: usize)
    requires { i < vec_capacity slots.old }
    ensures empty { (k : ℕ) × (slots.new.items ≡ slots.old.items ++ replicate k empty_slot) }
    ensures within { i < length slots.new.items }
    ensures least { length slots.new.items ≤ max (length slots.old.items) (i + 1) }
    ensures room { vec_capacity slots.new ≡ vec_capacity slots.old }
{
    if i >= slots.len() {
        push_empty(slots, i + 1);
    }
}

/// Pushes empty slots up to a length, for which there is room.
#[inline(never)]
fn push_empty(slots: &mut Vec<Slot>, end: usize)
    requires within { length slots.old.items ≤ end }
    requires room { end ≤ vec_capacity slots.old }
    ensures items { (k : ℕ) × (slots.new.items ≡ slots.old.items ++ replicate k empty_slot) }
    ensures len { length slots.new.items ≡ end }
    ensures room { vec_capacity slots.new ≡ vec_capacity slots.old }
{
    for _at in slots.len()..end {
        slots.push_reserved(Slot { tag: 0, link: 0 });
    }
}

impl Cells {
    /// So many empty slots.
    pub fn new(alloc: Global, count: usize) -> Result<Cells, AllocError>
        ensures { IfOk result (λ cells. cells ≡ replicate count None) }
    {
        let slots = Vec::with_capacity(alloc, count)?;
        Ok(Cells { count, slots })
    }

    #[inline]
    pub fn len(&self) -> usize
        ensures { result ≡ length self.now }
    {
        self.count
    }

    /// What stands in a slot.
    #[inline]
    pub fn get(&self, i: usize) -> Option<Pair>
        requires { i < length self.now }
        ensures value { result ≡ slot_at self.now i }
        ensures narrow { IsNarrow result }
    {
        if i >= self.slots.len() {
            return None;
        }
        let slot = self.slots[i];
        pair_in(slot.tag, slot.link)
    }

    #[inline]
    pub fn set(&mut self, i: usize, pair: Option<Pair>)
        requires within { i < length self.old }
        requires narrow { IsNarrow pair }
        ensures { self.new ≡ slice_set self.old i pair }
    {
        reach(&mut self.slots, i);
        self.slots[i] = slot_of(pair);
    }

    /// Makes these slots the same as as many others.
    pub fn copy_from(&mut self, other: &Cells)
        requires { length self.old ≡ length other.now }
        ensures { self.new ≡ other.now }
    {
        self.slots.clear();
        for slot in other.slots.as_slice() {
            self.slots.push_reserved(*slot);
        }
    }
}
