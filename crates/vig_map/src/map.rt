//! The map.
ghost use Rattle.std.specs.Prelude.{◌≡◌, ◌≤◌, [], length, IfOk, IfNone, OnSome};
ghost use Rattle.std.specs.Bool.{OnTrue, OnFalse};
ghost use Rattle.vig_map.specs.Bindings.{bindings_of, value_of, is_bindable, IsPut, IsErased};

use crate::slots::{Pair, close_gap, copy_slots, empty_slots, search, value_at};
use nf_base::key::Key;
use nf_base::size::Size;
use std::alloc::{AllocError, Global};
use std::marker::Model;

/// A finite map from keys to numbers, of so many pairs at most.
///
/// Contracts see it as a list of its pairs, of whose order they say nothing. No call but `new`
/// takes memory. A look-up goes past as many slots as there are pairs at most, whatever was erased
/// before.
#[derive(Drop)]
pub struct Map {
    /// Three for each pair that may stand: two in which searches begin, and one behind these.
    slots: Vec<Option<Pair>>,
    /// How many pairs stand.
    held: u32,
    /// How many may.
    most: u32,
}

impl Model for Map {
    ghost use Rattle.vig_map.specs.Bindings.{Bindings, bindings_of};
    ghost use Rattle.vig_map.specs.Slots.{pairs_of};
    ghost use Rattle.vig_map.specs.Sound.{IsSoundMap};

    ghost Value = { Bindings };

    ghost view = { λ a. bindings_of (pairs_of a.slots.items) a.most };

    ghost invariant = { λ a. IsSoundMap a.slots.items a.held a.most };
}

impl Map {
    /// A map of no pairs, with room for so many.
    pub fn new(alloc: Global, most: Size) -> Result<Map, AllocError>
        ensures { IfOk result (λ map. map ≡ bindings_of [] most) }
    {
        let most = most.get();
        let slots = empty_slots(alloc, 3 * most)?;
        Ok(Map {
            slots,
            held: 0,
            most,
        })
    }

    /// Makes this map the same as another one that may have as many pairs.
    pub fn copy_from(&mut self, other: &Map)
        requires { self.old.most ≡ other.now.most }
        ensures { self.new ≡ other.now }
    {
        copy_slots(&mut self.slots, other.slots.as_slice());
        self.held = other.held;
    }

    /// The value of a key: none where it is not bound.
    pub fn get(&self, key: &Key) -> Option<u32>
        ensures value { result ≡ value_of self.now.pairs key.now }
        ensures within { length self.now.pairs ≤ self.now.most }
    {
        let at = search(&self.slots, 2 * self.most, key);
        value_at(&self.slots, at)
    }

    /// Binds a key to a value: false where it is bound, or as many pairs stand as may.
    pub fn put(&mut self, key: Key, value: u32) -> bool
        ensures cause { result ≡ is_bindable self.old key }
        ensures put { OnTrue result (IsPut key value self.old self.new) }
        ensures unchanged { OnFalse result (self.new ≡ self.old) }
    {
        if self.held == self.most {
            return false;
        }
        let at = search(&self.slots, 2 * self.most, &key);
        let bound = value_at(&self.slots, at);
        if bound.is_some() {
            return false;
        }
        self.slots[at] = Some(Pair { key, value });
        self.held += 1;
        true
    }

    /// Takes a key's pair out, and says what its value was: none where the key is not bound.
    pub fn erase(&mut self, key: &Key) -> Option<u32>
        ensures value { result ≡ value_of self.old.pairs key.now }
        ensures erased { OnSome result (IsErased key.now self.old self.new) }
        ensures unchanged { IfNone result (self.new ≡ self.old) }
    {
        let at = search(&self.slots, 2 * self.most, key);
        let value = match value_at(&self.slots, at) {
            Some(value) => value,
            None => return None,
        };
        self.slots[at] = None;
        close_gap(&mut self.slots, at, 2 * self.most);
        self.held -= 1;
        Some(value)
    }
}
