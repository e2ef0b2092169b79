//! Slots by their pairs.
ghost use Rattle.std.specs.Prelude.{◌≡◌, ℕ, ◌+◌, ◌<◌, ◌≤◌, ◌^◌, [], length, Contains, true, false, IfOk, IfSome, IfNone};
ghost use Rattle.hash_slots.specs.Tags.{tags_of, pair_of, Holds, IsPut, IsErased};

use crate::cells::{Cells, Pair};
use crate::gap::{close_gap, home};
use crate::probe::{find_from, place_of};
use nf_base::size::Size;
use std::alloc::{AllocError, Global};
use std::marker::Model;

/// Pairs of a tag and an index, so many at most, each once. The keys stand elsewhere, under the
/// indices.
///
/// Contracts see them as a list, of whose order they say nothing. No call but `new` takes memory.
#[derive(Drop)]
pub struct Slots {
    /// A power of two in which searches begin, at least twice as many as pairs may stand, and one
    /// behind these for each pair.
    cells: Cells,
    /// The slots in which searches begin, less one.
    mask: u32,
    /// How many pairs stand.
    held: u32,
    /// How many may.
    most: u32,
}

impl Model for Slots {
    ghost use Rattle.hash_slots.specs.Places.{pairs_of};
    ghost use Rattle.hash_slots.specs.Tags.{Tags, tags_of, AreSound};

    ghost Value = { Tags };

    ghost view = { λ a. tags_of (pairs_of a.cells) a.most };

    ghost invariant = { λ a. AreSound a.cells a.mask a.held a.most };
}

impl Slots {
    /// No pairs, with room for so many.
    pub fn new(alloc: Global, most: Size) -> Result<Slots, AllocError>
        ensures { IfOk result (λ slots. slots ≡ tags_of [] most) }
    {
        let most = most.get();
        let homes = (2 * u64::from(most)).next_power_of_two() as usize;
        let cells = Cells::new(alloc, homes + most as usize)?;
        Ok(Slots {
            cells,
            mask: (homes - 1) as u32,
            held: 0,
            most,
        })
    }

    /// An index with a tag whose key is the wanted one: none where there is no such.
    // A part of its caller, so that the test of a key is no call either.
    #[inline(always)]
    pub fn find<F: Fn(u32) -> bool>(&self, tag: u32, is_key: F) -> Option<u32>
        requires { (t i : ℕ) → Holds self.now t i → F.pre is_key i }
        ensures found { IfSome result (λ i. Holds self.now tag i × F.post is_key i true) }
        ensures absent { IfNone result ((i : ℕ) → Holds self.now tag i → F.post is_key i false) }
    {
        find_from(&self.cells, home(tag, self.mask), tag, is_key).index
    }

    /// Puts a pair.
    pub fn put(&mut self, tag: u32, index: u32)
        requires narrow { index + 1 < 2 ^ 32 }
        requires room { length self.old.pairs < self.old.most }
        requires new { Holds self.old tag index → ⊥ }
        ensures { IsPut (pair_of tag index) self.old self.new }
    {
        let pair = Pair { tag, index };
        let at = place_of(&self.cells, home(tag, self.mask), pair);
        self.cells.set(at, Some(pair));
        self.held += 1;
    }

    /// Takes a pair out.
    pub fn erase(&mut self, tag: u32, index: u32)
        requires { Holds self.old tag index }
        ensures { IsErased (pair_of tag index) self.old self.new }
    {
        let at = place_of(&self.cells, home(tag, self.mask), Pair { tag, index });
        self.cells.set(at, None);
        close_gap(&mut self.cells, at, self.mask);
        self.held -= 1;
    }

    /// Makes these pairs the same as those of other slots, of which as many may stand.
    pub fn copy_from(&mut self, other: &Slots)
        requires { self.old.most ≡ other.now.most }
        ensures { self.new ≡ other.now }
    {
        self.cells.copy_from(&other.cells);
        self.mask = other.mask;
        self.held = other.held;
    }
}
