//! Searches.
ghost use Rattle.std.specs.Prelude.{◌≡◌, ℕ, ◌<◌, ◌≤◌, ◌↔◌, length, Some, IsTrue};
ghost use Rattle.hash_slots.specs.declared.cells.Pair.{Pair};
ghost use Rattle.hash_slots.specs.Places.{slot_at, IsStop, IsFound};

use crate::cells::{Cells, Pair};

/// Where a search ended, and the index that it found.
#[derive(Clone, Copy, Drop)]
pub struct Found {
    pub at: usize,
    pub index: Option<u32>,
}

/// The first slot, from one on, with a tag and an index whose key is the wanted one, unless an empty
/// one comes first.
#[inline]
pub fn find_from<F: Fn(u32) -> bool>(cells: &Cells, from: usize, tag: u32, is_key: F) -> Found
    requires within { from ≤ length cells.now }
    requires callable { (i : ℕ) (p : Pair) → slot_at cells.now i ≡ Some p → F.pre is_key p.index }
    ensures { IsFound (F.post is_key) cells.now from tag result }
{
    for at in from..cells.len() {
        match cells.get(at) {
            Some(pair) => {
                if pair.tag == tag && is_key(pair.index) {
                    return Found {
                        at,
                        index: Some(pair.index),
                    };
                }
            }
            None => return Found { at, index: None },
        }
    }
    Found {
        at: cells.len(),
        index: None,
    }
}

/// Whether two pairs are equal.
#[inline]
fn is_same(a: Pair, b: Pair) -> bool
    ensures { IsTrue result ↔ (a ≡ b) }
{
    a.tag == b.tag && a.index == b.index
}

/// The first slot, from one on, that is empty or has a pair: the number of slots where none is.
pub fn place_of(cells: &Cells, from: usize, wanted: Pair) -> usize
    requires { from ≤ length cells.now }
    ensures { IsStop cells.now from wanted result }
{
    for at in from..cells.len() {
        match cells.get(at) {
            Some(pair) => {
                if is_same(pair, wanted) {
                    return at;
                }
            }
            None => return at,
        }
    }
    cells.len()
}
