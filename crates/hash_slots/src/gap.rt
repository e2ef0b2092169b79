//! A gap that is closed from behind.
ghost use Rattle.std.specs.Prelude.{◌≡◌, ℕ, ◌+◌, ◌^◌, ◌<◌, ◌≤◌, length, Some};
ghost use Rattle.hash_slots.specs.Places.{slot_at, AreMet, AreMetButOver, AreSamePairs, home};

use crate::cells::{Cells, Pair};

/// The slot at which the search for a tag begins.
#[inline]
pub fn home(tag: u32, mask: u32) -> usize
    ensures value { result ≡ home mask tag }
    ensures within { result ≤ mask }
{
    (tag & mask) as usize
}

/// Moves pairs from behind an empty slot, so that the search for each comes to it again.
pub fn close_gap(cells: &mut Cells, empty: usize, mask: u32)
    requires within { empty < length cells.old }
    requires gap { AreMetButOver mask empty (empty + 1) cells.old }
    ensures met { AreMet mask cells.new }
    ensures same { AreSamePairs cells.old cells.new }
{
    let mut gap = empty;
    let end = cells.len();
    for at in empty + 1..end {
        match cells.get(at) {
            Some(pair) => gap = shift(cells, gap, at, pair, mask),
            None => return,
        }
    }
}

/// Moves the pair at a slot into the gap before it, where its home is no later than the gap, and
/// says where the gap is then.
fn shift(cells: &mut Cells, gap: usize, at: usize, pair: Pair, mask: u32) -> usize
    requires within { at < length cells.old }
    requires narrow { pair.index + 1 < 2 ^ 32 }
    requires there { slot_at cells.old at ≡ Some pair }
    requires gap { AreMetButOver mask gap at cells.old }
    ensures gap { AreMetButOver mask result (at + 1) cells.new }
    ensures same { AreSamePairs cells.old cells.new }
{
    if home(pair.tag, mask) > gap {
        return gap;
    }
    cells.set(at, None);
    cells.set(gap, Some(pair));
    at
}
