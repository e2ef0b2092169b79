//! The stamps of indices, and doubly linked rings of cells: sixteen bytes a cell, in one array.
ghost use Rattle.std.specs.Prelude.{◌≡◌, ℕ, ◌+◌, ◌<◌, ◌≤◌, length, Some, None, IfOk, slice_index, slice_set, map};
ghost use Rattle.std.specs.List.{range_with_len};
ghost use Rattle.nf_base.specs.Limits.{IsShare};
ghost use Rattle.vig_chain.specs.Heads.{linked_of, opened_heads, head_at_start, stamp_in, next_in, prev_in, last_own, with_next, with_prev, with_head, cut_out, put_last};
ghost use Rattle.vig_chain.specs.Sound.{LinksInRange};
ghost use Rattle.vig_chain.specs.Stamps.{stamp_of, is_vacant_at};

use nf_base::share::Share;
use nf_base::size::Size;
use std::alloc::{AllocError, Global};
use std::marker::Model;

/// What stands at a cell.
#[derive(Clone, Copy, Drop)]
struct Head {
    /// The stamp of the entry, where there is one.
    stamp: u64,
    /// The next cell in its ring.
    next: u32,
    /// Twice the cell before in its ring, and 1 more where an entry stands here.
    prev: u32,
}

/// A cell for each index, then the one where the ring of the entries begins, in the order of their
/// stamps, and then the one where the ring of the available indices does.
#[derive(Drop)]
pub struct Heads {
    /// How many indices there are.
    size: u32,
    heads: Vec<Head>,
}

impl Model for Heads {
    ghost use Rattle.vig_chain.specs.Heads.{Linked, linked_of, AreHeads};

    ghost Value = { Linked };

    ghost view = { λ a. linked_of a.size a.heads.items };

    ghost invariant = { λ a. AreHeads a.size a.heads.items };
}

/// The stamp in a head, by the head's fields.
#[inline]
fn stamp_in(stamp: u64, next: u32, prev: u32) -> Option<u64>
    ensures { result ≡ stamp_in (record { stamp = stamp; next = next; prev = prev }) }
{
    if prev % 2 == 0 { None } else { Some(stamp) }
}

/// A head with the stamp of an entry, or none.
#[inline]
fn head_of(stamp: Option<u64>, next: u32, prev: u32) -> Head
    requires { prev < 65538 }
    ensures stamp { stamp_in result ≡ stamp }
    ensures next { next_in result ≡ next }
    ensures prev { prev_in result ≡ prev }
{
    match stamp {
        Some(stamp) => Head {
            stamp,
            next,
            prev: 2 * prev + 1,
        },
        None => Head {
            stamp: 0,
            next,
            prev: 2 * prev,
        },
    }
}

/// The last of a share's own indices, of so many: the cell where their ring begins where there is
/// none.
fn last_own(size: u32, share: Share) -> u32
    requires some { 1 ≤ size }
    requires most { size ≤ 65536 }
    ensures { result ≡ last_own size share }
{
    let Share { queue, of, .. } = share;
    if queue < size {
        size - 1 - (size - 1 - queue) % of
    } else {
        size + 1
    }
}

/// A cell's head before anything is done with the chain: the share's own indices stand in the ring
/// of the available ones, the lesser first.
fn head_at_start(size: u32, share: Share, cell: u32) -> Head
    requires some { 1 ≤ size }
    requires most { size ≤ 65536 }
    requires within { cell < size + 2 }
    ensures { result ≡ head_at_start size share cell }
{
    let Share { queue, of, .. } = share;
    let ring = size + 1;
    let (next, prev) = if cell < size {
        (
            if cell + of < size { cell + of } else { ring },
            if of <= cell { cell - of } else { ring },
        )
    } else if cell == size {
        (size, size)
    } else {
        (
            if queue < size { queue } else { ring },
            last_own(size, share),
        )
    };
    Head {
        stamp: 0,
        next,
        prev: 2 * prev,
    }
}

impl Heads {
    /// The heads of so many indices, all of them vacant, of which a share's own are available.
    pub fn new(alloc: Global, size: Size, share: Share) -> Result<Heads, AllocError>
        ensures value { IfOk result (λ heads. heads ≡ opened_heads size share) }
        ensures some { 1 ≤ size }
        ensures most { size ≤ 65536 }
    {
        let size = size.get();
        let mut heads = Vec::with_capacity(alloc, size as usize + 2)?;
        for cell in 0..size + 2 {
            heads.push(head_at_start(size, share, cell))?;
        }
        Ok(Heads { size, heads })
    }

    /// Makes these heads the same as those of as many other indices.
    pub fn copy_from(&mut self, other: &Heads)
        requires { self.old.size ≡ other.now.size }
        ensures { self.new ≡ other.now }
    {
        self.heads.copy_from_slice(other.heads.as_slice());
    }

    /// How many indices there are.
    #[inline]
    pub fn size(&self) -> u32
        ensures value { result ≡ self.now.size }
        ensures most { result ≤ 65536 }
    {
        self.size
    }

    /// The stamp of the entry at an index: none where the index is vacant or past the end.
    #[inline]
    pub fn stamp(&self, index: u32) -> Option<u64>
        ensures { result ≡ stamp_of self.now.stamps index }
    {
        if index >= self.size {
            return None;
        }
        let head = self.heads[index as usize];
        stamp_in(head.stamp, head.next, head.prev)
    }

    /// Whether an index is vacant: past the end none is.
    pub fn is_vacant_at(&self, index: u32) -> bool
        ensures { result ≡ is_vacant_at self.now.stamps index }
    {
        index < self.size && self.heads[index as usize].prev % 2 == 0
    }

    /// The next cell in a cell's ring.
    #[inline]
    pub fn next(&self, cell: u32) -> u32
        requires { cell < length self.now.rings.next }
        ensures value { result ≡ slice_index self.now.rings.next cell }
        ensures within { result < length self.now.rings.next }
    {
        self.heads[cell as usize].next
    }

    /// The cell before a cell in its ring.
    #[inline]
    fn prev(&self, cell: u32) -> u32
        requires { cell < length self.now.rings.next }
        ensures value { result ≡ slice_index self.now.rings.prev cell }
        ensures within { result < length self.now.rings.next }
        ensures few { result < 65538 }
        ensures links { LinksInRange self.now.rings }
    {
        self.heads[cell as usize].prev / 2
    }

    /// Links a cell to the next one.
    #[inline]
    fn set_next(&mut self, cell: u32, next: u32)
        requires within { cell < length self.old.rings.next }
        requires to_within { next < length self.old.rings.next }
        ensures { self.new ≡ with_next cell next self.old }
    {
        let head = self.heads[cell as usize];
        self.heads[cell as usize] = Head { next, ..head };
    }

    /// Links a cell to the one before it.
    #[inline]
    fn set_prev(&mut self, cell: u32, prev: u32)
        requires within { cell < length self.old.rings.next }
        requires to_within { prev < length self.old.rings.next }
        ensures { self.new ≡ with_prev cell prev self.old }
    {
        let head = self.heads[cell as usize];
        let prev = 2 * prev + head.prev % 2;
        self.heads[cell as usize] = Head { prev, ..head };
    }

    /// Writes the head of an index.
    #[inline]
    fn set(&mut self, i: u32, stamp: Option<u64>, next: u32, prev: u32)
        requires within { i < self.old.size }
        requires next_within { next < length self.old.rings.next }
        requires prev_within { prev < length self.old.rings.next }
        requires few { prev < 65538 }
        ensures { self.new ≡ with_head i stamp next prev self.old }
    {
        self.heads[i as usize] = head_of(stamp, next, prev);
    }

    /// Takes an index out of its ring.
    #[inline]
    pub fn unlink(&mut self, i: u32)
        requires { i < length self.old.rings.next }
        ensures value { self.new ≡ cut_out i self.old }
        ensures within { LinksInRange self.old.rings }
    {
        let before = self.prev(i);
        let after = self.next(i);
        self.set_next(before, after);
        self.set_prev(after, before);
    }

    /// Puts an index that is in no ring last in one, which begins at a cell, with the stamp of an
    /// entry or none.
    #[inline]
    pub fn append(&mut self, i: u32, ring: u32, stamp: Option<u64>)
        requires within { i < self.old.size }
        requires cell_within { i < length self.old.rings.next }
        requires ring_within { ring < length self.old.rings.next }
        ensures { self.new ≡ put_last i ring stamp self.old }
    {
        let last = self.prev(ring);
        self.set_next(last, i);
        self.set(i, stamp, ring, last);
        self.set_prev(ring, i);
    }
}
