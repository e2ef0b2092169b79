//! Paths side by side, each with what its tests say, and the blocks that they go into.
ghost use Rattle.std.specs.Prelude.{◌≡◌, ◌++◌, [], IfOk, OnOk, not, true, false, None};
ghost use Rattle.std.specs.List.{flat_map};
ghost use Rattle.path_walk.specs.Known.{known_seen, excludes, told_mark};
ghost use Rattle.path_walk.specs.Ahead.{one_if, behind_way, behind_test, known_in, all_known};

use crate::known::Known;
use crate::test::FieldIs;
use std::alloc::{AllocError, Global};

/// A test of the packet alone with the number of its text, and what it says where it is
/// `field == number`. Where outcomes are exchanged it hits where it doesn't hold.
#[derive(Clone, Copy)]
pub struct Asked {
    pub number: usize,
    pub equals: Option<FieldIs>,
    pub exchanged: bool,
}

/// Paths behind a statement, by the block that they go into: of each what its tests say.
#[derive(Drop)]
pub struct Ways {
    /// Those that hit or made an entry.
    pub first: Vec<Box<Known>>,
    /// Those that missed, or came to a key that is taken.
    pub second: Vec<Box<Known>>,
    /// Those that found no free index.
    pub third: Vec<Box<Known>>,
}

impl Ways {
    /// Room for so many paths to hit, and for as many to miss.
    fn new(alloc: Global, most: usize) -> Result<Ways, AllocError>
        ensures first { IfOk result (λ ways. all_known ways.first.items ≡ []) }
        ensures second { IfOk result (λ ways. all_known ways.second.items ≡ []) }
    {
        let first = Vec::with_capacity(alloc, most)?;
        let second = Vec::with_capacity(alloc, most)?;
        let third = Vec::new(alloc);
        Ok(Ways {
            first,
            second,
            third,
        })
    }

    /// A path that goes one way.
    #[inline(always)]
    fn put_way(&mut self, hits: bool, known: Box<Known>) -> Result<(), AllocError>
        ensures first { OnOk result (all_known self.new.first.items
            ≡ all_known self.old.first.items ++ one_if hits (known_in known)) }
        ensures second { OnOk result (all_known self.new.second.items
            ≡ all_known self.old.second.items ++ one_if (not hits) (known_in known)) }
    {
        if hits {
            self.first.push(known)?;
        } else {
            self.second.push(known)?;
        }
        Ok(())
    }

    /// A path that goes both ways at a test.
    fn put_both(
        &mut self,
        alloc: Global,
        test: Asked,
        mut known: Box<Known>,
    ) -> Result<(), AllocError>
        ensures first { OnOk result (all_known self.new.first.items ≡ all_known self.old.first.items
            ++ behind_way test.exchanged true None false (known_in known)
            (told_mark (known_in known) test.number test.equals)) }
        ensures second { OnOk result (all_known self.new.second.items
            ≡ all_known self.old.second.items
            ++ behind_way test.exchanged false None false (known_in known)
            (told_mark (known_in known) test.number test.equals)) }
    {
        let mut other = known.copy(alloc)?;
        other.tell(test.number, test.equals, test.exchanged);
        let other = Box::new(alloc, other)?;
        known.tell(test.number, test.equals, !test.exchanged);
        self.first.push(known)?;
        self.second.push(other)?;
        Ok(())
    }

    /// A path that comes to a test of no mark.
    fn put_untold(
        &mut self,
        alloc: Global,
        test: Asked,
        mut known: Box<Known>,
    ) -> Result<(), AllocError>
        ensures first { OnOk result (all_known self.new.first.items ≡ all_known self.old.first.items
            ++ behind_way test.exchanged true None (excludes test.equals (known_in known))
            (known_in known) (told_mark (known_in known) test.number test.equals)) }
        ensures second { OnOk result (all_known self.new.second.items
            ≡ all_known self.old.second.items
            ++ behind_way test.exchanged false None (excludes test.equals (known_in known))
            (known_in known) (told_mark (known_in known) test.number test.equals)) }
    {
        if known.excludes(test.equals) {
            known.tell(test.number, test.equals, false);
            self.put_way(test.exchanged, known)
        } else {
            self.put_both(alloc, test, known)
        }
    }

    /// A path that comes to a test.
    #[inline(always)]
    fn put(&mut self, alloc: Global, test: Asked, known: Box<Known>) -> Result<(), AllocError>
        ensures first { OnOk result (all_known self.new.first.items
            ≡ all_known self.old.first.items ++ behind_test test true (known_in known)) }
        ensures second { OnOk result (all_known self.new.second.items
            ≡ all_known self.old.second.items ++ behind_test test false (known_in known)) }
    {
        match known.mark(test.number) {
            Some(holds) => self.put_way(test.exchanged != holds, known),
            None => self.put_untold(alloc, test, known),
        }
    }
}

/// The ways of paths that come to a test of the packet alone.
pub fn tested(alloc: Global, test: Asked, live: Vec<Box<Known>>) -> Result<Ways, AllocError>
    ensures first { IfOk result (λ ways. all_known ways.first.items
        ≡ flat_map (behind_test test true) (all_known live.items)) }
    ensures second { IfOk result (λ ways. all_known ways.second.items
        ≡ flat_map (behind_test test false) (all_known live.items)) }
{
    let mut ways = Ways::new(alloc, live.len())?;
    for known in live {
        ways.put(alloc, test, known)?;
    }
    Ok(ways)
}

/// The same paths once more.
fn copies(alloc: Global, live: &[Box<Known>]) -> Result<Vec<Box<Known>>, AllocError>
    ensures { IfOk result (λ all. all_known all.items ≡ all_known live.now) }
{
    let mut all = Vec::with_capacity(alloc, live.len())?;
    for known in live {
        let copy = known.copy(alloc)?;
        all.push(Box::new(alloc, copy)?)?;
    }
    Ok(all)
}

/// The ways of paths that hit and miss.
pub fn both_ways(alloc: Global, live: Vec<Box<Known>>) -> Result<Ways, AllocError>
    ensures first { IfOk result (λ ways. all_known ways.first.items ≡ all_known live.items) }
    ensures second { IfOk result (λ ways. all_known ways.second.items ≡ all_known live.items) }
{
    let second = copies(alloc, live.as_slice())?;
    Ok(Ways {
        first: live,
        second,
        third: Vec::new(alloc),
    })
}

/// The ways of paths that make an entry, come to a key that is taken, and find no free index.
pub fn three_ways(alloc: Global, live: Vec<Box<Known>>) -> Result<Ways, AllocError>
    ensures first { IfOk result (λ ways. all_known ways.first.items ≡ all_known live.items) }
    ensures second { IfOk result (λ ways. all_known ways.second.items ≡ all_known live.items) }
    ensures third { IfOk result (λ ways. all_known ways.third.items ≡ all_known live.items) }
{
    let second = copies(alloc, live.as_slice())?;
    let third = copies(alloc, live.as_slice())?;
    Ok(Ways {
        first: live,
        second,
        third,
    })
}
