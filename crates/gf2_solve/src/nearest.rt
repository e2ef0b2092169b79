//! The nearest solution.
ghost use Rattle.std.specs.Prelude.{◌≡◌, ◌<◌, IfOk};
ghost use Rattle.gf2_solve.specs.Kept.{width_of, Answers};
ghost use Rattle.gf2_solve.specs.Searches.{IsAmong, IsCloser};

use crate::bits::Bits;
use crate::search::find;
use crate::system::System;
use std::alloc::{AllocError, Global};

impl System {
    /// The solution nearest a wanted vector that has a 1 in each group: none where no solution has.
    ///
    /// In order, each bit is the wanted one unless no solution that has a 1 in each group and
    /// agrees on all earlier bits has it. Of the wanted vector and the groups, bits past the end
    /// are 0, and those past the bits of a solution don't matter.
    #[tactic(auto, using(crate::proofs::Closing::closing_none, crate::proofs::Closing::answers_none))]
    pub fn nearest(
        &self,
        alloc: Global,
        wanted: &Bits,
        groups: &[Bits],
    ) -> Result<Option<Bits>, AllocError>
        ensures { IfOk result (Answers self.now groups.now wanted.now) }
    {
        let mut best = match find(alloc, self, wanted, groups)? {
            Some(best) => best,
            None => return Ok(None),
        };
        let mut left = self.copy(alloc)?;
        for i in 0..self.width() {
            best = closer(alloc, &left, best, i, wanted, groups)?;
            left.fix(alloc, i, best.bit(i))?;
        }
        Ok(Some(best))
    }
}

/// A solution with a 1 in each group and the wanted bit at a place: the one at hand where none has
/// it.
#[tactic(auto, using(crate::proofs::Closing::closer_same, crate::proofs::Closing::closer_excluded, crate::proofs::Closing::closer_found, crate::proofs::Closing::closer_none))]
fn closer(
    alloc: Global,
    system: &System,
    best: Bits,
    place: usize,
    wanted: &Bits,
    groups: &[Bits],
) -> Result<Bits, AllocError>
    requires among { IsAmong system.now groups.now best }
    requires within { place < width_of system.now }
    ensures { IfOk result (IsCloser system.now groups.now wanted.now place) }
{
    if best.bit(place) == wanted.bit(place) {
        return Ok(best);
    }
    if system.excludes(alloc, place, wanted.bit(place))? {
        return Ok(best);
    }
    let mut other = system.copy(alloc)?;
    other.fix(alloc, place, wanted.bit(place))?;
    match find(alloc, &other, wanted, groups)? {
        Some(found) => Ok(found),
        None => Ok(best),
    }
}
