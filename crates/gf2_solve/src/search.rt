//! The search for a solution with a 1 in each group.
//!
//! A group is looked at only where the others can be met, and each of its members that can't be 1
//! then is fixed to 0. So in a group at most as many independent members fail as there are other
//! groups, and the search stays short.
ghost use Rattle.std.specs.Prelude.{◌≡◌, ◌<◌, ◌∷◌, IfOk};
ghost use Rattle.gf2_solve.specs.Kept.{width_of};
ghost use Rattle.gf2_solve.specs.Searches.{IsFound, IsFoundAt};

use crate::bits::Bits;
use crate::groups::meets;
use crate::system::System;
use std::alloc::{AllocError, Global};

/// A solution with a 1 in each group, near the wanted one: none where there is none.
#[cycle(search)]
#[tactic(auto, using(crate::proofs::Searching::found_none, crate::proofs::Searching::found_both, crate::proofs::Searching::none_of_others))]
pub fn find(
    alloc: Global,
    system: &System,
    wanted: &Bits,
    groups: &[Bits],
) -> Result<Option<Bits>, AllocError>
    ensures { IfOk result (IsFound system.now groups.now) }
{
    let (group, others) = match groups {
        [] => return system.candidate(alloc, wanted),
        [group, others @ ..] => (group, others),
    };
    match find(alloc, system, wanted, others)? {
        Some(x) => {
            if meets(&x, group) {
                return Ok(Some(x));
            }
            mended(alloc, system, wanted, group, others)
        }
        None => Ok(None),
    }
}

/// The same, member by member of a group.
///
/// It goes from the last member to the first: the nearest solution departs from the wanted vector
/// as late as it can, so a late member is likelier to be found.
#[cycle(search)]
#[tactic(auto, using(crate::proofs::Searching::left_none, crate::proofs::Searching::left_past, crate::proofs::Searching::left_excluded, crate::proofs::Searching::left_more, crate::proofs::Searching::left_all, crate::proofs::Searching::left_found))]
fn mended(
    alloc: Global,
    system: &System,
    wanted: &Bits,
    group: &Bits,
    others: &[Bits],
) -> Result<Option<Bits>, AllocError>
    ensures { IfOk result (IsFound system.now (group.now ∷ others.now)) }
{
    let mut left = system.copy(alloc)?;
    for place in (0..system.width()).rev() {
        if !group.bit(place) || left.excludes(alloc, place, true)? {
            continue;
        }
        match with_one(alloc, &left, wanted, place, others)? {
            Some(found) => return Ok(Some(found)),
            None => left.fix(alloc, place, false)?,
        }
    }
    Ok(None)
}

/// A solution with a 1 at a place and in each group.
#[cycle(search)]
#[tactic(auto, using(crate::proofs::Searching::found_at))]
fn with_one(
    alloc: Global,
    system: &System,
    wanted: &Bits,
    place: usize,
    groups: &[Bits],
) -> Result<Option<Bits>, AllocError>
    requires { place < width_of system.now }
    ensures { IfOk result (IsFoundAt system.now place groups.now) }
{
    let mut ones = system.copy(alloc)?;
    ones.fix(alloc, place, true)?;
    find(alloc, &ones, wanted, groups)
}
