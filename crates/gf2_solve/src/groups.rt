//! Groups of bits: a vector is to have a 1 in each.
ghost use Rattle.std.specs.Prelude.{◌≡◌, IsTrue, false};
ghost use Rattle.gf2_solve.specs.Solutions.{Meets};
ghost use Rattle.gf2_solve.specs.Searches.{Misses};

use crate::bits::Bits;

/// Whether a vector has a 1 in a group.
#[tactic(auto, using(crate::proofs::GroupLemmas::misses_none, crate::proofs::GroupLemmas::misses_more, crate::proofs::GroupLemmas::misses_all))]
pub fn meets(x: &Bits, group: &Bits) -> bool
    ensures yes { IsTrue result → Meets x.now group.now }
    ensures no { result ≡ false → Misses x.now group.now }
{
    for i in 0..group.len() {
        if group.bit(i) && x.bit(i) {
            return true;
        }
    }
    false
}
