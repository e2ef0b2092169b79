//! Whether paths that stand side by side go a way at a question.
ghost use Rattle.std.specs.Prelude.{◌≡◌, true, false};
ghost use Rattle.std.specs.List.{flat_map};
ghost use Rattle.path_walk.specs.Known.{known_seen};
ghost use Rattle.path_walk.specs.Alive.{is_any};
ghost use Rattle.path_walk.specs.Feasible.{differ};
ghost use Rattle.path_walk.specs.Ahead.{is_way, behind_test, all_known};

use crate::known::Known;
use crate::ways::Asked;

/// Whether one of some paths hits at a question, and whether one misses.
#[derive(Clone, Copy, Debug, PartialEq, Eq)]
pub struct Going {
    pub hits: bool,
    pub misses: bool,
}

/// Whether a test that hits or misses goes a way.
fn is_way(way: bool, hits: bool) -> bool
    ensures { result ≡ is_way way hits }
{
    if way { hits } else { !hits }
}

/// Whether a test hits that holds or not.
fn hits(exchanged: bool, holds: bool) -> bool
    ensures { result ≡ differ exchanged holds }
{
    exchanged != holds
}

/// Whether a path may go a way at a test: hit, or miss.
#[tactic(auto, using(crate::proofs::InVain::any_if))]
fn goes(test: Asked, way: bool, known: &Known) -> bool
    ensures { result ≡ is_any (behind_test test way (known_seen known.now)) }
{
    match known.mark(test.number) {
        Some(holds) => is_way(way, hits(test.exchanged, holds)),
        None => {
            if known.excludes(test.equals) {
                is_way(way, hits(test.exchanged, false))
            } else {
                true
            }
        }
    }
}

/// Whether one of some paths may go a way at a test: hit, or miss.
#[tactic(auto, using(crate::proofs::InVain::any_first, crate::proofs::InVain::any_later))]
fn any_goes(test: Asked, way: bool, live: &[Box<Known>]) -> bool
    ensures { result ≡ is_any (flat_map (behind_test test way) (all_known live.now)) }
{
    for known in live {
        if goes(test, way, known) {
            return true;
        }
    }
    false
}

/// Whether paths go either way at a test of the packet alone.
pub fn going_on(test: Asked, live: &[Box<Known>]) -> Going
    ensures hits { result.hits ≡ is_any (flat_map (behind_test test true) (all_known live.now)) }
    ensures misses { result.misses
        ≡ is_any (flat_map (behind_test test false) (all_known live.now)) }
{
    Going {
        hits: any_goes(test, true, live),
        misses: any_goes(test, false, live),
    }
}

/// Whether paths go either way at a look-up: all do.
pub fn going_both(live: &[Box<Known>]) -> Going
    ensures hits { result.hits ≡ is_any (all_known live.now) }
    ensures misses { result.misses ≡ is_any (all_known live.now) }
{
    let any = !live.is_empty();
    Going {
        hits: any,
        misses: any,
    }
}
