// Places in an order.
ghost use Rattle.std.specs.Prelude.{◌≡◌, ◌≤◌, ◌<◌, ◌+◌, ◌^◌, length};
ghost use Rattle.lock_core.specs.Calls.{seen_by, length_behind};
ghost use Rattle.lock_core.specs.Steps.{place_behind};

use crate::call::{Ordered, Way};

/// How many packets of an order stand before its next entry behind so many.
pub(crate) fn place_behind(order: &[Ordered], prefix: u64) -> usize
    ensures value { result ≡ place_behind prefix order.now }
    ensures within { result ≤ length order.now }
{
    let mut left = prefix;
    let mut place = 0;
    for x in order {
        if x.way == Way::Alone {
            if left == 0 {
                return place;
            }
            left -= 1;
        }
        place += 1;
    }
    place
}

/// How many entries of the history a seat has seen.
pub(crate) fn seen_by(order: &[Ordered], seat: u32) -> u64
    ensures { result ≡ seen_by seat order.now }
{
    let mut entries = 0;
    let mut seen = 0;
    for x in order {
        let before = entries;
        entries = behind(entries, x.way);
        if x.seat == seat {
            seen = behind(before, x.way);
        }
    }
    seen
}

fn behind(entries: u64, way: Way) -> u64
    requires { entries + 1 < 2 ^ 64 }
    ensures { result ≡ length_behind entries way }
{
    match way {
        Way::Look => entries,
        Way::Alone => entries + 1,
    }
}
