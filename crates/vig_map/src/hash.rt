//! Where the search for a key begins.
ghost use Rattle.std.specs.Prelude.{◌≡◌, ◌<◌};
ghost use Rattle.vig_map.specs.Hashes.{stirred, mixed, first_slot};

use nf_base::key::Key;

/// An odd number near 2^64 divided by the golden ratio: a product with it spreads every bit over
/// the high half.
const MULTIPLIER: u64 = 0x9e37_79b9_7f4a_7c15;

/// A hash with a word mixed in.
fn stir(hash: u64, word: u64) -> u64
    ensures { result ≡ stirred hash word }
{
    (hash ^ word).wrapping_mul(MULTIPLIER)
}

/// A hash with a key's part mixed in.
fn mix(hash: u64, part: u128) -> u64
    ensures { result ≡ mixed hash part }
{
    let low = (part % 0x1_0000_0000_0000_0000) as u64;
    let high = (part / 0x1_0000_0000_0000_0000) as u64;
    stir(stir(hash, low), high)
}

/// The slot at which the search for a key begins, of so many first ones.
pub fn first_slot(key: &Key, starts: u32) -> u32
    requires { 0 < starts }
    ensures value { result ≡ first_slot starts key.now }
    ensures within { result < starts }
{
    let mut hash = 0;
    for part in key.as_slice() {
        hash = mix(hash, *part);
    }
    (hash >> 32) as u32 % starts
}
