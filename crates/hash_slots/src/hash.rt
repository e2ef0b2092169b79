//! The tag of a key.
ghost use Rattle.std.specs.Prelude.{◌≡◌, bit_and};
ghost use Rattle.hash_slots.specs.Hashes.{tag_of, mixed, step};

/// An odd number near 2^64 divided by the golden ratio.
const FIRST: u64 = 0x9e37_79b9_7f4a_7c15;

/// Another odd number, for the first round and the last.
const SECOND: u64 = 0xd1b5_4a32_d192_ed03;

/// A number times another, both halves of the product folded into one.
#[inline]
fn mixed(hash: u64, by: u64) -> u64
    ensures { result ≡ mixed hash by }
{
    let product = u128::from(hash) * u128::from(by);
    (product >> 64) as u64 ^ (product & 0xffff_ffff_ffff_ffff) as u64
}

/// A hash with a key's part mixed in, by one multiplication for both of the part's words.
///
/// The factor with the low word is added once more, so that it counts where the other one is 0.
#[inline]
fn stirred(hash: u64, part: u128) -> u64
    ensures { result ≡ step hash part }
{
    let low = hash ^ (part & 0xffff_ffff_ffff_ffff) as u64;
    let high = (part >> 64) as u64 ^ FIRST;
    mixed(low, high).wrapping_add(low)
}

/// 32 bits of a key's hash.
#[inline]
fn tag(hash: u64) -> u32
    ensures { result ≡ bit_and (mixed hash 0xD1B54A32D192ED03) 0xFFFFFFFF }
{
    (mixed(hash, SECOND) & 0xffff_ffff) as u32
}

/// 32 bits of the hash of a key.
///
/// A key of four parts, as that of a flow, is hashed without a loop.
#[inline]
pub fn tag_of(key: &[u128]) -> u32
    ensures { result ≡ tag_of key.now }
{
    if let [a, b, c, d] = key {
        return tag(stirred(stirred(stirred(stirred(SECOND, *a), *b), *c), *d));
    }
    let mut hash = SECOND;
    for part in key {
        hash = stirred(hash, *part);
    }
    tag(hash)
}
