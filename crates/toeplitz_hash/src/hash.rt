//! The hash, bit by bit.
//!
//! Which bits of the input are 1 is up to whoever sends the packets, so no branch depends on one: a
//! bit is spread to a mask of 32 bits.
ghost use Rattle.std.specs.Prelude.{◌≡◌, ◌-◌, ◌*◌, ◌/◌, ◌%◌, ◌^◌, ◌<◌, ◌≤◌, ◌∷◌, [], length};
ghost use Rattle.toeplitz_hash.specs.Bits.{bit_of, number_of};
ghost use Rattle.toeplitz_hash.specs.Toeplitz.{toeplitz_of};

/// The Toeplitz hash of an input of at most 36 bytes (Microsoft RSS).
///
/// Bit `j` of the hash, 0 the highest of 32, is the sum modulo 2 over the bits `i` of the input of
/// `input_i * key_(i+j)`. Of bytes the highest bit comes first.
/// No other bits of the key are met than its first 319, which 40 bytes hold.
pub fn toeplitz(key: &[u8], input: &[u8]) -> u32
    requires key { 40 ≤ length key.now }
    requires input { length input.now ≤ 36 }
    ensures { result ≡ toeplitz_of key.now input.now }
{
    let mut hash = 0;
    for (i, byte) in input.iter().enumerate() {
        hash ^= byte_hash(&key[i..], *byte);
    }
    hash
}

/// The hash of one byte: of an input's byte `i` under the key from byte `i` on, 5 bytes of it, that is what
/// it adds to the input's hash.
pub fn byte_hash(key: &[u8], byte: u8) -> u32
    requires { 5 ≤ length key.now }
    ensures { result ≡ toeplitz_of key.now (byte ∷ []) }
{
    let window = first_bits(key);
    let mut hash = 0;
    for i in 0..8 {
        hash ^= bits_from(window, i) & mask_of(byte, i);
    }
    hash
}

/// The first 40 bits of a key.
fn first_bits(key: &[u8]) -> u64
    requires { 5 ≤ length key.now }
    ensures { result ≡ number_of 40 (bit_of key.now) }
{
    let high = u32::from_be_bytes([key[0], key[1], key[2], key[3]]);
    u64::from(high) * 256 + u64::from(key[4])
}

/// Of 40 bits the 32 from bit `i` on.
fn bits_from(window: u64, i: u32) -> u32
    requires { i < 8 }
    ensures { result ≡ window / 2 ^ (8 - i) % 2 ^ 32 }
{
    ((window >> (8 - i)) % 0x1_0000_0000) as u32
}

/// 32 times bit `i` of a byte.
fn mask_of(byte: u8, i: u32) -> u32
    requires { i < 8 }
    ensures { result ≡ bit_of (byte ∷ []) i * (2 ^ 32 - 1) }
{
    u32::from((byte >> (7 - i)) % 2) * u32::MAX
}
