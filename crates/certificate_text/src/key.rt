//! The digits of a key of the Toeplitz hash.

ghost use Rattle.std.specs.Prelude.{◌≡◌, ◌+◌, ◌*◌, ◌<◌, length, take};
ghost use Rattle.nf_base.specs.Cards.{key_bytes};
ghost use Rattle.certificate_text.specs.Words.{byte_at, bytes_of_digits, size_of_digits, key_in};

use crate::digit::{are_digits, digit_of};
use nf_base::card::KeySize;
use nf_base::hash_key::HashKey;

/// The byte that the digits `2 i` and `2 i + 1` make.
fn byte_at(digits: &[u8], i: usize) -> u8
    requires within { 2 * i + 1 < length digits.now }
    ensures { result ≡ byte_at digits.now i }
{
    16 * digit_of(digits[2 * i]) + digit_of(digits[2 * i + 1])
}

/// The bytes that the digits of a key make, with zeros behind them.
fn bytes_of_digits(digits: &[u8], size: KeySize) -> [u8; 52]
    requires { length digits.now ≡ 2 * key_bytes size }
    ensures { take (key_bytes size) result ≡ bytes_of_digits size digits.now }
{
    let mut bytes = [0; 52];
    for i in 0..size.bytes() as usize {
        bytes[i] = byte_at(digits, i);
    }
    bytes
}

/// The size of a key of so many digits, two of which are a byte.
fn size_of_digits(digits: usize) -> Option<KeySize>
    ensures { result ≡ size_of_digits digits }
{
    match digits {
        80 => Some(KeySize::Bytes40),
        104 => Some(KeySize::Bytes52),
        _ => None,
    }
}

/// 80 or 104 digits of 0-9 a-f, the 40 or 52 bytes of a key.
pub fn key_in(text: &[u8]) -> Option<HashKey>
    ensures { result ≡ key_in text.now }
{
    let size = size_of_digits(text.len())?;
    if are_digits(text) {
        Some(HashKey::new(&bytes_of_digits(text, size), size))
    } else {
        None
    }
}
