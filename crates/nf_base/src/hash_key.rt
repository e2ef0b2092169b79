//! A key of the Toeplitz hash.
ghost use Rattle.std.specs.Prelude.{◌≡◌, ◌≤◌, length, take};
ghost use Rattle.nf_base.specs.Cards.{key_bytes};

use crate::card::KeySize;
use std::marker::Model;

/// A key of the Toeplitz hash, 40 or 52 bytes (Microsoft RSS). Contracts see it as these bytes.
#[derive(Drop)]
pub struct HashKey {
    bytes: [u8; 52],
    size: KeySize,
}

impl Model for HashKey {
    ghost use Rattle.std.specs.Prelude.{List, ℕ, take};
    ghost use Rattle.nf_base.specs.Cards.{key_bytes};

    ghost Value = { List ℕ };

    ghost view = { λ a. take (key_bytes a.size) a.bytes };
}

impl HashKey {
    /// The first bytes of some, as many as a key of a size has.
    pub fn new(bytes: &[u8; 52], size: KeySize) -> HashKey
        ensures { result ≡ take (key_bytes size) bytes.now }
    {
        HashKey {
            bytes: *bytes,
            size,
        }
    }

    pub fn as_slice(&self) -> &[u8]
        ensures value { result.now ≡ self.now }
        ensures least { 40 ≤ length self.now }
        ensures most { length self.now ≤ 52 }
    {
        &self.bytes[..self.size.bytes() as usize]
    }

    /// The same key once more.
    pub fn again(&self) -> HashKey
        ensures { result ≡ self.now }
    {
        HashKey {
            bytes: self.bytes,
            size: self.size,
        }
    }
}
