//! Bits in order, and their sums modulo 2.
ghost use Rattle.std.specs.Prelude.{◌≡◌, length, IfOk};
ghost use Rattle.gf2_solve.specs.Sums.{plus, bit};

use std::alloc::{AllocError, Global};
use std::marker::Model;

/// Bits in order, from bit 0 on: a row, a vector, or a group, which has as members the places of
/// its ones. Bits past the end are 0.
///
/// Contracts see the list of the bits.
#[derive(Drop)]
pub struct Bits(pub Vec<bool>);

impl Model for Bits {
    ghost use Rattle.std.specs.Prelude.{List, Bool};

    ghost Value = { List Bool };

    ghost view = { λ b. b.0.items };
}

impl Bits {
    /// The same bits once more.
    pub fn copy(&self, alloc: Global) -> Result<Bits, AllocError>
        ensures { IfOk result (λ copy. copy ≡ self.now) }
    {
        let mut bits = Vec::with_capacity(alloc, self.0.len())?;
        bits.extend_from_slice(&self.0)?;
        Ok(Bits(bits))
    }

    /// How many bits.
    pub fn len(&self) -> usize
        ensures { result ≡ length self.now }
    {
        self.0.len()
    }

    /// The bits.
    pub fn as_slice(&self) -> &[bool]
        ensures { result.now ≡ self.now }
    {
        self.0.as_slice()
    }

    /// A bit, 0 past the end.
    pub fn bit(&self, i: usize) -> bool
        ensures { result ≡ bit self.now i }
    {
        match self.0.get(i) {
            Some(bit) => *bit,
            None => false,
        }
    }
}

/// The sum modulo 2 of two bits.
pub(crate) fn plus(a: bool, b: bool) -> bool
    ensures { result ≡ plus a b }
{
    a ^ b
}
