//! The wanted bits: those of the default key, for each port.
ghost use Rattle.std.specs.Prelude.{◌≡◌, ◌==◌, ◌<◌, ◌≤◌, IfOk};
ghost use Rattle.toeplitz_hash.specs.Bits.{bit_of};
ghost use Rattle.key_rows.specs.Systems.{default_bits};

use gf2_solve::Bits;
use std::alloc::{AllocError, Global};
use toeplitz_hash::DEFAULT_KEY;

/// The first 319 bits of the default key, once for each port.
pub fn default_bits(alloc: Global, ports: u32) -> Result<Bits, AllocError>
    requires { ports ≤ 4 }
    ensures { IfOk result (λ bits. bits ≡ default_bits ports) }
{
    let mut bits = Vec::new(alloc);
    for m in 0..319 * ports {
        bits.push(bit_of_key(&DEFAULT_KEY, (m % 319) as usize))?;
    }
    Ok(Bits(bits))
}

/// A bit of a key.
fn bit_of_key(key: &[u8; 40], i: usize) -> bool
    requires { i < 320 }
    ensures { result ≡ (bit_of key.now i == 1) }
{
    (key[i / 8] >> (7 - i % 8)) % 2 == 1
}
