//! Keys from a solution of the equations.
ghost use Rattle.std.specs.Prelude.{◌≡◌, ◌+◌, ◌*◌, ◌<◌, ◌≤◌, ℕ, IfOk, length, map};
ghost use Rattle.std.specs.List.{range_with_len};
ghost use Rattle.key_rows.specs.Positions.{positions_at};
ghost use Rattle.key_rows.specs.Solutions.{solution_bit, byte_of, key_of, given_key};

use crate::keyed::is_keyed;
use crate::place::Object;
use crate::positions::positions_at;
use gf2_solve::Bits;
use nf_base::card::KeySize;
use nf_base::hash_key::HashKey;
use nf_base::limited::Limited;
use std::alloc::{AllocError, Global};
use toeplitz_hash::default_key;

/// The keys of all ports, from a solution's bits: a port that is not keyed has the default key.
pub fn ports_from(
    alloc: Global,
    six: &[bool],
    objects: &[Object],
    bits: &[bool],
    size: KeySize,
) -> Result<Limited<HashKey, 4>, AllocError>
    requires four { length six.now ≤ 4 }
    requires long { length bits.now ≡ 319 * length six.now }
    ensures { IfOk result (λ keys.
        keys
        ≡ map (given_key size (positions_at six.now objects.now) objects.now bits.now)
        (range_with_len 0 (length six.now))) }
{
    let mut keys = Limited::new(alloc);
    for port in 0..six.len() as u32 {
        keys.push(key_given(six, objects, bits, port, size))?;
    }
    Ok(keys)
}

/// The key of a port.
fn key_given(six: &[bool], objects: &[Object], bits: &[bool], port: u32, size: KeySize) -> HashKey
    requires port { port < 4 }
    requires long { 319 * port + 319 ≤ length bits.now }
    ensures { result ≡ given_key size (positions_at six.now objects.now) objects.now bits.now port }
{
    if is_keyed(objects, port) {
        key_from(bits, port as usize, positions_at(six, objects, port), size)
    } else {
        default_key(size)
    }
}

/// The key of a keyed port, of which so many bits count. Those past these are 0.
fn key_from(bits: &[bool], port: usize, count: usize, size: KeySize) -> HashKey
    requires port { port < 4 }
    requires long { 319 * port + 319 ≤ length bits.now }
    requires count { count ≤ 319 }
    ensures { result ≡ key_of size bits.now port count }
{
    let mut bytes = [0; 52];
    for i in 0..52 {
        bytes[i] = byte_from(bits, port, count, i);
    }
    HashKey::new(&bytes, size)
}

/// Byte `i` of the key of a port.
fn byte_from(bits: &[bool], port: usize, count: usize, i: usize) -> u8
    requires port { port < 4 }
    requires long { 319 * port + 319 ≤ length bits.now }
    requires count { count ≤ 319 }
    requires byte { i < 52 }
    ensures { result ≡ byte_of bits.now port count i }
{
    let mut byte = 0;
    for j in 0..8 {
        byte = byte * 2 + bit_from(bits, port, count, 8 * i + j);
    }
    byte
}

/// Bit `i` of the key of a port, 0 or 1.
fn bit_from(bits: &[bool], port: usize, count: usize, i: usize) -> u8
    requires port { port < 4 }
    requires long { 319 * port + 319 ≤ length bits.now }
    requires count { count ≤ 319 }
    requires bit { i < 416 }
    ensures value { result ≡ solution_bit bits.now port count i }
    ensures bit { result < 2 }
{
    u8::from(i < count && bits[319 * port + i])
}
