//! Made up systems over the keys of four ports.
ghost use Rattle.std.specs.Prelude.{◌≤◌};

use gf2_solve::{Bits, System};
use std::alloc::{AllocError, Global};

/// The keys of four ports, of each of which so many bits count: 127 where packets are of IPv4
/// alone, and 319 where they may be of IPv6.
#[derive(Clone, Copy)]
pub enum Keys {
    Four,
    Six,
}

impl Keys {
    /// The bits that count of one key.
    fn stride(self) -> u32
        ensures { result ≤ 319 }
    {
        match self {
            Keys::Four => 127,
            Keys::Six => 319,
        }
    }

    /// The bits of all keys.
    pub fn width(self) -> u32
        ensures { result ≤ 1276 }
    {
        4 * self.stride()
    }
}

/// The next number of a known sequence (Knuth's MMIX generator).
fn next(state: u64) -> u64 {
    state
        .wrapping_mul(0x5851_f42d_4c95_7f2d)
        .wrapping_add(0x1405_7b7e_f767_814f)
}

/// So many bits, of which about one in so many is a 1: none for 0.
pub fn scattered(alloc: Global, width: u32, seed: u64, one_in: u64) -> Result<Bits, AllocError> {
    let mut bits = Vec::with_capacity(alloc, width as usize)?;
    let mut state = next(seed);
    for _ in 0..width {
        state = next(state);
        bits.push(one_in > 0 && (state >> 33) % one_in == 0)?;
    }
    Ok(Bits(bits))
}

/// Of each key the bits from 25 on.
pub fn groups(alloc: Global, keys: Keys) -> Result<Vec<Bits>, AllocError> {
    let mut groups = Vec::new(alloc);
    let stride = keys.stride();
    for port in 0..4u32 {
        let from = stride * port;
        groups.push(ones_between(alloc, keys, from + 25, from + stride)?)?;
    }
    Ok(groups)
}

/// Bits with a 1 from one place on and before another.
fn ones_between(alloc: Global, keys: Keys, from: u32, to: u32) -> Result<Bits, AllocError> {
    let width = keys.width();
    let mut bits = Vec::with_capacity(alloc, width as usize)?;
    for i in 0..width {
        bits.push(from <= i && i < to)?;
    }
    Ok(Bits(bits))
}

/// Bits with a 1 at each of some places.
fn ones_at(alloc: Global, keys: Keys, places: &[u32]) -> Result<Bits, AllocError> {
    let width = keys.width();
    let mut bits = Vec::with_capacity(alloc, width as usize)?;
    for i in 0..width {
        bits.push(places.contains(&i))?;
    }
    Ok(Bits(bits))
}

/// The rows of a system of this name: none of another one.
pub fn rows(alloc: Global, keys: Keys, name: &str) -> Result<Vec<Bits>, AllocError> {
    let width = keys.width();
    match name {
        "dense" => scattered_rows(alloc, width, 10 * width, 2),
        "sparse" => scattered_rows(alloc, width, 10 * width, 100),
        "tight" => scattered_rows(alloc, width, width.saturating_sub(1), 2),
        "half" => scattered_rows(alloc, width, width / 2, 2),
        "repeated" => repeated_rows(alloc, keys),
        "joined" => joined_rows(alloc, keys),
        _ => Ok(Vec::new(alloc)),
    }
}

/// So many rows, of which fewer than the bits of a row differ.
fn scattered_rows(
    alloc: Global,
    width: u32,
    count: u32,
    one_in: u64,
) -> Result<Vec<Bits>, AllocError> {
    let mut rows = Vec::new(alloc);
    let differing = u64::from(width).saturating_sub(1).max(1);
    for i in 0..count {
        rows.push(scattered(alloc, width, u64::from(i) % differing, one_in)?)?;
    }
    Ok(rows)
}

/// All keys are equal.
fn repeated_rows(alloc: Global, keys: Keys) -> Result<Vec<Bits>, AllocError> {
    let mut rows = Vec::new(alloc);
    let stride = keys.stride();
    for i in 0..3 * stride {
        rows.push(ones_at(alloc, keys, &[i, i + stride])?)?;
    }
    Ok(rows)
}

/// Each key has one bit over and over from bit 25 on, and of the first three these bits have the
/// sum 0: so not all of these groups can be met.
fn joined_rows(alloc: Global, keys: Keys) -> Result<Vec<Bits>, AllocError> {
    let mut rows = Vec::new(alloc);
    let stride = keys.stride();
    for port in 0..4u32 {
        for i in 26..stride {
            let from = stride * port;
            rows.push(ones_at(alloc, keys, &[from + 25, from + i])?)?;
        }
    }
    rows.push(ones_at(alloc, keys, &[25, stride + 25, 2 * stride + 25])?)?;
    Ok(rows)
}

/// The system of some rows.
pub fn system(alloc: Global, width: u32, rows: &[Bits]) -> Result<System, AllocError> {
    let mut system = System::new(alloc, width)?;
    for row in rows {
        system.add(alloc, row)?;
    }
    Ok(system)
}
