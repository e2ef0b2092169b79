//! The solver over rows of many words, with a known answer.
use crate::systems::{scattered, system};
use gf2_solve::Bits;
use std::alloc::{AllocError, Global};
use std::test::Fail;

/// Rows, and the solution of them nearest a wanted vector.
///
/// A bit is free, or it is the sum of some bits before it. So the nearest solution has the wanted
/// bits where they are free.
#[derive(Drop)]
struct Made {
    rows: Vec<Bits>,
    nearest: Vec<bool>,
    /// The last free bit: none where none is free.
    free: Option<usize>,
}

/// A made up system of so many bits.
fn known(alloc: Global, width: u32, seed: u32, wanted: &Bits) -> Result<Made, AllocError> {
    let mut rows = Vec::new(alloc);
    let mut nearest = Vec::new(alloc);
    let mut free = None;
    for i in 0..width {
        if i.wrapping_mul(seed) % 5 < 2 {
            free = Some(i as usize);
            nearest.push(wanted.bit(i as usize))?;
        } else {
            let mut row = scattered(alloc, i, u64::from(seed) << 32 | u64::from(i), 2)?.0;
            nearest.push(sum(row.as_slice(), nearest.as_slice()))?;
            row.push(true)?;
            rows.push(Bits(row))?;
        }
    }
    Ok(Made {
        rows,
        nearest,
        free,
    })
}

/// The sum modulo 2 of the bits of a row where a vector has a 1.
fn sum(row: &[bool], x: &[bool]) -> bool {
    let mut sum = false;
    for (a, b) in row.iter().zip(x) {
        sum ^= *a && *b;
    }
    sum
}

/// Of each row the sum with all rows behind it: other rows with the same solutions.
fn mixed(alloc: Global, width: u32, rows: &[Bits]) -> Result<Vec<Bits>, AllocError> {
    let mut mixed = Vec::new(alloc);
    let mut sum = Vec::new(alloc);
    sum.resize(width as usize, false)?;
    for row in rows.iter().rev() {
        let mut bits = Vec::new(alloc);
        for (i, bit) in sum.iter().enumerate() {
            bits.push(*bit ^ row.bit(i))?;
        }
        mixed.push(Bits(bits.clone()?))?;
        sum = bits;
    }
    Ok(mixed)
}

/// Bits with a 1 at a place, where they have it.
fn with_one(alloc: Global, bits: &Bits, place: usize) -> Result<Bits, AllocError> {
    let mut ones = Vec::new(alloc);
    for (i, bit) in bits.as_slice().iter().enumerate() {
        ones.push(*bit || i == place)?;
    }
    Ok(Bits(ones))
}

/// Whether a made up system is answered as it was made, without groups.
fn is_right(alloc: Global, width: u32, seed: u32, one_in: u64) -> Result<bool, AllocError> {
    let wanted = scattered(alloc, width, u64::from(seed), one_in)?;
    let made = known(alloc, width, seed, &wanted)?;
    answers(alloc, width, &made, &wanted, &[])
}

/// The same with a group that has the last free bit alone: that is 1 then, and all bits before it
/// are as they were.
fn is_right_with_group(
    alloc: Global,
    width: u32,
    seed: u32,
    one_in: u64,
) -> Result<bool, AllocError> {
    let wanted = scattered(alloc, width, u64::from(seed), one_in)?;
    let Some(free) = known(alloc, width, seed, &wanted)?.free else {
        return Ok(width == 0);
    };
    let made = known(alloc, width, seed, &with_one(alloc, &wanted, free)?)?;
    let none = scattered(alloc, width, 0, 0)?;
    let group = with_one(alloc, &none, free)?;
    answers(alloc, width, &made, &wanted, &[group])
}

/// Whether a system is answered as it was made.
fn answers(
    alloc: Global,
    width: u32,
    made: &Made,
    wanted: &Bits,
    groups: &[Bits],
) -> Result<bool, AllocError> {
    let rows = mixed(alloc, width, made.rows.as_slice())?;
    let system = system(alloc, width, rows.as_slice())?;
    Ok(match system.nearest(alloc, wanted, groups)? {
        Some(x) => x.as_slice() == made.nearest.as_slice(),
        None => false,
    })
}

/// Widths about the ends of words and of four words, and those that keys have.
const WIDTHS: [u32; 19] = [
    0, 1, 2, 63, 64, 65, 127, 128, 129, 191, 193, 255, 256, 257, 319, 320, 321, 508, 1276,
];

/// How many ones a wanted vector has: none, all, half or a fifth.
const WANTED: [(u32, u64); 4] = [(3, 0), (7, 1), (1, 2), (9, 5)];

#[test]
fn systems_of_many_words_are_answered_as_they_were_made(rt: HostRuntime) -> Result<(), Fail> {
    for width in WIDTHS {
        for (seed, one_in) in WANTED {
            let right = is_right(rt.alloc(), width, seed, one_in)?;
            assert!(rt; right, "{width} bits, seed {seed}");
        }
    }
    Ok(())
}

#[test]
fn the_last_free_bit_is_one_where_a_group_has_it_alone(rt: HostRuntime) -> Result<(), Fail> {
    for width in WIDTHS {
        for (seed, one_in) in WANTED {
            let right = is_right_with_group(rt.alloc(), width, seed, one_in)?;
            assert!(rt; right, "{width} bits, seed {seed}");
        }
    }
    Ok(())
}
