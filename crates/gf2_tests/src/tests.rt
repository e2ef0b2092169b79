//! The solver against exhaustive search.
//!
//! Here a vector of `n` bits is a number, of which bit 0 of the vector is the highest of `n` bits.
//! So the nearer of two solutions is the one whose `xor` with the wanted vector is less.
ghost use Rattle.std.specs.Prelude.{◌≤◌};

use gf2_solve::{Bits, System};
use std::alloc::{AllocError, Global};
use std::test::Fail;

/// Of all vectors of `n` bits the admissible one whose `xor` with the wanted one is least.
fn least(n: u32, rows: &[u32], groups: &[u32], wanted: u32) -> Option<u32>
    requires { n ≤ 6 }
{
    for difference in 0..1u32 << n {
        let x = wanted ^ difference;
        if solves(rows, x) && meets(groups, x) {
            return Some(x);
        }
    }
    None
}

/// Whether each row has an even number of ones where a vector has ones.
fn solves(rows: &[u32], x: u32) -> bool {
    rows.iter().all(|row| (*row & x).count_ones() % 2 == 0)
}

/// Whether a vector has a 1 in each group.
fn meets(groups: &[u32], x: u32) -> bool {
    groups.iter().all(|group| *group & x != 0)
}

// The tests call the solver through these, which promise nothing: what the answers are is compared, and not proved.

fn bits_of(alloc: Global, n: u32, number: u32) -> Result<Bits, AllocError>
    requires { n ≤ 6 }
{
    let mut bits = Vec::with_capacity(alloc, n as usize)?;
    for i in 0..n {
        bits.push((number >> (n - 1 - i)) % 2 == 1)?;
    }
    Ok(Bits(bits))
}

fn all_bits_of(alloc: Global, n: u32, numbers: &[u32]) -> Result<Vec<Bits>, AllocError>
    requires { n ≤ 6 }
{
    let mut all = Vec::with_capacity(alloc, numbers.len())?;
    for number in numbers {
        all.push(bits_of(alloc, n, *number)?)?;
    }
    Ok(all)
}

/// The number of some bits, and how many they are.
fn number_of(bits: &Bits) -> (u32, usize) {
    let mut number = 0u32;
    for bit in bits.as_slice() {
        number = number.wrapping_mul(2).wrapping_add(u32::from(*bit));
    }
    (number, bits.len())
}

fn system_of(alloc: Global, n: u32, rows: &[u32]) -> Result<System, AllocError>
    requires { n ≤ 6 }
{
    let mut system = System::new(alloc, n)?;
    for row in rows {
        system.add(alloc, &bits_of(alloc, n, *row)?)?;
    }
    Ok(system)
}

fn nearest(
    alloc: Global,
    system: &System,
    wanted: &Bits,
    groups: &[Bits],
) -> Result<Option<(u32, usize)>, AllocError> {
    Ok(match system.nearest(alloc, wanted, groups)? {
        Some(x) => Some(number_of(&x)),
        None => None,
    })
}

/// How many wanted vectors are answered as exhaustive search does: all of them, or as many as come
/// before the first that isn't.
fn agreeing(
    alloc: Global,
    n: u32,
    system: &System,
    rows: &[u32],
    groups: &[u32],
) -> Result<u32, AllocError>
    requires { n ≤ 6 }
{
    let members = all_bits_of(alloc, n, groups)?;
    for wanted in 0..1u32 << n {
        let answer = nearest(
            alloc,
            system,
            &bits_of(alloc, n, wanted)?,
            members.as_slice(),
        )?;
        let expected = match least(n, rows, groups, wanted) {
            Some(x) => Some((x, n as usize)),
            None => None,
        };
        if answer != expected {
            return Ok(wanted);
        }
    }
    Ok(1u32 << n)
}

/// A list of `n` rows, digit by digit of a number.
fn rows_of(alloc: Global, n: u32, list: u32) -> Result<Vec<u32>, AllocError>
    requires { n ≤ 4 }
{
    let mut rows = Vec::new(alloc);
    for i in 0..n {
        rows.push((list >> (n * i)) % (1u32 << n))?;
    }
    Ok(rows)
}

/// How many wanted vectors are answered right of a system of these rows with these groups.
fn right(alloc: Global, n: u32, rows: &[u32], groups: &[u32]) -> Result<u32, AllocError>
    requires { n ≤ 6 }
{
    let system = system_of(alloc, n, rows)?;
    agreeing(alloc, n, &system, rows, groups)
}

/// Without groups, all lists of as many rows as there are bits.
#[test]
fn all_lists_of_rows_up_to_four_bits(rt: HostRuntime) -> Result<(), Fail> {
    let alloc = rt.alloc();
    for n in 0..5u32 {
        for list in 0..1u32 << (n * n) {
            let rows = rows_of(alloc, n, list)?;
            let right = right(alloc, n, rows.as_slice(), &[])?;
            assert_eq!(rt; right, 1u32 << n, "{n} bits, list {list}");
        }
    }
    Ok(())
}

/// Whether rows, as the ones of a number, are closed under sums, the row of zeros among them.
fn is_space(n: u32, set: u32) -> bool
    requires { n ≤ 4 }
{
    for a in 0..1u32 << n {
        for b in 0..1u32 << n {
            if has(set, a) && has(set, b) && !has(set, a ^ b) {
                return false;
            }
        }
    }
    has(set, 0)
}

/// Whether a set of rows has one.
fn has(set: u32, row: u32) -> bool {
    set.wrapping_shr(row) % 2 == 1
}

fn members_of(alloc: Global, n: u32, set: u32) -> Result<Vec<u32>, AllocError>
    requires { n ≤ 4 }
{
    let mut members = Vec::new(alloc);
    for row in 0..1u32 << n {
        if has(set, row) {
            members.push(row)?;
        }
    }
    Ok(members)
}

/// Of all systems of `n` bits one for each set of solutions: the rows that are closed under sums.
fn spaces(alloc: Global, n: u32) -> Result<Vec<Vec<u32>>, AllocError>
    requires { n ≤ 4 }
{
    let mut spaces = Vec::new(alloc);
    for set in 0..1u32.wrapping_shl(1u32 << n) {
        if is_space(n, set) {
            spaces.push(members_of(alloc, n, set)?)?;
        }
    }
    Ok(spaces)
}

/// All sets of up to three groups of `n` bits: `1 << n` stands for no group.
fn group_sets(alloc: Global, n: u32) -> Result<Vec<Vec<u32>>, AllocError>
    requires { n ≤ 4 }
{
    let none = 1u32 << n;
    let mut sets = Vec::new(alloc);
    for a in 0..none + 1 {
        for b in a..none + 1 {
            for c in b..none + 1 {
                sets.push(without(alloc, none, [a, b, c])?)?;
            }
        }
    }
    Ok(sets)
}

fn without(alloc: Global, none: u32, groups: [u32; 3]) -> Result<Vec<u32>, AllocError> {
    let mut kept = Vec::new(alloc);
    for group in groups {
        if group != none {
            kept.push(group)?;
        }
    }
    Ok(kept)
}

/// The first groups for which a system of these rows isn't answered right.
fn first_wrong(
    alloc: Global,
    n: u32,
    rows: &[u32],
    group_sets: &[Vec<u32>],
) -> Result<Option<usize>, AllocError>
    requires { n ≤ 4 }
{
    let system = system_of(alloc, n, rows)?;
    for (number, groups) in group_sets.iter().enumerate() {
        if agreeing(alloc, n, &system, rows, groups.as_slice())? != 1u32 << n {
            return Ok(Some(number));
        }
    }
    Ok(None)
}

/// The numbers of subspaces of GF(2)^n are the Galois numbers 1, 2, 5, 16, 67.
#[test]
fn all_systems_up_to_four_bits_with_three_groups(rt: HostRuntime) -> Result<(), Fail> {
    let alloc = rt.alloc();
    for (n, count) in [(0, 1), (1, 2), (2, 5), (3, 16), (4, 67)] {
        let spaces = spaces(alloc, n)?;
        assert_eq!(rt; spaces.len(), count);
        let group_sets = group_sets(alloc, n)?;
        for rows in &spaces {
            let wrong = first_wrong(alloc, n, rows.as_slice(), group_sets.as_slice())?;
            assert_eq!(rt; wrong, None, "{rows:?}");
        }
    }
    Ok(())
}

/// The next number of a known sequence (Knuth's MMIX generator).
fn next(state: u64) -> u64 {
    state
        .wrapping_mul(0x5851_f42d_4c95_7f2d)
        .wrapping_add(0x1405_7b7e_f767_814f)
}

/// Numbers below 64, made up.
fn made_up(alloc: Global, seed: u64, count: u64) -> Result<Vec<u32>, AllocError> {
    let mut numbers = Vec::new(alloc);
    let mut state = next(next(seed));
    for _ in 0..count {
        state = next(state);
        numbers.push(((state >> 40) % 64) as u32)?;
    }
    Ok(numbers)
}

/// How many wanted vectors are answered right of a made up system of up to six rows with up to three groups.
fn right_of(alloc: Global, n: u32, seed: u64) -> Result<u32, AllocError>
    requires { n ≤ 6 }
{
    let rows = made_up(alloc, seed, seed / 2 % 7)?;
    let groups = made_up(alloc, seed.saturating_add(1_000_000), seed / 14 % 4)?;
    right(alloc, n, rows.as_slice(), groups.as_slice())
}

#[test]
fn some_systems_of_five_and_six_bits(rt: HostRuntime) -> Result<(), Fail> {
    for seed in 0..20_000u64 {
        let n = if seed % 2 == 0 { 5 } else { 6 };
        let right = right_of(rt.alloc(), n, seed)?;
        assert_eq!(rt; right, 1u32 << n, "{n} bits, seed {seed}");
    }
    Ok(())
}
