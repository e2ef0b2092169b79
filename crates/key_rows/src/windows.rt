//! The parts of two keys that the fields of two inputs meet.
ghost use Rattle.std.specs.Prelude.{◌≡◌, ◌+◌, ◌*◌, ◌<◌, ◌≤◌, ℕ, IsTrue, IfOk, false, length, slice_index};
ghost use Rattle.nf_base.specs.declared.keys.Keys.{Keys};
ghost use Rattle.key_rows.specs.Classes.{width_at, end_at};
ghost use Rattle.nf_base.specs.Hashed.{address_width};
ghost use Rattle.key_rows.specs.Rows.{IsWithinAt, AreWindowsOf, IsRowOf, numbered_bit, window_at};

use crate::classes::classes_of;
use crate::place::Place;
use gf2_solve::Bits;
use nf_base::packet::Family;
use std::alloc::{AllocError, Global};

/// How many bits of the keys of four ports matter.
const BITS: usize = 1276;

/// Two ports, and which of the eight fields of two inputs, one at each, have to be equal.
#[derive(Clone, Copy)]
pub struct Windows {
    pub first: u32,
    pub second: u32,
    pub first_family: Family,
    pub second_family: Family,
    /// The class of each field, which is one of its fields.
    pub classes: [usize; 8],
}

/// How many bits an address has.
fn address_width(family: Family) -> u32
    ensures value { result ≡ address_width family }
    ensures within { result ≤ 128 }
{
    match family {
        Family::Four => 32,
        Family::Six => 128,
    }
}

/// How many bits one of the eight fields has.
fn width_at(first: Family, second: Family, n: usize) -> u32
    requires { n < 8 }
    ensures value { result ≡ width_at first second n }
    ensures within { result ≤ 128 }
{
    let a = address_width(first);
    let b = address_width(second);
    [a, a, 16, 16, b, b, 16, 16][n]
}

/// Behind which bit of its input one of the eight fields ends.
#[tactic(auto, using(crate::proofs::Rowed::ends_within, crate::proofs::Rowed::ends_wide))]
fn end_at(first: Family, second: Family, n: usize) -> u32
    requires { n < 8 }
    ensures value { result ≡ end_at first second n }
    ensures within { result ≤ 288 }
    ensures wide { width_at first second n ≤ result }
{
    let a = address_width(first);
    let b = address_width(second);
    [
        a,
        a + a,
        a + a + 16,
        a + a + 16 + 16,
        b,
        b + b,
        b + b + 16,
        b + b + 16 + 16,
    ][n]
}

/// The windows of two places.
pub fn windows_of(first: &Place, second: &Place) -> Windows
    requires { length first.now.known ≡ length second.now.known }
    ensures { AreWindowsOf first.now second.now result }
{
    Windows {
        first: first.port,
        second: second.port,
        first_family: first.family,
        second_family: second.family,
        classes: classes_of(first.known.as_slice(), second.known.as_slice()),
    }
}

/// Whether bit `u` is in the window of each field of class `k`.
pub fn is_within(windows: &Windows, k: usize, u: u32) -> bool
    ensures yes { IsTrue result → IsWithinAt windows.now k u }
    ensures no { result ≡ false → IsWithinAt windows.now k u → ⊥ }
{
    for n in 0..8 {
        if windows.classes[n] == k
            && u >= width_at(windows.first_family, windows.second_family, n) + 31
        {
            return false;
        }
    }
    true
}

/// The row that adds up bit `u` of the windows of all fields of class `k`.
#[tactic(auto, using(crate::proofs::Rowed::row_none, crate::proofs::Rowed::row_with, crate::proofs::Rowed::row_without, crate::proofs::Rowed::row_all))]
pub fn row(alloc: Global, windows: &Windows, k: usize, u: u32) -> Result<Bits, AllocError>
    requires within { IsWithinAt windows.now k u }
    requires first { windows.now.first < 4 }
    requires second { windows.now.second < 4 }
    ensures { IfOk result (IsRowOf windows.now k u) }
{
    let mut bits = vec![in alloc; false; BITS]?;
    for n in 0..8 {
        if windows.classes[n] == k {
            let place = bit_number(windows, n, u);
            bits[place] = !bits[place];
        }
    }
    Ok(Bits(bits))
}

/// The number of bit `u` of the window of a field. Bit `i` of the key of port `p` has the number
/// `319 * p + i`.
fn bit_number(windows: &Windows, n: usize, u: u32) -> usize
    requires field { n < 8 }
    requires bit { u < width_at windows.now.first_family windows.now.second_family n + 31 }
    requires first { windows.now.first < 4 }
    requires second { windows.now.second < 4 }
    ensures value { (keys : Keys) → numbered_bit keys result ≡ window_at keys windows.now n u }
    ensures within { (ports : ℕ) → windows.now.first < ports → windows.now.second < ports →
        result < 319 * ports }
{
    let port = if n < 4 { windows.first } else { windows.second };
    let end = end_at(windows.first_family, windows.second_family, n);
    (319 * port + end + 30 - u) as usize
}
