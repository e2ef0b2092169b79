//! Bits that are kept 64 to a word.
ghost use Rattle.std.specs.Prelude.{◌≡◌, ◌≢◌, ℕ, ◌*◌, ◌+◌, ◌<◌, ◌≤◌, ◌==◌, ◌++◌, ◌∷◌, [], List, length, take, false, OnOk, IfOk};
ghost use Rattle.std.specs.Int.{bit_at};
ghost use Rattle.std.specs.Int.Bits.{bit_xor};
ghost use Rattle.std.specs.Simd.Lanes.{zip2, chunk, put_chunk};
ghost use Rattle.gf2_solve.specs.Sums.{bit, sum_of};
ghost use Rattle.gf2_solve.specs.Words.{bit_of, bits_in, low_sum, AreAdded};

use std::alloc::{AllocError, Global};
use std::simd::prelude::*;

/// A bit.
pub fn has_bit(words: &[u64], i: usize) -> bool
    requires { i < 64 * length words.now }
    ensures { result ≡ bit_of words.now i }
{
    (words[i / 64] >> (i % 64)) % 2 == 1
}

/// How many of the first so many bits there are without the zeros behind the last 1.
pub fn trimmed(words: &[u64], len: usize) -> usize
    requires { len ≤ 64 * length words.now }
    ensures within { result ≤ len }
    ensures zeros { (i : ℕ) → result ≤ i → i < len → bit_of words.now i ≡ false }
{
    let mut left = len;
    while left > 0 {
        let start = (left - 1) / 64 * 64;
        left = start + trimmed_word(words[start / 64], left - start);
        if left > start {
            return left;
        }
    }
    left
}

/// How many of the lowest so many bits of a word there are without the zeros above the last 1.
fn trimmed_word(word: u64, count: usize) -> usize
    requires some { 0 < count }
    requires fits { count ≤ 64 }
    ensures within { result ≤ count }
    ensures zeros { (i : ℕ) → result ≤ i → i < count → bit_at word i ≡ 0 }
{
    let low = word & (u64::MAX >> (64 - count));
    64 - low.leading_zeros() as usize
}

/// A word with a bit at a place.
fn with_bit(word: u64, place: usize, bit: bool) -> u64
    requires { place < 64 }
    ensures there { (bit_at result place == 1) ≡ bit }
    ensures others { (i : ℕ) → i < 64 → i ≢ place → bit_at result i ≡ bit_at word i }
{
    let one = 1u64 << place;
    if bit { word | one } else { word & !one }
}

/// The words of some bits.
#[tactic(auto, using(crate::proofs::PackedLemmas::words_none, crate::proofs::PackedLemmas::words_more, crate::proofs::PackedLemmas::words_all))]
pub fn words_of(alloc: Global, bits: &[bool]) -> Result<Vec<u64>, AllocError>
    ensures bits { IfOk result (λ words. bits_in words.items (length bits.now) ≡ bits.now) }
    ensures room { IfOk result (λ words. length bits.now ≤ 64 * length words.items) }
{
    let count = bits.len().div_ceil(64);
    let mut words = Vec::with_capacity(alloc, count)?;
    for k in 0..count {
        words.push(word_of(bits, 64 * k))?;
    }
    Ok(words)
}

/// The word of up to 64 bits from a place on.
fn word_of(bits: &[bool], from: usize) -> u64
    requires { from < length bits.now }
    ensures { (i : ℕ) → i < 64 → from + i < length bits.now
        → (bit_at result i == 1) ≡ bit bits.now (from + i) }
{
    let mut word = 0;
    for i in 0..(bits.len() - from).min(64) {
        word = with_bit(word, i, bits[from + i]);
    }
    word
}

/// Puts a bit behind the first so many.
pub fn put_bit(words: &mut Vec<u64>, len: usize, bit: bool) -> Result<(), AllocError>
    requires { len ≤ 64 * length words.old.items }
    ensures put { OnOk result (bits_in words.new.items (len + 1)
        ≡ bits_in words.old.items len ++ bit ∷ []) }
    ensures within { OnOk result (len < 64 * length words.new.items) }
    ensures before { len ≤ 64 * length words.new.items }
{
    let at = len / 64;
    if at == words.len() {
        words.push(with_bit(0, 0, bit))?;
        return Ok(());
    }
    words[at] = with_bit(words[at], len % 64, bit);
    Ok(())
}

/// Adds words to as many others or more, four at a time by lanes, and those left over one by one.
#[tactic(auto, using(crate::proofs::LaneLemmas::added_none, crate::proofs::LaneLemmas::added_four))]
pub fn add_words(row: &mut [u64], other: &[u64])
    requires { length other.now ≤ length row.old }
    ensures { AreAdded row.old other.now row.new }
{
    let fours = other.len() / 4;
    for k in 0..fours {
        add_four(row, other, 4 * k);
    }
    add_rest(row, other, 4 * fours);
}

/// Adds four words from a place on.
fn add_four(row: &mut [u64], other: &[u64], at: usize)
    requires row { at + 4 ≤ length row.old }
    requires other { at + 4 ≤ length other.now }
    ensures { row.new
        ≡ put_chunk at row.old (zip2 bit_xor (chunk at 4 row.old) (chunk at 4 other.now)) }
{
    let sum = u64x4::from_slice(&row[at..]) ^ u64x4::from_slice(&other[at..]);
    sum.copy_to_slice(&mut row[at..]);
}

/// Adds the words from a place on, where those before it are added.
#[tactic(auto, using(crate::proofs::LaneLemmas::added_more, crate::proofs::LaneLemmas::added_all))]
fn add_rest(row: &mut [u64], other: &[u64], from: usize)
    requires { length other.now ≤ length row.old }
    ensures { (start : List ℕ) → AreAdded start (take from other.now) row.old
        → AreAdded start other.now row.new }
{
    for k in from..other.len() {
        row[k] ^= other[k];
    }
}

/// The sum of the first so many bits where a vector has a 1.
pub fn sum_words(row: &[u64], x: &[u64], len: usize) -> bool
    requires row { len ≤ 64 * length row.now }
    requires x { len ≤ 64 * length x.now }
    ensures { result ≡ sum_of (bits_in row.now len) (bits_in x.now len) }
{
    let whole = len / 64;
    let sums = sum_whole(&row[..whole], x);
    if len % 64 == 0 {
        return is_odd(sums);
    }
    let rest = (1u64 << (len % 64)) - 1;
    is_odd(sums ^ (row[whole] & x[whole] & rest))
}

/// A word whose bits have the sum of all bits where a vector has a 1.
#[tactic(auto, using(crate::proofs::SharedLemmas::summed_none, crate::proofs::SharedLemmas::summed_more))]
fn sum_whole(row: &[u64], x: &[u64]) -> u64
    requires { length row.now ≤ length x.now }
    ensures { low_sum result 64
        ≡ sum_of (bits_in row.now (64 * length row.now)) (bits_in x.now (64 * length row.now)) }
{
    let mut sums = 0u64;
    for (k, word) in row.iter().enumerate() {
        sums ^= *word & x[k];
    }
    sums
}

/// The sum of the bits of a word.
fn is_odd(word: u64) -> bool
    ensures { result ≡ low_sum word 64 }
{
    word.count_ones() % 2 == 1
}
