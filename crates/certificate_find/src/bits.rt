//! Sets of at most 1,280 numbers: bits of four keys, or rows that are kept.
use std::alloc::{AllocError, Global};

/// How many words of 64 bits a set has.
const WORDS: usize = 20;

/// A set of numbers below 1,280.
#[derive(Clone, Copy)]
pub struct Bits {
    words: [u64; 20],
}

impl Bits {
    /// No number.
    pub fn none() -> Bits {
        Bits { words: [0; 20] }
    }

    /// Whether a number is in the set.
    pub fn has(&self, i: usize) -> bool {
        match self.words.get(i / 64) {
            Some(word) => (*word >> (i % 64)) % 2 == 1,
            None => false,
        }
    }

    /// Puts a number in, or takes it out.
    pub fn flip(&mut self, i: usize) {
        if i / 64 < WORDS {
            self.words[i / 64] = self.words[i / 64] ^ (1u64 << (i % 64));
        }
    }

    /// The numbers that are in one of both sets alone.
    pub fn add(&mut self, other: &Bits) {
        for k in 0..WORDS {
            self.words[k] = self.words[k] ^ other.words[k];
        }
    }

    /// The numbers that are in one of both sets.
    pub fn join(&mut self, other: &Bits) {
        for k in 0..WORDS {
            self.words[k] = self.words[k] | other.words[k];
        }
    }

    /// The numbers that are in a word of this set and not in another set.
    fn left(&self, other: &Bits, k: usize) -> u64 {
        match (self.words.get(k), other.words.get(k)) {
            (Some(a), Some(b)) => *a & !*b,
            _ => 0,
        }
    }

    /// The greatest number in a word of this set that is not in another set.
    pub fn last_in(&self, other: &Bits, k: usize) -> Option<usize> {
        let word = self.left(other, k);
        if word == 0 || k >= WORDS {
            return None;
        }
        Some(64 * k + (63 - word.leading_zeros() as usize))
    }

    /// Whether an odd number of numbers is in both sets.
    pub fn is_odd(&self, other: &Bits) -> bool {
        let mut odd = false;
        for k in 0..WORDS {
            odd = odd ^ ((self.words[k] & other.words[k]).count_ones() % 2 == 1);
        }
        odd
    }

    /// The numbers, in order.
    pub fn numbers(&self, alloc: Global) -> Result<Vec<u32>, AllocError> {
        let mut numbers = Vec::new(alloc);
        for i in 0..1280u32 {
            if self.has(i as usize) {
                numbers.push(i)?;
            }
        }
        Ok(numbers)
    }
}
