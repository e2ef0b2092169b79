//! Rows in echelon form, each with the rows that it sums up.
use crate::bits::Bits;
use std::alloc::{AllocError, Global};

/// A sum of rows: which ones, and its bits.
#[derive(Clone, Copy)]
pub struct Combination {
    pub rows: Bits,
    pub bits: Bits,
}

impl Combination {
    pub fn add(&mut self, other: &Combination) {
        self.rows.add(&other.rows);
        self.bits.add(&other.bits);
    }
}

/// Sums of rows by the last bit that isn't fixed of each.
#[derive(Drop)]
pub struct Echelon {
    leading: Vec<Option<Combination>>,
    /// The bits that are fixed.
    fixed: Bits,
}

impl Echelon {
    /// No rows, over 1,280 bits of which some are fixed.
    pub fn new(alloc: Global, fixed: Bits) -> Result<Echelon, AllocError> {
        let mut leading = Vec::new(alloc);
        for _i in 0..1280 {
            leading.push(None)?;
        }
        Ok(Echelon { leading, fixed })
    }

    /// The sum that leads at a bit.
    pub fn at(&self, place: usize) -> Option<Combination> {
        match self.leading.get(place) {
            Some(Some(lead)) => Some(*lead),
            Some(None) => None,
            None => None,
        }
    }

    /// Reduces a sum in one word of its bits, and says at which bit it leads there, if at any.
    fn reduce_word(&self, rest: &mut Combination, k: usize) -> Option<usize> {
        for _i in 0..64 {
            let Some(place) = rest.bits.last_in(&self.fixed, k) else {
                return None;
            };
            match self.at(place) {
                Some(lead) => rest.add(&lead),
                None => return Some(place),
            }
        }
        None
    }

    /// Reduces a sum until it leads at a bit that isn't fixed and at which no other does, and says
    /// at which, if at any.
    pub fn reduce(&self, rest: &mut Combination) -> Option<usize> {
        for k in (0..20).rev() {
            if let Some(place) = self.reduce_word(rest, k) {
                return Some(place);
            }
        }
        None
    }

    /// Takes a sum that leads at a bit.
    pub fn put(&mut self, place: usize, row: Combination) {
        if place < self.leading.len() {
            self.leading[place] = Some(row);
        }
    }
}
