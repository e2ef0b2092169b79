//! The rows of equations.
ghost use Rattle.std.specs.Prelude.{◌≡◌, ◌≤◌, ◌++◌, ◌∷◌, [], length, take, true, false, replicate, IfOk, OnOk, MatchOption};
ghost use Rattle.std.specs.Int.{div_ceil};
ghost use Rattle.gf2_solve.specs.Sums.{sum_of, IsSumOf, HasSameSums};
ghost use Rattle.gf2_solve.specs.Words.{bits_in};

use crate::bits::Bits;
use crate::words::{add_words, has_bit, put_bit, sum_words, trimmed, words_of};
use std::alloc::{AllocError, Global};
use std::marker::Model;

/// A row of bits, 64 to a word.
///
/// Bit `i` is bit `i % 64` of word `i / 64`, counted from the lowest. What the words have past the
/// row's end doesn't matter. Contracts see the list of the bits.
#[derive(Drop)]
pub struct Row {
    words: Vec<u64>,
    len: usize,
}

impl Model for Row {
    ghost use Rattle.std.specs.Prelude.{List, Bool, length, ◌*◌, ◌≤◌};
    ghost use Rattle.gf2_solve.specs.Words.{bits_in};

    ghost Value = { List Bool };

    ghost view = { λ row. bits_in row.words.items row.len };

    ghost invariant = { λ row. row.len ≤ 64 * length row.words.items };
}

impl Row {
    /// So many zeros.
    pub fn zeros(alloc: Global, count: usize) -> Result<Row, AllocError>
        ensures { IfOk result (λ row. row ≡ replicate count false) }
    {
        let words = vec![in alloc; 0u64; count / 64 + 1]?;
        Ok(Row { words, len: count })
    }

    /// No bits, with room for so many.
    pub fn with_capacity(alloc: Global, count: usize) -> Result<Row, AllocError>
        ensures { IfOk result (λ row. row ≡ []) }
    {
        let words = Vec::with_capacity(alloc, count.div_ceil(64))?;
        Ok(Row { words, len: 0 })
    }

    /// A row whose sum is bit `i` of a vector.
    pub fn one(alloc: Global, i: usize) -> Result<Row, AllocError>
        ensures { IfOk result (λ row. row ≡ replicate i false ++ true ∷ []) }
    {
        let mut row = Row::zeros(alloc, i)?;
        row.push(true)?;
        Ok(row)
    }

    /// The first so many of some bits, and all where there are no more.
    pub fn front(alloc: Global, bits: &Bits, count: usize) -> Result<Row, AllocError>
        ensures { IfOk result (λ row. row ≡ take count bits.now) }
    {
        let front = &bits.as_slice()[..count.min(bits.len())];
        let words = words_of(alloc, front)?;
        Ok(Row {
            words,
            len: front.len(),
        })
    }

    /// The same row once more.
    pub fn copy(&self, alloc: Global) -> Result<Row, AllocError>
        ensures { IfOk result (λ copy. copy ≡ self.now) }
    {
        let blocks = self.blocks();
        let mut words = Vec::with_capacity(alloc, blocks.len())?;
        words.extend_from_slice(blocks)?;
        Ok(Row {
            words,
            len: self.len,
        })
    }

    /// How many bits.
    pub fn len(&self) -> usize
        ensures { result ≡ length self.now }
    {
        self.len
    }

    /// The words that have bits.
    fn blocks(&self) -> &[u64]
        ensures bits { bits_in result.now (length self.now) ≡ self.now }
        ensures length { length result.now ≡ div_ceil (length self.now) 64 }
    {
        &self.words.as_slice()[..self.len.div_ceil(64)]
    }

    /// Puts a bit behind the last.
    pub fn push(&mut self, bit: bool) -> Result<(), AllocError>
        ensures { OnOk result (self.new ≡ self.old ++ bit ∷ []) }
    {
        // No memory holds as many bits as that.
        let Some(len) = self.len.checked_add(1) else {
            return Err(AllocError);
        };
        put_bit(&mut self.words, self.len, bit)?;
        self.len = len;
        Ok(())
    }

    /// Takes the last bit off.
    pub fn pop(&mut self) -> Option<bool>
        ensures { MatchOption result (self.old ≡ []) (λ last. self.old ≡ self.new ++ last ∷ []) }
    {
        if self.len == 0 {
            return None;
        }
        self.len -= 1;
        Some(has_bit(self.words.as_slice(), self.len))
    }

    /// Takes zeros off the end.
    pub fn trim(&mut self)
        ensures sums { HasSameSums self.new self.old }
        ensures shorter { length self.new ≤ length self.old }
    {
        self.len = trimmed(self.words.as_slice(), self.len);
    }

    /// Adds a row of as many bits.
    pub fn add(&mut self, other: &Row)
        requires { length other.now ≡ length self.old }
        ensures sums { IsSumOf self.old other.now self.new }
        ensures length { length self.new ≡ length self.old }
    {
        add_words(self.words.as_mut_slice(), other.blocks());
    }

    /// The sum modulo 2 of the bits where a vector has a 1.
    pub fn sum(&self, x: &Row) -> bool
        requires { length self.now ≤ length x.now }
        ensures { result ≡ sum_of self.now x.now }
    {
        sum_words(self.blocks(), x.blocks(), self.len)
    }
}
