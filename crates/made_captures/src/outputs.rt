//! The outputs of a run, and how many bytes they were given.
ghost use Rattle.std.specs.Prelude.{◌≡◌, ◌≤◌, ◌+◌, ◌<◌, ◌^◌};
ghost use Rattle.made_captures.specs.Outputs.{is_output, with_bytes};

use std::marker::Model;

/// Files that follow one another, the outputs of a run, and how many bytes they were given, modulo 2^64.
/// The journal is the next file behind them.
#[derive(Debug, Drop)]
pub struct Outputs {
    first: u32,
    count: u32,
    bytes: u64,
}

impl Model for Outputs {
    ghost use Rattle.std.specs.Prelude.{◌≤◌, ◌<◌, ◌^◌, ◌+◌};
    ghost use Rattle.made_captures.specs.Outputs.{Counting};

    ghost Value = { Counting };

    ghost view = { λ o. record { first = o.first; count = o.count; bytes = o.bytes } };

    ghost invariant = { λ o. (2 ≤ o.first) × (o.first + o.count < 2 ^ 32) × (o.bytes < 2 ^ 64) };
}

impl Outputs {
    /// So many files from a number on, to which nothing was given yet.
    pub fn new(first: u32, count: u32) -> Outputs
        requires from_two { 2 ≤ first }
        requires fit { first + count < 2 ^ 32 }
        ensures { result ≡ record { first = first; count = count; bytes = 0 } }
    {
        Outputs {
            first,
            count,
            bytes: 0,
        }
    }

    /// How many bytes they were given, modulo 2^64.
    pub fn bytes(&self) -> u64
        ensures { result ≡ self.now.bytes }
    {
        self.bytes
    }

    // What holds of any of them.
    pub(crate) fn are_numbered(&self)
        ensures from_two { 2 ≤ self.now.first }
        ensures fits { self.now.bytes < 2 ^ 64 }
    {
        let _ = &self.first;
    }

    fn is_output(&self, file: u32) -> bool
        ensures { result ≡ is_output self.now file }
    {
        self.first <= file && file < self.first + self.count
    }

    /// Counts bytes that a file was given.
    pub(crate) fn add(&mut self, file: u32, count: usize)
        ensures { self.new ≡ with_bytes self.old file count }
    {
        if self.is_output(file) {
            self.bytes = self.bytes.wrapping_add(count as u64);
        }
    }
}
