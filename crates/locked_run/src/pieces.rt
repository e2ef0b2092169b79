//! Bytes that are kept in large pieces of memory.
ghost use Rattle.std.specs.Prelude.{◌≡◌, ◌+◌, ◌-◌, ◌<◌, ◌≤◌, [], length, IfOk, OnOk, slice_index_or};
ghost use Rattle.std.specs.Bool.{OnTrue};
ghost use Rattle.locked_run.specs.Pieces.{bytes_at, LiesIn, StayIn, HasRoom};

use std::alloc::{AllocError, Global};
use std::marker::Model;

/// A piece has room for so many bytes.
const PIECE: usize = 1_048_576;

/// The number of a piece is no more.
const MOST: usize = 4_294_967_295;

/// Where bytes lie among pieces.
#[derive(Clone, Copy, Debug, PartialEq, Eq)]
pub(crate) struct Spot {
    /// The number of their piece, from 0.
    piece: u32,
    /// Where they begin there.
    start: u32,
    /// How many bytes they are.
    count: u32,
}

/// Bytes in pieces of memory of 1 MiB, which are filled one after another: what was put there stays
/// where it is.
///
/// Contracts see the bytes of each piece.
#[derive(Drop)]
pub(crate) struct Pieces {
    all: Vec<Vec<u8>>,
}

impl Model for Pieces {
    ghost use Rattle.std.specs.Prelude.{List, ℕ, map};

    ghost Value = { List (List ℕ) };

    ghost view = { λ p. map (λ v. v.items) p.all.items };
}

impl Pieces {
    /// None yet.
    pub(crate) fn new(alloc: Global) -> Pieces
        ensures { result ≡ [] }
    {
        Pieces {
            all: Vec::new(alloc),
        }
    }

    /// The bytes that lie at a spot.
    pub(crate) fn at(&self, spot: Spot) -> &[u8]
        requires { LiesIn self.now spot }
        ensures { result.now ≡ bytes_at self.now spot }
    {
        let piece = self.all[spot.piece as usize].as_slice();
        let start = spot.start as usize;
        &piece[start..start + spot.count as usize]
    }

    // How many bytes the last piece holds.
    fn last_len(&self) -> usize
        requires { 0 < length self.now }
        ensures { result ≡ length (slice_index_or self.now (length self.now - 1) []) }
    {
        self.all[self.all.len() - 1].len()
    }

    // Sees to it that the last piece has room for so many bytes more.
    fn make_room(&mut self, alloc: Global, count: usize) -> Result<(), AllocError>
        requires { count ≤ 1048576 }
        ensures room { OnOk result (HasRoom count self.new) }
        ensures stay { StayIn self.old self.new }
    {
        if !self.all.is_empty() && self.last_len() <= PIECE - count {
            return Ok(());
        }
        let piece = Vec::with_capacity(alloc, PIECE)?;
        self.all.push(piece)?;
        Ok(())
    }

    // Puts bytes behind those of a piece.
    fn append(&mut self, piece: u32, bytes: &[u8]) -> Result<Spot, AllocError>
        requires piece { piece < length self.old }
        requires room { length (slice_index_or self.old piece []) + length bytes.now ≤ 1048576 }
        ensures lies { IfOk result (LiesIn self.new) }
        ensures bytes { IfOk result (λ spot. bytes_at self.new spot ≡ bytes.now) }
        ensures stay { StayIn self.old self.new }
    {
        let held = &mut self.all[piece as usize];
        let start = held.len() as u32;
        match held.extend_from_slice(bytes) {
            Ok(()) => {}
            Err(refused) => return Err(refused),
        }
        Ok(Spot {
            piece,
            start,
            count: bytes.len() as u32,
        })
    }

    /// Puts bytes into the last piece, or into a new one.
    pub(crate) fn put(&mut self, alloc: Global, bytes: &[u8]) -> Result<Spot, AllocError>
        requires { length bytes.now ≤ 1048576 }
        ensures lies { IfOk result (LiesIn self.new) }
        ensures bytes { IfOk result (λ spot. bytes_at self.new spot ≡ bytes.now) }
        ensures stay { StayIn self.old self.new }
    {
        match self.make_room(alloc, bytes.len()) {
            Ok(()) => {}
            Err(refused) => return Err(refused),
        }
        let last = self.all.len() - 1;
        if last > MOST {
            return Err(AllocError);
        }
        self.append(last as u32, bytes)
    }
}
