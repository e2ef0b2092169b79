//! A file that is compared with bytes.
ghost use Rattle.std.specs.Prelude.{◌≡◌, ◌<◌, ◌++◌, ℕ, List, Option, true, length, vec_len, IfOk, OnOk};
ghost use Rattle.nf_files.specs.Told.{IsRead};
ghost use Rattle.nf_files.specs.Causes.{HasCause};
ghost use Rattle.nf_files.specs.Reads.{Keeps};
ghost use Rattle.nf_files.specs.Expected.{IsNotMemory};
ghost use Rattle.file_match.specs.Comparing.{IsBehind, AreNext, Found, IsWhole};

use crate::front::read_front;
use nf_files::{Files, FilesFault};
use std::alloc::{AllocError, Global};
use std::cmp::min;
use std::marker::Model;

/// How many bytes one call reads at most.
const ROOM: usize = 65_536;

/// A file that is read, and whether its bytes so far are those that it is to hold.
#[derive(Drop)]
pub struct Compared {
    file: u32,
    room: Vec<u8>,
    same: bool,
}

impl Model for Compared {
    ghost use Rattle.std.specs.Prelude.{◌≡◌, vec_len};
    ghost use Rattle.file_match.specs.Comparing.{Comparing};

    ghost Value = { Comparing };

    ghost view = { λ c. record { file = c.file; same = c.same } };

    ghost invariant = { λ c. vec_len c.room ≡ 65536 };
}

// Zeros, of which a proof knows the number alone.
fn zeros(alloc: Global) -> Result<Vec<u8>, AllocError>
    ensures length { IfOk result (λ bytes. vec_len bytes ≡ ROOM) }
{
    let size = ROOM;
    vec![in alloc; 0u8; size]
}

// What stands behind the front that was read; None where that is no front of the bytes.
fn behind<'a>(bytes: &'a [u8], front: &[u8]) -> Option<&'a [u8]>
    ensures { IsBehind bytes.now front.now result }
{
    bytes.strip_prefix(front)
}

// Whether the next bytes of a file are these; they are taken as far as they are.
fn are_next<F: Files>(
    files: &mut F,
    file: u32,
    room: &mut [u8],
    bytes: &[u8],
) -> Result<bool, FilesFault>
    requires opened { IsRead (F.told files.old) file }
    requires room { 0 < length room.old }
    ensures next { AreNext bytes.now ((F.told files.old).rest file) ((F.told files.new).rest file) result }
    ensures kept { Keeps (F.told files.old) (F.told files.new) file }
    ensures no_memory { IsNotMemory result }
    ensures cause { HasCause (F.counted files.old) (F.counted files.new) file result }
{
    let mut rest = bytes;
    while !rest.is_empty() {
        let most = min(rest.len(), room.len());
        let count = read_front(files, file, room, most)?;
        if count == 0 {
            return Ok(false);
        }
        match behind(rest, &room[..count]) {
            Some(more) => rest = more,
            None => return Ok(false),
        }
    }
    Ok(true)
}

impl Compared {
    /// A file that was opened to be read, and of which nothing was read yet.
    pub fn new(alloc: Global, file: u32) -> Result<Compared, AllocError>
        ensures { IfOk result (λ c. c ≡ record { file = file; same = true }) }
    {
        let room = zeros(alloc)?;
        Ok(Compared {
            file,
            room,
            same: true,
        })
    }

    /// The file's number.
    pub fn file(&self) -> u32
        ensures { result ≡ self.now.file }
    {
        self.file
    }

    /// Compares the next bytes of the file with these.
    pub fn compare<F: Files>(&mut self, files: &mut F, bytes: &[u8]) -> Result<(), FilesFault>
        requires opened { IsRead (F.told files.old) self.old.file }
        // Whatever was found since some start, it was found of these bytes too.
        ensures compares { let file = self.old.file in
            (start : Option (List ℕ)) → (before : List ℕ) →
            Found self.old before start ((F.told files.old).rest file) → OnOk result
            (Found self.new (before ++ bytes.now) start ((F.told files.new).rest file)) }
        ensures same_file { self.new.file ≡ self.old.file }
        ensures kept { Keeps (F.told files.old) (F.told files.new) self.old.file }
        ensures no_memory { IsNotMemory result }
        ensures cause { let file = self.old.file in
            HasCause (F.counted files.old) (F.counted files.new) file result }
    {
        if !self.same {
            return Ok(());
        }
        let same = are_next(files, self.file, self.room.as_mut_slice(), bytes)?;
        self.same = same;
        Ok(())
    }

    /// Whether the file held the bytes that it was compared with, and none behind them.
    pub fn is_whole<F: Files>(&mut self, files: &mut F) -> Result<bool, FilesFault>
        requires opened { IsRead (F.told files.old) self.old.file }
        ensures whole { let file = self.old.file in
            (start : Option (List ℕ)) → (bytes : List ℕ) →
            Found self.old bytes start ((F.told files.old).rest file) → IsWhole bytes start result }
        ensures same_file { self.new.file ≡ self.old.file }
        ensures kept { Keeps (F.told files.old) (F.told files.new) self.old.file }
        ensures no_memory { IsNotMemory result }
        ensures cause { let file = self.old.file in
            HasCause (F.counted files.old) (F.counted files.new) file result }
    {
        if !self.same {
            return Ok(false);
        }
        let count = read_front(files, self.file, self.room.as_mut_slice(), 1)?;
        Ok(count == 0)
    }
}
