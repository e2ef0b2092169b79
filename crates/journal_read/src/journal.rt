//! A journal that is read from its file.
ghost use Rattle.std.specs.Prelude.{◌≡◌, ◌++◌, ℕ, List, [], Option, vec_len, IfOk};
ghost use Rattle.nf_files.specs.Told.{IsRead};
ghost use Rattle.nf_files.specs.Causes.{HasCause};
ghost use Rattle.nf_files.specs.Reads.{Keeps};
ghost use Rattle.run_history.specs.declared.line.JournalLine.{JournalLine};
ghost use Rattle.journal_read.specs.Journals.{Stands, Gives, IsOver, Heads, IsHeader};
ghost use Rattle.journal_read.specs.Held.{Fills, Advances, IsEnd};

use crate::first::{First, front_of};
use crate::next::Next;
use file_match::read_front;
use nf_files::{Files, FilesFault};
use run_history::header::Header;
use run_history::line::JournalLine;
use std::alloc::{AllocError, Global};
use std::marker::Model;

/// How many bytes one call reads at most.
const ROOM: usize = 65_536;

/// What a piece of the bytes that are held comes to.
#[derive(Debug, Drop)]
enum Advance {
    Line(JournalLine),
    Wrong,
    Open,
}

/// A journal that is read line by line.
///
/// At most 65,536 bytes and a line are held of it.
#[derive(Drop)]
pub struct Journal {
    file: u32,
    room: Vec<u8>,
    bytes: Vec<u8>,
    at: usize,
}

impl Model for Journal {
    ghost use Rattle.std.specs.Prelude.{◌≡◌, ◌≤◌, drop, vec_len};
    ghost use Rattle.journal_read.specs.Journals.{Reading};

    ghost Value = { Reading };

    ghost view = { λ j. record { file = j.file; held = drop j.at j.bytes.items } };

    ghost invariant = { λ j. (j.at ≤ vec_len j.bytes) × (vec_len j.room ≡ 65536) };
}

// Zeros, of which a proof knows the number alone.
fn zeros(alloc: Global) -> Result<Vec<u8>, AllocError>
    ensures length { IfOk result (λ bytes. vec_len bytes ≡ ROOM) }
{
    let size = ROOM;
    vec![in alloc; 0u8; size]
}

// Bytes behind others.
fn joined(alloc: Global, front: &[u8], more: &[u8]) -> Result<Vec<u8>, AllocError>
    ensures { IfOk result (λ bytes. bytes.items ≡ front.now ++ more.now) }
{
    let mut bytes = Vec::new(alloc);
    bytes.extend_from_slice(front)?;
    bytes.extend_from_slice(more)?;
    Ok(bytes)
}

// The header that came next, if it did.
fn header_in(next: Next) -> Option<Header>
    ensures { IsHeader next result }
{
    match next {
        Next::Line(JournalLine::Header(header)) => Some(header),
        _ => None,
    }
}

impl Journal {
    /// A journal's file, which was opened to be read, and of which nothing was read yet.
    pub fn new(alloc: Global, file: u32) -> Result<Journal, AllocError>
        ensures { IfOk result (λ j. j ≡ record { file = file; held = [] }) }
    {
        let room = zeros(alloc)?;
        Ok(Journal {
            file,
            room,
            bytes: Vec::new(alloc),
            at: 0,
        })
    }

    /// The file's number.
    pub fn file(&self) -> u32
        ensures { result ≡ self.now.file }
    {
        self.file
    }

    // Takes the first line off the bytes that are held.
    fn advance(&mut self) -> Advance
        ensures advances { Advances self.old.held self.new.held result }
        ensures same_file { self.new.file ≡ self.old.file }
    {
        match front_of(&self.bytes[self.at..]) {
            First::Line { line, end } => {
                self.at += end;
                Advance::Line(line)
            }
            First::Wrong => Advance::Wrong,
            First::Open => Advance::Open,
        }
    }

    // Reads once more; false says that nothing is left of the file.
    fn fill<F: Files>(&mut self, alloc: Global, files: &mut F) -> Result<bool, FilesFault>
        requires opened { IsRead (F.told files.old) self.old.file }
        ensures fills { let file = self.old.file in Fills self.old.held self.new.held
            ((F.told files.old).rest file) ((F.told files.new).rest file) result }
        ensures same_file { self.new.file ≡ self.old.file }
        ensures kept { Keeps (F.told files.old) (F.told files.new) self.old.file }
        ensures cause { let file = self.old.file in
            HasCause (F.counted files.old) (F.counted files.new) file result }
    {
        let count = read_front(files, self.file, self.room.as_mut_slice(), ROOM)?;
        if count == 0 {
            return Ok(false);
        }
        let bytes = joined(alloc, &self.bytes[self.at..], &self.room[..count])?;
        self.bytes = bytes;
        self.at = 0;
        Ok(true)
    }

    // What bytes are at the end of which no line is.
    fn end(&self) -> Next
        ensures { IsEnd self.now.held result }
    {
        if self.at == self.bytes.len() {
            Next::End
        } else {
            Next::Wrong
        }
    }

    /// The next line.
    ///
    /// `Wrong` comes exactly where bytes are left and don't begin with a line, and `End` exactly where
    /// none are left. After `Wrong` or an `Err` this journal may have moved, and no call is to be made
    /// on it.
    pub fn next<F: Files>(&mut self, alloc: Global, files: &mut F) -> Result<Next, FilesFault>
        requires opened { IsRead (F.told files.old) self.old.file }
        // Whatever lines were read since some start, this one stands behind them; or other bytes do.
        ensures gives { let file = self.old.file in
            (start : Option (List ℕ)) → (lines : List JournalLine) →
            Stands start lines self.old ((F.told files.old).rest file) →
            Gives start lines self.new ((F.told files.new).rest file) result }
        ensures same_file { self.new.file ≡ self.old.file }
        ensures kept { Keeps (F.told files.old) (F.told files.new) self.old.file }
        ensures cause { let file = self.old.file in
            HasCause (F.counted files.old) (F.counted files.new) file result }
    {
        'fills: loop {
            match self.advance() {
                Advance::Line(line) => return Ok(Next::Line(line)),
                Advance::Wrong => return Ok(Next::Wrong),
                Advance::Open => {}
            }
            if !self.fill(alloc, files)? {
                return Ok(self.end());
            }
        }
    }

    /// The first line, of a journal of which nothing was read yet; None where that is no header.
    ///
    /// After None or an `Err` no call is to be made on this journal.
    pub fn header<F: Files>(
        &mut self,
        alloc: Global,
        files: &mut F,
    ) -> Result<Option<Header>, FilesFault>
        requires opened { IsRead (F.told files.old) self.old.file }
        ensures heads { let file = self.old.file in
            (start : Option (List ℕ)) → Stands start [] self.old ((F.told files.old).rest file) →
            Heads start self.new ((F.told files.new).rest file) result }
        ensures same_file { self.new.file ≡ self.old.file }
        ensures kept { Keeps (F.told files.old) (F.told files.new) self.old.file }
        ensures cause { let file = self.old.file in
            HasCause (F.counted files.old) (F.counted files.new) file result }
    {
        let next = self.next(alloc, files)?;
        Ok(header_in(next))
    }

    /// Whether no byte is left.
    pub fn is_over<F: Files>(&mut self, alloc: Global, files: &mut F) -> Result<bool, FilesFault>
        requires opened { IsRead (F.told files.old) self.old.file }
        ensures over { let file = self.old.file in
            (start : Option (List ℕ)) → (lines : List JournalLine) →
            Stands start lines self.old ((F.told files.old).rest file) →
            IsOver start lines result }
        ensures same_file { self.new.file ≡ self.old.file }
        ensures kept { Keeps (F.told files.old) (F.told files.new) self.old.file }
        ensures cause { let file = self.old.file in
            HasCause (F.counted files.old) (F.counted files.new) file result }
    {
        if self.at < self.bytes.len() {
            return Ok(false);
        }
        let more = self.fill(alloc, files)?;
        Ok(!more)
    }
}
