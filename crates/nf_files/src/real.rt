// The files of the system.
ghost use Rattle.std.specs.Prelude.{◌≡◌, ◌≢◌, ◌<◌, ◌≤◌, ◌+◌, ◌-◌, ◌⊎◌, ℕ, List, Option, Ok, IfOk, length, take, None};
ghost use Rattle.std.specs.Io.{ReadsAtMost, WritesAtMost};
ghost use Rattle.std.specs.Io.KnownBytes.{Consumes, ReadConsumes, WriteAppends};
ghost use Rattle.nf_files.specs.Causes.{counted_of, HasCause};
ghost use Rattle.nf_files.specs.Expected.{IsNotMemory};
ghost use Rattle.nf_files.specs.Untold.{untold, kind_at, left_at, ready_at, held_at, IsOf};
ghost use Rattle.nf_files.specs.declared.kind.Kind.TheVariants.{Input, Output};

use crate::ahead::Ahead;
use crate::buffer::Buffer;
use crate::kind::Kind;
use crate::number::next_number;
use crate::origin::Origin;
use crate::standard::Standard;
use crate::system_file::{SystemFile, create_file, open_file};
use crate::{FaultCount, Files, FilesFault};
use std::alloc::Global;
use std::io::{Read, Write};
use std::{io, rt};

// Where none is taken of a piece that isn't empty, that is an error.
fn some_taken(piece: &[u8], answer: io::Result<usize>) -> io::Result<usize>
    ensures same { IfOk result (λ count. answer ≡ Ok count) }
    ensures some { IfOk result (λ count. 0 < length piece.now → 0 < count) }
    // What was written by the answer was written by the result.
    ensures wrote { (old : Option (List ℕ)) → (new : Option (List ℕ)) →
        WriteAppends old new answer piece.now → WriteAppends old new result piece.now }
{
    match answer {
        Ok(0) if !piece.is_empty() => Err(io::Error::from(io::ErrorKind::WriteZero)),
        answer => answer,
    }
}

/// The files of the system, of which no content is told.
///
/// An input is read ahead, 65,536 bytes a call of the system; a fault is told by the read that needs
/// the bytes. No output is buffered, so a write that returned has reached the system. Opening a
/// directory to be read fails. So does creating a name under which a file stands that was opened to
/// be read, by this name or another: it stays as it is. Memory never runs out once the system was
/// asked.
#[derive(Drop)]
pub struct RealFiles<'a, R: rt::Files, O, E> {
    alloc: Global,
    system: &'a R,
    standard: Standard<O, E>,
    opened: Vec<SystemFile<R::File>>,
    count: FaultCount,
}

impl<'a, R: rt::Files, O: Write, E: Write> RealFiles<'a, R, O, E> {
    /// No opened file, and no fault. What is written to standard output goes to `output`, and what is
    /// written to standard error to `errors`.
    pub fn new(alloc: Global, system: &'a R, output: O, errors: E) -> Self
        ensures none { length result.opened.items ≡ 0 }
        ensures no_fault { (result.count.faults ≡ 0) × (result.count.first ≡ None) }
    {
        RealFiles {
            alloc,
            system,
            standard: Standard::new(output, errors),
            opened: Vec::new(alloc),
            count: FaultCount::new(alloc),
        }
    }

    // Reads the input of this number. An error of the system is never its end.
    fn read_input(&mut self, file: u32, out: &mut [u8]) -> Result<usize, FilesFault>
        requires opened { IsOf Input self.old.opened.items file }
        ensures within { ReadsAtMost result out.new }
        ensures bytes { let left = left_at R.File.remaining in
            ReadConsumes (left self.old.opened.items file) (left self.new.opened.items file)
            result out.new }
        ensures as_many { length self.new.opened.items ≡ length self.old.opened.items }
        ensures cause { let old = counted_of self.old.count in
            HasCause old (counted_of self.new.count) file result }
        ensures no_memory { IsNotMemory result }
        ensures kinds { (g : ℕ) →
            kind_at self.new.opened.items g ≡ kind_at self.old.opened.items g }
    {
        let answer = match &mut self.opened[file as usize - 2] {
            SystemFile::Input { ahead, .. } => ahead.read(out),
            SystemFile::Output(_) => unreachable!(),
        };
        self.count.answer(file, answer)
    }

    // The bytes of the input of this number that were read ahead.
    #[inline]
    fn ready_input(&self, file: u32) -> &[u8]
        requires opened { IsOf Input self.now.opened.items file }
        ensures { result.now ≡ ready_at self.now.opened.items file }
    {
        match &self.opened[file as usize - 2] {
            SystemFile::Input { ahead, .. } => ahead.ready(),
            SystemFile::Output(_) => unreachable!(),
        }
    }

    // Takes so many of them: those, and no others.
    #[inline]
    fn take_input(&mut self, file: u32, count: usize)
        requires opened { IsOf Input self.old.opened.items file }
        requires within { count ≤ length (ready_at self.old.opened.items file) }
        ensures bytes { let left = left_at R.File.remaining in
            Consumes (left self.old.opened.items file) (left self.new.opened.items file)
            (take count (ready_at self.old.opened.items file)) }
        ensures as_many { length self.new.opened.items ≡ length self.old.opened.items }
        ensures same { self.new.count ≡ self.old.count }
        ensures kinds { (g : ℕ) →
            kind_at self.new.opened.items g ≡ kind_at self.old.opened.items g }
    {
        match &mut self.opened[file as usize - 2] {
            SystemFile::Input { ahead, .. } => ahead.take(count),
            SystemFile::Output(_) => unreachable!(),
        }
    }

    // Writes once, to the file of this number.
    fn write_once(&mut self, file: u32, piece: &[u8]) -> io::Result<usize>
        requires opened { (file < 2) ⊎ IsOf Output self.old.opened.items file }
        ensures within { WritesAtMost result piece.now }
        ensures output { let held = O.contents in file ≡ 0 →
            WriteAppends (held self.old.standard.output) (held self.new.standard.output)
            result piece.now }
        ensures errors { let held = E.contents in file ≡ 1 →
            WriteAppends (held self.old.standard.errors) (held self.new.standard.errors)
            result piece.now }
        ensures no_output { file ≢ 0 → self.new.standard.output ≡ self.old.standard.output }
        ensures no_errors { file ≢ 1 → self.new.standard.errors ≡ self.old.standard.errors }
        ensures bytes { let held = held_at R.File.contents in 2 ≤ file →
            WriteAppends (held self.old.opened.items file) (held self.new.opened.items file)
            result piece.now }
        ensures as_many { length self.new.opened.items ≡ length self.old.opened.items }
        ensures same { self.new.count ≡ self.old.count }
        ensures kinds { (g : ℕ) →
            kind_at self.new.opened.items g ≡ kind_at self.old.opened.items g }
    {
        if file < 2 {
            return self.standard.write(file, piece);
        }
        match &mut self.opened[file as usize - 2] {
            SystemFile::Output(output) => output.write(piece),
            SystemFile::Input { .. } => unreachable!(),
        }
    }

    // Writes to the file of this number. What an error left unwritten is never told as written.
    fn write_output(&mut self, file: u32, piece: &[u8]) -> Result<usize, FilesFault>
        requires opened { (file < 2) ⊎ IsOf Output self.old.opened.items file }
        ensures within { WritesAtMost result piece.now }
        ensures some { IfOk result (λ count. 0 < length piece.now → 0 < count) }
        ensures output { let held = O.contents in file ≡ 0 →
            WriteAppends (held self.old.standard.output) (held self.new.standard.output)
            result piece.now }
        ensures errors { let held = E.contents in file ≡ 1 →
            WriteAppends (held self.old.standard.errors) (held self.new.standard.errors)
            result piece.now }
        ensures no_output { file ≢ 0 → self.new.standard.output ≡ self.old.standard.output }
        ensures no_errors { file ≢ 1 → self.new.standard.errors ≡ self.old.standard.errors }
        ensures bytes { let held = held_at R.File.contents in 2 ≤ file →
            WriteAppends (held self.old.opened.items file) (held self.new.opened.items file)
            result piece.now }
        ensures as_many { length self.new.opened.items ≡ length self.old.opened.items }
        ensures cause { let old = counted_of self.old.count in
            HasCause old (counted_of self.new.count) file result }
        ensures kinds { (g : ℕ) →
            kind_at self.new.opened.items g ≡ kind_at self.old.opened.items g }
    {
        let answer = some_taken(piece, self.write_once(file, piece));
        self.count.answer(file, answer)
    }
}

impl<'a, R: rt::Files, O: Write, E: Write> Files for RealFiles<'a, R, O, E> {
    ghost told = { λ r. untold r.opened.items };

    ghost counted = { λ r. counted_of r.count };

    ghost will_open = { λ _ _. ⊥ };

    ghost will_not_open = { λ _ _. ⊥ };

    ghost will_pass = { λ _. ⊥ };

    ghost will_fail = { λ _. ⊥ };

    ghost ready = { λ r. ready_at r.opened.items };

    fn open_in(&mut self, name: &str) -> Result<u32, FilesFault> {
        let number = next_number(self.opened.len())?;
        self.count.ask(self.alloc, name, Kind::Input)?;
        self.opened.reserve(1)?;
        let buffer = Buffer::new(self.alloc)?;
        let name_kept = Vec::from_slice(self.alloc, name.as_bytes())?;
        let (file, node) = self.count.answer(number, open_file(self.system, name))?;
        self.opened.push_reserved(SystemFile::Input {
            origin: Origin {
                name: name_kept,
                node,
            },
            ahead: Ahead::new(file, buffer),
        });
        Ok(number)
    }

    fn create_out(&mut self, name: &str) -> Result<u32, FilesFault> {
        let number = next_number(self.opened.len())?;
        self.count.ask(self.alloc, name, Kind::Output)?;
        self.opened.reserve(1)?;
        let made = create_file(self.system, self.opened.as_slice(), name);
        let file = self.count.answer(number, made)?;
        self.opened.push_reserved(SystemFile::Output(file));
        Ok(number)
    }

    fn read(&mut self, file: u32, out: &mut [u8]) -> Result<usize, FilesFault> {
        self.read_input(file, out)
    }

    fn write(&mut self, file: u32, piece: &[u8]) -> Result<usize, FilesFault> {
        self.write_output(file, piece)
    }

    #[inline]
    fn ahead(&self, file: u32) -> &[u8] {
        self.ready_input(file)
    }

    #[inline]
    fn take(&mut self, file: u32, count: usize) {
        self.take_input(file, count);
    }

    ghost counts = { λ r. r.count.agrees };

    ghost standard = { λ _ _ _ _. None };
}
