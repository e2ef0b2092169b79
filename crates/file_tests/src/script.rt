//! Calls on files, listed and then made one after another. What they answer is compared, and not proved.
ghost use Rattle.std.specs.Prelude.{IfSome};
ghost use Rattle.nf_files.specs.Told.{IsRead, IsWritten};

use nf_files::{Files, FilesFault};
use std::alloc::{AllocError, Global};

/// A call on files.
#[derive(Clone, Copy)]
pub enum Call<'a> {
    Open(&'a str),
    Create(&'a str),
    /// Reads at most so many bytes of the file that was opened last.
    Read(usize),
    /// Writes once to the file that was created last.
    Write(&'a [u8]),
    /// Writes once to standard output, or to standard error.
    Print(&'a [u8]),
    Warn(&'a [u8]),
}

/// What a call answered.
#[derive(Clone, Copy, Debug, PartialEq, Eq)]
pub enum Answer {
    /// The number of a file.
    File(u32),
    /// How many bytes.
    Count(usize),
    Fault(FilesFault),
    /// No file was opened, or created, for the call.
    Nothing,
}

/// What calls answered, and the bytes that were read.
#[derive(Drop)]
pub struct Told {
    pub answers: Vec<Answer>,
    pub bytes: Vec<u8>,
}

/// The file that was opened last, and the one that was created last.
#[derive(Drop)]
struct Last {
    input: Option<u32>,
    output: Option<u32>,
}

fn count_in(answer: Result<usize, FilesFault>) -> Answer {
    match answer {
        Ok(count) => Answer::Count(count),
        Err(fault) => Answer::Fault(fault),
    }
}

fn open<F: Files>(files: &mut F, last: &mut Last, name: &str) -> Answer
    requires input { IfSome last.old.input (IsRead (F.told files.old)) }
    requires output { IfSome last.old.output (IsWritten (F.told files.old)) }
    ensures input { IfSome last.new.input (IsRead (F.told files.new)) }
    ensures output { IfSome last.new.output (IsWritten (F.told files.new)) }
{
    match files.open_in(name) {
        Ok(file) => {
            last.input = Some(file);
            Answer::File(file)
        }
        Err(fault) => Answer::Fault(fault),
    }
}

fn create<F: Files>(files: &mut F, last: &mut Last, name: &str) -> Answer
    requires input { IfSome last.old.input (IsRead (F.told files.old)) }
    requires output { IfSome last.old.output (IsWritten (F.told files.old)) }
    ensures input { IfSome last.new.input (IsRead (F.told files.new)) }
    ensures output { IfSome last.new.output (IsWritten (F.told files.new)) }
{
    match files.create_out(name) {
        Ok(file) => {
            last.output = Some(file);
            Answer::File(file)
        }
        Err(fault) => Answer::Fault(fault),
    }
}

fn read<F: Files>(
    files: &mut F,
    last: &Last,
    out: &mut [u8],
    bytes: &mut Vec<u8>,
) -> Result<Answer, AllocError>
    requires input { IfSome last.now.input (IsRead (F.told files.old)) }
    requires output { IfSome last.now.output (IsWritten (F.told files.old)) }
    ensures input { IfSome last.now.input (IsRead (F.told files.new)) }
    ensures output { IfSome last.now.output (IsWritten (F.told files.new)) }
{
    match last.input {
        None => Ok(Answer::Nothing),
        Some(file) => match files.read(file, out) {
            Err(fault) => Ok(Answer::Fault(fault)),
            Ok(count) => {
                bytes.extend_from_slice(&out[..count])?;
                Ok(Answer::Count(count))
            }
        },
    }
}

fn write<F: Files>(files: &mut F, last: &Last, piece: &[u8]) -> Answer
    requires input { IfSome last.now.input (IsRead (F.told files.old)) }
    requires output { IfSome last.now.output (IsWritten (F.told files.old)) }
    ensures input { IfSome last.now.input (IsRead (F.told files.new)) }
    ensures output { IfSome last.now.output (IsWritten (F.told files.new)) }
{
    match last.output {
        None => Answer::Nothing,
        Some(file) => count_in(files.write(file, piece)),
    }
}

fn print<F: Files>(files: &mut F, last: &Last, is_error: bool, piece: &[u8]) -> Answer
    requires input { IfSome last.now.input (IsRead (F.told files.old)) }
    requires output { IfSome last.now.output (IsWritten (F.told files.old)) }
    ensures input { IfSome last.now.input (IsRead (F.told files.new)) }
    ensures output { IfSome last.now.output (IsWritten (F.told files.new)) }
{
    count_in(files.write(u32::from(is_error), piece))
}

fn make<F: Files>(
    alloc: Global,
    files: &mut F,
    last: &mut Last,
    call: &Call,
    bytes: &mut Vec<u8>,
) -> Result<Answer, AllocError>
    requires input { IfSome last.old.input (IsRead (F.told files.old)) }
    requires output { IfSome last.old.output (IsWritten (F.told files.old)) }
    ensures input { IfSome last.new.input (IsRead (F.told files.new)) }
    ensures output { IfSome last.new.output (IsWritten (F.told files.new)) }
{
    match *call {
        Call::Open(name) => Ok(open(files, last, name)),
        Call::Create(name) => Ok(create(files, last, name)),
        Call::Read(most) => {
            let mut out = vec![in alloc; 0u8; most]?;
            read(files, last, out.as_mut_slice(), bytes)
        }
        Call::Write(piece) => Ok(write(files, last, piece)),
        Call::Print(piece) => Ok(print(files, last, false, piece)),
        Call::Warn(piece) => Ok(print(files, last, true, piece)),
    }
}

/// Makes calls, one after another.
pub fn make_all<F: Files>(
    alloc: Global,
    files: &mut F,
    calls: &[Call],
) -> Result<Told, AllocError> {
    let mut told = Told {
        answers: Vec::new(alloc),
        bytes: Vec::new(alloc),
    };
    let mut last = Last {
        input: None,
        output: None,
    };
    for call in calls {
        let answer = make(alloc, files, &mut last, call, &mut told.bytes)?;
        told.answers.push(answer)?;
    }
    Ok(told)
}
