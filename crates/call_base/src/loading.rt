//! The network function under a name.
ghost use Rattle.std.specs.Prelude.{◌≡◌, ◌+◌, [], ◌∷◌, IfOk, OnOk, string_bytes};
ghost use Rattle.nf_files.specs.Causes.{HasAsked};
ghost use Rattle.call_base.specs.Names.{reading};
ghost use Rattle.call_base.specs.Outside.{IsUntouched};
ghost use Rattle.call_base.specs.Loading.{IsTextAt, FindsFunction, HasFoundCause};
ghost use Rattle.call_base.specs.Reading.{halt_of};

use crate::function::{Source, Unread, function_in};
use crate::status::{CallFault, Halt, Refusal, RunFile, TextFault};
use nf_files::{Files, FilesFault, read_whole};
use std::alloc::Global;

/// A text, and the number of its file.
#[derive(Drop)]
pub struct Text {
    pub file: u32,
    pub bytes: Vec<u8>,
}

/// A function, and the number of its text's file.
#[derive(Drop)]
pub struct Found {
    pub file: u32,
    pub source: Source,
}

/// Why there is no function under a name.
#[derive(Clone, Copy, Debug, PartialEq, Eq)]
pub enum NoFunction {
    /// The text has this fault.
    Text(TextFault),
    Stop(CallFault),
}

impl NoFunction {
    /// Why a call goes on no further.
    pub fn halt(self) -> Halt
        ensures { result ≡ halt_of self }
    {
        match self {
            NoFunction::Text(fault) => Halt::Refusal(Refusal::Text(fault)),
            NoFunction::Stop(stop) => Halt::Stop(stop),
        }
    }
}

/// The bytes under a name.
pub fn read_text<F: Files>(alloc: Global, files: &mut F, name: &String) -> Result<Text, FilesFault>
    ensures text { let name = string_bytes name.now in
        IfOk result (λ text. IsTextAt (F.told files.old) name text) }
    ensures next { OnOk result ((F.told files.new).next ≡ (F.told files.old).next + 1) }
    ensures untouched { IsUntouched (F.told files.old) (F.told files.new) }
    ensures cause { let next = (F.told files.old).next in
        HasAsked (F.counted files.old) (F.counted files.new) (reading (string_bytes name.now) ∷ []) next result }
{
    match files.open_in(name) {
        Ok(file) => match read_whole(alloc, files, file) {
            Ok(bytes) => Ok(Text { file, bytes }),
            Err(fault) => Err(fault),
        },
        Err(fault) => Err(fault),
    }
}

/// The function under a name.
pub fn read_function<F: Files>(
    alloc: Global,
    files: &mut F,
    name: &String,
) -> Result<Found, NoFunction>
    ensures finds { FindsFunction (F.told files.old) (string_bytes name.now) result }
    ensures next { OnOk result ((F.told files.new).next ≡ (F.told files.old).next + 1) }
    ensures untouched { IsUntouched (F.told files.old) (F.told files.new) }
    ensures cause { let name = string_bytes name.now in let next = (F.told files.old).next in
        HasFoundCause name next (F.counted files.old) (F.counted files.new) result }
{
    match read_text(alloc, files, name) {
        Ok(text) => match function_in(alloc, text.bytes.as_slice()) {
            Ok(source) => Ok(Found {
                file: text.file,
                source,
            }),
            Err(Unread::Text(fault)) => Err(NoFunction::Text(fault)),
            Err(Unread::Memory) => Err(NoFunction::Stop(CallFault::Memory)),
        },
        Err(FilesFault::Failed) => Err(NoFunction::Stop(CallFault::File(RunFile::Nf))),
        Err(FilesFault::Memory(_)) => Err(NoFunction::Stop(CallFault::Memory)),
    }
}
