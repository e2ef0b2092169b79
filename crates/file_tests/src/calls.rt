//! Calls on files and readers of captures. They promise what further calls ask for and no more: what the answers are is
//! compared, and not proved.
ghost use Rattle.std.specs.Prelude.{ℕ, IfOk};
ghost use Rattle.nf_files.specs.Told.{IsRead};

use nf_files::{Files, FilesFault};
use pcap_file::{CapFault, Next, Reader};
use std::alloc::Global;

pub fn open<F: Files>(files: &mut F, name: &str) -> Result<u32, FilesFault>
    ensures { IfOk result (IsRead (F.told files.new)) }
{
    files.open_in(name)
}

/// Reads the header of a capture.
pub fn header<F: Files>(alloc: Global, files: &mut F, file: u32) -> Result<Reader, CapFault>
    requires { IsRead (F.told files.old) file }
    ensures readable { IfOk result (λ reader. IsRead (F.told files.new) reader.file) }
    ensures reads { (g : ℕ) → IsRead (F.told files.old) g → IsRead (F.told files.new) g }
{
    Reader::header(alloc, files, file)
}

/// The next record of a capture.
pub fn next<F: Files>(
    reader: &mut Reader,
    files: &mut F,
    frame: &mut Vec<u8>,
) -> Result<Next, CapFault>
    requires { IsRead (F.told files.old) reader.old.file }
    ensures readable { IsRead (F.told files.new) reader.new.file }
    ensures reads { (g : ℕ) → IsRead (F.told files.old) g → IsRead (F.told files.new) g }
{
    reader.next(files, frame)
}

/// How many bytes are left of a file, of which there are less than 64.
pub fn left<F: Files>(files: &mut F, file: u32) -> usize
    requires { IsRead (F.told files.old) file }
{
    let mut out = [0u8; 64];
    files.read(file, &mut out).unwrap_or(64)
}
