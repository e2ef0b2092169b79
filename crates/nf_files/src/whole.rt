// Whole files, over any files outside.
ghost use Rattle.std.specs.Prelude.{◌≡◌, ◌<◌, IfOk, vec_len};
ghost use Rattle.nf_files.specs.Causes.{HasCause};
ghost use Rattle.nf_files.specs.Reads.{Keeps, ReadsWhole};
ghost use Rattle.nf_files.specs.Told.{IsRead, TakesBytes};
ghost use Rattle.nf_files.specs.Writes.{WritesAll};

use crate::{Files, FilesFault};
use std::alloc::{AllocError, Global};

// How many bytes one call reads at most.
const PIECE: usize = 65536;

// A buffer of which a proof knows the length alone.
fn buffer(alloc: Global) -> Result<Vec<u8>, AllocError>
    ensures length { IfOk result (λ bytes. vec_len bytes ≡ PIECE) }
{
    let size = PIECE;
    vec![in alloc; 0u8; size]
}

/// Reads all that is left of a file, 65,536 bytes a call.
///
/// After an `Err` some of it may be gone.
pub fn read_whole<F: Files>(alloc: Global, files: &mut F, file: u32) -> Result<Vec<u8>, FilesFault>
    requires opened { IsRead (F.told files.old) file }
    ensures ok { IfOk result (λ bytes. ReadsWhole (F.told files.old) (F.told files.new) file bytes.items) }
    ensures kept { Keeps (F.told files.old) (F.told files.new) file }
    ensures cause { HasCause (F.counted files.old) (F.counted files.new) file result }
{
    let mut all = Vec::new(alloc);
    let mut piece = buffer(alloc)?;
    'turns: for _ in 0..u64::MAX {
        let count = files.read(file, &mut piece)?;
        if count == 0 {
            return Ok(all);
        }
        all.extend_from_slice(&piece[..count])?;
    }
    Err(FilesFault::Memory(AllocError))
}

/// Writes a whole piece to a file.
///
/// After an `Err` the file was given a front of the piece, and not all of it.
pub fn write_whole<F: Files>(files: &mut F, file: u32, piece: &[u8]) -> Result<(), FilesFault>
    requires created { TakesBytes (F.told files.old) file }
    ensures wrote { WritesAll (F.told files.old) (F.told files.new) file piece.now result }
    ensures cause { HasCause (F.counted files.old) (F.counted files.new) file result }
{
    let mut at: usize = 0;
    while at < piece.len() {
        let (_, rest) = piece.split_at(at);
        at += files.write(file, rest)?;
    }
    Ok(())
}
