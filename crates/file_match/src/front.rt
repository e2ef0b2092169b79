//! The front of what is left of a file.
ghost use Rattle.std.specs.Prelude.{◌≡◌, ◌<◌, ◌≤◌, ℕ, length, take, IfOk};
ghost use Rattle.nf_files.specs.Told.{IsEmptyIfTold, IsRead};
ghost use Rattle.nf_files.specs.Pieces.{Takes};
ghost use Rattle.nf_files.specs.Causes.{HasCause};
ghost use Rattle.nf_files.specs.Reads.{Keeps, Reads};
ghost use Rattle.nf_files.specs.Expected.{IsNotMemory};

use nf_files::{Files, FilesFault};

// Reads once, so many bytes at most.
fn read_some<F: Files>(
    files: &mut F,
    file: u32,
    room: &mut [u8],
    most: usize,
) -> Result<usize, FilesFault>
    requires opened { IsRead (F.told files.old) file }
    requires within { most ≤ length room.old }
    ensures ok { IfOk result (λ count.
        Reads (F.told files.old) (F.told files.new) file count (take most room.new)) }
    ensures kept { Keeps (F.told files.old) (F.told files.new) file }
    ensures no_memory { IsNotMemory result }
    ensures cause { HasCause (F.counted files.old) (F.counted files.new) file result }
{
    files.read(file, &mut room[..most])
}

/// Reads a file once, and puts what was read in front of a buffer.
///
/// 0 bytes of more than none are the end of the file.
pub fn read_front<F: Files>(
    files: &mut F,
    file: u32,
    room: &mut [u8],
    most: usize,
) -> Result<usize, FilesFault>
    requires opened { IsRead (F.told files.old) file }
    requires within { most ≤ length room.old }
    ensures within { IfOk result (λ count. count ≤ most) }
    ensures taken { IfOk result (λ count. Takes (take count room.new)
        ((F.told files.old).rest file) ((F.told files.new).rest file)) }
    ensures at_end { IfOk result (λ count.
        count ≡ 0 → 0 < most → IsEmptyIfTold ((F.told files.old).rest file)) }
    ensures long { length room.new ≡ length room.old }
    ensures kept { Keeps (F.told files.old) (F.told files.new) file }
    ensures no_memory { IsNotMemory result }
    ensures cause { HasCause (F.counted files.old) (F.counted files.new) file result }
{
    let count = read_some(files, file, room, most)?;
    Ok(count)
}
