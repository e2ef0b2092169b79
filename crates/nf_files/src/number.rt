// The numbers of opened files.
ghost use Rattle.std.specs.Prelude.{◌≡◌, ◌+◌, ◌-◌, ◌^◌, ◌≤◌, IfOk, IfErr};

use crate::FilesFault;
use std::alloc::AllocError;

// The number of the next file, after so many. Numbers have 32 bits.
pub fn next_number(opened: usize) -> Result<u32, FilesFault>
    ensures ok { IfOk result (λ number. number ≡ opened + 2) }
    ensures err { IfErr result (λ fault. (fault ≡ FilesFault.Memory (record {})) × (2 ^ 32 - 2 ≤ opened)) }
{
    if opened < 0xffff_fffe {
        Ok(opened as u32 + 2)
    } else {
        Err(FilesFault::Memory(AllocError))
    }
}
