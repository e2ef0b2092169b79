//! Room behind the bytes that are held in a buffer.
ghost use Rattle.std.specs.Prelude.{◌≡◌, ◌+◌, ◌≤◌, take, OnOk, vec_len};

use std::alloc::AllocError;

/// So many bytes more have room when a buffer has to grow, so that it seldom does.
const SPARE: usize = 65_536;

#[inline(never)]
fn grow(buffer: &mut Vec<u8>, held: usize, count: usize) -> Result<(), AllocError>
    requires within { held ≤ vec_len buffer.old }
    requires small { vec_len buffer.old ≤ held + count }
    requires count { count ≤ 262176 }
    ensures room { OnOk result (held + count ≤ vec_len buffer.new) }
    ensures within { held ≤ vec_len buffer.new }
    ensures same { take held buffer.new.items ≡ take held buffer.old.items }
{
    buffer.resize(held + count + SPARE, 0)
}

/// Sees to it that so many bytes have room in a buffer behind the first ones, which are held.
#[inline(always)]
pub(crate) fn make_room(buffer: &mut Vec<u8>, held: usize, count: usize) -> Result<(), AllocError>
    requires within { held ≤ vec_len buffer.old }
    requires count { count ≤ 262176 }
    ensures room { OnOk result (held + count ≤ vec_len buffer.new) }
    ensures within { held ≤ vec_len buffer.new }
    ensures same { take held buffer.new.items ≡ take held buffer.old.items }
{
    if count <= buffer.len() - held {
        Ok(())
    } else {
        grow(buffer, held, count)
    }
}
