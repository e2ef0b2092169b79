//! A line that is printed, which takes no memory.
ghost use Rattle.std.specs.Prelude.{◌≡◌, ◌+◌, ◌≤◌, ◌++◌, decimal, length};

use arrayvec::ArrayVec;
use itoa::Buffer;

/// A line of at most 256 bytes.
pub type Line = ArrayVec<u8, 256>;

/// Puts bytes behind a line.
pub fn push_bytes(line: &mut Line, bytes: &[u8])
    requires { length line.old.items + length bytes.now ≤ 256 }
    ensures bytes { line.new.items ≡ line.old.items ++ bytes.now }
    ensures len { length line.new.items ≡ length line.old.items + length bytes.now }
{
    match line.try_extend_from_slice(bytes) {
        Ok(()) => {}
        Err(_) => unreachable!(),
    }
}

/// Puts a decimal behind a line.
pub fn push_number(line: &mut Line, number: u64)
    requires { length line.old.items + 40 ≤ 256 }
    ensures bytes { line.new.items ≡ line.old.items ++ decimal number }
    ensures len { length line.new.items ≤ length line.old.items + 40 }
{
    let mut buffer = Buffer::new();
    push_bytes(line, buffer.format(number).as_bytes());
}
