//! Bytes and decimals.
ghost use Rattle.std.specs.Prelude.{◌≡◌, ◌++◌, ◌/◌, ◌%◌, OnOk, decimal};
ghost use Rattle.certificate_write.specs.Texts.{bit_text};

use itoa::Buffer;
use std::alloc::AllocError;

/// Puts bytes behind what stands there.
pub fn push_bytes(out: &mut Vec<u8>, bytes: &[u8]) -> Result<(), AllocError>
    ensures { OnOk result (out.new.items ≡ out.old.items ++ bytes.now) }
{
    out.extend_from_slice(bytes)
}

/// Puts a decimal behind what stands there.
pub fn push_number(out: &mut Vec<u8>, number: u32) -> Result<(), AllocError>
    ensures { OnOk result (out.new.items ≡ out.old.items ++ decimal number) }
{
    let mut buffer = Buffer::new();
    out.extend_from_slice(buffer.format(number).as_bytes())
}

/// Puts the port and the position of a bit behind what stands there, with something between them.
pub fn push_bit(out: &mut Vec<u8>, between: &[u8], place: u32) -> Result<(), AllocError>
    ensures { OnOk result (out.new.items ≡ out.old.items ++ bit_text between.now place) }
{
    push_number(out, place / 319)?;
    push_bytes(out, between)?;
    push_number(out, place % 319)
}
