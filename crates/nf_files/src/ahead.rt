// An input that is read ahead of its use.
ghost use Rattle.std.specs.Prelude.{◌≡◌, ◌≤◌, [], IfOk, length, drop};

use crate::buffer::{AHEAD, Buffer};
use std::io::{self, Read};

/// A file that is read in large pieces, and the bytes of it that were read and not yet given.
///
/// A fault of the system is told by the read that needs the bytes: those read before are given first.
#[derive(Drop)]
pub(crate) struct Ahead<F> {
    file: F,
    buffer: Buffer,
}

impl<F> Ahead<F> {
    pub(crate) fn new(file: F, buffer: Buffer) -> Self
        ensures { result ≡ record { file = file; buffer = buffer } }
    {
        Ahead { file, buffer }
    }

    /// The bytes that were read and not yet given.
    #[inline]
    pub(crate) fn ready(&self) -> &[u8]
        ensures { result.now ≡ self.now.buffer }
    {
        self.buffer.as_slice()
    }

    /// Takes so many of them.
    #[inline]
    pub(crate) fn take(&mut self, count: usize)
        requires { count ≤ length self.old.buffer }
        ensures rest { self.new.buffer ≡ drop count self.old.buffer }
        ensures same_file { self.new.file ≡ self.old.file }
    {
        self.buffer.advance(count);
    }
}

impl<F: Read> Read for Ahead<F> {
    ghost use Rattle.std.specs.Io.KnownBytes.{prepend_known};

    ghost remaining = { λ a. prepend_known a.buffer (F.remaining a.file) };

    fn read(&mut self, out: &mut [u8]) -> io::Result<usize> {
        if out.is_empty() {
            return Ok(0);
        }
        if self.buffer.is_empty() && out.len() >= AHEAD {
            return self.file.read(out);
        }
        self.buffer.fill(&mut self.file)?;
        Ok(self.buffer.give(out))
    }
}
