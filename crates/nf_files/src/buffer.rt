// Bytes of an input that were read ahead of their use.
ghost use Rattle.std.specs.Prelude.{◌≡◌, ◌<◌, ◌≤◌, ℕ, [], length, take, drop, min, vec_len, IfOk, OnOk, OnErr, nat_eq};
ghost use Rattle.std.specs.Io.KnownBytes.{Keeps, Consumes, IsAtEnd, prepend_known};

use std::alloc::{AllocError, Global};
use std::io::{self, Read};
use std::marker::Model;

/// How many bytes one call of the system reads ahead at most.
pub(crate) const AHEAD: usize = 65_536;

/// Bytes that were read and not yet given, at most 65,536.
#[derive(Drop)]
pub(crate) struct Buffer {
    bytes: Vec<u8>,
    at: usize,
    end: usize,
}

impl Model for Buffer {
    ghost use Rattle.std.specs.Prelude.{◌≡◌, ◌≤◌, ℕ, List, slice_range, vec_len};

    ghost Value = { List ℕ };

    ghost view = { λ b. slice_range b.bytes.items b.at b.end };

    ghost invariant = { λ b. (b.at ≤ b.end) × (b.end ≤ vec_len b.bytes) × (vec_len b.bytes ≡ 65536) };
}

// Zeros, of which a proof knows the number alone.
fn zeros(alloc: Global) -> Result<Vec<u8>, AllocError>
    ensures length { IfOk result (λ bytes. vec_len bytes ≡ AHEAD) }
{
    let size = AHEAD;
    vec![in alloc; 0u8; size]
}

// Reads once, into bytes that lie in a vector.
fn read_over<F: Read>(file: &mut F, bytes: &mut Vec<u8>) -> io::Result<usize>
    ensures len { vec_len bytes.new ≡ vec_len bytes.old }
    ensures within { IfOk result (λ count. count ≤ vec_len bytes.new) }
    ensures ok { IfOk result (λ count.
        Consumes (F.remaining file.old) (F.remaining file.new) (take count bytes.new.items)) }
    ensures end { IfOk result (λ count.
        count ≡ 0 → 0 < vec_len bytes.old → IsAtEnd (F.remaining file.new)) }
    ensures err { OnErr result (Keeps (F.remaining file.old) (F.remaining file.new)) }
{
    file.read(bytes.as_mut_slice())
}

impl Buffer {
    pub(crate) fn new(alloc: Global) -> Result<Self, AllocError>
        ensures none { IfOk result (λ b. b ≡ []) }
    {
        let bytes = zeros(alloc)?;
        Ok(Buffer {
            bytes,
            at: 0,
            end: 0,
        })
    }

    pub(crate) fn is_empty(&self) -> bool
        ensures { result ≡ nat_eq (length self.now) 0 }
    {
        self.at == self.end
    }

    /// The bytes.
    #[inline]
    pub(crate) fn as_slice(&self) -> &[u8]
        ensures { result.now ≡ self.now }
    {
        &self.bytes[self.at..self.end]
    }

    /// Lets go so many of the bytes in front.
    #[inline]
    pub(crate) fn advance(&mut self, count: usize)
        requires { count ≤ length self.old }
        ensures { self.new ≡ drop count self.old }
    {
        self.at += count;
    }

    /// Reads once, where no bytes are left.
    pub(crate) fn fill<F: Read>(&mut self, file: &mut F) -> io::Result<()>
        // No byte is lost, whatever the answer.
        ensures same { let left = prepend_known self.old (F.remaining file.old) in
            Keeps left (prepend_known self.new (F.remaining file.new)) }
        ensures end { OnOk result (self.new ≡ [] → IsAtEnd (F.remaining file.new)) }
    {
        if self.at < self.end {
            return Ok(());
        }
        self.at = 0;
        self.end = 0;
        self.end = read_over(file, &mut self.bytes)?;
        Ok(())
    }

    /// Gives the bytes in front, as many as there is room for, and tells their number.
    pub(crate) fn give(&mut self, out: &mut [u8]) -> usize
        ensures count { result ≡ min (length self.old) (length out.old) }
        ensures given { take result out.new ≡ take result self.old }
        ensures rest { self.new ≡ drop result self.old }
    {
        let count = out.len().min(self.end - self.at);
        out[..count].copy_from_slice(&self.bytes[self.at..self.at + count]);
        self.at += count;
        count
    }
}
