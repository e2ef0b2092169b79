//! Bytes that are still to be given to a file.
ghost use Rattle.std.specs.Prelude.{◌≡◌, ◌+◌, ◌≤◌, ◌++◌, [], false, length, take, OnOk, OnErr, vec_len};
ghost use Rattle.frame_ip.specs.Edit.{IsUnedited};
ghost use Rattle.stream_run.specs.Texts.{written_of, line_of};

use crate::handled::HandledParts;
use crate::piece::{frame_length, put_handled_line, put_sent};
use crate::room::make_room;
use capture_format::{CaptureFormat, packet_length};
use std::alloc::AllocError;
use std::marker::Model;

/// Bytes that are still to be given to a file: so many in front of a buffer that is longer.
///
/// What is put behind them is written where it is to stand.
#[derive(Drop)]
pub(crate) struct Buffer {
    bytes: Vec<u8>,
    len: usize,
}

impl Model for Buffer {
    ghost use Rattle.std.specs.Prelude.{List, ℕ, ◌≤◌, take, vec_len};

    ghost Value = { List ℕ };

    ghost view = { λ b. take b.len b.bytes.items };

    ghost invariant = { λ b. b.len ≤ vec_len b.bytes };
}

impl Buffer {
    pub(crate) fn from_vec(bytes: Vec<u8>) -> Buffer
        ensures { result ≡ bytes.items }
    {
        let len = bytes.len();
        Buffer { bytes, len }
    }

    #[inline(always)]
    pub(crate) fn len(&self) -> usize
        ensures { result ≡ length self.now }
    {
        self.len
    }

    pub(crate) fn as_slice(&self) -> &[u8]
        ensures { result.now ≡ self.now }
    {
        &self.bytes[..self.len]
    }

    pub(crate) fn clear(&mut self)
        ensures { self.new ≡ [] }
    {
        self.len = 0;
    }

    /// Puts a packet that is sent out behind them; it may be said that its frame is not edited.
    #[inline(always)]
    pub(crate) fn hold_record(
        &mut self,
        format: CaptureFormat,
        handled: &HandledParts,
        edited: bool,
    ) -> Result<(), AllocError>
        requires edited { edited ≡ false → IsUnedited handled.now.done.edits }
        ensures ok { OnOk result (self.new ≡ self.old ++ written_of format handled.now) }
        ensures err { OnErr result (self.new ≡ self.old) }
    {
        let count = packet_length(format, frame_length(handled));
        match make_room(&mut self.bytes, self.len, count) {
            Err(fault) => Err(fault),
            Ok(()) => {
                self.len = put_sent(self.bytes.as_mut_slice(), self.len, format, handled, edited);
                Ok(())
            }
        }
    }

    /// Puts a packet's line behind them.
    #[inline(always)]
    pub(crate) fn hold_line(&mut self, handled: &HandledParts) -> Result<(), AllocError>
        ensures ok { OnOk result (self.new ≡ self.old ++ line_of handled.now) }
        ensures err { OnErr result (self.new ≡ self.old) }
    {
        match make_room(&mut self.bytes, self.len, 256) {
            Err(fault) => Err(fault),
            Ok(()) => {
                self.len = put_handled_line(self.bytes.as_mut_slice(), self.len, handled);
                Ok(())
            }
        }
    }
}
