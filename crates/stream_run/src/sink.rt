//! A file that is written in large pieces.
ghost use Rattle.std.specs.Prelude.{◌≡◌, ◌<◌, ◌++◌, ◌⊎◌, ℕ, List, false, length, OnOk, vec_len};
ghost use Rattle.nf_files.specs.Told.{IsWritten};
ghost use Rattle.frame_ip.specs.Edit.{IsUnedited};
ghost use Rattle.stream_run.specs.Texts.{written_of, sent_bytes, line_of};
ghost use Rattle.stream_run.specs.Writing.{Holds, GoesOn, IsLittle, KeepsOther, IsStopCause, StopsAt};

use crate::buffer::Buffer;
use crate::fault::RunFault;
use crate::handled::HandledParts;
use crate::piece::is_sent;
use capture_format::CaptureFormat;
use nf_files::{Files, write_whole};
use std::alloc::AllocError;
use std::marker::Model;

/// From how many bytes on they are given to their file.
const PIECE: usize = 65_536;

/// A file that is written, the format in which packets are put into it, and bytes that are still to be
/// given to it.
#[derive(Drop)]
pub struct Sink {
    file: u32,
    format: CaptureFormat,
    held: Buffer,
}

impl Model for Sink {
    ghost use Rattle.stream_run.specs.Writing.{Holding};

    ghost Value = { Holding };

    ghost view = { λ s. record { file = s.file; format = s.format; held = s.held } };
}

impl Sink {
    /// A created file, the format of what is to be put into it, and bytes that it is to begin with.
    pub fn new(file: u32, format: CaptureFormat, buffer: Vec<u8>) -> Sink
        ensures { result ≡ record { file = file; format = format; held = buffer.items } }
    {
        Sink {
            file,
            format,
            held: Buffer::from_vec(buffer),
        }
    }

    /// Gives all bytes to the file.
    #[inline(never)]
    pub fn flush<F: Files>(&mut self, files: &mut F) -> Result<(), RunFault>
        requires created { IsWritten (F.told files.old) self.old.file }
        ensures goes_on { (bytes : List ℕ) →
            Holds bytes ((F.told files.old).given self.old.file) self.old.held →
            GoesOn bytes ((F.told files.new).given self.old.file) self.new.held result }
        ensures empty { OnOk result (length self.new.held ≡ 0) }
        ensures same_file { self.new.file ≡ self.old.file }
        ensures same_format { self.new.format ≡ self.old.format }
        ensures kept { KeepsOther self.old.file (F.told files.old) (F.told files.new) }
        ensures cause { IsStopCause (F.counted files.old) (F.counted files.new) result }
        ensures at { StopsAt self.old.file result }
    {
        match write_whole(files, self.file, self.held.as_slice()) {
            Ok(()) => {
                self.held.clear();
                Ok(())
            }
            Err(fault) => Err(RunFault::of(self.file, fault)),
        }
    }

    /// Gives what is held to the file where it is much.
    #[inline(always)]
    pub(crate) fn flush_full<F: Files>(&mut self, files: &mut F) -> Result<(), RunFault>
        requires created { IsWritten (F.told files.old) self.old.file }
        ensures goes_on { (bytes : List ℕ) →
            Holds bytes ((F.told files.old).given self.old.file) self.old.held →
            GoesOn bytes ((F.told files.new).given self.old.file) self.new.held result }
        // The memory of a run doesn't grow with what it writes.
        ensures little { OnOk result (IsLittle self.new) }
        ensures same_file { self.new.file ≡ self.old.file }
        ensures same_format { self.new.format ≡ self.old.format }
        ensures kept { KeepsOther self.old.file (F.told files.old) (F.told files.new) }
        ensures cause { IsStopCause (F.counted files.old) (F.counted files.new) result }
        ensures at { StopsAt self.old.file result }
    {
        if self.held.len() < PIECE {
            Ok(())
        } else {
            self.flush(files)
        }
    }

    /// Puts a packet behind what is held; it may be said that its frame is not edited.
    #[inline(always)]
    pub(crate) fn hold_record(
        &mut self,
        handled: &HandledParts,
        edited: bool,
    ) -> Result<(), AllocError>
        requires edited { edited ≡ false → IsUnedited handled.now.done.edits }
        ensures held { OnOk result
            (self.new.held ≡ self.old.held ++ written_of self.old.format handled.now) }
        ensures same_file { self.new.file ≡ self.old.file }
        ensures same_format { self.new.format ≡ self.old.format }
    {
        self.held.hold_record(self.format, handled, edited)
    }

    /// The same where the packet is sent out at a port.
    pub(crate) fn hold_sent(
        &mut self,
        port: u32,
        handled: &HandledParts,
        edited: bool,
    ) -> Result<(), AllocError>
        requires edited { edited ≡ false → IsUnedited handled.now.done.edits }
        ensures held { OnOk result
            (self.new.held ≡ self.old.held ++ sent_bytes self.old.format port handled.now) }
        ensures same_file { self.new.file ≡ self.old.file }
        ensures same_format { self.new.format ≡ self.old.format }
    {
        if is_sent(port, handled) {
            self.hold_record(handled, edited)
        } else {
            Ok(())
        }
    }

    /// Puts a packet's line behind what is held.
    #[inline(always)]
    pub(crate) fn hold_line(&mut self, handled: &HandledParts) -> Result<(), AllocError>
        ensures held { OnOk result (self.new.held ≡ self.old.held ++ line_of handled.now) }
        ensures same_file { self.new.file ≡ self.old.file }
        ensures same_format { self.new.format ≡ self.old.format }
    {
        self.held.hold_line(handled)
    }
}
