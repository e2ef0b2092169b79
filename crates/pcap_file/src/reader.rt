//! A capture from a file, one record after the other.
ghost use Rattle.std.specs.Prelude.{◌≡◌, ◌≤◌, ◌+◌, ℕ, List, [], length, drop, Some, Ok, IfOk, IfErr, IfSome, IfNone, OnErr, OnOk};
ghost use Rattle.pcap_file.specs.declared.reader.Next.TheVariants.{End, Torn};
ghost use Rattle.pcap_file.specs.declared.reader.State.TheVariants.{Going, Ended, Cut};
ghost use Rattle.nf_files.specs.Causes.{HasCause};
ghost use Rattle.nf_files.specs.Reads.{Keeps};
ghost use Rattle.nf_files.specs.Told.{Told, IsRead};
ghost use Rattle.pcap_file.specs.Held.{Held, Grows, IsBegun};
ghost use Rattle.pcap_file.specs.Causes.{IsCause, IsNoHeaderFault};
ghost use Rattle.pcap_file.specs.Taken.{TakesHeader, TakesRecord};
ghost use Rattle.pcap_file.specs.Reading.{left, end_of, Steps, Moves, Heads, IsOpened, IsReached, IsOnly};

use crate::fault::CapFault;
use crate::form::{Endian, Form, HEADER, form_of};
use crate::front::Front;
use crate::head::Head;
use crate::record::{RECORD_HEADER, first, size};
use nf_files::{Files, FilesFault};
use std::alloc::{AllocError, Global};
use std::marker::Model;

/// What comes next in a capture.
#[derive(Clone, Copy, Debug, PartialEq, Eq)]
pub enum Next {
    /// A whole record, whose frame was given.
    Frame(Head),
    /// Nothing.
    End,
    /// A torn record, at this offset in bytes: the file ends inside it, it says that more than
    /// 262,144 bytes were captured, or it would end past byte 2^64 - 1.
    Torn(u64),
}

/// Whether the end of a capture was found.
#[derive(Clone, Copy, Debug, PartialEq, Eq)]
pub enum State {
    Going,
    Ended,
    /// A torn record comes next.
    Cut,
}

/// A capture that is read from a file.
///
/// No byte of the file is taken before it is wanted: of the capture the header, the records that
/// were given, and at most one record more. The memory of one record is held.
#[derive(Drop)]
pub struct Reader {
    form: Form,
    offset: u64,
    front: Front,
    state: State,
}

impl Model for Reader {
    ghost use Rattle.pcap_file.specs.Reading.{Reading};

    ghost Value = { Reading };

    ghost view = { λ r.
        record { form = r.form; offset = r.offset; file = r.front.file; state = r.state } };
}

// Takes the record that comes next, or what there is of it, and no byte behind it.
fn reach<F: Files>(
    files: &mut F,
    front: &mut Front,
    order: Endian,
    offset: u64,
) -> Result<(), FilesFault>
    requires opened { IsRead (F.told files.old) front.old.file }
    ensures grows { let none : Held = record { file = front.old.file; bytes = [] } in
        Grows none front.new (F.told files.old) (F.told files.new) }
    ensures reached { let left = (F.told files.new).rest front.old.file in
        OnOk result (IsReached order offset front.new.bytes left) }
    ensures only { OnOk result (IsOnly order offset front.new.bytes) }
    ensures most { length front.new.bytes ≤ 16 + 262144 }
    ensures cause { HasCause (F.counted files.old) (F.counted files.new) front.old.file result }
{
    front.clear();
    if !front.fill(files, RECORD_HEADER)? {
        return Ok(());
    }
    match size(order, offset, front.as_slice()) {
        Some(wanted) => {
            front.fill(files, wanted)?;
            Ok(())
        }
        None => Ok(()),
    }
}

// Puts bytes where others stood, mostly as many.
#[inline(always)]
fn replace(held: &mut Vec<u8>, bytes: &[u8]) -> Result<(), AllocError>
    ensures { OnOk result (held.new.items ≡ bytes.now) }
{
    let count = bytes.len();
    if count <= held.len() {
        held.truncate(count);
        held.as_mut_slice().copy_from_slice(bytes);
        Ok(())
    } else {
        held.clear();
        held.extend_from_slice(bytes)
    }
}

impl Reader {
    /// Reads the header of a capture, 24 bytes.
    ///
    /// The file is one that was opened to be read, and nothing of it was read yet.
    pub fn header<F: Files>(alloc: Global, files: &mut F, file: u32) -> Result<Reader, CapFault>
        requires opened { IsRead (F.told files.old) file }
        // What is left is the capture that the bytes of the file are, or their header is short or
        // wrong.
        ensures heads { Heads ((F.told files.old).rest file) (F.told files.new) result }
        // No byte behind the header is taken.
        ensures takes { let left = (F.told files.old).rest file in
            TakesHeader left ((F.told files.new).rest file) result }
        ensures ok { IfOk result (IsOpened file) }
        ensures kept { Keeps (F.told files.old) (F.told files.new) file }
        ensures cause { IsCause (F.counted files.old) (F.counted files.new) file result }
    {
        match Front::begin(alloc, files, file) {
            Err(fault) => Err(fault),
            Ok(front) => Reader::of(front),
        }
    }

    /// A capture whose file was begun: its header is what is held of it.
    ///
    /// `NotCapture` says that the header is short or wrong.
    pub fn of(front: Front) -> Result<Reader, CapFault>
        // What is left is the capture that the bytes of the file are, or their header is short or
        // wrong.
        ensures heads { (before now : Told) → IsBegun front.file front before now →
            Heads (before.rest front.file) now result }
        ensures ok { IfOk result (IsOpened front.file) }
        ensures err { IfErr result (λ fault. fault ≡ CapFault.NotCapture) }
    {
        match form_of(front.as_slice()) {
            None => Err(CapFault::NotCapture),
            Some(form) => Ok(Reader {
                form,
                offset: HEADER as u64,
                front,
                state: State::Going,
            }),
        }
    }

    // The next record, where it stands ready as a whole; None, and nothing changed, where it doesn't.
    #[inline(always)]
    fn take_ready<F: Files>(
        &mut self,
        files: &mut F,
        frame: &mut Vec<u8>,
    ) -> Option<Result<Next, CapFault>>
        requires opened { IsRead (F.told files.old) self.old.file }
        requires going { self.old.state ≡ Going }
        ensures steps { let before = left self.old (F.told files.old) in
            IfSome result (Steps before (left self.new (F.told files.new)) frame.new.items) }
        ensures moves { IfSome result (Moves self.old self.new frame.old.items frame.new.items) }
        // No byte behind the record is taken.
        ensures takes { let file = self.old.file in
            IfSome result (TakesRecord ((F.told files.old).rest file) ((F.told files.new).rest file)
            frame.new.items) }
        ensures none { IfNone result
            ((self.new ≡ self.old) × (files.new ≡ files.old) × (frame.new ≡ frame.old)) }
        ensures same_place { (self.new.file ≡ self.old.file) × (self.new.form ≡ self.old.form) }
        ensures kept { Keeps (F.told files.old) (F.told files.new) self.old.file }
        ensures cause { F.counted files.new ≡ F.counted files.old }
        ensures err { IfSome result (λ answer. IfErr answer (λ fault. fault ≡ CapFault.Memory)) }
    {
        let ready = files.ahead(self.front.file());
        let record = first(self.form.order, self.offset, ready)?;
        let head = record.head(self.form.unit);
        let size = record.size();
        match replace(frame, record.frame) {
            Err(_) => Some(Err(CapFault::Memory)),
            Ok(()) => {
                files.take(self.front.file(), size);
                self.offset += size as u64;
                Some(Ok(Next::Frame(head)))
            }
        }
    }

    // The next record, where the end was not found yet: a call, since most records stand ready.
    #[inline(never)]
    fn advance<F: Files>(&mut self, files: &mut F, frame: &mut Vec<u8>) -> Result<Next, CapFault>
        requires opened { IsRead (F.told files.old) self.old.file }
        requires going { self.old.state ≡ Going }
        ensures steps { let before = left self.old (F.told files.old) in
            Steps before (left self.new (F.told files.new)) frame.new.items result }
        ensures moves { Moves self.old self.new frame.old.items frame.new.items result }
        // No byte behind the record is taken.
        ensures takes { let file = self.old.file in
            TakesRecord ((F.told files.old).rest file) ((F.told files.new).rest file)
            frame.new.items result }
        ensures same_file { self.new.file ≡ self.old.file }
        ensures same_form { self.new.form ≡ self.old.form }
        ensures kept { Keeps (F.told files.old) (F.told files.new) self.old.file }
        ensures cause { IsCause (F.counted files.old) (F.counted files.new) self.old.file result }
        ensures never { IsNoHeaderFault result }
    {
        reach(files, &mut self.front, self.form.order, self.offset)?;
        match first(self.form.order, self.offset, self.front.as_slice()) {
            None => {
                if self.front.is_empty() {
                    self.state = State::Ended;
                    Ok(Next::End)
                } else {
                    self.state = State::Cut;
                    Ok(Next::Torn(self.offset))
                }
            }
            Some(record) => {
                let head = record.head(self.form.unit);
                let size = record.size();
                frame.clear();
                match frame.extend_from_slice(record.frame) {
                    Err(_) => Err(CapFault::Memory),
                    Ok(()) => {
                        self.offset += size as u64;
                        Ok(Next::Frame(head))
                    }
                }
            }
        }
    }

    /// The next record of the capture as `next` gives it, if it stands ready as a whole; else None,
    /// and nothing changed: then `next` tells. When a record stands ready is no promise.
    #[inline(always)]
    pub fn next_ready<F: Files>(
        &mut self,
        files: &mut F,
        frame: &mut Vec<u8>,
    ) -> Option<Result<Next, CapFault>>
        requires opened { IsRead (F.told files.old) self.old.file }
        ensures steps { let before = left self.old (F.told files.old) in
            IfSome result (Steps before (left self.new (F.told files.new)) frame.new.items) }
        ensures moves { IfSome result (Moves self.old self.new frame.old.items frame.new.items) }
        // No byte behind the record is taken.
        ensures takes { let file = self.old.file in
            IfSome result (TakesRecord ((F.told files.old).rest file) ((F.told files.new).rest file)
            frame.new.items) }
        ensures none { IfNone result
            ((self.new ≡ self.old) × (files.new ≡ files.old) × (frame.new ≡ frame.old)) }
        ensures same_place { (self.new.file ≡ self.old.file) × (self.new.form ≡ self.old.form) }
        ensures kept { Keeps (F.told files.old) (F.told files.new) self.old.file }
        ensures cause { F.counted files.new ≡ F.counted files.old }
        ensures err { IfSome result (λ answer. IfErr answer (λ fault. fault ≡ CapFault.Memory)) }
    {
        match self.state {
            State::Going => self.take_ready(files, frame),
            _ => None,
        }
    }

    /// The next record of the capture: its head, and its frame in `frame`.
    ///
    /// After `End` or `Torn` the answer stays the same. After an `Err` this reader may have moved,
    /// and no call is to be made on it.
    pub fn next<F: Files>(&mut self, files: &mut F, frame: &mut Vec<u8>) -> Result<Next, CapFault>
        requires opened { IsRead (F.told files.old) self.old.file }
        // Where the rest of the file is told: the next record of what is left is taken off it, or
        // there is none, and the capture ends or is torn as the answer says.
        ensures steps { let before = left self.old (F.told files.old) in
            Steps before (left self.new (F.told files.new)) frame.new.items result }
        // And in any case: how far the reader moved, and whether it found the end.
        ensures moves { Moves self.old self.new frame.old.items frame.new.items result }
        // No byte behind the record is taken.
        ensures takes { let file = self.old.file in
            TakesRecord ((F.told files.old).rest file) ((F.told files.new).rest file)
            frame.new.items result }
        ensures again { (x : Next) → end_of self.old.state self.old.offset ≡ Some x →
            (result ≡ Ok x) × (self.new ≡ self.old) × (F.told files.new ≡ F.told files.old) }
        ensures same_file { self.new.file ≡ self.old.file }
        ensures same_form { self.new.form ≡ self.old.form }
        ensures kept { Keeps (F.told files.old) (F.told files.new) self.old.file }
        ensures cause { IsCause (F.counted files.old) (F.counted files.new) self.old.file result }
        ensures never { IsNoHeaderFault result }
    {
        match self.state {
            State::Ended => Ok(Next::End),
            State::Cut => Ok(Next::Torn(self.offset)),
            State::Going => match self.take_ready(files, frame) {
                Some(answer) => answer,
                None => self.advance(files, frame),
            },
        }
    }
}
