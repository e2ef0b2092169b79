//! A pcapng capture from a file, one packet after the other.
ghost use Rattle.std.specs.Prelude.{◌≡◌, ℕ, List, Some, Ok, IfOk, IfErr, IfSome, IfNone};
ghost use Rattle.pcap_file.specs.declared.reader.State.TheVariants.{Going};
ghost use Rattle.nf_files.specs.Reads.{Keeps};
ghost use Rattle.nf_files.specs.Told.{Told, IsRead};
ghost use Rattle.pcap_file.specs.Held.{IsBegun};
ghost use Rattle.pcap_file.specs.Causes.{IsCause, IsNoHeaderFault};
ghost use Rattle.pcap_file.specs.Taken.{TakesHeader};
ghost use Rattle.pcapng_file.specs.Heard.{Stream};
ghost use Rattle.pcapng_file.specs.Reading.{left, end_of, Steps, Moves, Heads, IsOpened, Stepped, StepMoves};

use crate::block::{Taken, block_ahead, take};
use crate::header::{HEADER, header_in, is_pcapng};
use crate::place::Place;
use crate::step::Step;
use nf_files::Files;
use pcap_file::{CapFault, Front, Head, State};
use std::alloc::Global;
use std::marker::Model;

/// What comes next in a pcapng capture.
#[derive(Clone, Copy, Debug, PartialEq, Eq)]
pub enum Next {
    /// A packet of an Ethernet, whose frame was given.
    Frame(Head),
    /// A packet of another link type, whose captured bytes were given.
    Other(Head),
    /// Nothing.
    End,
    /// A torn block, at this offset in bytes: it is cut, its lengths are wrong or differ, its body does
    /// not hold what it is to, or it is the 4,294,967,296th block in a row that is no packet.
    Torn(u64),
}

/// A pcapng capture that is read from a file.
///
/// No byte of the file is taken before it is wanted, and a packet is given after its block's closing
/// length was read and tested. The memory of one packet is held, and of 256 interfaces at most; other
/// blocks, and what stands behind a packet's frame, are stepped over a piece at a time.
#[derive(Drop)]
pub struct NgReader {
    place: Place,
    front: Front,
    state: State,
}

impl Model for NgReader {
    ghost use Rattle.pcapng_file.specs.Reading.{Reading};
    ghost use Rattle.pcapng_file.specs.Taking.{IsReady};

    ghost Value = { Reading };

    ghost view = { λ r. record {
      section = r.place.section;
      quiet = r.place.quiet;
      offset = r.place.offset;
      held = r.front.bytes;
      file = r.front.file;
      state = r.state;
    } };

    ghost invariant = { λ r. IsReady r.front.bytes };
}

impl NgReader {
    /// Reads the header of a pcapng capture, 24 bytes.
    ///
    /// The file is one that was opened to be read, and nothing of it was read yet.
    pub fn header<F: Files>(alloc: Global, files: &mut F, file: u32) -> Result<NgReader, CapFault>
        requires opened { IsRead (F.told files.old) file }
        // What is left is the capture that the bytes of the file are, or their header is short or
        // wrong.
        ensures heads { Heads ((F.told files.old).rest file) (F.told files.new) result }
        // No byte behind the header is taken.
        ensures takes { let left = (F.told files.old).rest file in
            TakesHeader left ((F.told files.new).rest file) result }
        ensures ok { IfOk result (IsOpened file) }
        ensures kept { Keeps (F.told files.old) (F.told files.new) file }
        ensures cause { IsCause (F.counted files.old) (F.counted files.new) file result }
    {
        match Front::begin(alloc, files, file) {
            Err(fault) => Err(fault),
            Ok(front) => NgReader::of(alloc, front),
        }
    }

    /// A capture whose file was begun: the header of its first section is what is held of it.
    ///
    /// `NotCapture` says that the header is short or wrong.
    pub fn of(alloc: Global, front: Front) -> Result<NgReader, CapFault>
        // What is left is the capture that the bytes of the file are, or their header is short or
        // wrong.
        ensures heads { (before now : Told) → IsBegun front.file front before now →
            Heads (before.rest front.file) now result }
        ensures ok { IfOk result (IsOpened front.file) }
        ensures err { IfErr result (λ fault. fault ≡ CapFault.NotCapture) }
    {
        let held = front.as_slice();
        if held.len() != HEADER || !is_pcapng(held) {
            return Err(CapFault::NotCapture);
        }
        match header_in(held) {
            None => Err(CapFault::NotCapture),
            Some(order) => Ok(NgReader {
                place: Place::new(alloc, order),
                front,
                state: State::Going,
            }),
        }
    }

    // Takes one block by reads: what comes next, and None where it was no packet.
    fn read_step<F: Files>(
        &mut self,
        files: &mut F,
        frame: &mut Vec<u8>,
    ) -> Result<Option<Next>, CapFault>
        requires opened { IsRead (F.told files.old) self.old.file }
        requires going { self.old.state ≡ Going }
        ensures stepped { (before : Stream) → left self.old (F.told files.old) ≡ Some before →
            IfOk result (Stepped before (left self.new (F.told files.new)) frame.new.items) }
        ensures moved { IfOk result
            (StepMoves self.old self.new frame.old.items frame.new.items) }
        ensures same_file { self.new.file ≡ self.old.file }
        ensures kept { Keeps (F.told files.old) (F.told files.new) self.old.file }
        ensures cause { IsCause (F.counted files.old) (F.counted files.new) self.old.file result }
        ensures never { IsNoHeaderFault result }
    {
        match take(
            files,
            &mut self.front,
            self.place.order(),
            self.place.offset(),
        )? {
            Taken::Nothing => {
                self.state = State::Ended;
                Ok(Some(Next::End))
            }
            Taken::Torn => {
                self.state = State::Cut;
                Ok(Some(Next::Torn(self.place.offset())))
            }
            Taken::Whole(block) => {
                let held = self.front.as_slice();
                let heard = self.place.hear(block.order, held, block.total, frame);
                self.front.clear();
                let step = match heard {
                    Err(_) => return Err(CapFault::Memory),
                    Ok(step) => step,
                };
                match step {
                    Step::Quiet => Ok(None),
                    Step::Frame(head) => Ok(Some(Next::Frame(head))),
                    Step::Other(head) => Ok(Some(Next::Other(head))),
                    Step::Stopped => {
                        self.state = State::Cut;
                        Ok(Some(Next::Torn(self.place.offset())))
                    }
                }
            }
        }
    }

    // Takes one block that stands ready as a whole: what comes next, and None where it was no packet. Where
    // none stands ready nothing changes.
    #[inline]
    fn take_ready<F: Files>(
        &mut self,
        files: &mut F,
        frame: &mut Vec<u8>,
    ) -> Option<Result<Option<Next>, CapFault>>
        requires opened { IsRead (F.told files.old) self.old.file }
        requires going { self.old.state ≡ Going }
        ensures stepped { (before : Stream) → left self.old (F.told files.old) ≡ Some before →
            IfSome result (λ answer. IfOk answer
            (Stepped before (left self.new (F.told files.new)) frame.new.items)) }
        ensures moved { IfSome result (λ answer. IfOk answer
            (StepMoves self.old self.new frame.old.items frame.new.items)) }
        ensures none { IfNone result
            ((self.new ≡ self.old) × (files.new ≡ files.old) × (frame.new ≡ frame.old)) }
        ensures same_file { self.new.file ≡ self.old.file }
        ensures kept { Keeps (F.told files.old) (F.told files.new) self.old.file }
        ensures count { F.counted files.new ≡ F.counted files.old }
        ensures err { IfSome result (λ answer. IfErr answer (λ fault. fault ≡ CapFault.Memory)) }
    {
        if !self.front.is_empty() {
            return None;
        }
        let file = self.front.file();
        let order = self.place.order();
        let ready = files.ahead(file);
        let total = block_ahead(order, self.place.offset(), ready)?;
        let held = &ready[..total as usize - 4];
        let heard = self.place.hear(order, held, total, frame);
        files.take(file, total as usize);
        let step = match heard {
            Err(_) => return Some(Err(CapFault::Memory)),
            Ok(step) => step,
        };
        match step {
            Step::Quiet => Some(Ok(None)),
            Step::Frame(head) => Some(Ok(Some(Next::Frame(head)))),
            Step::Other(head) => Some(Ok(Some(Next::Other(head)))),
            Step::Stopped => {
                self.state = State::Cut;
                Some(Ok(Some(Next::Torn(self.place.offset()))))
            }
        }
    }

    // Takes one block: what comes next, and None where it was no packet.
    fn step<F: Files>(
        &mut self,
        files: &mut F,
        frame: &mut Vec<u8>,
    ) -> Result<Option<Next>, CapFault>
        requires opened { IsRead (F.told files.old) self.old.file }
        requires going { self.old.state ≡ Going }
        ensures stepped { (before : Stream) → left self.old (F.told files.old) ≡ Some before →
            IfOk result (Stepped before (left self.new (F.told files.new)) frame.new.items) }
        ensures moved { IfOk result
            (StepMoves self.old self.new frame.old.items frame.new.items) }
        ensures same_file { self.new.file ≡ self.old.file }
        ensures kept { Keeps (F.told files.old) (F.told files.new) self.old.file }
        ensures cause { IsCause (F.counted files.old) (F.counted files.new) self.old.file result }
        ensures never { IsNoHeaderFault result }
    {
        match self.take_ready(files, frame) {
            Some(answer) => answer,
            None => self.read_step(files, frame),
        }
    }

    // The next packet, where the end was not found yet.
    fn advance<F: Files>(&mut self, files: &mut F, frame: &mut Vec<u8>) -> Result<Next, CapFault>
        requires opened { IsRead (F.told files.old) self.old.file }
        requires going { self.old.state ≡ Going }
        ensures steps { let before = left self.old (F.told files.old) in
            Steps before (left self.new (F.told files.new)) frame.new.items result }
        ensures moves { Moves self.old self.new frame.old.items frame.new.items result }
        ensures same_file { self.new.file ≡ self.old.file }
        ensures kept { Keeps (F.told files.old) (F.told files.new) self.old.file }
        ensures cause { IsCause (F.counted files.old) (F.counted files.new) self.old.file result }
        ensures never { IsNoHeaderFault result }
    {
        loop {
            if let Some(next) = self.step(files, frame)? {
                return Ok(next);
            }
        }
    }

    /// The next packet of the capture: its head, and its captured bytes in `frame`.
    ///
    /// After `End` or `Torn` the answer stays the same. After an `Err` this reader may have moved,
    /// and no call is to be made on it.
    pub fn next<F: Files>(&mut self, files: &mut F, frame: &mut Vec<u8>) -> Result<Next, CapFault>
        requires opened { IsRead (F.told files.old) self.old.file }
        // Where the rest of the file is told: the next packet of what is left is taken off it, or
        // there is none, and the capture ends or is torn as the answer says.
        ensures steps { let before = left self.old (F.told files.old) in
            Steps before (left self.new (F.told files.new)) frame.new.items result }
        // And in any case: how far the reader moved, and whether it found the end.
        ensures moves { Moves self.old self.new frame.old.items frame.new.items result }
        ensures again { (x : Next) → end_of self.old.state self.old.offset ≡ Some x →
            (result ≡ Ok x) × (self.new ≡ self.old) × (F.told files.new ≡ F.told files.old) }
        ensures same_file { self.new.file ≡ self.old.file }
        ensures kept { Keeps (F.told files.old) (F.told files.new) self.old.file }
        ensures cause { IsCause (F.counted files.old) (F.counted files.new) self.old.file result }
        ensures never { IsNoHeaderFault result }
    {
        match self.state {
            State::Ended => Ok(Next::End),
            State::Cut => Ok(Next::Torn(self.place.offset())),
            State::Going => self.advance(files, frame),
        }
    }
}
