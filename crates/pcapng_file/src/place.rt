//! Where a reader stands in a capture: its section, and the offset of the next block.
ghost use Rattle.std.specs.Prelude.{◌≡◌, ◌+◌, ◌<◌, ◌≤◌, ◌^◌, ℕ, List, length, Some, IfOk, IfSome, if◌then◌else◌, nat_lt};
ghost use Rattle.std.specs.Option.{option_map};
ghost use Rattle.pcapng_file.specs.Blocks.{opened, said_in, Begins, Describes, Gives, Nothing};
ghost use Rattle.pcapng_file.specs.Taking.{IsSized, IsBlockFront};
ghost use Rattle.pcapng_file.specs.Places.{Hears, Moved};

use crate::header::is_pcapng;
use crate::interface::Interface;
use crate::number::number;
use crate::packet::{Packet, described, enhanced, simple};
use crate::step::Step;
use pcap_file::Endian;
use std::alloc::{AllocError, Global};
use std::marker::Model;

/// The type of an interface's block.
const INTERFACE: u32 = 1;

/// The type of a packet's block without a time.
const SIMPLE: u32 = 3;

/// The type of a packet's block.
const ENHANCED: u32 = 6;

/// Where a reader stands in a capture.
#[derive(Drop)]
pub(crate) struct Place {
    /// Of the section: its byte order, and its interfaces.
    pub(crate) order: Endian,
    interfaces: Vec<Interface>,
    /// How many blocks in a row were no packet.
    quiet: u32,
    /// Of the next block, in bytes.
    pub(crate) offset: u64,
}

impl Model for Place {
    ghost use Rattle.pcapng_file.specs.Places as spelled;

    ghost Value = { spelled.Place };

    ghost view = { λ p. record {
      section = record { order = p.order; interfaces = p.interfaces.items };
      quiet = p.quiet;
      offset = p.offset;
    } };
}

impl Place {
    /// In front of a capture of which no block was taken.
    pub(crate) fn new(alloc: Global, order: Endian) -> Self
        ensures { result ≡ record { section = opened order; quiet = 0; offset = 0 } }
    {
        Place {
            order,
            interfaces: Vec::new(alloc),
            quiet: 0,
            offset: 0,
        }
    }

    pub(crate) fn order(&self) -> Endian
        ensures { result ≡ self.now.section.order }
    {
        self.order
    }

    pub(crate) fn offset(&self) -> u64
        ensures { result ≡ self.now.offset }
    {
        self.offset
    }

    // Moves behind a block of so many bytes that is no packet; false says that it is the 2^32-th in a
    // row, and nothing moved.
    fn pass(&mut self, total: u32) -> bool
        requires { self.old.offset + total < 2 ^ 64 }
        ensures value { result ≡ nat_lt (self.old.quiet + 1) (2 ^ 32) }
        ensures place { self.new ≡ (if result then record {
          section = self.old.section;
          quiet = self.old.quiet + 1;
          offset = self.old.offset + total;
        } else self.old) }
    {
        match self.quiet.checked_add(1) {
            None => false,
            Some(quiet) => {
                self.quiet = quiet;
                self.offset += u64::from(total);
                true
            }
        }
    }

    // A section begins.
    fn begin(&mut self, order: Endian, total: u32) -> Step
        requires { self.old.offset + total < 2 ^ 64 }
        ensures hears { let said = Some (Begins (opened order)) in
            (frame : List ℕ) → Hears self.old self.new total said frame result }
        ensures moved { (frame : List ℕ) → Moved self.old self.new total frame frame result }
    {
        if !self.pass(total) {
            return Step::Stopped;
        }
        self.order = order;
        self.interfaces.clear();
        Step::Quiet
    }

    // A block that is stepped over.
    fn pass_over(&mut self, total: u32) -> Step
        requires { self.old.offset + total < 2 ^ 64 }
        ensures hears { let said = Some Nothing in
            (frame : List ℕ) → Hears self.old self.new total said frame result }
        ensures moved { (frame : List ℕ) → Moved self.old self.new total frame frame result }
    {
        if self.pass(total) {
            Step::Quiet
        } else {
            Step::Stopped
        }
    }

    // A block that describes an interface, where it does.
    fn describe(&mut self, found: Option<Interface>, total: u32) -> Result<Step, AllocError>
        requires { self.old.offset + total < 2 ^ 64 }
        ensures hears { let said = option_map Describes found in
            (frame : List ℕ) → IfOk result (Hears self.old self.new total said frame) }
        ensures moved { (frame : List ℕ) → IfOk result (Moved self.old self.new total frame frame) }
    {
        match found {
            None => Ok(Step::Stopped),
            Some(interface) => {
                if !self.pass(total) {
                    return Ok(Step::Stopped);
                }
                self.interfaces.push(interface)?;
                Ok(Step::Quiet)
            }
        }
    }

    // A block of a packet, where it holds one.
    fn give(
        &mut self,
        found: Option<Packet<'_>>,
        total: u32,
        frame: &mut Vec<u8>,
    ) -> Result<Step, AllocError>
        requires ends { self.old.offset + total < 2 ^ 64 }
        requires within { IfSome found (λ packet. 16 + length packet.frame ≤ total) }
        ensures hears { let said = option_map Gives found.entry in
            IfOk result (Hears self.old self.new total said frame.new.items) }
        ensures moved { IfOk result
            (Moved self.old self.new total frame.old.items frame.new.items) }
    {
        match found {
            None => Ok(Step::Stopped),
            Some(packet) => {
                let head = packet.head();
                frame.clear();
                frame.extend_from_slice(packet.frame)?;
                self.quiet = 0;
                self.offset += u64::from(total);
                if packet.is_ethernet {
                    Ok(Step::Frame(head))
                } else {
                    Ok(Step::Other(head))
                }
            }
        }
    }

    /// What the block of `total` bytes comes to of which the front is held, up to 262,172 bytes and not
    /// its closing length, in its byte order.
    ///
    /// The frame of a packet is put in `frame`. After an `Err` this place may have moved.
    pub(crate) fn hear(
        &mut self,
        order: Endian,
        held: &[u8],
        total: u32,
        frame: &mut Vec<u8>,
    ) -> Result<Step, AllocError>
        requires sized { IsSized self.old.offset total held.now }
        ensures hears { (bytes : List ℕ) → IsBlockFront order total held.now bytes →
            let said = said_in self.old.section order bytes in
            IfOk result (Hears self.old self.new total said frame.new.items) }
        ensures moved { IfOk result
            (Moved self.old self.new total frame.old.items frame.new.items) }
    {
        if is_pcapng(held) {
            return Ok(self.begin(order, total));
        }
        let kind = number(order, held);
        let body = &held[8..];
        let size = total as usize - 12;
        if kind == INTERFACE {
            let found = described(self.interfaces.as_slice(), self.order, body, size);
            self.describe(found, total)
        } else if kind == ENHANCED {
            let found = enhanced(self.interfaces.as_slice(), self.order, body, size);
            self.give(found, total, frame)
        } else if kind == SIMPLE {
            let found = simple(self.interfaces.as_slice(), self.order, body, size);
            self.give(found, total, frame)
        } else {
            Ok(self.pass_over(total))
        }
    }
}
