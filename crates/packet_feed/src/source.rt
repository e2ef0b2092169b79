//! One capture that is read as a stream.
ghost use Rattle.std.specs.Prelude.{◌≡◌, ◌+◌, ◌-◌, ◌^◌, ◌<◌, ◌≤◌, ℕ, length, if◌then◌else◌, Some, None, OnOk, IfSome, option_map};
ghost use Rattle.nf_files.specs.Told.{IsRead};
ghost use Rattle.frame_ip.specs.Frame.{fields_in};
ghost use Rattle.nf_base.specs.Doors.{served_fields};
ghost use Rattle.nf_files.specs.Reads.{Keeps};
ghost use Rattle.pcap_file.specs.Causes.{IsCause, IsNoHeaderFault};
ghost use Rattle.pcap_file.specs.Record.{greatest_time};
ghost use Rattle.packet_feed.specs.declared.ahead.Ahead.TheVariants.{Unread, Held};
ghost use Rattle.packet_feed.specs.Arrivals.{fields_captured, fields_seen};
ghost use Rattle.packet_feed.specs.Streams.{tear_in, time_in, is_held, last_given, last_read, held, IsFrom};
ghost use Rattle.packet_feed.specs.Sources.{Opens, IsFilled};

use crate::ahead::Ahead;
use crate::captured::Captured;
use frame_ip::{View, family_of, fields, view};
use nf_base::packet::{Family, Fields, Packet, PacketId};
use nf_files::Files;
use pcap_file::{CapFault, Head};
use pcapng_file::Next;
use std::alloc::Global;
use std::marker::Model;

/// A capture, and at most one packet of it that was read and not yet given.
#[derive(Drop)]
pub(crate) struct Source {
    captured: Captured,
    /// Whether the capture's port has a handler for IPv6.
    six: bool,
    ahead: Ahead,
    /// How many packets were given.
    seq: u32,
    /// The latest time of the packets that were read, in nanoseconds.
    latest: u64,
    /// Of the packet that was read last: whether it is an Ethernet frame, the frame's length on the
    /// wire, and its captured bytes.
    is_ethernet: bool,
    original: u32,
    frame: Vec<u8>,
}

// Whether a port's handlers see a handled frame.
#[inline(always)]
fn is_served(six: bool, seen: &View<'_>) -> bool
    ensures { served_fields six (Some (fields_seen seen.now))
        ≡ (if result then Some (fields_seen seen.now) else None) }
{
    match family_of(seen) {
        Family::Six => six,
        Family::Four => true,
    }
}

// A frame as its port's handlers see it. It is moved nowhere on its way.
#[inline(always)]
fn served<'a>(six: bool, frame: &'a [u8], original: u32) -> Option<View<'a>>
    ensures seen { IfSome result (λ v. v ≡ record { frame = frame.now; original = original }) }
    ensures fields { option_map fields_seen result
        ≡ served_fields six (fields_in frame.now original) }
{
    let seen = view(frame, original);
    match &seen {
        None => None,
        Some(found) => { if is_served(six, found) { seen } else { None } }
    }
}

impl Model for Source {
    ghost use Rattle.std.specs.Prelude.{◌≡◌, ◌≤◌, length};
    ghost use Rattle.pcap_file.specs.Record.{greatest_time};
    ghost use Rattle.packet_feed.specs.declared.ahead.Ahead.TheVariants.{Held};
    ghost use Rattle.packet_feed.specs.Captures.{file_in};
    ghost use Rattle.packet_feed.specs.Streams.{Stream};

    ghost Value = { Stream };

    ghost view = { λ s. record {
      reading = record { file = file_in s.captured; captured = s.captured };
      six = s.six;
      ahead = s.ahead;
      seq = s.seq;
      latest = s.latest;
      is_ethernet = s.is_ethernet;
      original = s.original;
      frame = s.frame.items;
    } };

    ghost invariant = { λ s.
        (s.latest ≤ greatest_time) × (s.ahead ≡ Held → length s.frame.items ≤ 262144) };
}

impl Source {
    /// Reads the header of a capture, whose port has a handler for IPv6 or has none.
    pub(crate) fn open<F: Files>(
        alloc: Global,
        files: &mut F,
        file: u32,
        six: bool,
    ) -> Result<Source, CapFault>
        requires opened { IsRead (F.told files.old) file }
        ensures opens { let before = (F.told files.old).rest file in
            Opens file six before ((F.told files.new).rest file) result }
        ensures kept { Keeps (F.told files.old) (F.told files.new) file }
        ensures cause { IsCause (F.counted files.old) (F.counted files.new) file result }
    {
        let captured = Captured::header(alloc, files, file)?;
        Ok(Source {
            captured,
            six,
            ahead: Ahead::Unread,
            seq: 0,
            latest: 0,
            is_ethernet: false,
            original: 0,
            frame: Vec::new(alloc),
        })
    }

    /// Where the capture was found to be torn.
    pub(crate) fn tear(&self) -> Option<u64>
        ensures { result ≡ tear_in self.now.ahead }
    {
        match self.ahead {
            Ahead::Torn(offset) => Some(offset),
            _ => None,
        }
    }

    /// The time of the packet that was read ahead, if one was.
    #[inline]
    pub(crate) fn time(&self) -> Option<u64>
        ensures { result ≡ time_in self.now.ahead self.now.latest }
    {
        match self.ahead {
            Ahead::Held => Some(self.latest),
            _ => None,
        }
    }

    /// Whether a packet was read ahead.
    pub(crate) fn is_held(&self) -> bool
        ensures { result ≡ is_held self.now.ahead }
    {
        match self.ahead {
            Ahead::Held => true,
            _ => false,
        }
    }

    /// The captured bytes of the frame that was read last.
    pub(crate) fn frame(&self) -> &[u8]
        ensures { result.now ≡ self.now.frame }
    {
        self.frame.as_slice()
    }

    /// Its length on the wire.
    pub(crate) fn original(&self) -> u32
        ensures { result ≡ self.now.original }
    {
        self.original
    }

    // A packet was read, whose captured bytes are held.
    #[inline]
    fn hold(&mut self, is_ethernet: bool, head: Head)
        requires time { head.time ≤ greatest_time }
        requires captured { length self.old.frame ≤ 262144 }
        ensures { self.new ≡ held is_ethernet head self.old }
    {
        self.latest = self.latest.max(head.time);
        self.is_ethernet = is_ethernet;
        self.original = head.original;
        self.ahead = Ahead::Held;
    }

    // Reads the next packet, which may have to be read from its file.
    #[inline(never)]
    fn read_on<F: Files>(&mut self, files: &mut F) -> Result<(), CapFault>
        requires opened { IsRead (F.told files.old) self.old.reading.file }
        requires unread { self.old.ahead ≡ Unread }
        ensures filled { let file = self.old.reading.file in
            OnOk result (IsFilled self.old self.new
            ((F.told files.old).rest file) ((F.told files.new).rest file)) }
        ensures later { (time : ℕ) → IsFrom time self.old.ahead self.old.latest →
            OnOk result (IsFrom time self.new.ahead self.new.latest) }
        ensures same_file { self.new.reading.file ≡ self.old.reading.file }
        ensures same_count { self.new.seq ≡ self.old.seq }
        ensures same_six { self.new.six ≡ self.old.six }
        ensures kept { Keeps (F.told files.old) (F.told files.new) self.old.reading.file }
        ensures cause { let file = self.old.reading.file in
            IsCause (F.counted files.old) (F.counted files.new) file result }
        ensures never { IsNoHeaderFault result }
    {
        match self.captured.next(files, &mut self.frame)? {
            Next::Frame(head) => self.hold(true, head),
            Next::Other(head) => self.hold(false, head),
            Next::End => self.ahead = Ahead::Ended,
            Next::Torn(offset) => self.ahead = Ahead::Torn(offset),
        }
        Ok(())
    }

    // Reads the next packet. Most are whole records that stand ready.
    #[inline]
    fn read<F: Files>(&mut self, files: &mut F) -> Result<(), CapFault>
        requires opened { IsRead (F.told files.old) self.old.reading.file }
        requires unread { self.old.ahead ≡ Unread }
        ensures filled { let file = self.old.reading.file in
            OnOk result (IsFilled self.old self.new
            ((F.told files.old).rest file) ((F.told files.new).rest file)) }
        ensures later { (time : ℕ) → IsFrom time self.old.ahead self.old.latest →
            OnOk result (IsFrom time self.new.ahead self.new.latest) }
        ensures same_file { self.new.reading.file ≡ self.old.reading.file }
        ensures same_count { self.new.seq ≡ self.old.seq }
        ensures same_six { self.new.six ≡ self.old.six }
        ensures kept { Keeps (F.told files.old) (F.told files.new) self.old.reading.file }
        ensures cause { let file = self.old.reading.file in
            IsCause (F.counted files.old) (F.counted files.new) file result }
        ensures never { IsNoHeaderFault result }
    {
        match self.captured.next_ready(files, &mut self.frame) {
            None => self.read_on(files),
            Some(Err(fault)) => Err(fault),
            Some(Ok(Next::Frame(head))) => {
                self.hold(true, head);
                Ok(())
            }
            Some(Ok(Next::Other(head))) => {
                self.hold(false, head);
                Ok(())
            }
            Some(Ok(Next::End)) => {
                self.ahead = Ahead::Ended;
                Ok(())
            }
            Some(Ok(Next::Torn(offset))) => {
                self.ahead = Ahead::Torn(offset);
                Ok(())
            }
        }
    }

    /// Reads the next packet, where it isn't known yet what comes next.
    #[inline]
    pub(crate) fn fill<F: Files>(&mut self, files: &mut F) -> Result<(), CapFault>
        requires opened { IsRead (F.told files.old) self.old.reading.file }
        ensures filled { let file = self.old.reading.file in
            OnOk result (IsFilled self.old self.new
            ((F.told files.old).rest file) ((F.told files.new).rest file)) }
        ensures later { (time : ℕ) → IsFrom time self.old.ahead self.old.latest →
            OnOk result (IsFrom time self.new.ahead self.new.latest) }
        ensures same_file { self.new.reading.file ≡ self.old.reading.file }
        ensures same_count { self.new.seq ≡ self.old.seq }
        ensures same_six { self.new.six ≡ self.old.six }
        ensures kept { Keeps (F.told files.old) (F.told files.new) self.old.reading.file }
        ensures cause { let file = self.old.reading.file in
            IsCause (F.counted files.old) (F.counted files.new) file result }
        ensures never { IsNoHeaderFault result }
    {
        match self.ahead {
            Ahead::Unread => self.read(files),
            _ => Ok(()),
        }
    }

    /// The frame that was read last, as its port's handlers see it; None where it is skipped.
    #[inline(always)]
    pub(crate) fn view(&self) -> Option<View<'_>>
        ensures seen { let s = self.now in
            IfSome result (λ v. v ≡ record { frame = s.frame; original = s.original }) }
        ensures fields { let s = self.now in option_map fields_seen result
            ≡ served_fields s.six (fields_captured s.is_ethernet s.frame s.original) }
    {
        if !self.is_ethernet {
            return None;
        }
        served(self.six, self.frame.as_slice(), self.original)
    }

    // Its fields.
    #[inline]
    fn fields(&self) -> Option<Fields>
        ensures { let s = self.now in
            result ≡ served_fields s.six (fields_captured s.is_ethernet s.frame s.original) }
    {
        match self.view() {
            Some(seen) => Some(fields(&seen)),
            None => None,
        }
    }

    /// Which packet was given last, of a port.
    #[inline]
    #[tactic(auto, unfolding(crate::specs::Arrivals::arrival_of))]
    pub(crate) fn id(&self, port: u32) -> PacketId
        ensures { result ≡ (last_given port self.now).id }
    {
        PacketId {
            port,
            seq: self.seq.saturating_sub(1),
        }
    }

    /// When it came, in nanoseconds.
    #[inline]
    #[tactic(auto, unfolding(crate::specs::Arrivals::arrival_of))]
    pub(crate) fn latest(&self) -> u64
        ensures value { (port : ℕ) → result ≡ (last_given port self.now).time }
        ensures within { result ≤ greatest_time }
    {
        self.latest
    }

    /// The packet that was given last, as one of a port.
    #[inline(always)]
    #[tactic(auto, unfolding(crate::specs::Arrivals::arrival_of))]
    pub(crate) fn last(&self, port: u32) -> Packet
        ensures { result ≡ last_given port self.now }
    {
        Packet {
            id: self.id(port),
            time: self.latest,
            fields: self.fields(),
        }
    }

    /// Gives the packet that was read ahead.
    #[inline]
    pub(crate) fn pass(&mut self)
        requires held { self.old.ahead ≡ Held }
        requires room { self.old.seq < 2 ^ 32 - 1 }
        ensures given { self.new ≡ record self.old { ahead = Unread; seq = self.old.seq + 1 } }
        ensures time { self.old.latest ≤ greatest_time }
        ensures captured { length self.old.frame ≤ 262144 }
    {
        self.ahead = Ahead::Unread;
        self.seq += 1;
    }

    /// The same, and which it is, as one of a port.
    #[inline]
    pub(crate) fn give(&mut self, port: u32) -> Packet
        requires held { self.old.ahead ≡ Held }
        requires room { self.old.seq < 2 ^ 32 - 1 }
        ensures packet { result ≡ (last_read port self.old).packet }
        ensures given { self.new ≡ record self.old { ahead = Unread; seq = self.old.seq + 1 } }
        ensures time { result.time ≤ greatest_time }
        ensures captured { length self.old.frame ≤ 262144 }
    {
        self.pass();
        self.last(port)
    }
}
