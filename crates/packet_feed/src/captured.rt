//! A capture that is read from its file, one packet after the other, whatever its format.
ghost use Rattle.std.specs.Prelude.{◌≡◌, ◌≤◌, ℕ, true, Some, IfOk, IfErr, IfSome, IfNone, option_map};
ghost use Rattle.nf_files.specs.Told.{Told, IsRead};
ghost use Rattle.nf_files.specs.Reads.{Keeps};
ghost use Rattle.pcap_file.specs.Held.{IsBegun};
ghost use Rattle.pcap_file.specs.Causes.{IsCause, IsNoHeaderFault};
ghost use Rattle.pcap_file.specs.Reading.{left_in};
ghost use Rattle.pcapng_file.specs.Heard.{stream_of};
ghost use Rattle.pcapng_file.specs.Reading as blocks;
ghost use Rattle.packet_feed.specs.Captures.{next_of, file_in, is_pcap, left_of, records_left, Heads, IsHeaded, IsKind, Moves, Steps, TakesRecord};

use nf_files::Files;
use pcap_file::{CapFault, Front, Reader};
use pcapng_file::{Next, NgReader, is_pcapng};
use std::alloc::Global;

/// A capture that is read from its file, one packet after the other.
#[derive(Drop)]
pub(crate) enum Captured {
    /// In the libpcap file format.
    Pcap(Reader),
    /// In the pcapng format.
    Pcapng(NgReader),
}

// What the next record of a libpcap capture is.
#[inline]
fn next_of(next: pcap_file::Next) -> Next
    ensures { result ≡ next_of next }
{
    match next {
        pcap_file::Next::Frame(head) => Next::Frame(head),
        pcap_file::Next::End => Next::End,
        pcap_file::Next::Torn(offset) => Next::Torn(offset),
    }
}

// The next record of a libpcap capture.
#[inline]
fn next_record<F: Files>(
    reader: &mut Reader,
    files: &mut F,
    frame: &mut Vec<u8>,
) -> Result<Next, CapFault>
    requires opened { IsRead (F.told files.old) reader.old.file }
    ensures steps { let file = reader.old.file in
        let before = records_left reader.old ((F.told files.old).rest file) in
        let after = records_left reader.new ((F.told files.new).rest file) in
        Steps before after frame.new.items result }
    ensures moves { Moves frame.old.items frame.new.items result }
    // No byte behind the record is taken.
    ensures takes { let file = reader.old.file in
        TakesRecord ((F.told files.old).rest file) ((F.told files.new).rest file)
        frame.new.items result }
    ensures same_file { reader.new.file ≡ reader.old.file }
    ensures kept { Keeps (F.told files.old) (F.told files.new) reader.old.file }
    ensures cause { let file = reader.old.file in
        IsCause (F.counted files.old) (F.counted files.new) file result }
    ensures never { IsNoHeaderFault result }
{
    let next = reader.next(files, frame)?;
    Ok(next_of(next))
}

// The same where it stands ready as a whole; None, and nothing changed, where it doesn't.
#[inline(always)]
fn ready_record<F: Files>(
    reader: &mut Reader,
    files: &mut F,
    frame: &mut Vec<u8>,
) -> Option<Result<Next, CapFault>>
    requires opened { IsRead (F.told files.old) reader.old.file }
    ensures steps { let file = reader.old.file in
        let before = records_left reader.old ((F.told files.old).rest file) in
        let after = records_left reader.new ((F.told files.new).rest file) in
        IfSome result (Steps before after frame.new.items) }
    ensures moves { IfSome result (Moves frame.old.items frame.new.items) }
    // No byte behind the record is taken.
    ensures takes { let file = reader.old.file in
        IfSome result (TakesRecord ((F.told files.old).rest file) ((F.told files.new).rest file)
        frame.new.items) }
    ensures none { IfNone result
        ((reader.new ≡ reader.old) × (files.new ≡ files.old) × (frame.new ≡ frame.old)) }
    ensures same_file { reader.new.file ≡ reader.old.file }
    ensures kept { Keeps (F.told files.old) (F.told files.new) reader.old.file }
    ensures cause { F.counted files.new ≡ F.counted files.old }
    ensures err { IfSome result (λ answer. IfErr answer (λ fault. fault ≡ CapFault.Memory)) }
{
    match reader.next_ready(files, frame) {
        Some(Ok(next)) => Some(Ok(next_of(next))),
        Some(Err(fault)) => Some(Err(fault)),
        None => None,
    }
}

// The next packet of a pcapng capture: a call, so that what it takes isn't kept beside records.
#[inline(never)]
fn next_block<F: Files>(
    reader: &mut NgReader,
    files: &mut F,
    frame: &mut Vec<u8>,
) -> Result<Next, CapFault>
    requires opened { IsRead (F.told files.old) reader.old.file }
    ensures steps { let file = reader.old.file in
        let before = blocks.left_of reader.old ((F.told files.old).rest file) in
        let after = blocks.left_of reader.new ((F.told files.new).rest file) in
        Steps before after frame.new.items result }
    ensures moves { Moves frame.old.items frame.new.items result }
    ensures same_file { reader.new.file ≡ reader.old.file }
    ensures kept { Keeps (F.told files.old) (F.told files.new) reader.old.file }
    ensures cause { let file = reader.old.file in
        IsCause (F.counted files.old) (F.counted files.new) file result }
    ensures never { IsNoHeaderFault result }
{
    reader.next(files, frame)
}

impl Captured {
    /// Reads the header of a capture, 24 bytes, of a file of which nothing was read yet.
    pub(crate) fn header<F: Files>(
        alloc: Global,
        files: &mut F,
        file: u32,
    ) -> Result<Captured, CapFault>
        requires opened { IsRead (F.told files.old) file }
        ensures heads { let before = (F.told files.old).rest file in
            Heads before ((F.told files.new).rest file) result }
        ensures headed { let before = (F.told files.old).rest file in
            IfOk result (IsHeaded file before ((F.told files.new).rest file)) }
        ensures kept { Keeps (F.told files.old) (F.told files.new) file }
        ensures cause { IsCause (F.counted files.old) (F.counted files.new) file result }
    {
        match Front::begin(alloc, files, file) {
            Err(fault) => Err(fault),
            Ok(front) => Captured::of(alloc, front),
        }
    }

    // A capture whose file was begun: its first four bytes tell its format.
    fn of(alloc: Global, front: Front) -> Result<Captured, CapFault>
        ensures heads { (before now : Told) → IsBegun front.file front before now →
            Heads (before.rest front.file) (now.rest front.file) result }
        ensures kind { (before now : Told) → IsBegun front.file front before now →
            IfOk result (IsKind (before.rest front.file)) }
        ensures file { IfOk result (λ captured. file_in captured ≡ front.file) }
        ensures err { IfErr result (λ fault. fault ≡ CapFault.NotCapture) }
    {
        if is_pcapng(front.as_slice()) {
            match NgReader::of(alloc, front) {
                Err(fault) => Err(fault),
                Ok(reader) => Ok(Captured::Pcapng(reader)),
            }
        } else {
            match Reader::of(front) {
                Err(fault) => Err(fault),
                Ok(reader) => Ok(Captured::Pcap(reader)),
            }
        }
    }

    /// The next packet, where it stands ready as a whole record of a libpcap capture, as `next` gives
    /// it; None, and nothing changed, where it doesn't.
    #[inline(always)]
    pub(crate) fn next_ready<F: Files>(
        &mut self,
        files: &mut F,
        frame: &mut Vec<u8>,
    ) -> Option<Result<Next, CapFault>>
        requires opened { IsRead (F.told files.old) (file_in self.old) }
        ensures steps { let file = file_in self.old in
            let before = left_of self.old ((F.told files.old).rest file) in
            let after = left_of self.new ((F.told files.new).rest file) in
            IfSome result (Steps before after frame.new.items) }
        ensures moves { IfSome result (Moves frame.old.items frame.new.items) }
        // No byte behind the record is taken.
        ensures takes { let file = file_in self.old in
            IfSome result (TakesRecord ((F.told files.old).rest file) ((F.told files.new).rest file)
            frame.new.items) }
        ensures none { IfNone result
            ((self.new ≡ self.old) × (files.new ≡ files.old) × (frame.new ≡ frame.old)) }
        ensures same { (file_in self.new ≡ file_in self.old) × (is_pcap self.new ≡ is_pcap self.old) }
        ensures kept { Keeps (F.told files.old) (F.told files.new) (file_in self.old) }
        ensures cause { F.counted files.new ≡ F.counted files.old }
        ensures err { IfSome result (λ answer. IfErr answer (λ fault. fault ≡ CapFault.Memory)) }
    {
        match self {
            Captured::Pcap(reader) => ready_record(reader, files, frame),
            Captured::Pcapng(_) => None,
        }
    }

    /// The next packet: its head, and its captured bytes in `frame`.
    ///
    /// After an `Err` this capture may have moved, and no call is to be made on it.
    #[inline]
    pub(crate) fn next<F: Files>(
        &mut self,
        files: &mut F,
        frame: &mut Vec<u8>,
    ) -> Result<Next, CapFault>
        requires opened { IsRead (F.told files.old) (file_in self.old) }
        ensures steps { let file = file_in self.old in
            let before = left_of self.old ((F.told files.old).rest file) in
            Steps before (left_of self.new ((F.told files.new).rest file)) frame.new.items result }
        ensures moves { Moves frame.old.items frame.new.items result }
        // Of a libpcap capture no byte behind the record is taken.
        ensures takes { let file = file_in self.old in is_pcap self.old ≡ true →
            TakesRecord ((F.told files.old).rest file) ((F.told files.new).rest file)
            frame.new.items result }
        ensures same_file { file_in self.new ≡ file_in self.old }
        ensures same_kind { is_pcap self.new ≡ is_pcap self.old }
        ensures kept { Keeps (F.told files.old) (F.told files.new) (file_in self.old) }
        ensures cause { let file = file_in self.old in
            IsCause (F.counted files.old) (F.counted files.new) file result }
        ensures never { IsNoHeaderFault result }
    {
        match self {
            Captured::Pcap(reader) => next_record(reader, files, frame),
            Captured::Pcapng(reader) => next_block(reader, files, frame),
        }
    }
}
