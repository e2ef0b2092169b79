//! The packets of captures in capture order.
ghost use Rattle.std.specs.Prelude.{◌≡◌, ◌^◌, ◌<◌, ◌≤◌, ◌+◌, ℕ, List, [], length, IfOk, IfErr, IfSome, option_map};
ghost use Rattle.nf_base.specs.Doors.{six_ports};
ghost use Rattle.nf_base.specs.Functions.{function_of};
ghost use Rattle.nf_files.specs.Told.{Told, IsRead};
ghost use Rattle.pcap_file.specs.Record.{greatest_time};
ghost use Rattle.packet_feed.specs.Arrivals.{Arrival, fields_seen};
ghost use Rattle.packet_feed.specs.Order.{in_order, IsOrdered};
ghost use Rattle.packet_feed.specs.Faults.{IsCause, IsNoHeaderFault, IsOneOf};
ghost use Rattle.packet_feed.specs.Told.{EachFile, IsApart, KeepsOthers};
ghost use Rattle.packet_feed.specs.Sources.{files_in, AreFrom};
ghost use Rattle.packet_feed.specs.Feeding.{StandsFor, SameFeed, Starts, Feeds, GoesFrom, Counts, fed, last_packet, frame_of, original_of, first_tear, tears_in};
ghost use Rattle.packet_feed.specs.Ports.{StandsByPort, FeedsAt, CountsAt};

use crate::fault::FeedFault;
use crate::fed::Fed;
use crate::first::earliest;
use crate::moved::Moved;
use crate::source::Source;
use crate::sources::{fill_at, fill_next, give_at, open_all, pass, torn};
use frame_ip::View;
use nf_base::func::Func;
use nf_base::packet::{Packet, PacketId};
use nf_base::seq::Seq;
use nf_files::Files;
use std::alloc::Global;
use std::marker::Model;

/// Captures, one a port, whose packets are given in capture order: least time first, ties by port,
/// then in the order of the file.
///
/// A capture is in the libpcap file format or in pcapng, which its first four bytes tell; both kinds may
/// stand side by side. A packet's time is the latest of its capture's packets up to it, so that the times
/// of a capture never fall. One packet of each capture is held. Of a libpcap capture the header, the
/// records that were given and at most one record more were taken.
#[derive(Drop)]
pub struct Feed {
    sources: Seq<Source>,
    /// The port of the packet that was given last.
    shown: usize,
    given: u32,
    most: u32,
    /// Whether it is known of each other capture what comes next.
    settled: bool,
}

impl Model for Feed {
    ghost use Rattle.std.specs.Prelude.{◌≡◌, true};
    ghost use Rattle.packet_feed.specs.Feeding.{Feeding, IsFeeding};
    ghost use Rattle.packet_feed.specs.Sources.{AreSettledBut};

    ghost Value = { Feeding };

    ghost view = { λ f. record {
      sources = f.sources;
      shown = f.shown;
      given = f.given;
      most = f.most;
    } };

    ghost invariant = { λ f.
        IsFeeding f.sources f.given f.most × (f.settled ≡ true → AreSettledBut f.shown f.sources) };
}

impl Feed {
    /// Reads the headers of captures, which were all opened to be read and of which nothing was read
    /// yet; at most so many packets will be given.
    ///
    /// The capture at index `i` is that of the function's port `i`. Nothing behind the first 24 bytes is
    /// taken, which tell whether a header is right. An IPv6 frame at a port without a handler for IPv6,
    /// and a packet of another link type than Ethernet, are skipped packets.
    pub fn start<F: Files>(
        alloc: Global,
        files: &mut F,
        func: &Func,
        captures: &[u32],
        most: u32,
    ) -> Result<Feed, FeedFault>
        requires opened { EachFile (IsRead (F.told files.old)) captures.now }
        // No file stands there twice.
        requires apart { IsApart captures.now }
        requires ports { length captures.now ≤ 2 ^ 32 }
        requires ports_of { length captures.now ≡ length func.now.handlers }
        // The feed stands for what the files hold, and for no packet, and knows which ports have a
        // handler for IPv6; or this header is the first that is short or wrong, or could not be read
        // behind those of all lesser ports.
        ensures starts { let six = six_ports (function_of func.now) in
            Starts captures.now six most (F.told files.old) (F.told files.new) result }
        // So it does where each port's packets are asked for by themselves.
        ensures by_port { IfOk result (λ feed.
            StandsByPort (F.told files.old) [] feed (F.told files.new)) }
        ensures kept { KeepsOthers captures.now (F.told files.old) (F.told files.new) }
        ensures cause { IsCause (F.counted files.old) (F.counted files.new) captures.now result }
        ensures one { IfErr result (λ fault. IsOneOf captures.now fault) }
        // The order in which packets are given is the capture order.
        ensures ordered { (arrivals : List Arrival) → IsOrdered arrivals (in_order arrivals) }
    {
        let sources = open_all(alloc, files, func, captures)?;
        Ok(Feed {
            sources,
            shown: 0,
            given: 0,
            most,
            settled: false,
        })
    }

    /// Moves on to the next packet in capture order, which `next` gives. It is told of from then on,
    /// where it lies: by `id`, `time`, `view`, `frame` and `original`.
    ///
    /// `End` comes exactly where no whole record is left in any capture, and `TooMany` exactly where
    /// one is and as many packets were given as were asked for. After an `Err` this feed may have
    /// moved, and no call is to be made on it.
    #[inline(always)]
    pub fn advance<F: Files>(&mut self, files: &mut F) -> Result<Moved, FeedFault>
        requires opened { EachFile (IsRead (F.told files.old)) (files_in self.old.sources) }
        // Whatever bytes and packets the feed stood for, it stands for the same bytes, and for the
        // packet that it tells of behind them; or they are all, in capture order, and captures are
        // torn as it tells; or there are more.
        ensures feeds { (start : Told) → (given : List Arrival) →
            StandsFor start given self.old (F.told files.old) →
            Feeds start given self.new (F.told files.new) (fed self.new result) }
        ensures counts { Counts self.old self.new (fed self.new result) }
        // Times never fall.
        ensures times { (time : ℕ) → AreFrom time self.old.sources →
            GoesFrom time self.new.sources (fed self.new result) }
        ensures same { SameFeed self.old self.new }
        ensures kept { let all = files_in self.old.sources in
            KeepsOthers all (F.told files.old) (F.told files.new) }
        ensures cause { let all = files_in self.old.sources in
            IsCause (F.counted files.old) (F.counted files.new) all result }
        ensures never { IsNoHeaderFault result }
        ensures one { IfErr result (λ fault. IsOneOf (files_in self.old.sources) fault) }
    {
        fill_next(&mut self.sources, files, self.settled, self.shown)?;
        match earliest(&self.sources) {
            None => Ok(Moved::End),
            Some(first) => {
                if self.given >= self.most {
                    return Ok(Moved::TooMany);
                }
                pass(&mut self.sources, first);
                self.shown = first.port;
                self.settled = true;
                self.given += 1;
                Ok(Moved::Packet)
            }
        }
    }

    // The packet that was given last.
    #[inline(always)]
    fn last(&self) -> Packet
        ensures { result ≡ last_packet self.now }
    {
        match self.sources.as_slice().get(self.shown) {
            Some(source) => source.last(self.shown as u32),
            None => Packet {
                id: PacketId { port: 0, seq: 0 },
                time: 0,
                fields: None,
            },
        }
    }

    /// The next packet in capture order.
    ///
    /// `End` comes exactly where no whole record is left in any capture, and `TooMany` exactly where
    /// one is and as many packets were given as were asked for. After an `Err` this feed may have
    /// moved, and no call is to be made on it.
    #[inline(always)]
    pub fn next<F: Files>(&mut self, files: &mut F) -> Result<Fed, FeedFault>
        requires opened { EachFile (IsRead (F.told files.old)) (files_in self.old.sources) }
        // Whatever bytes and packets the feed stood for, it stands for the same bytes, and for this
        // packet behind them; or they are all, in capture order, and captures are torn as it tells;
        // or there are more.
        ensures feeds { (start : Told) → (given : List Arrival) →
            StandsFor start given self.old (F.told files.old) →
            Feeds start given self.new (F.told files.new) result }
        ensures counts { Counts self.old self.new result }
        // Times never fall.
        ensures times { (time : ℕ) → AreFrom time self.old.sources →
            GoesFrom time self.new.sources result }
        ensures same { SameFeed self.old self.new }
        ensures kept { let all = files_in self.old.sources in
            KeepsOthers all (F.told files.old) (F.told files.new) }
        ensures cause { let all = files_in self.old.sources in
            IsCause (F.counted files.old) (F.counted files.new) all result }
        ensures never { IsNoHeaderFault result }
        ensures one { IfErr result (λ fault. IsOneOf (files_in self.old.sources) fault) }
    {
        match self.advance(files) {
            Err(fault) => Err(fault),
            Ok(Moved::End) => Ok(Fed::End),
            Ok(Moved::TooMany) => Ok(Fed::TooMany),
            Ok(Moved::Packet) => Ok(Fed::Packet(self.last())),
        }
    }

    /// The next packet of a port's capture, whatever comes before it in capture order; None exactly
    /// where no whole record is left there.
    ///
    /// Of the other captures nothing is read. After an `Err` this feed may have moved, and no call is to
    /// be made on it; a feed of which packets were given so is not asked for the next one of all.
    pub fn next_at<F: Files>(
        &mut self,
        files: &mut F,
        port: u32,
    ) -> Result<Option<Packet>, FeedFault>
        requires opened { EachFile (IsRead (F.told files.old)) (files_in self.old.sources) }
        requires inside { port < length self.old.sources }
        requires room { self.old.given < self.old.most }
        // Whatever bytes and packets the feed stood for, it stands for the same bytes, and for this
        // packet behind them; or they are all of this port.
        ensures feeds { (start : Told) → (given : List Arrival) →
            StandsByPort start given self.old (F.told files.old) →
            FeedsAt port start given self.new (F.told files.new) result }
        ensures counts { CountsAt port self.old self.new result }
        ensures same { SameFeed self.old self.new }
        ensures kept { let all = files_in self.old.sources in
            KeepsOthers all (F.told files.old) (F.told files.new) }
        ensures cause { let all = files_in self.old.sources in
            IsCause (F.counted files.old) (F.counted files.new) all result }
        ensures never { IsNoHeaderFault result }
        ensures one { IfErr result (λ fault. IsOneOf (files_in self.old.sources) fault) }
    {
        let place = port as usize;
        self.settled = false;
        fill_at(&mut self.sources, files, place)?;
        match give_at(&mut self.sources, place) {
            None => Ok(None),
            Some(packet) => {
                self.shown = place;
                self.given += 1;
                Ok(Some(packet))
            }
        }
    }

    /// How many packets were given.
    pub fn given(&self) -> u32
        ensures { result ≡ self.now.given }
    {
        self.given
    }

    /// Which packet was given last: the port that it came in at, and its number there, from 0.
    #[inline]
    pub fn id(&self) -> PacketId
        ensures { result ≡ (last_packet self.now).id }
    {
        match self.sources.as_slice().get(self.shown) {
            Some(source) => source.id(self.shown as u32),
            None => PacketId { port: 0, seq: 0 },
        }
    }

    /// When it came, in nanoseconds: the latest time of its capture's packets up to it.
    #[inline]
    pub fn time(&self) -> u64
        ensures value { result ≡ (last_packet self.now).time }
        ensures within { result ≤ greatest_time }
    {
        match self.sources.as_slice().get(self.shown) {
            Some(source) => source.latest(),
            None => 0,
        }
    }

    /// Its frame, in which a handler reads the fields that it needs; None where it is skipped: where
    /// it is no Ethernet frame, none that is handled, and where it is an IPv6 frame and its port has
    /// no handler for these.
    #[inline(always)]
    pub fn view(&self) -> Option<View<'_>>
        ensures seen { let v = self.now in
            IfSome result (λ s. s ≡ record { frame = frame_of v; original = original_of v }) }
        // Its fields are the packet's, and it is None exactly where the packet has none.
        ensures fields { option_map fields_seen result ≡ (last_packet self.now).fields }
    {
        match self.sources.as_slice().get(self.shown) {
            Some(source) => source.view(),
            None => None,
        }
    }

    /// The captured bytes of the packet that was given last.
    #[inline]
    pub fn frame(&self) -> &[u8]
        ensures { result.now ≡ frame_of self.now }
    {
        match self.sources.as_slice().get(self.shown) {
            Some(source) => source.frame(),
            None => &[],
        }
    }

    /// The length of its frame on the wire, in bytes.
    #[inline]
    pub fn original(&self) -> u32
        ensures { result ≡ original_of self.now }
    {
        match self.sources.as_slice().get(self.shown) {
            Some(source) => source.original(),
            None => 0,
        }
    }

    /// The least port whose capture was found to be torn, and the offset of the torn record or block
    /// there, in bytes; after `End` that is each that is.
    pub fn torn(&self) -> Option<(u32, u64)>
        ensures { result ≡ first_tear 0 (tears_in self.now.sources) }
    {
        torn(&self.sources)
    }
}
