//! A capture whose bytes are made as they are read.
ghost use Rattle.std.specs.Prelude.{◌≡◌, ◌≤◌, ◌<◌, ◌^◌, ◌*◌, ◌++◌, [], IfSome, length, take};
ghost use Rattle.gen_traffic.specs.Traffic.{Recipe};
ghost use Rattle.made_captures.specs.Records.{IsNextAt, made_bytes};

use crate::piece::Piece;
use gen_traffic::Traffic;
use nf_base::packet::Packet;
use std::marker::Model;

/// A capture of made-up traffic at one port, of which contracts see the bytes that are left.
///
/// It holds the bytes of one record.
#[derive(Drop)]
pub(crate) struct Capture {
    traffic: Traffic,
    port: u32,
    piece: Piece,
}

impl Model for Capture {
    ghost use Rattle.std.specs.Prelude.{ℕ, List, ◌<◌, ◌^◌, ◌++◌};
    ghost use Rattle.made_captures.specs.Records.{bytes_left};

    ghost Value = { List ℕ };

    ghost view = { λ c. c.piece ++ bytes_left c.port c.traffic };

    ghost invariant = { λ c. c.traffic.recipe.count < 2 ^ 32 };
}

// The next packet that comes in at a port.
fn next_at(traffic: &mut Traffic, port: u32) -> Option<(Packet, [u8; 42])>
    requires few { traffic.old.recipe.count < 2 ^ 32 }
    ensures next { IsNextAt port traffic.old traffic.new result }
    ensures time { IfSome result (λ sent. sent.0.time < 2 ^ 32 * 1000) }
    ensures long { IfSome result (λ sent. length sent.1 ≡ 42) }
    ensures same { traffic.new.recipe ≡ traffic.old.recipe }
{
    'packets: loop {
        match traffic.next() {
            Some(sent) => {
                if sent.0.id.port == port {
                    return Some(sent);
                }
            }
            None => return None,
        }
    }
}

impl Capture {
    /// The capture of one port.
    pub(crate) fn new(seed: u32, count: u32, flows: u32, ports: u32, port: u32) -> Capture
        requires flows { 1 ≤ flows }
        requires ports { 1 ≤ ports }
        ensures { let recipe : Recipe =
            record { seed = seed; count = count; flows = flows; ports = ports } in
            result ≡ made_bytes recipe port }
    {
        Capture {
            traffic: Traffic::new(seed, count, flows, ports),
            port,
            piece: Piece::header(),
        }
    }

    /// Gives bytes of its front, at most as many as there is room for, and tells their number.
    ///
    /// 0 for an `out` that isn't empty is the end.
    pub(crate) fn read(&mut self, out: &mut [u8]) -> usize
        ensures within { result ≤ length out.new }
        ensures given { self.old ≡ take result out.new ++ self.new }
        ensures end { result ≡ 0 → 0 < length out.new → self.old ≡ [] }
    {
        if !self.piece.is_empty() {
            return self.piece.give(out);
        }
        match next_at(&mut self.traffic, self.port) {
            Some(sent) => {
                self.piece = Piece::record(sent.0.time, sent.1);
                self.piece.give(out)
            }
            None => 0,
        }
    }
}
