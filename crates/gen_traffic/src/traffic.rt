//! Packets of made-up traffic, one at a time.

ghost use Rattle.std.specs.Prelude.{◌≡◌, ◌↔◌, ◌≤◌, ◌<◌, ◌^◌, ◌%◌, ◌/◌, suc, IfSome, None, slice_get};
ghost use Rattle.gen_traffic.specs.Numbers.{next_number, flow_of};
ghost use Rattle.gen_traffic.specs.Ends.{source, destination};
ghost use Rattle.gen_traffic.specs.Traffic.{Recipe, sent_at, traffic, after};

use crate::end::{End, client, server};
use crate::frame::{fields_between, frame_between};
use nf_base::packet::{Packet, PacketId};
use std::marker::Model;

/// Datagrams between the clients of flows and one server, as many as were asked for.
///
/// Packet `k`, from 0, comes in at port `k mod ports` at `1000 * k` nanoseconds. At an even port it is
/// from a client to the server, at an odd one from the server to a client. Which flow's client it is,
/// a seed decides.
#[derive(Debug, Drop)]
pub struct Traffic {
    seed: u32,
    count: u32,
    flows: u32,
    ports: u32,
    given: u32,
    /// The number that the flow of the last packet was drawn by.
    number: u32,
}

impl Model for Traffic {
    ghost use Rattle.std.specs.Prelude.{◌≡◌, ◌≤◌};
    ghost use Rattle.gen_traffic.specs.Numbers.{number_of};
    ghost use Rattle.gen_traffic.specs.Traffic.{Giving};

    ghost Value = { Giving };

    ghost view = { λ t. record {
      recipe = record { seed = t.seed; count = t.count; flows = t.flows; ports = t.ports };
      given = t.given;
    } };

    ghost invariant = { λ t.
        (t.number ≡ number_of t.seed t.given) × (t.given ≤ t.count) × (1 ≤ t.flows) × (1 ≤ t.ports) };
}

/// The number behind one (a linear congruential generator, modulo 2^32).
fn next_number(number: u32) -> u32
    ensures { result ≡ next_number number }
{
    ((1_664_525 * u64::from(number) + 1_013_904_223) % 0x1_0000_0000) as u32
}

/// The flow that a number draws.
fn flow_of(number: u32, flows: u32) -> u16
    requires { 1 ≤ flows }
    ensures { result ≡ flow_of flows number }
{
    (number / 65_536 % flows) as u16
}

/// Where a packet comes from that comes in at a port.
fn source(port: u32, flow: u16) -> End
    ensures { result ≡ source port flow }
{
    if port % 2 == 0 {
        client(flow)
    } else {
        server()
    }
}

/// Where it goes to.
fn destination(port: u32, flow: u16) -> End
    ensures { result ≡ destination port flow }
{
    if port % 2 == 0 {
        server()
    } else {
        client(flow)
    }
}

impl Traffic {
    /// So many packets of so many flows, in turn at each of so many ports.
    pub fn new(seed: u32, count: u32, flows: u32, ports: u32) -> Traffic
        requires flows { 1 ≤ flows }
        requires ports { 1 ≤ ports }
        ensures { let recipe : Recipe =
            record { seed = seed; count = count; flows = flows; ports = ports } in
            result ≡ record { recipe = recipe; given = 0 } }
    {
        Traffic {
            seed,
            count,
            flows,
            ports,
            given: 0,
            number: seed,
        }
    }

    /// The next packet, with its frame; None where as many were given as were asked for.
    pub fn next(&mut self) -> Option<(Packet, [u8; 42])>
        ensures next { result ≡ slice_get (traffic self.old.recipe) self.old.given }
        ensures some { IfSome result (λ sent. sent ≡ sent_at self.old.recipe self.old.given) }
        ensures none { (result ≡ None) ↔ (self.old.given ≡ self.old.recipe.count) }
        ensures goes_on { self.new ≡ after self.old }
    {
        if self.given == self.count {
            return None;
        }
        Some(self.give())
    }

    fn give(&mut self) -> (Packet, [u8; 42])
        requires { self.old.given < self.old.recipe.count }
        ensures sent { result ≡ sent_at self.old.recipe self.old.given }
        ensures goes_on { self.new ≡ after self.old }
    {
        let k = self.given;
        let number = next_number(self.number);
        let flow = flow_of(number, self.flows);
        let port = k % self.ports;
        let from = source(port, flow);
        let to = destination(port, flow);
        self.number = number;
        self.given = k + 1;
        let packet = Packet {
            id: PacketId {
                port,
                seq: k / self.ports,
            },
            time: 1000 * u64::from(k),
            fields: Some(fields_between(from, to)),
        };
        (packet, frame_between(from, to))
    }
}
