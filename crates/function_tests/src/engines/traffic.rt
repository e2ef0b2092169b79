ghost use Rattle.std.specs.Prelude.{◌≡◌, ◌<◌, length, Some};
ghost use Rattle.nf_base.specs.Doors.{IsServed, six_at, six_ports, served_fields};
ghost use Rattle.nf_base.specs.Functions.{function_of};

use nf_base::func::Func;
use nf_base::mac::Mac;
use nf_base::packet::{Addresses, Fields, Packet, PacketId};

/// Makes packets of few hosts and ports, so that flows meet, fill their chains and expire.
#[derive(Drop)]
pub struct Traffic {
    state: u64,
    /// The time of the last packet, in nanoseconds.
    time: u64,
}

/// The hosts: two behind a firewall, two outside, and the outer address of a translator.
const HOSTS: [u32; 5] = [
    0x0a00_0001,
    0x0a00_0002,
    0x0808_0808,
    0x8000_0001,
    0xcb00_7101,
];

/// The hosts of IPv6: two of one network, and one below and one above 64 bits.
const SIX_HOSTS: [u128; 4] = [
    0x2001_0db8_0000_0000_0000_0000_0000_0001,
    0x2001_0db8_0000_0000_0000_0000_0000_0002,
    0xffff_ffff_ffff_ffff,
    0xffff_ffff_ffff_ffff_ffff_ffff_ffff_fffe,
];

/// The ports: two of servers, two of clients, and the first two of a translator.
const PORTS: [u16; 6] = [53, 80, 1000, 1001, 1024, 1025];

/// What the handlers of a port see of a frame: nothing of an IPv6 one where none is for it.
fn seen(func: &Func, port: u32, fields: Fields) -> Option<Fields>
    ensures { result ≡ served_fields (six_at (six_ports (function_of func.now)) port) (Some fields) }
{
    match fields.addresses {
        Addresses::Four { .. } => Some(fields),
        Addresses::Six { .. } => {
            if func.has_six(port) {
                Some(fields)
            } else {
                None
            }
        }
    }
}

impl Traffic {
    pub fn new() -> Traffic {
        Traffic { state: 1, time: 0 }
    }

    /// A number below 65,536.
    fn draw(&mut self) -> u16 {
        self.state = self
            .state
            .wrapping_mul(0x5851_f42d_4c95_7f2d)
            .wrapping_add(0x1405_7b7e_f767_814f);
        (self.state >> 48) as u16
    }

    fn host(&mut self) -> u32 {
        HOSTS[self.draw() as usize % 5]
    }

    fn six_host(&mut self) -> u128 {
        SIX_HOSTS[self.draw() as usize % 4]
    }

    fn port(&mut self) -> u16 {
        PORTS[self.draw() as usize % 6]
    }

    /// Addresses of either version of IP, one in three of IPv6.
    fn addresses(&mut self) -> Addresses {
        if self.draw() % 3 == 0 {
            return Addresses::Six {
                src: self.six_host(),
                dst: self.six_host(),
            };
        }
        Addresses::Four {
            src: self.host(),
            dst: self.host(),
        }
    }

    fn fields(&mut self) -> Fields {
        Fields {
            length: 60 + u32::from(self.draw() % 1440),
            src_mac: Mac::new(u64::from(self.draw() % 3)),
            dst_mac: Mac::new(u64::from(self.draw() % 3)),
            addresses: self.addresses(),
            proto: if self.draw() % 2 == 0 { 6 } else { 17 },
            ttl: (self.draw() % 256) as u8,
            src_port: self.port(),
            dst_port: self.port(),
        }
    }

    /// The next packet, at one of the function's ports: one in sixteen is skipped, and now and then a pause lets flows
    /// expire.
    #[tactic(auto, using(nf_base::proofs::Served::seen_is_served))]
    pub fn next(&mut self, func: &Func, seq: u32) -> Packet
        ensures port { result.id.port < length func.now.handlers }
        ensures served { IsServed (function_of func.now) result }
    {
        let pause = if self.draw() % 32 == 0 {
            60_000_000_000
        } else {
            u64::from(self.draw() % 4)
        };
        self.time = self.time.saturating_add(pause);
        let port = u32::from(self.draw()) % func.handlers.len();
        let fields = if self.draw() % 16 == 0 {
            None
        } else {
            seen(func, port, self.fields())
        };
        Packet {
            id: PacketId { port, seq },
            time: self.time,
            fields,
        }
    }
}
