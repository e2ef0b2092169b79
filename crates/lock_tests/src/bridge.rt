//! A learning bridge of two ports, and a packet of each port for the other's address.

use lock_core::Event;
use nf_base::func::Func;
use nf_base::mac::Mac;
use nf_base::packet::{Addresses, Fields, Packet, PacketId};
use std::alloc::{AllocError, Global};
use test_samples::functions::{BRIDGE, function};

/// The bridge, unless memory runs out: its text has no fault.
pub fn bridge(alloc: Global) -> Result<Func, AllocError> {
    match function(alloc, BRIDGE.as_bytes()) {
        Some(func) => Ok(func),
        None => Err(AllocError),
    }
}

/// The packet of a port, from its own address to the other's: at 5 nanoseconds at port 0, else at 9.
pub fn packet(port: u32) -> Packet {
    let (time, from, to) = if port == 0 { (5, 10, 11) } else { (9, 11, 10) };
    Packet {
        id: PacketId { port, seq: 0 },
        time,
        fields: Some(Fields {
            length: 60,
            src_mac: Mac::new(from),
            dst_mac: Mac::new(to),
            addresses: Addresses::Four { src: 1, dst: 2 },
            proto: 17,
            ttl: 64,
            src_port: 1000,
            dst_port: 80,
        }),
    }
}

/// A seat looks at the packet of a port, at this many entries.
pub fn look(seat: u32, prefix: u64, port: u32) -> Event {
    Event::Look {
        seat,
        prefix,
        packet: packet(port),
    }
}

/// A seat handles the packet of a port alone.
pub fn alone(seat: u32, port: u32) -> Event {
    Event::Alone {
        seat,
        packet: packet(port),
    }
}
