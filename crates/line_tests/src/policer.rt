//! A policer by destination, and packets for it.

use nf_base::func::Func;
use nf_base::mac::Mac;
use nf_base::packet::{Addresses, Fields, Packet, PacketId};
use nf_syntax::parse;
use nf_types::check;
use std::alloc::{AllocError, Global};

/// Of five indices queue 0 of 2 owns 0, 2 and 4, and queue 1 owns 1 and 3.
const POLICER: &[u8] = b"nf policer {
  ports 2;
  chain hosts 5 lifetime 10 { map by_dst(d: 32); free used: 64; }
  on 0 { forward 1; }
  on 1 {
    get e = hosts.by_dst(dst_ip) {
      e.used = e.used + length;
      if e.used > 1000 { drop; }
      forward 0;
    } else {
      new f = hosts(d = dst_ip) { f.used = length; forward 0; }
    }
    drop;
  }
}";

pub fn policer(alloc: Global) -> Result<Func, AllocError> {
    let Ok(tree) = parse(alloc, POLICER) else {
        return Err(AllocError);
    };
    match check(alloc, &tree) {
        Ok(func) => Ok(func),
        Err(_) => Err(AllocError),
    }
}

/// A packet at port 1, from 9.9.9.9 port 1 to port 2 of an address, at so many nanoseconds.
pub fn packet(seq: u32, time: u64, to: u32) -> Packet {
    Packet {
        id: PacketId { port: 1, seq },
        time,
        fields: Some(Fields {
            length: 42,
            src_mac: Mac::new(1),
            dst_mac: Mac::new(2),
            addresses: Addresses::Four {
                src: 0x0909_0909,
                dst: to,
            },
            proto: 17,
            ttl: 64,
            src_port: 1,
            dst_port: 2,
        }),
    }
}
