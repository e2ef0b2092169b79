//! A policer by destination with two queues, and packets for it.
ghost use Rattle.std.specs.Prelude.{◌≡◌, length, IfOk};
ghost use Rattle.shard_core.specs.Sharded.{IsWhole};

use nf_base::card::{KeySize, TableSize};
use nf_base::func::Func;
use nf_base::hash_key::HashKey;
use nf_base::keys::Keys;
use nf_base::limited::Limited;
use nf_base::mac::Mac;
use nf_base::packet::{Addresses, Fields, Packet, PacketId};
use nf_base::workers::Workers;
use nf_syntax::parse;
use nf_types::check;
use shard_core::Shards;
use std::alloc::{AllocError, Global};
use toeplitz_hash::default_key;

/// Of five indices queue 0 owns 0, 2 and 4, and queue 1 owns 1 and 3.
const POLICER: &[u8] = b"nf policer {
  ports 2;
  chain hosts 5 lifetime 10 { map by_dst(d: 32); free used: 64; }
  on 0 { forward 1; }
  on 0 six { forward 1; }
  on 1 {
    get e = hosts.by_dst(dst_ip) {
      e.used = e.used + length;
      if e.used > 1000 { drop; }
      forward 0;
    } else {
      new f = hosts(d = dst_ip) { f.used = length; forward 0; }
    }
    drop;
  }
}";

/// The policer, unless memory runs out.
fn policer(alloc: Global) -> Option<Func> {
    let Ok(tree) = parse(alloc, POLICER) else {
        return None;
    };
    check(alloc, &tree).ok()
}

/// The keys that are given for it: by that of port 1 a packet's queue is the first bit of its
/// destination.
fn keys(alloc: Global) -> Result<Keys, AllocError>
    ensures { IfOk result (λ keys. length keys.ports ≡ 2) }
{
    let mut first_bit = [0; 52];
    first_bit[7] = 1;
    let mut ports = Limited::new(alloc);
    ports.push(default_key(KeySize::Bytes40))?;
    ports.push(HashKey::new(&first_bit, KeySize::Bytes40))?;
    Ok(Keys {
        table: TableSize::Entries128,
        ports,
    })
}

/// Two workers of the policer, before the first packet.
pub fn open(alloc: Global) -> Result<Shards, AllocError>
    ensures whole { IfOk result IsWhole }
    ensures two { IfOk result (λ shards. length shards.workers ≡ 2) }
{
    let Some(func) = policer(alloc) else {
        return Err(AllocError);
    };
    if func.handlers.len() != 2 {
        return Err(AllocError);
    }
    let keys = keys(alloc)?;
    Shards::new(alloc, &func, keys, Workers::new(2))
}

/// An address of queue 0: 10.0.0.1.
pub const NEAR: u32 = 0x0a00_0001;

/// An address of queue 1: 128.0.0.1. Those behind it are of queue 1 too.
pub const FAR: u32 = 0x8000_0001;

/// A packet at port 1, from 9.9.9.9 port 1 to port 2 of an address, at so many nanoseconds.
pub fn packet(seq: u32, time: u64, to: u32) -> Packet {
    Packet {
        id: PacketId { port: 1, seq },
        time,
        fields: Some(Fields {
            length: 42,
            src_mac: Mac::new(1),
            dst_mac: Mac::new(2),
            addresses: Addresses::Four {
                src: 0x0909_0909,
                dst: to,
            },
            proto: 17,
            ttl: 64,
            src_port: 1,
            dst_port: 2,
        }),
    }
}

/// A packet of IPv6 at port 0, from 3ffe:2501:200:1fff::7 port 2794 to 3ffe:2501:200:3::1 port 1766.
/// Its hash under the default key is 40207d3d, so it is of queue 1 (Microsoft, "Verifying the RSS
/// Hash Calculation").
pub fn packet_of_ipv6() -> Packet {
    Packet {
        id: PacketId { port: 0, seq: 0 },
        time: 0,
        fields: Some(Fields {
            length: 62,
            src_mac: Mac::new(1),
            dst_mac: Mac::new(2),
            addresses: Addresses::Six {
                src: 0x3ffe_2501_0200_1fff_0000_0000_0000_0007,
                dst: 0x3ffe_2501_0200_0003_0000_0000_0000_0001,
            },
            proto: 17,
            ttl: 64,
            src_port: 2794,
            dst_port: 1766,
        }),
    }
}
