//! What the keys are, by other ways than equations.
use crate::line::{answer, objects};
use key_rows::{Object, nearest_keys};
use nf_base::card::Card;
use nf_base::keys::Keys;
use nf_base::mac::Mac;
use nf_base::packet::{Addresses, Fields, Packet, PacketId};
use std::alloc::{AllocError, Global};
use std::io;
use toeplitz_hash::{DEFAULT_KEY, hash_packet};

// Keys are found through this, which promises nothing: what the answers are is compared, and not
// proved.
fn keys(alloc: Global, objects: &[Object]) -> Result<Option<Keys>, AllocError> {
    nearest_keys(alloc, &[true, true], objects, Card::usual())
}

/// How a place is written, how many key bits its packets meet, and names and first bits of the
/// windows of their four fields, and the bits behind them.
fn windows(six: bool) -> (&'static str, usize, [(&'static str, usize, usize); 4]) {
    if six {
        let windows = [
            ("src_ip", 0, 159),
            ("dst_ip", 128, 287),
            ("src_port", 256, 303),
            ("dst_port", 272, 319),
        ];
        ("six 0 | 0six:", 319, windows)
    } else {
        let windows = [
            ("src_ip", 0, 63),
            ("dst_ip", 32, 95),
            ("src_port", 64, 111),
            ("dst_port", 80, 127),
        ];
        ("| 0:", 127, windows)
    }
}

fn default_bit(i: usize) -> bool {
    match DEFAULT_KEY.get(i / 8) {
        Some(byte) => (*byte >> (7 - i % 8)) % 2 == 1,
        None => false,
    }
}

/// Whether no field that a place doesn't know meets a bit of its port's key.
fn is_free(i: usize, six: bool, known: u32) -> bool {
    let (_place, end, windows) = windows(six);
    let mut number = 0u32;
    for (_name, from, to) in windows {
        if from <= i && i < to && known.wrapping_shr(number) % 2 == 0 {
            return false;
        }
        number = number.wrapping_add(1);
    }
    i < end
}

/// The cards, by the words that name them in a line: with each the first bit that meets the table
/// index, and how many bytes a key has.
const CARDS: [(&str, usize, usize); 4] = [
    ("", 25, 40),
    ("512 ", 23, 40),
    ("52 ", 25, 52),
    ("512 52 ", 23, 52),
];

/// The default key's bits where they are free; if none from the first that meets the table index on
/// is a 1 then, the last free one is, and there is no key where none is free.
fn expected(
    alloc: Global,
    from: usize,
    bytes: usize,
    six: bool,
    known: u32,
) -> Result<String, AllocError> {
    let mut last = None;
    let mut spreads = false;
    for i in from..320 {
        if is_free(i, six, known) {
            last = Some(i);
            spreads = spreads || default_bit(i);
        }
    }
    let Some(last) = last else {
        return String::from_str(alloc, "none");
    };
    let mut text = String::new(alloc);
    for byte in 0..bytes {
        let mut value = 0u8;
        for j in 0..8 {
            let i = byte.wrapping_mul(8).wrapping_add(j);
            let one = is_free(i, six, known) && (default_bit(i) || (!spreads && i == last));
            value = value.wrapping_mul(2).wrapping_add(u8::from(one));
        }
        text.push_str(&format!(in alloc; "{value:02x}")?)?;
    }
    Ok(text)
}

/// One port and one place that knows a set of fields, one bit each.
fn one_place(alloc: Global, card: &str, six: bool, known: u32) -> Result<String, AllocError> {
    let (place, _end, windows) = windows(six);
    let mut line = String::from_str(alloc, "1 ")?;
    line.push_str(card)?;
    line.push_str(place)?;
    let mut number = 0u32;
    for (name, _from, _to) in windows {
        if known.wrapping_shr(number) % 2 == 1 {
            line.push_str(name)?;
            line.push(',')?;
        }
        number = number.wrapping_add(1);
    }
    Ok(line)
}

/// What the keys of such a place are.
fn found(alloc: Global, card: &str, six: bool, known: u32) -> Result<String, AllocError> {
    let line = one_place(alloc, card, six, known)?;
    answer(alloc, line.as_str())
}

/// Whether the keys of such a place are the expected ones, by the words of its card, the first bit that
/// meets the table index, and how many bytes a key has.
fn is_kept(
    alloc: Global,
    card: (&str, usize, usize),
    six: bool,
    known: u32,
) -> Result<bool, AllocError> {
    let (words, from, bytes) = card;
    let found = found(alloc, words, six, known)?;
    let expected = expected(alloc, from, bytes, six, known)?;
    Ok(found.as_str() == expected.as_str())
}

/// For how many of both families these fields are kept; prints the others.
fn count_kept(rt: &HostRuntime, card: (&str, usize, usize), known: u32) -> io::Result<u32> {
    let mut kept = 0u32;
    for six in [false, true] {
        if is_kept(rt.alloc(), card, six, known)? {
            kept = kept.saturating_add(1);
        } else {
            println!(rt; "{}fields {known:04b}, six {six}: other bits", card.0)?;
        }
    }
    Ok(kept)
}

/// Each card, each set of fields and both families.
fn tell_kept(rt: &HostRuntime) -> io::Result<()> {
    let mut kept = 0u32;
    for card in CARDS {
        for known in 0..16u32 {
            kept = kept.saturating_add(count_kept(rt, card, known)?);
        }
    }
    println!(rt; "{kept} of 128 places keep the bits that only their fields meet")
}

/// A packet of a connection.
fn packet(port: u32, addresses: Addresses, src_port: u16, dst_port: u16) -> Packet {
    let fields = Fields {
        length: 42,
        src_mac: Mac::new(2),
        dst_mac: Mac::new(4),
        addresses,
        proto: 17,
        ttl: 64,
        src_port,
        dst_port,
    };
    Packet {
        id: PacketId { port, seq: 0 },
        time: 0,
        fields: Some(fields),
    }
}

/// The hash of a packet at one of two ports, and 0 where there are fewer keys.
fn hash(keys: &Keys, packet: &Packet) -> u32 {
    if packet.id.port < keys.ports.len() {
        hash_packet(keys, packet).unwrap_or(0)
    } else {
        0
    }
}

/// The keys of a firewall for both versions of IP.
fn firewall(alloc: Global) -> Result<Option<Keys>, AllocError> {
    let places = "0:src_ip,dst_ip,src_port,dst_port 1:dst_ip,src_ip,dst_port,src_port \
         | 0six:src_ip,dst_ip,src_port,dst_port 1six:dst_ip,src_ip,dst_port,src_port";
    let objects = objects(alloc, places)?;
    keys(alloc, objects.as_slice())
}

/// Whether a reply at port 1 has the hash of what it answers at port 0, and another port has another
/// hash.
fn is_alike(keys: &Keys, out: Addresses, home: Addresses) -> bool {
    let there = hash(keys, &packet(0, out, 1000, 80));
    hash(keys, &packet(1, home, 80, 1000)) == there
        && hash(keys, &packet(1, home, 80, 1001)) != there
        && hash(keys, &packet(1, out, 1000, 80)) != there
}

fn is_alike_of_four(keys: &Keys) -> bool {
    let out = Addresses::Four {
        src: 0x0a00_0001,
        dst: 0x0a00_0002,
    };
    let home = Addresses::Four {
        src: 0x0a00_0002,
        dst: 0x0a00_0001,
    };
    is_alike(keys, out, home)
}

fn is_alike_of_six(keys: &Keys) -> bool {
    let out = Addresses::Six {
        src: 0x2001_0db8_0000_0000_0000_0000_0000_0001,
        dst: 0x2001_0db8_0000_0000_0000_0000_0000_0002,
    };
    let home = Addresses::Six {
        src: 0x2001_0db8_0000_0000_0000_0000_0000_0002,
        dst: 0x2001_0db8_0000_0000_0000_0000_0000_0001,
    };
    is_alike(keys, out, home)
}

/// The same of both families, where there are keys.
fn are_alike(alloc: Global) -> Result<(bool, bool), AllocError> {
    match firewall(alloc)? {
        Some(keys) => Ok((is_alike_of_four(&keys), is_alike_of_six(&keys))),
        None => Ok((false, false)),
    }
}

/// Prints what is right.
pub fn tell_all(rt: &HostRuntime) -> io::Result<()> {
    tell_kept(rt)?;
    let (four, six) = are_alike(rt.alloc())?;
    println!(rt; "a reply has the hash of what it answers: {four}, of IPv6 {six}")
}
