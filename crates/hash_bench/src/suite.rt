//! The Toeplitz hash, and which key a packet is hashed with: whether they are right.
use nf_base::card::{KeySize, TableSize};
use nf_base::hash_key::HashKey;
use nf_base::keys::Keys;
use nf_base::limited::Limited;
use nf_base::mac::Mac;
use nf_base::packet::{Addresses, Fields, Packet, PacketId};
use std::alloc::{AllocError, Global};
use std::io;
use toeplitz_hash::{DEFAULT_KEY, default_key, hash_packet, input_of, toeplitz};

// The hash is called through these, which promise nothing: what the answers are is compared,
// and not proved.

/// The hash under the default key, of at most 36 bytes.
fn hash(input: &[u8]) -> Option<u32> {
    if input.len() <= 36 {
        Some(toeplitz(&DEFAULT_KEY, input))
    } else {
        None
    }
}

/// The hashes of fields, over the addresses alone and with the ports.
fn hashes(fields: &Fields) -> (Option<u32>, Option<u32>) {
    let input = input_of(fields);
    let bytes = input.as_slice();
    let ports = bytes.len().saturating_sub(4);
    (hash(&bytes[..ports]), hash(bytes))
}

/// What the hash of a packet is told to be, where its port has a key.
fn packet_hash(keys: &Keys, packet: &Packet) -> Option<Option<u32>> {
    if packet.id.port < keys.ports.len() {
        Some(hash_packet(keys, packet))
    } else {
        None
    }
}

/// Fields of which only addresses and ports are hashed.
fn fields_of(addresses: Addresses, src_port: u16, dst_port: u16) -> Fields {
    Fields {
        length: 60,
        src_mac: Mac::new(0x0200_0000_0001),
        dst_mac: Mac::new(0x0200_0000_0002),
        addresses,
        proto: 17,
        ttl: 64,
        src_port,
        dst_port,
    }
}

/// The same of IPv4, from a source with its port to a destination with its port.
fn four(src: [u8; 4], src_port: u16, dst: [u8; 4], dst_port: u16) -> Fields {
    let src = u32::from_be_bytes(src);
    let dst = u32::from_be_bytes(dst);
    fields_of(Addresses::Four { src, dst }, src_port, dst_port)
}

/// The same of IPv6.
fn six(src: u128, src_port: u16, dst: u128, dst_port: u16) -> Fields {
    fields_of(Addresses::Six { src, dst }, src_port, dst_port)
}

/// Microsoft, "Verifying the RSS Hash Calculation": each IPv4 row with its hash over the addresses
/// alone and its hash with the ports.
fn is_suite_met() -> bool {
    let rows = [
        (
            four([66, 9, 149, 187], 2794, [161, 142, 100, 80], 1766),
            0x323e_8fc2,
            0x51cc_c178,
        ),
        (
            four([199, 92, 111, 2], 14230, [65, 69, 140, 83], 4739),
            0xd718_262a,
            0xc626_b0ea,
        ),
        (
            four([24, 19, 198, 95], 12898, [12, 22, 207, 184], 38024),
            0xd2d0_a5de,
            0x5c2b_394a,
        ),
        (
            four([38, 27, 205, 30], 48228, [209, 142, 163, 6], 2217),
            0x8298_9176,
            0xafc7_327f,
        ),
        (
            four([153, 39, 163, 191], 44251, [202, 188, 127, 2], 1303),
            0x5d18_09c5,
            0x10e8_28a2,
        ),
    ];
    for (fields, addresses, whole) in rows {
        if hashes(&fields) != (Some(addresses), Some(whole)) {
            return false;
        }
    }
    true
}

fn first_of_ipv6() -> Fields {
    six(
        0x3ffe_2501_0200_1fff_0000_0000_0000_0007,
        2794,
        0x3ffe_2501_0200_0003_0000_0000_0000_0001,
        1766,
    )
}

fn second_of_ipv6() -> Fields {
    six(
        0x3ffe_0501_0008_0000_0260_97ff_fe40_efab,
        14230,
        0xff02_0000_0000_0000_0000_0000_0000_0001,
        4739,
    )
}

fn third_of_ipv6() -> Fields {
    six(
        0x3ffe_1900_4545_0003_0200_f8ff_fe21_67cf,
        44251,
        0xfe80_0000_0000_0000_0200_f8ff_fe21_67cf,
        38024,
    )
}

/// Each IPv6 row of the same suite.
fn is_suite_met_by_ipv6() -> bool {
    hashes(&first_of_ipv6()) == (Some(0x2cc1_8cd5), Some(0x4020_7d3d))
        && hashes(&second_of_ipv6()) == (Some(0x0f0c_461c), Some(0xdde5_1bbf))
        && hashes(&third_of_ipv6()) == (Some(0x4b61_e985), Some(0x02d1_feef))
}

/// The first of them byte by byte, which is the longest input.
fn are_36_bytes_hashed() -> bool {
    let bytes = [
        0x3f, 0xfe, 0x25, 0x01, 0x02, 0x00, 0x1f, 0xff, 0, 0, 0, 0, 0, 0, 0, 0x07, 0x3f, 0xfe,
        0x25, 0x01, 0x02, 0x00, 0x00, 0x03, 0, 0, 0, 0, 0, 0, 0, 0x01, 0x0a, 0xea, 0x06, 0xe6,
    ];
    hash(&bytes[..32]) == Some(0x2cc1_8cd5) && hash(&bytes) == Some(0x4020_7d3d)
}

fn packet_at(port: u32, fields: Option<Fields>) -> Packet {
    Packet {
        id: PacketId { port, seq: 0 },
        time: 0,
        fields,
    }
}

/// At port 0 the default key of 52 bytes, at port 1 one whose bit 63 alone is 1.
fn two_keys(alloc: Global) -> Result<Keys, AllocError> {
    let mut bit_63 = [0; 52];
    bit_63[7] = 1;
    let mut ports = Limited::new(alloc);
    ports.push(default_key(KeySize::Bytes52))?;
    ports.push(HashKey::new(&bit_63, KeySize::Bytes40))?;
    Ok(Keys {
        table: TableSize::Entries128,
        ports,
    })
}

/// Whether a packet is hashed with the key of its port, of such keys.
fn is_key_of_port(keys: &Keys) -> bool {
    let far = four([9, 9, 9, 9], 1, [10, 0, 0, 1], 2);
    let first = four([66, 9, 149, 187], 2794, [161, 142, 100, 80], 1766);
    packet_hash(keys, &packet_at(1, Some(far))) == Some(Some(0x8000_0050))
        && packet_hash(keys, &packet_at(1, None)) == Some(None)
        && packet_hash(keys, &packet_at(0, Some(first))) == Some(Some(0x51cc_c178))
}

/// The same of IPv6. At port 1 bits 63 down to 32 of the input: 02001fff in the source, its last bit
/// first.
fn is_key_of_port_by_ipv6(keys: &Keys) -> bool {
    packet_hash(keys, &packet_at(0, Some(first_of_ipv6()))) == Some(Some(0x4020_7d3d))
        && packet_hash(keys, &packet_at(1, Some(first_of_ipv6()))) == Some(Some(0xfff8_0040))
}

fn are_keys_of_ports(alloc: Global) -> Result<(bool, bool), AllocError> {
    let keys = two_keys(alloc)?;
    Ok((is_key_of_port(&keys), is_key_of_port_by_ipv6(&keys)))
}

/// Prints what is right.
pub fn tell_all(rt: &HostRuntime) -> io::Result<()> {
    println!(rt; "the verification suite is met: {}", is_suite_met())?;
    println!(rt; "by IPv6: {}", is_suite_met_by_ipv6())?;
    println!(rt; "36 bytes are hashed: {}", are_36_bytes_hashed())?;
    let (four, six) = are_keys_of_ports(rt.alloc())?;
    println!(rt; "a packet is hashed with the key of its port: {four}, of IPv6 {six}")
}
