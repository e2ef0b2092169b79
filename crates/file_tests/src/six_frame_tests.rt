//! Frames of IPv6, their fields and edits into them. The checksums that are expected were reckoned from
//! the words of the pseudo header and the segment (RFC 8200 section 8.1, RFC 768), and not by updates.
ghost use Rattle.std.specs.Prelude.{◌<◌};

use crate::frame_tests::edit_handled;
use frame_ip::{fields, fields_of, view};
use nf_base::done::Edits;
use nf_base::mac::Mac;
use nf_base::packet::{Addresses, Field, Fields};

/// A datagram without data from ::1, port 1, to ::2, port 2, and without a checksum.
const DATAGRAM: [u8; 62] = [
    0x02, 0, 0, 0, 0, 0x02, 0x02, 0, 0, 0, 0, 0x01, 0x86, 0xdd, 0x60, 0, 0, 0, 0, 8, 0x11, 0x40, 0,
    0, 0, 0, 0, 0, 0, 0, 0, 0, 0, 0, 0, 0, 0, 1, 0, 0, 0, 0, 0, 0, 0, 0, 0, 0, 0, 0, 0, 0, 0, 2, 0,
    1, 0, 2, 0, 8, 0, 0,
];

/// Two bytes of UDP from 2001:db8::1, port 1024, to 2001:db8:1:2:3:4:5:abcd, port 53, with the checksum
/// 0x3566.
const SUMMED: [u8; 64] = [
    0x02, 0, 0, 0, 0, 0x02, 0x02, 0, 0, 0, 0, 0x01, 0x86, 0xdd, 0x60, 0, 0, 0, 0, 0x0a, 0x11, 0x40,
    0x20, 0x01, 0x0d, 0xb8, 0, 0, 0, 0, 0, 0, 0, 0, 0, 0, 0, 1, 0x20, 0x01, 0x0d, 0xb8, 0, 1, 0, 2,
    0, 3, 0, 4, 0, 5, 0xab, 0xcd, 0x04, 0, 0, 0x35, 0, 0x0a, 0x35, 0x66, 0xbe, 0xef,
];

/// A SYN of TCP between the same addresses, from port 49152 to port 80, with the checksum 0xc841.
const SEGMENT: [u8; 74] = [
    0x02, 0, 0, 0, 0, 0x02, 0x02, 0, 0, 0, 0, 0x01, 0x86, 0xdd, 0x60, 0, 0, 0, 0, 0x14, 0x06, 0x40,
    0x20, 0x01, 0x0d, 0xb8, 0, 0, 0, 0, 0, 0, 0, 0, 0, 0, 0, 1, 0x20, 0x01, 0x0d, 0xb8, 0, 1, 0, 2,
    0, 3, 0, 4, 0, 5, 0xab, 0xcd, 0xc0, 0, 0, 0x50, 0, 0, 0, 1, 0, 0, 0, 0, 0x50, 0x02, 0x20, 0,
    0xc8, 0x41, 0, 0,
];

fn changed(offset: usize, byte: u8) -> [u8; 62]
    requires { offset < 62 }
{
    let mut frame = DATAGRAM;
    frame[offset] = byte;
    frame
}

#[test]
fn a_datagram_of_ipv6_has_the_fields_of_its_headers(rt: HostRuntime) {
    let expected = Fields {
        length: 62,
        src_mac: Mac::new(0x0200_0000_0001),
        dst_mac: Mac::new(0x0200_0000_0002),
        addresses: Addresses::Six { src: 1, dst: 2 },
        proto: 17,
        ttl: 64,
        src_port: 1,
        dst_port: 2,
    };
    assert_eq!(rt; fields_of(&DATAGRAM, 62), Some(expected));
    match view(&DATAGRAM, 62) {
        Some(seen) => assert_eq!(rt; fields(&seen), expected),
        None => assert!(rt; false, "skipped"),
    }
}

#[test]
fn a_segment_of_ipv6_has_the_fields_of_its_headers(rt: HostRuntime) {
    let expected = Fields {
        length: 1500,
        src_mac: Mac::new(0x0200_0000_0001),
        dst_mac: Mac::new(0x0200_0000_0002),
        addresses: Addresses::Six {
            src: 0x2001_0db8_0000_0000_0000_0000_0000_0001,
            dst: 0x2001_0db8_0001_0002_0003_0004_0005_abcd,
        },
        proto: 6,
        ttl: 64,
        src_port: 49_152,
        dst_port: 80,
    };
    assert_eq!(rt; fields_of(&SEGMENT, 1500), Some(expected));
    assert!(rt; fields_of(&SEGMENT[..73], 1500).is_none(), "73 bytes");
    assert!(rt; fields_of(&DATAGRAM[..61], 62).is_none(), "61 bytes");
}

#[test]
fn one_byte_makes_a_frame_of_ipv6_skipped(rt: HostRuntime) {
    let cases: [(usize, u8, bool, &str); 11] = [
        (12, 0x08, false, "another Ethernet type"),
        (13, 0x00, false, "a type of 0x8600"),
        (14, 0x40, false, "IP version 4"),
        (14, 0x6f, true, "a traffic class"),
        (17, 0xff, true, "a flow label"),
        (18, 0xff, true, "a payload length past the end"),
        (20, 0, false, "hop-by-hop options"),
        (20, 44, false, "a fragment header"),
        (20, 58, false, "ICMPv6"),
        (20, 6, false, "TCP, for which 12 bytes are missing"),
        (21, 0, true, "a hop limit of 0"),
    ];
    for (offset, byte, handled, what) in cases {
        if offset < 62 {
            let frame = changed(offset, byte);
            assert_eq!(rt; fields_of(&frame, 62).is_some(), handled, "{what}");
        }
    }
}

/// One value, for a field of IPv6 that may be set.
fn one_edit(field: Field, value: u64, address: u128) -> Edits {
    let mut edits = Edits::none();
    match field {
        Field::SrcMac => edits.src_mac = Some(value),
        Field::DstMac => edits.dst_mac = Some(value),
        Field::SrcIp6 => edits.src_ip6 = Some(address),
        Field::DstIp6 => edits.dst_ip6 = Some(address),
        Field::Ttl => edits.ttl = Some(value),
        Field::SrcPort => edits.src_port = Some(value),
        Field::DstPort => edits.dst_port = Some(value),
        _ => {}
    }
    edits
}

/// What a frame is with one field's bytes, the lowest of a number, and the two bytes of a checksum
/// replaced.
fn replaced(frame: &mut [u8], place: (usize, usize), number: u128, sum_at: usize, sum: u16) {
    let (at, bytes) = place;
    let number = number.to_be_bytes();
    let lowest = number.iter().skip(16_usize.saturating_sub(bytes));
    for (byte, value) in frame.iter_mut().skip(at).zip(lowest) {
        *byte = *value;
    }
    let sum = sum.to_be_bytes();
    for (byte, value) in frame.iter_mut().skip(sum_at).zip(&sum) {
        *byte = *value;
    }
}

/// A field, its value, where it stands and how many bytes it has, and the checksums of UDP and of TCP
/// behind its edit.
type Case = (Field, u128, (usize, usize), u16, u16);

const CASES: [Case; 7] = [
    (Field::SrcMac, 0xaabb_ccdd_eeff, (6, 6), 0x3566, 0xc841),
    (Field::DstMac, 0xaabb_ccdd_eeff, (0, 6), 0x3566, 0xc841),
    (
        Field::SrcIp6,
        0xfedc_ba98_7654_3210_0123_4567_89ab_cdef,
        (22, 16),
        0x6320,
        0xf5fb,
    ),
    (
        Field::DstIp6,
        0xfe80_0000_0000_0000_0000_0000_0000_0007,
        (38, 16),
        0x1074,
        0xa34f,
    ),
    (Field::Ttl, 7, (21, 1), 0x3566, 0xc841),
    (Field::SrcPort, 9, (54, 2), 0x395d, 0x8839),
    (Field::DstPort, 0xffff, (56, 2), 0x359b, 0xc891),
];

fn edits_of(case: &Case) -> Edits {
    one_edit(case.0, (case.1 % 0x1_0000_0000_0000_0000) as u64, case.1)
}

#[test]
fn each_edit_of_a_datagram_of_ipv6_is_exact(rt: HostRuntime) {
    for case in &CASES {
        let mut frame = SUMMED;
        edit_handled(&mut frame, 64, &edits_of(case));
        let mut expected = SUMMED;
        replaced(&mut expected, case.2, case.1, 60, case.3);
        assert!(rt; frame.as_slice() == expected.as_slice(), "{:?}", case.0);
    }
}

#[test]
fn each_edit_of_a_segment_of_ipv6_is_exact(rt: HostRuntime) {
    for case in &CASES {
        let mut frame = SEGMENT;
        edit_handled(&mut frame, 74, &edits_of(case));
        let mut expected = SEGMENT;
        replaced(&mut expected, case.2, case.1, 70, case.4);
        assert!(rt; frame.as_slice() == expected.as_slice(), "{:?}", case.0);
    }
}

#[test]
fn all_edits_of_ipv6_at_once(rt: HostRuntime) {
    let edits = Edits {
        src_mac: Some(0xaabb_ccdd_eeff),
        dst_mac: Some(0xaabb_ccdd_eeff),
        src_ip: Some(5),
        dst_ip: Some(6),
        src_ip6: Some(0xfedc_ba98_7654_3210_0123_4567_89ab_cdef),
        dst_ip6: Some(0xfe80_0000_0000_0000_0000_0000_0000_0007),
        ttl: Some(7),
        src_port: Some(9),
        dst_port: Some(0xffff),
    };
    let mut datagram = SUMMED;
    edit_handled(&mut datagram, 64, &edits);
    assert_eq!(rt; (datagram[60], datagram[61]), (0x42, 0x5a), "UDP");
    let mut segment = SEGMENT;
    edit_handled(&mut segment, 74, &edits);
    assert_eq!(rt; (segment[70], segment[71]), (0x91, 0x51), "TCP");
}

// From port 0x3966 the datagram's checksum comes out as 0, and from port 0x8842 the segment's.
#[test]
fn checksums_of_0_over_ipv6(rt: HostRuntime) {
    let mut datagram = SUMMED;
    edit_handled(&mut datagram, 64, &one_edit(Field::SrcPort, 0x3966, 0));
    assert_eq!(rt; (datagram[60], datagram[61]), (0xff, 0xff), "UDP");
    let mut segment = SEGMENT;
    edit_handled(&mut segment, 74, &one_edit(Field::SrcPort, 0x8842, 0));
    assert_eq!(rt; (segment[70], segment[71]), (0, 0), "TCP");
    let mut none = DATAGRAM;
    edit_handled(&mut none, 62, &one_edit(Field::DstIp6, 0, 77));
    assert_eq!(rt; (none[53], none[60], none[61]), (77, 0, 0), "no checksum");
}

#[test]
fn an_address_of_the_other_version_is_not_edited(rt: HostRuntime) {
    let mut edits = Edits::none();
    edits.src_ip = Some(5);
    edits.dst_ip = Some(6);
    let mut frame = SUMMED;
    edit_handled(&mut frame, 64, &edits);
    assert!(rt; frame.as_slice() == SUMMED.as_slice());
    edit_handled(&mut frame, 64, &Edits::none());
    assert!(rt; frame.as_slice() == SUMMED.as_slice(), "no edit");
}
