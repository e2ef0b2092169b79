//! Frames, their fields and edits into them.
ghost use Rattle.std.specs.Prelude.{◌<◌};

use frame_ip::{edit, fields, fields_of, view};
use nf_base::done::Edits;
use nf_base::mac::Mac;
use nf_base::packet::{Addresses, Field, Fields};

/// A datagram from 10.0.0.0, port 1024, to 192.168.0.0, port 80.
const DATAGRAM: [u8; 42] = [
    0x02, 0, 0, 0, 0, 0x02, 0x02, 0, 0, 0, 0, 0x01, 0x08, 0x00, 0x45, 0x00, 0x00, 0x1c, 0, 0, 0, 0,
    0x40, 0x11, 0xb0, 0x29, 10, 0, 0, 0, 192, 168, 0, 0, 0x04, 0x00, 0x00, 0x50, 0x00, 0x08, 0, 0,
];

fn changed(offset: usize, byte: u8) -> [u8; 42]
    requires { offset < 42 }
{
    let mut frame = DATAGRAM;
    frame[offset] = byte;
    frame
}

#[test]
fn a_datagram_has_the_fields_of_its_headers(rt: HostRuntime) {
    let expected = Fields {
        length: 60,
        src_mac: Mac::new(0x0200_0000_0001),
        dst_mac: Mac::new(0x0200_0000_0002),
        addresses: Addresses::Four {
            src: 0x0a00_0000,
            dst: 0xc0a8_0000,
        },
        proto: 17,
        ttl: 64,
        src_port: 1024,
        dst_port: 80,
    };
    assert_eq!(rt; fields_of(&DATAGRAM, 60), Some(expected));
    match view(&DATAGRAM, 60) {
        Some(seen) => assert_eq!(rt; fields(&seen), expected),
        None => assert!(rt; false, "skipped"),
    }
}

#[test]
fn one_byte_makes_a_frame_skipped(rt: HostRuntime) {
    let cases: [(usize, u8, bool, &str); 12] = [
        (13, 0x06, false, "ARP"),
        (12, 0x86, false, "another Ethernet type"),
        (14, 0x65, false, "IP version 6"),
        (14, 0x44, false, "IHL 4"),
        (14, 0x46, false, "IHL 6, for which 4 bytes are missing"),
        (20, 0x40, true, "don't fragment"),
        (20, 0x20, false, "more fragments"),
        (20, 0x80, true, "the reserved flag"),
        (21, 0x01, false, "fragment offset 1"),
        (23, 0x06, false, "TCP, for which 12 bytes are missing"),
        (23, 0x01, false, "ICMP"),
        (16, 0xff, true, "an IP total length past the end"),
    ];
    for (offset, byte, handled, what) in cases {
        if offset < 42 {
            let frame = changed(offset, byte);
            assert_eq!(rt; fields_of(&frame, 42).is_some(), handled, "{what}");
        }
    }
}

#[test]
fn a_tcp_header_needs_20_bytes(rt: HostRuntime) {
    let mut frame = [0; 54];
    frame[12] = 0x08;
    frame[14] = 0x45;
    frame[23] = 6;
    frame[35] = 7;
    assert!(rt; fields_of(&frame[..53], 54).is_none(), "53 bytes");
    assert!(rt;
        fields_of(&frame, 54).is_some_and(|f| f.src_port == 7),
        "54 bytes"
    );
}

#[test]
fn options_move_the_ports(rt: HostRuntime) {
    let mut frame = [0; 46];
    frame[12] = 0x08;
    frame[14] = 0x46;
    frame[23] = 17;
    frame[39] = 9;
    frame[40] = 1;
    assert!(rt; fields_of(&frame[..45], 46).is_none(), "45 bytes");
    assert!(rt; fields_of(&frame, 46).is_some_and(|f| f.src_port == 9 && f.dst_port == 256));
}

/// A datagram from 85.85.0.1, both of whose checksums are 0xdd2f.
const SUMMED: [u8; 42] = [
    0x02, 0, 0, 0, 0, 0x02, 0x02, 0, 0, 0, 0, 0x01, 0x08, 0x00, 0x45, 0x00, 0x00, 0x1c, 0, 0, 0, 0,
    0x40, 0x11, 0xdd, 0x2f, 0x55, 0x55, 0, 1, 192, 168, 0, 0, 0x04, 0x00, 0x00, 0x50, 0x00, 0x08,
    0xdd, 0x2f,
];

/// One value, for a field that may be set.
fn one_edit(field: Field, value: u64) -> Edits {
    let mut edits = Edits::none();
    match field {
        Field::SrcMac => edits.src_mac = Some(value),
        Field::DstMac => edits.dst_mac = Some(value),
        Field::SrcIp => edits.src_ip = Some(value),
        Field::DstIp => edits.dst_ip = Some(value),
        Field::Ttl => edits.ttl = Some(value),
        Field::SrcPort => edits.src_port = Some(value),
        Field::DstPort => edits.dst_port = Some(value),
        _ => {}
    }
    edits
}

// The tests edit frames through this, which promises nothing: what the answers are is compared, and not proved.
pub(crate) fn edit_handled(frame: &mut [u8], original: u32, to: &Edits) {
    if view(frame, original).is_some() {
        edit(frame, to);
    }
}

// 0xdd2f with 0x5555 changed to 0x3285 comes out as 0 (RFC 1624 section 4).
#[test]
fn a_udp_checksum_of_0_is_sent_as_ffff(rt: HostRuntime) {
    let to = one_edit(Field::SrcIp, 0x3285_0001);
    let mut frame = SUMMED;
    edit_handled(&mut frame, 42, &to);
    assert_eq!(rt;
        (frame[24], frame[25], frame[40], frame[41]),
        (0, 0, 0xff, 0xff)
    );
    let mut none = SUMMED;
    none[40] = 0;
    none[41] = 0;
    edit_handled(&mut none, 42, &to);
    assert_eq!(rt;
        (none[24], none[25], none[40], none[41]),
        (0, 0, 0, 0),
        "no checksum"
    );
    let mut segment = [0; 54];
    for (i, byte) in SUMMED.iter().enumerate() {
        segment[i] = *byte;
    }
    segment[23] = 6;
    segment[50] = 0xdd;
    segment[51] = 0x2f;
    edit_handled(&mut segment, 54, &to);
    assert_eq!(rt; (segment[50], segment[51]), (0, 0), "TCP");
}

#[test]
fn each_field_counts_where_it_should(rt: HostRuntime) {
    let cases: [(Field, u64, usize, bool, bool); 7] = [
        (Field::SrcMac, 0xaabb_ccdd_eeff, 6, false, false),
        (Field::DstMac, 0xaabb_ccdd_eeff, 0, false, false),
        (Field::SrcIp, 0x0a00_0001, 26, true, true),
        (Field::DstIp, 0x0a00_0001, 30, true, true),
        (Field::Ttl, 7, 22, true, false),
        (Field::SrcPort, 9, 34, false, true),
        (Field::DstPort, 9, 36, false, true),
    ];
    for (field, value, at, ip, udp) in cases {
        let mut frame = SUMMED;
        edit_handled(&mut frame, 42, &one_edit(field, value));
        assert_eq!(rt; (frame[24], frame[25]) != (0xdd, 0x2f), ip, "{field:?}");
        assert_eq!(rt; (frame[40], frame[41]) != (0xdd, 0x2f), udp, "{field:?}");
        for (i, byte) in frame.iter().enumerate() {
            let written = i >= at && i < at + 6 || i == 24 || i == 25 || i == 40 || i == 41;
            assert!(rt; written || *byte == SUMMED[i], "{field:?}, byte {i}");
        }
        let mut again = frame;
        let mut none = Edits::none();
        none.src_ip6 = Some(5);
        none.dst_ip6 = Some(6);
        edit_handled(&mut again, 42, &none);
        assert!(rt;
            again.as_slice() == frame.as_slice(),
            "no edit, and none of IPv6"
        );
    }
}
