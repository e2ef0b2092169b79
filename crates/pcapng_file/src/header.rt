//! The header of a section (pcapng, "Section Header Block").
//!
//! | offset | bytes | meaning |
//! |---|---|---|
//! | 0 | 4 | 0a 0d 0d 0a, the type, which reads alike in both byte orders |
//! | 4 | 4 | the block's total length, 28 or more |
//! | 8 | 4 | magic number, 1a2b3c4d in the section's byte order |
//! | 12 | 2 | major version, 1 |
//! | 14 | 10 | minor version and length of the section: not tested |
ghost use Rattle.std.specs.Prelude.{◌≡◌, ◌≤◌, length};
ghost use Rattle.pcapng_file.specs.Blocks.{is_section, has_order, order_of, is_header, header_in};

use crate::number::{number, short};
use pcap_file::Endian;

/// The bytes of a section's header that are tested.
pub(crate) const HEADER: usize = 24;

/// The type of a section's header.
const SECTION: u32 = 0x0a0d_0d0a;

/// The magic number of a section's header.
const MAGIC: u32 = 0x1a2b_3c4d;

/// The least total length of a section's header.
const LEAST: u32 = 28;

/// Whether a file that begins so is to be read as pcapng: its first four bytes are 0a 0d 0d 0a.
pub fn is_pcapng(bytes: &[u8]) -> bool
    ensures { result ≡ is_section bytes.now }
{
    bytes.len() >= 4 && number(Endian::Big, bytes) == SECTION
}

// Whether the magic number reads in this byte order.
fn has_order(order: Endian, bytes: &[u8]) -> bool
    requires { 12 ≤ length bytes.now }
    ensures { result ≡ has_order order bytes.now }
{
    number(order, &bytes[8..]) == MAGIC
}

// The byte order in which the magic number reads, if it reads in one.
fn order_of(bytes: &[u8]) -> Option<Endian>
    requires { 12 ≤ length bytes.now }
    ensures { result ≡ order_of bytes.now }
{
    if has_order(Endian::Big, bytes) {
        Some(Endian::Big)
    } else if has_order(Endian::Little, bytes) {
        Some(Endian::Little)
    } else {
        None
    }
}

// Whether a right header of this byte order stands in front.
fn is_header(order: Endian, bytes: &[u8]) -> bool
    ensures { result ≡ is_header order bytes.now }
{
    if bytes.len() < HEADER {
        return false;
    }
    let total = number(order, &bytes[4..]);
    total >= LEAST && total % 4 == 0 && short(order, &bytes[12..]) == 1
}

/// The byte order of the section whose header stands in front, and None where that is wrong.
pub(crate) fn header_in(bytes: &[u8]) -> Option<Endian>
    requires { 24 ≤ length bytes.now }
    ensures { result ≡ header_in bytes.now }
{
    match order_of(bytes) {
        None => None,
        Some(order) => {
            if is_header(order, bytes) {
                Some(order)
            } else {
                None
            }
        }
    }
}
