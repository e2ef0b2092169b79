//! Numbers of 16 and of 32 bits in either byte order.
ghost use Rattle.std.specs.Prelude.{◌≡◌, ◌≤◌, length};
ghost use Rattle.pcap_file.specs.Form.{number_in};
ghost use Rattle.pcapng_file.specs.Options.{short_in};

use byteorder::{BigEndian, ByteOrder, LittleEndian};
use pcap_file::Endian;

/// The number of the first 4 bytes.
pub(crate) fn number(order: Endian, bytes: &[u8]) -> u32
    requires { 4 ≤ length bytes.now }
    ensures { result ≡ number_in order bytes.now }
{
    match order {
        Endian::Big => BigEndian::read_u32(bytes),
        Endian::Little => LittleEndian::read_u32(bytes),
    }
}

/// The number of the first 2 bytes.
pub(crate) fn short(order: Endian, bytes: &[u8]) -> u16
    requires { 2 ≤ length bytes.now }
    ensures { result ≡ short_in order bytes.now }
{
    match order {
        Endian::Big => BigEndian::read_u16(bytes),
        Endian::Little => LittleEndian::read_u16(bytes),
    }
}
