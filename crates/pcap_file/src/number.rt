//! Numbers of 32 bits in either byte order.
ghost use Rattle.std.specs.Prelude.{◌≡◌, ◌≤◌, length};
ghost use Rattle.pcap_file.specs.Form.{number_in};

use crate::form::Endian;
use byteorder::{BigEndian, ByteOrder, LittleEndian};

/// The number of the first 4 bytes.
pub(crate) fn number(order: Endian, bytes: &[u8]) -> u32
    requires { 4 ≤ length bytes.now }
    ensures { result ≡ number_in order bytes.now }
{
    match order {
        Endian::Big => BigEndian::read_u32(bytes),
        Endian::Little => LittleEndian::read_u32(bytes),
    }
}
