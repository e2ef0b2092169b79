//! The unit in which an interface counts time (pcapng, "Interface Description Block Options",
//! `if_tsresol`).
//!
//! | offset | bytes | meaning |
//! |---|---|---|
//! | 0 | 2 | code of the option; 0 ends the list, and 9 is the unit |
//! | 2 | 2 | length of its value |
//! | 4 | length | value, padded to a multiple of 4 |
ghost use Rattle.std.specs.Prelude.{◌≡◌, ◌≤◌, ◌<◌, ◌^◌, length, SomeIff};
ghost use Rattle.pcap_file.specs.Record.{greatest_time};
ghost use Rattle.pcapng_file.specs.Options.{padded, resolution_in, units_of, time_in};
ghost use Rattle.pcapng_file.specs.Walked.{resolution_behind, moves_on};

use crate::number::short;
use pcap_file::Endian;

/// The last nanosecond of the last second that a libpcap record can hold.
const GREATEST_TIME: u128 = 4_294_967_295_999_999_999;

/// The code of the option that tells the unit.
const RESOLUTION: u16 = 9;

/// The length of its value, in bytes.
const UNIT_LENGTH: usize = 1;

/// What the option in front says.
#[derive(Clone, Copy, Debug, PartialEq, Eq)]
pub(crate) enum Found {
    /// That the list ends here.
    End,
    /// The unit.
    Resolution(u8),
    /// Something else, in so many bytes.
    Other(usize),
}

// What the option in front says of the unit.
fn first_option(order: Endian, bytes: &[u8]) -> Found
    requires { 4 ≤ length bytes.now }
    ensures value { resolution_in order bytes.now ≡ resolution_behind order bytes.now result }
    ensures moves { moves_on result }
{
    let code = short(order, bytes);
    let size = short(order, &bytes[2..]) as usize;
    if code == 0 {
        return Found::End;
    }
    if bytes.len() < 4 + size {
        return Found::End;
    }
    if code == RESOLUTION && size == UNIT_LENGTH {
        Found::Resolution(bytes[4])
    } else {
        Found::Other(4 + (size + 3) / 4 * 4)
    }
}

/// The value of the first option 9 of one byte.
pub(crate) fn resolution_in(order: Endian, options: &[u8]) -> Option<u8>
    ensures { result ≡ resolution_in order options.now }
{
    let mut at = 0;
    while options.len() - at >= 4 {
        match first_option(order, &options[at..]) {
            Found::End => return None,
            Found::Resolution(byte) => return Some(byte),
            Found::Other(size) => at += size.min(options.len() - at),
        }
    }
    None
}

// How many units a second has, where 128 bits hold that.
fn units(resolution: u8) -> Option<u128>
    ensures { SomeIff result (units_of resolution < 2 ^ 128) (units_of resolution) }
{
    if resolution >= 128 {
        2u128.checked_pow(u32::from(resolution - 128))
    } else {
        10u128.checked_pow(u32::from(resolution))
    }
}

/// So many units of a resolution in nanoseconds, rounded down, and at most the greatest time.
pub(crate) fn nanoseconds(resolution: u8, count: u64) -> u64
    ensures value { result ≡ time_in (units_of resolution) count }
    ensures most { result ≤ greatest_time }
{
    let total = u128::from(count) * 1_000_000_000;
    match units(resolution) {
        // So small a unit that any count is less than a nanosecond.
        None => 0,
        Some(units) => (total / units).min(GREATEST_TIME) as u64,
    }
}
