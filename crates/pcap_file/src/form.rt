//! The forms of a capture, which its header tells.
//!
//! | offset | bytes | meaning |
//! |---|---|---|
//! | 0 | 4 | magic number, a1 b2 c3 d4 for microseconds and a1 b2 3c 4d for nanoseconds |
//! | 4 | 16 | version, zone, accuracy, snapshot length: not tested |
//! | 20 | 4 | link type, whose low 16 bits are 1 for Ethernet |
//! | 24 | | the records |
//!
//! The byte order in which the magic number reads so is that of all numbers (libpcap file format 2.4,
//! "File Header").
ghost use Rattle.std.specs.Prelude.{◌≡◌};
ghost use Rattle.pcap_file.specs.Form.{magic_number, is_header, form_of};

use crate::number::number;

/// The length of a capture's header, in bytes.
pub(crate) const HEADER: usize = 24;

/// The link type of Ethernet frames.
const ETHERNET: u32 = 1;

/// Which byte of a number stands first.
#[derive(Clone, Copy, Debug, PartialEq, Eq)]
pub enum Endian {
    /// The highest.
    Big,
    /// The lowest.
    Little,
}

/// What the fraction of a second counts.
#[derive(Clone, Copy, Debug, PartialEq, Eq)]
pub enum TimeUnit {
    Microseconds,
    Nanoseconds,
}

impl TimeUnit {
    /// The magic number that says so.
    fn magic(self) -> u32
        ensures { result ≡ magic_number self }
    {
        match self {
            TimeUnit::Microseconds => 0xa1b2_c3d4,
            TimeUnit::Nanoseconds => 0xa1b2_3c4d,
        }
    }
}

/// How the numbers of a capture are to be read.
#[derive(Clone, Copy, Debug, PartialEq, Eq)]
pub struct Form {
    pub order: Endian,
    pub unit: TimeUnit,
}

// Whether a capture of this form begins so.
fn has_form(form: Form, bytes: &[u8]) -> bool
    ensures { result ≡ is_header form bytes.now }
{
    bytes.len() >= HEADER
        && number(form.order, bytes) == form.unit.magic()
        && number(form.order, &bytes[20..]) % 65_536 == ETHERNET
}

/// The form of a capture that begins so, and None where it is no capture.
pub(crate) fn form_of(bytes: &[u8]) -> Option<Form>
    ensures { result ≡ form_of bytes.now }
{
    let orders = (Endian::Big, Endian::Little);
    let units = (TimeUnit::Microseconds, TimeUnit::Nanoseconds);
    let forms = [
        Form {
            order: orders.0,
            unit: units.0,
        },
        Form {
            order: orders.0,
            unit: units.1,
        },
        Form {
            order: orders.1,
            unit: units.0,
        },
        Form {
            order: orders.1,
            unit: units.1,
        },
    ];
    if has_form(forms[0], bytes) {
        Some(forms[0])
    } else if has_form(forms[1], bytes) {
        Some(forms[1])
    } else if has_form(forms[2], bytes) {
        Some(forms[2])
    } else if has_form(forms[3], bytes) {
        Some(forms[3])
    } else {
        None
    }
}
