//! The fields of a packet that the hash of receive side scaling reads (Microsoft RSS, IPv4 with
//! ports).
ghost use Rattle.std.specs.Prelude.{◌≡◌};
ghost use Rattle.nf_base.specs.Hashed.{number, width, hashable};

use crate::packet::{Family, Field};

/// A field that is hashed, by its place in the input of the hash.
#[derive(Clone, Copy, Debug, PartialEq, Eq)]
pub enum Hashable {
    /// The source address.
    SrcIp,
    /// The destination address.
    DstIp,
    /// The TCP or UDP source port.
    SrcPort,
    /// The TCP or UDP destination port.
    DstPort,
}

impl Hashable {
    /// Its place among the fields of the input, 0 to 3.
    pub fn number(self) -> usize
        ensures value { result ≡ number self }
    {
        match self {
            Hashable::SrcIp => 0,
            Hashable::DstIp => 1,
            Hashable::SrcPort => 2,
            Hashable::DstPort => 3,
        }
    }

    /// How many bits it has in packets of a family: 32, 128 or 16.
    pub fn width(self, family: Family) -> u32
        ensures value { result ≡ width family self }
    {
        match (self, family) {
            (Hashable::SrcIp | Hashable::DstIp, Family::Four) => 32,
            (Hashable::SrcIp | Hashable::DstIp, Family::Six) => 128,
            (Hashable::SrcPort | Hashable::DstPort, _) => 16,
        }
    }
}

/// The field as one that is hashed in packets of a family, where it is one of the four.
pub fn hashable_field(family: Family, field: Field) -> Option<Hashable>
    ensures value { result ≡ hashable family field }
{
    match (family, field) {
        (Family::Four, Field::SrcIp) => Some(Hashable::SrcIp),
        (Family::Four, Field::DstIp) => Some(Hashable::DstIp),
        (Family::Six, Field::SrcIp6) => Some(Hashable::SrcIp),
        (Family::Six, Field::DstIp6) => Some(Hashable::DstIp),
        (_, Field::SrcPort) => Some(Hashable::SrcPort),
        (_, Field::DstPort) => Some(Hashable::DstPort),
        _ => None,
    }
}
