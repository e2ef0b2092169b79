//! The fields of a packet, and its version of IP.

ghost use Rattle.std.specs.Prelude.{◌≡◌};
ghost use Rattle.nf_base.specs.Values.{is_settable};
ghost use Rattle.nf_types.specs.Fields.{same_family, has_field};

use nf_base::packet::{Family, Field};

/// Whether a handler may give a field a value: all but the time, the length and the protocol.
pub fn is_settable(field: Field) -> bool
    ensures { result ≡ is_settable field }
{
    match field {
        Field::Time => false,
        Field::Length => false,
        Field::SrcMac => true,
        Field::DstMac => true,
        Field::SrcIp => true,
        Field::DstIp => true,
        Field::SrcIp6 => true,
        Field::DstIp6 => true,
        Field::Proto => false,
        Field::Ttl => true,
        Field::SrcPort => true,
        Field::DstPort => true,
    }
}

/// Whether two versions of IP are the same.
pub fn same_family(one: Family, other: Family) -> bool
    ensures { result ≡ same_family one other }
{
    match one {
        Family::Four => matches!(other, Family::Four),
        Family::Six => matches!(other, Family::Six),
    }
}

/// Whether packets of a version of IP have a field: each version has addresses of its own.
pub fn has_field(family: Family, field: Field) -> bool
    ensures { result ≡ has_field family field }
{
    match field {
        Field::SrcIp | Field::DstIp => same_family(family, Family::Four),
        Field::SrcIp6 | Field::DstIp6 => same_family(family, Family::Six),
        _ => true,
    }
}
