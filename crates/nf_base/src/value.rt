//! The values of expressions, as far as they depend on no state.

ghost use Rattle.std.specs.Prelude.{◌≡◌};
ghost use Rattle.nf_base.specs.Values.{field_of, field_width, narrowed, result_of, compares};
ghost use Rattle.nf_base.specs.Families.{family_of, source, destination, door_of};

use crate::expr::{Comparison, Operator};
use crate::packet::{Addresses, Door, Family, Field, Fields};
use crate::width::Width;

/// The version of IP that a packet with these fields has.
pub fn family_of(fields: &Fields) -> Family
    ensures { result ≡ family_of fields.now }
{
    match fields.addresses {
        Addresses::Four { .. } => Family::Four,
        Addresses::Six { .. } => Family::Six,
    }
}

/// The handler that a packet of a port with these fields is for.
pub fn door_of(port: u32, fields: &Fields) -> Door
    ensures { result ≡ door_of port fields.now }
{
    Door {
        port,
        family: family_of(fields),
    }
}

/// The source address.
pub fn source(fields: &Fields) -> u128
    ensures { result ≡ source fields.now }
{
    match fields.addresses {
        Addresses::Four { src, .. } => u128::from(src),
        Addresses::Six { src, .. } => src,
    }
}

/// The destination address.
pub fn destination(fields: &Fields) -> u128
    ensures { result ≡ destination fields.now }
{
    match fields.addresses {
        Addresses::Four { dst, .. } => u128::from(dst),
        Addresses::Six { dst, .. } => dst,
    }
}

/// The value of a field of a handled packet that came at a time, in nanoseconds.
pub fn field_of(time: u64, fields: &Fields, field: Field) -> u128
    ensures { result ≡ field_of time fields.now field }
{
    match field {
        Field::Time => u128::from(time),
        Field::Length => u128::from(fields.length),
        Field::SrcMac => u128::from(fields.src_mac.get()),
        Field::DstMac => u128::from(fields.dst_mac.get()),
        Field::SrcIp | Field::SrcIp6 => source(fields),
        Field::DstIp | Field::DstIp6 => destination(fields),
        Field::Proto => u128::from(fields.proto),
        Field::Ttl => u128::from(fields.ttl),
        Field::SrcPort => u128::from(fields.src_port),
        Field::DstPort => u128::from(fields.dst_port),
    }
}

/// The width of a field.
pub fn field_width(field: Field) -> Width
    ensures { result ≡ field_width field }
{
    match field {
        Field::Time => Width::W64,
        Field::Length => Width::W32,
        Field::SrcMac => Width::W48,
        Field::DstMac => Width::W48,
        Field::SrcIp => Width::W32,
        Field::DstIp => Width::W32,
        Field::SrcIp6 => Width::W128,
        Field::DstIp6 => Width::W128,
        Field::Proto => Width::W8,
        Field::Ttl => Width::W8,
        Field::SrcPort => Width::W16,
        Field::DstPort => Width::W16,
    }
}

/// A value modulo `2 ^ width`.
pub fn narrowed(width: Width, v: u128) -> u128
    ensures { result ≡ narrowed width v }
{
    match width {
        Width::W8 => v % 0x100,
        Width::W16 => v % 0x1_0000,
        Width::W32 => v % 0x1_0000_0000,
        Width::W48 => v % 0x1_0000_0000_0000,
        Width::W64 => v % 0x1_0000_0000_0000_0000,
        Width::W128 => v,
    }
}

/// What an operator gives of two values: sums and products stop at 2^128 - 1, differences at 0; a
/// division by 0 gives 0.
pub fn result_of(operator: Operator, a: u128, b: u128) -> u128
    ensures { result ≡ result_of operator a b }
{
    match operator {
        Operator::Plus => a.saturating_add(b),
        Operator::Minus => a.saturating_sub(b),
        Operator::Times => a.saturating_mul(b),
        Operator::Over => { if b == 0 { 0 } else { a / b } }
        Operator::Modulo => { if b == 0 { 0 } else { a % b } }
        Operator::And => a & b,
    }
}

/// Whether a comparison of two values holds.
pub fn compares(comparison: Comparison, a: u128, b: u128) -> bool
    ensures { result ≡ compares comparison a b }
{
    match comparison {
        Comparison::Equal => a == b,
        Comparison::NotEqual => a != b,
        Comparison::Less => a < b,
        Comparison::LessOrEqual => a <= b,
        Comparison::Greater => a > b,
        Comparison::GreaterOrEqual => a >= b,
    }
}
