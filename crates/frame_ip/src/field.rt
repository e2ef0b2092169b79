//! One field of a handled frame, read where it lies.
ghost use Rattle.std.specs.Prelude.{◌≡◌, IsTrue, Some};
ghost use Rattle.nf_base.specs.Families.{family_of};
ghost use Rattle.nf_base.specs.Values.{field_of};
ghost use Rattle.frame_ip.specs.Frame.{fields_at, fields_in};
ghost use Rattle.frame_ip.specs.FourFrame as four;
ghost use Rattle.frame_ip.specs.SixFrame as six;

use crate::bytes::{mac_at, u16_at, u32_at, u128_at};
use crate::four_layout::transport;
use crate::handled::View;
use nf_base::packet::{Family, Field};

/// A field of an IPv4 frame.
#[inline(always)]
fn four_field(frame: &[u8], original: u32, time: u64, field: Field) -> u128
    requires { IsTrue (four.is_four frame.now) }
    ensures { result ≡ field_of time (four.fields_at frame.now original) field }
{
    match field {
        Field::Time => u128::from(time),
        Field::Length => u128::from(original),
        Field::SrcMac => u128::from(mac_at(frame, 6).get()),
        Field::DstMac => u128::from(mac_at(frame, 0).get()),
        Field::SrcIp | Field::SrcIp6 => u128::from(u32_at(frame, 26)),
        Field::DstIp | Field::DstIp6 => u128::from(u32_at(frame, 30)),
        Field::Proto => u128::from(frame[23]),
        Field::Ttl => u128::from(frame[22]),
        Field::SrcPort => u128::from(u16_at(frame, transport(frame))),
        Field::DstPort => u128::from(u16_at(frame, transport(frame) + 2)),
    }
}

/// A field of an IPv6 frame.
#[inline(never)]
fn six_field(frame: &[u8], original: u32, time: u64, field: Field) -> u128
    requires { IsTrue (six.is_six frame.now) }
    ensures { result ≡ field_of time (six.fields_at frame.now original) field }
{
    match field {
        Field::Time => u128::from(time),
        Field::Length => u128::from(original),
        Field::SrcMac => u128::from(mac_at(frame, 6).get()),
        Field::DstMac => u128::from(mac_at(frame, 0).get()),
        Field::SrcIp | Field::SrcIp6 => u128_at(frame, 22),
        Field::DstIp | Field::DstIp6 => u128_at(frame, 38),
        Field::Proto => u128::from(frame[20]),
        Field::Ttl => u128::from(frame[21]),
        Field::SrcPort => u128::from(u16_at(frame, 54)),
        Field::DstPort => u128::from(u16_at(frame, 56)),
    }
}

/// The version of IP of a handled frame.
#[inline]
pub fn family_of(view: &View) -> Family
    ensures value { result ≡ family_of (fields_at view.now.frame view.now.original) }
    // They are the frame's fields.
    ensures handled { let v = view.now in
        fields_in v.frame v.original ≡ Some (fields_at v.frame v.original) }
{
    view.family
}

/// The value of a field of a handled frame that came at a time, in nanoseconds; of the others no
/// byte is read.
#[inline(always)]
pub fn field_of(view: &View, time: u64, field: Field) -> u128
    ensures { result ≡ field_of time (fields_at view.now.frame view.now.original) field }
{
    match view.family {
        Family::Four => four_field(view.frame, view.original, time, field),
        Family::Six => six_field(view.frame, view.original, time, field),
    }
}
