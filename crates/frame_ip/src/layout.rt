//! A handled frame, of either version of IP.
ghost use Rattle.std.specs.Prelude.{◌≡◌, is_some, IfSome, Some};
ghost use Rattle.frame_ip.specs.Frame.{is_handled, family_in, fields_in};

use crate::handled::View;
use crate::{four_layout, six_layout};
use nf_base::packet::{Family, Fields};

// The version of IP of a frame, and None for one that is skipped.
fn family(frame: &[u8]) -> Option<Family>
    ensures value { result ≡ family_in frame.now }
    ensures handled { is_some result ≡ is_handled frame.now }
{
    if four_layout::is_ipv4(frame) {
        Some(Family::Four)
    } else if six_layout::is_ipv6(frame) {
        Some(Family::Six)
    } else {
        None
    }
}

/// A frame's captured bytes as a handled frame; `original` is its length on the wire, in bytes.
///
/// Of IPv4 and IPv6 alike; IP's own total or payload length is not tested.
pub fn view(frame: &[u8], original: u32) -> Option<View<'_>>
    ensures some { IfSome result (λ v. v ≡ record { frame = frame.now; original = original }) }
    ensures handled { is_some result ≡ is_handled frame.now }
{
    match family(frame) {
        Some(family) => Some(View {
            frame,
            original,
            family,
        }),
        None => None,
    }
}

/// The fields of a handled frame. Of IPv6 the TTL is the hop limit, and the protocol the next header.
pub fn fields(view: &View) -> Fields
    ensures { fields_in view.now.frame view.now.original ≡ Some result }
{
    match view.family {
        Family::Four => four_layout::fields(view.frame, view.original),
        Family::Six => six_layout::fields(view.frame, view.original),
    }
}

/// The fields of a frame, and None for one that is skipped; `original` is its length on the wire, in
/// bytes.
pub fn fields_of(frame: &[u8], original: u32) -> Option<Fields>
    ensures { result ≡ fields_in frame.now original }
{
    match view(frame, original) {
        Some(seen) => Some(fields(&seen)),
        None => None,
    }
}
