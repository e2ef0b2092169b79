//! The edits of a packet, written into its frame.
ghost use Rattle.std.specs.Prelude.{◌≡◌, IsTrue};
ghost use Rattle.frame_ip.specs.Frame.{is_handled, is_four, is_six};
ghost use Rattle.frame_ip.specs.Edit.{IsUnedited, edited};
ghost use Rattle.frame_ip.specs.FourSums as four;
ghost use Rattle.frame_ip.specs.SixSums as six;

use crate::four_layout::is_ipv4;
use crate::{four_edits, six_edits};
use nf_base::done::Edits;

/// Writes the edits into a handled frame, and brings its checksums up to date (RFC 1624 equation 3).
///
/// MAC addresses are 48 bits, IPv4 addresses 32, IPv6 addresses 128, ports 16, the TTL or hop limit
/// 8, in network order; a value that is wider is cut. The frame says of which version of IP it is: an
/// edit of an address of the other version leaves it as it is, so that any edits may be given for any
/// frame. MAC addresses count in no checksum, a hop limit in none either, and an IPv6 frame has none
/// of IP. Checksums start from the one in the frame, right or wrong. A UDP checksum of 0 says that
/// there is none, and stays 0, and one that comes out as 0 is sent as 0xffff (RFC 768).
pub fn edit(frame: &mut [u8], edits: &Edits)
    requires handled { IsTrue (is_handled frame.old) }
    ensures edited { frame.new ≡ edited edits.now frame.old }
    ensures unchanged { IsUnedited edits.now → frame.new ≡ frame.old }
    // A frame whose checksums were right has right ones, whatever is edited (RFC 1071): the IP header's
    // of an IPv4 frame, and that of TCP or UDP in either.
    ensures ip_stays_right { IsTrue (is_four frame.old) →
        four.IsIpRight frame.old → four.IsIpRight frame.new }
    ensures transport_stays_right { IsTrue (is_four frame.old) →
        four.IsTransportRight frame.old → four.IsTransportRight frame.new }
    ensures six_stays_right { IsTrue (is_six frame.old) →
        six.IsTransportRight frame.old → six.IsTransportRight frame.new }
    // The same of each sum of which a checksum and the words that are written are a part.
    ensures ip_right { IsTrue (is_four frame.old) → four.IpKeepsRight edits.now frame.old }
    ensures transport_right { IsTrue (is_four frame.old) →
        four.HasChecksum frame.old → four.TransportKeepsRight edits.now frame.old }
    ensures six_right { IsTrue (is_six frame.old) →
        six.HasChecksum frame.old → six.TransportKeepsRight edits.now frame.old }
{
    if is_ipv4(frame) {
        four_edits::edit(frame, edits);
    } else {
        six_edits::edit(frame, edits);
    }
}
