//! Checksums that are brought up to date by what changed (RFC 1624 equation 3).
ghost use Rattle.std.specs.Prelude.{◌≡◌, ◌+◌, ◌-◌, ◌<◌, ◌^◌};
ghost use Rattle.frame_ip.specs.Checksum.{fold, udp_checksum};

/// The high half added to the low half until the sum fits 16 bits; twice is enough.
#[tactic(auto, using(crate::proofs::Folding::twice))]
fn fold(sum: u32) -> u16
    requires { sum < 2 ^ 24 }
    ensures { result ≡ fold sum }
{
    let once = sum / 65_536 + sum % 65_536;
    (once / 65_536 + once % 65_536) as u16
}

/// A checksum of this value, after words were written whose changes have this sum.
pub(crate) fn updated(old: u16, sum: u32) -> u16
    requires { sum < 2 ^ 23 }
    ensures { result ≡ 65535 - fold ((65535 - old) + sum) }
{
    0xffff - fold(u32::from(0xffff - old) + sum)
}

/// A UDP checksum of 0 stays, and one that comes out as 0 is sent as 0xffff (RFC 768).
pub(crate) fn udp_checksum(old: u16, new: u16) -> u16
    ensures { result ≡ udp_checksum old new }
{
    if old == 0 {
        0
    } else if new == 0 {
        0xffff
    } else {
        new
    }
}
