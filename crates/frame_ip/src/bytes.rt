//! Numbers in the bytes of a frame, in network order.
ghost use Rattle.std.specs.Prelude.{◌≡◌, ◌+◌, ◌≤◌, length};
ghost use Rattle.frame_ip.specs.Bytes.{number_at};

use nf_base::mac::Mac;

#[inline]
pub(crate) fn u16_at(frame: &[u8], at: usize) -> u16
    requires { at + 2 ≤ length frame.now }
    ensures { result ≡ number_at frame.now at 2 }
{
    u16::from_be_bytes([frame[at], frame[at + 1]])
}

#[inline]
pub(crate) fn u32_at(frame: &[u8], at: usize) -> u32
    requires { at + 4 ≤ length frame.now }
    ensures { result ≡ number_at frame.now at 4 }
{
    u32::from_be_bytes([frame[at], frame[at + 1], frame[at + 2], frame[at + 3]])
}

fn u64_at(frame: &[u8], at: usize) -> u64
    requires { at + 8 ≤ length frame.now }
    ensures { result ≡ number_at frame.now at 8 }
{
    u64::from(u32_at(frame, at)) * 0x1_0000_0000 + u64::from(u32_at(frame, at + 4))
}

pub(crate) fn u128_at(frame: &[u8], at: usize) -> u128
    requires { at + 16 ≤ length frame.now }
    ensures { result ≡ number_at frame.now at 16 }
{
    u128::from(u64_at(frame, at)) * 0x1_0000_0000_0000_0000 + u128::from(u64_at(frame, at + 8))
}

pub(crate) fn mac_at(frame: &[u8], at: usize) -> Mac
    requires { at + 6 ≤ length frame.now }
    ensures { result ≡ number_at frame.now at 6 }
{
    let high = u16_at(frame, at);
    let low = u32_at(frame, at + 2);
    Mac::new(u64::from(high) * 0x1_0000_0000 + u64::from(low))
}
