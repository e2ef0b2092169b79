//! The words that edits write into a frame, and what writing them adds to the sum of an update.
ghost use Rattle.std.specs.Prelude.{◌≡◌, ◌+◌, ◌%◌, ◌≤◌, length};
ghost use Rattle.frame_ip.specs.Writes.{put, put_all, mac_words, port_words};
ghost use Rattle.frame_ip.specs.Checksum.{change, changes};

use crate::bytes::u16_at;

/// Writes a word.
pub(crate) fn put(frame: &mut [u8], at: usize, word: u16)
    requires { at + 2 ≤ length frame.old }
    ensures { frame.new ≡ put (record { at = at; word = word }) frame.old }
{
    frame[at] = (word / 256) as u8;
    frame[at + 1] = (word % 256) as u8;
}

/// The low 16 bits.
pub(crate) fn low(value: u64) -> u16
    ensures { result ≡ value % 65536 }
{
    (value % 65_536) as u16
}

pub(crate) fn put_mac(frame: &mut [u8], at: usize, value: Option<u64>)
    requires { at + 6 ≤ length frame.old }
    ensures { frame.new ≡ put_all (mac_words at value) frame.old }
{
    if let Some(value) = value {
        put(frame, at, low(value / 0x1_0000_0000));
        put(frame, at + 2, low(value / 65_536));
        put(frame, at + 4, low(value));
    }
}

pub(crate) fn put_port(frame: &mut [u8], at: usize, value: Option<u64>)
    requires { at + 2 ≤ length frame.old }
    ensures { frame.new ≡ put_all (port_words at value) frame.old }
{
    if let Some(value) = value {
        put(frame, at, low(value));
    }
}

/// What writing a word adds to the sum of an update.
pub(crate) fn change(frame: &[u8], at: usize, word: u16) -> u32
    requires { at + 2 ≤ length frame.now }
    ensures value { result ≡ change frame.now (record { at = at; word = word }) }
    ensures within { result ≤ 131070 }
{
    let old = u16_at(frame, at);
    if old == word {
        0
    } else {
        u32::from(0xffff - old) + u32::from(word)
    }
}

pub(crate) fn port_change(frame: &[u8], at: usize, value: Option<u64>) -> u32
    requires { at + 2 ≤ length frame.now }
    ensures value { result ≡ changes frame.now (port_words at value) }
    ensures within { result ≤ 131070 }
{
    match value {
        None => 0,
        Some(value) => change(frame, at, low(value)),
    }
}
