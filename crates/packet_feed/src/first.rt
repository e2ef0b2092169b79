//! The packet that comes first of those that were read ahead.
ghost use Rattle.std.specs.Prelude.{◌≡◌, length};
ghost use Rattle.packet_feed.specs.Sources.{IsFirst, sooner};

use crate::source::Source;
use nf_base::seq::Seq;

/// The port of a packet, and its time in nanoseconds.
#[derive(Clone, Copy, Debug, PartialEq, Eq)]
pub(crate) struct First {
    pub(crate) port: usize,
    pub(crate) time: u64,
}

// Of the first so far and a packet at a higher port, the one that comes first.
#[inline]
fn earlier(first: Option<First>, port: usize, time: Option<u64>) -> Option<First>
    ensures { result ≡ sooner first port time }
{
    let Some(time) = time else {
        return first;
    };
    match first {
        Some(found) if found.time <= time => first,
        _ => Some(First { port, time }),
    }
}

/// The port and the time of the packet that comes first, if one was read ahead.
#[inline(always)]
pub(crate) fn earliest(sources: &Seq<Source>) -> Option<First>
    ensures { IsFirst sources.now (length sources.now) result }
{
    let mut first = None;
    for port in 0..sources.len() {
        first = earlier(first, port, sources.item(port).time());
    }
    first
}
