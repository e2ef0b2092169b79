//! What seats do: looks, and packets that are handled alone.

use nf_base::done::Done;
use nf_base::packet::Packet;

/// How a seat handles a packet.
#[derive(Clone, Copy, Debug, PartialEq, Eq)]
pub enum Way {
    /// In the tables after some beginning of the history, without a write.
    Look,
    /// At the end of the history, which then has one entry more.
    Alone,
}

/// An entry of the history: a packet that was handled alone.
#[derive(Debug, Drop)]
pub struct Entry {
    pub seat: u32,
    /// How many entries of the seat stand before it.
    pub number: u64,
    pub packet: Packet,
    pub done: Done,
}

/// A call of a seat.
#[derive(Debug, Drop)]
pub struct Call {
    pub way: Way,
    /// Of a look, how many entries the history had that it looked at; else the place of its entry
    /// in the history, from 0.
    pub place: u64,
    pub packet: Packet,
    pub done: Done,
}

/// One packet of an order, with the seat that handled it.
#[derive(Debug, Drop)]
pub struct Ordered {
    pub seat: u32,
    pub way: Way,
    pub packet: Packet,
    pub done: Done,
}

/// What a seat is to do.
#[derive(Clone, Copy, Debug, PartialEq, Eq)]
pub enum Event {
    /// To look, where the history has this many entries.
    Look {
        seat: u32,
        prefix: u64,
        packet: Packet,
    },
    /// To handle a packet at the end of the history.
    Alone {
        seat: u32,
        packet: Packet,
    },
}

/// What an event came to.
#[derive(Debug, Drop)]
pub struct Placed {
    /// The place of the entry in the history, from 0, or the prefix of a look.
    pub place: u64,
    pub done: Done,
}
