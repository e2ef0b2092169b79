//! A line of a journal.
//!
//! | line | text |
//! |---|---|
//! | header of a run with the usual card | `maestro journal 1 <mode> <workers>` |
//! | header of a run with another card | `maestro journal 2 <mode> <workers> <table> <key bytes>` |
//! | packet | `<port> <seq> <worker> <action> <choices>` |
//!
//! A table has 128 or 512 entries, and a key 40 or 52 bytes; the usual card has 128 and 40. An action is
//! `skip`, `drop`, `flood` or `to:<port>`. The choices are `-` where there are none, and else indices
//! joined by `,`. Numbers are decimals, and each line ends by LF.
ghost use Rattle.std.specs.Prelude.{◌≡◌, ◌+◌, ◌*◌, ◌≤◌, ◌∷◌, ◌++◌, OnOk, OnErr, IfOk, drop, take, length, codes};
ghost use Rattle.run_history.specs.Line.{line_bytes, mode_word, action_word, choices_word, more_choices, header_line, packet_line, numbers_word, sizes_words};
ghost use Rattle.run_history.specs.Headings.{version_of};
ghost use Rattle.run_history.specs.Room.{Puts};

use crate::header::Header;
use crate::room::{put_byte, put_decimal, put_digit, put_text};
use crate::text::{push_bytes, push_decimal};
use crate::version::Version;
use nf_base::card::Card;
use nf_base::done::Action;
use nf_base::packet::PacketId;
use nf_base::picks::Picks;
use nf_base::workers::Workers;
use std::alloc::{AllocError, Global};

/// How a run's packets were handled.
#[derive(Clone, Copy, Debug, PartialEq, Eq)]
pub enum Mode {
    /// In capture order, by one worker.
    One,
    /// In capture order, each queue by its own worker.
    Shard,
    /// In each port's order, by workers that share their tables.
    Lock,
}

/// One line of a journal.
#[derive(Debug, Drop)]
pub enum JournalLine {
    /// The first line.
    Header(Header),
    /// What one packet came to.
    Packet {
        id: PacketId,
        worker: u32,
        action: Action,
        picks: Picks,
    },
}

impl Mode {
    /// Its word in a journal.
    pub fn word(self) -> &'static str
        ensures { result.now ≡ mode_word self }
    {
        match self {
            Mode::One => "one",
            Mode::Shard => "shard",
            Mode::Lock => "lock",
        }
    }
}

// Puts an action behind what stands in the room, at most 13 bytes.
#[inline(always)]
fn put_action(room: &mut [u8], at: usize, action: Action) -> usize
    requires { at + 13 ≤ length room.old }
    ensures put { Puts (action_word action) room.old at room.new result }
    ensures within { result ≤ at + 13 }
{
    match action {
        Action::Skip => put_text(room, at, b"skip"),
        Action::Drop => put_text(room, at, b"drop"),
        Action::Flood => put_text(room, at, b"flood"),
        Action::To(port) => {
            let end = put_text(room, at, b"to:");
            put_digit(room, end, port)
        }
    }
}

fn push_choices(out: &mut Vec<u8>, picks: &[u32]) -> Result<(), AllocError>
    ensures ok { OnOk result (out.new.items ≡ out.old.items ++ choices_word picks.now) }
{
    let Some((first, more)) = picks.split_first() else {
        return push_bytes(out, b"-");
    };
    push_decimal(out, u64::from(*first))?;
    push_more_choices(out, more)
}

fn push_more_choices(out: &mut Vec<u8>, picks: &[u32]) -> Result<(), AllocError>
    ensures ok { OnOk result (out.new.items ≡ out.old.items ++ more_choices picks.now) }
{
    for index in picks {
        push_bytes(out, b",")?;
        push_decimal(out, u64::from(*index))?;
    }
    Ok(())
}

fn push_mode(out: &mut Vec<u8>, mode: Mode) -> Result<(), AllocError>
    ensures ok { OnOk result (out.new.items ≡ out.old.items ++ mode_word mode) }
{
    push_bytes(out, mode.word().as_bytes())
}

fn push_sizes(out: &mut Vec<u8>, version: Version, card: Card) -> Result<(), AllocError>
    ensures ok { OnOk result (out.new.items ≡ out.old.items ++ sizes_words version card) }
{
    match version {
        Version::First => Ok(()),
        Version::Second => {
            push_bytes(out, b" ")?;
            push_decimal(out, u64::from(card.table.entries()))?;
            push_bytes(out, b" ")?;
            push_decimal(out, u64::from(card.key.bytes()))
        }
    }
}

fn push_header(
    out: &mut Vec<u8>,
    mode: Mode,
    workers: Workers,
    card: Card,
) -> Result<(), AllocError>
    ensures ok { OnOk result (out.new.items ≡ out.old.items ++ header_line mode workers card) }
{
    let version = Version::of(card);
    push_bytes(out, version.title())?;
    push_mode(out, mode)?;
    push_bytes(out, b" ")?;
    push_decimal(out, u64::from(workers.get()))?;
    push_sizes(out, version, card)?;
    push_bytes(out, b"\n")
}

// Puts what tells a packet behind what stands in the room, at most 33 bytes.
#[inline(always)]
fn put_numbers(room: &mut [u8], at: usize, id: PacketId, worker: u32) -> usize
    requires { at + 33 ≤ length room.old }
    ensures put { Puts (numbers_word id worker) room.old at room.new result }
    ensures within { result ≤ at + 33 }
{
    let end = put_digit(room, at, id.port);
    let end = put_byte(room, end, b' ');
    let end = put_decimal(room, end, id.seq);
    let end = put_byte(room, end, b' ');
    let end = put_digit(room, end, worker);
    put_byte(room, end, b' ')
}

// Puts all of a packet's line but its choices behind what stands in the room, at most 47 bytes.
#[inline(always)]
fn put_front(room: &mut [u8], at: usize, id: PacketId, worker: u32, action: Action) -> usize
    requires { at + 47 ≤ length room.old }
    ensures put { Puts (numbers_word id worker ++ action_word action ++ codes " ") room.old at room.new result }
    ensures within { result ≤ at + 47 }
{
    let end = put_numbers(room, at, id, worker);
    let end = put_action(room, end, action);
    put_byte(room, end, b' ')
}

fn put_more_choices(room: &mut [u8], at: usize, picks: &[u32]) -> usize
    requires { at + 11 * length picks.now ≤ length room.old }
    ensures put { Puts (more_choices picks.now) room.old at room.new result }
    ensures within { result ≤ at + 11 * length picks.now }
{
    let mut end = at;
    for index in picks {
        end = put_byte(room, end, b',');
        end = put_decimal(room, end, *index);
    }
    end
}

// Puts the choices of a packet and LF behind what stands in the room.
#[inline(never)]
fn put_chosen(room: &mut [u8], at: usize, first: u32, more: &[u32]) -> usize
    requires { at + 11 + 11 * length more.now ≤ length room.old }
    ensures put { Puts (choices_word (first ∷ more.now) ++ codes "\n") room.old at room.new result }
    ensures within { result ≤ at + 11 + 11 * length more.now }
{
    let end = put_decimal(room, at, first);
    let end = put_more_choices(room, end, more);
    put_byte(room, end, b'\n')
}

/// Puts a packet's line behind what stands in some room: where it ends.
#[inline(always)]
pub fn put_packet(
    room: &mut [u8],
    at: usize,
    id: PacketId,
    worker: u32,
    action: Action,
    picks: &Picks,
) -> usize
    requires { at + 256 ≤ length room.old }
    ensures put { Puts (packet_line id worker action picks.now) room.old at room.new result }
    ensures within { result ≤ at + 256 }
{
    let end = put_front(room, at, id, worker, action);
    let _few = picks.len();
    // Most packets have no choices.
    match picks.as_slice() {
        [] => put_text(room, end, b"-\n"),
        [first, more @ ..] => put_chosen(room, end, *first, more),
    }
}

// Puts the front of a packet's line, its choices and LF behind what stands there.
#[inline(never)]
fn push_chosen(out: &mut Vec<u8>, front: &[u8], picks: &[u32]) -> Result<(), AllocError>
    ensures ok { OnOk result (out.new.items ≡ out.old.items ++ (front.now ++ choices_word picks.now ++ codes "\n")) }
{
    push_bytes(out, front)?;
    push_choices(out, picks)?;
    push_bytes(out, b"\n")
}

/// Puts a packet's line behind what stands there.
///
/// After an `Err` the buffer may hold a part of the line.
pub fn push_packet(
    out: &mut Vec<u8>,
    id: PacketId,
    worker: u32,
    action: Action,
    picks: &Picks,
) -> Result<(), AllocError>
    ensures ok { OnOk result (out.new.items ≡ out.old.items ++ packet_line id worker action picks.now) }
{
    // The line is gathered here and appended in one piece. Most packets have no choices.
    let mut room = [0u8; 64];
    let end = put_front(&mut room, 0, id, worker, action);
    let picks = picks.as_slice();
    if picks.is_empty() {
        let end = put_text(&mut room, end, b"-\n");
        push_bytes(out, &room[..end])
    } else {
        push_chosen(out, &room[..end], picks)
    }
}

/// Puts a line behind what stands there.
///
/// After an `Err` the buffer may hold a part of the line.
pub fn push_line(out: &mut Vec<u8>, line: &JournalLine) -> Result<(), AllocError>
    ensures ok { OnOk result (out.new.items ≡ out.old.items ++ line_bytes line.now) }
{
    match line {
        JournalLine::Header(header) => {
            push_header(out, header.mode(), header.workers(), header.card())
        }
        JournalLine::Packet {
            id,
            worker,
            action,
            picks,
        } => push_packet(out, *id, *worker, *action, picks),
    }
}

/// The text of a line.
pub fn write_line(alloc: Global, line: &JournalLine) -> Result<Vec<u8>, AllocError>
    ensures { IfOk result (λ v. v.items ≡ line_bytes line.now) }
{
    let mut out = Vec::new(alloc);
    push_line(&mut out, line)?;
    Ok(out)
}
