//! A line of a journal, read.
ghost use Rattle.std.specs.Prelude.{◌≡◌, ◌≢◌, ◌↔◌, None, Some, IfSome};
ghost use Rattle.run_history.specs.declared.line.JournalLine.{JournalLine};
ghost use Rattle.run_history.specs.Headings.{IsHeading};
ghost use Rattle.run_history.specs.Line.{line_bytes, card_words};
ghost use Rattle.run_history.specs.Lines.{IsLine};
ghost use Rattle.run_history.specs.Reading.{Reads, ReadsFront, numbers_words, AreNumbers, heading_end, heading_words, IsOtherCard, IsUsual, IsOther, line_words, IsPacketLine, IsBehindTitle, IsEnded};

use crate::header::Header;
use crate::line::JournalLine;
use crate::version::Version;
use crate::word::{action_first, choices, key_size, mode_first, number, number_first, table_first};
use nf_base::card::Card;
use nf_base::packet::PacketId;
use nf_base::picks::Picks;

/// Which packet a line is of, and who handled it.
#[derive(Clone, Copy)]
pub(crate) struct Numbers {
    pub(crate) id: PacketId,
    pub(crate) worker: u32,
}

/// The numbers of a packet's line and a space, and the bytes behind them.
fn numbers_first(bytes: &[u8]) -> Option<(Numbers, &[u8])>
    ensures { ReadsFront numbers_words 32 AreNumbers bytes.now result }
{
    let Some((port, rest)) = number_first(bytes) else {
        return None;
    };
    let Some((seq, rest)) = number_first(rest) else {
        return None;
    };
    let Some((worker, rest)) = number_first(rest) else {
        return None;
    };
    let id = PacketId { port, seq };
    Some((Numbers { id, worker }, rest))
}

/// The sizes of a card that isn't the usual one.
fn other_card(words: &[u8]) -> Option<Card>
    ensures { Reads card_words IsOtherCard words.now result }
{
    let Some((table, rest)) = table_first(words) else {
        return None;
    };
    let Some(key) = key_size(rest) else {
        return None;
    };
    let card = Card { table, key };
    match Version::of(card) {
        Version::First => None,
        Version::Second => Some(card),
    }
}

/// What stands behind the title in the first line of version 1.
fn usual_heading(words: &[u8]) -> Option<Header>
    ensures { Reads heading_end IsUsual words.now result }
{
    let Some((mode, rest)) = mode_first(words) else {
        return None;
    };
    match number(rest) {
        Some(workers) => Header::of(mode, workers, Card::usual()),
        None => None,
    }
}

/// What stands behind the title in the first line of version 2.
fn other_heading(words: &[u8]) -> Option<Header>
    ensures { Reads heading_end IsOther words.now result }
{
    let Some((mode, rest)) = mode_first(words) else {
        return None;
    };
    let Some((workers, rest)) = number_first(rest) else {
        return None;
    };
    match other_card(rest) {
        Some(card) => Header::of(mode, workers, card),
        None => None,
    }
}

/// What follows the title of a journal.
fn behind_title(words: &[u8], version: Version) -> Option<&[u8]>
    ensures { IsBehindTitle version words.now result }
{
    words.strip_prefix(version.title())
}

/// The first line, without its LF.
fn header(words: &[u8]) -> Option<Header>
    ensures { Reads heading_words IsHeading words.now result }
{
    if let Some(rest) = behind_title(words, Version::First) {
        return usual_heading(rest);
    }
    match behind_title(words, Version::Second) {
        Some(rest) => other_heading(rest),
        None => None,
    }
}

/// The line of a packet, without its LF.
fn packet(words: &[u8]) -> Option<JournalLine>
    ensures { Reads line_words IsPacketLine words.now result }
{
    let Some((numbers, rest)) = numbers_first(words) else {
        return None;
    };
    let Some((action, rest)) = action_first(rest) else {
        return None;
    };
    let mut picks = Picks::new();
    if !choices(rest, &mut picks) {
        return None;
    }
    Some(JournalLine::Packet {
        id: numbers.id,
        worker: numbers.worker,
        action,
        picks,
    })
}

/// A line, without its LF.
fn line(words: &[u8]) -> Option<JournalLine>
    ensures { Reads line_words IsLine words.now result }
{
    match header(words) {
        Some(header) => Some(JournalLine::Header(header)),
        None => packet(words),
    }
}

/// What stands in front of the LF at the end.
fn without_lf(bytes: &[u8]) -> Option<&[u8]>
    ensures { IsEnded bytes.now result }
{
    bytes.strip_suffix(b"\n")
}

/// The line that these bytes are, with its LF; None where they are no line.
///
/// A number has no leading zeros and 32 bits at most, and one space stands between two words.
pub fn read_line(bytes: &[u8]) -> Option<JournalLine>
    ensures some { IfSome result (λ line. line_bytes line ≡ bytes.now) }
    ensures none { (result ≡ None) ↔
        ((line : JournalLine) → IsLine line → line_bytes line ≢ bytes.now) }
    // Whatever the line that was written, it is read again.
    ensures inverts { (line : JournalLine) → IsLine line → line_bytes line ≡ bytes.now →
        result ≡ Some line }
{
    match without_lf(bytes) {
        Some(words) => line(words),
        None => None,
    }
}
