//! The words of a line.
ghost use Rattle.std.specs.Prelude.{◌≡◌, not, is_some, slice_get};
ghost use Rattle.certificate_text.specs.Pieces.{pieces};
ghost use Rattle.certificate_text.specs.Words.{and_then, number, number_at, ends_at, is_word, side_in, kind_in, family_in, table_in, key_size_in};

use crate::cut::piece;
use crate::heading::Kind;
use certificate_laws::Side;
use nf_base::card::{KeySize, TableSize};
use nf_base::packet::Family;
use nf_tokens::decimal;

/// A decimal below 2^32 without leading zeros.
pub fn number(word: &[u8]) -> Option<u32>
    ensures { result ≡ number word.now }
{
    let value = decimal(word)?;
    if value < 0x1_0000_0000 {
        Some(value as u32)
    } else {
        None
    }
}

/// The number that stands at a place among pieces.
pub fn number_at(bytes: &[u8], separator: u8, k: u32) -> Option<u32>
    ensures { result ≡ number_at (pieces separator bytes.now) k }
{
    match piece(bytes, separator, k) {
        Some(word) => number(word),
        None => None,
    }
}

/// Whether there is no piece at a place.
pub fn ends_at(bytes: &[u8], separator: u8, k: u32) -> bool
    ensures { result ≡ ends_at (pieces separator bytes.now) k }
{
    match piece(bytes, separator, k) {
        Some(_word) => false,
        None => true,
    }
}

/// Whether a word of a line is this one.
pub fn is_word(bytes: &[u8], k: u32, word: &[u8]) -> bool
    ensures { result ≡ is_word (pieces 32 bytes.now) k word.now }
{
    match piece(bytes, b' ', k) {
        Some(found) => found == word,
        None => false,
    }
}

/// `p` or `q`.
fn side(word: &[u8]) -> Option<Side>
    ensures { result ≡ side_in word.now }
{
    if word == b"p".as_slice() {
        Some(Side::First)
    } else if word == b"q".as_slice() {
        Some(Side::Second)
    } else {
        None
    }
}

/// The side that stands at a place among words.
pub fn side_at(bytes: &[u8], k: u32) -> Option<Side>
    ensures { result ≡ and_then (slice_get (pieces 32 bytes.now) k) side_in }
{
    match piece(bytes, b' ', k) {
        Some(word) => side(word),
        None => None,
    }
}

fn kind(word: &[u8]) -> Option<Kind>
    ensures { result ≡ kind_in word.now }
{
    if word == b"sharded".as_slice() {
        Some(Kind::Sharded)
    } else if word == b"locked".as_slice() {
        Some(Kind::Locked)
    } else {
        None
    }
}

/// The kind that stands at a place among words.
pub fn kind_at(bytes: &[u8], k: u32) -> Option<Kind>
    ensures { result ≡ and_then (slice_get (pieces 32 bytes.now) k) kind_in }
{
    match piece(bytes, b' ', k) {
        Some(word) => kind(word),
        None => None,
    }
}

/// 4 or 6.
fn family(word: &[u8]) -> Option<Family>
    ensures { result ≡ family_in word.now }
{
    if word == b"4".as_slice() {
        Some(Family::Four)
    } else if word == b"6".as_slice() {
        Some(Family::Six)
    } else {
        None
    }
}

/// The version of IP that stands at a place among words.
pub fn family_at(bytes: &[u8], k: u32) -> Option<Family>
    ensures { result ≡ and_then (slice_get (pieces 32 bytes.now) k) family_in }
{
    match piece(bytes, b' ', k) {
        Some(word) => family(word),
        None => None,
    }
}

/// 128 or 512.
fn table(word: &[u8]) -> Option<TableSize>
    ensures { result ≡ table_in word.now }
{
    if word == b"128".as_slice() {
        Some(TableSize::Entries128)
    } else if word == b"512".as_slice() {
        Some(TableSize::Entries512)
    } else {
        None
    }
}

/// The size of a table that stands at a place among words.
pub fn table_at(bytes: &[u8], k: u32) -> Option<TableSize>
    ensures { result ≡ and_then (slice_get (pieces 32 bytes.now) k) table_in }
{
    match piece(bytes, b' ', k) {
        Some(word) => table(word),
        None => None,
    }
}

/// 40 or 52.
fn key_size(word: &[u8]) -> Option<KeySize>
    ensures { result ≡ key_size_in word.now }
{
    if word == b"40".as_slice() {
        Some(KeySize::Bytes40)
    } else if word == b"52".as_slice() {
        Some(KeySize::Bytes52)
    } else {
        None
    }
}

/// The size of a key that stands at a place among words.
pub fn key_size_at(bytes: &[u8], k: u32) -> Option<KeySize>
    ensures { result ≡ and_then (slice_get (pieces 32 bytes.now) k) key_size_in }
{
    match piece(bytes, b' ', k) {
        Some(word) => key_size(word),
        None => None,
    }
}
