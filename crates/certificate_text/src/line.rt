//! The lines of a certificate behind its first.
ghost use Rattle.std.specs.Prelude.{◌≡◌, ◌≤◌, ◌<◌, [], All, IfOk, MatchOption, length, drop, slice_get};
ghost use Rattle.std.specs.Option.{option_map};
ghost use Rattle.certificate_laws.specs.declared.line.Term.TheVariants as term;
ghost use Rattle.certificate_laws.specs.Certificates.{span_of};
ghost use Rattle.key_rows.specs.Systems.{group_from, group_long};
ghost use Rattle.certificate_text.specs.Pieces.{pieces};
ghost use Rattle.certificate_text.specs.Lines.{bit_number, bit_at, bit_in, term_in, terms_in, sum_in, named_in, row_in, key_line_in, not_in, split_in, clash_in, zero_in, plain_in, line_in};
ghost use Rattle.certificate_text.specs.Words.{and_then, number, key_in};

use crate::cut::{cut, piece};
use crate::key::key_in;
use crate::word::{ends_at, family_at, is_word, number, number_at, side_at};
use certificate_laws::{Line, Named, Span, Term};
use nf_base::card::TableSize;
use nf_base::hash_key::HashKey;
use nf_base::packet::Family;
use nf_base::seq::Seq;
use std::alloc::{AllocError, Global};

/// The number of the bit at a position of a port, where the port has that position.
fn bit_number(positions: &[u32], port: u32, position: u32) -> Option<u32>
    requires few { length positions.now ≤ 4 }
    requires low { All (λ n. n ≤ 319) positions.now }
    ensures { result ≡ bit_number positions.now port position }
{
    if (port as usize) < positions.len() && position < positions[port as usize] {
        Some(319 * port + position)
    } else {
        None
    }
}

/// The bit whose port and position stand at a place among pieces.
fn bit_at(positions: &[u32], bytes: &[u8], separator: u8, k: u32) -> Option<u32>
    requires few { length positions.now ≤ 4 }
    requires low { All (λ n. n ≤ 319) positions.now }
    requires small { k ≤ 8 }
    ensures { result ≡ bit_at positions.now (pieces separator bytes.now) k }
{
    let port = number_at(bytes, separator, k)?;
    let position = number_at(bytes, separator, k + 1)?;
    bit_number(positions, port, position)
}

/// A bit, by its port and position with a dot between them.
fn bit_in(positions: &[u32], word: &[u8]) -> Option<u32>
    requires few { length positions.now ≤ 4 }
    requires low { All (λ n. n ≤ 319) positions.now }
    ensures { result ≡ bit_in positions.now (pieces 46 word.now) }
{
    if ends_at(word, b'.', 2) {
        bit_at(positions, word, b'.', 0)
    } else {
        None
    }
}

/// A row's number.
fn row_term(word: &[u8]) -> Option<Term>
    ensures { result ≡ option_map (λ k. term.Row k) (number word.now) }
{
    Some(Term::Row(number(word)?))
}

/// A bit.
fn bit_term(positions: &[u32], word: &[u8]) -> Option<Term>
    requires few { length positions.now ≤ 4 }
    requires low { All (λ n. n ≤ 319) positions.now }
    ensures { result ≡ option_map (λ m. term.Bit m) (bit_in positions.now (pieces 46 word.now)) }
{
    Some(Term::Bit(bit_in(positions, word)?))
}

/// A term of a sum.
fn term_in(positions: &[u32], word: &[u8]) -> Option<Term>
    requires few { length positions.now ≤ 4 }
    requires low { All (λ n. n ≤ 319) positions.now }
    ensures { result ≡ term_in positions.now word.now }
{
    match word {
        [b'r', rest @ ..] => row_term(rest),
        [b'b', rest @ ..] => bit_term(positions, rest),
        _ => None,
    }
}

/// The terms of a sum; None where a word is none.
#[tactic(auto, using(crate::proofs::Summing::terms_none, crate::proofs::Summing::terms_more, crate::proofs::Summing::terms_bad, crate::proofs::Summing::terms_last, crate::proofs::Summing::terms_worse))]
fn terms_in(alloc: Global, positions: &[u32], bytes: &[u8]) -> Result<Option<Seq<Term>>, AllocError>
    requires few { length positions.now ≤ 4 }
    requires low { All (λ n. n ≤ 319) positions.now }
    ensures { IfOk result (λ terms. terms ≡ terms_in positions.now (pieces 32 bytes.now)) }
{
    let mut terms = Seq::new(alloc);
    let mut rest = bytes;
    while let Some((word, more)) = cut(rest, b' ') {
        let Some(term) = term_in(positions, word) else {
            return Ok(None);
        };
        terms.push(term)?;
        rest = more;
    }
    let Some(last) = term_in(positions, rest) else {
        return Ok(None);
    };
    terms.push(last)?;
    Ok(Some(terms))
}

/// What stands behind the first word; None where nothing does.
#[tactic(auto, using(crate::proofs::Cutting::behind_first, crate::proofs::Cutting::behind_none))]
fn behind(bytes: &[u8]) -> Option<&[u8]>
    ensures { MatchOption result (drop 1 (pieces 32 bytes.now) ≡ [])
        (λ rest. drop 1 (pieces 32 bytes.now) ≡ pieces 32 rest.now) }
{
    match cut(bytes, b' ') {
        Some((_word, rest)) => Some(rest),
        None => None,
    }
}

fn sum_in(alloc: Global, positions: &[u32], bytes: &[u8]) -> Result<Option<Line>, AllocError>
    requires few { length positions.now ≤ 4 }
    requires low { All (λ n. n ≤ 319) positions.now }
    ensures { IfOk result (λ line. line ≡ sum_in positions.now (pieces 32 bytes.now)) }
{
    match behind(bytes) {
        None => Ok(Some(Line::Sum(Seq::new(alloc)))),
        Some(rest) => match terms_in(alloc, positions, rest)? {
            Some(terms) => Ok(Some(Line::Sum(terms))),
            None => Ok(None),
        },
    }
}

fn named_in(bytes: &[u8]) -> Option<Named>
    ensures { result ≡ named_in (pieces 32 bytes.now) }
{
    let first = number_at(bytes, b' ', 1)?;
    let second = number_at(bytes, b' ', 2)?;
    let side = side_at(bytes, 3)?;
    let input = number_at(bytes, b' ', 4)?;
    let result = number_at(bytes, b' ', 5)?;
    Some(Named {
        first,
        second,
        side,
        input,
        result,
    })
}

fn row_in(bytes: &[u8]) -> Option<Line>
    ensures { result ≡ row_in (pieces 32 bytes.now) }
{
    if ends_at(bytes, b' ', 6) {
        Some(Line::Row(named_in(bytes)?))
    } else {
        None
    }
}

/// The key that stands at a place among words.
fn key_at(bytes: &[u8], k: u32) -> Option<HashKey>
    ensures { result ≡ and_then (slice_get (pieces 32 bytes.now) k) key_in }
{
    match piece(bytes, b' ', k) {
        Some(word) => key_in(word),
        None => None,
    }
}

fn key_line_in(bytes: &[u8]) -> Option<Line>
    ensures { result ≡ key_line_in (pieces 32 bytes.now) }
{
    if ends_at(bytes, b' ', 3) {
        let port = number_at(bytes, b' ', 1)?;
        let key = key_at(bytes, 2)?;
        Some(Line::Key { port, key })
    } else {
        None
    }
}

fn not_in(positions: &[u32], bytes: &[u8]) -> Option<Line>
    requires few { length positions.now ≤ 4 }
    requires low { All (λ n. n ≤ 319) positions.now }
    ensures { result ≡ not_in positions.now (pieces 32 bytes.now) }
{
    if ends_at(bytes, b' ', 3) {
        Some(Line::Not(bit_at(positions, bytes, b' ', 1)?))
    } else {
        None
    }
}

fn split_in(positions: &[u32], bytes: &[u8]) -> Option<Line>
    requires few { length positions.now ≤ 4 }
    requires low { All (λ n. n ≤ 319) positions.now }
    ensures { result ≡ split_in positions.now (pieces 32 bytes.now) }
{
    if ends_at(bytes, b' ', 3) {
        Some(Line::Split(bit_at(positions, bytes, b' ', 1)?))
    } else {
        None
    }
}

fn clash_in(bytes: &[u8]) -> Option<Line>
    ensures { result ≡ clash_in (pieces 32 bytes.now) }
{
    if ends_at(bytes, b' ', 1) {
        Some(Line::Clash)
    } else {
        None
    }
}

/// The first bit of a key that meets the table index.
fn group_from(size: TableSize) -> u32
    ensures value { result ≡ group_from size }
    ensures within { result < 32 }
{
    match size {
        TableSize::Entries128 => 25,
        TableSize::Entries512 => 23,
    }
}

/// How many bits of a key meet the table index.
fn group_long(size: TableSize, family: Family) -> u32
    ensures { result ≡ group_long size family }
{
    match (size, family) {
        (TableSize::Entries128, Family::Four) => 102,
        (TableSize::Entries128, Family::Six) => 294,
        (TableSize::Entries512, Family::Four) => 104,
        (TableSize::Entries512, Family::Six) => 296,
    }
}

/// The bits of the key of a port that meet the table index of packets of a family.
pub fn span_of(size: TableSize, family: Family, port: u32) -> Span
    requires { port < 4 }
    ensures { result ≡ span_of size family port }
{
    Span {
        first: 319 * port + group_from(size),
        count: group_long(size, family),
    }
}

fn zero_in(table: TableSize, positions: &[u32], bytes: &[u8]) -> Option<Line>
    requires few { length positions.now ≤ 4 }
    ensures { result ≡ zero_in table positions.now (pieces 32 bytes.now) }
{
    if !ends_at(bytes, b' ', 3) {
        return None;
    }
    let port = number_at(bytes, b' ', 1)?;
    if port as usize >= positions.len() {
        return None;
    }
    let family = family_at(bytes, 2)?;
    Some(Line::Zero(span_of(table, family, port)))
}

/// A line without terms.
fn plain_in(table: TableSize, positions: &[u32], bytes: &[u8]) -> Option<Line>
    requires few { length positions.now ≤ 4 }
    requires low { All (λ n. n ≤ 319) positions.now }
    ensures { result ≡ plain_in table positions.now (pieces 32 bytes.now) }
{
    if is_word(bytes, 0, b"row") {
        row_in(bytes)
    } else if is_word(bytes, 0, b"key") {
        key_line_in(bytes)
    } else if is_word(bytes, 0, b"not") {
        not_in(positions, bytes)
    } else if is_word(bytes, 0, b"split") {
        split_in(positions, bytes)
    } else if is_word(bytes, 0, b"clash") {
        clash_in(bytes)
    } else if is_word(bytes, 0, b"zero") {
        zero_in(table, positions, bytes)
    } else {
        None
    }
}

/// A line of a certificate behind the first, without its LF, for a table of a size and for ports of
/// whose keys so many bits count; None where it is no such line.
pub fn line_in(
    alloc: Global,
    table: TableSize,
    positions: &[u32],
    bytes: &[u8],
) -> Result<Option<Line>, AllocError>
    requires few { length positions.now ≤ 4 }
    requires low { All (λ n. n ≤ 319) positions.now }
    ensures { IfOk result (λ line. line ≡ line_in table positions.now bytes.now) }
{
    if is_word(bytes, 0, b"sum") {
        sum_in(alloc, positions, bytes)
    } else {
        Ok(plain_in(table, positions, bytes))
    }
}
