//! From bytes to tokens.

ghost use Rattle.std.specs.Prelude.{◌≡◌, ◌≤◌, ◌<◌, ◌+◌, ◌^◌, ◌++◌, length, IfOk, OnOk, []};
ghost use Rattle.nf_tokens.specs.Bytes.{in_word, in_number, in_comment, front_length};
ghost use Rattle.nf_tokens.specs.Tokens.{begins_equals, sign_at, piece_at, behind_all, IsWithin, with_token, token_of, token_of_number, tokens_of, start};

use crate::byte::{compared_of, is_blank, is_digit, is_letter, sign_of};
use crate::number::number_of_run;
use crate::token::{Flaw, Place, Placed, Sign, Token};
use crate::word::token_of_word;
use std::alloc::{AllocError, Global};

/// What kind of piece stands at a place.
#[derive(Clone, Copy, Debug)]
pub enum Kind {
    /// A blank or a comment.
    Space,
    Word,
    Number,
    Sign(Sign),
    /// A byte that begins no token.
    Stray,
}

/// What stands at the front of a text: its kind, and its length in bytes.
#[derive(Clone, Copy, Debug)]
pub struct Piece {
    pub len: usize,
    pub kind: Kind,
}

fn word_length(bytes: &[u8]) -> usize
    ensures value { result ≡ front_length in_word bytes.now }
    ensures within { result ≤ length bytes.now }
{
    for (i, b) in bytes.iter().enumerate() {
        if !(is_letter(*b) || is_digit(*b)) {
            return i;
        }
    }
    bytes.len()
}

fn number_length(bytes: &[u8]) -> usize
    ensures value { result ≡ front_length in_number bytes.now }
    ensures within { result ≤ length bytes.now }
{
    for (i, b) in bytes.iter().enumerate() {
        if !(is_letter(*b) || is_digit(*b) || *b == 46) {
            return i;
        }
    }
    bytes.len()
}

fn comment_length(bytes: &[u8]) -> usize
    ensures value { result ≡ front_length in_comment bytes.now }
    ensures within { result ≤ length bytes.now }
{
    for (i, b) in bytes.iter().enumerate() {
        if *b == 10 {
            return i;
        }
    }
    bytes.len()
}

fn begins_equals(bytes: &[u8]) -> bool
    ensures { result ≡ begins_equals bytes.now }
{
    matches!(bytes, [61, ..])
}

/// The longest sign at the front.
fn sign_at(b: u8, bytes: &[u8]) -> Piece
    ensures value { result ≡ sign_at b bytes.now }
    ensures some { 1 ≤ result.len }
    ensures within { result.len ≤ length bytes.now + 1 }
{
    if begins_equals(bytes) {
        if let Some(sign) = compared_of(b) {
            return Piece {
                len: 2,
                kind: Kind::Sign(sign),
            };
        }
    }
    match sign_of(b) {
        Some(sign) => Piece {
            len: 1,
            kind: Kind::Sign(sign),
        },
        None => Piece {
            len: 1,
            kind: Kind::Stray,
        },
    }
}

/// What stands at the front of a text: the byte `b` and those behind it.
fn piece_at(b: u8, bytes: &[u8]) -> Piece
    requires { length bytes.now < 2 ^ 32 }
    ensures value { result ≡ piece_at b bytes.now }
    ensures some { 1 ≤ result.len }
    ensures within { result.len ≤ length bytes.now + 1 }
{
    if is_blank(b) {
        Piece {
            len: 1,
            kind: Kind::Space,
        }
    } else if b == 35 {
        Piece {
            len: comment_length(bytes) + 1,
            kind: Kind::Space,
        }
    } else if is_letter(b) {
        Piece {
            len: word_length(bytes) + 1,
            kind: Kind::Word,
        }
    } else if is_digit(b) {
        Piece {
            len: number_length(bytes) + 1,
            kind: Kind::Number,
        }
    } else {
        sign_at(b, bytes)
    }
}

/// The place behind these bytes.
fn behind_all(at: Place, bytes: &[u8]) -> Place
    requires line { at.line + length bytes.now < 2 ^ 32 }
    requires column { at.column + length bytes.now < 2 ^ 32 }
    requires from_one { 1 ≤ at.column }
    ensures value { result ≡ behind_all at bytes.now }
    ensures within { IsWithin at result (length bytes.now) }
{
    let mut place = at;
    for b in bytes {
        place = if *b == 10 {
            Place {
                line: place.line + 1,
                column: 1,
            }
        } else {
            Place {
                line: place.line,
                column: place.column + 1,
            }
        };
    }
    place
}

fn token_of_number(run: &[u8]) -> Token
    ensures { result ≡ token_of_number run.now }
{
    match number_of_run(run) {
        Some(value) => Token::Number(value),
        None => Token::Bad(Flaw::Number),
    }
}

/// The token of a piece, if it is one.
fn token_of(alloc: Global, kind: Kind, run: &[u8]) -> Result<Option<Token>, AllocError>
    ensures { IfOk result (λ t. t ≡ token_of kind run.now) }
{
    match kind {
        Kind::Space => Ok(None),
        Kind::Word => {
            let token = token_of_word(alloc, run)?;
            Ok(Some(token))
        }
        Kind::Number => Ok(Some(token_of_number(run))),
        Kind::Sign(sign) => Ok(Some(Token::Sign(sign))),
        Kind::Stray => Ok(Some(Token::Bad(Flaw::Byte))),
    }
}

fn push_token(out: &mut Vec<Placed>, token: Option<Token>, place: Place) -> Result<(), AllocError>
    ensures { OnOk result (out.new.items ≡ out.old.items ++ with_token token place []) }
{
    if let Some(token) = token {
        out.push(Placed { token, place })?;
    }
    Ok(())
}

/// The place just past the last byte of a text of at most 1,048,576 bytes.
pub fn end_of(text: &[u8]) -> Place
    requires { length text.now ≤ 1048576 }
    ensures { result ≡ behind_all start text.now }
{
    behind_all(Place { line: 1, column: 1 }, text)
}

/// The tokens of a text of at most 1,048,576 bytes, with their places.
pub fn tokens(alloc: Global, text: &[u8]) -> Result<Vec<Placed>, AllocError>
    requires { length text.now ≤ 1048576 }
    ensures { IfOk result (λ all. all.items ≡ tokens_of 0 start text.now) }
{
    let mut out = Vec::new(alloc);
    let mut place = Place { line: 1, column: 1 };
    let mut rest = text;
    'pieces: while let [b, after @ ..] = rest {
        let piece = piece_at(*b, after);
        let (taken, behind) = rest.split_at(piece.len);
        let token = token_of(alloc, piece.kind, taken)?;
        push_token(&mut out, token, place)?;
        place = behind_all(place, taken);
        rest = behind;
    }
    Ok(out)
}
