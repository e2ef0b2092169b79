//! Reserved words and names.

ghost use Rattle.std.specs.Prelude.{◌≡◌, IfOk};
ghost use Rattle.nf_tokens.specs.Words.{declaring, looking, acting, field_of_word, name, sign_of_word, token_of_word};

use crate::token::{Flaw, Sign, Token};
use nf_base::packet::Field;
use nf_base::seq::Seq;
use std::alloc::{AllocError, Global};

/// The longest name, in bytes.
const LONGEST: usize = 32;

/// The words of declarations.
fn declaring(word: &[u8]) -> Option<Sign>
    ensures { result ≡ declaring word.now }
{
    if word == b"nf".as_slice() {
        Some(Sign::Nf)
    } else if word == b"ports".as_slice() {
        Some(Sign::Ports)
    } else if word == b"chain".as_slice() {
        Some(Sign::Chain)
    } else if word == b"lifetime".as_slice() {
        Some(Sign::Lifetime)
    } else if word == b"map".as_slice() {
        Some(Sign::Map)
    } else if word == b"fixed".as_slice() {
        Some(Sign::Fixed)
    } else if word == b"free".as_slice() {
        Some(Sign::Free)
    } else if word == b"array".as_slice() {
        Some(Sign::Array)
    } else if word == b"on".as_slice() {
        Some(Sign::On)
    } else if word == b"six".as_slice() {
        Some(Sign::Six)
    } else {
        None
    }
}

/// The words of statements with blocks.
fn looking(word: &[u8]) -> Option<Sign>
    ensures { result ≡ looking word.now }
{
    if word == b"get".as_slice() {
        Some(Sign::Get)
    } else if word == b"else".as_slice() {
        Some(Sign::Else)
    } else if word == b"find".as_slice() {
        Some(Sign::Find)
    } else if word == b"where".as_slice() {
        Some(Sign::Where)
    } else if word == b"new".as_slice() {
        Some(Sign::New)
    } else if word == b"taken".as_slice() {
        Some(Sign::Taken)
    } else if word == b"full".as_slice() {
        Some(Sign::Full)
    } else if word == b"if".as_slice() {
        Some(Sign::If)
    } else {
        None
    }
}

/// The other words of statements, and `index`.
fn acting(word: &[u8]) -> Option<Sign>
    ensures { result ≡ acting word.now }
{
    if word == b"touch".as_slice() {
        Some(Sign::Touch)
    } else if word == b"set".as_slice() {
        Some(Sign::Set)
    } else if word == b"forward".as_slice() {
        Some(Sign::Forward)
    } else if word == b"flood".as_slice() {
        Some(Sign::Flood)
    } else if word == b"drop".as_slice() {
        Some(Sign::Discard)
    } else if word == b"index".as_slice() {
        Some(Sign::Index)
    } else {
        None
    }
}

/// The names of fields.
fn field_of_word(word: &[u8]) -> Option<Field>
    ensures { result ≡ field_of_word word.now }
{
    if word == b"time".as_slice() {
        Some(Field::Time)
    } else if word == b"length".as_slice() {
        Some(Field::Length)
    } else if word == b"src_mac".as_slice() {
        Some(Field::SrcMac)
    } else if word == b"dst_mac".as_slice() {
        Some(Field::DstMac)
    } else if word == b"src_ip".as_slice() {
        Some(Field::SrcIp)
    } else if word == b"dst_ip".as_slice() {
        Some(Field::DstIp)
    } else if word == b"src_ip6".as_slice() {
        Some(Field::SrcIp6)
    } else if word == b"dst_ip6".as_slice() {
        Some(Field::DstIp6)
    } else if word == b"proto".as_slice() {
        Some(Field::Proto)
    } else if word == b"ttl".as_slice() {
        Some(Field::Ttl)
    } else if word == b"src_port".as_slice() {
        Some(Field::SrcPort)
    } else if word == b"dst_port".as_slice() {
        Some(Field::DstPort)
    } else {
        None
    }
}

fn name(alloc: Global, word: &[u8]) -> Result<Token, AllocError>
    ensures { IfOk result (λ t. t ≡ name word.now) }
{
    if word.len() <= LONGEST {
        let bytes = word.to_vec(alloc)?;
        Ok(Token::Name(Seq::from_vec(bytes)))
    } else {
        Ok(Token::Bad(Flaw::Name))
    }
}

fn sign_of_word(word: &[u8]) -> Option<Sign>
    ensures { result ≡ sign_of_word word.now }
{
    if let Some(sign) = declaring(word) {
        return Some(sign);
    }
    if let Some(sign) = looking(word) {
        return Some(sign);
    }
    acting(word)
}

/// The token of a run that begins with a letter or `_`.
pub fn token_of_word(alloc: Global, word: &[u8]) -> Result<Token, AllocError>
    ensures { IfOk result (λ t. t ≡ token_of_word word.now) }
{
    if let Some(sign) = sign_of_word(word) {
        return Ok(Token::Sign(sign));
    }
    if let Some(field) = field_of_word(word) {
        return Ok(Token::Field(field));
    }
    name(alloc, word)
}
