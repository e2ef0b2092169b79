//! Tokens and their places.

ghost use Rattle.std.specs.Prelude.{◌≡◌};
ghost use Rattle.nf_tokens.specs.Signs.{number_of};

use nf_base::packet::Field;
use nf_base::seq::Seq;

/// A sign, or a reserved word that is no field.
#[derive(Clone, Copy, Debug, PartialEq, Eq)]
pub enum Sign {
    OpenBrace,
    CloseBrace,
    OpenParenthesis,
    CloseParenthesis,
    OpenBracket,
    CloseBracket,
    Semicolon,
    Colon,
    Comma,
    Dot,
    Assign,
    Equal,
    NotEqual,
    Less,
    LessOrEqual,
    Greater,
    GreaterOrEqual,
    Plus,
    Minus,
    Times,
    Over,
    Modulo,
    And,
    Nf,
    Ports,
    Chain,
    Lifetime,
    Map,
    Fixed,
    Free,
    Array,
    On,
    Get,
    Else,
    Find,
    Where,
    New,
    Taken,
    Full,
    If,
    Touch,
    Set,
    Forward,
    Flood,
    Discard,
    Index,
    Six,
}

impl Sign {
    /// The number of a sign among all signs, by which signs are compared.
    pub fn number(self) -> u8
        ensures { result ≡ number_of self }
    {
        match self {
            Sign::OpenBrace => 0,
            Sign::CloseBrace => 1,
            Sign::OpenParenthesis => 2,
            Sign::CloseParenthesis => 3,
            Sign::OpenBracket => 4,
            Sign::CloseBracket => 5,
            Sign::Semicolon => 6,
            Sign::Colon => 7,
            Sign::Comma => 8,
            Sign::Dot => 9,
            Sign::Assign => 10,
            Sign::Equal => 11,
            Sign::NotEqual => 12,
            Sign::Less => 13,
            Sign::LessOrEqual => 14,
            Sign::Greater => 15,
            Sign::GreaterOrEqual => 16,
            Sign::Plus => 17,
            Sign::Minus => 18,
            Sign::Times => 19,
            Sign::Over => 20,
            Sign::Modulo => 21,
            Sign::And => 22,
            Sign::Nf => 23,
            Sign::Ports => 24,
            Sign::Chain => 25,
            Sign::Lifetime => 26,
            Sign::Map => 27,
            Sign::Fixed => 28,
            Sign::Free => 29,
            Sign::Array => 30,
            Sign::On => 31,
            Sign::Get => 32,
            Sign::Else => 33,
            Sign::Find => 34,
            Sign::Where => 35,
            Sign::New => 36,
            Sign::Taken => 37,
            Sign::Full => 38,
            Sign::If => 39,
            Sign::Touch => 40,
            Sign::Set => 41,
            Sign::Forward => 42,
            Sign::Flood => 43,
            Sign::Discard => 44,
            Sign::Index => 45,
            Sign::Six => 46,
        }
    }
}

/// What is wrong with a token that nothing in the grammar takes.
#[derive(Clone, Copy, Debug, PartialEq, Eq)]
pub enum Flaw {
    /// A byte that begins no token.
    Byte,
    /// A number that is none of the three forms.
    Number,
    /// A name over 32 bytes.
    Name,
}

/// A token of the language.
#[derive(Drop)]
pub enum Token {
    /// A name of at most 32 bytes.
    Name(Seq<u8>),
    /// A number in one of its three forms.
    Number(u64),
    Field(Field),
    Sign(Sign),
    /// What nothing in the grammar takes, and why.
    Bad(Flaw),
}

/// Where a byte stands: lines and columns count from 1, a column counts bytes.
#[derive(Clone, Copy, Debug, PartialEq, Eq)]
pub struct Place {
    pub line: u32,
    pub column: u32,
}

/// A token and the place of its first byte.
#[derive(Drop)]
pub struct Placed {
    pub token: Token,
    pub place: Place,
}
