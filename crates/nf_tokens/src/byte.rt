//! Which bytes are which.

ghost use Rattle.std.specs.Prelude.{◌≡◌};
ghost use Rattle.nf_tokens.specs.Bytes.{is_digit, is_letter, is_blank, sign_of, compared_of, digit_of};

use crate::token::Sign;

pub fn is_letter(b: u8) -> bool
    ensures { result ≡ is_letter b }
{
    (65 <= b && b <= 90) || (97 <= b && b <= 122) || b == 95
}

pub fn is_digit(b: u8) -> bool
    ensures { result ≡ is_digit b }
{
    48 <= b && b <= 57
}

pub fn is_blank(b: u8) -> bool
    ensures { result ≡ is_blank b }
{
    b == 32 || b == 9 || b == 13 || b == 10
}

/// The value of a digit of a decimal or hexadecimal number.
pub fn digit_of(b: u8) -> u64
    ensures { result ≡ digit_of b }
{
    if is_digit(b) {
        b as u64 - 48
    } else if 97 <= b && b <= 102 {
        b as u64 - 87
    } else {
        0
    }
}

/// A sign of one byte.
pub fn sign_of(b: u8) -> Option<Sign>
    ensures { result ≡ sign_of b }
{
    match b {
        b'{' => Some(Sign::OpenBrace),
        b'}' => Some(Sign::CloseBrace),
        b'(' => Some(Sign::OpenParenthesis),
        b')' => Some(Sign::CloseParenthesis),
        b'[' => Some(Sign::OpenBracket),
        b']' => Some(Sign::CloseBracket),
        b';' => Some(Sign::Semicolon),
        b':' => Some(Sign::Colon),
        b',' => Some(Sign::Comma),
        b'.' => Some(Sign::Dot),
        b'=' => Some(Sign::Assign),
        b'<' => Some(Sign::Less),
        b'>' => Some(Sign::Greater),
        b'+' => Some(Sign::Plus),
        b'-' => Some(Sign::Minus),
        b'*' => Some(Sign::Times),
        b'/' => Some(Sign::Over),
        b'%' => Some(Sign::Modulo),
        b'&' => Some(Sign::And),
        _ => None,
    }
}

/// A sign of two bytes, the second being `=`.
pub fn compared_of(b: u8) -> Option<Sign>
    ensures { result ≡ compared_of b }
{
    match b {
        b'=' => Some(Sign::Equal),
        b'!' => Some(Sign::NotEqual),
        b'<' => Some(Sign::LessOrEqual),
        b'>' => Some(Sign::GreaterOrEqual),
        _ => None,
    }
}
