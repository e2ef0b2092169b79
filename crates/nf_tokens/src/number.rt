//! The three forms of a number.

ghost use Rattle.std.specs.Prelude.{◌≡◌, ◌≤◌, ◌<◌, ◌^◌, length, IfSome};
ghost use Rattle.nf_tokens.specs.Bytes.{is_digit, is_hex_digit, in_octet, front_length};
ghost use Rattle.nf_tokens.specs.Numbers.{value_from, fitting, has_no_leading_zero, decimal, hex_digits, hexadecimal, octet, first_octet, behind_dot, octet_length, address, number_of_run};

use crate::byte::{digit_of, is_digit};

fn digits_length(bytes: &[u8]) -> usize
    ensures value { result ≡ front_length is_digit bytes.now }
    ensures within { result ≤ length bytes.now }
{
    for (i, b) in bytes.iter().enumerate() {
        if !is_digit(*b) {
            return i;
        }
    }
    bytes.len()
}

fn hex_length(bytes: &[u8]) -> usize
    ensures value { result ≡ front_length is_hex_digit bytes.now }
    ensures within { result ≤ length bytes.now }
{
    for (i, b) in bytes.iter().enumerate() {
        if !(is_digit(*b) || (97 <= *b && *b <= 102)) {
            return i;
        }
    }
    bytes.len()
}

fn octet_length(bytes: &[u8]) -> usize
    ensures value { result ≡ octet_length bytes.now }
    ensures within { result ≤ length bytes.now }
{
    for (i, b) in bytes.iter().enumerate() {
        if *b == 46 {
            return i;
        }
    }
    bytes.len()
}

fn decimal_value(digits: &[u8]) -> Option<u64>
    ensures { result ≡ fitting (value_from 10 0 digits.now) }
{
    let mut value: u64 = 0;
    for b in digits {
        let next = value as u128 * 10 + digit_of(*b) as u128;
        if next > u64::MAX as u128 {
            return None;
        }
        value = next as u64;
    }
    Some(value)
}

fn hex_value(digits: &[u8]) -> Option<u64>
    ensures { result ≡ fitting (value_from 16 0 digits.now) }
{
    let mut value: u64 = 0;
    for b in digits {
        let next = value as u128 * 16 + digit_of(*b) as u128;
        if next > u64::MAX as u128 {
            return None;
        }
        value = next as u64;
    }
    Some(value)
}

fn has_no_leading_zero(bytes: &[u8]) -> bool
    ensures { result ≡ has_no_leading_zero bytes.now }
{
    match bytes {
        [] => false,
        [_] => true,
        [first, ..] => *first != 48,
    }
}

/// The value of ASCII digits, which are a decimal below 2^64 without leading zeros; None where they are none.
pub fn decimal(bytes: &[u8]) -> Option<u64>
    ensures { result ≡ decimal bytes.now }
{
    if digits_length(bytes) == bytes.len() && has_no_leading_zero(bytes) {
        decimal_value(bytes)
    } else {
        None
    }
}

fn hex_digits(bytes: &[u8]) -> Option<u64>
    ensures { result ≡ hex_digits bytes.now }
{
    if hex_length(bytes) == bytes.len() && 1 <= bytes.len() && bytes.len() <= 16 {
        hex_value(bytes)
    } else {
        None
    }
}

/// `0x` and 1 to 16 digits.
fn hexadecimal(bytes: &[u8]) -> Option<u64>
    ensures { result ≡ hexadecimal bytes.now }
{
    match bytes {
        [48, 120, digits @ ..] => hex_digits(digits),
        _ => None,
    }
}

/// A decimal from 0 to 255.
fn octet(bytes: &[u8]) -> Option<u64>
    ensures value { result ≡ octet bytes.now }
    ensures some { IfSome result (λ v. v ≤ 255) }
{
    match decimal(bytes) {
        Some(value) if value <= 255 => Some(value),
        _ => None,
    }
}

fn first_octet(bytes: &[u8]) -> Option<u64>
    ensures value { result ≡ first_octet bytes.now }
    ensures some { IfSome result (λ v. v ≤ 255) }
{
    octet(&bytes[..octet_length(bytes)])
}

/// What stands behind the first dot.
fn behind_dot(bytes: &[u8]) -> &[u8]
    ensures { result.now ≡ behind_dot bytes.now }
{
    let len = octet_length(bytes);
    if len < bytes.len() {
        &bytes[len + 1..]
    } else {
        &bytes[len..]
    }
}

/// An IPv4 address, its first byte highest: four decimals up to 255, parted by dots, without leading zeros;
/// None where the bytes are none.
pub fn address(bytes: &[u8]) -> Option<u64>
    ensures value { result ≡ address bytes.now }
    ensures within { IfSome result (λ v. v < 2 ^ 32) }
{
    let second = behind_dot(bytes);
    let third = behind_dot(second);
    let a = first_octet(bytes)?;
    let b = first_octet(second)?;
    let c = first_octet(third)?;
    let d = octet(behind_dot(third))?;
    Some(((a * 256 + b) * 256 + c) * 256 + d)
}

/// The value of a number in one of its three forms.
pub fn number_of_run(bytes: &[u8]) -> Option<u64>
    ensures { result ≡ number_of_run bytes.now }
{
    if let Some(value) = decimal(bytes) {
        return Some(value);
    }
    if let Some(value) = hexadecimal(bytes) {
        return Some(value);
    }
    address(bytes)
}
