//! The two ends of a packet, as texts.

ghost use Rattle.std.specs.Prelude.{◌≡◌, ◌≤◌, IfSome, length};
ghost use Rattle.nf_tokens.specs.Bytes.{front_length};
ghost use Rattle.nf_tokens.specs.Numbers.{value_from};
ghost use Rattle.command_words.specs.Texts.{in_address, address_length, behind_colon, number_up_to, six_address, address_in, endpoint_in, addresses_between, ends_between};

use crate::digit::{are_digits, digit_of};
use nf_base::packet::Addresses;
use nf_tokens::{address, decimal};

/// An IP address, its first byte highest.
#[derive(Clone, Copy, Debug, PartialEq, Eq)]
pub enum Address {
    /// 32 bits (RFC 791).
    Four(u32),
    /// 128 bits (RFC 8200).
    Six(u128),
}

/// An IP address and a TCP or UDP port.
#[derive(Clone, Copy, Debug, PartialEq, Eq)]
pub struct Endpoint {
    pub address: Address,
    pub port: u16,
}

/// Where a packet comes from and where it goes to: addresses of one version of IP, and TCP or UDP
/// ports.
#[derive(Clone, Copy, Debug, PartialEq, Eq)]
pub struct Ends {
    pub addresses: Addresses,
    pub source_port: u16,
    pub destination_port: u16,
}

/// A decimal up to a number, without a sign or leading zeros.
pub fn number_up_to(most: u64, text: &[u8]) -> Option<u64>
    ensures value { result ≡ number_up_to most text.now }
    ensures within { IfSome result (λ n. n ≤ most) }
{
    match decimal(text) {
        Some(n) if n <= most => Some(n),
        _ => None,
    }
}

fn address_length(text: &[u8]) -> usize
    ensures value { result ≡ address_length text.now }
    ensures within { result ≤ length text.now }
{
    for (i, b) in text.iter().enumerate() {
        if *b == b':' {
            return i;
        }
    }
    text.len()
}

fn behind_colon(text: &[u8]) -> &[u8]
    ensures { result.now ≡ behind_colon text.now }
{
    let len = address_length(text);
    if len < text.len() {
        &text[len + 1..]
    } else {
        &text[len..]
    }
}

/// The number that 32 hexadecimal digits make.
fn value_of_digits(digits: &[u8]) -> u128
    requires { length digits.now ≡ 32 }
    ensures { result ≡ value_from 16 0 digits.now }
{
    let mut value: u128 = 0;
    for digit in digits {
        value = value * 16 + u128::from(digit_of(*digit));
    }
    value
}

/// 32 digits of 0-9 a-f.
fn six_address(text: &[u8]) -> Option<u128>
    ensures { result ≡ six_address text.now }
{
    if text.len() == 32 && are_digits(text) {
        Some(value_of_digits(text))
    } else {
        None
    }
}

/// An address of either version.
fn address_in(text: &[u8]) -> Option<Address>
    ensures { result ≡ address_in text.now }
{
    match six_address(text) {
        Some(six) => Some(Address::Six(six)),
        None => Some(Address::Four(address(text)? as u32)),
    }
}

/// An address, a colon and a port.
pub fn endpoint_in(text: &[u8]) -> Option<Endpoint>
    ensures { result ≡ endpoint_in text.now }
{
    let address = address_in(&text[..address_length(text)])?;
    let port = number_up_to(65535, behind_colon(text))?;
    Some(Endpoint {
        address,
        port: port as u16,
    })
}

/// A source and a destination address, where they are of one version.
fn addresses_between(source: Address, destination: Address) -> Option<Addresses>
    ensures { result ≡ addresses_between source destination }
{
    match (source, destination) {
        (Address::Four(src), Address::Four(dst)) => Some(Addresses::Four { src, dst }),
        (Address::Six(src), Address::Six(dst)) => Some(Addresses::Six { src, dst }),
        _ => None,
    }
}

/// A source and a destination, where their addresses are of one version.
pub fn ends_between(source: Endpoint, destination: Endpoint) -> Option<Ends>
    ensures { result ≡ ends_between source destination }
{
    Some(Ends {
        addresses: addresses_between(source.address, destination.address)?,
        source_port: source.port,
        destination_port: destination.port,
    })
}
