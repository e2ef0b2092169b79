//! Decimals and texts, put into some room one behind another.
//!
//! Each call is given the room and where its text begins, and answers where it ends.
ghost use Rattle.std.specs.Prelude.{◌≡◌, ◌+◌, ◌<◌, ◌≤◌, ◌∷◌, [], length, decimal};
ghost use Rattle.run_history.specs.Room.{Puts, pair, four};

/// The numbers below 100, in two digits each.
static PAIRS: [u8; 200] =
    *b"00010203040506070809101112131415161718192021222324252627282930313233343536373839404142434445464748495051525354555657585960616263646566676869707172737475767778798081828384858687888990919293949596979899";

#[inline(always)]
pub fn put_byte(room: &mut [u8], at: usize, byte: u8) -> usize
    requires { at < length room.old }
    ensures { Puts (byte ∷ []) room.old at room.new result }
{
    room[at] = byte;
    at + 1
}

#[inline(always)]
pub fn put_text(room: &mut [u8], at: usize, text: &[u8]) -> usize
    requires { at + length text.now ≤ length room.old }
    ensures { Puts text.now room.old at room.new result }
{
    let end = at + text.len();
    room[at..end].copy_from_slice(text);
    end
}

#[inline(always)]
fn put_pair(room: &mut [u8], at: usize, number: u32) -> usize
    requires room { at + 2 ≤ length room.old }
    requires small { number < 100 }
    ensures { Puts (pair number) room.old at room.new result }
{
    let digits = number as usize * 2;
    room[at] = PAIRS[digits];
    room[at + 1] = PAIRS[digits + 1];
    at + 2
}

#[inline(always)]
fn put_four(room: &mut [u8], at: usize, number: u32) -> usize
    requires room { at + 4 ≤ length room.old }
    requires small { number < 10000 }
    ensures { Puts (four number) room.old at room.new result }
{
    let end = put_pair(room, at, number / 100);
    put_pair(room, end, number % 100)
}

// A number of one or two digits.
#[inline(always)]
fn put_short(room: &mut [u8], at: usize, number: u32) -> usize
    requires room { at + 2 ≤ length room.old }
    requires small { number < 100 }
    ensures put { Puts (decimal number) room.old at room.new result }
    ensures within { result ≤ at + 2 }
{
    if number < 10 {
        put_byte(room, at, b'0' + number as u8)
    } else {
        put_pair(room, at, number)
    }
}

// A number of one to four digits.
#[inline(always)]
fn put_to_four(room: &mut [u8], at: usize, number: u32) -> usize
    requires room { at + 4 ≤ length room.old }
    requires small { number < 10000 }
    ensures put { Puts (decimal number) room.old at room.new result }
    ensures within { result ≤ at + 4 }
{
    if number < 100 {
        return put_short(room, at, number);
    }
    let end = put_short(room, at, number / 100);
    put_pair(room, end, number % 100)
}

// A number of nine or ten digits.
#[inline(never)]
fn put_long(room: &mut [u8], at: usize, number: u32) -> usize
    requires room { at + 10 ≤ length room.old }
    requires large { 100000000 ≤ number }
    ensures put { Puts (decimal number) room.old at room.new result }
    ensures within { result ≤ at + 10 }
{
    let first = number / 10_000;
    let end = put_short(room, at, first / 10_000);
    let end = put_four(room, end, first % 10_000);
    put_four(room, end, number % 10_000)
}

/// A decimal.
#[inline(always)]
pub fn put_decimal(room: &mut [u8], at: usize, number: u32) -> usize
    requires { at + 10 ≤ length room.old }
    ensures put { Puts (decimal number) room.old at room.new result }
    ensures within { result ≤ at + 10 }
{
    if number < 10_000 {
        return put_to_four(room, at, number);
    }
    if number >= 100_000_000 {
        return put_long(room, at, number);
    }
    let end = put_to_four(room, at, number / 10_000);
    put_four(room, end, number % 10_000)
}

#[inline(never)]
fn put_larger(room: &mut [u8], at: usize, number: u32) -> usize
    requires { at + 10 ≤ length room.old }
    ensures put { Puts (decimal number) room.old at room.new result }
    ensures within { result ≤ at + 10 }
{
    put_decimal(room, at, number)
}

/// A decimal, which mostly has one digit.
#[inline(always)]
pub fn put_digit(room: &mut [u8], at: usize, number: u32) -> usize
    requires { at + 10 ≤ length room.old }
    ensures put { Puts (decimal number) room.old at room.new result }
    ensures within { result ≤ at + 10 }
{
    if number < 10 {
        put_byte(room, at, b'0' + number as u8)
    } else {
        put_larger(room, at, number)
    }
}
