//! Hexadecimal digits, 0-9 and a-f.

ghost use Rattle.std.specs.Prelude.{◌≡◌, ◌≤◌, ◌<◌, length};
ghost use Rattle.nf_tokens.specs.Bytes.{is_hex_digit, digit_of, front_length};
ghost use Rattle.nf_tokens.specs.Numbers.{all_are};

fn is_hex_digit(b: u8) -> bool
    ensures { result ≡ is_hex_digit b }
{
    (b'0' <= b && b <= b'9') || (b'a' <= b && b <= b'f')
}

/// The value of a hexadecimal digit.
pub fn digit_of(b: u8) -> u8
    ensures value { result ≡ digit_of b }
    ensures within { result < 16 }
{
    if b'0' <= b && b <= b'9' {
        b - b'0'
    } else if b'a' <= b && b <= b'f' {
        b - b'a' + 10
    } else {
        0
    }
}

fn digits_length(text: &[u8]) -> usize
    ensures value { result ≡ front_length is_hex_digit text.now }
    ensures within { result ≤ length text.now }
{
    for (i, b) in text.iter().enumerate() {
        if !is_hex_digit(*b) {
            return i;
        }
    }
    text.len()
}

/// Whether all bytes of a text are hexadecimal digits.
pub fn are_digits(text: &[u8]) -> bool
    ensures { result ≡ all_are is_hex_digit text.now }
{
    digits_length(text) == text.len()
}
