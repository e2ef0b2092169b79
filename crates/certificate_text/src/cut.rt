//! Pieces of bytes.
ghost use Rattle.std.specs.Prelude.{◌≡◌, ◌≤◌, ◌<◌, ◌+◌, ◌∷◌, [], length, drop, IfSome, MatchOption, slice_get};
ghost use Rattle.std.specs.Option.{option_copied};
ghost use Rattle.certificate_text.specs.Pieces.{IsCut, pieces, lines_of};

/// The bytes up to the first separator, and those behind it.
#[tactic(auto, using(crate::proofs::Cutting::free_more, crate::proofs::Cutting::free_whole, crate::proofs::Cutting::cut_there))]
pub fn cut(bytes: &[u8], separator: u8) -> Option<(&[u8], &[u8])>
    ensures { IsCut separator bytes.now result }
{
    for (i, byte) in bytes.iter().enumerate() {
        if *byte == separator {
            return Some((&bytes[..i], &bytes[i + 1..]));
        }
    }
    None
}

/// The piece of this number, of those between separators.
#[tactic(auto, using(crate::proofs::Cutting::piece_more, crate::proofs::Cutting::piece_none, crate::proofs::Cutting::piece_cut, crate::proofs::Cutting::piece_last))]
pub fn piece(bytes: &[u8], separator: u8, k: u32) -> Option<&[u8]>
    ensures { option_copied result ≡ slice_get (pieces separator bytes.now) k }
{
    let mut rest = bytes;
    for _i in 0..k {
        let Some((_front, more)) = cut(rest, separator) else {
            return None;
        };
        rest = more;
    }
    match cut(rest, separator) {
        Some((front, _more)) => Some(front),
        None => Some(rest),
    }
}

/// The next line of what a text has from a byte on, without its LF; None where there is none.
#[tactic(auto, using(crate::proofs::Cutting::line_there, crate::proofs::Cutting::line_within, crate::proofs::Cutting::lines_free))]
pub fn next_line(text: &[u8], from: usize) -> Option<&[u8]>
    requires { from ≤ length text.now }
    ensures value { MatchOption result (lines_of (drop from text.now) ≡ [])
        (λ line. lines_of (drop from text.now)
        ≡ line.now ∷ lines_of (drop (from + length line.now + 1) text.now)) }
    ensures within { IfSome result (λ line. from + length line.now < length text.now) }
{
    match cut(&text[from..], b'\n') {
        Some((line, _more)) => Some(line),
        None => None,
    }
}
