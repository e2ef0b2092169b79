//! The first line of a certificate.
ghost use Rattle.std.specs.Prelude.{◌≡◌};
ghost use Rattle.certificate_text.specs.Pieces.{pieces};
ghost use Rattle.certificate_text.specs.Lines.{titled, sizes_in, heading_in};

use crate::word::{ends_at, is_word, key_size_at, kind_at, table_at};
use nf_base::card::Card;

/// What a certificate says of a function.
#[derive(Clone, Copy, Debug, PartialEq, Eq)]
pub enum Kind {
    /// That keys are the given ones.
    Sharded,
    /// That there are none.
    Locked,
}

/// What the first line says.
#[derive(Clone, Copy, Debug, PartialEq, Eq)]
pub struct Heading {
    /// The card that the keys are for.
    pub card: Card,
    pub kind: Kind,
}

/// Whether a line begins as the first one, and has as many words.
fn titled(line: &[u8]) -> bool
    ensures { result ≡ titled (pieces 32 line.now) }
{
    is_word(line, 0, b"maestro")
        && is_word(line, 1, b"proof")
        && is_word(line, 2, b"1")
        && ends_at(line, b' ', 6)
}

fn sizes(line: &[u8]) -> Option<Heading>
    ensures { result ≡ sizes_in (pieces 32 line.now) }
{
    let table = table_at(line, 3)?;
    let key = key_size_at(line, 4)?;
    let kind = kind_at(line, 5)?;
    Some(Heading {
        card: Card { table, key },
        kind,
    })
}

/// What the first line of a certificate says, without its LF; None where it is no such line.
pub fn heading_in(line: &[u8]) -> Option<Heading>
    ensures { result ≡ heading_in line.now }
{
    if titled(line) { sizes(line) } else { None }
}
