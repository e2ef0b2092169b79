//! Why a text has no tree.

ghost use Rattle.std.specs.Prelude.{◌≡◌};
ghost use Rattle.nf_syntax.specs.declared.fault.TokenFault.TheVariants.{Memory, Stuck};
ghost use Rattle.nf_syntax.specs.Items.{kind_of};

use nf_tokens::{Flaw, Place, Placed, Token};
use std::alloc::{AllocError, AllocFailed};
use thiserror::Error;

/// What is wrong with a text.
#[derive(Clone, Copy, Debug, PartialEq, Eq, Error)]
pub enum SyntaxKind {
    /// A byte that begins no token; it stands there.
    #[error("S1")]
    Byte,
    /// A number that is none of the three forms; its first byte.
    #[error("S2")]
    Number,
    /// A token that no text of the grammar has here; its first byte.
    #[error("S3")]
    Token,
    /// The text ends where more is needed; just past its last byte.
    #[error("S4")]
    End,
    /// A limit is passed: by a text over 1,048,576 bytes (the place is 1:1), by a name over 32 bytes, by the
    /// `{` of a 65th open block, by the 33rd open `(` or `[` of an expression, or by its 65th operand.
    #[error("S5")]
    Limit,
}

/// Why a text gives no tree.
#[derive(Clone, Copy, Debug, PartialEq, Eq, Error)]
pub enum ParseFault {
    /// The first fault. Lines and columns count from 1, a column counts bytes.
    #[error("{kind} at {line}:{column}")]
    Syntax {
        kind: SyntaxKind,
        line: u32,
        column: u32,
    },
    /// Memory ran out.
    #[error("out of memory")]
    Memory,
}

/// Where and why the reading of tokens stops.
#[derive(Drop)]
pub enum TokenFault {
    /// A token that may not stand here, and what is wrong with it.
    Stuck(SyntaxKind, Place),
    /// A token that passes a limit.
    Past(Place),
    /// The text ends where more is needed.
    Short,
    /// Memory ran out.
    Memory,
}

impl From<AllocError> for TokenFault {
    ghost from_gives = { λ _ e. e ≡ Memory };

    fn from(_e: AllocError) -> TokenFault {
        TokenFault::Memory
    }
}

impl<T: Drop> From<AllocFailed<T>> for TokenFault {
    ghost from_gives = { λ _ e. e ≡ Memory };

    fn from(_e: AllocFailed<T>) -> TokenFault {
        TokenFault::Memory
    }
}

/// What is wrong with a token that may not stand where it stands.
fn kind_of(token: &Token) -> SyntaxKind
    ensures { result ≡ kind_of token.now }
{
    match token {
        Token::Bad(Flaw::Byte) => SyntaxKind::Byte,
        Token::Bad(Flaw::Number) => SyntaxKind::Number,
        Token::Bad(Flaw::Name) => SyntaxKind::Limit,
        _ => SyntaxKind::Token,
    }
}

/// The stop at a token that may not stand where it stands.
pub fn stuck(first: &Placed) -> TokenFault
    ensures { result ≡ Stuck (kind_of first.now.token) first.now.place }
{
    TokenFault::Stuck(kind_of(&first.token), first.place)
}
