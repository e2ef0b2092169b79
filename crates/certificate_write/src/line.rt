//! The lines behind the first.
ghost use Rattle.std.specs.Prelude.{◌≡◌, ◌++◌, ◌/◌, OnOk, codes, decimal};
ghost use Rattle.hex.specs.Hex.{encode_lower};
ghost use Rattle.certificate_write.specs.Texts.{spaced, side_word, family_word, term_text, terms_text, named_text, line_text, lines_text};

use crate::push::{push_bit, push_bytes, push_number};
use certificate_laws::{Line, Named, Side, Span, Term};
use std::alloc::{AllocError, Global};

fn push_side(out: &mut Vec<u8>, side: Side) -> Result<(), AllocError>
    ensures { OnOk result (out.new.items ≡ out.old.items ++ side_word side) }
{
    match side {
        Side::First => push_bytes(out, b"p"),
        Side::Second => push_bytes(out, b"q"),
    }
}

/// Puts the bits that a row is named by behind what stands there.
fn push_bits(out: &mut Vec<u8>, named: &Named) -> Result<(), AllocError>
    ensures { OnOk result (out.new.items
        ≡ out.old.items ++ spaced (decimal named.now.input) (decimal named.now.result)) }
{
    push_number(out, named.input)?;
    push_bytes(out, b" ")?;
    push_number(out, named.result)
}

fn push_side_bits(out: &mut Vec<u8>, named: &Named) -> Result<(), AllocError>
    ensures { OnOk result (out.new.items ≡ out.old.items ++ spaced (side_word named.now.side)
        (spaced (decimal named.now.input) (decimal named.now.result))) }
{
    push_side(out, named.side)?;
    push_bytes(out, b" ")?;
    push_bits(out, named)
}

fn push_second(out: &mut Vec<u8>, named: &Named) -> Result<(), AllocError>
    ensures { OnOk result (out.new.items ≡ out.old.items ++ spaced (decimal named.now.second)
        (spaced (side_word named.now.side)
        (spaced (decimal named.now.input) (decimal named.now.result)))) }
{
    push_number(out, named.second)?;
    push_bytes(out, b" ")?;
    push_side_bits(out, named)
}

fn push_named(out: &mut Vec<u8>, named: &Named) -> Result<(), AllocError>
    ensures { OnOk result (out.new.items ≡ out.old.items ++ named_text named.now) }
{
    push_number(out, named.first)?;
    push_bytes(out, b" ")?;
    push_second(out, named)
}

fn push_key(alloc: Global, out: &mut Vec<u8>, port: u32, key: &[u8]) -> Result<(), AllocError>
    ensures { OnOk result (out.new.items
        ≡ out.old.items ++ spaced (decimal port) (encode_lower key.now)) }
{
    push_number(out, port)?;
    push_bytes(out, b" ")?;
    let digits = hex::encode(alloc, key)?;
    push_bytes(out, digits.as_bytes())
}

fn push_span(out: &mut Vec<u8>, span: &Span) -> Result<(), AllocError>
    ensures { OnOk result (out.new.items
        ≡ out.old.items ++ spaced (decimal (span.now.first / 319)) (family_word span.now)) }
{
    push_number(out, span.first / 319)?;
    push_bytes(out, b" ")?;
    if span.count < 200 {
        push_bytes(out, b"4")
    } else {
        push_bytes(out, b"6")
    }
}

fn push_term(out: &mut Vec<u8>, term: Term) -> Result<(), AllocError>
    ensures { OnOk result (out.new.items ≡ out.old.items ++ term_text term) }
{
    match term {
        Term::Row(k) => {
            push_bytes(out, b"r")?;
            push_number(out, k)
        }
        Term::Bit(place) => {
            push_bytes(out, b"b")?;
            push_bit(out, b".", place)
        }
    }
}

fn push_terms(out: &mut Vec<u8>, terms: &[Term]) -> Result<(), AllocError>
    ensures { OnOk result (out.new.items ≡ out.old.items ++ terms_text terms.now) }
{
    for term in terms {
        push_bytes(out, b" ")?;
        push_term(out, *term)?;
    }
    Ok(())
}

/// Puts a line of a certificate behind what stands there, without an LF.
fn push_words(alloc: Global, out: &mut Vec<u8>, line: &Line) -> Result<(), AllocError>
    ensures { OnOk result (out.new.items ≡ out.old.items ++ line_text line.now) }
{
    match line {
        Line::Row(named) => {
            push_bytes(out, b"row ")?;
            push_named(out, named)
        }
        Line::Key { port, key } => {
            push_bytes(out, b"key ")?;
            push_key(alloc, out, *port, key.as_slice())
        }
        Line::Not(place) => {
            push_bytes(out, b"not ")?;
            push_bit(out, b" ", *place)
        }
        Line::Split(place) => {
            push_bytes(out, b"split ")?;
            push_bit(out, b" ", *place)
        }
        Line::Clash => push_bytes(out, b"clash"),
        Line::Zero(span) => {
            push_bytes(out, b"zero ")?;
            push_span(out, span)
        }
        Line::Sum(terms) => {
            push_bytes(out, b"sum")?;
            push_terms(out, terms.as_slice())
        }
    }
}

/// Puts a line of a certificate behind what stands there, with its LF.
pub fn push_line(alloc: Global, out: &mut Vec<u8>, line: &Line) -> Result<(), AllocError>
    ensures { OnOk result (out.new.items ≡ out.old.items ++ (line_text line.now ++ codes "\n")) }
{
    push_words(alloc, out, line)?;
    push_bytes(out, b"\n")
}

/// Puts lines of a certificate behind what stands there, each with its LF.
pub fn push_lines(alloc: Global, out: &mut Vec<u8>, lines: &[Line]) -> Result<(), AllocError>
    ensures { OnOk result (out.new.items ≡ out.old.items ++ lines_text lines.now) }
{
    for line in lines {
        push_line(alloc, out, line)?;
    }
    Ok(())
}
