//! The text of a certificate.
use crate::bits::Bits;
use crate::echelon::Combination;
use crate::names::{KeptRows, keep_rows};
use crate::tree::{Fixed, Step, grow};
use certificate_laws::{Line, Span, Term};
use certificate_text::{Heading, Kind};
use certificate_write::{push_heading, push_line};
use key_proof::{Subject, bits_of, counted, default_bits, spans_of};
use key_rows::Object;
use key_synth::Verdict;
use nf_base::card::Card;
use nf_base::keys::Keys;
use nf_base::seq::Seq;
use std::alloc::{AllocError, Global};

fn bit(bits: &[bool], i: usize) -> bool {
    match bits.get(i) {
        Some(bit) => *bit,
        None => false,
    }
}

/// Writes a tree for a bit that isn't the wanted one. Where a sum of rows leads at it, all its other
/// bits are fixed, and it is a clash.
fn push_not(
    alloc: Global,
    kept: &KeptRows,
    spans: &[Span],
    fixed: &Fixed,
    place: u32,
    wanted: bool,
    steps: &mut Vec<Step>,
) -> Result<(), AllocError> {
    steps.push(Step::Not(place))?;
    match kept.echelon.at(place as usize) {
        Some(sum) => {
            steps.push(Step::Clash)?;
            steps.push(Step::Sum(sum))?;
            Ok(())
        }
        None => {
            let more = fixed.with(place as usize, wanted);
            grow(alloc, &kept.rows, spans, more, 1280, steps)
        }
    }
}

/// The trees for the bits of keys that are not the default key's.
fn nots(
    alloc: Global,
    subject: &Subject,
    kept: &KeptRows,
    spans: &[Span],
    keys: &Keys,
) -> Result<Vec<Step>, AllocError> {
    let ports = keys.ports.len();
    let own = bits_of(alloc, keys)?;
    let wanted = default_bits(alloc, ports)?;
    let counts = counted(alloc, subject)?;
    let mut fixed = Fixed::none();
    let mut steps = Vec::new(alloc);
    for place in 0..1276u32 {
        let at = place as usize;
        if !bit(&counts, at) {
            continue;
        }
        let aim = bit(&wanted, at);
        if bit(&own, at) != aim {
            push_not(alloc, kept, spans, &fixed, place, aim, &mut steps)?;
        }
        fixed = fixed.with(at, bit(&own, at));
    }
    Ok(steps)
}

/// The rows that some sum names.
fn used(steps: &[Step]) -> Bits {
    let mut used = Bits::none();
    for step in steps {
        if let Step::Sum(sum) = step {
            used.join(&sum.rows);
        }
    }
    used
}

/// The number of each row among those that are used.
fn ranks(alloc: Global, used: &Bits) -> Result<Vec<u32>, AllocError> {
    let mut ranks = Vec::new(alloc);
    let mut next = 0u32;
    for k in 0..1280usize {
        ranks.push(next)?;
        if used.has(k) {
            next = next.saturating_add(1);
        }
    }
    Ok(ranks)
}

fn push_row_terms(terms: &mut Seq<Term>, ranks: &[u32], rows: &[u32]) -> Result<(), AllocError> {
    for k in rows {
        if let Some(rank) = ranks.get(*k as usize) {
            terms.push(Term::Row(*rank))?;
        }
    }
    Ok(())
}

fn terms(alloc: Global, ranks: &[u32], sum: &Combination) -> Result<Seq<Term>, AllocError> {
    let mut terms = Seq::new(alloc);
    let rows = sum.rows.numbers(alloc)?;
    push_row_terms(&mut terms, ranks, &rows)?;
    let bits = sum.bits.numbers(alloc)?;
    for place in &bits {
        terms.push(Term::Bit(*place))?;
    }
    Ok(terms)
}

fn line_of(alloc: Global, ranks: &[u32], step: &Step) -> Result<Line, AllocError> {
    Ok(match step {
        Step::Not(place) => Line::Not(*place),
        Step::Split(place) => Line::Split(*place),
        Step::Clash => Line::Clash,
        Step::Zero(span) => Line::Zero(*span),
        Step::Sum(sum) => Line::Sum(terms(alloc, ranks, sum)?),
    })
}

/// Puts the lines of the rows that are used behind what stands there.
fn push_rows(
    alloc: Global,
    out: &mut Vec<u8>,
    kept: &KeptRows,
    used: &Bits,
) -> Result<(), AllocError> {
    for (k, named) in kept.named.iter().enumerate() {
        if used.has(k) {
            push_line(alloc, out, &Line::Row(*named))?;
        }
    }
    Ok(())
}

fn push_keys(alloc: Global, out: &mut Vec<u8>, keys: &Keys) -> Result<(), AllocError> {
    for port in 0..keys.ports.len() {
        let key = keys.ports.item(port).again();
        push_line(alloc, out, &Line::Key { port, key })?;
    }
    Ok(())
}

fn push_steps(
    alloc: Global,
    out: &mut Vec<u8>,
    used: &Bits,
    steps: &[Step],
) -> Result<(), AllocError> {
    let ranks = ranks(alloc, used)?;
    for step in steps {
        let line = line_of(alloc, &ranks, step)?;
        push_line(alloc, out, &line)?;
    }
    Ok(())
}

/// The certificate of keys.
fn sharded(
    alloc: Global,
    subject: &Subject,
    kept: &KeptRows,
    spans: &[Span],
    card: Card,
    keys: &Keys,
) -> Result<Vec<u8>, AllocError> {
    let steps = nots(alloc, subject, kept, spans, keys)?;
    let used = used(&steps);
    let mut out = Vec::new(alloc);
    let kind = Kind::Sharded;
    push_heading(&mut out, Heading { card, kind })?;
    push_rows(alloc, &mut out, kept, &used)?;
    push_keys(alloc, &mut out, keys)?;
    push_steps(alloc, &mut out, &used, &steps)?;
    Ok(out)
}

/// The certificate of there being none.
fn locked(
    alloc: Global,
    kept: &KeptRows,
    spans: &[Span],
    card: Card,
) -> Result<Vec<u8>, AllocError> {
    let mut steps = Vec::new(alloc);
    grow(alloc, &kept.rows, spans, Fixed::none(), 1280, &mut steps)?;
    let used = used(&steps);
    let mut out = Vec::new(alloc);
    let kind = Kind::Locked;
    push_heading(&mut out, Heading { card, kind })?;
    push_rows(alloc, &mut out, kept, &used)?;
    push_steps(alloc, &mut out, &used, &steps)?;
    Ok(out)
}

/// A certificate of a verdict: only rows that some sum names are listed, and each tree is as the
/// rule has it, so that two programs write one text.
pub fn find(
    alloc: Global,
    subject: &Subject,
    objects: &[Object],
    card: Card,
    verdict: &Verdict,
) -> Result<Vec<u8>, AllocError> {
    let ports = subject.positions.len();
    let kept = keep_rows(alloc, ports, subject.sites.as_slice())?;
    let spans = spans_of(alloc, objects, card.table, ports)?;
    match verdict {
        Verdict::Sharded(keys) => sharded(alloc, subject, &kept, spans.as_slice(), card, keys),
        Verdict::Locked(_cause) => locked(alloc, &kept, spans.as_slice(), card),
    }
}
