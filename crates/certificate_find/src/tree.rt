//! The trees, as the rule has them.
use crate::bits::Bits;
use crate::echelon::{Combination, Echelon};
use certificate_laws::Span;
use std::alloc::{AllocError, Global};

/// A line of a tree, or the name of a bit. Sums name rows by their numbers among those kept.
#[derive(Clone, Copy)]
pub enum Step {
    Not(u32),
    Split(u32),
    Clash,
    Zero(Span),
    Sum(Combination),
}

/// Bits that are fixed, and those of them that are 1.
#[derive(Clone, Copy)]
pub struct Fixed {
    pub places: Bits,
    pub ones: Bits,
}

/// What is known of a bit.
enum Seen {
    Zero(Combination),
    One,
    Open,
}

impl Fixed {
    /// Nothing is fixed.
    pub fn none() -> Fixed {
        Fixed {
            places: Bits::none(),
            ones: Bits::none(),
        }
    }

    /// Fixes one bit more.
    pub fn with(&self, place: usize, one: bool) -> Fixed {
        let mut more = *self;
        more.places.flip(place);
        if one {
            more.ones.flip(place);
        }
        more
    }
}

/// Reduces rows over the bits that aren't fixed: the first one that contradicts them, if one does.
fn eliminate(echelon: &mut Echelon, rows: &[Bits], fixed: &Fixed) -> Option<Combination> {
    for (k, row) in rows.iter().enumerate() {
        let mut rest = Combination {
            rows: Bits::none(),
            bits: *row,
        };
        rest.rows.flip(k);
        match echelon.reduce(&mut rest) {
            Some(place) => echelon.put(place, rest),
            None => {
                if rest.bits.is_odd(&fixed.ones) {
                    return Some(rest);
                }
            }
        }
    }
    None
}

/// What the rows and the fixed bits say of a bit.
fn look(echelon: &Echelon, fixed: &Fixed, place: usize) -> Seen {
    let mut rest = Combination {
        rows: Bits::none(),
        bits: Bits::none(),
    };
    rest.bits.flip(place);
    if echelon.reduce(&mut rest).is_some() {
        return Seen::Open;
    }
    if rest.bits.is_odd(&fixed.ones) {
        Seen::One
    } else {
        Seen::Zero(rest)
    }
}

/// What they say of a span.
#[derive(Drop)]
enum SpanSeen {
    Zero(Vec<Combination>),
    One,
    Open(u32),
}

fn look_at_span(
    alloc: Global,
    echelon: &Echelon,
    fixed: &Fixed,
    span: Span,
) -> Result<SpanSeen, AllocError> {
    let mut sums = Vec::new(alloc);
    let mut open = None;
    for i in 0..span.count {
        let place = span.first.saturating_add(i);
        match look(echelon, fixed, place as usize) {
            Seen::One => return Ok(SpanSeen::One),
            Seen::Zero(sum) => sums.push(sum)?,
            Seen::Open => {
                if open.is_none() {
                    open = Some(place);
                }
            }
        }
    }
    Ok(match open {
        Some(place) => SpanSeen::Open(place),
        None => SpanSeen::Zero(sums),
    })
}

/// What to write next: the least span that is 0, or where to split.
#[derive(Drop)]
enum Next {
    Zero(Span, Vec<Combination>),
    Split(u32),
    Nothing,
}

fn ahead(
    alloc: Global,
    echelon: &Echelon,
    fixed: &Fixed,
    spans: &[Span],
) -> Result<Next, AllocError> {
    let mut split = None;
    for span in spans {
        match look_at_span(alloc, echelon, fixed, *span)? {
            SpanSeen::Zero(sums) => return Ok(Next::Zero(*span, sums)),
            SpanSeen::One => {}
            SpanSeen::Open(place) => {
                if split.is_none() {
                    split = Some(place);
                }
            }
        }
    }
    Ok(match split {
        Some(place) => Next::Split(place),
        None => Next::Nothing,
    })
}

fn push_zero(steps: &mut Vec<Step>, span: Span, sums: &[Combination]) -> Result<(), AllocError> {
    steps.push(Step::Zero(span))?;
    for sum in sums {
        steps.push(Step::Sum(*sum))?;
    }
    Ok(())
}

/// What to write: a clash is written at once, and so is a span that is 0. The place at which to
/// split, if that is what is left.
fn leaf(
    alloc: Global,
    rows: &[Bits],
    spans: &[Span],
    fixed: &Fixed,
    steps: &mut Vec<Step>,
) -> Result<Option<u32>, AllocError> {
    let mut echelon = Echelon::new(alloc, fixed.places)?;
    if let Some(sum) = eliminate(&mut echelon, rows, fixed) {
        steps.push(Step::Clash)?;
        steps.push(Step::Sum(sum))?;
        return Ok(None);
    }
    match ahead(alloc, &echelon, fixed, spans)? {
        Next::Zero(span, sums) => {
            push_zero(steps, span, &sums)?;
            Ok(None)
        }
        Next::Split(place) => Ok(Some(place)),
        Next::Nothing => Ok(None),
    }
}

/// Writes a tree that splits so many times one below the other at most: a clash where rows and
/// fixed bits contradict; else the zeros of the least span that they force to 0; else a split at the
/// first open bit of the least span in which they force no 1.
pub fn grow(
    alloc: Global,
    rows: &[Bits],
    spans: &[Span],
    fixed: Fixed,
    deep: usize,
    steps: &mut Vec<Step>,
) -> Result<(), AllocError> {
    let Some(place) = leaf(alloc, rows, spans, &fixed, steps)? else {
        return Ok(());
    };
    if deep == 0 {
        return Ok(());
    }
    steps.push(Step::Split(place))?;
    let off = fixed.with(place as usize, false);
    grow(alloc, rows, spans, off, deep - 1, steps)?;
    let on = fixed.with(place as usize, true);
    grow(alloc, rows, spans, on, deep - 1, steps)
}
