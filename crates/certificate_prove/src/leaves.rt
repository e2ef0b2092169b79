//! Leaves of a tree: a row that clashes by itself, and a span that is 0 bit by bit.
ghost use Rattle.std.specs.Prelude.{◌≡◌, ◌+◌, ◌<◌, ◌≤◌, ◌∷◌, ◌++◌, [], ℕ, List, true, false, All, IfOk, OnOk, length};
ghost use Rattle.nf_base.specs.declared.card.TableSize.{TableSize};
ghost use Rattle.certificate_laws.specs.declared.line.Line.TheVariants as line;
ghost use Rattle.certificate_laws.specs.declared.line.Span.{Span};
ghost use Rattle.certificate_laws.specs.Terms as sums;
ghost use Rattle.certificate_laws.specs.Terms.{rows_at};
ghost use Rattle.certificate_laws.specs.Leaves.{zero_sums};
ghost use Rattle.certificate_laws.specs.Due.{sum_lines};
ghost use Rattle.certificate_check.specs.Adding.{IsWithin};
ghost use Rattle.certificate_prove.specs.Growing.{AreNameable, Writes, NoRow, NoSpan, row_terms, is_zero_span};

use certificate_check::is_sum;
use certificate_laws::{Line, Span, Term};
use nf_base::card::TableSize;
use nf_base::seq::Seq;
use std::alloc::{AllocError, Global};

/// A row and its bits.
#[tactic(auto, using(crate::proofs::Writing::terms_none, crate::proofs::Writing::terms_more, crate::proofs::Writing::terms_all))]
fn row_terms(alloc: Global, k: u32, row: &[u32]) -> Result<Seq<Term>, AllocError>
    ensures { IfOk result (λ terms. terms ≡ row_terms k row.now) }
{
    let mut terms = Seq::new(alloc);
    terms.push(Term::Row(k))?;
    for place in row {
        terms.push(Term::Bit(*place))?;
    }
    Ok(terms)
}

/// Writes that a row clashes by itself, if it does.
fn clash_of(
    alloc: Global,
    rows: &[Seq<u32>],
    fixed: &[Option<bool>],
    k: u32,
    row: &[u32],
    out: &mut Vec<Line>,
) -> Result<bool, AllocError>
    requires rows { IsWithin (length fixed.now) rows.now }
    ensures yes { IfOk result (λ done. done ≡ true →
        sums.is_sum (rows_at rows.now) fixed.now (row_terms k row.now) [] true ≡ true) }
    ensures no { IfOk result (λ done. done ≡ false →
        sums.is_sum (rows_at rows.now) fixed.now (row_terms k row.now) [] true ≡ false) }
    ensures written { IfOk result (λ done. done ≡ true → out.new.items
        ≡ (out.old.items ++ line.Clash ∷ []) ++ line.Sum (row_terms k row.now) ∷ []) }
    ensures unchanged { IfOk result (λ done. done ≡ false → out.new.items ≡ out.old.items) }
{
    let terms = row_terms(alloc, k, row)?;
    if !is_sum(alloc, rows, fixed, terms.as_slice(), None, true)? {
        return Ok(false);
    }
    out.push(Line::Clash)?;
    out.push(Line::Sum(terms))?;
    Ok(true)
}

/// Writes that a row clashes by itself, if one does.
#[tactic(auto, using(crate::proofs::Writing::no_row_none, crate::proofs::Writing::no_row_more, crate::proofs::Writing::no_row_all))]
pub fn row_clash(
    alloc: Global,
    rows: &[Seq<u32>],
    fixed: &[Option<bool>],
    out: &mut Vec<Line>,
) -> Result<bool, AllocError>
    requires rows { IsWithin (length fixed.now) rows.now }
    requires count { length rows.now ≤ 4294967296 }
    ensures written { (table : TableSize) (positions : List ℕ) (spans : List Span) →
        AreNameable table positions (length fixed.now) rows.now spans →
        IfOk result (λ done. done ≡ true →
        Writes table positions rows.now spans fixed.now out.old.items out.new.items) }
    ensures no { IfOk result (λ done. done ≡ false → NoRow rows.now fixed.now (length rows.now)) }
    ensures unchanged { IfOk result (λ done. done ≡ false → out.new.items ≡ out.old.items) }
{
    for (k, row) in rows.iter().enumerate() {
        if clash_of(alloc, rows, fixed, k as u32, row.as_slice(), out)? {
            return Ok(true);
        }
    }
    Ok(false)
}

/// Whether each of so many places is fixed to 0.
#[tactic(auto, using(crate::proofs::Writing::zero_none, crate::proofs::Writing::zero_more, crate::proofs::Writing::zero_fails, crate::proofs::Writing::zero_all))]
fn are_zero_bits(
    alloc: Global,
    rows: &[Seq<u32>],
    fixed: &[Option<bool>],
    span: Span,
) -> Result<bool, AllocError>
    requires rows { IsWithin (length fixed.now) rows.now }
    requires within { span.first + span.count ≤ length fixed.now }
    requires few { length fixed.now ≤ 65536 }
    ensures { IfOk result (λ yes. yes ≡ is_zero_span rows.now fixed.now span) }
{
    for i in 0..span.count {
        let place = span.first + i;
        let terms = [Term::Bit(place)];
        if !is_sum(alloc, rows, fixed, &terms, Some(place as usize), false)? {
            return Ok(false);
        }
    }
    Ok(true)
}

/// Writes a sum for each bit of a span: that bit alone.
#[tactic(auto, using(crate::proofs::Writing::sums_none, crate::proofs::Writing::sums_more))]
fn push_zeros(alloc: Global, span: Span, out: &mut Vec<Line>) -> Result<(), AllocError>
    requires { span.first + span.count ≤ 65536 }
    ensures { OnOk result (out.new.items
        ≡ out.old.items ++ sum_lines (zero_sums span.count span.first)) }
{
    for i in 0..span.count {
        let mut terms = Seq::new(alloc);
        terms.push(Term::Bit(span.first + i))?;
        out.push(Line::Sum(terms))?;
    }
    Ok(())
}

/// Writes that a span is 0, if each of its bits is fixed to 0.
fn zero_of(
    alloc: Global,
    rows: &[Seq<u32>],
    fixed: &[Option<bool>],
    span: Span,
    out: &mut Vec<Line>,
) -> Result<bool, AllocError>
    requires rows { IsWithin (length fixed.now) rows.now }
    requires within { span.first + span.count ≤ length fixed.now }
    requires few { length fixed.now ≤ 65536 }
    ensures yes { IfOk result (λ done. done ≡ true →
        is_zero_span rows.now fixed.now span ≡ true) }
    ensures no { IfOk result (λ done. done ≡ false →
        is_zero_span rows.now fixed.now span ≡ false) }
    ensures written { IfOk result (λ done. done ≡ true → out.new.items
        ≡ (out.old.items ++ line.Zero span ∷ []) ++ sum_lines (zero_sums span.count span.first)) }
    ensures unchanged { IfOk result (λ done. done ≡ false → out.new.items ≡ out.old.items) }
{
    if !are_zero_bits(alloc, rows, fixed, span)? {
        return Ok(false);
    }
    out.push(Line::Zero(span))?;
    push_zeros(alloc, span, out)?;
    Ok(true)
}

/// Writes that a span is 0, if one is bit by bit.
#[tactic(auto, using(crate::proofs::Writing::no_span_none, crate::proofs::Writing::no_span_more, crate::proofs::Writing::no_span_all))]
pub fn span_zero(
    alloc: Global,
    rows: &[Seq<u32>],
    spans: &[Span],
    fixed: &[Option<bool>],
    out: &mut Vec<Line>,
) -> Result<bool, AllocError>
    requires rows { IsWithin (length fixed.now) rows.now }
    requires few { length fixed.now ≤ 65536 }
    requires spans { All (λ (s : Span). s.first + s.count ≤ length fixed.now) spans.now }
    ensures written { (table : TableSize) (positions : List ℕ) →
        AreNameable table positions (length fixed.now) rows.now spans.now →
        IfOk result (λ done. done ≡ true →
        Writes table positions rows.now spans.now fixed.now out.old.items out.new.items) }
    ensures no { IfOk result (λ done. done ≡ false →
        NoSpan rows.now spans.now fixed.now (length spans.now)) }
    ensures unchanged { IfOk result (λ done. done ≡ false → out.new.items ≡ out.old.items) }
{
    for s in 0..spans.len() {
        if zero_of(alloc, rows, fixed, spans[s], out)? {
            return Ok(true);
        }
    }
    Ok(false)
}
