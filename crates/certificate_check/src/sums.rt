//! Sums of listed rows and fixed bits.
ghost use Rattle.std.specs.Prelude.{◌≡◌, ◌<◌, ◌≤◌, ℕ, Bool, List, true, IfOk, Some, All, length};
ghost use Rattle.std.specs.List.{list_all};
ghost use Rattle.gf2_solve.specs.Sums.{plus};
ghost use Rattle.certificate_laws.specs.Fixed.{value_or_zero, fixed_at};
ghost use Rattle.certificate_laws.specs.Terms.{alone, row_at, rows_at, row_of, total, value_of, value, may_name, is_sum, is_zero};
ghost use Rattle.certificate_check.specs.Adding.{IsAdded, IsSame, wanted_row, IsWithin};

use certificate_laws::Term;
use nf_base::seq::Seq;
use std::alloc::{AllocError, Global};

/// Whether a sum may name a term.
#[tactic(auto, using(crate::proofs::Rows::as_many))]
fn may_name(rows: &[Seq<u32>], fixed: &[Option<bool>], term: Term) -> bool
    ensures { result ≡ may_name (rows_at rows.now) fixed.now term }
{
    match term {
        Term::Row(k) => (k as usize) < rows.len(),
        Term::Bit(place) => is_fixed(fixed, place as usize),
    }
}

/// Whether a bit is fixed.
fn is_fixed(fixed: &[Option<bool>], place: usize) -> bool
    ensures { result ≡ Rattle.certificate_laws.specs.Fixed.is_fixed (fixed_at fixed.now place) }
{
    match fixed.get(place) {
        Some(Some(_value)) => true,
        Some(None) => false,
        None => false,
    }
}

/// Whether a sum may name all of some terms.
fn may_name_all(rows: &[Seq<u32>], fixed: &[Option<bool>], terms: &[Term]) -> bool
    ensures { result ≡ list_all (may_name (rows_at rows.now) fixed.now) terms.now }
{
    terms.iter().all(|term| may_name(rows, fixed, *term))
}

/// What a fixed bit is, and 0 where it isn't fixed.
fn bit_value(fixed: &[Option<bool>], place: usize) -> bool
    ensures { result ≡ value_or_zero (fixed_at fixed.now place) }
{
    match fixed.get(place) {
        Some(Some(value)) => *value,
        Some(None) => false,
        None => false,
    }
}

/// What a term sums to.
fn value_of(fixed: &[Option<bool>], term: Term) -> bool
    ensures { result ≡ value_of fixed.now term }
{
    match term {
        Term::Row(_k) => false,
        Term::Bit(place) => bit_value(fixed, place as usize),
    }
}

/// The sum modulo 2 of two bits.
fn plus(a: bool, b: bool) -> bool
    ensures { result ≡ plus a b }
{
    a ^ b
}

/// What terms sum to.
#[tactic(auto, using(crate::proofs::Adding::value_more))]
fn value(fixed: &[Option<bool>], terms: &[Term]) -> bool
    ensures { result ≡ value fixed.now terms.now }
{
    let mut sum = false;
    for term in terms {
        sum = plus(sum, value_of(fixed, *term));
    }
    sum
}

/// Adds a row to a sum, bit by bit.
#[tactic(auto, using(crate::proofs::Rows::row_none, crate::proofs::Rows::row_more, crate::proofs::Rows::row_whole, crate::proofs::Rows::place_within))]
fn add_row(sum: &mut [bool], row: &[u32])
    requires { All (λ place. place < length sum.old) row.now }
    ensures adds { IsAdded sum.old (row_at row.now) sum.new }
    ensures length { length sum.new ≡ length sum.old }
{
    for place in row {
        add_bit(sum, *place as usize);
    }
}

/// Adds one bit to a sum.
#[tactic(auto, using(crate::proofs::Adding::added_alone))]
fn add_bit(sum: &mut [bool], place: usize)
    requires { place < length sum.old }
    ensures adds { IsAdded sum.old (alone place) sum.new }
    ensures length { length sum.new ≡ length sum.old }
{
    sum[place] = !sum[place];
}

/// Adds a term to a sum.
#[tactic(auto, using(crate::proofs::Rows::row_fits, crate::proofs::Rows::row_named, crate::proofs::Rows::row_is, crate::proofs::Rows::bit_named))]
fn add_term(sum: &mut [bool], rows: &[Seq<u32>], fixed: &[Option<bool>], term: Term)
    requires named { may_name (rows_at rows.now) fixed.now term ≡ true }
    requires rows { IsWithin (length sum.old) rows.now }
    requires fixed { length fixed.now ≤ length sum.old }
    ensures adds { IsAdded sum.old (row_of (rows_at rows.now) term) sum.new }
    ensures length { length sum.new ≡ length sum.old }
{
    match term {
        Term::Row(k) => add_row(sum, rows[k as usize].as_slice()),
        Term::Bit(place) => add_bit(sum, place as usize),
    }
}

/// Adds terms to a sum.
#[tactic(auto, using(crate::proofs::Adding::total_none, crate::proofs::Adding::total_more, crate::proofs::Adding::named_at))]
fn add_terms(sum: &mut [bool], rows: &[Seq<u32>], fixed: &[Option<bool>], terms: &[Term])
    requires named { list_all (may_name (rows_at rows.now) fixed.now) terms.now ≡ true }
    requires rows { IsWithin (length sum.old) rows.now }
    requires fixed { length fixed.now ≤ length sum.old }
    ensures adds { IsAdded sum.old (total (rows_at rows.now) terms.now) sum.new }
    ensures length { length sum.new ≡ length sum.old }
{
    for term in terms {
        add_term(sum, rows, fixed, *term);
    }
}

/// Whether no bit of a row is 1.
fn is_zero(row: &[bool]) -> bool
    ensures { result ≡ is_zero row.now }
{
    row.iter().all(|bit| !*bit)
}

/// A row with the wanted bits.
#[tactic(auto, using(crate::proofs::Adding::wanted_none, crate::proofs::Adding::wanted_one))]
fn wanted(alloc: Global, n: usize, place: Option<usize>) -> Result<Vec<bool>, AllocError>
    requires { (i : ℕ) → place ≡ Some i → i < n }
    ensures length { IfOk result (λ row. length row.items ≡ n) }
    ensures bits { IfOk result (λ row. IsSame (wanted_row place) row.items) }
{
    let mut row = vec![in alloc; false; n]?;
    if let Some(place) = place {
        add_bit(&mut row, place);
    }
    Ok(row)
}

/// Whether terms that may be named sum to a row and a value.
#[tactic(auto, using(crate::proofs::Adding::sum_decided))]
fn sums_to(
    row: &mut [bool],
    rows: &[Seq<u32>],
    fixed: &[Option<bool>],
    terms: &[Term],
    one: bool,
) -> bool
    requires named { list_all (may_name (rows_at rows.now) fixed.now) terms.now ≡ true }
    requires rows { IsWithin (length row.old) rows.now }
    requires fixed { length fixed.now ≤ length row.old }
    ensures { (wanted : List Bool) → IsSame wanted row.old →
        result ≡ is_sum (rows_at rows.now) fixed.now terms.now wanted one }
{
    add_terms(row, rows, fixed, terms);
    let zero = is_zero(row);
    let same = !plus(one, value(fixed, terms));
    zero & same
}

/// Whether terms may be named, and sum to the wanted row and value.
#[tactic(auto, using(crate::proofs::Adding::not_named))]
pub fn is_sum(
    alloc: Global,
    rows: &[Seq<u32>],
    fixed: &[Option<bool>],
    terms: &[Term],
    place: Option<usize>,
    one: bool,
) -> Result<bool, AllocError>
    requires rows { IsWithin (length fixed.now) rows.now }
    requires place { (i : ℕ) → place ≡ Some i → i < length fixed.now }
    ensures { IfOk result (λ yes. yes ≡ is_sum (rows_at rows.now) fixed.now terms.now (wanted_row place) one) }
{
    if !may_name_all(rows, fixed, terms) {
        return Ok(false);
    }
    let mut row = wanted(alloc, fixed.len(), place)?;
    Ok(sums_to(&mut row, rows, fixed, terms, one))
}
