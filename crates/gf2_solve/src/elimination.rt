//! Gaussian elimination over GF(2).
//!
//! The equations stand in row-echelon form, read from the last bit on: an equation leads at its
//! pivot, the bit behind its row, and at each bit at most one leads. It says what that bit is from
//! the bits before it. So the bits at which none leads are free: any values of these go on to one
//! solution.
ghost use Rattle.std.specs.Prelude.{◌≡◌, ◌≤◌, length, IfOk, IsTrue, true, false};
ghost use Rattle.gf2_solve.specs.Equations.{AreLed, Solves, IsRest, HasGap, IsAdded};

use crate::bits::{Bits, plus};
use crate::equation::{Equation, next_bit};
use crate::row::Row;
use std::alloc::{AllocError, Global};

/// What is left of an equation among others.
#[derive(Drop)]
enum Rest {
    /// An equation that leads at a free bit.
    Leading(Equation),
    /// No bits: its gap at each solution of the others.
    Gap(bool),
}

/// Reduces an equation by others, from its last bit on, until it leads at a free bit or has none.
#[tactic(auto, using(crate::proofs::Reducing::reduced_start, crate::proofs::Reducing::reduced_zero, crate::proofs::Reducing::reduced_led, crate::proofs::Reducing::reduced_free, crate::proofs::Reducing::reduced_none))]
fn rest_of(rows: &[Option<Equation>], equation: Equation) -> Rest
    requires led { AreLed rows.now }
    requires fits { length equation.row ≤ length rows.now }
    ensures { IsRest rows.now equation result }
{
    let mut sum = equation.sum;
    let mut row = equation.row;
    row.trim();
    while let Some(lead) = row.pop() {
        if lead {
            match &rows[row.len()] {
                Some(leading) => {
                    row.add(&leading.row);
                    row.trim();
                    sum = plus(sum, leading.sum);
                }
                None => return Rest::Leading(Equation { row, sum }),
            }
        }
    }
    Rest::Gap(sum)
}

/// Adds an equation to others: false where it contradicts them, as no solution of theirs meets it.
#[tactic(auto, using(crate::proofs::Inserting::put_led, crate::proofs::Inserting::put_added))]
pub fn insert(rows: &mut [Option<Equation>], equation: Equation) -> bool
    requires led { AreLed rows.old }
    requires fits { length equation.row ≤ length rows.old }
    ensures led { AreLed rows.new }
    ensures added { IsTrue result → IsAdded rows.old equation rows.new }
    ensures contradicted { result ≡ false → HasGap rows.old equation true }
{
    match rest_of(rows, equation) {
        Rest::Leading(rest) => {
            let at = rest.row.len();
            rows[at] = Some(rest);
            true
        }
        Rest::Gap(gap) => !gap,
    }
}

/// Whether an equation contradicts others.
pub fn contradicts(rows: &[Option<Equation>], equation: Equation) -> bool
    requires led { AreLed rows.now }
    requires fits { length equation.row ≤ length rows.now }
    ensures { IsTrue result → HasGap rows.now equation true }
{
    match rest_of(rows, equation) {
        Rest::Leading(_rest) => false,
        Rest::Gap(gap) => gap,
    }
}

/// The solution with the wanted bits where no equation leads (back substitution).
#[tactic(auto, using(crate::proofs::Completing::below_none, crate::proofs::Completing::ends_there, crate::proofs::Completing::below_more, crate::proofs::Completing::below_all))]
pub fn solution(
    alloc: Global,
    rows: &[Option<Equation>],
    wanted: &Bits,
) -> Result<Vec<bool>, AllocError>
    requires { AreLed rows.now }
    ensures length { IfOk result (λ x. length x.items ≡ length rows.now) }
    ensures solves { IfOk result (λ x. Solves rows.now x.items) }
{
    let mut x = Vec::with_capacity(alloc, rows.len())?;
    let mut before = Row::with_capacity(alloc, rows.len())?;
    for (i, row) in rows.iter().enumerate() {
        let bit = next_bit(row, &before, wanted.bit(i));
        before.push(bit)?;
        x.push(bit)?;
    }
    Ok(x)
}
