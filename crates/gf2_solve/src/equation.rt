//! One equation.
ghost use Rattle.std.specs.Prelude.{◌≡◌, ◌≤◌, length, Some, IfOk};
ghost use Rattle.gf2_solve.specs.Equations.{gap_of, led_bit};

use crate::bits::plus;
use crate::row::Row;
use std::alloc::{AllocError, Global};

/// The sum of a row at a vector is to be `sum`. Where the equation leads, it is what says the bit
/// behind its row: that bit is 1 exactly where the sum isn't `sum`.
#[derive(Drop)]
pub struct Equation {
    pub row: Row,
    pub sum: bool,
}

/// The sum of both sides of an equation at a vector: 0 where it is met.
fn gap(equation: &Equation, x: &Row) -> bool
    requires { length equation.now.row ≤ length x.now }
    ensures { result ≡ gap_of equation.now x.now }
{
    plus(equation.sum, equation.row.sum(x))
}

/// The bit behind a vector: what the equation that leads there says, else the wanted one.
pub fn next_bit(equation: &Option<Equation>, x: &Row, wanted: bool) -> bool
    requires { (e : Equation) → equation.now ≡ Some e → length e.row ≤ length x.now }
    ensures { result ≡ led_bit equation.now x.now wanted }
{
    match equation {
        Some(equation) => gap(equation, x),
        None => wanted,
    }
}

/// An equation once more.
fn copied(alloc: Global, equation: &Option<Equation>) -> Result<Option<Equation>, AllocError>
    ensures { IfOk result (λ copy. copy ≡ equation.now) }
{
    match equation {
        Some(equation) => Ok(Some(Equation {
            row: equation.row.copy(alloc)?,
            sum: equation.sum,
        })),
        None => Ok(None),
    }
}

/// Equations once more.
pub fn copied_equations(
    alloc: Global,
    rows: &[Option<Equation>],
) -> Result<Vec<Option<Equation>>, AllocError>
    ensures { IfOk result (λ copy. copy.items ≡ rows.now) }
{
    let mut copy = Vec::with_capacity(alloc, rows.len())?;
    for row in rows {
        copy.push(copied(alloc, row)?)?;
    }
    Ok(copy)
}
