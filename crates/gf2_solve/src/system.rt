//! A system of equations.
ghost use Rattle.std.specs.Prelude.{◌≡◌, ◌≤◌, ◌<◌, [], length, IfOk, OnOk, OnErr, MatchOption, replicate, None, IsTrue};
ghost use Rattle.gf2_solve.specs.Kept.{width_of, HasSolution, StandsFor, HasRowMore};
ghost use Rattle.gf2_solve.specs.Searches.{HasNone, IsNarrowed, IsFixed, Excludes};

use crate::bits::Bits;
use crate::elimination::{contradicts, insert, solution};
use crate::equation::{Equation, copied_equations};
use crate::row::Row;
use std::alloc::{AllocError, Global};
use std::marker::Model;

/// Homogeneous linear equations over GF(2): rows of bits, each of which has the sum 0 at a
/// solution.
///
/// At most as many equations are kept as a solution has bits, however many rows are added.
/// Contracts speak of solutions alone.
#[derive(Drop)]
pub struct System {
    /// At each bit the equation that leads there.
    rows: Vec<Option<Equation>>,
    /// Whether no equation contradicted the others.
    possible: bool,
}

impl Model for System {
    ghost use Rattle.gf2_solve.specs.Kept.{Kept, kept};
    ghost use Rattle.gf2_solve.specs.Equations.{AreLed};

    ghost Value = { Kept };

    ghost view = { λ a. kept a.rows.items a.possible };

    ghost invariant = { λ a. AreLed a.rows.items };
}

impl System {
    /// The system of no rows over so many bits.
    #[tactic(auto, using(crate::proofs::Systems::stands_none))]
    pub fn new(alloc: Global, n: u32) -> Result<System, AllocError>
        ensures { IfOk result (λ system. StandsFor system n []) }
    {
        Ok(System {
            rows: no_equations(alloc, n)?,
            possible: true,
        })
    }

    /// Adds a row. Bits past its end are 0, and those past the bits of a solution don't matter.
    pub fn add(&mut self, alloc: Global, row: &Bits) -> Result<(), AllocError>
        ensures ok { OnOk result (HasRowMore self.old row.now self.new) }
        ensures err { OnErr result (self.new ≡ self.old) }
    {
        let row = Row::front(alloc, row, self.width())?;
        self.narrow(Equation { row, sum: false });
        Ok(())
    }

    /// How many bits a solution has.
    pub(crate) fn width(&self) -> usize
        ensures { result ≡ width_of self.now }
    {
        self.rows.len()
    }

    /// The same system once more.
    pub(crate) fn copy(&self, alloc: Global) -> Result<System, AllocError>
        ensures { IfOk result (λ copy. copy ≡ self.now) }
    {
        Ok(System {
            rows: copied_equations(alloc, self.rows.as_slice())?,
            possible: self.possible,
        })
    }

    /// Adds an equation.
    fn narrow(&mut self, equation: Equation)
        requires { length equation.row ≤ width_of self.old }
        ensures { IsNarrowed self.old equation self.new }
    {
        if !insert(&mut self.rows, equation) {
            self.possible = false;
        }
    }

    /// Fixes a bit.
    pub(crate) fn fix(&mut self, alloc: Global, place: usize, value: bool) -> Result<(), AllocError>
        requires { place < width_of self.old }
        ensures { OnOk result (IsFixed self.old place value self.new) }
    {
        let row = Row::one(alloc, place)?;
        self.narrow(Equation { row, sum: value });
        Ok(())
    }

    /// Whether the equations leave no solution with this bit. Finding that out takes no copy of the
    /// system, as fixing the bit in one would.
    pub(crate) fn excludes(
        &self,
        alloc: Global,
        place: usize,
        value: bool,
    ) -> Result<bool, AllocError>
        requires { place < width_of self.now }
        ensures { IfOk result (λ none. IsTrue none → Excludes self.now place value) }
    {
        let row = Row::one(alloc, place)?;
        let equation = Equation { row, sum: value };
        Ok(contradicts(self.rows.as_slice(), equation))
    }

    /// The solution with the wanted bits where they are free: none where there is no solution.
    pub(crate) fn candidate(&self, alloc: Global, wanted: &Bits) -> Result<Option<Bits>, AllocError>
        ensures { IfOk result (λ x. MatchOption x (HasNone self.now) (HasSolution self.now)) }
    {
        if !self.possible {
            return Ok(None);
        }
        let x = solution(alloc, self.rows.as_slice(), wanted)?;
        Ok(Some(Bits(x)))
    }
}

/// So many bits at which no equation leads.
fn no_equations(alloc: Global, n: u32) -> Result<Vec<Option<Equation>>, AllocError>
    ensures { IfOk result (λ rows. rows.items ≡ replicate n None) }
{
    let mut rows = Vec::with_capacity(alloc, n as usize)?;
    for _i in 0..n {
        rows.push(None)?;
    }
    Ok(rows)
}
