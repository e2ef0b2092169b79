//! Rows of numbers.
ghost use Rattle.std.specs.Prelude.{◌≡◌, ℕ, ◌≤◌, ◌<◌, ◌+◌, ◌*◌, ◌++◌, max, length, replicate, IfOk, slice_set};
ghost use Rattle.std.specs.Vec.{vec_capacity};
ghost use Rattle.vig_tables.specs.Grid.{grid_of, row_at, with_row};

use std::alloc::{AllocError, Global};
use std::marker::Model;

/// At most 65,536 rows of at most 136 numbers each, all of one width, in one array.
///
/// Contracts see them as the list of the rows beside their width. The memory is taken at once, but
/// touched only as far as a row was written.
#[derive(Drop)]
pub struct Rows {
    /// How many rows there are.
    count: u32,
    width: u32,
    /// How many rows stand in `cells`: those behind them are zeros.
    written: u32,
    /// Row after row.
    cells: Vec<u128>,
    /// A row of zeros.
    zeros: Vec<u128>,
}

impl Model for Rows {
    ghost use Rattle.std.specs.Prelude.{◌*◌};
    ghost use Rattle.std.specs.Vec.{vec_capacity};
    ghost use Rattle.vig_tables.specs.Grid.{Grid, grid_of, filled, HasCells};

    ghost Value = { Grid };

    ghost view = { λ a. grid_of a.count a.width (filled (a.count * a.width) a.cells.items) };

    ghost invariant = { λ a.
        HasCells a.count a.width a.written a.cells.items (vec_capacity a.cells) a.zeros.items };
}

impl Rows {
    /// So many rows of zeros.
    pub fn new(alloc: Global, count: u32, width: u32) -> Result<Rows, AllocError>
        requires few { count ≤ 65536 }
        requires narrow { width ≤ 136 }
        ensures { IfOk result (λ rows.
            rows ≡ record { width = width; rows = replicate count (replicate width 0) }) }
    {
        let cells = Vec::with_capacity(alloc, count as usize * width as usize)?;
        let zeros = zeros(alloc, width as usize)?;
        Ok(Rows {
            count,
            width,
            written: 0,
            cells,
            zeros,
        })
    }

    /// A row.
    #[inline]
    pub fn row(&self, i: u32) -> &[u128]
        requires { i < length self.now.rows }
        ensures value { result.now ≡ row_at self.now i }
        ensures wide { length result.now ≡ self.now.width }
        ensures few { i < 65536 }
    {
        if i >= self.written {
            return self.zeros.as_slice();
        }
        let width = self.width as usize;
        let start = i as usize * width;
        &self.cells[start..start + width]
    }

    /// Writes a row over another.
    pub fn set_row(&mut self, i: u32, row: &[u128])
        requires within { i < length self.old.rows }
        requires wide { length row.now ≡ self.old.width }
        ensures { self.new ≡ with_row i row.now self.old }
    {
        self.written = reach(&mut self.cells, self.written, i, self.width);
        let width = self.width as usize;
        let start = i as usize * width;
        self.cells[start..start + width].copy_from_slice(row);
    }

    /// Makes every number of a row 0.
    pub fn clear_row(&mut self, i: u32)
        requires { i < length self.old.rows }
        ensures { self.new ≡ with_row i (replicate self.old.width 0) self.old }
    {
        if i >= self.written {
            return;
        }
        let width = self.width as usize;
        let start = i as usize * width;
        self.cells[start..start + width].fill(0);
    }

    /// Writes one number of a row; past the end of the row nothing.
    pub fn set(&mut self, i: u32, column: u32, value: u128)
        requires { i < length self.old.rows }
        ensures { self.new ≡ with_row i (slice_set (row_at self.old i) column value) self.old }
    {
        if column < self.width {
            self.written = reach(&mut self.cells, self.written, i, self.width);
            let at = i as usize * self.width as usize + column as usize;
            self.cells[at] = value;
        }
    }

    /// The same rows once more.
    pub fn copy(&self, alloc: Global) -> Result<Rows, AllocError>
        ensures { IfOk result (λ copy. copy ≡ self.now) }
    {
        let mut cells = Vec::with_capacity(alloc, self.count as usize * self.width as usize)?;
        cells.extend_from_slice(self.cells.as_slice())?;
        let zeros = Vec::from_slice(alloc, self.zeros.as_slice())?;
        Ok(Rows {
            count: self.count,
            width: self.width,
            written: self.written,
            cells,
            zeros,
        })
    }
}

/// So many zeros.
fn zeros(alloc: Global, count: usize) -> Result<Vec<u128>, AllocError>
    ensures { IfOk result (λ zeros. zeros.items ≡ replicate count 0) }
{
    let zeros = vec![in alloc; 0u128; count]?;
    Ok(zeros)
}

/// Lets a row stand in the cells of so many rows, and those before it, and says how many do then.
fn reach(cells: &mut Vec<u128>, written: u32, i: u32, width: u32) -> u32
    requires narrow { width ≤ 136 }
    requires few { i < 65536 }
    requires each { length cells.old.items ≡ written * width }
    requires room { (i + 1) * width ≤ vec_capacity cells.old }
    ensures within { i < result }
    ensures least { result ≤ max written (i + 1) }
    ensures each { length cells.new.items ≡ result * width }
    ensures zeros { (k : ℕ) × (cells.new.items ≡ cells.old.items ++ replicate k 0) }
    ensures room { vec_capacity cells.new ≡ vec_capacity cells.old }
{
    if i < written {
        return written;
    }
    push_zeros(cells, (i + 1) as usize * width as usize);
    i + 1
}

/// Pushes zeros up to a length, for which there is room.
#[inline(never)]
fn push_zeros(cells: &mut Vec<u128>, end: usize)
    requires within { length cells.old.items ≤ end }
    requires room { end ≤ vec_capacity cells.old }
    ensures items { (k : ℕ) × (cells.new.items ≡ cells.old.items ++ replicate k 0) }
    ensures len { length cells.new.items ≡ end }
    ensures room { vec_capacity cells.new ≡ vec_capacity cells.old }
{
    for _at in cells.len()..end {
        cells.push_reserved(0);
    }
}
