ghost use Rattle.std.specs.Prelude.{◌≡◌, IfOk};

use crate::indexed::Indexed;
use crate::limited::Limited;
use crate::size::Size;
use crate::width::Width;
use std::alloc::{AllocError, Global};

/// A declared name, in ASCII.
pub type Name = Limited<u8, 32>;

/// A label or a free column of a chain.
#[derive(Drop)]
pub struct ColumnDecl {
    pub name: Name,
    pub width: Width,
}

/// A map of a chain: its key is `parts` of the chain's labels, from `first` on.
#[derive(Drop)]
pub struct MapDecl {
    pub name: Name,
    pub first: u32,
    pub parts: u32,
}

/// A label or a free column of a chain, by its number among the labels or the columns.
#[derive(Clone, Copy, Debug, PartialEq, Eq)]
pub enum ColumnId {
    Label(u32),
    Column(u32),
}

/// What a function remembers something in: a chain or an array, by its number among them.
#[derive(Clone, Copy, Debug, PartialEq, Eq)]
pub enum ObjectId {
    Chain(u32),
    Array(u32),
}

/// A chain: entries by index, each with labels and columns, given up after a lifetime.
///
/// Its labels are the key parts of its maps and its fixed columns, in text order.
#[derive(Drop)]
pub struct ChainDecl {
    pub name: Name,
    /// How many indices it has.
    pub size: Size,
    /// How long an entry stays after its stamp, in nanoseconds.
    pub lifetime: u64,
    /// At most 8 parts for each of 16 maps, and 8 fixed columns.
    pub labels: Limited<ColumnDecl, 136>,
    /// The free columns, which a handler may write.
    pub columns: Limited<ColumnDecl, 8>,
    pub maps: Limited<MapDecl, 16>,
    /// The labels and columns in text order.
    pub order: Limited<ColumnId, 144>,
}

/// An array of cells.
#[derive(Drop)]
pub struct ArrayDecl {
    pub name: Name,
    pub width: Width,
    /// What the cells hold before the first packet.
    pub cells: Indexed<u128>,
}

impl ColumnDecl {
    pub fn copy(&self, alloc: Global) -> Result<ColumnDecl, AllocError>
        ensures { IfOk result (λ copy. copy ≡ self.now) }
    {
        Ok(ColumnDecl {
            name: self.name.copy(alloc)?,
            width: self.width,
        })
    }
}

impl MapDecl {
    pub fn copy(&self, alloc: Global) -> Result<MapDecl, AllocError>
        ensures { IfOk result (λ copy. copy ≡ self.now) }
    {
        Ok(MapDecl {
            name: self.name.copy(alloc)?,
            first: self.first,
            parts: self.parts,
        })
    }
}

fn copied_columns<const MOST: u32>(
    alloc: Global,
    columns: &Limited<ColumnDecl, MOST>,
) -> Result<Limited<ColumnDecl, MOST>, AllocError>
    ensures { IfOk result (λ copy. copy ≡ columns.now) }
{
    let mut all = Limited::new(alloc);
    for one in columns.as_slice() {
        all.push(one.copy(alloc)?)?;
    }
    Ok(all)
}

fn copied_maps(
    alloc: Global,
    maps: &Limited<MapDecl, 16>,
) -> Result<Limited<MapDecl, 16>, AllocError>
    ensures { IfOk result (λ copy. copy ≡ maps.now) }
{
    let mut all = Limited::new(alloc);
    for one in maps.as_slice() {
        all.push(one.copy(alloc)?)?;
    }
    Ok(all)
}

impl ChainDecl {
    pub fn copy(&self, alloc: Global) -> Result<ChainDecl, AllocError>
        ensures { IfOk result (λ copy. copy ≡ self.now) }
    {
        Ok(ChainDecl {
            name: self.name.copy(alloc)?,
            size: self.size,
            lifetime: self.lifetime,
            labels: copied_columns(alloc, &self.labels)?,
            columns: copied_columns(alloc, &self.columns)?,
            maps: copied_maps(alloc, &self.maps)?,
            order: self.order.copy(alloc)?,
        })
    }
}

impl ArrayDecl {
    pub fn copy(&self, alloc: Global) -> Result<ArrayDecl, AllocError>
        ensures { IfOk result (λ copy. copy ≡ self.now) }
    {
        Ok(ArrayDecl {
            name: self.name.copy(alloc)?,
            width: self.width,
            cells: self.cells.copy(alloc)?,
        })
    }
}
