//! The labels, maps and columns of a chain.

ghost use Rattle.std.specs.Prelude.{◌≡◌, ◌+◌, ◌<◌, ◌≤◌, [], ◌∷◌, ◌++◌, length, map, fold, IfOk, OnOk};
ghost use Rattle.nf_tree.specs.declared.tree.ColumnKind.TheVariants as kinds;
ghost use Rattle.nf_tree.specs.declared.tree.Part.TheVariants as parts;
ghost use Rattle.nf_types.specs.Answers.{Finds};
ghost use Rattle.nf_types.specs.Declarations.{width_of, column_of, with_label, with_label_of, with_map, with_column, with_part};
ghost use Rattle.nf_types.specs.DeclarationFaults.{width_faults, names_column, names_map, label_faults, labels_faults, map_name_faults, map_faults, columns_before, one_if_fixed, column_faults};
ghost use Rattle.nf_types.specs.Faults.{first, fault_in};
ghost use Rattle.nf_types.specs.Roomy.{IsRoomy};

use crate::fault::{Fault, TypingFault, TypingKind, refuse_if};
use crate::name::{copied, is_among, short};
use nf_base::decl::{ChainDecl, ColumnDecl, ColumnId, MapDecl, Name};
use nf_base::width::Width;
use nf_tree::{ColumnKind, ColumnTree, Label, Literal, MapTree};
use std::alloc::{AllocError, Global};

/// How many parts the key of a map may have.
const MOST_PARTS: usize = 8;

/// How many maps a function may have.
const MOST_MAPS: u32 = 16;

/// How many fixed columns a chain may have, and how many free ones.
const MOST_COLUMNS: u32 = 8;

/// The width of so many bits.
pub fn width(bits: &Literal) -> Result<Width, TypingFault>
    ensures { Finds (λ w. w) (width_faults bits.now) (width_of bits.now.value) result }
{
    match bits.value {
        8 => Ok(Width::W8),
        16 => Ok(Width::W16),
        32 => Ok(Width::W32),
        48 => Ok(Width::W48),
        64 => Ok(Width::W64),
        128 => Ok(Width::W128),
        _ => Err(TypingFault::Broken(Fault {
            kind: TypingKind::Limit,
            place: bits.place,
        })),
    }
}

fn names_column(chain: &ChainDecl, name: &[u8]) -> bool
    ensures { result ≡ names_column chain.now name.now }
{
    is_among(name, chain.labels.as_slice()) || is_among(name, chain.columns.as_slice())
}

/// A label behind so many others of its map.
#[tactic(auto, using(crate::proofs::First::first_append), unfolding(crate::specs::DeclarationFaults::label_faults))]
fn label(
    alloc: Global,
    chain: &ChainDecl,
    number: usize,
    label: &Label,
) -> Result<ColumnDecl, TypingFault>
    ensures found { Finds (λ x. x) (label_faults chain.now number label.now)
        (column_of label.now.name label.now.width) result }
    ensures few { IfOk result (λ x. number ≤ 7) }
{
    let place = label.name.place;
    let is_taken = names_column(chain, label.name.bytes.as_slice());
    refuse_if(is_taken, TypingKind::Twice, place)?;
    refuse_if(number >= MOST_PARTS, TypingKind::Limit, place)?;
    short(&label.name)?;
    let width = width(&label.width)?;
    let name = copied(alloc, &label.name)?;
    Ok(ColumnDecl { name, width })
}

/// One label more. A chain for which memory runs out is given up by who holds it, here and below.
fn put_label(chain: &mut ChainDecl, label: ColumnDecl) -> Result<(), AllocError>
    requires labels { length chain.old.labels < 136 }
    requires order { length chain.old.order < 144 }
    ensures { OnOk result (chain.new ≡ with_label chain.old label) }
{
    let number = chain.labels.len();
    chain.labels.push(label)?;
    chain.order.push(ColumnId::Label(number))?;
    Ok(())
}

/// The labels of a map.
fn labels(alloc: Global, chain: &mut ChainDecl, labels: &[Label]) -> Result<(), TypingFault>
    requires labels { length chain.old.labels ≤ 128 }
    requires order { length chain.old.order ≤ 136 }
    ensures found { Finds (λ _. chain.new) (labels_faults chain.old 0 labels.now)
        (fold with_label_of chain.old labels.now) result }
    ensures few { OnOk result (length labels.now ≤ 8) }
    ensures labels { OnOk result (length chain.new.labels
        ≡ length chain.old.labels + length labels.now) }
    ensures order { OnOk result (length chain.new.order
        ≡ length chain.old.order + length labels.now) }
    ensures columns { OnOk result (chain.new.columns ≡ chain.old.columns) }
    ensures maps { OnOk result (chain.new.maps ≡ chain.old.maps) }
{
    for (i, one) in labels.iter().enumerate() {
        let column = label(alloc, &*chain, i, one)?;
        put_label(chain, column)?;
    }
    Ok(())
}

/// One map more, whose key is so many labels from a first one on.
fn put_map(chain: &mut ChainDecl, name: Name, first: u32, parts: u32) -> Result<(), AllocError>
    requires maps { length chain.old.maps < 16 }
    ensures { OnOk result (chain.new ≡ with_map chain.old name first parts) }
{
    chain.maps.push(MapDecl { name, first, parts })?;
    Ok(())
}

fn names_map(chain: &ChainDecl, name: &[u8]) -> bool
    ensures { result ≡ names_map chain.now name.now }
{
    is_among(name, chain.maps.as_slice())
}

/// The first fault of a map's name, behind so many maps of other chains.
#[tactic(auto, using(crate::proofs::First::first_append), unfolding(crate::specs::DeclarationFaults::map_name_faults))]
fn map_name(maps: u32, chain: &ChainDecl, tree: &MapTree) -> Result<(), Fault>
    requires maps { maps ≤ 16 }
    ensures fault { first (map_name_faults maps chain.now tree.now) ≡ fault_in result }
    ensures few { OnOk result (maps + length chain.now.maps ≤ 15) }
    ensures short { OnOk result (length tree.now.name.bytes ≤ 32) }
{
    let is_many = maps + chain.maps.len() >= MOST_MAPS;
    refuse_if(is_many, TypingKind::Limit, tree.place)?;
    let is_taken = names_map(chain, tree.name.bytes.as_slice());
    refuse_if(is_taken, TypingKind::Twice, tree.name.place)?;
    short(&tree.name)
}

/// One map more, behind so many maps of other chains.
#[tactic(auto, using(crate::proofs::First::first_append), unfolding(crate::specs::DeclarationFaults::map_faults))]
pub fn map(
    alloc: Global,
    maps: u32,
    fixed: u32,
    chain: &mut ChainDecl,
    tree: &MapTree,
) -> Result<(), TypingFault>
    requires maps { maps ≤ 16 }
    requires fixed { fixed ≤ 8 }
    requires roomy { IsRoomy fixed chain.old }
    ensures found { Finds (λ _. chain.new) (map_faults maps chain.old tree.now)
        (with_part chain.old (parts.Map tree.now)) result }
    ensures few { OnOk result (maps + length chain.new.maps ≤ 16) }
    ensures roomy { OnOk result (IsRoomy fixed chain.new) }
{
    map_name(maps, &*chain, tree)?;
    let first = chain.labels.len();
    labels(alloc, chain, tree.labels.as_slice())?;
    let parts = tree.labels.len() as u32;
    let name = copied(alloc, &tree.name)?;
    put_map(chain, name, first, parts)?;
    Ok(())
}

/// One free column more.
fn put_free(chain: &mut ChainDecl, column: ColumnDecl) -> Result<(), AllocError>
    requires columns { length chain.old.columns < 8 }
    requires order { length chain.old.order < 144 }
    ensures { OnOk result (chain.new ≡ with_column kinds.Free chain.old column) }
{
    let number = chain.columns.len();
    chain.columns.push(column)?;
    chain.order.push(ColumnId::Column(number))?;
    Ok(())
}

/// One column more, behind so many fixed ones.
pub fn put_column(
    fixed: u32,
    chain: &mut ChainDecl,
    kind: ColumnKind,
    column: ColumnDecl,
) -> Result<(), AllocError>
    requires few { columns_before kind fixed chain.old ≤ 7 }
    requires fixed { fixed ≤ 8 }
    requires roomy { IsRoomy fixed chain.old }
    ensures found { OnOk result (chain.new ≡ with_column kind chain.old column) }
    ensures roomy { OnOk result (IsRoomy (fixed + one_if_fixed kind) chain.new) }
{
    match kind {
        ColumnKind::Fixed => put_label(chain, column),
        ColumnKind::Free => put_free(chain, column),
    }
}

/// How many columns of a kind stand before.
fn columns_before(kind: ColumnKind, fixed: u32, chain: &ChainDecl) -> u32
    ensures { result ≡ columns_before kind fixed chain.now }
{
    match kind {
        ColumnKind::Fixed => fixed,
        ColumnKind::Free => chain.columns.len(),
    }
}

/// A column behind so many fixed ones of its chain.
#[tactic(auto, using(crate::proofs::First::first_append), unfolding(crate::specs::DeclarationFaults::column_faults))]
pub fn column(
    alloc: Global,
    fixed: u32,
    chain: &ChainDecl,
    tree: &ColumnTree,
) -> Result<ColumnDecl, TypingFault>
    ensures found { Finds (λ c. c) (column_faults fixed chain.now tree.now)
        (column_of tree.now.name tree.now.width) result }
    ensures few { IfOk result (λ c. columns_before tree.now.kind fixed chain.now ≤ 7) }
{
    let before = columns_before(tree.kind, fixed, chain);
    refuse_if(before >= MOST_COLUMNS, TypingKind::Limit, tree.place)?;
    let is_taken = names_column(chain, tree.name.bytes.as_slice());
    refuse_if(is_taken, TypingKind::Twice, tree.name.place)?;
    short(&tree.name)?;
    let width = width(&tree.width)?;
    let name = copied(alloc, &tree.name)?;
    Ok(ColumnDecl { name, width })
}
