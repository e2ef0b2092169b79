//! The text of a state.
//!
//! Chains come first, then arrays, each in text order.
//!
//! | line | text |
//! |---|---|
//! | chain | `chain <name> greatest <stamp>` |
//! | live entry, by rising index | `<index> <stamp>`, and ` <name>=<value>` for each label and free column in text order |
//! | array | `array <name>` |
//! | cell that differs from its opening value, by rising index | `<index> <value>` |
//!
//! Stamps are below 2^64; values of labels, free columns and cells are below 2^128.
ghost use Rattle.std.specs.Prelude.{◌≡◌, ◌+◌, ◌++◌, OnOk, IfOk, drop, take, length};
ghost use Rattle.std.specs.Prelude.{slice_get};
ghost use Rattle.nf_base.specs.Context.{or_zero};
ghost use Rattle.nf_base.specs.Functions.{function_of};
ghost use Rattle.run_history.specs.StateText.{column_text, columns_text, entry_text, slots_text, chain_text, chains_text, cell_text, cells_text, array_text, arrays_text, state_text, name_of};

use crate::text::{push_bytes, push_decimal, push_value};
use nf_base::decl::{ArrayDecl, ChainDecl, ColumnDecl, ColumnId};
use nf_base::func::Func;
use nf_base::indexed::Indexed;
use nf_base::state::{Chain, Entry, State};
use std::alloc::{AllocError, Global};

fn push_name(out: &mut Vec<u8>, columns: &[ColumnDecl], number: u32) -> Result<(), AllocError>
    ensures ok { OnOk result (out.new.items ≡ out.old.items ++ name_of columns.now number) }
{
    match columns.get(number as usize) {
        None => Ok(()),
        Some(column) => push_bytes(out, column.name.as_slice()),
    }
}

fn number_at(numbers: &[u128], at: u32) -> u128
    ensures { result ≡ or_zero (slice_get numbers.now at) }
{
    match numbers.get(at as usize) {
        None => 0,
        Some(number) => *number,
    }
}

fn push_column(
    out: &mut Vec<u8>,
    decl: &ChainDecl,
    entry: &Entry,
    column: ColumnId,
) -> Result<(), AllocError>
    ensures ok { OnOk result (out.new.items ≡ out.old.items ++ column_text decl.now entry.now column) }
{
    push_bytes(out, b" ")?;
    match column {
        ColumnId::Label(number) => {
            push_name(out, decl.labels.as_slice(), number)?;
            push_bytes(out, b"=")?;
            push_value(out, number_at(entry.labels.as_slice(), number))
        }
        ColumnId::Column(number) => {
            push_name(out, decl.columns.as_slice(), number)?;
            push_bytes(out, b"=")?;
            push_value(out, number_at(entry.columns.as_slice(), number))
        }
    }
}

fn push_columns(
    out: &mut Vec<u8>,
    decl: &ChainDecl,
    entry: &Entry,
    columns: &[ColumnId],
) -> Result<(), AllocError>
    ensures ok { OnOk result (out.new.items ≡ out.old.items ++ columns_text decl.now entry.now columns.now) }
{
    for column in columns {
        push_column(out, decl, entry, *column)?;
    }
    Ok(())
}

fn push_slot(
    out: &mut Vec<u8>,
    decl: &ChainDecl,
    index: u32,
    slot: &Option<Entry>,
) -> Result<(), AllocError>
    ensures ok { OnOk result (out.new.items ≡ out.old.items ++ entry_text decl.now index slot.now) }
{
    let Some(entry) = slot else {
        return Ok(());
    };
    push_decimal(out, u64::from(index))?;
    push_bytes(out, b" ")?;
    push_decimal(out, entry.stamp)?;
    push_columns(out, decl, entry, decl.order.as_slice())?;
    push_bytes(out, b"\n")
}

fn push_slots(
    out: &mut Vec<u8>,
    decl: &ChainDecl,
    slots: &Indexed<Option<Entry>>,
) -> Result<(), AllocError>
    ensures ok { OnOk result (out.new.items ≡ out.old.items ++ slots_text decl.now 0 slots.now) }
{
    for index in 0..slots.len() {
        push_slot(out, decl, index, slots.item(index))?;
    }
    Ok(())
}

fn push_chain(out: &mut Vec<u8>, decl: &ChainDecl, chain: &Chain) -> Result<(), AllocError>
    ensures ok { OnOk result (out.new.items ≡ out.old.items ++ chain_text decl.now chain.now) }
{
    push_bytes(out, b"chain ")?;
    push_bytes(out, decl.name.as_slice())?;
    push_bytes(out, b" greatest ")?;
    push_decimal(out, chain.greatest)?;
    push_bytes(out, b"\n")?;
    push_slots(out, decl, &chain.slots)
}

fn push_chains(out: &mut Vec<u8>, decls: &[ChainDecl], chains: &[Chain]) -> Result<(), AllocError>
    ensures ok { OnOk result (out.new.items ≡ out.old.items ++ chains_text decls.now chains.now) }
{
    let count = decls.len().min(chains.len());
    for k in 0..count {
        push_chain(out, &decls[k], &chains[k])?;
    }
    Ok(())
}

fn push_cell(out: &mut Vec<u8>, index: u32, opening: u128, cell: u128) -> Result<(), AllocError>
    ensures ok { OnOk result (out.new.items ≡ out.old.items ++ cell_text index opening cell) }
{
    if cell == opening {
        return Ok(());
    }
    push_decimal(out, u64::from(index))?;
    push_bytes(out, b" ")?;
    push_value(out, cell)?;
    push_bytes(out, b"\n")
}

fn push_cells(
    out: &mut Vec<u8>,
    opening: &Indexed<u128>,
    cells: &Indexed<u128>,
) -> Result<(), AllocError>
    ensures ok { OnOk result (out.new.items ≡ out.old.items ++ cells_text 0 opening.now cells.now) }
{
    let count = opening.len().min(cells.len());
    for index in 0..count {
        push_cell(out, index, *opening.item(index), *cells.item(index))?;
    }
    Ok(())
}

fn push_array(out: &mut Vec<u8>, decl: &ArrayDecl, cells: &Indexed<u128>) -> Result<(), AllocError>
    ensures ok { OnOk result (out.new.items ≡ out.old.items ++ array_text decl.now cells.now) }
{
    push_bytes(out, b"array ")?;
    push_bytes(out, decl.name.as_slice())?;
    push_bytes(out, b"\n")?;
    push_cells(out, &decl.cells, cells)
}

fn push_arrays(
    out: &mut Vec<u8>,
    decls: &[ArrayDecl],
    arrays: &[Indexed<u128>],
) -> Result<(), AllocError>
    ensures ok { OnOk result (out.new.items ≡ out.old.items ++ arrays_text decls.now arrays.now) }
{
    let count = decls.len().min(arrays.len());
    for k in 0..count {
        push_array(out, &decls[k], &arrays[k])?;
    }
    Ok(())
}

/// The text of a state of this function.
pub fn state_text(alloc: Global, func: &Func, state: &State) -> Result<Vec<u8>, AllocError>
    ensures { IfOk result (λ v. v.items ≡ state_text (function_of func.now) state.now) }
{
    let mut out = Vec::new(alloc);
    push_chains(&mut out, func.chains.as_slice(), state.chains.as_slice())?;
    push_arrays(&mut out, func.arrays.as_slice(), state.arrays.as_slice())?;
    Ok(out)
}
