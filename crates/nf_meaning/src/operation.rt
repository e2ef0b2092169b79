// What a statement without a block of its own does.
ghost use Rattle.std.specs.Prelude.{◌≡◌, ◌++◌, ◌∷◌, [], List, ℕ, IfOk, OnOk, map, slice_get, slice_set, None, Some};
ghost use Rattle.nf_base.specs.Context.{var_at};
ghost use Rattle.nf_base.specs.Chains.{chain_at, array_at, touched, freed, written};
ghost use Rattle.nf_base.specs.Operations.{after, on_var, without, unless_at, edited};
ghost use Rattle.nf_base.specs.View.{operation_of};
ghost use Rattle.nf_meaning.specs.View.{context_of, input_of};

use crate::chain;
use crate::context::{Context, Input, var_at};
use crate::entry_ref::EntryRef;
use crate::values::{given, value};
use nf_base::block::Operation;
use nf_base::done::Edits;
use nf_base::indexed::Indexed;
use nf_base::packet::Field;
use nf_base::seq::Seq;
use nf_base::state::Chain;
use nf_base::value::narrowed;
use nf_base::width::Width;
use std::alloc::{AllocError, Global};

fn touch(chains: &mut Seq<Chain>, time: u64, var: Option<EntryRef>)
    ensures { chains.new ≡ on_var (touched time) var chains.old }
{
    let Some(at) = var else {
        return;
    };
    if (at.chain() as usize) < chains.len() {
        chain::touch(chains.item_mut(at.chain() as usize), time, at.index());
    }
}

fn write(chains: &mut Seq<Chain>, var: Option<EntryRef>, column: u32, v: u128)
    ensures { chains.new ≡ on_var (written column v) var chains.old }
{
    let Some(at) = var else {
        return;
    };
    if (at.chain() as usize) < chains.len() {
        chain::write(chains.item_mut(at.chain() as usize), at.index(), column, v);
    }
}

fn free(chains: &mut Seq<Chain>, var: Option<EntryRef>)
    ensures { chains.new ≡ on_var freed var chains.old }
{
    let Some(at) = var else {
        return;
    };
    if (at.chain() as usize) < chains.len() {
        chain::free(chains.item_mut(at.chain() as usize), at.index());
    }
}

fn forget(
    alloc: Global,
    vars: &[Option<EntryRef>],
    gone: EntryRef,
) -> Result<Vec<Option<EntryRef>>, AllocError>
    ensures { IfOk result (λ v. v.items ≡ map (unless_at gone) vars.now) }
{
    vars.iter().map(|var| gone.unless_here(*var)).collect(alloc)
}

/// The variables after the entry of one was freed.
fn without(
    alloc: Global,
    vars: &mut Seq<Option<EntryRef>>,
    var: &Option<EntryRef>,
) -> Result<(), AllocError>
    ensures { OnOk result (vars.new ≡ without var.now vars.old) }
{
    let Some(gone) = var else {
        return Ok(());
    };
    let left = forget(alloc, vars.as_slice(), *gone)?;
    *vars = Seq::from_vec(left);
    Ok(())
}

fn set(edits: &mut Edits, field: Field, v: u128)
    ensures { edits.new ≡ edited field v edits.old }
{
    match field {
        Field::SrcMac => edits.src_mac = Some((v % 0x1_0000_0000_0000) as u64),
        Field::DstMac => edits.dst_mac = Some((v % 0x1_0000_0000_0000) as u64),
        Field::SrcIp => edits.src_ip = Some((v % 0x1_0000_0000) as u64),
        Field::DstIp => edits.dst_ip = Some((v % 0x1_0000_0000) as u64),
        Field::SrcIp6 => edits.src_ip6 = Some(v),
        Field::DstIp6 => edits.dst_ip6 = Some(v),
        Field::Ttl => edits.ttl = Some((v % 0x100) as u64),
        Field::SrcPort => edits.src_port = Some((v % 0x1_0000) as u64),
        Field::DstPort => edits.dst_port = Some((v % 0x1_0000) as u64),
        Field::Time => {}
        Field::Length => {}
        Field::Proto => {}
    }
}

fn store_in(cells: &mut Indexed<u128>, i: u128, v: u128)
    ensures { cells.new ≡ slice_set cells.old i v }
{
    if i < u128::from(cells.len()) {
        cells.set(i as u32, v);
    }
}

fn store(arrays: &mut Seq<Indexed<u128>>, array: u32, i: u128, v: u128)
    ensures { arrays.new ≡ slice_set arrays.old array (slice_set (array_at arrays.old array) i v) }
{
    if (array as usize) < arrays.len() {
        store_in(arrays.item_mut(array as usize), i, v);
    }
}

pub fn operate(
    alloc: Global,
    context: &mut Context,
    p: &Input,
    operation: &Operation,
) -> Result<(), AllocError>
    ensures done { OnOk result ((left : List ℕ) →
        context_of left context.new
        ≡ after (input_of p.now) (context_of left context.old) (operation_of operation.now)) }
    ensures picks { context.new.picks ≡ context.old.picks }
    ensures full { context.new.full ≡ context.old.full }
{
    match operation {
        Operation::Touch { var } => {
            let at = var_at(context.vars.as_slice(), *var);
            touch(&mut context.state.chains, p.time, at);
        }
        Operation::Free { var } => {
            let at = var_at(context.vars.as_slice(), *var);
            without(alloc, &mut context.vars, &at)?;
            free(&mut context.state.chains, at);
        }
        Operation::Set { field, given: g } => {
            let v = given(context, p, g);
            set(&mut context.edits, *field, v);
        }
        Operation::Write {
            var,
            column,
            given: g,
        } => {
            let v = given(context, p, g);
            let at = var_at(context.vars.as_slice(), *var);
            write(&mut context.state.chains, at, *column, v);
        }
        Operation::Store {
            array,
            at,
            given: g,
            ..
        } => {
            let i = narrowed(Width::W16, value(context, p, at));
            let v = given(context, p, g);
            store(&mut context.state.arrays, *array, i, v);
        }
    }
    Ok(())
}
