//! Trees for the bits of keys that are not the default key's.
ghost use Rattle.std.specs.Prelude.{◌≡◌, ◌<◌, ◌≤◌, ◌∷◌, [], ℕ, List, true, OnOk, Some, None, length, set, if◌then◌else◌};
ghost use Rattle.gf2_solve.specs.Sums.{plus, bit};
ghost use Rattle.certificate_laws.specs.Fixed.{none_fixed};
ghost use Rattle.certificate_laws.specs.Terms.{rows_at};
ghost use Rattle.certificate_laws.specs.Trees.{IsRefuted};
ghost use Rattle.certificate_laws.specs.Laws.{AreRefuted};
ghost use Rattle.certificate_laws.specs.Due.{Due, Naming, Whole, nots};
ghost use Rattle.certificate_write.specs.Sayable.{IsPlace};
ghost use Rattle.certificate_prove.specs.Growing.{AreNameable};
ghost use Rattle.key_certificate.specs.Plain.{Leads};

use certificate_laws::{Line, Span};
use certificate_prove::grow;
use nf_base::card::TableSize;
use nf_base::seq::Seq;
use std::alloc::{AllocError, Global};

/// What trees rest on: rows and spans over the bits of keys.
#[derive(Drop)]
pub struct Ground {
    pub table: TableSize,
    pub rows: Seq<Seq<u32>>,
    pub spans: Seq<Span>,
}

/// The bits of keys, those of the default key, and which count.
#[derive(Drop)]
pub struct Vectors {
    pub own: Vec<bool>,
    pub wanted: Vec<bool>,
    pub counts: Vec<bool>,
}

/// Writes the name of a bit, and a tree with the wanted one.
#[tactic(auto, using(crate::proofs::Nots::leads_name, crate::proofs::Nots::leads_tree, crate::proofs::Nots::leads_both))]
fn push_tree(
    alloc: Global,
    positions: &[u32],
    ground: &Ground,
    fixed: &mut [Option<bool>],
    place: usize,
    wanted: bool,
    out: &mut Vec<Line>,
) -> Result<(), AllocError>
    requires nameable { AreNameable ground.now.table positions.now (length fixed.old)
        ground.now.rows ground.now.spans }
    requires inside { place < length fixed.old }
    requires counts { IsPlace positions.now place }
    requires refuted { IsRefuted (rows_at ground.now.rows) ground.now.spans
        (set fixed.old place (Some wanted)) }
    ensures fixed { OnOk result (fixed.new ≡ set fixed.old place (Some wanted)) }
    ensures leads { OnOk result ((rest : List Due) →
        Leads ground.now.table positions.now ground.now.rows ground.now.spans
        (Naming place ∷ Whole (set fixed.old place (Some wanted)) ∷ rest) rest
        out.old.items out.new.items) }
{
    out.push(Line::Not(place as u32))?;
    fixed[place] = Some(wanted);
    grow(
        alloc,
        ground.table,
        positions,
        ground.rows.as_slice(),
        ground.spans.as_slice(),
        fixed,
        out,
    )
}

/// Writes a tree for a bit that counts, where it isn't the wanted one, and fixes it to its own.
#[tactic(auto, using(crate::proofs::Nots::leads_on, crate::proofs::Nots::set_twice))]
fn push_bit(
    alloc: Global,
    positions: &[u32],
    ground: &Ground,
    fixed: &mut [Option<bool>],
    place: usize,
    wanted: bool,
    own: bool,
    out: &mut Vec<Line>,
) -> Result<(), AllocError>
    requires nameable { AreNameable ground.now.table positions.now (length fixed.old)
        ground.now.rows ground.now.spans }
    requires inside { place < length fixed.old }
    requires counts { IsPlace positions.now place }
    requires refuted { plus own wanted ≡ true →
        IsRefuted (rows_at ground.now.rows) ground.now.spans (set fixed.old place (Some wanted)) }
    ensures fixed { OnOk result (fixed.new ≡ set fixed.old place (Some own)) }
    ensures leads { OnOk result ((rest : List Due) →
        Leads ground.now.table positions.now ground.now.rows ground.now.spans
        (if plus own wanted then Naming place ∷ Whole (set fixed.old place (Some wanted)) ∷ rest
        else rest) rest out.old.items out.new.items) }
{
    if differ(own, wanted) {
        push_tree(alloc, positions, ground, fixed, place, wanted, out)?;
    }
    fixed[place] = Some(own);
    Ok(())
}

fn differ(a: bool, b: bool) -> bool
    ensures { result ≡ plus a b }
{
    a ^ b
}

fn bit_at(bits: &[bool], place: usize) -> bool
    requires { place < length bits.now }
    ensures { result ≡ bit bits.now place }
{
    bits[place]
}

/// Writes a tree for each bit that counts and isn't the wanted one, where nothing is fixed yet.
#[tactic(auto, using(crate::proofs::Nots::nots_none, crate::proofs::Nots::nots_left, crate::proofs::Nots::nots_more, crate::proofs::Nots::nots_all, crate::proofs::Nots::nameable_here, crate::proofs::Nots::refuted_here))]
fn push_each(
    alloc: Global,
    positions: &[u32],
    ground: &Ground,
    vectors: &Vectors,
    fixed: &mut [Option<bool>],
    out: &mut Vec<Line>,
) -> Result<(), AllocError>
    requires fixed { fixed.old ≡ none_fixed (length vectors.now.own.items) }
    requires nameable { AreNameable ground.now.table positions.now
        (length vectors.now.own.items) ground.now.rows ground.now.spans }
    requires wanted { length vectors.now.wanted.items ≡ length vectors.now.own.items }
    requires counts { length vectors.now.counts.items ≡ length vectors.now.own.items }
    requires places { (place : ℕ) → bit vectors.now.counts.items place ≡ true
        → IsPlace positions.now place }
    requires refuted { AreRefuted (bit vectors.now.counts.items) (rows_at ground.now.rows)
        ground.now.spans (length vectors.now.own.items) vectors.now.wanted.items
        vectors.now.own.items }
    ensures { OnOk result (Leads ground.now.table positions.now ground.now.rows ground.now.spans
        (nots (bit vectors.now.counts.items) (length vectors.now.own.items) vectors.now.wanted.items
        vectors.now.own.items (length vectors.now.own.items) 0) [] out.old.items out.new.items) }
{
    let own = vectors.own.as_slice();
    let wanted = vectors.wanted.as_slice();
    let counts = vectors.counts.as_slice();
    for place in 0..own.len() {
        if !bit_at(counts, place) {
            continue;
        }
        let aim = bit_at(wanted, place);
        let mine = bit_at(own, place);
        push_bit(alloc, positions, ground, fixed, place, aim, mine, out)?;
    }
    Ok(())
}

/// Writes a tree for each bit that counts and isn't the wanted one.
pub fn push_nots(
    alloc: Global,
    positions: &[u32],
    ground: &Ground,
    vectors: &Vectors,
    out: &mut Vec<Line>,
) -> Result<(), AllocError>
    requires nameable { AreNameable ground.now.table positions.now
        (length vectors.now.own.items) ground.now.rows ground.now.spans }
    requires wanted { length vectors.now.wanted.items ≡ length vectors.now.own.items }
    requires counts { length vectors.now.counts.items ≡ length vectors.now.own.items }
    requires places { (place : ℕ) → bit vectors.now.counts.items place ≡ true
        → IsPlace positions.now place }
    requires refuted { AreRefuted (bit vectors.now.counts.items) (rows_at ground.now.rows)
        ground.now.spans (length vectors.now.own.items) vectors.now.wanted.items
        vectors.now.own.items }
    ensures { OnOk result (Leads ground.now.table positions.now ground.now.rows ground.now.spans
        (nots (bit vectors.now.counts.items) (length vectors.now.own.items) vectors.now.wanted.items
        vectors.now.own.items (length vectors.now.own.items) 0) [] out.old.items out.new.items) }
{
    let mut fixed = vec![in alloc; None; vectors.own.len()]?;
    push_each(alloc, positions, ground, vectors, &mut fixed, out)
}
