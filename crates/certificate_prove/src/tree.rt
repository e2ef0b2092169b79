//! A tree for what is refuted.
ghost use Rattle.std.specs.Prelude.{◌≡◌, OnOk, length};
ghost use Rattle.certificate_laws.specs.Terms.{rows_at};
ghost use Rattle.certificate_laws.specs.Trees.{IsRefuted};
ghost use Rattle.certificate_prove.specs.Growing.{AreNameable, Writes};

use crate::leaves::{row_clash, span_zero};
use crate::places::open_place;
use certificate_laws::{Line, Span};
use nf_base::card::TableSize;
use nf_base::seq::Seq;
use std::alloc::{AllocError, Global};

/// Writes a tree for what is refuted behind other lines, for a table of a size and for ports of
/// whose keys so many bits count: it splits by the first open bit until a row clashes by itself or
/// a span is 0 bit by bit. Such a tree may be as long as there are ways to fix the open bits.
#[tactic(auto, using(crate::proofs::Splitting::back))]
pub fn grow(
    alloc: Global,
    table: TableSize,
    positions: &[u32],
    rows: &[Seq<u32>],
    spans: &[Span],
    fixed: &mut [Option<bool>],
    out: &mut Vec<Line>,
) -> Result<(), AllocError>
    requires nameable { AreNameable table positions.now (length fixed.old) rows.now spans.now }
    requires refuted { IsRefuted (rows_at rows.now) spans.now fixed.old }
    ensures same { OnOk result (fixed.new ≡ fixed.old) }
    ensures written { OnOk result (Writes table positions.now rows.now spans.now fixed.old
        out.old.items out.new.items) }
{
    if row_clash(alloc, rows, fixed, out)? {
        return Ok(());
    }
    if span_zero(alloc, rows, spans, fixed, out)? {
        return Ok(());
    }
    let Some(place) = open_place(positions, fixed) else {
        unreachable!()
    };
    out.push(Line::Split(place as u32))?;
    fixed[place] = Some(false);
    grow(alloc, table, positions, rows, spans, fixed, out)?;
    fixed[place] = Some(true);
    grow(alloc, table, positions, rows, spans, fixed, out)?;
    fixed[place] = None;
    Ok(())
}
