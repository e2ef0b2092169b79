//! The bits of all keys, 319 a port, and what is known of each.
ghost use Rattle.std.specs.Prelude.{◌≡◌, ◌≤◌, ◌<◌, ◌+◌, ◌*◌, All, IfOk, OnOk, length, ◌++◌};
ghost use Rattle.key_rows.specs.Rows.{bits_of};
ghost use Rattle.key_rows.specs.Systems.{default_bits};
ghost use Rattle.certificate_laws.specs.declared.line.Span.{Span};
ghost use Rattle.certificate_laws.specs.Certificates.{counted, span_if, spans_of};
ghost use Rattle.key_proof.specs.Faults.{ports_of, positions_in};

use crate::judging::bit_of;
use crate::keyed::is_keyed_for;
use crate::subject::Subject;
use certificate_laws::Span;
use certificate_text::span_of;
use key_rows::Object;
use nf_base::card::TableSize;
use nf_base::keys::Keys;
use nf_base::packet::Family;
use nf_base::seq::Seq;
use std::alloc::{AllocError, Global};
use toeplitz_hash::DEFAULT_KEY;

/// The bits of keys.
#[tactic(auto, using(crate::proofs::Checked::map_long))]
pub fn bits_of(alloc: Global, keys: &Keys) -> Result<Vec<bool>, AllocError>
    requires { length keys.now.ports ≤ 4 }
    ensures value { IfOk result (λ bits. bits.items ≡ bits_of (length keys.now.ports) keys.now) }
    ensures long { IfOk result (λ bits. length bits.items ≡ 319 * length keys.now.ports) }
{
    let mut bits = Vec::new(alloc);
    for m in 0..319 * keys.ports.len() {
        let key = keys.ports.item(m / 319).as_slice();
        bits.push(bit_of(key, (m % 319) as usize) == 1)?;
    }
    Ok(bits)
}

/// The bits of the default key, once for each port.
#[tactic(auto, using(crate::proofs::Checked::map_long))]
pub fn default_bits(alloc: Global, ports: u32) -> Result<Vec<bool>, AllocError>
    requires { ports ≤ 4 }
    ensures value { IfOk result (λ bits. bits.items ≡ default_bits ports) }
    ensures long { IfOk result (λ bits. length bits.items ≡ 319 * ports) }
{
    let mut bits = Vec::new(alloc);
    for m in 0..319 * ports {
        bits.push(bit_of(&DEFAULT_KEY, (m % 319) as usize) == 1)?;
    }
    Ok(bits)
}

/// Whether each bit counts.
#[tactic(auto, using(crate::proofs::Checked::map_long))]
pub fn counted(alloc: Global, subject: &Subject) -> Result<Vec<bool>, AllocError>
    ensures value { IfOk result (λ bits. bits.items
        ≡ counted (positions_in subject.now) (ports_of subject.now)) }
    ensures long { IfOk result (λ bits. length bits.items ≡ 319 * ports_of subject.now) }
{
    let positions = subject.positions.as_slice();
    let mut bits = Vec::new(alloc);
    for m in 0..319 * subject.positions.len() {
        bits.push(m % 319 < positions[(m / 319) as usize])?;
    }
    Ok(bits)
}

/// Puts the span of a port that is keyed for a family behind others.
fn put_span(
    objects: &[Object],
    table: TableSize,
    family: Family,
    port: u32,
    spans: &mut Seq<Span>,
) -> Result<(), AllocError>
    requires { port < 4 }
    ensures { OnOk result (spans.new ≡ spans.old ++ span_if objects.now table family port) }
{
    if is_keyed_for(objects, family, port) {
        spans.push(span_of(table, family, port))?;
    }
    Ok(())
}

/// The spans of the first so many ports, one for each family that one is keyed for.
#[tactic(auto, using(crate::proofs::Spans::spans_more, crate::proofs::Spans::spans_within))]
pub fn spans_of(
    alloc: Global,
    objects: &[Object],
    table: TableSize,
    ports: u32,
) -> Result<Seq<Span>, AllocError>
    requires { ports ≤ 4 }
    ensures value { IfOk result (λ spans. spans ≡ spans_of objects.now table ports) }
    ensures within { IfOk result (All (λ (s : Span). s.first + s.count ≤ 319 * ports)) }
{
    let mut spans = Seq::new(alloc);
    for port in 0..ports {
        put_span(objects, table, Family::Four, port, &mut spans)?;
        put_span(objects, table, Family::Six, port, &mut spans)?;
    }
    Ok(spans)
}
