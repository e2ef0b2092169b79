//! A certificate in which all rows are listed, and whose trees split by one bit after another. It is
//! right for whatever verdict is right, and may be very long.
ghost use Rattle.std.specs.Prelude.{◌≡◌, ◌≤◌, ◌*◌, ◌++◌, ◌∷◌, [], IfOk, OnOk, codes, length};
ghost use Rattle.nf_base.specs.Functions.{function_of};
ghost use Rattle.gf2_solve.specs.Sums.{bit};
ghost use Rattle.key_rows.specs.Rows.{bits_of};
ghost use Rattle.key_rows.specs.Systems.{default_bits};
ghost use Rattle.shard_rules.specs.Served.{own_plan};
ghost use Rattle.key_synth.specs.Verdicts.{IsVerdict};
ghost use Rattle.certificate_laws.specs.Terms.{rows_at};
ghost use Rattle.certificate_laws.specs.Trees.{IsRefuted};
ghost use Rattle.certificate_laws.specs.Laws.{AreRefuted};
ghost use Rattle.certificate_laws.specs.Due.{Whole};
ghost use Rattle.certificate_laws.specs.Certificates.{counted};
ghost use Rattle.certificate_prove.specs.Growing.{AreNameable};
ghost use Rattle.certificate_laws.specs.Fixed.{none_fixed};
ghost use Rattle.certificate_write.specs.Texts.{lines_text, heading_text};
ghost use Rattle.key_proof.specs.Faults.{ports_of, positions_in, subject_of, due_behind};
ghost use Rattle.key_certificate.specs.Rows.{AreNumbered};
ghost use Rattle.key_certificate.specs.Plain.{row_lines, key_lines, heading_for, Leads, IsGround, AreRightBehind, IsRightText};

use crate::listing::{Listing, list_all};
use crate::trees::{Ground, Vectors, push_nots};
use certificate_laws::{Line, Named};
use certificate_prove::grow;
use certificate_text::{Heading, Kind};
use certificate_write::{push_heading, push_line, push_lines};
use key_proof::{Subject, bits_of, counted, default_bits, spans_of};
use key_rows::Object;
use key_synth::Verdict;
use nf_base::card::Card;
use nf_base::func::Func;
use nf_base::keys::Keys;
use std::alloc::{AllocError, Global};

/// Puts the lines that list rows behind what stands there.
fn push_rows(alloc: Global, out: &mut Vec<u8>, named: &[Named]) -> Result<(), AllocError>
    ensures { OnOk result (out.new.items ≡ out.old.items ++ lines_text (row_lines named.now)) }
{
    for one in named {
        push_line(alloc, out, &Line::Row(*one))?;
    }
    Ok(())
}

/// The whole text.
#[tactic(auto, using(crate::proofs::Final::text_both))]
fn text_of(
    alloc: Global,
    heading: Heading,
    named: &[Named],
    lines: &[Line],
) -> Result<Vec<u8>, AllocError>
    ensures { IfOk result (λ text. text.items ≡ (heading_text heading ++ codes "\n")
        ++ (lines_text (row_lines named.now) ++ lines_text lines.now)) }
{
    let mut out = Vec::new(alloc);
    push_heading(&mut out, heading)?;
    push_rows(alloc, &mut out, named)?;
    push_lines(alloc, &mut out, lines)?;
    Ok(out)
}

/// Puts the lines of keys behind others.
#[tactic(auto, using(crate::proofs::Final::keys_none, crate::proofs::Final::keys_more, crate::proofs::Final::keys_all))]
fn push_keys(keys: &Keys, lines: &mut Vec<Line>) -> Result<(), AllocError>
    ensures { OnOk result (lines.new.items ≡ lines.old.items ++ key_lines 0 keys.now.ports) }
{
    for port in 0..keys.ports.len() {
        let key = keys.ports.item(port).again();
        lines.push(Line::Key { port, key })?;
    }
    Ok(())
}

/// The lines of a tree that shows that there are no keys.
fn locked_lines(alloc: Global, subject: &Subject, ground: &Ground) -> Result<Vec<Line>, AllocError>
    requires nameable { AreNameable ground.now.table subject.now.positions
        (319 * ports_of subject.now) ground.now.rows ground.now.spans }
    requires refuted { IsRefuted (rows_at ground.now.rows) ground.now.spans
        (none_fixed (319 * ports_of subject.now)) }
    ensures { IfOk result (λ lines. Leads ground.now.table subject.now.positions ground.now.rows
        ground.now.spans (Whole (none_fixed (319 * ports_of subject.now)) ∷ []) [] [] lines.items) }
{
    let count = 319 * subject.positions.len();
    let mut fixed = vec![in alloc; None; count as usize]?;
    let mut lines = Vec::new(alloc);
    grow(
        alloc,
        ground.table,
        subject.positions.as_slice(),
        ground.rows.as_slice(),
        ground.spans.as_slice(),
        &mut fixed,
        &mut lines,
    )?;
    Ok(lines)
}

/// The bits of keys, and what is known of each.
fn vectors_of(alloc: Global, subject: &Subject, keys: &Keys) -> Result<Vectors, AllocError>
    requires count { length keys.now.ports ≡ ports_of subject.now }
    ensures own { IfOk result (λ v. v.own.items ≡ bits_of (ports_of subject.now) keys.now) }
    ensures wanted { IfOk result (λ v. v.wanted.items ≡ default_bits (ports_of subject.now)) }
    ensures counts { IfOk result (λ v. v.counts.items
        ≡ counted (positions_in subject.now) (ports_of subject.now)) }
{
    let ports = subject.positions.len();
    let own = bits_of(alloc, keys)?;
    let wanted = default_bits(alloc, ports)?;
    let counts = counted(alloc, subject)?;
    Ok(Vectors {
        own,
        wanted,
        counts,
    })
}

/// The lines of keys, and of a tree for each bit that isn't the default key's.
#[tactic(auto, using(crate::proofs::Final::counted_places, crate::proofs::Final::long_bits, crate::proofs::Final::long_default, crate::proofs::Final::long_counted, crate::proofs::Final::due_behind_is))]
fn sharded_lines(
    alloc: Global,
    subject: &Subject,
    ground: &Ground,
    keys: &Keys,
) -> Result<Vec<Line>, AllocError>
    requires count { length keys.now.ports ≡ ports_of subject.now }
    requires nameable { AreNameable ground.now.table subject.now.positions
        (319 * ports_of subject.now) ground.now.rows ground.now.spans }
    requires refuted { AreRefuted (bit (counted (positions_in subject.now) (ports_of subject.now)))
        (rows_at ground.now.rows) ground.now.spans (319 * ports_of subject.now)
        (default_bits (ports_of subject.now)) (bits_of (ports_of subject.now) keys.now) }
    ensures { IfOk result (λ lines. Leads ground.now.table subject.now.positions ground.now.rows
        ground.now.spans (due_behind subject.now keys.now) [] (key_lines 0 keys.now.ports)
        lines.items) }
{
    let vectors = vectors_of(alloc, subject, keys)?;
    let mut lines = Vec::new(alloc);
    push_keys(keys, &mut lines)?;
    push_nots(
        alloc,
        subject.positions.as_slice(),
        ground,
        &vectors,
        &mut lines,
    )?;
    Ok(lines)
}

/// What the first line of the certificate of a verdict says.
pub fn heading_for(card: Card, verdict: &Verdict) -> Heading
    ensures { result ≡ heading_for card verdict.now }
{
    let kind = match verdict {
        Verdict::Sharded(_keys) => Kind::Sharded,
        Verdict::Locked(_cause) => Kind::Locked,
    };
    Heading { card, kind }
}

/// The lines behind those of rows.
#[tactic(auto, using(crate::proofs::Final::locked_refuted, crate::proofs::Final::locked_right, crate::proofs::Final::sharded_count, crate::proofs::Final::sharded_refuted, crate::proofs::Final::sharded_right))]
fn lines_behind(
    alloc: Global,
    func: &Func,
    subject: &Subject,
    ground: &Ground,
    card: Card,
    verdict: &Verdict,
) -> Result<Vec<Line>, AllocError>
    requires subject { subject.now ≡ subject_of (function_of func.now) }
    requires table { ground.now.table ≡ card.table }
    requires ground { IsGround (function_of func.now) card.table ground.now.rows ground.now.spans }
    requires verdict { IsVerdict (function_of func.now) card verdict.now }
    requires few { length subject.now.positions ≤ 4 }
    ensures { IfOk result (λ lines. AreRightBehind (function_of func.now)
        (heading_for card verdict.now) ground.now.rows lines.items) }
{
    match verdict {
        Verdict::Sharded(keys) => sharded_lines(alloc, subject, ground, keys),
        Verdict::Locked(_cause) => locked_lines(alloc, subject, ground),
    }
}

/// The certificate of a right verdict, for a function whose sites all have numbers.
#[tactic(auto, using(crate::proofs::Final::is_ground, crate::proofs::Final::whole_text))]
pub fn plain(
    alloc: Global,
    func: &Func,
    objects: &[Object],
    subject: &Subject,
    card: Card,
    verdict: &Verdict,
) -> Result<Vec<u8>, AllocError>
    requires objects { objects.now ≡ (own_plan (function_of func.now)).objects }
    requires subject { subject.now ≡ subject_of (function_of func.now) }
    requires few { length subject.now.positions ≤ 4 }
    requires numbered { AreNumbered (function_of func.now) }
    requires verdict { IsVerdict (function_of func.now) card verdict.now }
    ensures { IfOk result (λ text. IsRightText (function_of func.now)
        (heading_for card verdict.now) text.items) }
{
    let ports = subject.positions.len();
    let listing = list_all(alloc, ports, subject.sites.as_slice())?;
    let spans = spans_of(alloc, objects, card.table, ports)?;
    let Listing { named, rows } = listing;
    let ground = Ground {
        table: card.table,
        rows,
        spans,
    };
    let lines = lines_behind(alloc, func, subject, &ground, card, verdict)?;
    let heading = heading_for(card, verdict);
    text_of(alloc, heading, named.as_slice(), lines.as_slice())
}
