//! The first wrong line of a certificate, and what it tells where there is none.
ghost use Rattle.std.specs.Prelude.{◌≡◌, ◌≤◌, ◌*◌, ◌∷◌, [], All, IfOk, length};
ghost use Rattle.nf_base.specs.Functions.{function_of};
ghost use Rattle.key_rows.specs.Keyed.{AreAtPorts};
ghost use Rattle.shard_rules.specs.Served.{own_sites, own_plan};
ghost use Rattle.certificate_laws.specs.Fixed.{none_fixed};
ghost use Rattle.certificate_laws.specs.Due.{Whole};
ghost use Rattle.key_proof.specs.Faults.{ports_of, spans_in, trees_fault, due_behind, keys_fault, proof_fault, rows_fault, first_wrong};
ghost use Rattle.key_proof.specs.Rows.{IsRowWithin};
ghost use Rattle.key_proof.specs.Reading.{IsSubject, IsCursor, rest_at};
ghost use Rattle.key_proof.specs.Found.{fault_found, FindsBehind, Finds};
ghost use Rattle.key_proof.specs.Shown.{Shows};

use crate::finding::Finding;
use crate::judging::wrong_port;
use crate::reading::{Cursor, check_lines, read_keys, read_rows};
use crate::subject::{Subject, subject_of};
use crate::vectors::{bits_of, counted, default_bits, spans_of};
use access_keys::Site;
use certificate_check::Checker;
use certificate_text::{Heading, Kind, heading_in, next_line};
use key_rows::Object;
use nf_base::func::Func;
use nf_base::keys::Keys;
use nf_base::limited::Limited;
use nf_base::seq::Seq;
use shard_rules::Plan;
use std::alloc::{AllocError, Global};

/// The first wrong line of a tree that shows that there are no keys.
fn tree_fault(
    alloc: Global,
    subject: &Subject,
    objects: &[Object],
    heading: Heading,
    rows: Seq<Seq<u32>>,
    text: &[u8],
    cursor: Cursor,
) -> Result<Option<usize>, AllocError>
    requires subject { IsSubject subject.now }
    requires cursor { IsCursor text.now cursor }
    requires rows { All (IsRowWithin (ports_of subject.now)) rows }
    ensures { IfOk result (λ fault. fault
        ≡ trees_fault subject.now heading rows (spans_in objects.now subject.now heading)
        cursor.number (Whole (none_fixed (319 * ports_of subject.now)) ∷ [])
        (rest_at text.now cursor)) }
{
    let ports = subject.positions.len();
    let spans = spans_of(alloc, objects, heading.card.table, ports)?;
    let mut checker = Checker::of_tree(alloc, 319 * ports, rows, spans)?;
    let fault = check_lines(alloc, subject, heading, text, cursor, &mut checker)?;
    Ok(fault)
}

/// The first wrong line behind keys: each bit that isn't the default key's is named, and a tree
/// follows.
#[tactic(auto, using(crate::proofs::Checked::due_is))]
fn bits_fault(
    alloc: Global,
    subject: &Subject,
    objects: &[Object],
    heading: Heading,
    rows: Seq<Seq<u32>>,
    keys: &Keys,
    text: &[u8],
    cursor: Cursor,
) -> Result<Option<usize>, AllocError>
    requires subject { IsSubject subject.now }
    requires cursor { IsCursor text.now cursor }
    requires rows { All (IsRowWithin (ports_of subject.now)) rows }
    requires keys { length keys.now.ports ≡ ports_of subject.now }
    ensures { IfOk result (λ fault. fault
        ≡ trees_fault subject.now heading rows (spans_in objects.now subject.now heading)
        cursor.number (due_behind subject.now keys.now) (rest_at text.now cursor)) }
{
    let ports = subject.positions.len();
    let own = bits_of(alloc, keys)?;
    let wanted = default_bits(alloc, ports)?;
    let counts = counted(alloc, subject)?;
    let spans = spans_of(alloc, objects, heading.card.table, ports)?;
    let mut checker = Checker::of_vector(
        alloc,
        rows,
        spans,
        counts.as_slice(),
        wanted.as_slice(),
        own.as_slice(),
    )?;
    let fault = check_lines(alloc, subject, heading, text, cursor, &mut checker)?;
    Ok(fault)
}

/// Keys, and the first wrong line of them and of what stands behind them.
#[tactic(auto, using(crate::proofs::Checked::keys_wrong, crate::proofs::Checked::port_wrong, crate::proofs::Checked::keys_right))]
fn find_keys(
    alloc: Global,
    subject: &Subject,
    objects: &[Object],
    heading: Heading,
    rows: Seq<Seq<u32>>,
    text: &[u8],
    cursor: Cursor,
) -> Result<Finding, AllocError>
    requires subject { IsSubject subject.now }
    requires cursor { IsCursor text.now cursor }
    requires rows { All (IsRowWithin (ports_of subject.now)) rows }
    requires places { All (λ object. AreAtPorts (ports_of subject.now) object.places) objects.now }
    ensures fault { IfOk result (λ found. fault_found found
        ≡ keys_fault objects.now subject.now heading rows cursor.number [] (ports_of subject.now)
        (rest_at text.now cursor)) }
    ensures finds { IfOk result (FindsBehind objects.now subject.now heading rows) }
{
    let mut here = cursor;
    let mut ports = Limited::new(alloc);
    if !read_keys(alloc, subject, heading, text, &mut here, &mut ports)? {
        return Ok(Finding::Wrong(here.number));
    }
    let keys = Keys {
        table: heading.card.table,
        ports,
    };
    if let Some(port) = wrong_port(objects, heading.card, subject.positions.as_slice(), &keys) {
        let first = here.number - subject.positions.len() as usize;
        return Ok(Finding::Wrong(first + port as usize));
    }
    let fault = bits_fault(alloc, subject, objects, heading, rows, &keys, text, here)?;
    match fault {
        Some(line) => Ok(Finding::Wrong(line)),
        None => Ok(Finding::Told(keys)),
    }
}

/// That there are no keys, where no line of the tree that shows it is wrong.
fn find_none(
    alloc: Global,
    subject: &Subject,
    objects: &[Object],
    heading: Heading,
    rows: Seq<Seq<u32>>,
    text: &[u8],
    cursor: Cursor,
) -> Result<Finding, AllocError>
    requires kind { heading.kind ≡ Kind.Locked }
    requires subject { IsSubject subject.now }
    requires cursor { IsCursor text.now cursor }
    requires rows { All (IsRowWithin (ports_of subject.now)) rows }
    ensures fault { IfOk result (λ found. fault_found found
        ≡ trees_fault subject.now heading rows (spans_in objects.now subject.now heading)
        cursor.number (Whole (none_fixed (319 * ports_of subject.now)) ∷ [])
        (rest_at text.now cursor)) }
    ensures finds { IfOk result (FindsBehind objects.now subject.now heading rows) }
{
    match tree_fault(alloc, subject, objects, heading, rows, text, cursor)? {
        Some(line) => Ok(Finding::Wrong(line)),
        None => Ok(Finding::NoKeys),
    }
}

/// What stands behind the rows.
fn find_behind(
    alloc: Global,
    subject: &Subject,
    objects: &[Object],
    heading: Heading,
    rows: Seq<Seq<u32>>,
    text: &[u8],
    cursor: Cursor,
) -> Result<Finding, AllocError>
    requires subject { IsSubject subject.now }
    requires cursor { IsCursor text.now cursor }
    requires rows { All (IsRowWithin (ports_of subject.now)) rows }
    requires places { All (λ object. AreAtPorts (ports_of subject.now) object.places) objects.now }
    ensures fault { IfOk result (λ found. fault_found found
        ≡ proof_fault objects.now subject.now heading rows cursor.number (rest_at text.now cursor)) }
    ensures finds { IfOk result (FindsBehind objects.now subject.now heading rows) }
{
    match heading.kind {
        Kind::Sharded => find_keys(alloc, subject, objects, heading, rows, text, cursor),
        Kind::Locked => find_none(alloc, subject, objects, heading, rows, text, cursor),
    }
}

/// What stands behind the first line.
#[tactic(auto, using(crate::proofs::Checked::rows_wrong, crate::proofs::Checked::rows_right, crate::proofs::Certified::with_rows))]
fn find_rows(
    alloc: Global,
    subject: &Subject,
    objects: &[Object],
    heading: Heading,
    text: &[u8],
    cursor: Cursor,
) -> Result<Finding, AllocError>
    requires subject { IsSubject subject.now }
    requires cursor { IsCursor text.now cursor }
    requires places { All (λ object. AreAtPorts (ports_of subject.now) object.places) objects.now }
    ensures fault { IfOk result (λ found. fault_found found
        ≡ rows_fault objects.now subject.now heading [] cursor.number (rest_at text.now cursor)) }
    ensures finds { IfOk result (Finds objects.now subject.now heading) }
{
    let mut here = cursor;
    let mut rows = Seq::new(alloc);
    if !read_rows(alloc, subject, heading, text, &mut here, &mut rows)? {
        return Ok(Finding::Wrong(here.number));
    }
    let found = find_behind(alloc, subject, objects, heading, rows, text, here)?;
    Ok(found)
}

/// The number of the first wrong line of a text as a certificate of a function's keys, or of there
/// being none, from the function's sites and their plan; where no line is wrong the keys, or that
/// there are none.
///
/// Lines are numbered from 1, and an end too early counts as the line after the last.
#[tactic(auto, using(crate::proofs::AtPorts::all_at_ports, crate::proofs::AtPorts::is_subject, crate::proofs::Checked::no_line, crate::proofs::Checked::no_heading, crate::proofs::Checked::headed))]
pub fn find(
    alloc: Global,
    func: &Func,
    sites: &[Site],
    plan: &Plan,
    text: &[u8],
) -> Result<Finding, AllocError>
    requires sites { sites.now ≡ own_sites (function_of func.now) }
    requires plan { plan.now ≡ own_plan (function_of func.now) }
    ensures fault { IfOk result (λ found. fault_found found
        ≡ first_wrong (function_of func.now) text.now) }
    ensures shows { IfOk result (Shows (function_of func.now) text.now) }
{
    let Some(line) = next_line(text, 0) else {
        return Ok(Finding::Wrong(1));
    };
    let Some(heading) = heading_in(line) else {
        return Ok(Finding::Wrong(1));
    };
    let cursor = Cursor {
        at: line.len() + 1,
        number: 2,
    };
    let subject = subject_of(alloc, func, sites, plan)?;
    let objects = plan.objects.as_slice();
    let found = find_rows(alloc, &subject, objects, heading, text, cursor)?;
    Ok(found)
}

/// The number of the first wrong line of a text as a certificate of a function; None where no line is
/// wrong.
pub fn first_wrong(
    alloc: Global,
    func: &Func,
    sites: &[Site],
    plan: &Plan,
    text: &[u8],
) -> Result<Option<usize>, AllocError>
    requires sites { sites.now ≡ own_sites (function_of func.now) }
    requires plan { plan.now ≡ own_plan (function_of func.now) }
    ensures { IfOk result (λ fault. fault ≡ first_wrong (function_of func.now) text.now) }
{
    match find(alloc, func, sites, plan, text) {
        Ok(found) => Ok(found.fault()),
        Err(error) => Err(error),
    }
}
