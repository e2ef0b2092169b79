//! A certificate's text, line by line.
ghost use Rattle.std.specs.Prelude.{◌≡◌, ◌+◌, [], All, true, Some, None, length, OnOk, IfOk, if◌then◌else◌};
ghost use Rattle.nf_base.specs.Cards.{key_bytes};
ghost use Rattle.certificate_check.specs.Checking.{due};
ghost use Rattle.key_proof.specs.Faults.{ports_of, line_here, trees_fault, key_in, row_in, after_if};
ghost use Rattle.key_proof.specs.Rows.{row_of, IsRowWithin};
ghost use Rattle.key_proof.specs.Reading.{IsSubject, IsCursor, rest_at, step_of, IsStepWithin, IsRowHere, IsToldHere, AreRowsRead, AreKeysRead};

use crate::rows::row_of;
use crate::subject::Subject;
use certificate_check::Checker;
use certificate_laws::{Line, Named};
use certificate_text::{Heading, line_in, next_line};
use nf_base::card::KeySize;
use nf_base::hash_key::HashKey;
use nf_base::limited::Limited;
use nf_base::seq::Seq;
use std::alloc::{AllocError, Global};

/// A place in a text: a byte, and the number of the line that begins there, from 1.
#[derive(Clone, Copy)]
pub struct Cursor {
    pub at: usize,
    pub number: usize,
}

/// What a line says where a row may stand.
#[derive(Drop)]
pub enum RowStep {
    Listed(Seq<u32>),
    /// It names a row that isn't one.
    Wrong,
    /// It is another line.
    Other,
}

/// A line of a certificate, where it has the form of one.
fn line_here(
    alloc: Global,
    subject: &Subject,
    heading: Heading,
    line: &[u8],
) -> Result<Option<Line>, AllocError>
    requires { IsSubject subject.now }
    ensures { IfOk result (λ read. read ≡ line_here subject.now heading line.now) }
{
    line_in(
        alloc,
        heading.card.table,
        subject.positions.as_slice(),
        line,
    )
}

/// What a line says where a row may stand.
fn read_row(
    alloc: Global,
    subject: &Subject,
    heading: Heading,
    line: &[u8],
) -> Result<RowStep, AllocError>
    requires { IsSubject subject.now }
    ensures value { IfOk result (λ step. step_of step
        ≡ row_in subject.now (line_here subject.now heading line.now)) }
    ensures within { IfOk result (IsStepWithin (ports_of subject.now)) }
{
    match line_here(alloc, subject, heading, line)? {
        Some(Line::Row(named)) => row_step(alloc, subject, &named),
        _ => Ok(RowStep::Other),
    }
}

/// The row that a line names.
fn row_step(alloc: Global, subject: &Subject, named: &Named) -> Result<RowStep, AllocError>
    requires { IsSubject subject.now }
    ensures value { IfOk result (λ step. step_of step
        ≡ Some (row_of (ports_of subject.now) subject.now.sites named.now)) }
    ensures within { IfOk result (IsStepWithin (ports_of subject.now)) }
{
    let ports = subject.positions.len();
    match row_of(alloc, ports, subject.sites.as_slice(), named)? {
        Some(row) => Ok(RowStep::Listed(row)),
        None => Ok(RowStep::Wrong),
    }
}

/// Reads rows as long as lines name some, and puts them behind others; false where one is none.
#[tactic(auto, using(crate::proofs::Read::next_is, crate::proofs::Read::rows_start, crate::proofs::Read::rows_more, crate::proofs::Read::rows_end, crate::proofs::Read::rows_other, crate::proofs::Read::rows_wrong))]
pub fn read_rows(
    alloc: Global,
    subject: &Subject,
    heading: Heading,
    text: &[u8],
    cursor: &mut Cursor,
    rows: &mut Seq<Seq<u32>>,
) -> Result<bool, AllocError>
    requires subject { IsSubject subject.now }
    requires cursor { IsCursor text.now cursor.old }
    requires none { rows.old ≡ [] }
    ensures cursor { OnOk result (IsCursor text.now cursor.new) }
    ensures read { IfOk result
        (AreRowsRead subject.now heading text.now cursor.old cursor.new rows.new) }
    ensures rows { OnOk result (All (IsRowHere subject.now) rows.new) }
    ensures within { OnOk result (All (IsRowWithin (ports_of subject.now)) rows.new) }
{
    while let Some(line) = next_line(text, cursor.at) {
        match read_row(alloc, subject, heading, line)? {
            RowStep::Listed(row) => rows.push(row)?,
            RowStep::Wrong => return Ok(false),
            RowStep::Other => return Ok(true),
        }
        cursor.at += line.len() + 1;
        cursor.number += 1;
    }
    Ok(true)
}

/// The key of a port, where a line tells it.
fn key_in(size: KeySize, port: u32, line: Line) -> Option<HashKey>
    ensures { result ≡ key_in size port (Some line) }
{
    match line {
        Line::Key { port: other, key } => {
            if other == port && key.as_slice().len() == size.bytes() as usize {
                Some(key)
            } else {
                None
            }
        }
        Line::Row(_named) => None,
        Line::Not(_place) => None,
        Line::Split(_place) => None,
        Line::Clash => None,
        Line::Zero(_span) => None,
        Line::Sum(_terms) => None,
    }
}

/// The key of a port, where this line tells it.
fn read_key(
    alloc: Global,
    subject: &Subject,
    heading: Heading,
    port: u32,
    line: &[u8],
) -> Result<Option<HashKey>, AllocError>
    requires { IsSubject subject.now }
    ensures { IfOk result (λ key. key
        ≡ key_in heading.card.key port (line_here subject.now heading line.now)) }
{
    match line_here(alloc, subject, heading, line)? {
        Some(line) => Ok(key_in(heading.card.key, port, line)),
        None => Ok(None),
    }
}

/// Reads the keys of all ports; false where the next line isn't the next port's.
#[tactic(auto, using(crate::proofs::Read::next_is, crate::proofs::Read::keys_start, crate::proofs::Read::keys_more, crate::proofs::Read::keys_end, crate::proofs::Read::keys_early, crate::proofs::Read::keys_wrong))]
pub fn read_keys(
    alloc: Global,
    subject: &Subject,
    heading: Heading,
    text: &[u8],
    cursor: &mut Cursor,
    keys: &mut Limited<HashKey, 4>,
) -> Result<bool, AllocError>
    requires subject { IsSubject subject.now }
    requires cursor { IsCursor text.now cursor.old }
    requires none { keys.old ≡ [] }
    ensures cursor { OnOk result (IsCursor text.now cursor.new) }
    ensures read { IfOk result
        (AreKeysRead subject.now heading text.now cursor.old cursor.new keys.new) }
    ensures count { IfOk result (λ all. all ≡ true → length keys.new ≡ ports_of subject.now) }
    ensures whole { OnOk result (All (λ key. length key ≡ key_bytes heading.card.key) keys.new) }
    ensures told { OnOk result (All (IsToldHere subject.now heading) keys.new) }
    ensures number { OnOk result (cursor.new.number ≡ cursor.old.number + length keys.new) }
{
    for port in 0..subject.positions.len() {
        let Some(line) = next_line(text, cursor.at) else {
            return Ok(false);
        };
        let Some(key) = read_key(alloc, subject, heading, port, line)? else {
            return Ok(false);
        };
        keys.push(key)?;
        cursor.at += line.len() + 1;
        cursor.number += 1;
    }
    Ok(true)
}

/// Takes a line, where it has the form of one, and says whether it is right.
fn take(alloc: Global, checker: &mut Checker, line: Option<Line>) -> Result<bool, AllocError>
    ensures rows { OnOk result (checker.new.rows ≡ checker.old.rows) }
    ensures spans { OnOk result (checker.new.spans ≡ checker.old.spans) }
    ensures due { IfOk result (λ taken.
        after_if checker.old.rows checker.old.spans (due checker.old) line
        ≡ (if taken then Some (due checker.new) else None)) }
{
    match line {
        Some(line) => checker.line(alloc, &line),
        None => Ok(false),
    }
}

/// The number of the first of the lines from a place on that is wrong, where something is due; None
/// where none is.
#[tactic(auto, using(crate::proofs::Read::next_is, crate::proofs::Read::trees_start, crate::proofs::Read::trees_more, crate::proofs::Read::trees_wrong, crate::proofs::Read::trees_end, crate::proofs::Read::trees_early))]
pub fn check_lines(
    alloc: Global,
    subject: &Subject,
    heading: Heading,
    text: &[u8],
    start: Cursor,
    checker: &mut Checker,
) -> Result<Option<usize>, AllocError>
    requires subject { IsSubject subject.now }
    requires cursor { IsCursor text.now start }
    ensures { IfOk result (λ fault. fault
        ≡ trees_fault subject.now heading checker.old.rows checker.old.spans start.number
        (due checker.old) (rest_at text.now start)) }
{
    let mut cursor = start;
    while let Some(line) = next_line(text, cursor.at) {
        let read = line_here(alloc, subject, heading, line)?;
        if !take(alloc, checker, read)? {
            return Ok(Some(cursor.number));
        }
        cursor.at += line.len() + 1;
        cursor.number += 1;
    }
    if checker.is_done() {
        Ok(None)
    } else {
        Ok(Some(cursor.number))
    }
}
