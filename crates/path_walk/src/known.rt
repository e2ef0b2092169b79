//! What the tests of a path so far say.
ghost use Rattle.std.specs.Prelude.{◌≡◌, IfOk, None, Some, is_some, map, slice_set, get_or, replicate};
ghost use Rattle.path_walk.specs.declared.known.Mark.TheVariants.{Unknown};
ghost use Rattle.path_walk.specs.Known.{mark_seen, nothing_known, known_seen, mark_at, with_number, excludes, told_mark};

use crate::test::{FieldIs, Sign, Text};
use crate::token::number_of_field;
use nf_base::expr::Expr;
use std::alloc::{AllocError, Global};

/// How a text went.
#[derive(Clone, Copy, Debug, PartialEq, Eq)]
pub enum Mark {
    Unknown,
    Fails,
    Holds,
}

/// How each text went, by its number, and the number that each field is known to be, by the field's.
#[derive(Drop)]
pub struct Known {
    marks: Vec<Mark>,
    numbers: Vec<Option<u64>>,
}

/// No mark for each of so many texts.
fn unknown(alloc: Global, texts: usize) -> Result<Vec<Mark>, AllocError>
    ensures { IfOk result (λ marks. marks.items ≡ replicate texts Unknown) }
{
    vec![in alloc; Mark::Unknown; texts]
}

/// No number for each of the ten fields.
fn no_numbers(alloc: Global) -> Result<Vec<Option<u64>>, AllocError>
    ensures { IfOk result (λ numbers. numbers.items ≡ replicate 12 None) }
{
    vec![in alloc; None; 12]
}

/// The mark of a text that went so.
fn mark_for(holds: bool) -> Mark
    ensures { mark_seen result ≡ Some holds }
{
    if holds { Mark::Holds } else { Mark::Fails }
}

fn set_mark(marks: &mut Vec<Mark>, number: usize, holds: bool)
    ensures { map mark_seen marks.new.items ≡ slice_set (map mark_seen marks.old.items) number (Some holds) }
{
    if number < marks.len() {
        marks[number] = mark_for(holds);
    }
}

fn mark_of(marks: &[Mark], number: usize) -> Option<bool>
    ensures { result ≡ get_or (map mark_seen marks.now) number None }
{
    if number >= marks.len() {
        return None;
    }
    match marks[number] {
        Mark::Unknown => None,
        Mark::Fails => Some(false),
        Mark::Holds => Some(true),
    }
}

fn set_number(numbers: &mut Vec<Option<u64>>, equals: Option<FieldIs>)
    ensures { numbers.new.items ≡ with_number equals numbers.old.items }
{
    if let Some(is) = equals {
        let field = number_of_field(is.field) as usize;
        if field < numbers.len() {
            numbers[field] = Some(is.number);
        }
    }
}

/// The number at an index, where one is known.
fn number_of(numbers: &[Option<u64>], field: usize) -> Option<u64>
    ensures { result ≡ get_or numbers.now field None }
{
    if field < numbers.len() {
        numbers[field]
    } else {
        None
    }
}

impl Known {
    /// Nothing is known of so many texts.
    pub fn new(alloc: Global, texts: usize) -> Result<Known, AllocError>
        ensures { IfOk result (λ known. known_seen known ≡ nothing_known texts) }
    {
        let marks = unknown(alloc, texts)?;
        let numbers = no_numbers(alloc)?;
        Ok(Known { marks, numbers })
    }

    /// The same once more.
    pub fn copy(&self, alloc: Global) -> Result<Known, AllocError>
        ensures { IfOk result (λ copy. known_seen copy ≡ known_seen self.now) }
    {
        let marks = Vec::from_slice(alloc, self.marks.as_slice())?;
        let numbers = Vec::from_slice(alloc, self.numbers.as_slice())?;
        Ok(Known { marks, numbers })
    }

    /// How the text of a number went.
    pub fn mark(&self, number: usize) -> Option<bool>
        ensures { result ≡ mark_at (known_seen self.now) number }
    {
        mark_of(self.marks.as_slice(), number)
    }

    /// Whether the text of a number went some way.
    pub fn is_marked(&self, number: usize) -> bool
        ensures { result ≡ is_some (mark_at (known_seen self.now) number) }
    {
        self.mark(number).is_some()
    }

    /// Whether a field is known to be another number.
    pub fn excludes(&self, equals: Option<FieldIs>) -> bool
        ensures { result ≡ excludes equals (known_seen self.now) }
    {
        match equals {
            None => false,
            Some(is) => {
                let field = number_of_field(is.field) as usize;
                match number_of(self.numbers.as_slice(), field) {
                    Some(number) => number != is.number,
                    None => false,
                }
            }
        }
    }

    /// A test of this number went so.
    pub fn tell(&mut self, number: usize, equals: Option<FieldIs>, holds: bool)
        ensures { known_seen self.new ≡ told_mark (known_seen self.old) number equals holds }
    {
        set_mark(&mut self.marks, number, holds);
        if holds {
            set_number(&mut self.numbers, equals);
        }
    }
}
