//! One number for each text that tests have.
ghost use Rattle.std.specs.Prelude.{◌≡◌, ◌<◌, [], IfOk, OnOk, map, Some, None};
ghost use Rattle.std.specs.BTreeMap.{get_by};
ghost use Rattle.std.specs.Ordering.{nat_cmp};
ghost use Rattle.std.specs.Cmp.Lexicographic.{slice_cmp};
ghost use Rattle.path_walk.specs.Tests.{test_tokens};
ghost use Rattle.path_walk.specs.Seen.{text_seen, line_map, lines_seen};
ghost use Rattle.path_walk.specs.Numbering.{text_at, texts_seen, FindsAll, IsNumber, IsLineNumbered, AreNumbered, AreApart};
ghost use Rattle.path_walk.specs.Feasible.{equals_of};
ghost use Rattle.path_walk.specs.Known.{HasEquals};

use crate::line::Line;
use crate::test::{FieldIs, Text, equals};
use crate::token::tokens_of;
use std::alloc::{AllocError, Global};
use std::collections::BTreeMap;

/// Texts by number, and numbers by text.
#[derive(Drop)]
pub struct Texts<'a> {
    pub list: Vec<Text<'a>>,
    pub numbers: BTreeMap<Vec<u64>, usize>,
}

impl<'a> Texts<'a> {
    pub fn new(alloc: Global) -> Self
        ensures list { result.list.items ≡ [] }
        ensures finds { FindsAll result }
    {
        Texts {
            list: Vec::new(alloc),
            numbers: BTreeMap::new(alloc),
        }
    }

    /// The number of the text that has these tokens.
    pub fn find(&self, key: &Vec<u64>) -> Option<usize>
        ensures { result ≡ get_by (λ k. slice_cmp nat_cmp key.now.items k.items) self.now.numbers }
    {
        self.numbers.get(key).copied()
    }

    /// The next number, for a text that has none yet.
    fn add(&mut self, key: Vec<u64>, text: Text<'a>) -> Result<usize, AllocError>
        requires finds { FindsAll self.old }
        requires tokens { key.items ≡ test_tokens (text_seen text) }
        requires none { get_by (λ k. slice_cmp nat_cmp key.items k.items) self.old.numbers ≡ None }
        ensures finds { OnOk result (FindsAll self.new) }
        ensures number { IfOk result (IsNumber (texts_seen self.old) (texts_seen self.new) (text_seen text.entry)) }
    {
        let number = self.list.len();
        self.list.push(text)?;
        self.numbers.insert(key, number)?;
        Ok(number)
    }

    /// The number of a text.
    pub fn number(&mut self, alloc: Global, text: Text<'a>) -> Result<usize, AllocError>
        requires { FindsAll self.old }
        ensures finds { OnOk result (FindsAll self.new) }
        ensures number { IfOk result (IsNumber (texts_seen self.old) (texts_seen self.new) (text_seen text.entry)) }
    {
        let key = tokens_of(alloc, &text)?;
        match self.find(&key) {
            Some(number) => Ok(number),
            None => self.add(key, text),
        }
    }
}

/// A line with a number for its test.
pub fn numbered_line<'a>(
    alloc: Global,
    line: &Line<Text<'a>>,
    texts: &mut Texts<'a>,
) -> Result<Line<usize>, AllocError>
    requires { FindsAll texts.old }
    ensures finds { OnOk result (FindsAll texts.new) }
    ensures line { IfOk result (IsLineNumbered (texts_seen texts.old) (texts_seen texts.new) (line_map text_seen line.now)) }
{
    match line {
        Line::Stop => Ok(Line::Stop),
        Line::Free { hit, miss } => Ok(Line::Free {
            hit: *hit,
            miss: *miss,
        }),
        Line::Test {
            test,
            exchanged,
            hit,
            miss,
        } => {
            let number = texts.number(alloc, *test)?;
            Ok(Line::Test {
                test: number,
                exchanged: *exchanged,
                hit: *hit,
                miss: *miss,
            })
        }
        Line::Make { made, taken, full } => Ok(Line::Make {
            made: *made,
            taken: *taken,
            full: *full,
        }),
    }
}

/// Lines whose tests go by number, and by number the texts, and what each says where it is
/// `field == number`.
#[derive(Drop)]
pub struct Numbered<'a> {
    pub lines: Vec<Line<usize>>,
    pub texts: Vec<Text<'a>>,
    pub equals: Vec<Option<FieldIs>>,
}

impl Numbered<'_> {
    /// What `field == number` says, where the test of this number is one.
    pub fn equals(&self, number: usize) -> Option<FieldIs>
        requires { HasEquals self.now }
        ensures { result ≡ equals_of (text_at (map text_seen self.now.texts.items) number) }
    {
        if number < self.equals.len() {
            self.equals[number]
        } else {
            None
        }
    }
}

/// What each text says where it is `field == number`.
fn all_equals(alloc: Global, texts: &[Text<'_>]) -> Result<Vec<Option<FieldIs>>, AllocError>
    ensures { IfOk result (λ all. all.items ≡ map equals_of (map text_seen texts.now)) }
{
    let mut all = Vec::new(alloc);
    for text in texts {
        all.push(equals(text))?;
    }
    Ok(all)
}

/// Lines with one number for each text that their tests have.
pub fn numbered_lines<'a>(
    alloc: Global,
    lines: &[Line<Text<'a>>],
) -> Result<Numbered<'a>, AllocError>
    ensures lines { IfOk result (λ all. AreNumbered (lines_seen lines.now) (map text_seen all.texts.items) all.lines.items) }
    ensures apart { IfOk result (λ all. AreApart (map text_seen all.texts.items)) }
    ensures equals { IfOk result HasEquals }
{
    let mut texts = Texts::new(alloc);
    let mut all = Vec::new(alloc);
    for line in lines {
        let one = numbered_line(alloc, line, &mut texts)?;
        all.push(one)?;
    }
    let equals = all_equals(alloc, texts.list.as_slice())?;
    let Texts { list, numbers: _ } = texts;
    Ok(Numbered {
        lines: all,
        texts: list,
        equals,
    })
}
