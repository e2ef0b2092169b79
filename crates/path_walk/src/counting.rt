//! How many paths begin at a line: a walk that keeps what its tests say, and lists nothing.
ghost use Rattle.std.specs.Prelude.{◌≡◌, ◌<◌, ◌≤◌, ◌+◌, IfOk, OnOk, IfErr, IfSome, map, None, List, true, false, vec_len, length};
ghost use Rattle.path_walk.specs.Seen.{text_seen};
ghost use Rattle.path_walk.specs.Known.{nothing_known, known_seen, excludes, HasEquals, is_told, AreTold};
ghost use Rattle.path_walk.specs.Tests.{TestText};
ghost use Rattle.path_walk.specs.Lines.{IsLaid};
ghost use Rattle.path_walk.specs.Walks.{one_way, paths_from};
ghost use Rattle.path_walk.specs.Counts.{PointWaits, TestCounts, LineCounts, CountSteps, CountAdvancesAlong, count_along, count_left_along, count_waiting_along, IsPlain, AreAhead};
ghost use Rattle.path_walk.specs.Listed.{IsCause};
ghost use Rattle.path_walk.specs.declared.line.Line.TheVariants as lines;
ghost use Rattle.path_walk.specs.declared.fault.WalkFault.TheVariants.{TooManyPaths};

use crate::fault::WalkFault;
use crate::known::Known;
use crate::line::Line;
use crate::numbering::Numbered;
use crate::walk::{MOST, NumberedTest};
use std::alloc::{AllocError, Global};

/// A path so far: the line that it comes to, and what its tests say.
#[derive(Drop)]
pub struct Point {
    pub at: usize,
    pub known: Known,
}

/// Another way of a path waits.
fn wait(alloc: Global, point: &Point, at: usize, waiting: &mut Vec<Point>) -> Result<(), AllocError>
    ensures { OnOk result (PointWaits (known_seen point.now.known) at waiting.old.items waiting.new.items) }
{
    let known = point.known.copy(alloc)?;
    waiting.push(Point { at, known })?;
    Ok(())
}

/// Goes on at a look-up.
fn free(
    alloc: Global,
    hit: usize,
    miss: usize,
    point: &mut Point,
    waiting: &mut Vec<Point>,
) -> Result<(), AllocError>
    ensures { OnOk result ((texts : List TestText) → LineCounts texts (lines.Free hit miss) point.old waiting.old.items point.new waiting.new.items) }
{
    wait(alloc, point, miss, waiting)?;
    point.at = hit;
    Ok(())
}

/// Goes on at a `new`.
fn make(
    alloc: Global,
    made: usize,
    taken: usize,
    full: usize,
    point: &mut Point,
    waiting: &mut Vec<Point>,
) -> Result<(), AllocError>
    ensures { OnOk result ((texts : List TestText) → LineCounts texts (lines.Make made taken full) point.old waiting.old.items point.new waiting.new.items) }
{
    wait(alloc, point, full, waiting)?;
    wait(alloc, point, taken, waiting)?;
    point.at = made;
    Ok(())
}

/// Where a test leads that holds so.
fn way(exchanged: bool, holds: bool, hit: usize, miss: usize) -> usize
    ensures { result ≡ one_way exchanged holds hit miss }
{
    if exchanged != holds { hit } else { miss }
}

/// Goes both ways at a test of no mark, the way where it hits first.
fn both_ways(
    alloc: Global,
    test: NumberedTest,
    point: &mut Point,
    waiting: &mut Vec<Point>,
) -> Result<(), AllocError>
    requires { excludes test.equals (known_seen point.old.known) ≡ false }
    ensures { OnOk result (TestCounts None test point.old waiting.old.items point.new waiting.new.items) }
{
    let mut known = point.known.copy(alloc)?;
    known.tell(test.number, test.equals, test.exchanged);
    waiting.push(Point {
        at: test.miss,
        known,
    })?;
    point.known.tell(test.number, test.equals, !test.exchanged);
    point.at = test.hit;
    Ok(())
}

/// Goes on at a test of no mark: both ways, or as it has to go where its field is another number.
fn untold(
    alloc: Global,
    test: NumberedTest,
    point: &mut Point,
    waiting: &mut Vec<Point>,
) -> Result<(), AllocError>
    ensures { OnOk result (TestCounts None test point.old waiting.old.items point.new waiting.new.items) }
{
    if point.known.excludes(test.equals) {
        point.known.tell(test.number, test.equals, false);
        point.at = way(test.exchanged, false, test.hit, test.miss);
        Ok(())
    } else {
        both_ways(alloc, test, point, waiting)
    }
}

/// One step at a line: `false` where the path ends there.
fn step(
    alloc: Global,
    line: &Line<usize>,
    numbered: &Numbered<'_>,
    point: &mut Point,
    waiting: &mut Vec<Point>,
) -> Result<bool, AllocError>
    requires { HasEquals numbered.now }
    ensures { IfOk result (λ goes. CountSteps goes (map text_seen numbered.now.texts.items) line.now point.old waiting.old.items point.new waiting.new.items) }
{
    match line {
        Line::Stop => return Ok(false),
        Line::Free { hit, miss } => free(alloc, *hit, *miss, point, waiting)?,
        Line::Test {
            test,
            exchanged,
            hit,
            miss,
        } => {
            // What a test says whose two ways are one is not waited for.
            if *hit == *miss && point.known.is_marked(*test) {
                point.at = *hit;
                return Ok(true);
            }
            if let Some(holds) = point.known.mark(*test) {
                point.at = way(*exchanged, holds, *hit, *miss);
                return Ok(true);
            }
            let test = NumberedTest {
                number: *test,
                equals: numbered.equals(*test),
                exchanged: *exchanged,
                hit: *hit,
                miss: *miss,
            };
            untold(alloc, test, point, waiting)?
        }
        Line::Make { made, taken, full } => make(alloc, *made, *taken, *full, point, waiting)?,
    }
    Ok(true)
}

/// How many texts, where a line is an end or a test that has one of them: at least so many.
fn texts_with(line: &Line<usize>, texts: usize) -> Option<usize>
    ensures plain { IfSome result (λ count. IsPlain count line.now) }
    ensures least { IfSome result (λ count. texts ≤ count) }
{
    match line {
        Line::Stop => Some(texts),
        Line::Free { .. } => None,
        Line::Test { test, .. } => {
            if *test < texts {
                Some(texts)
            } else {
                test.checked_add(1)
            }
        }
        Line::Make { .. } => None,
    }
}

/// Of the first lines, as long as they are ends and tests of the packet alone, how many texts, from
/// the first on, stand there and ahead. Texts are numbered from the block's end on.
fn texts_ahead(alloc: Global, numbered: &Numbered<'_>) -> Result<Vec<usize>, AllocError>
    ensures { IfOk result (λ ahead. AreAhead numbered.now.lines.items ahead.items) }
{
    let mut ahead = Vec::new(alloc);
    let mut texts = 0;
    for line in numbered.lines.as_slice() {
        let Some(count) = texts_with(line, texts) else {
            return Ok(ahead);
        };
        ahead.push(count)?;
        texts = count;
    }
    Ok(ahead)
}

/// Whether a text can go one way alone.
fn is_told(numbered: &Numbered<'_>, known: &Known, number: usize) -> bool
    requires { HasEquals numbered.now }
    ensures { result ≡ is_told (map text_seen numbered.now.texts.items) (known_seen known.now) number }
{
    known.is_marked(number) || known.excludes(numbered.equals(number))
}

/// Whether each of the first so many texts can go one way alone.
fn are_told(numbered: &Numbered<'_>, known: &Known, count: usize) -> bool
    requires { HasEquals numbered.now }
    ensures { result ≡ true → AreTold (map text_seen numbered.now.texts.items) (known_seen known.now) count }
{
    for number in 0..count {
        if !is_told(numbered, known, number) {
            return false;
        }
    }
    true
}

/// One step of a path: `false` where it ends.
fn advance(
    alloc: Global,
    numbered: &Numbered<'_>,
    point: &mut Point,
    waiting: &mut Vec<Point>,
) -> Result<bool, AllocError>
    requires laid { IsLaid numbered.now.lines.items }
    requires equals { HasEquals numbered.now }
    ensures { IfOk result (CountAdvancesAlong numbered.now point.old waiting.old.items point.new waiting.new.items) }
{
    if point.at < numbered.lines.len() {
        step(alloc, &numbered.lines[point.at], numbered, point, waiting)
    } else {
        Ok(false)
    }
}

/// Whether a point comes to tests alone, each of which can go one way alone.
fn is_settled(numbered: &Numbered<'_>, ahead: &[usize], point: &Point) -> bool
    requires laid { IsLaid numbered.now.lines.items }
    requires equals { HasEquals numbered.now }
    requires ahead { AreAhead numbered.now.lines.items ahead.now }
    ensures { result ≡ true → count_along numbered.now point.now ≡ 1 }
{
    point.at < ahead.len() && are_told(numbered, &point.known, ahead[point.at])
}

/// Follows a path until it has one way left, while fewer than `room` others wait.
fn follow(
    alloc: Global,
    numbered: &Numbered<'_>,
    ahead: &[usize],
    first: Point,
    waiting: &mut Vec<Point>,
    room: usize,
) -> Result<(), WalkFault>
    requires laid { IsLaid numbered.now.lines.items }
    requires equals { HasEquals numbered.now }
    requires ahead { AreAhead numbered.now.lines.items ahead.now }
    requires room { vec_len waiting.old < room }
    ensures left { OnOk result (count_left_along numbered.now first waiting.old.items ≡ 1 + count_waiting_along numbered.now waiting.new.items) }
    ensures within { OnOk result (vec_len waiting.new < room) }
    ensures many { IfErr result (λ fault. fault ≡ TooManyPaths → room < count_left_along numbered.now first waiting.old.items) }
{
    let mut point = first;
    if is_settled(numbered, ahead, &point) {
        return Ok(());
    }
    'steps: loop {
        let others = waiting.len();
        let goes = advance(alloc, numbered, &mut point, waiting)?;
        if !goes {
            return Ok(());
        }
        if waiting.len() >= room {
            return Err(WalkFault::TooManyPaths);
        }
        // What a path knows is looked at where it branches, not at each of its tests.
        if waiting.len() > others && is_settled(numbered, ahead, &point) {
            return Ok(());
        }
    }
}

/// How many paths begin at a line.
pub fn counted(alloc: Global, numbered: &Numbered<'_>, at: usize) -> Result<u32, WalkFault>
    requires laid { IsLaid numbered.now.lines.items }
    requires equals { HasEquals numbered.now }
    ensures all { IfOk result (λ n. n ≡ length (paths_from numbered.now at)) }
    ensures most { IfOk result (λ n. n ≤ 4096) }
    ensures many { IfErr result (IsCause (paths_from numbered.now at)) }
{
    let ahead = texts_ahead(alloc, numbered)?;
    let mut count = 0;
    let mut waiting = Vec::new(alloc);
    let known = Known::new(alloc, numbered.texts.len())?;
    waiting.push(Point { at, known })?;
    while let Some(point) = waiting.pop() {
        follow(
            alloc,
            numbered,
            ahead.as_slice(),
            point,
            &mut waiting,
            MOST - count,
        )?;
        count += 1;
    }
    Ok(count as u32)
}
