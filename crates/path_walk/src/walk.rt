//! A walk along lines: one path after the other, hit before miss.
ghost use Rattle.std.specs.Prelude.{◌≡◌, ◌<◌, ◌≤◌, ◌∷◌, ◌++◌, [], IfOk, OnOk, map, None, Some, List, ℕ, false, vec_len, IfErr, length};
ghost use Rattle.path_walk.specs.Seen.{text_seen};
ghost use Rattle.path_walk.specs.Known.{nothing_known, known_seen, excludes, HasEquals};
ghost use Rattle.path_walk.specs.Tests.{TestText};
ghost use Rattle.path_walk.specs.Trees.{Tree};
ghost use Rattle.path_walk.specs.Lines.{child, trees, IsLaid};
ghost use Rattle.path_walk.specs.Branches.{branch_seen};
ghost use Rattle.path_walk.specs.Walks.{ahead, behind, one_way, leaves, paths_of, Went, Waits, TestGoesOn, GoesOn, Steps, left_along, waiting_along, paths_from, AdvancesAlong};
ghost use Rattle.path_walk.specs.Listed.{IsCause};
ghost use Rattle.path_walk.specs.declared.line.Line.TheVariants as lines;
ghost use Rattle.nf_base.specs.Paths as text;
ghost use Rattle.path_walk.specs.declared.fault.WalkFault.TheVariants.{TooManyPaths};

use crate::branch::Branch;
use crate::fault::WalkFault;
use crate::known::Known;
use crate::line::Line;
use crate::numbering::Numbered;
use crate::test::FieldIs;
use std::alloc::{AllocError, Global};
use std::marker::Model;

/// How the statements of a path branch, in order: contracts see it as those branches.
#[derive(Drop)]
pub struct Path {
    branches: Vec<Branch>,
}

impl Model for Path {
    ghost use Rattle.std.specs.Prelude.{List, map};
    ghost use Rattle.nf_base.specs.Paths as text;
    ghost use Rattle.path_walk.specs.Branches.{branch_seen};

    ghost Value = { List text.Branch };

    ghost view = { λ a. map branch_seen a.branches.items };
}

impl Path {
    fn new(branches: Vec<Branch>) -> Path
        ensures { result ≡ map branch_seen branches.items }
    {
        Path { branches }
    }

    /// The branches in order.
    pub fn branches(&self) -> &[Branch]
        ensures { map branch_seen result.now ≡ self.now }
    {
        self.branches.as_slice()
    }
}

/// A path so far: the line that it comes to, what its tests say, and how its statements branched.
#[derive(Drop)]
pub struct Walk {
    pub at: usize,
    pub known: Known,
    pub branches: Vec<Branch>,
}

/// A test of the packet alone with the number of its text, and what it says where it is
/// `field == number`.
#[derive(Clone, Copy)]
pub struct NumberedTest {
    pub number: usize,
    pub equals: Option<FieldIs>,
    pub exchanged: bool,
    pub hit: usize,
    pub miss: usize,
}

impl Walk {
    /// The start of a path, with so many texts.
    fn new(alloc: Global, at: usize, texts: usize) -> Result<Walk, AllocError>
        ensures at { IfOk result (λ walk. walk.at ≡ at) }
        ensures known { IfOk result (λ walk. known_seen walk.known ≡ nothing_known texts) }
        ensures branches { IfOk result (λ walk. walk.branches.items ≡ []) }
    {
        let known = Known::new(alloc, texts)?;
        Ok(Walk {
            at,
            known,
            branches: Vec::new(alloc),
        })
    }

    /// Goes on at a line.
    fn go(&mut self, branch: Branch, at: usize) -> Result<(), AllocError>
        ensures { OnOk result (Went self.old self.new (branch_seen branch) at) }
    {
        self.branches.push(branch)?;
        self.at = at;
        Ok(())
    }

    /// The same path once more, to go on at another line.
    fn other(&self, alloc: Global, branch: Branch, at: usize) -> Result<Walk, AllocError>
        ensures { IfOk result (λ other. Went self.now other (branch_seen branch) at) }
    {
        let known = self.known.copy(alloc)?;
        let mut branches = Vec::from_slice(alloc, self.branches.as_slice())?;
        branches.push(branch)?;
        Ok(Walk {
            at,
            known,
            branches,
        })
    }

    /// Goes where a test leads that holds so.
    fn go_one_way(
        &mut self,
        exchanged: bool,
        holds: bool,
        hit: usize,
        miss: usize,
    ) -> Result<(), AllocError>
        ensures at { OnOk result ((n : ℕ) → hit < n → miss < n → self.new.at < n) }
        ensures paths { OnOk result ((texts : List TestText) (trees : List (Tree ℕ)) → paths_of texts trees self.new ≡ behind (map branch_seen self.old.branches.items) (one_way exchanged holds (ahead text.Hits (leaves texts (child trees hit) (known_seen self.old.known))) (ahead text.Misses (leaves texts (child trees miss) (known_seen self.old.known))))) }
    {
        if exchanged != holds {
            self.go(Branch::Hits, hit)
        } else {
            self.go(Branch::Misses, miss)
        }
    }
}

/// Another way of a path waits.
fn wait(
    alloc: Global,
    walk: &Walk,
    branch: Branch,
    at: usize,
    waiting: &mut Vec<Walk>,
) -> Result<(), AllocError>
    ensures { OnOk result (Waits (map branch_seen walk.now.branches.items ++ branch_seen branch ∷ []) (known_seen walk.now.known) at waiting.old.items waiting.new.items) }
{
    let other = walk.other(alloc, branch, at)?;
    waiting.push(other)?;
    Ok(())
}

/// Goes on at a look-up.
fn free(
    alloc: Global,
    hit: usize,
    miss: usize,
    walk: &mut Walk,
    waiting: &mut Vec<Walk>,
) -> Result<(), AllocError>
    ensures { OnOk result ((texts : List TestText) → GoesOn texts (lines.Free hit miss) walk.old waiting.old.items walk.new waiting.new.items) }
{
    wait(alloc, walk, Branch::Misses, miss, waiting)?;
    walk.go(Branch::Hits, hit)
}

/// Goes on at a `new`.
fn make(
    alloc: Global,
    made: usize,
    taken: usize,
    full: usize,
    walk: &mut Walk,
    waiting: &mut Vec<Walk>,
) -> Result<(), AllocError>
    ensures { OnOk result ((texts : List TestText) → GoesOn texts (lines.Make made taken full) walk.old waiting.old.items walk.new waiting.new.items) }
{
    wait(alloc, walk, Branch::IsFull, full, waiting)?;
    wait(alloc, walk, Branch::IsTaken, taken, waiting)?;
    walk.go(Branch::Makes, made)
}

/// Goes both ways at a test of no mark, the way where it hits first.
fn both_ways(
    alloc: Global,
    test: NumberedTest,
    walk: &mut Walk,
    waiting: &mut Vec<Walk>,
) -> Result<(), AllocError>
    requires { excludes test.equals (known_seen walk.old.known) ≡ false }
    ensures { OnOk result (TestGoesOn None test walk.old waiting.old.items walk.new waiting.new.items) }
{
    let mut other = walk.other(alloc, Branch::Misses, test.miss)?;
    other.known.tell(test.number, test.equals, test.exchanged);
    waiting.push(other)?;
    walk.known.tell(test.number, test.equals, !test.exchanged);
    walk.go(Branch::Hits, test.hit)
}

/// Goes on at a test of no mark: both ways, or as it has to go where its field is another number.
fn untold(
    alloc: Global,
    test: NumberedTest,
    walk: &mut Walk,
    waiting: &mut Vec<Walk>,
) -> Result<(), AllocError>
    ensures { OnOk result (TestGoesOn None test walk.old waiting.old.items walk.new waiting.new.items) }
{
    if walk.known.excludes(test.equals) {
        walk.known.tell(test.number, test.equals, false);
        walk.go_one_way(test.exchanged, false, test.hit, test.miss)
    } else {
        both_ways(alloc, test, walk, waiting)
    }
}

/// One step at a line: `false` where the walk ends there.
fn step(
    alloc: Global,
    line: &Line<usize>,
    numbered: &Numbered<'_>,
    walk: &mut Walk,
    waiting: &mut Vec<Walk>,
) -> Result<bool, AllocError>
    requires { HasEquals numbered.now }
    ensures { IfOk result (λ goes. Steps goes (map text_seen numbered.now.texts.items) line.now walk.old waiting.old.items walk.new waiting.new.items) }
{
    match line {
        Line::Stop => return Ok(false),
        Line::Free { hit, miss } => free(alloc, *hit, *miss, walk, waiting)?,
        Line::Test {
            test,
            exchanged,
            hit,
            miss,
        } => {
            if let Some(holds) = walk.known.mark(*test) {
                walk.go_one_way(*exchanged, holds, *hit, *miss)?;
                return Ok(true);
            }
            let test = NumberedTest {
                number: *test,
                equals: numbered.equals(*test),
                exchanged: *exchanged,
                hit: *hit,
                miss: *miss,
            };
            untold(alloc, test, walk, waiting)?
        }
        Line::Make { made, taken, full } => make(alloc, *made, *taken, *full, walk, waiting)?,
    }
    Ok(true)
}

/// One step of a walk: `false` where it ends.
fn advance(
    alloc: Global,
    numbered: &Numbered<'_>,
    walk: &mut Walk,
    waiting: &mut Vec<Walk>,
) -> Result<bool, AllocError>
    requires laid { IsLaid numbered.now.lines.items }
    requires equals { HasEquals numbered.now }
    ensures { IfOk result (AdvancesAlong numbered.now walk.old waiting.old.items walk.new waiting.new.items) }
{
    if walk.at < numbered.lines.len() {
        step(alloc, &numbered.lines[walk.at], numbered, walk, waiting)
    } else {
        Ok(false)
    }
}

/// Follows a walk to its end, while fewer than `room` others wait.
fn follow(
    alloc: Global,
    numbered: &Numbered<'_>,
    first: Walk,
    waiting: &mut Vec<Walk>,
    room: usize,
) -> Result<Path, WalkFault>
    requires laid { IsLaid numbered.now.lines.items }
    requires equals { HasEquals numbered.now }
    requires room { vec_len waiting.old < room }
    ensures left { IfOk result (λ path. left_along numbered.now first waiting.old.items ≡ path ∷ waiting_along numbered.now waiting.new.items) }
    ensures within { OnOk result (vec_len waiting.new < room) }
    ensures many { IfErr result (λ fault. fault ≡ TooManyPaths → room < length (left_along numbered.now first waiting.old.items)) }
{
    let mut walk = first;
    'steps: loop {
        let goes = advance(alloc, numbered, &mut walk, waiting)?;
        if !goes {
            let Walk { branches, .. } = walk;
            return Ok(Path::new(branches));
        }
        if waiting.len() >= room {
            return Err(WalkFault::TooManyPaths);
        }
    }
}

/// The most paths that are listed.
pub const MOST: usize = 4096;

/// The paths that begin at a line.
pub fn listed(alloc: Global, numbered: &Numbered<'_>, at: usize) -> Result<Vec<Path>, WalkFault>
    requires laid { IsLaid numbered.now.lines.items }
    requires equals { HasEquals numbered.now }
    ensures all { IfOk result (λ all. all.items ≡ paths_from numbered.now at) }
    ensures most { IfOk result (λ all. vec_len all ≤ 4096) }
    ensures many { IfErr result (IsCause (paths_from numbered.now at)) }
{
    let mut all = Vec::new(alloc);
    let mut waiting = Vec::new(alloc);
    let first = Walk::new(alloc, at, numbered.texts.len())?;
    waiting.push(first)?;
    while let Some(walk) = waiting.pop() {
        let path = follow(alloc, numbered, walk, &mut waiting, MOST - all.len())?;
        all.push(path)?;
    }
    Ok(all)
}
