//! A checker of trees.
ghost use Rattle.std.specs.Prelude.{◌≡◌, ◌+◌, ◌<◌, ◌≤◌, ℕ, suc, List, ◌∷◌, [], All, OnOk, IfOk, true, false, Some, None, if◌then◌else◌, length};
ghost use Rattle.certificate_laws.specs.declared.line.Line.TheVariants as line;
ghost use Rattle.certificate_laws.specs.Terms as sums;
ghost use Rattle.gf2_solve.specs.Sums.{bit};
ghost use Rattle.certificate_laws.specs.Fixed.{with_bit, none_fixed};
ghost use Rattle.certificate_laws.specs.declared.line.Span.{Span};
ghost use Rattle.certificate_laws.specs.Due.{Due, Whole, after, after_tree, after_sum, after_name, with_zeros, nots};
ghost use Rattle.certificate_laws.specs.Terms.{alone, rows_at};
ghost use Rattle.certificate_check.specs.Adding as adding;
ghost use Rattle.certificate_check.specs.Adding.{wanted_row};
ghost use Rattle.certificate_check.specs.declared.tasks.Ask.{Ask};
ghost use Rattle.certificate_check.specs.Tasks.{due_of_ask, IsWithin};
ghost use Rattle.certificate_check.specs.Checking.{Checking, due, width, is_none_due};

use crate::naming::push_nots;
use crate::spans::is_span;
use crate::sums::is_sum;
use crate::tasks::{Ask, Task, next};
use certificate_laws::{Line, Span, Term};
use nf_base::seq::Seq;
use std::alloc::{AllocError, Global};
use std::marker::Model;

/// Checks trees, line by line.
#[derive(Drop)]
pub struct Checker {
    rows: Seq<Seq<u32>>,
    spans: Seq<Span>,
    fixed: Vec<Option<bool>>,
    tasks: Vec<Task>,
}

impl Model for Checker {
    ghost use Rattle.certificate_check.specs.Checking.{Checking, checking, Fits};

    ghost Value = { Checking };

    ghost view = { λ a. checking a.rows a.spans a.fixed.items a.tasks.items };

    ghost invariant = { λ a. Fits (checking a.rows a.spans a.fixed.items a.tasks.items) };
}

impl Checker {
    /// Whether a sum is this place alone with the value 0, or nothing with the value 1.
    fn is_right(
        &self,
        alloc: Global,
        terms: &[Term],
        place: Option<usize>,
        one: bool,
    ) -> Result<bool, AllocError>
        requires { (i : ℕ) → place ≡ Some i → i < width self.now }
        ensures { IfOk result (λ yes. yes ≡ sums.is_sum (rows_at self.now.rows) self.now.fixed terms.now (wanted_row place) one) }
    {
        is_sum(
            alloc,
            self.rows.as_slice(),
            self.fixed.as_slice(),
            terms,
            place,
            one,
        )
    }

    /// Asks for something next.
    fn ask(&mut self, ask: Ask) -> Result<(), AllocError>
        requires { IsWithin (width self.old) (Task.Ask ask) }
        ensures same { OnOk result (self.new.fixed ≡ self.old.fixed) }
        ensures rows { OnOk result (self.new.rows ≡ self.old.rows) }
        ensures spans { OnOk result (self.new.spans ≡ self.old.spans) }
        ensures due { OnOk result (due self.new ≡ due_of_ask self.old.fixed ask ∷ due self.old) }
    {
        self.tasks.push(Task::Ask(ask))?;
        Ok(())
    }

    /// Takes a sum, and says whether it is right.
    fn sum_line(
        &self,
        alloc: Global,
        line: &Line,
        place: Option<usize>,
        one: bool,
    ) -> Result<bool, AllocError>
        requires { (i : ℕ) → place ≡ Some i → i < width self.now }
        ensures { (next : List Due) → IfOk result (λ yes.
            after_sum (rows_at self.now.rows) self.now.fixed (wanted_row place) one next line.now
            ≡ (if yes then Some next else None)) }
    {
        match line {
            Line::Sum(terms) => self.is_right(alloc, terms.as_slice(), place, one),
            Line::Row(_named) => Ok(false),
            Line::Key { .. } => Ok(false),
            Line::Not(_place) => Ok(false),
            Line::Split(_place) => Ok(false),
            Line::Clash => Ok(false),
            Line::Zero(_span) => Ok(false),
        }
    }

    /// Asks for the sums of so many places, if there are any.
    fn zeros(&mut self, place: u32, count: u32) -> Result<(), AllocError>
        requires { place + count ≤ width self.old }
        ensures same { OnOk result (self.new.fixed ≡ self.old.fixed) }
        ensures rows { OnOk result (self.new.rows ≡ self.old.rows) }
        ensures spans { OnOk result (self.new.spans ≡ self.old.spans) }
        ensures due { OnOk result (due self.new ≡ with_zeros self.old.fixed place count (due self.old)) }
    {
        if count > 0 {
            self.ask(Ask::Zeros {
                place,
                further: count - 1,
            })?;
        }
        Ok(())
    }

    /// Asks for two trees, with a bit fixed to 0 and then to 1; false where there is no such bit.
    #[tactic(auto, using(crate::proofs::Splitting::split_is, crate::proofs::Splitting::split_is_none))]
    fn split(&mut self, place: u32) -> Result<bool, AllocError>
        ensures rows { OnOk result (self.new.rows ≡ self.old.rows) }
        ensures spans { OnOk result (self.new.spans ≡ self.old.spans) }
        ensures width { OnOk result (width self.new ≡ width self.old) }
        ensures due { IfOk result (λ taken.
            after_tree (rows_at self.old.rows) self.old.spans self.old.fixed (due self.old) (line.Split place)
            ≡ (if taken then Some (due self.new) else None)) }
    {
        if place as usize >= self.fixed.len() {
            return Ok(false);
        }
        self.split_at(place)?;
        Ok(true)
    }

    /// Asks for two trees, with a bit fixed to 0 and then to 1.
    #[tactic(auto, using(crate::proofs::Splitting::split_due, crate::proofs::Splitting::split_fits))]
    fn split_at(&mut self, place: u32) -> Result<(), AllocError>
        requires { place < width self.old }
        ensures rows { OnOk result (self.new.rows ≡ self.old.rows) }
        ensures spans { OnOk result (self.new.spans ≡ self.old.spans) }
        ensures width { OnOk result (width self.new ≡ width self.old) }
        ensures due { OnOk result (due self.new
            ≡ Whole (with_bit place false self.old.fixed)
            ∷ Whole (with_bit place true self.old.fixed) ∷ due self.old) }
    {
        let value = self.fixed[place as usize];
        self.tasks.push(Task::Fix { place, value })?;
        self.tasks.push(Task::Ask(Ask::Tree))?;
        self.tasks.push(Task::Fix {
            place,
            value: Some(true),
        })?;
        self.tasks.push(Task::Ask(Ask::Tree))?;
        self.fixed[place as usize] = Some(false);
        Ok(())
    }

    /// Takes the first line of the zeros of a span.
    #[tactic(auto, using(crate::proofs::Taking::span_within))]
    fn zero(&mut self, span: Span) -> Result<bool, AllocError>
        ensures rows { OnOk result (self.new.rows ≡ self.old.rows) }
        ensures spans { OnOk result (self.new.spans ≡ self.old.spans) }
        ensures width { OnOk result (width self.new ≡ width self.old) }
        ensures due { IfOk result (λ taken.
            after_tree (rows_at self.old.rows) self.old.spans self.old.fixed (due self.old) (line.Zero span)
            ≡ (if taken then Some (due self.new) else None)) }
    {
        if !is_span(self.spans.as_slice(), span) {
            return Ok(false);
        }
        self.zeros(span.first, span.count)?;
        Ok(true)
    }

    /// Takes the first line of a tree, and says whether it is one.
    fn tree_line(&mut self, line: &Line) -> Result<bool, AllocError>
        ensures rows { OnOk result (self.new.rows ≡ self.old.rows) }
        ensures spans { OnOk result (self.new.spans ≡ self.old.spans) }
        ensures width { OnOk result (width self.new ≡ width self.old) }
        ensures due { IfOk result (λ taken.
            after_tree (rows_at self.old.rows) self.old.spans self.old.fixed (due self.old) line.now
            ≡ (if taken then Some (due self.new) else None)) }
    {
        match line {
            Line::Split(place) => self.split(*place),
            Line::Clash => {
                self.ask(Ask::Clash)?;
                Ok(true)
            }
            Line::Zero(span) => self.zero(*span),
            Line::Sum(_terms) => Ok(false),
            Line::Not(_place) => Ok(false),
            Line::Row(_named) => Ok(false),
            Line::Key { .. } => Ok(false),
        }
    }

    /// Takes the sum of a place, which so many follow, and says whether it is right.
    fn zeros_line(
        &mut self,
        alloc: Global,
        line: &Line,
        place: u32,
        further: u32,
    ) -> Result<bool, AllocError>
        requires { place + further < width self.old }
        ensures rows { OnOk result (self.new.rows ≡ self.old.rows) }
        ensures spans { OnOk result (self.new.spans ≡ self.old.spans) }
        ensures width { OnOk result (width self.new ≡ width self.old) }
        ensures due { IfOk result (λ taken.
            after_sum (rows_at self.old.rows) self.old.fixed (alone place) false
            (with_zeros self.old.fixed (suc place) further (due self.old)) line.now
            ≡ (if taken then Some (due self.new) else None)) }
    {
        let _ = &self.rows;
        if !self.sum_line(alloc, line, Some(place as usize), false)? {
            return Ok(false);
        }
        if further > 0 {
            self.ask(Ask::Zeros {
                place: place + 1,
                further: further - 1,
            })?;
        }
        Ok(true)
    }

    /// Goes on to what is asked next.
    fn next(&mut self) -> Option<Ask>
        ensures rows { self.new.rows ≡ self.old.rows }
        ensures spans { self.new.spans ≡ self.old.spans }
        ensures width { width self.new ≡ width self.old }
        ensures none { result ≡ None → due self.old ≡ [] }
        ensures some { (ask : Ask) → result ≡ Some ask →
            due self.old ≡ due_of_ask self.new.fixed ask ∷ due self.new }
        ensures asked { (ask : Ask) → result ≡ Some ask →
            IsWithin (width self.new) (Task.Ask ask) }
    {
        next(&mut self.fixed, &mut self.tasks)
    }

    /// Whether a line names this bit.
    fn name_line(&self, line: &Line, place: u32) -> bool
        ensures { (next : List Due) →
            after_name place next line.now ≡ (if result then Some next else None) }
    {
        match line {
            Line::Not(other) => *other == place,
            Line::Sum(_terms) => false,
            Line::Row(_named) => false,
            Line::Key { .. } => false,
            Line::Split(_place) => false,
            Line::Clash => false,
            Line::Zero(_span) => false,
        }
    }

    /// Takes a line where something is asked, and says whether it is right.
    fn answer(&mut self, alloc: Global, ask: Ask, line: &Line) -> Result<bool, AllocError>
        requires { IsWithin (width self.old) (Task.Ask ask) }
        ensures rows { OnOk result (self.new.rows ≡ self.old.rows) }
        ensures spans { OnOk result (self.new.spans ≡ self.old.spans) }
        ensures width { OnOk result (width self.new ≡ width self.old) }
        ensures due { IfOk result (λ taken.
            after (rows_at self.old.rows) self.old.spans (due_of_ask self.old.fixed ask ∷ due self.old) line.now
            ≡ (if taken then Some (due self.new) else None)) }
    {
        match ask {
            Ask::Name { place } => Ok(self.name_line(line, place)),
            Ask::Tree => self.tree_line(line),
            Ask::Clash => self.sum_line(alloc, line, None, true),
            Ask::Zeros { place, further } => self.zeros_line(alloc, line, place, further),
        }
    }

    /// Takes a line, and says whether it is right.
    #[tactic(auto, using(crate::proofs::Taking::none_asked, crate::proofs::Taking::answered))]
    pub fn line(&mut self, alloc: Global, line: &Line) -> Result<bool, AllocError>
        ensures rows { OnOk result (self.new.rows ≡ self.old.rows) }
        ensures spans { OnOk result (self.new.spans ≡ self.old.spans) }
        ensures width { OnOk result (width self.new ≡ width self.old) }
        ensures due { IfOk result (λ taken.
            after (rows_at self.old.rows) self.old.spans (due self.old) line.now
            ≡ (if taken then Some (due self.new) else None)) }
    {
        match self.next() {
            None => Ok(false),
            Some(ask) => self.answer(alloc, ask, line),
        }
    }

    /// A checker of one tree over so many bits, of which none is fixed.
    pub fn of_tree(
        alloc: Global,
        n: u32,
        rows: Seq<Seq<u32>>,
        spans: Seq<Span>,
    ) -> Result<Checker, AllocError>
        requires few { n ≤ 65536 }
        requires rows { adding.IsWithin n rows }
        requires spans { All (λ (s : Span). s.first + s.count ≤ n) spans }
        ensures rows { IfOk result (λ c. c.rows ≡ rows) }
        ensures spans { IfOk result (λ c. c.spans ≡ spans) }
        ensures width { IfOk result (λ c. width c ≡ n) }
        ensures due { IfOk result (λ c. due c ≡ Whole (none_fixed n) ∷ []) }
    {
        let fixed = vec![in alloc; None; n as usize]?;
        let mut tasks = Vec::new(alloc);
        tasks.push(Task::Ask(Ask::Tree))?;
        Ok(Checker {
            rows,
            spans,
            fixed,
            tasks,
        })
    }

    /// A checker of a vector: of each of its bits that counts and isn't the wanted one the name is
    /// due, and a tree.
    pub fn of_vector(
        alloc: Global,
        rows: Seq<Seq<u32>>,
        spans: Seq<Span>,
        counted: &[bool],
        wanted: &[bool],
        x: &[bool],
    ) -> Result<Checker, AllocError>
        requires few { length x.now ≤ 65536 }
        requires rows { adding.IsWithin (length x.now) rows }
        requires spans { All (λ (s : Span). s.first + s.count ≤ length x.now) spans }
        requires counted { length counted.now ≡ length x.now }
        requires wanted { length wanted.now ≡ length x.now }
        ensures rows { IfOk result (λ c. c.rows ≡ rows) }
        ensures spans { IfOk result (λ c. c.spans ≡ spans) }
        ensures width { IfOk result (λ c. width c ≡ length x.now) }
        ensures due { IfOk result (λ c. due c
            ≡ nots (bit counted.now) (length x.now) wanted.now x.now (length x.now) 0) }
    {
        let fixed = vec![in alloc; None; x.len()]?;
        let mut tasks = Vec::new(alloc);
        push_nots(&mut tasks, counted, wanted, x)?;
        Ok(Checker {
            rows,
            spans,
            fixed,
            tasks,
        })
    }

    /// Whether nothing is due.
    #[tactic(auto, using(crate::proofs::Taking::none_is_due, crate::proofs::Taking::one_is_due))]
    pub fn is_done(&mut self) -> bool
        ensures { result ≡ is_none_due (due self.old) }
    {
        match self.next() {
            None => true,
            Some(_ask) => false,
        }
    }
}
