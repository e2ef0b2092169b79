ghost use Rattle.std.specs.Prelude.{◌≡◌, ◌∷◌, ◌<◌, [], OnOk, IfOk, length};
ghost use Rattle.nf_code.specs.Code.{IsBelow, Puts, block_at, read_as};

use nf_base::block::{Creation, Operation, Question};
use nf_base::expr::Expr;
use std::alloc::{AllocError, Global};
use std::marker::Model;

/// A statement of a handler, with the places of what may follow it.
#[derive(Clone, Copy)]
pub enum Op<'a> {
    /// A handler falls off its end.
    Falls,
    Forward(&'a Expr),
    Flood,
    Discard,
    Do {
        operation: &'a Operation,
        next: usize,
    },
    Ask {
        question: &'a Question,
        hit: usize,
        miss: usize,
    },
    Make {
        creation: &'a Creation,
        made: usize,
        taken: usize,
        full: usize,
    },
}

/// The statements of handlers by place, put from the last one on: what may follow one stands at a
/// lower place. Contracts see them with the last one first.
#[derive(Drop)]
pub struct Code<'a> {
    ops: Vec<Op<'a>>,
}

impl<'a> Model for Code<'a> {
    ghost use Rattle.std.specs.Prelude.{List, reverse};
    ghost use Rattle.nf_code.specs.declared.code.Op.{Op};
    ghost use Rattle.nf_code.specs.Code.{AreLow};
    ghost use Rattle.nf_base.specs.contracts.expr.Expr as e;
    ghost use Rattle.std.specs.Coded.{codes};

    ghost Value = { List Op };

    ghost coded = { Prim.hlevel (codes, e.the_row.coded) };

    ghost view = { λ c. reverse c.ops.items };

    ghost invariant = { λ c. AreLow (reverse c.ops.items) };
}

impl<'a> Code<'a> {
    pub fn new(alloc: Global) -> Code<'a>
        ensures { result ≡ [] }
    {
        Code {
            ops: Vec::new(alloc),
        }
    }

    /// How many statements there are: the place of the next one.
    pub fn len(&self) -> usize
        ensures { result ≡ length self.now }
    {
        self.ops.len()
    }

    /// The statement at a place. What may follow it stands below.
    #[inline]
    pub fn op(&self, at: usize) -> Op<'a>
        requires { at < length self.now }
        ensures reads { block_at self.now at ≡ read_as result (block_at self.now) }
        ensures below { IsBelow at result }
    {
        self.ops[at]
    }

    fn push(&mut self, op: Op<'a>) -> Result<(), AllocError>
        requires { IsBelow (length self.old) op }
        ensures ok { OnOk result (self.new ≡ op.entry ∷ self.old) }
    {
        self.ops.push(op)?;
        Ok(())
    }

    /// Puts a statement at the next place, and says which that is.
    pub(crate) fn put(&mut self, op: Op<'a>) -> Result<usize, AllocError>
        requires { IsBelow (length self.old) op }
        ensures { IfOk result (λ at.
            Puts (read_as op.entry (block_at self.old)) self.old self.new at) }
    {
        let at = self.len();
        self.push(op)?;
        Ok(at)
    }
}
