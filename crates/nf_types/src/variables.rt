//! The variables that are in scope.

ghost use Rattle.std.specs.Prelude.{◌≡◌, ◌<◌, ◌^◌, length};
ghost use Rattle.nf_tree.specs.View.{question_of};
ghost use Rattle.nf_types.specs.Blocks.{bound, bound_by};
ghost use Rattle.nf_types.specs.Names.{is_among};
ghost use Rattle.nf_types.specs.Variables.{names_of, variable_of, variable_named};
ghost use Rattle.nf_types.specs.View.{variables_of, chain_found_of};

use crate::objects::{Objects, chain_named};
use nf_base::decl::ChainDecl;
use nf_base::seq::Seq;
use nf_tree::{Name, Question};

/// The variables in scope, the innermost first. A variable's number is how many stand behind it.
#[derive(Clone, Copy)]
pub enum Variables<'a> {
    Empty,
    Bound {
        name: &'a Seq<u8>,
        /// The chain of its entry, where that is declared.
        chain: Option<&'a ChainDecl>,
        outer: &'a Variables<'a>,
    },
}

/// The variables in the first block of a statement that binds one.
pub fn bound<'a>(
    objects: &'a Objects,
    scope: &'a Variables<'a>,
    variable: &'a Name,
    chain: &Name,
) -> Variables<'a>
    ensures { variables_of result
        ≡ bound objects.now (variables_of scope.now) variable.now chain.now }
{
    Variables::Bound {
        name: &variable.bytes,
        chain: match chain_named(objects, chain) {
            Some((_, found)) => Some(found),
            None => None,
        },
        outer: scope,
    }
}

/// The variables where a question hits.
pub fn bound_by<'a>(
    objects: &'a Objects,
    scope: &'a Variables<'a>,
    question: &'a Question,
) -> Variables<'a>
    ensures { variables_of result
        ≡ bound_by objects.now (variables_of scope.now) (question_of question.now) }
{
    match question {
        Question::Get {
            variable,
            chain,
            ..
        } => bound(objects, scope, variable, chain),
        Question::Find {
            variable,
            chain,
            ..
        } => bound(objects, scope, variable, chain),
        Question::Test { .. } => *scope,
    }
}

/// How many are in scope.
pub fn count(variables: &Variables) -> u32
    requires { length (variables_of variables.now) < 2 ^ 32 }
    ensures { result ≡ length (variables_of variables.now) }
{
    let mut all = 0;
    let mut rest = variables;
    while let Variables::Bound { outer, .. } = rest {
        all += 1;
        rest = outer;
    }
    all
}

/// The number of a variable in scope.
pub fn number_of(variables: &Variables, name: &Seq<u8>) -> u32
    requires { length (variables_of variables.now) < 2 ^ 32 }
    ensures { result ≡ variable_of (variables_of variables.now) name.now }
{
    let mut rest = variables;
    while let Variables::Bound {
        name: bound,
        outer,
        ..
    } = rest
    {
        if name.as_slice() == bound.as_slice() {
            return count(outer);
        }
        rest = outer;
    }
    0
}

/// The chain of the entry of a variable in scope, where that is declared.
pub fn chain_of<'a>(variables: &Variables<'a>, name: &Seq<u8>) -> Option<Option<&'a ChainDecl>>
    ensures { chain_found_of result ≡ variable_named (variables_of variables.now) name.now }
{
    let mut rest = variables;
    while let Variables::Bound {
        name: bound,
        chain,
        outer,
    } = rest
    {
        if name.as_slice() == bound.as_slice() {
            return Some(*chain);
        }
        rest = outer;
    }
    None
}

pub fn is_in_scope(variables: &Variables, name: &Seq<u8>) -> bool
    ensures { result ≡ is_among name.now (names_of (variables_of variables.now)) }
{
    let mut rest = variables;
    while let Variables::Bound {
        name: bound,
        outer,
        ..
    } = rest
    {
        if name.as_slice() == bound.as_slice() {
            return true;
        }
        rest = outer;
    }
    false
}
