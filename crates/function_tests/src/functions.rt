//! The function of a text, and why there is none.
ghost use Rattle.std.specs.Prelude.{IfOk};
ghost use Rattle.nf_base.specs.Functions.{function_of};
ghost use Rattle.declared_laws.specs.Declares.{DeclaresObjects};

use nf_base::func::Func;
use nf_base::packet::{Door, Family};
use nf_syntax::parse;
use nf_types::check;
use path_walk::{WalkFault, count_paths};
use std::alloc::Global;
use std::io;
use thiserror::Error;

/// Why nothing is said of a text.
#[derive(Clone, Copy, Debug, PartialEq, Eq, Error)]
pub enum Fault {
    #[error("not of the grammar")]
    Grammar,
    #[error("not well typed")]
    Types,
    /// A handler of its function has too many paths, or memory ran out on the way.
    #[error("{0}")]
    Walk(WalkFault),
}

/// The function of a text.
pub fn function(alloc: Global, text: &[u8]) -> Result<Func, Fault>
    ensures declares { IfOk result (λ func. DeclaresObjects (function_of func)) }
{
    let Ok(tree) = parse(alloc, text) else {
        return Err(Fault::Grammar);
    };
    match check(alloc, &tree) {
        Ok(func) => Ok(func),
        Err(_) => Err(Fault::Types),
    }
}

/// Fails where a handler of a function has more than 4,096 paths.
pub fn count_each(alloc: Global, func: &Func) -> Result<(), WalkFault> {
    for port in 0..func.handlers.len() {
        for family in [Family::Four, Family::Six] {
            count_paths(alloc, func, Door { port, family })?;
        }
    }
    Ok(())
}

/// Prints the bytes of a text.
pub fn print_text(rt: &HostRuntime, text: &[u8]) -> io::Result<()> {
    let words = String::from_utf8_lossy(rt.alloc(), text)?;
    print!(rt; "{words}")
}
