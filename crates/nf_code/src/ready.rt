ghost use Rattle.std.specs.Prelude.{◌≡◌, map, None, IfOk, IfSome, IfNone};
ghost use Rattle.nf_base.specs.Doors.{handler_at};
ghost use Rattle.nf_base.specs.Functions.{function_of};
ghost use Rattle.nf_base.specs.Handlers.{blocks_of};
ghost use Rattle.nf_base.specs.View.{block_of};
ghost use Rattle.nf_code.specs.Code.{Keeps};
ghost use Rattle.nf_code.specs.Ready.{AllBegin, Begin, Begins, Falls, Stands};

use crate::code::{Code, Op};
use crate::emit::emit;
use nf_base::func::Func;
use nf_base::handler::Handler;
use nf_base::limited::Limited;
use nf_base::packet::{Door, Family};
use nf_base::port_handlers::PortHandlers;
use std::alloc::{AllocError, Global};
use std::marker::Model;

/// Where the handlers of a port begin.
#[derive(Clone, Copy)]
pub struct Starts {
    pub four: usize,
    pub six: Option<usize>,
}

/// A network function made ready to run. Contracts see it as the function.
#[derive(Drop)]
pub struct Ready<'a> {
    func: &'a Func,
    code: Code<'a>,
    /// One for each port.
    starts: Limited<Starts, 4>,
}

impl<'a> Model for Ready<'a> {
    ghost use Rattle.std.specs.Prelude.{map};
    ghost use Rattle.nf_base.specs.Handlers.{blocks_of};
    ghost use Rattle.nf_base.specs.declared.func.Func.{Func};
    ghost use Rattle.nf_code.specs.Ready.{AllBegin};
    ghost use Rattle.nf_base.specs.contracts.func.Func as f;

    ghost Value = { Func };

    ghost coded = { f.the_row.coded };

    ghost view = { λ r. r.func.now };

    ghost invariant = { λ r. AllBegin r.code (map blocks_of r.func.now.handlers) r.starts };
}

/// Puts a handler, which falls off its end at a place, and says where it begins.
fn start<'a>(
    alloc: Global,
    code: &mut Code<'a>,
    handler: &'a Handler,
    falls: usize,
) -> Result<usize, AllocError>
    requires { Falls code.old falls }
    ensures keeps { IfOk result (λ _. Keeps code.old code.new) }
    ensures stands { IfOk result (λ at. Stands code.new (block_of handler.now.block) at) }
{
    emit(alloc, code, &handler.block, falls)
}

/// Puts the handlers of a port, and says where they begin.
fn starts_of<'a>(
    alloc: Global,
    code: &mut Code<'a>,
    handlers: &'a PortHandlers,
    falls: usize,
) -> Result<Starts, AllocError>
    requires { Falls code.old falls }
    ensures keeps { IfOk result (λ _. Keeps code.old code.new) }
    ensures begin { IfOk result (λ starts. Begin code.new (blocks_of handlers.now) starts) }
{
    let four = start(alloc, code, &handlers.four, falls)?;
    let six = match &handlers.six {
        None => None,
        Some(handler) => Some(start(alloc, code, handler, falls)?),
    };
    Ok(Starts { four, six })
}

/// Puts the handlers of each port, and says where they begin.
fn all_starts<'a>(
    alloc: Global,
    code: &mut Code<'a>,
    handlers: &'a Limited<PortHandlers, 4>,
    falls: usize,
) -> Result<Limited<Starts, 4>, AllocError>
    requires { Falls code.old falls }
    ensures { IfOk result (λ starts. AllBegin code.new (map blocks_of handlers.now) starts) }
{
    let mut all = Limited::new(alloc);
    for one in handlers.as_slice() {
        all.push(starts_of(alloc, code, one, falls)?)?;
    }
    Ok(all)
}

impl<'a> Ready<'a> {
    /// Makes a function ready: an `Err` only for want of memory.
    pub fn of(alloc: Global, func: &'a Func) -> Result<Ready<'a>, AllocError>
        ensures { IfOk result (λ ready. ready ≡ func.now) }
    {
        let mut code = Code::new(alloc);
        let falls = code.put(Op::Falls)?;
        let starts = all_starts(alloc, &mut code, &func.handlers, falls)?;
        Ok(Ready { func, code, starts })
    }
}

impl<'a> Ready<'a> {
    pub fn func(&self) -> &'a Func
        ensures { result.now ≡ self.now }
    {
        self.func
    }

    /// The code of a function, and the place where the handler of a port for packets of a family
    /// begins, if there is one.
    pub fn start(&self, door: Door) -> Option<(&Code<'a>, usize)>
        ensures some { IfSome result (λ s. Begins self.now door s.0.now s.1) }
        ensures none { IfNone result (handler_at (function_of self.now) door ≡ None) }
    {
        if door.port >= self.starts.len() {
            return None;
        }
        let starts = self.starts.item(door.port);
        match door.family {
            Family::Four => Some((&self.code, starts.four)),
            Family::Six => match starts.six {
                Some(at) => Some((&self.code, at)),
                None => None,
            },
        }
    }
}
