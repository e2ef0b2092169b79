//! Which objects a function's text writes.
ghost use Rattle.std.specs.Prelude.{◌≡◌, map};
ghost use Rattle.std.specs.List.{list_any};
ghost use Rattle.nf_base.specs.Functions.{function_of};
ghost use Rattle.nf_base.specs.Doors.{port_blocks};
ghost use Rattle.nf_base.specs.Handlers.{blocks_of};
ghost use Rattle.nf_base.specs.Objects.{makes_in, is_store_in, writes, is_written};
ghost use Rattle.nf_base.specs.Statements.{Does, Makes, statements};
ghost use Rattle.nf_base.specs.View.{block_of, operation_of, creation_of};
ghost use Rattle.nf_base.specs.declared.block.Block.{size-Block};

use nf_base::block::{Block, Creation, Operation};
use nf_base::decl::ObjectId;
use nf_base::func::Func;
use nf_base::port_handlers::PortHandlers;

fn stores(operation: &Operation, object: ObjectId) -> bool
    ensures { result ≡ writes object (Does (operation_of operation.now)) }
{
    match operation {
        Operation::Touch { .. } => false,
        Operation::Free { .. } => false,
        Operation::Set { .. } => false,
        Operation::Write { .. } => false,
        Operation::Store { array, .. } => match object {
            ObjectId::Chain(_) => false,
            ObjectId::Array(number) => *array == number,
        },
    }
}

fn makes(creation: &Creation, object: ObjectId) -> bool
    ensures { result ≡ writes object (Makes (creation_of creation.now)) }
{
    match object {
        ObjectId::Chain(number) => creation.chain == number,
        ObjectId::Array(_) => false,
    }
}

/// Whether a statement of a block writes an object, at any depth.
fn is_written_in(block: &Block, object: ObjectId) -> bool
    ensures { result ≡ list_any (writes object) (statements (block_of block.now)) }
{
    let mut rest = block;
    loop {
        match rest {
            Block::End(_) => return false,
            Block::Do { operation, next } => {
                if stores(operation, object) {
                    return true;
                }
                rest = next;
            }
            Block::Ask {
                hit,
                miss,
                next,
                ..
            } => {
                if is_written_in(hit, object) || is_written_in(miss, object) {
                    return true;
                }
                rest = next;
            }
            Block::Make {
                creation,
                made,
                taken,
                full,
                next,
            } => {
                if makes(creation, object)
                    || is_written_in(made, object)
                    || is_written_in(taken, object)
                    || is_written_in(full, object)
                {
                    return true;
                }
                rest = next;
            }
        }
    }
}

/// Whether the text of a port's handlers writes an object.
#[tactic(auto, using(crate::proofs::Writing::one_writes, crate::proofs::Writing::two_write))]
fn is_written_at(port: &PortHandlers, object: ObjectId) -> bool
    ensures { result ≡ list_any (λ b. list_any (writes object) (statements b)) (port_blocks (blocks_of port.now)) }
{
    match &port.six {
        Some(six) => is_written_in(&port.four.block, object) || is_written_in(&six.block, object),
        None => is_written_in(&port.four.block, object),
    }
}

/// Whether that of some port's handlers does.
fn is_written_by(handlers: &[PortHandlers], object: ObjectId) -> bool
    ensures { result ≡ list_any (λ h. list_any (λ b. list_any (writes object) (statements b)) (port_blocks (blocks_of h)))
        handlers.now }
{
    handlers.iter().any(|port| is_written_at(port, object))
}

/// Whether a function's text writes an object: makes entries of a chain, or stores to an array.
pub fn is_written(func: &Func, object: ObjectId) -> bool
    ensures value { result ≡ is_written (function_of func.now) object }
{
    is_written_by(func.handlers.as_slice(), object)
}
