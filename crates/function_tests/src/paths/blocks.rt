//! Blocks that are made up, from their ends on.

use nf_base::block::{Block, Ending, Question};
use nf_base::expr::{Comparison, Expr};
use nf_base::func::Func;
use nf_base::handler::Handler;
use nf_base::limited::Limited;
use nf_base::packet::Field;
use nf_base::port_handlers::PortHandlers;
use std::alloc::{AllocError, Global};

/// `src_port COMPARISON NUMBER`, in front of what follows.
fn test(
    alloc: Global,
    comparison: Comparison,
    number: u64,
    hit: Block,
    next: Block,
) -> Result<Block, AllocError> {
    Ok(Block::Ask {
        question: Question::Test {
            place: 0,
            comparison,
            left: Expr::Read(Field::SrcPort),
            right: Expr::Number(number),
        },
        hit: Box::new(alloc, hit)?,
        miss: Box::new(alloc, Block::End(Ending::FallsOff))?,
        next: Box::new(alloc, next)?,
    })
}

/// So many tests, of so many texts in turn: the source port below 0, 1 and so on.
pub fn tests(alloc: Global, count: u64, texts: u64) -> Result<Block, AllocError> {
    let mut block = Block::End(Ending::Flood);
    if texts > 0 {
        for k in 0..count {
            block = test(
                alloc,
                Comparison::Less,
                k % texts,
                Block::End(Ending::FallsOff),
                block,
            )?;
        }
    }
    Ok(block)
}

/// Tests whether a field is one of so many numbers, one after another.
pub fn numbers(alloc: Global, count: u64) -> Result<Block, AllocError> {
    let mut block = Block::End(Ending::Flood);
    for k in 0..count {
        block = test(
            alloc,
            Comparison::Equal,
            k,
            Block::End(Ending::FallsOff),
            block,
        )?;
    }
    Ok(block)
}

/// Blocks that are open in one another, so many deep.
pub fn nested(alloc: Global, depth: u64) -> Result<Block, AllocError> {
    let mut block = Block::End(Ending::FallsOff);
    for k in 0..depth {
        block = test(
            alloc,
            Comparison::Equal,
            k,
            block,
            Block::End(Ending::FallsOff),
        )?;
    }
    Ok(block)
}

/// A function of one port, which floods each IPv4 packet.
pub fn hub(alloc: Global) -> Result<Func, AllocError> {
    let mut handlers = Limited::new(alloc);
    handlers.push(PortHandlers {
        four: Handler {
            block: Block::End(Ending::Flood),
        },
        six: None,
    })?;
    Ok(Func {
        name: Limited::new(alloc),
        chains: Limited::new(alloc),
        arrays: Limited::new(alloc),
        objects: Limited::new(alloc),
        handlers,
    })
}
