//! Handlers.

ghost use Rattle.std.specs.Prelude.{◌≤◌};
ghost use Rattle.nf_tree.specs.Depth.{depth};
ghost use Rattle.nf_tree.specs.BlockView.{block_of};

use crate::block::Block;
use crate::place::Literal;
use nf_base::packet::Family;
use nf_tokens::Place;

/// A handler of a port, for the packets of one version of IP.
#[derive(Drop)]
pub struct HandlerTree {
    /// Where the word `on` stands.
    pub place: Place,
    pub port: Literal,
    /// IPv6 where `six` is written, else IPv4.
    pub family: Family,
    pub block: Block,
    // At most 64 blocks are open at a place of it.
    ghost shallow: { depth (block_of block) ≤ 64 },
}
