//! The texts of all tests of a block, one number each.
ghost use Rattle.std.specs.Prelude.{◌≡◌, ◌<◌, IfOk, OnOk, map, length};
ghost use Rattle.nf_base.specs.View.{block_of};
ghost use Rattle.path_walk.specs.Order.{head_of, head_seen};
ghost use Rattle.path_walk.specs.Numbering.{texts_seen, text_at, FindsAll};
ghost use Rattle.path_walk.specs.Seen.{text_seen};
ghost use Rattle.path_walk.specs.Ahead.{text_in, IsAdded, HasText, AreIn};

use crate::laying::asked;
use crate::numbering::{Texts, numbered_line};
use crate::test::Text;
use crate::token::tokens_of;
use nf_base::block::Block;
use std::alloc::{AllocError, Global};

/// The text of a block's first statement, where it is a test of the packet alone, with those that
/// there are.
fn put_statement<'a>(
    alloc: Global,
    block: &'a Block,
    texts: &mut Texts<'a>,
) -> Result<(), AllocError>
    requires { FindsAll texts.old }
    ensures finds { OnOk result (FindsAll texts.new) }
    ensures added { OnOk result (IsAdded (texts_seen texts.old) (texts_seen texts.new)
        (text_in (head_of (block_of block.now)))) }
{
    if let Block::Ask { question, .. } = block {
        numbered_line(alloc, &asked(question, 0, 0), texts)?;
    }
    Ok(())
}

/// The texts of all tests of some statements.
pub fn texts_of<'a>(alloc: Global, statements: &[&'a Block]) -> Result<Texts<'a>, AllocError>
    ensures finds { IfOk result FindsAll }
    ensures all { IfOk result (λ texts. AreIn (texts_seen texts) (map head_seen statements.now)) }
{
    let mut texts = Texts::new(alloc);
    for one in statements {
        put_statement(alloc, one, &mut texts)?;
    }
    Ok(texts)
}

/// The number of a text, or how many there are where it has none.
pub fn number_of(alloc: Global, texts: &Texts<'_>, text: &Text<'_>) -> Result<usize, AllocError>
    requires { FindsAll texts.now }
    ensures within { IfOk result (λ n. HasText (texts_seen texts.now) (text_seen text.now) →
        n < length (texts_seen texts.now)) }
    ensures at { IfOk result (λ n. HasText (texts_seen texts.now) (text_seen text.now) →
        text_at (texts_seen texts.now) n ≡ text_seen text.now) }
{
    let key = tokens_of(alloc, text)?;
    match texts.find(&key) {
        Some(number) => Ok(number),
        None => Ok(texts.list.len()),
    }
}
