//! Texts that are about as long as a text may be, 1 MiB.

use std::alloc::{AllocError, Global};

pub fn put(text: &mut Vec<u8>, piece: &str) -> Result<(), AllocError> {
    text.extend_from_slice(piece.as_bytes())
}

/// Puts a piece so many times.
pub fn repeat(text: &mut Vec<u8>, piece: &str, times: u32) -> Result<(), AllocError> {
    for _ in 0..times {
        put(text, piece)?;
    }
    Ok(())
}

/// A front, a piece so many times, and an end.
pub fn repeated(
    alloc: Global,
    front: &str,
    piece: &str,
    times: u32,
    end: &str,
) -> Result<Vec<u8>, AllocError> {
    let mut text = Vec::new(alloc);
    put(&mut text, front)?;
    repeat(&mut text, piece, times)?;
    put(&mut text, end)?;
    Ok(text)
}

/// What stands in front of the statements of one block.
const FRONT: &str =
    "nf long { ports 1; chain c 1 lifetime 1 { map m(a: 8); free u: 8; } array v 1: 8; \
    on 0 { new e = c(a = ttl) { ";

/// So many of one statement in one block, behind a `new`.
pub fn statements(alloc: Global, statement: &str, times: u32) -> Result<Vec<u8>, AllocError> {
    repeated(alloc, FRONT, statement, times, " } drop; } }")
}
