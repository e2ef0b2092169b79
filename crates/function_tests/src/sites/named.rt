//! Functions whose texts are long, by their names.

use crate::long::{put, repeat, repeated, statements};
use std::alloc::{AllocError, Global};

/// The names of the long functions, but for `paths`, which has twice the tests of `halves`, and `twelfths`, which has as
/// many tests as fit.
pub const LONG: [&str; 14] = [
    "touch",
    "free",
    "write",
    "store",
    "set",
    "test",
    "get",
    "find",
    "new",
    "loads",
    "deep",
    "halves",
    "news",
    "unreached",
];

/// Reads of cells by a hashed field, 32 of them in an expression.
fn loads(alloc: Global, times: u32) -> Result<Vec<u8>, AllocError> {
    let mut text = Vec::new(alloc);
    put(&mut text, "nf long { ports 1; array v 1: 8; on 0 { ")?;
    for _ in 0..times {
        put(&mut text, "set ttl=v[src_port]")?;
        repeat(&mut text, "+v[src_port]", 31)?;
        put(&mut text, ";")?;
    }
    put(&mut text, " drop; } }")?;
    Ok(text)
}

/// Tests in one another, as deep as blocks may be, with a read at each depth.
fn deep(alloc: Global) -> Result<Vec<u8>, AllocError> {
    let mut text = Vec::new(alloc);
    put(&mut text, "nf deep { ports 1; array v 1: 8; on 0 { ")?;
    repeat(&mut text, "if v[src_port]==1 {", 63)?;
    repeat(&mut text, "}", 63)?;
    put(&mut text, " drop; } }")?;
    Ok(text)
}

/// Twelve tests of the packet, and then so many of the same texts, each with a read of a cell behind it.
fn paths(alloc: Global, times: u32, behind: &str) -> Result<Vec<u8>, AllocError> {
    let mut text = Vec::new(alloc);
    put(&mut text, "nf paths { ports 1; array v 1: 8; on 0 { ")?;
    for k in 0..times {
        let piece = format!(in alloc; "if ttl<{}", k % 12)?;
        put(&mut text, piece.as_str())?;
        put(&mut text, "{")?;
        put(&mut text, behind)?;
        put(&mut text, "}")?;
    }
    put(&mut text, " drop; } }")?;
    Ok(text)
}

/// Twelve tests of numbers alone, and then so many of the same texts.
fn twelfths(alloc: Global, times: u32) -> Result<Vec<u8>, AllocError> {
    let mut text = Vec::new(alloc);
    put(&mut text, "nf twelfths { ports 1; on 0 { ")?;
    for k in 0..times {
        let twelfth = k % 12;
        let piece = format!(in alloc; "if {}<{}", twelfth % 6, 8 + twelfth / 6)?;
        put(&mut text, piece.as_str())?;
        put(&mut text, "{}")?;
    }
    put(&mut text, " } }")?;
    Ok(text)
}

/// A test that can't hit in front of as many statements as fit.
fn unreached(alloc: Global) -> Result<Vec<u8>, AllocError> {
    repeated(
        alloc,
        "nf dead { ports 1; array v 1: 8; on 0 { if ttl==1 { if ttl==2 { ",
        "v[src_port]=1;",
        70_000,
        " } } drop; } }",
    )
}

/// Labels of a chain with 16 maps of 8 parts, and 8 fixed columns.
fn put_chain(alloc: Global, text: &mut Vec<u8>) -> Result<(), AllocError> {
    put(text, "chain c 1 lifetime 1 { ")?;
    for m in 0..16u32 {
        let name = format!(in alloc; "map m{m}(")?;
        put(text, name.as_str())?;
        for k in 0..8u32 {
            let part = format!(in alloc; "{}p{m}q{k}: 32", if k == 0 { "" } else { ", " })?;
            put(text, part.as_str())?;
        }
        put(text, "); ")?;
    }
    for k in 0..8u32 {
        let column = format!(in alloc; "fixed f{k}: 32; ")?;
        put(text, column.as_str())?;
    }
    put(text, "} ")
}

/// As many `new`s of the chain with the most labels as there may be, at four ports.
fn news(alloc: Global) -> Result<Vec<u8>, AllocError> {
    let mut text = Vec::new(alloc);
    put(&mut text, "nf news { ports 4; ")?;
    put_chain(alloc, &mut text)?;
    for port in 0..4u32 {
        let head = format!(in alloc; "on {port} {{ ")?;
        put(&mut text, head.as_str())?;
        for _ in 0..4 {
            put(&mut text, "new e = c(")?;
            for m in 0..16u32 {
                for k in 0..8u32 {
                    let given = format!(in alloc; "p{m}q{k}=src_ip,")?;
                    put(&mut text, given.as_str())?;
                }
            }
            for k in 0..8u32 {
                let given = format!(in alloc; "f{k}=src_ip{}", if k == 7 { "" } else { "," })?;
                put(&mut text, given.as_str())?;
            }
            put(&mut text, ") { } ")?;
        }
        put(&mut text, "drop; } ")?;
    }
    put(&mut text, "}")?;
    Ok(text)
}

/// The text of a long function, by its name.
pub fn text(alloc: Global, name: &str) -> Result<Vec<u8>, AllocError> {
    match name {
        "touch" => statements(alloc, "touch e;", 131_000),
        "free" => statements(alloc, "free e;", 131_000),
        "write" => statements(alloc, "e.u = 1;", 131_000),
        "store" => statements(alloc, "v[0]=1;", 131_000),
        "set" => statements(alloc, "set ttl=1;", 104_000),
        "test" => statements(alloc, "if 1<2{}", 131_000),
        "get" => statements(alloc, "get x = c.m(1) { }", 11),
        "find" => statements(alloc, "find x = c[0] { }", 11),
        "new" => statements(alloc, "new x = c(a = 1) { }", 7),
        "loads" => loads(alloc, 2_650),
        "deep" => deep(alloc),
        "halves" => paths(alloc, 20_000, "v[ttl]=1;"),
        "paths" => paths(alloc, 40_000, "v[ttl]=1;"),
        "twelfths" => twelfths(alloc, 131_000),
        "news" => news(alloc),
        "unreached" => unreached(alloc),
        _ => paths(alloc, 40_000, ""),
    }
}
