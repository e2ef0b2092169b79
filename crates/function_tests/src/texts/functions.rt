//! The functions of texts: whether they have what is right.
use nf_base::block::{Block, Question};
use nf_base::func::Func;
use nf_syntax::parse;
use nf_types::{CheckFault, TypingKind, check};
use std::alloc::{AllocError, Global};

const FIREWALL: &[u8] = b"nf fw {\n\
  ports 2;\n\
  chain flows 1 lifetime 60000000000 { map by_flow(a: 32, b: 32, c: 16, d: 16); }\n\
  on 0 {\n\
    get e = flows.by_flow(src_ip, dst_ip, src_port, dst_port) { touch e; }\n\
    else {\n\
      new f = flows(a = src_ip, b = dst_ip, c = src_port, d = dst_port) { }\n\
      full { drop; }\n\
    }\n\
    forward 1;\n\
  }\n\
  on 1 {\n\
    get e = flows.by_flow(dst_ip, src_ip, dst_port, src_port) { touch e; forward 0; }\n\
    drop;\n\
  }\n\
}\n\
";

/// The function of a text, or the fault of its types; None where the text is none of the language, or
/// memory ran out.
fn checked(alloc: Global, text: &[u8]) -> Option<Result<Func, CheckFault>> {
    let Ok(tree) = parse(alloc, text) else {
        return None;
    };
    Some(check(alloc, &tree))
}

/// Whether a text has a tree, and this is the first fault of its types.
fn is_fault(alloc: Global, text: &[u8], kind: TypingKind, line: u32, column: u32) -> bool {
    match checked(alloc, text) {
        Some(Err(fault)) => fault == CheckFault::Typing { kind, line, column },
        _ => false,
    }
}

/// A part so many times, between a front and an end.
pub fn repeated(
    alloc: Global,
    front: &[u8],
    part: &[u8],
    times: u32,
    end: &[u8],
) -> Result<Vec<u8>, AllocError> {
    let mut text = Vec::new(alloc);
    text.extend_from_slice(front)?;
    for _ in 0..times {
        text.extend_from_slice(part)?;
    }
    text.extend_from_slice(end)?;
    Ok(text)
}

/// Whether a handler begins with a look-up at this place.
fn looks_up_at(func: &Func, port: u32, wanted: u32) -> bool {
    if port >= func.handlers.len() {
        return false;
    }
    match &func.handlers.item(port).four.block {
        Block::Ask {
            question: Question::Get { place, .. },
            ..
        } => *place == wanted,
        _ => false,
    }
}

pub fn is_firewall(alloc: Global) -> bool {
    match checked(alloc, FIREWALL) {
        Some(Ok(func)) => {
            func.name.as_slice() == b"fw".as_slice()
                && func.chains.len() == 1
                && func.handlers.len() == 2
                && looks_up_at(&func, 0, 0)
                && looks_up_at(&func, 1, 2)
        }
        _ => false,
    }
}

fn is_like_firewall(func: &Func) -> bool {
    func.name.as_slice() == b"fw".as_slice() && func.chains.len() == 1 && func.handlers.len() == 2
}

/// Whether a function has a copy that is like it.
fn has_copy(alloc: Global, func: &Func) -> bool {
    match func.copy(alloc) {
        Ok(copy) => is_like_firewall(&copy),
        Err(_) => false,
    }
}

pub fn firewall_is_copied(alloc: Global) -> bool {
    match checked(alloc, FIREWALL) {
        Some(Ok(func)) => has_copy(alloc, &func),
        _ => false,
    }
}

/// Whether the function of a text of at most 1 MiB is copied.
fn is_copied(alloc: Global, text: &[u8]) -> bool {
    match checked(alloc, text) {
        Some(Ok(func)) => text.len() <= 1048576 && func.copy(alloc).is_ok(),
        _ => false,
    }
}

/// Whether a block as long as the text is checked and copied.
pub fn long_block_is_copied(alloc: Global) -> bool {
    let front =
        b"nf x { ports 1; chain c 1 lifetime 1 { map m(a: 8); } on 0 { get e = c.m(src_ip) { ";
    match repeated(alloc, front, b"touch e;", 131056, b"} } }") {
        Ok(text) => is_copied(alloc, text.as_slice()),
        Err(_) => false,
    }
}

/// Whether the first fault of a long block is found.
pub fn long_block_is_refused(alloc: Global) -> bool {
    let front = b"nf x { ports 1; chain c 1 lifetime 1 { map m(a: 8); } on 0 { touch e; ";
    match repeated(alloc, front, b"get e=c.m(1){}", 74890, b"} }") {
        Ok(text) => {
            text.len() <= 1048576 && is_fault(alloc, text.as_slice(), TypingKind::NotInScope, 1, 68)
        }
        Err(_) => false,
    }
}
