//! The trees of texts: whether they have what is right.
use super::functions::repeated;
use nf_base::packet::{Family, Field};
use nf_syntax::{ParseFault, SyntaxKind, parse};
use nf_tokens::Place;
use nf_tree::{Block, Declaration, Ending, Expr, Operation, Part, Question, Tree};
use std::alloc::{AllocError, Global};

fn stands(place: Place, line: u32, column: u32) -> bool {
    place.line == line && place.column == column
}

const PLACES: &[u8] = b"nf fw {\n\
ports 0x2; # two\n\
chain flows 1 lifetime 60 { map by_flow(a: 32, b: 32); }\n\
on 0.0.0.1 { get e = flows.by_flow(src_ip, 7) { touch e; }\n\
else { new f = flows(a = src_ip) { } full { drop; } }\n\
set ttl = 9; forward 1; }\n\
}\n\
# the end";

/// Whether each of these places is this line and column.
fn all_stand(places: &[(Place, u32, u32)]) -> bool {
    places
        .iter()
        .all(|(place, line, column)| stands(*place, *line, *column))
}

/// Whether the declarations stand where they do in `PLACES`.
fn has_declarations(tree: &Tree) -> bool {
    let [Declaration::Chain(chain)] = tree.declarations.as_slice() else {
        return false;
    };
    let [Part::Map(map)] = chain.parts.as_slice() else {
        return false;
    };
    let [_, label] = map.labels.as_slice() else {
        return false;
    };
    all_stand(&[
        (tree.name.place, 1, 4),
        (tree.ports.place, 2, 7),
        (tree.end, 7, 1),
        (chain.place, 3, 1),
        (chain.name.place, 3, 7),
        (chain.size.place, 3, 13),
        (chain.lifetime.place, 3, 24),
        (map.place, 3, 29),
        (map.name.place, 3, 33),
        (map.close, 3, 53),
        (label.name.place, 3, 48),
        (label.width.place, 3, 51),
    ])
}

pub fn declarations_have_their_places(alloc: Global) -> bool {
    match parse(alloc, PLACES) {
        Ok(tree) => {
            tree.name.bytes.as_slice() == b"fw".as_slice()
                && tree.ports.value == 2
                && has_declarations(&tree)
        }
        Err(_) => false,
    }
}

/// Whether a block begins with the look-up of `PLACES`: what follows it.
fn behind_lookup(block: &Block) -> Option<&Block> {
    let Block::Ask {
        question: Question::Get {
            place,
            variable,
            chain,
            map,
            close,
            ..
        },
        next,
        ..
    } = block
    else {
        return None;
    };
    let is_there = all_stand(&[
        (*place, 4, 14),
        (variable.place, 4, 18),
        (chain.place, 4, 22),
        (map.place, 4, 28),
        (*close, 4, 45),
    ]);
    if is_there { Some(&**next) } else { None }
}

/// Whether a block is the setting and the end of `PLACES`.
fn is_rest(block: &Block) -> bool {
    let Block::Do {
        operation: Operation::Set {
            field,
            place,
            value: Expr::Number(value),
        },
        next,
    } = block
    else {
        return false;
    };
    let Block::End(Ending::Forward(Expr::Number(port))) = &**next else {
        return false;
    };
    *field == Field::Ttl && all_stand(&[(*place, 6, 5), (value.place, 6, 11), (port.place, 6, 22)])
}

fn has_statements(tree: &Tree) -> bool {
    let [handler] = tree.handlers.as_slice() else {
        return false;
    };
    handler.family == Family::Four
        && all_stand(&[(handler.place, 4, 1), (handler.port.place, 4, 4)])
        && behind_lookup(&handler.block).is_some_and(is_rest)
}

pub fn statements_have_their_places(alloc: Global) -> bool {
    match parse(alloc, PLACES) {
        Ok(tree) => has_statements(&tree),
        Err(_) => false,
    }
}

fn is_read(alloc: Global, text: &[u8]) -> bool {
    parse(alloc, text).is_ok()
}

pub fn numbers_are_read(alloc: Global) -> bool {
    match parse(
        alloc,
        b"nf x { ports 0.0.1.2; on 0x0f { drop; } on 18446744073709551615 { } } # \xff\0 end",
    ) {
        Ok(tree) => tree.ports.value == 258,
        Err(_) => false,
    }
}

/// Whether a text is refused for its length.
fn is_too_long(alloc: Global, text: &[u8]) -> bool {
    let fault = ParseFault::Syntax {
        kind: SyntaxKind::Limit,
        line: 1,
        column: 1,
    };
    match parse(alloc, text) {
        Err(found) => found == fault,
        Ok(_) => false,
    }
}

/// A text whose one block has so many statements, and so many spaces behind it.
fn long(alloc: Global, spaces: u32) -> Result<Vec<u8>, AllocError> {
    let front = b"nf x { ports 1; on 0 { get e = c.m(src_ip) { ";
    let mut text = repeated(alloc, front, b"touch e;", 131065, b"} } }")?;
    for _ in 0..spaces {
        text.push(b' ')?;
    }
    Ok(text)
}

/// Whether a block as long as the text is read.
pub fn longest_is_read(alloc: Global) -> bool {
    match long(alloc, 6) {
        Ok(text) => text.len() == 1048576 && is_read(alloc, text.as_slice()),
        Err(_) => false,
    }
}

/// Whether one byte more is too much.
pub fn longer_is_refused(alloc: Global) -> bool {
    match long(alloc, 7) {
        Ok(text) => is_too_long(alloc, text.as_slice()),
        Err(_) => false,
    }
}
