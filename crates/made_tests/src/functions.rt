//! Functions, and their texts.
use nf_base::func::Func;
use nf_syntax::parse;
use nf_types::check;
use std::alloc::Global;

/// The function that a text is.
pub fn function(alloc: Global, text: &[u8]) -> Option<Func> {
    let tree = parse(alloc, text).ok()?;
    check(alloc, &tree).ok()
}

/// A function that drops all packets at so many ports, one to four.
pub fn dropping(ports: u32) -> &'static str {
    match ports {
        0 => "nf x { ports 1; on 0 { } }",
        1 => "nf x { ports 1; on 0 { } }",
        2 => "nf x { ports 2; on 0 { } on 1 { } }",
        3 => "nf x { ports 3; on 0 { } on 1 { } on 2 { } }",
        _ => "nf x { ports 4; on 0 { } on 1 { } on 2 { } on 3 { } }",
    }
}
