//! How long it takes to find the sites of the long functions.
use crate::functions::function;
use crate::sites::named::text;
use access_keys::sites;
use nf_base::packet::{Door, Family};
use path_walk::count_paths;
use std::io;
use std::time::Instant;

/// Prints how long it takes to count the paths of a long function's first handler, and to find its sites.
pub fn print(rt: &HostRuntime, name: &str) -> io::Result<()> {
    let text = text(rt.alloc(), name)?;
    let Ok(func) = function(rt.alloc(), text.as_slice()) else {
        return println!(rt; "{name}: no function");
    };
    let start = Instant::now(rt)?;
    let door = Door {
        port: 0,
        family: Family::Four,
    };
    let Ok(paths) = count_paths(rt.alloc(), &func, door) else {
        return println!(rt; "{name}: too many paths");
    };
    let counted = start.elapsed(rt)?.as_micros();
    let start = Instant::now(rt)?;
    let all = sites(rt.alloc(), &func)?;
    let found = start.elapsed(rt)?.as_micros();
    println!(rt;
        "{name}: {} bytes, {paths} paths in {counted} us, {} sites in {found} us",
        text.len(),
        all.len()
    )
}
