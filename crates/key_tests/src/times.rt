//! How long it takes to find keys.
use crate::line::{objects, text};
use key_rows::nearest_keys;
use nf_base::card::Card;
use std::io;
use std::time::Instant;

/// Two connections by both ends, with two labels for each field, in each order that a port may see
/// them, at four ports.
const CONNECTIONS: &str = "0:src_ip,dst_ip,src_port,dst_port,src_ip,dst_ip,src_port,dst_port \
     1:dst_ip,src_ip,dst_port,src_port,dst_ip,src_ip,dst_port,src_port \
     2:src_ip,dst_ip,src_port,dst_port,src_ip,dst_ip,src_port,dst_port \
     3:dst_ip,src_ip,dst_port,src_port,dst_ip,src_ip,dst_port,src_port";

/// The same of IPv6.
const SIX: &str = "0six:src_ip,dst_ip,src_port,dst_port,src_ip,dst_ip,src_port,dst_port \
     1six:dst_ip,src_ip,dst_port,src_port,dst_ip,src_ip,dst_port,src_port \
     2six:src_ip,dst_ip,src_port,dst_port,src_ip,dst_ip,src_port,dst_port \
     3six:dst_ip,src_ip,dst_port,src_port,dst_ip,src_ip,dst_port,src_port";

/// Prints how long it takes for eight objects with eight labels at four ports.
pub fn print(rt: &HostRuntime) -> io::Result<()> {
    print_one(rt, CONNECTIONS, [false; 4])?;
    print_one(rt, SIX, [true; 4])
}

fn print_one(rt: &HostRuntime, places: &str, six: [bool; 4]) -> io::Result<()> {
    let alloc = rt.alloc();
    let mut objects = objects(alloc, places)?;
    for _ in 0..7 {
        objects.append(&mut crate::line::objects(alloc, places)?)?;
    }
    let start = Instant::now(rt)?;
    let keys = nearest_keys(alloc, &six, objects.as_slice(), Card::usual())?;
    let spent = start.elapsed(rt)?.as_micros();
    match keys {
        Some(keys) => {
            let text = text(alloc, &keys)?;
            println!(rt; "{} objects: {spent} us, {}", objects.len(), text.as_str())
        }
        None => println!(rt; "{} objects: {spent} us, none", objects.len()),
    }
}
