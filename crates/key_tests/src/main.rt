//! Finds the keys for objects, a line each: how many ports, and the places of each object, as in
//! `2 | 0:src_ip,src_port 1:dst_ip,dst_port | 1:dst_ip`. A place is a port and the fields that the
//! object's labels are there. `six` behind the number of ports names those that have a handler for
//! IPv6, and behind the port of a place says that its packets are IPv6, as in
//! `2 six 1 | 1:src_port 1six:src_port`. `512` behind the number of ports stands for a table of as
//! many entries, and `52` for keys of as many bytes. Prints a key for each port, or `none`; and behind
//! the last line whether keys are those that other ways than equations give.
//!
//! Given the word `time`, it prints how long it takes to find the keys of four ports for eight
//! objects with eight labels, for either version of IP.
#![tactic(auto)]

mod line;
mod other_ways;
mod times;

use std::{env, io};

fn main(rt: HostRuntime) -> io::Result<()> {
    let mut timed = false;
    for _word in env::args(&rt)?.skip(1) {
        timed = true;
        times::print(&rt)?;
    }
    if !timed {
        for line in rt.lines(rt.alloc()) {
            let answer = line::answer(rt.alloc(), line?.as_str())?;
            println!(rt; "{}", answer.as_str())?;
        }
        other_ways::tell_all(&rt)?;
    }
    Ok(())
}
