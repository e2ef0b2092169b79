//! Prints made-up traffic, a line each: seed, how many packets, of how many flows, at how many ports.
//!
//! Of each of the first eight packets it prints the port, the number there, the time in nanoseconds
//! and the frame; and last a digest of all packets. `fuzz/traffic.py` prints the same. It says so where a packet
//! has other fields than those that are read of its frame.
#![tactic(auto)]

use frame_ip::fields_of;
use gen_traffic::Traffic;
use nf_base::packet::{Packet, PacketId};
use std::io;
use test_samples::digest::Digest;

/// How many packets are printed.
const SHOWN: u32 = 8;

// The traffic of a line's numbers; this promises nothing, so that what is printed is compared.
fn traffic_of(numbers: [u32; 4]) -> Traffic {
    let [seed, count, flows, ports] = numbers;
    Traffic::new(seed, count, flows.max(1), ports.max(1))
}

fn numbers_in(line: &str) -> [u32; 4] {
    let mut numbers = [0; 4];
    for (place, word) in numbers.iter_mut().zip(line.split_whitespace()) {
        if let Ok(number) = word.parse::<u32>() {
            *place = number;
        }
    }
    numbers
}

fn show(rt: &HostRuntime, id: PacketId, time: u64, frame: &[u8]) -> io::Result<()> {
    print!(rt; "{} {} {time} ", id.port, id.seq)?;
    for byte in frame {
        print!(rt; "{byte:02x}")?;
    }
    println!(rt; "")
}

// Whether a packet has the fields of its frame; this promises nothing, so that it is compared.
fn has_fields_of(packet: &Packet, frame: &[u8]) -> bool {
    fields_of(frame, 42) == packet.fields
}

fn show_all(rt: &HostRuntime, numbers: [u32; 4]) -> io::Result<()> {
    let mut traffic = traffic_of(numbers);
    let mut digest = Digest::new();
    for k in 0..=numbers[1] {
        match traffic.next() {
            Some(sent) => {
                let packet = sent.0;
                let frame = sent.1;
                if k < SHOWN {
                    show(rt, packet.id, packet.time, &frame)?;
                }
                if !has_fields_of(&packet, &frame) {
                    println!(rt; "{k}: other fields")?;
                }
                digest.add(&packet, &frame);
            }
            None => println!(rt; "{k} packets, digest {:016x}", digest.value())?,
        }
    }
    Ok(())
}

fn main(rt: HostRuntime) -> io::Result<()> {
    for line in rt.lines(rt.alloc()) {
        show_all(&rt, numbers_in(line?.as_str()))?;
    }
    Ok(())
}
