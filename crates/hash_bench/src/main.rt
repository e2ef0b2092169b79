//! Hashes as many inputs of 12 bytes as each line says, under one of four keys each, and prints the
//! `xor` of their hashes, in hexadecimal. `bench/hash` times it. At the line `checks` it prints whether
//! the hash and the table are right.
#![tactic(auto)]

mod queues;
mod suite;

use std::io;
use toeplitz_hash::{DEFAULT_KEY, toeplitz};

/// The `xor` of the hashes of some made up inputs.
fn hash_all(count: u32) -> u32 {
    let salt = (count % 64) as u8;
    let keys = [
        key_for(salt),
        key_for(salt + 64),
        key_for(salt + 128),
        key_for(salt + 192),
    ];
    let mut state = 0u64;
    let mut all = 0;
    for _ in 0..count {
        state = state
            .wrapping_mul(0x5851_f42d_4c95_7f2d)
            .wrapping_add(0x1405_7b7e_f767_814f);
        let port = (state >> 62) as usize;
        all ^= toeplitz(&keys[port], &input_from(state));
    }
    all
}

/// A key that no compiler knows.
fn key_for(salt: u8) -> [u8; 40] {
    let mut key = DEFAULT_KEY;
    for byte in key.iter_mut() {
        *byte ^= salt;
    }
    key
}

/// 12 bytes: those of a number, and the first four of them again.
fn input_from(state: u64) -> [u8; 12] {
    let bytes = state.to_be_bytes();
    [
        bytes[0], bytes[1], bytes[2], bytes[3], bytes[4], bytes[5], bytes[6], bytes[7], bytes[0],
        bytes[1], bytes[2], bytes[3],
    ]
}

fn answer(rt: &HostRuntime, line: &str) -> io::Result<()> {
    if line == "checks" {
        suite::tell_all(rt)?;
        return queues::tell_all(rt);
    }
    match line.parse::<u32>() {
        Ok(count) => println!(rt; "{:08x}", hash_all(count)),
        Err(_) => Ok(()),
    }
}

fn main(rt: HostRuntime) -> io::Result<()> {
    for line in rt.lines(rt.alloc()) {
        answer(&rt, line?.as_str())?;
    }
    Ok(())
}
