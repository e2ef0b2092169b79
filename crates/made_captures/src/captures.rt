//! The captures of made-up traffic at all ports.
ghost use Rattle.std.specs.Prelude.{◌≡◌, ◌≤◌, ◌<◌, IfOk, IfSome, length};
ghost use Rattle.packet_feed.specs.Told.{EachFile, IsApart};
ghost use Rattle.gen_traffic.specs.Traffic.{Recipe};
ghost use Rattle.made_captures.specs.Captures.{captures_of, first_number, numbers_of, port_of, IsGiven, IsMade};

use crate::capture::Capture;
use nf_base::seq::Seq;
use std::alloc::{AllocError, Global};
use std::marker::Model;

/// Captures of made-up traffic, one a port, of which contracts see the bytes that are left.
///
/// Their bytes are made as they are read, and of each those of one record are held. Their files have the
/// last numbers of 32 bits, in the order of the ports.
#[derive(Drop)]
pub struct Captures {
    captures: Seq<Capture>,
}

impl Model for Captures {
    ghost use Rattle.std.specs.Prelude.{ℕ, List, ◌≤◌, length};

    ghost Value = { List (List ℕ) };

    ghost view = { λ c. c.captures };

    ghost invariant = { λ c. (1 ≤ length c.captures) × (length c.captures ≤ 65536) };
}

impl Captures {
    /// The captures of so many packets of so many flows, in turn at each of so many ports, drawn by a
    /// seed.
    pub fn new(
        alloc: Global,
        seed: u32,
        count: u32,
        flows: u32,
        ports: u32,
    ) -> Result<Captures, AllocError>
        requires flows { 1 ≤ flows }
        requires some_port { 1 ≤ ports }
        requires ports { ports ≤ 65536 }
        ensures { let recipe : Recipe =
            record { seed = seed; count = count; flows = flows; ports = ports } in
            IfOk result (λ captures. captures ≡ captures_of recipe) }
    {
        let mut captures = Seq::new(alloc);
        for port in 0..ports {
            captures.push(Capture::new(seed, count, flows, ports, port))?;
        }
        Ok(Captures { captures })
    }

    // The number of the first one's file.
    fn first(&self) -> u32
        ensures value { result ≡ first_number (length self.now) }
        ensures few { 1 ≤ length self.now }
        ensures fit { length self.now ≤ 65536 }
    {
        let count = self.captures.len() as u64;
        (0x1_0000_0000 - count) as u32
    }

    // The numbers of their files, one after another.
    #[tactic(auto, using(crate::proofs::Wholes::numbers_more))]
    fn listed(&self, alloc: Global) -> Result<Vec<u32>, AllocError>
        ensures { IfOk result (λ numbers. numbers.items ≡ numbers_of (length self.now)) }
    {
        let first = self.first();
        let mut numbers = Vec::new(alloc);
        for port in 0..self.captures.len() as u32 {
            numbers.push(first + port)?;
        }
        Ok(numbers)
    }

    /// The numbers of their files, in the order of the ports.
    pub fn numbers(&self, alloc: Global) -> Result<Vec<u32>, AllocError>
        ensures value { IfOk result (λ numbers. numbers.items ≡ numbers_of (length self.now)) }
        ensures made { IfOk result (λ numbers. EachFile (IsMade self.now) numbers.items) }
        ensures apart { IfOk result (λ numbers. IsApart numbers.items) }
        ensures count { IfOk result (λ numbers. length numbers.items ≡ length self.now) }
    {
        let numbers = self.listed(alloc)?;
        Ok(numbers)
    }

    /// The port of which the capture with a file's number is; None where it is that of another file.
    pub fn port(&self, file: u32) -> Option<usize>
        ensures value { result ≡ port_of (length self.now) file }
        ensures within { IfSome result (λ port. port < length self.now) }
    {
        let first = self.first();
        if first <= file {
            Some((file - first) as usize)
        } else {
            None
        }
    }

    /// Reads bytes of a port's capture into the front of `out`, and gives their number.
    ///
    /// 0 for an `out` that isn't empty is the end of the capture.
    pub fn read(&mut self, port: usize, out: &mut [u8]) -> usize
        requires { port < length self.old }
        ensures within { result ≤ length out.new }
        ensures given { IsGiven port result out.new self.old self.new }
    {
        self.captures.item_mut(port).read(out)
    }
}
