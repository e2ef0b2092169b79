//! The keys of ports with what they make of each byte, so that a packet is hashed by a look-up a byte.
ghost use Rattle.std.specs.Prelude.{◌≡◌, ◌≤◌, ◌<◌, ◌∷◌, ◌++◌, [], drop, length, IfOk, slice_index_or};
ghost use Rattle.toeplitz_hash.specs.Packets.{hash_of, input_bytes};
ghost use Rattle.toeplitz_hash.specs.Toeplitz.{toeplitz_of};

use nf_base::card::TableSize;
use nf_base::hash_key::HashKey;
use nf_base::keys::Keys;
use nf_base::packet::{Addresses, Fields, Packet};
use nf_base::seq::Seq;
use std::alloc::{AllocError, Global};
use std::marker::Model;
use toeplitz_hash::{byte_hash, input_of};

/// How many bytes of a packet are hashed.
const BYTES: usize = 36;

/// The same of an IPv4 packet.
const FOUR_BYTES: usize = 12;

/// A key, which contracts see as its bytes, and the hash of each byte at each place of an input.
#[derive(Drop)]
pub(crate) struct KeyTable {
    key: HashKey,
    /// Of byte `b` at place `i` at index `256 i + b`.
    hashes: Vec<u32>,
}

impl Model for KeyTable {
    ghost use Rattle.std.specs.Prelude.{List, ℕ};
    ghost use Rattle.rss_table.specs.ByteTables.{HoldsHashes};

    ghost Value = { List ℕ };

    ghost view = { λ t. t.key };

    ghost invariant = { λ t. HoldsHashes t.key t.hashes.items };
}

impl KeyTable {
    fn new(alloc: Global, key: &HashKey) -> Result<KeyTable, AllocError>
        ensures { IfOk result (λ t. t ≡ key.now) }
    {
        let mut hashes = Vec::with_capacity(alloc, BYTES * 256)?;
        for k in 0..BYTES * 256 {
            hashes.push_reserved(hash_at(key.as_slice(), k / 256, (k % 256) as u8));
        }
        Ok(KeyTable {
            key: key.again(),
            hashes,
        })
    }

    /// The hash of an input under the key.
    #[inline(always)]
    fn hash(&self, input: &[u8]) -> u32
        requires { length input.now ≤ 36 }
        ensures { result ≡ toeplitz_of self.now input.now }
    {
        let mut hash = 0;
        for (i, byte) in input.iter().enumerate() {
            hash ^= self.hashes[i * 256 + *byte as usize];
        }
        hash
    }

    /// The hash of a handled packet under the key. By version, so that an input of IPv4 is laid out and
    /// hashed without a loop.
    #[inline(always)]
    #[tactic(auto, using(std::proofs::lemmas::List::take_all))]
    fn hash_fields(&self, fields: &Fields) -> u32
        ensures { result ≡ toeplitz_of self.now (input_bytes fields.now) }
    {
        match fields.addresses {
            Addresses::Four { .. } => {
                let input = input_of(fields);
                let bytes = input.as_slice();
                if bytes.len() == FOUR_BYTES {
                    return self.hash(&bytes[..FOUR_BYTES]);
                }
                self.hash(bytes)
            }
            Addresses::Six { .. } => self.hash(input_of(fields).as_slice()),
        }
    }
}

/// The hash of a byte at a place of an input, where all other bytes are 0.
fn hash_at(key: &[u8], i: usize, byte: u8) -> u32
    requires key { 40 ≤ length key.now }
    requires place { i < 36 }
    ensures { result ≡ toeplitz_of (drop i key.now) (byte ∷ []) }
{
    byte_hash(&key[i..], byte)
}

/// The keys of ports with tables of hashes. Contracts see the keys.
#[derive(Drop)]
pub struct ByteTables {
    table: TableSize,
    ports: Seq<KeyTable>,
}

impl Model for ByteTables {
    ghost use Rattle.nf_base.specs.declared.keys.Keys.{Keys};

    ghost Value = { Keys };

    ghost view = { λ h. record { table = h.table; ports = h.ports } };
}

impl ByteTables {
    /// Makes the tables of keys, 36 KiB each.
    pub fn new(alloc: Global, keys: &Keys) -> Result<ByteTables, AllocError>
        ensures { IfOk result (λ h. h ≡ keys.now) }
    {
        let mut ports = Seq::new(alloc);
        for port in 0..keys.ports.len() {
            ports.push(KeyTable::new(alloc, keys.ports.item(port))?)?;
        }
        Ok(ByteTables {
            table: keys.table,
            ports,
        })
    }

    /// The hash of a packet under the key of the port that it came in at, and None for one that is
    /// skipped.
    pub fn hash_packet(&self, packet: &Packet) -> Option<u32>
        requires { packet.now.id.port < length self.now.ports }
        ensures { result ≡ hash_of self.now packet.now }
    {
        match &packet.fields {
            Some(fields) => {
                let key = self.ports.item(packet.id.port as usize);
                Some(key.hash_fields(fields))
            }
            None => None,
        }
    }
}
