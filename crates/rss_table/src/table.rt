//! From a hash to a queue.
ghost use Rattle.std.specs.Prelude.{◌≡◌, ℕ, ◌<◌, length, Some};
ghost use Rattle.nf_base.specs.Cards.{entries};
ghost use Rattle.rss_table.specs.Tables.{AllBelow, table_index, even_table, queue_at, queue_of};

use crate::byte_tables::ByteTables;
use nf_base::card::TableSize;
use nf_base::keys::Keys;
use nf_base::packet::Packet;
use nf_base::workers::Workers;
use std::marker::Model;
use toeplitz_hash::hash_packet;

/// The queues of the 128 or 512 table indices, which contracts see as the list of these queues.
#[derive(Drop)]
pub struct Table {
    queues: [u32; 512],
    size: TableSize,
}

impl Model for Table {
    ghost use Rattle.std.specs.Prelude.{List, ℕ, take};
    ghost use Rattle.nf_base.specs.Cards.{entries};

    ghost Value = { List ℕ };

    ghost view = { λ table. take (entries table.size) table.queues };
}

impl Table {
    /// The table whose entry `i` is queue `i` modulo the number of workers.
    pub fn even(workers: Workers, size: TableSize) -> Table
        ensures value { result ≡ even_table size workers }
        ensures below { AllBelow workers result }
    {
        let count = workers.get();
        let mut queues = [0; 512];
        for i in 0..512u32 {
            queues[i as usize] = i % count;
        }
        Table { queues, size }
    }

    /// The queue of a packet: the entry at the table index of its hash, and 0 for one that is
    /// skipped.
    pub fn queue(&self, keys: &Keys, packet: &Packet) -> u32
        requires { packet.now.id.port < length keys.now.ports }
        ensures value { result ≡ queue_of self.now keys.now packet.now }
        ensures below { (count : ℕ) → AllBelow count self.now → result < count }
    {
        match hash_packet(keys, packet) {
            Some(hash) => self.queue_of_hash(hash),
            None => 0,
        }
    }

    /// The same by the tables of keys.
    pub fn queue_by(&self, byte_tables: &ByteTables, packet: &Packet) -> u32
        requires { packet.now.id.port < length byte_tables.now.ports }
        ensures value { result ≡ queue_of self.now byte_tables.now packet.now }
        ensures below { (count : ℕ) → AllBelow count self.now → result < count }
    {
        let Some(hash) = byte_tables.hash_packet(packet) else {
            return 0;
        };
        self.queue_of_hash(hash)
    }

    /// The queue of a hash: the entry at its table index.
    pub fn queue_of_hash(&self, hash: u32) -> u32
        ensures value { result ≡ queue_at self.now (Some hash) }
        ensures below { (count : ℕ) → AllBelow count self.now → result < count }
    {
        self.queues[table_index(self.size, hash) as usize]
    }
}

/// The table index of a hash: its low 7 bits, or its low 9 bits.
pub fn table_index(size: TableSize, hash: u32) -> u32
    ensures value { result ≡ table_index size hash }
    ensures below { result < entries size }
{
    match size {
        TableSize::Entries128 => hash % 128,
        TableSize::Entries512 => hash % 512,
    }
}
