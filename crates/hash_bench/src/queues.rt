//! The table, and the shares of its queues: whether they are right.
use nf_base::card::{KeySize, TableSize};
use nf_base::hash_key::HashKey;
use nf_base::keys::Keys;
use nf_base::limited::Limited;
use nf_base::mac::Mac;
use nf_base::packet::{Addresses, Fields, Packet, PacketId};
use nf_base::share::Share;
use nf_base::workers::Workers;
use rss_table::{Table, share, table_index};
use std::alloc::{AllocError, Global};
use std::io;
use toeplitz_hash::default_key;

// The table is called through these, which promise nothing: what the answers are is compared,
// and not proved.

/// 1 to 16 workers.
fn workers(count: u32) -> Option<Workers> {
    if 1 <= count && count <= 16 {
        Some(Workers::new(count))
    } else {
        None
    }
}

/// The queue of a packet among as many as there are workers, where its port has a key.
fn queue(count: u32, keys: &Keys, packet: &Packet) -> Option<u32> {
    let workers = workers(count)?;
    if packet.id.port < keys.ports.len() {
        Some(Table::even(workers, keys.table).queue(keys, packet))
    } else {
        None
    }
}

fn index(size: TableSize, hash: u32) -> u32 {
    table_index(size, hash)
}

/// The share of a queue among as many as there are workers.
fn share_of(queue: u32, count: u32) -> Option<Share> {
    let workers = workers(count)?;
    if queue < workers.get() {
        Some(share(queue, workers))
    } else {
        None
    }
}

fn packet_of(addresses: Addresses, src_port: u16, dst_port: u16) -> Packet {
    let fields = Fields {
        length: 42,
        src_mac: Mac::new(0x0200_0000_0001),
        dst_mac: Mac::new(0x0200_0000_0002),
        addresses,
        proto: 17,
        ttl: 64,
        src_port,
        dst_port,
    };
    Packet {
        id: PacketId { port: 0, seq: 0 },
        time: 0,
        fields: Some(fields),
    }
}

fn packet_between(src: [u8; 4], src_port: u16, dst: [u8; 4], dst_port: u16) -> Packet {
    let src = u32::from_be_bytes(src);
    let dst = u32::from_be_bytes(dst);
    packet_of(Addresses::Four { src, dst }, src_port, dst_port)
}

fn one_key(alloc: Global, table: TableSize, key: HashKey) -> Result<Keys, AllocError> {
    let mut ports = Limited::new(alloc);
    ports.push(key)?;
    Ok(Keys { table, ports })
}

/// The default key of 40 bytes, for a table of 128 entries.
fn usual_keys(alloc: Global) -> Result<Keys, AllocError> {
    one_key(alloc, TableSize::Entries128, default_key(KeySize::Bytes40))
}

/// Both sizes of keys, for a table of 512 entries.
fn keys_of_512(alloc: Global, size: KeySize) -> Result<Keys, AllocError> {
    one_key(alloc, TableSize::Entries512, default_key(size))
}

/// Among how many workers, and the queues of two packets there.
type Row = (u32, u32, u32);

/// Whether two packets have the queues of each row.
fn have_queues(keys: &Keys, first: &Packet, second: &Packet, rows: &[Row]) -> bool {
    for (workers, of_first, of_second) in rows {
        let found = (queue(*workers, keys, first), queue(*workers, keys, second));
        if found != (Some(*of_first), Some(*of_second)) {
            return false;
        }
    }
    true
}

/// The first two rows of Microsoft's verification suite with ports: hashes 51ccc178 and c626b0ea.
fn have_queues_of_four(keys: &Keys, rows: &[Row]) -> bool {
    let first = packet_between([66, 9, 149, 187], 2794, [161, 142, 100, 80], 1766);
    let second = packet_between([199, 92, 111, 2], 14230, [65, 69, 140, 83], 4739);
    have_queues(keys, &first, &second, rows)
}

/// The first two IPv6 rows of the same suite with ports: hashes 40207d3d and dde51bbf.
fn have_queues_of_six(keys: &Keys, rows: &[Row]) -> bool {
    let first = packet_of(
        Addresses::Six {
            src: 0x3ffe_2501_0200_1fff_0000_0000_0000_0007,
            dst: 0x3ffe_2501_0200_0003_0000_0000_0000_0001,
        },
        2794,
        1766,
    );
    let second = packet_of(
        Addresses::Six {
            src: 0x3ffe_0501_0008_0000_0260_97ff_fe40_efab,
            dst: 0xff02_0000_0000_0000_0000_0000_0000_0001,
        },
        14230,
        4739,
    );
    have_queues(keys, &first, &second, rows)
}

/// The low seven bits of a hash pick the queue, by indices 120 and 106 of the first two rows.
fn are_seven_bits_counted(alloc: Global) -> Result<bool, AllocError> {
    let rows = [(1, 0, 0), (2, 0, 0), (7, 1, 1), (16, 8, 10)];
    let keys = usual_keys(alloc)?;
    Ok(
        have_queues_of_four(&keys, &rows)
            && index(TableSize::Entries128, 0x51cc_c178) == 120
            && index(TableSize::Entries128, 0xc626_b0ea) == 106,
    )
}

fn are_seven_bits_counted_of_six(alloc: Global) -> Result<bool, AllocError> {
    let rows = [(1, 0, 0), (2, 1, 1), (7, 5, 0), (16, 13, 15)];
    let keys = usual_keys(alloc)?;
    Ok(have_queues_of_six(&keys, &rows))
}

/// The same rows by a table of 512: indices 376 and 234, whatever the size of the key.
fn are_nine_bits_counted(alloc: Global, size: KeySize) -> Result<bool, AllocError> {
    let rows = [(1, 0, 0), (2, 0, 0), (3, 1, 0), (7, 5, 3), (16, 8, 10)];
    let keys = keys_of_512(alloc, size)?;
    Ok(
        have_queues_of_four(&keys, &rows)
            && index(TableSize::Entries512, 0x51cc_c178) == 376
            && index(TableSize::Entries512, 0xc626_b0ea) == 234,
    )
}

/// The first 40 of some bytes as a key.
fn key_of_40(alloc: Global, bytes: &[u8; 52]) -> Result<Keys, AllocError> {
    let key = HashKey::new(bytes, KeySize::Bytes40);
    one_key(alloc, TableSize::Entries128, key)
}

/// The queue of a packet among three, under such a key.
fn queue_by(alloc: Global, key: &[u8; 52], packet: &Packet) -> Result<Option<u32>, AllocError> {
    let keys = key_of_40(alloc, key)?;
    Ok(queue(3, &keys, packet))
}

/// The queues of a packet by its destination alone, and of its reply by its source alone.
fn by_one_address(alloc: Global) -> Result<(Option<u32>, Option<u32>), AllocError> {
    let mut by_destination = [0; 52];
    by_destination[7] = 1;
    let mut by_source = [0; 52];
    by_source[0] = 0x6d;
    by_source[1] = 0x5a;
    by_source[2] = 0x56;
    by_source[3] = 0xda;
    let there = packet_between([9, 9, 9, 9], 1, [10, 0, 0, 1], 2);
    let back = packet_between([10, 0, 0, 1], 2, [9, 9, 9, 9], 1);
    let first = queue_by(alloc, &by_destination, &there)?;
    Ok((first, queue_by(alloc, &by_source, &back)?))
}

/// The queue of a skipped packet among sixteen.
fn of_skipped(alloc: Global) -> Result<Option<u32>, AllocError> {
    let mut packet = packet_between([1, 2, 3, 4], 5, [6, 7, 8, 9], 10);
    packet.fields = None;
    let keys = usual_keys(alloc)?;
    Ok(queue(16, &keys, &packet))
}

/// Prints what is right.
pub fn tell_all(rt: &HostRuntime) -> io::Result<()> {
    let alloc = rt.alloc();
    let (four, six) = (
        are_seven_bits_counted(alloc)?,
        are_seven_bits_counted_of_six(alloc)?,
    );
    println!(rt; "low seven bits pick the queue: {four}, of IPv6 {six}")?;
    let (short, long) = (
        are_nine_bits_counted(alloc, KeySize::Bytes40)?,
        are_nine_bits_counted(alloc, KeySize::Bytes52)?,
    );
    println!(rt; "low nine bits pick the queue of 512 entries: {short}, {long}")?;
    println!(rt; "keys by one address: {:?}", by_one_address(alloc)?)?;
    println!(rt; "a skipped packet: {:?}", of_skipped(alloc)?)?;
    let own = share_of(1, 2).map(|share| (share.queue, share.of));
    println!(rt; "a share names its queue: {own:?}")
}
