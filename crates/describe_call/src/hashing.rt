//! The line of a hash.
ghost use Rattle.std.specs.Prelude.{◌≡◌, IfOk, string_bytes};
ghost use Rattle.command_words.specs.View.{hash};
ghost use Rattle.describe_call.specs.Hashing as meant;

use call_base::names::push_decimal;
use command_words::{Ends, HashCommand};
use nf_base::card::TableSize;
use nf_base::hash_key::HashKey;
use nf_base::mac::Mac;
use nf_base::packet::Fields;
use nf_base::workers::Workers;
use rss_table::{Table, table_index};
use std::alloc::{AllocError, Global};
use toeplitz_hash::{default_key, input_of, toeplitz};

// The fields of a packet between two ends.
fn fields_between(ends: Ends) -> Fields
    ensures { result ≡ meant.fields_between ends }
{
    Fields {
        length: 0,
        src_mac: Mac::new(0),
        dst_mac: Mac::new(0),
        addresses: ends.addresses,
        proto: 0,
        ttl: 0,
        src_port: ends.source_port,
        dst_port: ends.destination_port,
    }
}

// The key that is given, or the default one.
fn key_of(command: &HashCommand) -> HashKey
    ensures { result ≡ meant.key_of (hash command.now) }
{
    match &command.key {
        Some(key) => key.again(),
        None => default_key(command.card.key),
    }
}

// The hash under this key.
fn hash_value(command: &HashCommand) -> u32
    ensures { result ≡ meant.hash_value (hash command.now) }
{
    let fields = fields_between(command.ends);
    toeplitz(key_of(command).as_slice(), input_of(&fields).as_slice())
}

// What is printed of a hash, for so many workers.
fn line_of(
    alloc: Global,
    size: TableSize,
    hash: u32,
    workers: Workers,
) -> Result<String, AllocError>
    ensures { IfOk result (λ line. string_bytes line ≡ meant.line_of size hash workers) }
{
    let mut line = hex::encode(alloc, hash.to_be_bytes())?;
    line.push_str(" ")?;
    push_decimal(&mut line, table_index(size, hash))?;
    line.push_str(" ")?;
    push_decimal(&mut line, Table::even(workers, size).queue_of_hash(hash))?;
    line.push_str("\n")?;
    Ok(line)
}

/// The line of the hash that is asked for.
pub fn hash_line(alloc: Global, command: &HashCommand) -> Result<String, AllocError>
    ensures { IfOk result (λ line. string_bytes line ≡ meant.hash_line (hash command.now)) }
{
    line_of(
        alloc,
        command.card.table,
        hash_value(command),
        command.workers,
    )
}
