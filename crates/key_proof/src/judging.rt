//! Which keys are wrong, but for how near they are to the default one.
ghost use Rattle.std.specs.Prelude.{◌≡◌, ◌*◌, ◌+◌, ◌<◌, ◌≤◌, ℕ, All, bytes_eq, length, slice_index};
ghost use Rattle.nf_base.specs.Cards.{key_bytes};
ghost use Rattle.toeplitz_hash.specs.DefaultKey.{default_key};
ghost use Rattle.key_rows.specs.Classes.{width_at};
ghost use Rattle.std.specs.List.{list_any, range_with_len};
ghost use Rattle.key_rows.specs.Keyed.{AreAtPorts};
ghost use Rattle.toeplitz_hash.specs.Bits.{bit_of};
ghost use Rattle.key_rows.specs.Systems.{group_from, group_long};
ghost use Rattle.key_rows.specs.Rows.{IsWithin, window_bit, class_sum};
ghost use Rattle.key_proof.specs.Rows.{class_at};
ghost use Rattle.key_proof.specs.Judging.{has_one, is_flat, is_long, is_unfit, has_field, home, has_bit, are_within, bit_fails, class_fails, pair_fails, object_fails, rows_fail, is_wrong, wrong_port, AreKeysFor};

use crate::fields::{classes_of, end_at, width_at};
use crate::keyed::{is_keyed, is_keyed_for};
use key_rows::{Object, Place};
use nf_base::card::{Card, TableSize};
use nf_base::keys::Keys;
use nf_base::packet::Family;
use toeplitz_hash::default_key;

/// How many bits the longest window has: that of an address of IPv6.
const LONGEST: u32 = 159;

/// A bit of a key, 0 or 1.
pub fn bit_of(key: &[u8], i: usize) -> u32
    requires { i < 8 * length key.now }
    ensures value { result ≡ bit_of key.now i }
    ensures bit { result < 2 }
{
    u32::from((key[i / 8] >> (7 - i % 8)) % 2)
}

/// Whether one of so many bits from one on is 1.
fn has_one(key: &[u8], from: usize, count: usize) -> bool
    requires within { from + count ≤ 8 * length key.now }
    requires most { length key.now ≤ 52 }
    ensures { result ≡ has_one key.now from count }
{
    for i in from..from + count {
        if bit_of(key, i) == 1 {
            return true;
        }
    }
    false
}

/// The first bit of a key that meets the table index.
fn group_from(table: TableSize) -> usize
    ensures value { result ≡ group_from table }
    ensures within { result < 32 }
{
    match table {
        TableSize::Entries128 => 25,
        TableSize::Entries512 => 23,
    }
}

/// How many bits of a key meet the table index.
fn group_long(table: TableSize, family: Family) -> usize
    ensures value { result ≡ group_long table family }
    ensures within { group_from table + result ≤ 319 }
{
    match (table, family) {
        (TableSize::Entries128, Family::Four) => 102,
        (TableSize::Entries128, Family::Six) => 294,
        (TableSize::Entries512, Family::Four) => 104,
        (TableSize::Entries512, Family::Six) => 296,
    }
}

/// Whether a port is keyed for a family, for packets of which its key gives one table index alone.
fn is_flat(objects: &[Object], table: TableSize, family: Family, port: u32, key: &[u8]) -> bool
    requires least { 40 ≤ length key.now }
    requires most { length key.now ≤ 52 }
    ensures { result ≡ is_flat objects.now table family port key.now }
{
    is_keyed_for(objects, family, port)
        && !has_one(key, group_from(table), group_long(table, family))
}

/// Whether a key has a 1 past its port's positions.
fn is_long(card: Card, count: usize, key: &[u8]) -> bool
    requires long { length key.now ≡ key_bytes card.key }
    requires count { count ≤ 319 }
    ensures { result ≡ is_long card count key.now }
{
    has_one(key, count, 8 * card.key.bytes() as usize - count)
}

/// Whether a key is the default one.
fn is_default(card: Card, key: &[u8]) -> bool
    ensures { result ≡ bytes_eq key.now (default_key card.key) }
{
    let default = default_key(card.key);
    key == default.as_slice()
}

/// Whether the key of a keyed port has a 1 past its positions, or that of another isn't the default.
fn is_unfit(objects: &[Object], card: Card, count: u32, port: u32, key: &[u8]) -> bool
    requires long { length key.now ≡ key_bytes card.key }
    requires count { count ≤ 319 }
    ensures { result ≡ is_unfit objects.now card count port key.now }
{
    if is_keyed(objects, port) {
        is_long(card, count as usize, key)
    } else {
        !is_default(card, key)
    }
}

/// Whether one of so many fields from one on is of class `k`.
fn has_field(
    first: &Place,
    second: &Place,
    classes: &[usize; 8],
    k: usize,
    from: usize,
    count: usize,
) -> bool
    requires eight { from + count ≤ 8 }
    requires classes { (m : ℕ) → m < 8 → slice_index classes.now m ≡ class_at first.now second.now m }
    ensures { result ≡ has_field first.now second.now k from count }
{
    for m in from..from + count {
        if classes[m] == k {
            return true;
        }
    }
    false
}

/// The least port of whose key a class has bits.
fn home(first: &Place, second: &Place, classes: &[usize; 8], k: usize) -> u32
    requires classes { (m : ℕ) → m < 8 → slice_index classes.now m ≡ class_at first.now second.now m }
    ensures { result ≡ home first.now second.now k }
{
    if !has_field(first, second, classes, k, 0, 4) {
        return second.port;
    }
    if !has_field(first, second, classes, k, 4, 4) {
        return first.port;
    }
    if first.port <= second.port {
        first.port
    } else {
        second.port
    }
}

/// Whether a field is of another class than `k`, or its window has bit `u`.
fn has_bit(first: &Place, second: &Place, classes: &[usize; 8], k: usize, u: u32, m: usize) -> bool
    requires field { m < 8 }
    requires low { u < 65536 }
    requires classes { (j : ℕ) → j < 8 → slice_index classes.now j ≡ class_at first.now second.now j }
    ensures { result ≡ has_bit first.now second.now k u m }
{
    classes[m] != k || u < width_at(first.family, second.family, m) + 31
}

/// Whether the windows of all fields of class `k` have bit `u`.
fn are_within(first: &Place, second: &Place, classes: &[usize; 8], k: usize, u: u32) -> bool
    requires low { u < 65536 }
    requires classes { (j : ℕ) → j < 8 → slice_index classes.now j ≡ class_at first.now second.now j }
    ensures { result ≡ are_within first.now second.now k u }
{
    for m in 0..8 {
        if !has_bit(first, second, classes, k, u, m) {
            return false;
        }
    }
    true
}

/// Bit `u` of the window of a field, 0 or 1.
fn window_bit(first: &Place, second: &Place, key: &[u8], other: &[u8], n: usize, u: u32) -> u32
    requires field { n < 8 }
    requires bit { u < width_at first.now.family second.now.family n + 31 }
    requires key { 40 ≤ length key.now }
    requires other { 40 ≤ length other.now }
    ensures value { result ≡ window_bit first.now.family second.now.family key.now other.now n u }
    ensures bit { result < 2 }
{
    let end = end_at(first.family, second.family, n);
    bit_of(if n < 4 { key } else { other }, (end + 30 - u) as usize)
}

/// The sum of bits `u` of the windows of all fields of class `k`.
#[tactic(auto, using(crate::proofs::Judged::sum_none, crate::proofs::Judged::sum_with, crate::proofs::Judged::sum_without, crate::proofs::Judged::sum_all))]
fn class_sum(
    first: &Place,
    second: &Place,
    classes: &[usize; 8],
    key: &[u8],
    other: &[u8],
    k: usize,
    u: u32,
) -> u32
    requires classes { (m : ℕ) → m < 8 → slice_index classes.now m ≡ class_at first.now second.now m }
    requires bits { IsWithin first.now.family second.now.family (class_at first.now second.now) k u }
    requires key { 40 ≤ length key.now }
    requires other { 40 ≤ length other.now }
    ensures { result ≡ class_sum first.now.family second.now.family
        (class_at first.now second.now) key.now other.now k u }
{
    let mut sum = 0;
    for n in 0..8 {
        if classes[n] != k {
            continue;
        }
        sum += window_bit(first, second, key, other, n, u);
    }
    sum
}

/// Whether bits `u` of the windows of class `k` add up to 1, if all have that bit.
#[tactic(auto, using(crate::proofs::Judged::bit_outside, crate::proofs::Judged::bit_inside, crate::proofs::Judged::bits_within))]
fn bit_fails(
    first: &Place,
    second: &Place,
    classes: &[usize; 8],
    keys: &Keys,
    k: usize,
    u: u32,
) -> bool
    requires low { u < 65536 }
    requires classes { (j : ℕ) → j < 8 → slice_index classes.now j ≡ class_at first.now second.now j }
    requires first { first.now.port < length keys.now.ports }
    requires second { second.now.port < length keys.now.ports }
    ensures { result ≡ bit_fails keys.now first.now second.now k u }
{
    if !are_within(first, second, classes, k, u) {
        return false;
    }
    let key = keys.ports.item(first.port).as_slice();
    let other = keys.ports.item(second.port).as_slice();
    class_sum(first, second, classes, key, other, k, u) % 2 == 1
}

/// Whether one of the first so many bits of the windows of a class does.
fn bits_fail(
    first: &Place,
    second: &Place,
    classes: &[usize; 8],
    keys: &Keys,
    k: usize,
    most: u32,
) -> bool
    requires low { most < 65536 }
    requires classes { (j : ℕ) → j < 8 → slice_index classes.now j ≡ class_at first.now second.now j }
    requires first { first.now.port < length keys.now.ports }
    requires second { second.now.port < length keys.now.ports }
    ensures { result ≡ list_any (bit_fails keys.now first.now second.now k) (range_with_len 0 most) }
{
    for u in 0..most {
        if bit_fails(first, second, classes, keys, k, u) {
            return true;
        }
    }
    false
}

/// Whether some row of a class adds up to 1, and this is the least port of whose key it has bits.
#[tactic(auto, using(crate::proofs::Judged::class_elsewhere, crate::proofs::Judged::class_here))]
fn class_fails(
    keys: &Keys,
    port: u32,
    first: &Place,
    second: &Place,
    classes: &[usize; 8],
    k: usize,
) -> bool
    requires classes { (j : ℕ) → j < 8 → slice_index classes.now j ≡ class_at first.now second.now j }
    requires first { first.now.port < length keys.now.ports }
    requires second { second.now.port < length keys.now.ports }
    ensures { result ≡ class_fails keys.now port first.now second.now k }
{
    if home(first, second, classes, k) != port {
        return false;
    }
    bits_fail(first, second, classes, keys, k, LONGEST)
}

/// Whether some row of one of the first so many classes does.
fn classes_fail(
    keys: &Keys,
    port: u32,
    first: &Place,
    second: &Place,
    classes: &[usize; 8],
    most: usize,
) -> bool
    requires classes { (j : ℕ) → j < 8 → slice_index classes.now j ≡ class_at first.now second.now j }
    requires first { first.now.port < length keys.now.ports }
    requires second { second.now.port < length keys.now.ports }
    ensures { result ≡ list_any (class_fails keys.now port first.now second.now) (range_with_len 0 most) }
{
    for k in 0..most {
        if class_fails(keys, port, first, second, classes, k) {
            return true;
        }
    }
    false
}

/// Whether some row of two places does.
#[tactic(auto, using(crate::proofs::Judged::pair_untied, crate::proofs::Judged::pair_tied))]
fn pair_fails(keys: &Keys, port: u32, first: &Place, second: &Place) -> bool
    requires first { first.now.port < length keys.now.ports }
    requires second { second.now.port < length keys.now.ports }
    ensures { result ≡ pair_fails keys.now port first.now second.now }
{
    if first.known.len() != second.known.len() {
        return false;
    }
    let classes = classes_of(first.known.as_slice(), second.known.as_slice());
    classes_fail(keys, port, first, second, &classes, 8)
}

/// Whether some row of a place and another one of an object does.
fn place_fails(keys: &Keys, port: u32, first: &Place, places: &[Place]) -> bool
    requires first { first.now.port < length keys.now.ports }
    requires places { AreAtPorts (length keys.now.ports) places.now }
    ensures { result ≡ list_any (pair_fails keys.now port first.now) places.now }
{
    for second in places {
        if pair_fails(keys, port, first, second) {
            return true;
        }
    }
    false
}

/// Whether some row of two places of an object does.
fn object_fails(keys: &Keys, port: u32, object: &Object) -> bool
    requires { AreAtPorts (length keys.now.ports) object.now.places }
    ensures { result ≡ object_fails keys.now port object.now }
{
    for first in object.places.as_slice() {
        if place_fails(keys, port, first, object.places.as_slice()) {
            return true;
        }
    }
    false
}

/// Whether some row of two places of one of some objects does.
fn rows_fail(objects: &[Object], keys: &Keys, port: u32) -> bool
    requires { All (λ object. AreAtPorts (length keys.now.ports) object.places) objects.now }
    ensures { result ≡ rows_fail objects.now keys.now port }
{
    for object in objects {
        if object_fails(keys, port, object) {
            return true;
        }
    }
    false
}

/// Whether the key of a port is wrong.
fn is_wrong(objects: &[Object], card: Card, count: u32, keys: &Keys, port: u32) -> bool
    requires objects { All (λ object. AreAtPorts (length keys.now.ports) object.places) objects.now }
    requires keys { AreKeysFor card keys.now }
    requires port { port < length keys.now.ports }
    requires count { count ≤ 319 }
    ensures { result ≡ is_wrong objects.now card count keys.now port }
{
    let key = keys.ports.item(port).as_slice();
    is_unfit(objects, card, count, port, key)
        || is_flat(objects, card.table, Family::Four, port, key)
        || is_flat(objects, card.table, Family::Six, port, key)
        || rows_fail(objects, keys, port)
}

/// The least port whose key is wrong.
pub fn wrong_port(objects: &[Object], card: Card, positions: &[u32], keys: &Keys) -> Option<u32>
    requires objects { All (λ object. AreAtPorts (length keys.now.ports) object.places) objects.now }
    requires keys { AreKeysFor card keys.now }
    requires positions { length positions.now ≡ length keys.now.ports }
    requires counts { All (λ n. n ≤ 319) positions.now }
    ensures { result ≡ wrong_port objects.now card positions.now keys.now }
{
    for port in 0..keys.ports.len() {
        if is_wrong(objects, card, positions[port as usize], keys, port) {
            return Some(port);
        }
    }
    None
}
