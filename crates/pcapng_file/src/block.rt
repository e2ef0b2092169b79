//! One whole block off the front of a file.
//!
//! | offset | bytes | meaning |
//! |---|---|---|
//! | 0 | 4 | type |
//! | 4 | 4 | total length, in bytes: 12 or more, and a multiple of 4 |
//! | 8 | total length - 12 | body |
//! | total length - 4 | 4 | total length again |
//!
//! All numbers stand in the section's byte order (pcapng, "General Block Structure").
ghost use Rattle.std.specs.Prelude.{◌≡◌, ◌+◌, ◌<◌, ◌≤◌, ℕ, List, [], length, take, max, true, Some, None, IfOk, OnOk, OnErr, IfSome, IfNone, if◌then◌else◌, ◌&&◌, nat_le, nat_eq};
ghost use Rattle.nf_files.specs.Told.{IsRead};
ghost use Rattle.nf_files.specs.Causes.{HasCause};
ghost use Rattle.nf_files.specs.Reads.{Keeps};
ghost use Rattle.pcap_file.specs.Form.{number_in};
ghost use Rattle.pcap_file.specs.Held.{Grows, Filled, to_come};
ghost use Rattle.pcapng_file.specs.Blocks.{is_sized, total_in};
ghost use Rattle.pcapng_file.specs.Taking.{IsReady, IsOrdered, IsRefused, IsSized, held_of, IsBody, IsClosing, IsClosed, IsReached, IsTaken, IsHeld, IsBlock};

use crate::header::{HEADER, header_in, is_pcapng};
use crate::number::number;
use nf_files::{Files, FilesFault};
use pcap_file::{Endian, Front};

/// The bytes of a block that stand round its body.
const LEAST: u32 = 12;

/// Type and total length of a block.
const START: usize = 8;

/// The length of a block's closing length.
const CLOSING: u32 = 4;

/// The most bytes of a block that are held: those of a type 6 block up to the end of its frame.
const MOST_HELD: u32 = 262_172;

/// A whole block: its byte order, and how many bytes it has.
#[derive(Clone, Copy, Debug, PartialEq, Eq)]
pub(crate) struct Block {
    pub(crate) order: Endian,
    pub(crate) total: u32,
}

/// What stands in front of the bytes that are left.
#[derive(Clone, Copy, Debug, PartialEq, Eq)]
pub(crate) enum Taken {
    /// Nothing.
    Nothing,
    /// No whole block.
    Torn,
    /// A whole block.
    Whole(Block),
}

// Takes until so many bytes are held, if they are not yet.
fn at_least<F: Files>(files: &mut F, front: &mut Front, wanted: usize) -> Result<bool, FilesFault>
    requires opened { IsRead (F.told files.old) front.old.file }
    requires room { wanted ≤ 266240 }
    ensures grows { Grows front.old front.new (F.told files.old) (F.told files.new) }
    ensures filled { let left = (F.told files.new).rest front.old.file in
        IfOk result (Filled wanted front.new.bytes left) }
    ensures same { wanted ≤ length front.old.bytes → front.new ≡ front.old }
    ensures most { length front.new.bytes ≤ max wanted (length front.old.bytes) }
    ensures cause { HasCause (F.counted files.old) (F.counted files.new) front.old.file result }
{
    if front.as_slice().len() >= wanted {
        Ok(true)
    } else {
        front.fill(files, wanted)
    }
}

// Takes as much of a block as tells its byte order, which is that of its section, or of a section's
// header its own; None where no whole block stands in front.
fn order_ahead<F: Files>(
    files: &mut F,
    front: &mut Front,
    order: Endian,
) -> Result<Option<Endian>, FilesFault>
    requires opened { IsRead (F.told files.old) front.old.file }
    requires ready { IsReady front.old.bytes }
    ensures grows { Grows front.old front.new (F.told files.old) (F.told files.new) }
    ensures found { IfOk result (λ found. IfSome found (IsOrdered order front.new.bytes)) }
    ensures none { (bytes : List ℕ) (offset : ℕ) →
        to_come front.old.bytes ((F.told files.old).rest front.old.file) ≡ Some bytes →
        IfOk result (λ found. IfNone found (IsRefused order offset bytes front.new.bytes)) }
    ensures cause { HasCause (F.counted files.old) (F.counted files.new) front.old.file result }
{
    if !at_least(files, front, START)? {
        return Ok(None);
    }
    if !is_pcapng(front.as_slice()) {
        return Ok(Some(order));
    }
    if !at_least(files, front, HEADER)? {
        return Ok(None);
    }
    Ok(header_in(front.as_slice()))
}

// The total length that a block says in front, and None where it can be none.
fn total_of(order: Endian, offset: u64, held: &[u8]) -> Option<u32>
    requires { 8 ≤ length held.now }
    ensures { result ≡
        (if is_sized order offset held.now then Some (total_in order held.now) else None) }
{
    let total = number(order, &held[4..]);
    if total < LEAST || total % 4 != 0 {
        return None;
    }
    match offset.checked_add(u64::from(total)) {
        None => None,
        Some(_) => Some(total),
    }
}

// Takes a block up to its closing length, and holds its front; false where there is less of it.
fn body<F: Files>(files: &mut F, front: &mut Front, total: u32) -> Result<bool, FilesFault>
    requires opened { IsRead (F.told files.old) front.old.file }
    requires least { 12 ≤ total }
    requires held { length front.old.bytes ≤ held_of total }
    ensures body { (bytes : List ℕ) →
        to_come front.old.bytes ((F.told files.old).rest front.old.file) ≡ Some bytes →
        let left = (F.told files.new).rest front.old.file in
        IfOk result (IsBody total bytes front.new.bytes left) }
    ensures long { IfOk result (λ whole. length front.old.bytes ≤ length front.new.bytes) }
    ensures held { IfOk result (λ whole. whole ≡ true → length front.new.bytes ≡ held_of total) }
    ensures same_file { front.new.file ≡ front.old.file }
    ensures kept { Keeps (F.told files.old) (F.told files.new) front.old.file }
    ensures cause { HasCause (F.counted files.old) (F.counted files.new) front.old.file result }
{
    let held = (total - CLOSING).min(MOST_HELD);
    if !front.fill(files, held as usize)? {
        return Ok(false);
    }
    front.skip(files, total - CLOSING - held)
}

// Whether bytes begin with a number.
fn says(order: Endian, wanted: u32, bytes: &[u8]) -> bool
    ensures { result ≡
        (nat_le 4 (length bytes.now) && nat_eq (number_in order bytes.now) wanted) }
{
    bytes.len() >= 4 && number(order, bytes) == wanted
}

/// How many bytes the block has that stands in front of bytes; None where no whole one does, and where a
/// section begins or the block has more bytes than are held of one.
pub(crate) fn block_ahead(order: Endian, offset: u64, bytes: &[u8]) -> Option<u32>
    ensures within { IfSome result (λ total. total ≤ length bytes.now) }
    ensures block { IfSome result (λ total. IsBlock order offset (take total bytes.now)) }
{
    if bytes.len() < START || is_pcapng(bytes) {
        return None;
    }
    let total = total_of(order, offset, bytes)?;
    if total > MOST_HELD + CLOSING || bytes.len() < total as usize {
        return None;
    }
    if says(order, total, &bytes[(total - CLOSING) as usize..]) {
        Some(total)
    } else {
        None
    }
}

// Takes the closing length of a block whose front is held, and tells whether it is the one in front.
fn closing<F: Files>(
    files: &mut F,
    front: &mut Front,
    order: Endian,
    total: u32,
) -> Result<bool, FilesFault>
    requires opened { IsRead (F.told files.old) front.old.file }
    requires held { length front.old.bytes ≤ 262172 }
    ensures closing { (bytes : List ℕ) → (F.told files.old).rest front.old.file ≡ Some bytes →
        let left = (F.told files.new).rest front.old.file in
        IfOk result (IsClosing order total bytes left) }
    ensures held { OnOk result (front.new ≡ front.old) }
    ensures same_file { front.new.file ≡ front.old.file }
    ensures kept { Keeps (F.told files.old) (F.told files.new) front.old.file }
    ensures cause { HasCause (F.counted files.old) (F.counted files.new) front.old.file result }
{
    let held = front.as_slice().len();
    front.fill(files, held + CLOSING as usize)?;
    let same = says(order, total, &front.as_slice()[held..]);
    front.truncate(held);
    Ok(same)
}

// Takes all of a block of which some is held, and holds its front; false where there is less of it, or
// its closing length is another.
fn close<F: Files>(
    files: &mut F,
    front: &mut Front,
    order: Endian,
    total: u32,
) -> Result<bool, FilesFault>
    requires opened { IsRead (F.told files.old) front.old.file }
    requires least { 12 ≤ total }
    requires held { length front.old.bytes ≤ held_of total }
    ensures closed { (bytes : List ℕ) →
        to_come front.old.bytes ((F.told files.old).rest front.old.file) ≡ Some bytes →
        let left = (F.told files.new).rest front.old.file in
        IfOk result (IsClosed order total bytes front.new.bytes left) }
    ensures long { IfOk result (λ whole. length front.old.bytes ≤ length front.new.bytes) }
    ensures held { IfOk result (λ whole. whole ≡ true → length front.new.bytes ≡ held_of total) }
    ensures same_file { front.new.file ≡ front.old.file }
    ensures kept { Keeps (F.told files.old) (F.told files.new) front.old.file }
    ensures cause { HasCause (F.counted files.old) (F.counted files.new) front.old.file result }
{
    if !body(files, front, total)? {
        return Ok(false);
    }
    closing(files, front, order, total)
}

// Takes the block in front, and holds its front; None where no whole one stands there.
fn reach<F: Files>(
    files: &mut F,
    front: &mut Front,
    order: Endian,
    offset: u64,
) -> Result<Option<Block>, FilesFault>
    requires opened { IsRead (F.told files.old) front.old.file }
    requires ready { IsReady front.old.bytes }
    ensures reached { (bytes : List ℕ) →
        to_come front.old.bytes ((F.told files.old).rest front.old.file) ≡ Some bytes →
        let left = (F.told files.new).rest front.old.file in
        IfOk result (IsReached order offset bytes front.new.bytes left) }
    ensures sized { IfOk result
        (λ block. IfSome block (λ b. IsSized offset b.total front.new.bytes)) }
    ensures same_file { front.new.file ≡ front.old.file }
    ensures kept { Keeps (F.told files.old) (F.told files.new) front.old.file }
    ensures cause { HasCause (F.counted files.old) (F.counted files.new) front.old.file result }
{
    let found = match order_ahead(files, front, order)? {
        None => return Ok(None),
        Some(found) => found,
    };
    let total = match total_of(found, offset, front.as_slice()) {
        None => return Ok(None),
        Some(total) => total,
    };
    if close(files, front, found, total)? {
        Ok(Some(Block {
            order: found,
            total,
        }))
    } else {
        Ok(None)
    }
}

/// Takes the block that stands next in a section, and no byte behind it.
///
/// Of a whole block the front is held: up to 262,172 bytes, and not its closing length, which was read
/// and tested. Else nothing is held.
pub(crate) fn take<F: Files>(
    files: &mut F,
    front: &mut Front,
    order: Endian,
    offset: u64,
) -> Result<Taken, FilesFault>
    requires opened { IsRead (F.told files.old) front.old.file }
    requires ready { IsReady front.old.bytes }
    ensures taken { (bytes : List ℕ) →
        to_come front.old.bytes ((F.told files.old).rest front.old.file) ≡ Some bytes →
        let left = (F.told files.new).rest front.old.file in
        IfOk result (IsTaken order offset bytes front.new.bytes left) }
    ensures held { IfOk result (IsHeld offset front.new.bytes) }
    ensures err { OnErr result (front.new.bytes ≡ []) }
    ensures same_file { front.new.file ≡ front.old.file }
    ensures kept { Keeps (F.told files.old) (F.told files.new) front.old.file }
    ensures cause { HasCause (F.counted files.old) (F.counted files.new) front.old.file result }
{
    match reach(files, front, order, offset) {
        Err(fault) => {
            front.clear();
            Err(fault)
        }
        Ok(None) => {
            let nothing = front.is_empty();
            front.clear();
            Ok(if nothing { Taken::Nothing } else { Taken::Torn })
        }
        Ok(Some(block)) => Ok(Taken::Whole(block)),
    }
}
