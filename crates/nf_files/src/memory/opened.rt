// The opened files of `MemoryFiles`.
ghost use Rattle.std.specs.Prelude.{◌≡◌, ◌<◌, ◌≤◌, ◌++◌, [], take, drop, length, slice_get, IfOk, OnOk, OnErr, Some, true, map, option_map};
ghost use Rattle.nf_files.specs.Opened.{kind_of, rest_of, left_of, given_of, stands_under, last_created, displaced, Changes};
ghost use Rattle.nf_files.specs.Pieces.{Takes, Gains};
ghost use Rattle.nf_files.specs.Told.{IsEmptyIfTold};

use crate::kind::Kind;
use std::alloc::{AllocError, Global};

/// A file that was opened.
#[derive(Drop)]
pub struct OpenFile {
    // An output's name. An input's is empty.
    pub name: Vec<u8>,
    // Whether nothing was put under an output's name since.
    pub stands: bool,
    pub kind: Kind,
    pub bytes: Vec<u8>,
    // How many bytes of an input were read.
    pub at: usize,
}

// A file that is read, with these bytes.
pub fn input(alloc: Global, bytes: Vec<u8>) -> OpenFile
    ensures value { (result.kind ≡ Kind.Input) × (result.bytes ≡ bytes) × (result.at ≡ 0) }
{
    OpenFile {
        name: Vec::new(alloc),
        stands: false,
        kind: Kind::Input,
        bytes,
        at: 0,
    }
}

// An empty file that is written, under a name.
pub fn output(alloc: Global, name: &str) -> Result<OpenFile, AllocError>
    ensures value { IfOk result (λ f. (f.kind ≡ Kind.Output) × (f.name.items ≡ name.now) × (f.stands ≡ true) × (f.bytes.items ≡ [])) }
{
    Ok(OpenFile {
        name: Vec::from_slice(alloc, name.as_bytes())?,
        stands: true,
        kind: Kind::Output,
        bytes: Vec::new(alloc),
        at: 0,
    })
}

// Takes bytes from what is left of a file, as many as there are room and bytes for.
fn take_from(f: &mut OpenFile, out: &mut [u8]) -> usize
    ensures within { result ≤ length out.new }
    ensures taken { drop f.old.at f.old.bytes.items ≡ take result out.new ++ drop f.new.at f.new.bytes.items }
    ensures at_end { result ≡ 0 → 0 < length out.new → drop f.old.at f.old.bytes.items ≡ [] }
    ensures same { (f.new.name ≡ f.old.name) × (f.new.kind ≡ f.old.kind) × (f.new.bytes ≡ f.old.bytes) × (f.new.stands ≡ f.old.stands) }
{
    let start = f.at.min(f.bytes.len());
    let (_, rest) = f.bytes.as_slice().split_at(start);
    let count = rest.len().min(out.len());
    let (front, _) = rest.split_at(count);
    for k in 0..count {
        out[k] = front[k];
    }
    f.at = start + count;
    count
}

// Reads the file at a place of the list.
pub fn read_at(files: &mut Vec<OpenFile>, k: usize, out: &mut [u8]) -> usize
    requires input { kind_of (slice_get files.old.items k) ≡ Some Kind.Input }
    ensures changes { Changes files.old.items files.new.items k }
    ensures within { result ≤ length out.new }
    ensures taken { Takes (take result out.new) (rest_of (slice_get files.old.items k)) (rest_of (slice_get files.new.items k)) }
    ensures at_end { result ≡ 0 → 0 < length out.new → IsEmptyIfTold (rest_of (slice_get files.old.items k)) }
    ensures given { given_of (slice_get files.new.items k) ≡ given_of (slice_get files.old.items k) }
{
    take_from(&mut files[k], out)
}

// What is left of a file.
fn left(f: &OpenFile) -> &[u8]
    ensures { result.now ≡ drop f.now.at f.now.bytes.items }
{
    let start = f.at.min(f.bytes.len());
    &f.bytes[start..]
}

// What is left of the file at a place of the list.
pub fn left_at(files: &[OpenFile], k: usize) -> &[u8]
    requires input { kind_of (slice_get files.now k) ≡ Some Kind.Input }
    ensures value { rest_of (slice_get files.now k) ≡ Some result.now }
{
    left(&files[k])
}

// Takes so many bytes from what is left of a file.
fn skip(f: &mut OpenFile, count: usize)
    requires { count ≤ length (drop f.old.at f.old.bytes.items) }
    ensures taken { let left = drop f.old.at f.old.bytes.items in
        left ≡ take count left ++ drop f.new.at f.new.bytes.items }
    ensures same { (f.new.name ≡ f.old.name) × (f.new.kind ≡ f.old.kind) × (f.new.bytes ≡ f.old.bytes) × (f.new.stands ≡ f.old.stands) }
{
    f.at += count;
}

// Takes so many bytes from what is left of the file at a place of the list.
pub fn skip_at(files: &mut Vec<OpenFile>, k: usize, count: usize)
    requires input { kind_of (slice_get files.old.items k) ≡ Some Kind.Input }
    requires within { count ≤ length (left_of (slice_get files.old.items k)) }
    ensures changes { Changes files.old.items files.new.items k }
    ensures taken { let front = take count (left_of (slice_get files.old.items k)) in
        Takes front (rest_of (slice_get files.old.items k)) (rest_of (slice_get files.new.items k)) }
    ensures given { given_of (slice_get files.new.items k) ≡ given_of (slice_get files.old.items k) }
{
    skip(&mut files[k], count);
}

// Writes a piece to the file at a place of the list.
pub fn write_at(files: &mut Vec<OpenFile>, k: usize, piece: &[u8]) -> Result<(), AllocError>
    requires output { kind_of (slice_get files.old.items k) ≡ Some Kind.Output }
    ensures changes { Changes files.old.items files.new.items k }
    ensures gained { OnOk result (Gains piece.now (given_of (slice_get files.old.items k)) (given_of (slice_get files.new.items k))) }
    ensures unchanged { OnErr result (given_of (slice_get files.new.items k) ≡ given_of (slice_get files.old.items k)) }
    ensures rest { rest_of (slice_get files.new.items k) ≡ rest_of (slice_get files.old.items k) }
{
    files[k].bytes.extend_from_slice(piece)
}

// What was given to the file at a place of the list.
pub fn given_at<'a>(files: &'a [OpenFile], k: usize) -> Option<&'a [u8]>
    ensures value { option_map (λ bytes. bytes.now) result ≡ given_of (slice_get files.now k) }
{
    let f = files.get(k)?;
    match f.kind {
        Kind::Input => None,
        Kind::Output => Some(f.bytes.as_slice()),
    }
}

// Whether the bytes of a file stand under a name.
fn is_under(f: &OpenFile, name: &str) -> bool
    ensures value { result ≡ stands_under f.now name.now }
{
    f.kind == Kind::Output && f.stands && f.name.as_slice() == name.as_bytes()
}

// The place of the file whose bytes stand under a name.
pub fn last_under(files: &[OpenFile], name: &str) -> Option<usize>
    ensures value { result ≡ last_created files.now name.now }
{
    let mut found = None;
    'files: for k in 0..files.len() {
        if is_under(&files[k], name) {
            found = Some(k);
        }
    }
    found
}

// Takes a file's bytes from under a name.
fn displace(f: &mut OpenFile, name: &str)
    ensures value { f.new ≡ displaced name.now f.old }
{
    if f.name.as_slice() == name.as_bytes() {
        f.stands = false;
    }
}

// Takes the bytes of every file from under a name.
pub fn displace_all(files: &mut Vec<OpenFile>, name: &str)
    ensures value { files.new.items ≡ map (displaced name.now) files.old.items }
{
    'files: for k in 0..files.len() {
        displace(&mut files[k], name);
    }
}
