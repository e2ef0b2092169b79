//! The front of what is left of a file, taken as far as it is wanted, and bytes that are stepped over.
ghost use Rattle.std.specs.Prelude.{◌≡◌, ◌<◌, ◌≤◌, ◌+◌, ◌-◌, ℕ, [], length, take, drop, max, vec_len, IfOk, OnOk, OnErr, nat_eq, slice_range};
ghost use Rattle.nf_files.specs.Causes.{HasCause};
ghost use Rattle.nf_files.specs.Reads.{Keeps, Reads};
ghost use Rattle.nf_files.specs.Told.{Same, IsRead};
ghost use Rattle.nf_files.specs.Pieces.{Takes};
ghost use Rattle.pcap_file.specs.Causes.{IsCause, IsNoHeaderFault};
ghost use Rattle.pcap_file.specs.Taken.{TakesHeader};
ghost use Rattle.pcap_file.specs.Held.{Grows, Filled, Skips, IsBegun};

use crate::fault::CapFault;
use crate::form::HEADER;
use nf_files::{Files, FilesFault};
use std::alloc::{AllocError, Global};
use std::marker::Model;

/// The most bytes that are held: a frame of 262,144 bytes, and a page for what stands round it.
const ROOM: usize = 266_240;

/// A file that is read, and the bytes that were taken off its front: at most 266,240.
#[derive(Drop)]
pub struct Front {
    file: u32,
    room: Vec<u8>,
    count: usize,
}

impl Model for Front {
    ghost use Rattle.std.specs.Prelude.{◌≡◌, ◌≤◌, take, vec_len};
    ghost use Rattle.pcap_file.specs.Held.{Held};

    ghost Value = { Held };

    ghost view = { λ f. record { file = f.file; bytes = take f.count f.room.items } };

    ghost invariant = { λ f. (f.count ≤ 266240) × (vec_len f.room ≡ 266240) };
}

// Zeros, of which a proof knows the number alone.
fn zeros(alloc: Global) -> Result<Vec<u8>, AllocError>
    ensures length { IfOk result (λ bytes. vec_len bytes ≡ ROOM) }
{
    let size = ROOM;
    vec![in alloc; 0u8; size]
}

// Reads once, into a range of bytes.
fn read_into<F: Files>(
    files: &mut F,
    file: u32,
    bytes: &mut [u8],
    at: usize,
    end: usize,
) -> Result<usize, FilesFault>
    requires opened { IsRead (F.told files.old) file }
    requires room { (at < end) × (end ≤ length bytes.old) }
    ensures ok { IfOk result (λ count.
        Reads (F.told files.old) (F.told files.new) file count (slice_range bytes.new at end)) }
    ensures front { take at bytes.new ≡ take at bytes.old }
    ensures err { OnErr result (Same (F.told files.old) (F.told files.new)) }
    ensures cause { HasCause (F.counted files.old) (F.counted files.new) file result }
{
    files.read(file, &mut bytes[at..end])
}

impl Front {
    /// The front of a file of which nothing was taken.
    pub fn new(alloc: Global, file: u32) -> Result<Self, AllocError>
        ensures { IfOk result (λ f. f ≡ record { file = file; bytes = [] }) }
    {
        let room = zeros(alloc)?;
        Ok(Front {
            file,
            room,
            count: 0,
        })
    }

    /// The number of the file.
    #[inline]
    pub fn file(&self) -> u32
        ensures { result ≡ self.now.file }
    {
        self.file
    }

    /// The bytes that are held.
    pub fn as_slice(&self) -> &[u8]
        ensures { result.now ≡ self.now.bytes }
    {
        &self.room[..self.count]
    }

    /// Whether no byte is held.
    pub fn is_empty(&self) -> bool
        ensures { result ≡ nat_eq (length self.now.bytes) 0 }
    {
        self.count == 0
    }

    /// Lets go what was taken.
    pub fn clear(&mut self)
        ensures { self.new ≡ record { file = self.old.file; bytes = [] } }
    {
        self.count = 0;
    }

    // Reads once; false says that nothing is left of the file.
    fn refill<F: Files>(&mut self, files: &mut F, wanted: usize) -> Result<bool, FilesFault>
        requires opened { IsRead (F.told files.old) self.old.file }
        requires room { (length self.old.bytes < wanted) × (wanted ≤ 266240) }
        ensures grows { Grows self.old self.new (F.told files.old) (F.told files.new) }
        ensures more { let left = (F.told files.new).rest self.old.file in
            IfOk result (Filled (length self.old.bytes + 1) self.new.bytes left) }
        ensures most { length self.new.bytes ≤ wanted }
        ensures cause { let file = self.old.file in
            HasCause (F.counted files.old) (F.counted files.new) file result }
    {
        let count = read_into(
            files,
            self.file,
            self.room.as_mut_slice(),
            self.count,
            wanted,
        )?;
        self.count += count;
        Ok(count > 0)
    }

    /// Keeps so many of the bytes that are held, and lets go those behind them.
    pub fn truncate(&mut self, count: usize)
        requires { count ≤ length self.old.bytes }
        ensures { self.new ≡ record { file = self.old.file; bytes = take count self.old.bytes } }
    {
        self.count = count;
    }

    /// Takes until so many bytes are held, or nothing is left of the file.
    pub fn fill<F: Files>(&mut self, files: &mut F, wanted: usize) -> Result<bool, FilesFault>
        requires opened { IsRead (F.told files.old) self.old.file }
        requires room { (length self.old.bytes ≤ wanted) × (wanted ≤ 266240) }
        ensures grows { Grows self.old self.new (F.told files.old) (F.told files.new) }
        ensures filled { let left = (F.told files.new).rest self.old.file in
            IfOk result (Filled wanted self.new.bytes left) }
        // No byte more than these is taken.
        ensures most { length self.new.bytes ≤ wanted }
        ensures cause { let file = self.old.file in
            HasCause (F.counted files.old) (F.counted files.new) file result }
    {
        while self.count < wanted {
            if !self.refill(files, wanted)? {
                return Ok(false);
            }
        }
        Ok(true)
    }

    /// Steps over so many bytes of the file behind those that are held, a piece at a time; false says
    /// that there were fewer, and that nothing is left.
    ///
    /// After an `Err` bytes may be held that were to be stepped over.
    pub fn skip<F: Files>(&mut self, files: &mut F, count: u32) -> Result<bool, FilesFault>
        requires opened { IsRead (F.told files.old) self.old.file }
        requires room { length self.old.bytes < 266240 }
        ensures skipped { let file = self.old.file in
            IfOk result (Skips count ((F.told files.old).rest file) ((F.told files.new).rest file)) }
        ensures held { OnOk result (self.new ≡ self.old) }
        ensures same_file { self.new.file ≡ self.old.file }
        ensures kept { Keeps (F.told files.old) (F.told files.new) self.old.file }
        ensures cause { let file = self.old.file in
            HasCause (F.counted files.old) (F.counted files.new) file result }
    {
        let held = self.as_slice().len();
        let mut left = count as usize;
        while left > 0 {
            let piece = left.min(ROOM - held);
            if !self.step_over(files, held, piece)? {
                return Ok(false);
            }
            left -= piece;
        }
        Ok(true)
    }

    // Steps over so many bytes, for which there is room behind those that are held.
    fn step_over<F: Files>(
        &mut self,
        files: &mut F,
        held: usize,
        piece: usize,
    ) -> Result<bool, FilesFault>
        requires opened { IsRead (F.told files.old) self.old.file }
        requires held { held ≡ length self.old.bytes }
        requires room { held + piece ≤ 266240 }
        ensures skipped { let file = self.old.file in
            IfOk result (Skips piece ((F.told files.old).rest file) ((F.told files.new).rest file)) }
        ensures held { OnOk result (self.new ≡ self.old) }
        ensures same_file { self.new.file ≡ self.old.file }
        ensures kept { Keeps (F.told files.old) (F.told files.new) self.old.file }
        ensures cause { let file = self.old.file in
            HasCause (F.counted files.old) (F.counted files.new) file result }
    {
        let whole = self.fill(files, held + piece)?;
        self.truncate(held);
        Ok(whole)
    }

    /// The first 24 bytes of a file, or all that there are: the header of a capture of either format.
    ///
    /// The file is one that was opened to be read, and nothing of it was read yet.
    pub fn begin<F: Files>(alloc: Global, files: &mut F, file: u32) -> Result<Front, CapFault>
        requires opened { IsRead (F.told files.old) file }
        ensures begun { IfOk result (λ front. IsBegun file front (F.told files.old) (F.told files.new)) }
        // No byte behind the header is taken.
        ensures takes { let left = (F.told files.old).rest file in
            TakesHeader left ((F.told files.new).rest file) result }
        ensures kept { Keeps (F.told files.old) (F.told files.new) file }
        ensures cause { IsCause (F.counted files.old) (F.counted files.new) file result }
        ensures never { IsNoHeaderFault result }
    {
        let mut front = match Front::new(alloc, file) {
            Ok(front) => front,
            Err(_) => return Err(CapFault::Memory),
        };
        front.fill(files, HEADER)?;
        Ok(front)
    }
}
