// Names, what stands under them, and the files that were opened.
ghost use Rattle.std.specs.Prelude.{◌≡◌, ◌≤◌, ◌+◌, ◌-◌, ℕ, List, length, take, slice_get, option_map, OnOk, OnErr, Some};
ghost use Rattle.nf_files.specs.Memory.{store_told, nothing};
ghost use Rattle.nf_files.specs.Openings.{Opens, Creates};
ghost use Rattle.nf_files.specs.Puts.{Puts};
ghost use Rattle.nf_files.specs.Opened.{left_of};
ghost use Rattle.nf_files.specs.Pieces.{Takes};
ghost use Rattle.nf_files.specs.Reads.{Keeps, Reads};
ghost use Rattle.nf_files.specs.Told.{IsRead, TakesBytes, Same};
ghost use Rattle.nf_files.specs.Writes.{Writes};

use super::named::{Named, put_bytes};
use super::opened::{
    OpenFile, displace_all, given_at, input, last_under, left_at, output, read_at, skip_at,
    write_at,
};
use std::alloc::{AllocError, Global};

/// Names, what stands under them, and the files that were opened.
#[derive(Drop)]
pub struct Store {
    // Newest first.
    pub names: Vec<Named>,
    // What was given to standard output, and to standard error.
    pub output: Vec<u8>,
    pub errors: Vec<u8>,
    pub files: Vec<OpenFile>,
}

impl Store {
    pub fn new(alloc: Global) -> Self
        ensures nothing { Same nothing (store_told result) }
        ensures none { length result.files.items ≡ 0 }
    {
        Store {
            names: Vec::new(alloc),
            output: Vec::new(alloc),
            errors: Vec::new(alloc),
            files: Vec::new(alloc),
        }
    }

    // The bytes that stand under a name.
    pub fn content(&self, name: &str) -> Option<&[u8]>
        ensures value { option_map (λ bytes. bytes.now) result ≡ (store_told self.now).content name.now }
    {
        match last_under(self.files.as_slice(), name) {
            Some(k) => given_at(self.files.as_slice(), k),
            None => put_bytes(self.names.as_slice(), name),
        }
    }

    // The bytes that were given to a file that is written.
    pub fn given(&self, file: u32) -> Option<&[u8]>
        ensures value { option_map (λ bytes. bytes.now) result ≡ (store_told self.now).given file }
    {
        match file {
            0 => Some(self.output.as_slice()),
            1 => Some(self.errors.as_slice()),
            _ => given_at(self.files.as_slice(), file as usize - 2),
        }
    }

    // Puts bytes under a name.
    pub fn put(&mut self, alloc: Global, name: &str, bytes: &[u8]) -> Result<(), AllocError>
        ensures ok { OnOk result (Puts (store_told self.old) (store_told self.new) name.now bytes.now) }
        ensures err { OnErr result (Same (store_told self.old) (store_told self.new)) }
        ensures count { length self.new.files.items ≡ length self.old.files.items }
    {
        let named = Named {
            name: Vec::from_slice(alloc, name.as_bytes())?,
            bytes: Vec::from_slice(alloc, bytes)?,
        };
        self.names.insert(0, named)?;
        displace_all(&mut self.files, name);
        Ok(())
    }

    // Opens a name to be read, under which these bytes stand.
    pub fn open(&mut self, alloc: Global, bytes: Vec<u8>) -> Result<(), AllocError>
        ensures ok { OnOk result ((n : List ℕ) → (store_told self.old).content n ≡ Some bytes.items → Opens (store_told self.old) (store_told self.new) n (length self.old.files.items + 2)) }
        ensures err { OnErr result (Same (store_told self.old) (store_told self.new)) }
    {
        self.files.push(input(alloc, bytes))?;
        Ok(())
    }

    // Creates a name, empty, to be written.
    pub fn create(&mut self, alloc: Global, name: &str) -> Result<(), AllocError>
        ensures ok { OnOk result (Creates (store_told self.old) (store_told self.new) name.now (length self.old.files.items + 2)) }
        ensures err { OnErr result (Same (store_told self.old) (store_told self.new)) }
    {
        let file = output(alloc, name)?;
        self.files.push(file)?;
        Ok(())
    }

    // Reads what is left of a file, as much as fits.
    pub fn read(&mut self, file: u32, out: &mut [u8]) -> usize
        requires input { IsRead (store_told self.old) file }
        ensures ok { Reads (store_told self.old) (store_told self.new) file result out.new }
    {
        read_at(&mut self.files, file as usize - 2, out)
    }

    // What is left of a file.
    pub fn left(&self, file: u32) -> &[u8]
        requires input { IsRead (store_told self.now) file }
        ensures { result.now ≡ left_of (slice_get self.now.files.items (file - 2)) }
    {
        left_at(self.files.as_slice(), file as usize - 2)
    }

    // Takes so many bytes from what is left of a file.
    pub fn take(&mut self, file: u32, count: usize)
        requires input { IsRead (store_told self.old) file }
        requires within { count ≤ length (left_of (slice_get self.old.files.items (file - 2))) }
        ensures taken { let front = take count (left_of (slice_get self.old.files.items (file - 2))) in
            Takes front ((store_told self.old).rest file) ((store_told self.new).rest file) }
        ensures kept { Keeps (store_told self.old) (store_told self.new) file }
    {
        skip_at(&mut self.files, file as usize - 2, count)
    }

    // Gives a piece to a file.
    pub fn write(&mut self, file: u32, piece: &[u8]) -> Result<(), AllocError>
        requires output { TakesBytes (store_told self.old) file }
        ensures ok { OnOk result (Writes (store_told self.old) (store_told self.new) file piece.now) }
        ensures err { OnErr result (Same (store_told self.old) (store_told self.new)) }
    {
        match file {
            0 => self.output.extend_from_slice(piece),
            1 => self.errors.extend_from_slice(piece),
            _ => write_at(&mut self.files, file as usize - 2, piece),
        }
    }
}
