// Files in memory.
ghost use Rattle.std.specs.Prelude.{◌≡◌, [], option_map, unwrap_or, OnOk, OnErr, None, suc};
ghost use Rattle.nf_files.specs.Memory.{memory_told, memory_counted, nothing, will_fail, will_pass, will_open, will_not_open, ready_at};
ghost use Rattle.nf_files.specs.Causes.{no_calls};
ghost use Rattle.nf_files.specs.Standard.{of_standard};
ghost use Rattle.nf_files.specs.Puts.{Puts};
ghost use Rattle.nf_files.specs.Told.{Same};

mod calls;
mod named;
mod opened;
mod store;

use crate::kind::Kind;
use crate::number::next_number;
use crate::{Files, FilesFault};
use calls::Calls;
use std::alloc::{AllocError, Global};
use store::Store;

/// Files in memory, of which all is told.
///
/// The calls of `Files` are counted together, from 0, and each that is listed fails; one that answers
/// `Memory` is not counted. Opening a name under which nothing stands fails too. Standard output and
/// standard error are kept in memory. Where no call is listed all that is left of a file stands ready,
/// and else nothing does.
#[derive(Drop)]
pub struct MemoryFiles {
    alloc: Global,
    store: Store,
    calls: Calls,
}

impl MemoryFiles {
    /// Nothing stands under any name, and no call was made. `fails` lists the calls that fail.
    pub fn new(alloc: Global, fails: Vec<u64>) -> Self
        ensures nothing { Same nothing (memory_told result) }
        ensures no_fault { memory_counted result ≡ no_calls }
        ensures fails { result.calls.fails ≡ fails }
        ensures no_call { result.calls.made ≡ 0 }
    {
        MemoryFiles {
            alloc,
            store: Store::new(alloc),
            calls: Calls::new(alloc, fails),
        }
    }

    /// Puts bytes under a name, in place of what stands there.
    ///
    /// A file that was created under the name before keeps what it was given, and doesn't stand
    /// under the name any more. This is none of the calls that are counted.
    pub fn put(&mut self, name: &str, bytes: &[u8]) -> Result<(), AllocError>
        ensures ok { OnOk result (Puts (memory_told self.old) (memory_told self.new) name.now bytes.now) }
        ensures err { OnErr result (Same (memory_told self.old) (memory_told self.new)) }
        ensures calls { self.new.calls ≡ self.old.calls }
    {
        self.store.put(self.alloc, name, bytes)
    }

    /// The bytes that were given to a file that is written, and none for another number.
    pub fn given(&self, file: u32) -> &[u8]
        ensures value { result.now ≡ unwrap_or ((memory_told self.now).given file) [] }
    {
        match self.store.given(file) {
            Some(bytes) => bytes,
            None => &[],
        }
    }

    /// The bytes that stand under a name, `None` exactly where nothing does.
    pub fn content(&self, name: &str) -> Option<&[u8]>
        ensures value { option_map (λ bytes. bytes.now) result ≡ (memory_told self.now).content name.now }
    {
        self.store.content(name)
    }
}

impl Files for MemoryFiles {
    ghost told = { memory_told };

    ghost counted = { memory_counted };

    ghost will_open = { will_open };

    ghost will_not_open = { will_not_open };

    ghost will_pass = { will_pass };

    ghost will_fail = { will_fail };

    ghost ready = { ready_at };

    fn open_in(&mut self, name: &str) -> Result<u32, FilesFault> {
        let number = next_number(self.store.files.len())?;
        if self.calls.fails_next() {
            return Err(self.calls.refuse(self.alloc, number, name, Kind::Input));
        }
        let Some(content) = self.store.content(name) else {
            return Err(self.calls.refuse(self.alloc, number, name, Kind::Input));
        };
        self.calls.ask(self.alloc, name, Kind::Input)?;
        let bytes = Vec::from_slice(self.alloc, content)?;
        self.store.open(self.alloc, bytes)?;
        self.calls.pass();
        Ok(number)
    }

    fn create_out(&mut self, name: &str) -> Result<u32, FilesFault> {
        let number = next_number(self.store.files.len())?;
        if self.calls.fails_next() {
            return Err(self.calls.refuse(self.alloc, number, name, Kind::Output));
        }
        self.calls.ask(self.alloc, name, Kind::Output)?;
        self.store.create(self.alloc, name)?;
        self.calls.pass();
        Ok(number)
    }

    fn read(&mut self, file: u32, out: &mut [u8]) -> Result<usize, FilesFault> {
        if self.calls.fails_next() {
            return Err(self.calls.fail(file));
        }
        let count = self.store.read(file, out);
        self.calls.pass();
        Ok(count)
    }

    fn write(&mut self, file: u32, piece: &[u8]) -> Result<usize, FilesFault> {
        if self.calls.fails_next() {
            return Err(self.calls.fail(file));
        }
        self.store.write(file, piece)?;
        self.calls.pass();
        Ok(piece.len())
    }

    fn ahead(&self, file: u32) -> &[u8] {
        if self.calls.is_sound() {
            self.store.left(file)
        } else {
            &[]
        }
    }

    fn take(&mut self, file: u32, count: usize) {
        if self.calls.is_sound() {
            self.store.take(file, count);
        }
    }

    ghost counts = { λ m. m.calls.count.agrees };

    ghost standard = { λ m g lt. of_standard None None (λ k. (memory_told m).name (suc (suc k))) (λ o. o ≡ None) g lt (λ _. None) (λ _. None) };
}
