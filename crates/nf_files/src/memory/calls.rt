// Which calls on `MemoryFiles` fail.
ghost use Rattle.std.specs.Prelude.{◌≡◌, ◌+◌, ◌-◌, ◌^◌, min, None, OnOk, OnErr};
ghost use Rattle.nf_files.specs.Causes.{Faulted, FaultedAsking, an_asking, asking, no_calls};
ghost use Rattle.nf_files.specs.Memory.{is_listed, is_sound, calls_counted};

use crate::kind::Kind;
use crate::{FaultCount, FilesFault};
use std::alloc::{AllocError, Global};

/// The calls that are to fail, counted from 0, and the faults so far.
#[derive(Drop)]
pub struct Calls {
    pub fails: Vec<u64>,
    // How many calls were made, up to 2^64 - 1.
    pub made: u64,
    pub count: FaultCount,
}

impl Calls {
    // No call was made.
    pub fn new(alloc: Global, fails: Vec<u64>) -> Self
        ensures fails { result.fails ≡ fails }
        ensures none { result.made ≡ 0 }
        ensures no_fault { calls_counted result ≡ no_calls }
    {
        Calls {
            fails,
            made: 0,
            count: FaultCount::new(alloc),
        }
    }

    // Takes a name down that is asked for.
    pub fn ask(&mut self, alloc: Global, name: &str, kind: Kind) -> Result<(), AllocError>
        ensures ok { let one = an_asking name.now kind in
            OnOk result (calls_counted self.new ≡ asking one (calls_counted self.old)) }
        ensures err { OnErr result (calls_counted self.new ≡ calls_counted self.old) }
        ensures made { self.new.made ≡ self.old.made }
        ensures fails { self.new.fails ≡ self.old.fails }
    {
        self.count.ask(alloc, name, kind)
    }

    // Whether the next call is one that fails.
    pub fn fails_next(&self) -> bool
        ensures value { result ≡ is_listed self.now }
    {
        self.fails.contains(&self.made)
    }

    // Whether no call is to fail.
    pub fn is_sound(&self) -> bool
        ensures value { result ≡ is_sound self.now }
    {
        self.fails.is_empty()
    }

    // The next call passed.
    pub fn pass(&mut self)
        ensures count { self.new.count ≡ self.old.count }
        ensures made { self.new.made ≡ min (self.old.made + 1) (2 ^ 64 - 1) }
        ensures fails { self.new.fails ≡ self.old.fails }
    {
        self.made = self.made.saturating_add(1);
    }

    // The next call failed, on a file.
    pub fn fail(&mut self, file: u32) -> FilesFault
        ensures value { result ≡ FilesFault.Failed }
        ensures cause { Faulted (calls_counted self.old) (calls_counted self.new) file }
        ensures made { self.new.made ≡ min (self.old.made + 1) (2 ^ 64 - 1) }
        ensures fails { self.new.fails ≡ self.old.fails }
    {
        self.made = self.made.saturating_add(1);
        self.count.fail(file)
    }

    // The next call asked for a name, and failed.
    pub fn refuse(&mut self, alloc: Global, file: u32, name: &str, kind: Kind) -> FilesFault
        ensures value { result ≡ FilesFault.Failed }
        ensures cause { let one = an_asking name.now kind in
            FaultedAsking (calls_counted self.old) (calls_counted self.new) one file }
        ensures made { self.new.made ≡ min (self.old.made + 1) (2 ^ 64 - 1) }
        ensures fails { self.new.fails ≡ self.old.fails }
    {
        self.made = self.made.saturating_add(1);
        self.count.refuse(alloc, file, name, kind)
    }
}
