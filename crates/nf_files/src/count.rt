// A count of faults, and the names that were asked for.
ghost use Rattle.std.specs.Prelude.{◌≡◌, None};

use crate::FilesFault;
use crate::kind::Kind;
use crate::opening::Opening;
use std::alloc::{AllocError, Global};
use std::io;

/// How many calls failed, the file of the first, and the names that were asked to be opened or created.
#[derive(Debug, Drop)]
pub struct FaultCount {
    faults: u64,
    first: Option<u32>,
    openings: Vec<Opening>,
    // Whether there was no memory to take the name of a call down that failed.
    missing: bool,
    // No file is the first to fail exactly where no fault was counted.
    ghost agrees: { (first ≡ None → faults ≡ 0) × (faults ≡ 0 → first ≡ None) },
}

impl FaultCount {
    ghost use Rattle.std.specs.Prelude.{[], false, OnOk, OnErr};
    ghost use Rattle.nf_files.specs.Causes.{counted_of, an_asking, asking, losing, Faulted, FaultedAsking, HasCause};
    ghost use Rattle.nf_files.specs.Expected.{IsAnswer};

    /// No fault, and no name.
    pub fn new(alloc: Global) -> Self
        ensures none { result.faults ≡ 0 }
        ensures no_first { result.first ≡ None }
        ensures no_name { result.openings.items ≡ [] }
        ensures none_missing { result.missing ≡ false }
    {
        FaultCount {
            faults: 0,
            first: None,
            openings: Vec::new(alloc),
            missing: false,
        }
    }

    /// Takes a name down that is asked for. This is none of the calls that can fail.
    pub fn ask(&mut self, alloc: Global, name: &str, kind: Kind) -> Result<(), AllocError>
        ensures ok { let one = an_asking name.now kind in
            OnOk result (counted_of self.new ≡ asking one (counted_of self.old)) }
        ensures err { OnErr result (counted_of self.new ≡ counted_of self.old) }
    {
        let name = Vec::from_slice(alloc, name.as_bytes())?;
        self.openings.push(Opening { name, kind })?;
        Ok(())
    }

    // A name was asked for that can't be taken down.
    fn lose(&mut self)
        ensures { counted_of self.new ≡ losing (counted_of self.old) }
    {
        self.missing = true;
    }

    /// Takes a name down that is asked for by a call that fails, on a file; where there is no memory for
    /// it, it is missing from then on. Gives what the call answers.
    pub fn refuse(&mut self, alloc: Global, file: u32, name: &str, kind: Kind) -> FilesFault
        ensures value { result ≡ FilesFault.Failed }
        ensures counted { let one = an_asking name.now kind in
            FaultedAsking (counted_of self.old) (counted_of self.new) one file }
    {
        if self.ask(alloc, name, kind).is_err() {
            self.lose();
        }
        self.fail(file)
    }

    /// Counts one more fault, up to 2^64 - 1, on a file, and gives what its call answers.
    pub fn fail(&mut self, file: u32) -> FilesFault
        ensures value { result ≡ FilesFault.Failed }
        ensures counted { Faulted (counted_of self.old) (counted_of self.new) file }
    {
        self.faults = self.faults.saturating_add(1);
        if self.first.is_none() {
            self.first = Some(file);
        }
        FilesFault::Failed
    }

    /// What the system answered to a call on a file; an error counts as one more fault.
    pub(crate) fn answer<T: Drop>(
        &mut self,
        file: u32,
        answer: io::Result<T>,
    ) -> Result<T, FilesFault>
        ensures same { IsAnswer answer result }
        ensures cause { HasCause (counted_of self.old) (counted_of self.new) file result }
    {
        match answer {
            Ok(value) => Ok(value),
            Err(_) => Err(self.fail(file)),
        }
    }

    /// The number of faults; from 2^64 - 1 on it stays.
    pub fn faults(&self) -> u64
        ensures value { result ≡ self.now.faults }
    {
        self.faults
    }

    /// The file of the first fault.
    pub fn first(&self) -> Option<u32>
        ensures value { result ≡ self.now.first }
    {
        self.first
    }
}
