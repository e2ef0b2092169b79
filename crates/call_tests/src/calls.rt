// Calls of the program over files in memory, and what they come to.
use crate::bytes::byte_of;
use crate::names::parted;
use crate::waiting::{Doors, Meeting, Shut};
use maestro_cli::{Gate, Idle, PackGate, RunFile, Status, Turns, maestro};
use nf_files::{Files, FilesFault, MemoryFiles};
use std::alloc::{AllocError, Global};
use std::sync::{Arc, Wait};
use std::thread::Threads;

/// What a case has made so far: its files, and how the last call ended.
#[derive(Drop)]
pub struct Case {
    files: MemoryFiles,
    status: Option<Status>,
}

impl Case {
    /// No files yet. The calls on files of these numbers, from 0, will fail.
    pub fn new(alloc: Global, fails: Vec<u64>) -> Case {
        Case {
            files: MemoryFiles::new(alloc, fails),
            status: None,
        }
    }

    /// The number of the last call's status; `None` before the first call.
    pub fn status(&self) -> Option<u32> {
        self.status.map(|status| u32::from(status.number()))
    }

    /// Whether the last call ended since a call on this file failed: its name is that of the program's lines.
    pub fn names(&self, file: &str) -> bool {
        match self.status {
            Some(Status::FileFault(found)) => is_named(found, file),
            _ => false,
        }
    }

    /// Puts a file.
    pub fn put(&mut self, name: &str, bytes: &[u8]) -> Result<(), AllocError> {
        self.files.put(name, bytes)
    }

    /// What stands under a name.
    pub fn content(&self, name: &str) -> Option<&[u8]> {
        self.files.content(name)
    }

    /// What was printed on standard output.
    pub fn printed(&self) -> &[u8] {
        self.files.given(0)
    }

    /// What was printed on standard error.
    pub fn said(&self) -> &[u8] {
        self.files.given(1)
    }

    /// The content of a file with another byte at a place; `None`: there is no such file, place or byte.
    pub fn changed(
        &self,
        alloc: Global,
        name: &str,
        told: &str,
    ) -> Result<Option<Vec<u8>>, AllocError> {
        let (at, digits) = parted(told);
        match (self.content(name), at.parse::<usize>(), byte_of(digits)) {
            (Some(content), Ok(at), Some(byte)) => with_byte(alloc, content, at, byte),
            _ => Ok(None),
        }
    }

    /// The first bytes of a file; `None`: there is no such file, or no number is told.
    pub fn first(
        &self,
        alloc: Global,
        name: &str,
        told: &str,
    ) -> Result<Option<Vec<u8>>, AllocError> {
        match (self.content(name), told.parse::<usize>()) {
            (Some(content), Ok(count)) => Ok(Some(Vec::from_slice(alloc, front(content, count))?)),
            _ => Ok(None),
        }
    }

    /// Calls the program with these words.
    pub fn call<R: Threads + Wait + Clone + Send + Sync + Drop + 'static>(
        &mut self,
        threads: &R,
        alloc: Global,
        words: &[String],
    ) -> Result<(), AllocError> {
        let turns = Arc::new(alloc, Idle)?;
        self.call_by(threads, alloc, words, &turns, &mut PackGate::new());
        Ok(())
    }

    /// Calls it with worker 0 held before its packet until worker 1 has handled so many; whether it was.
    pub fn call_held<R: Threads + Wait + Clone + Send + Sync + Drop + 'static>(
        &mut self,
        threads: &R,
        alloc: Global,
        words: &[String],
        count: u64,
    ) -> Result<bool, AllocError> {
        let turns = Arc::new(alloc, Meeting::new(count))?;
        self.call_by(threads, alloc, words, &turns, &mut PackGate::new());
        Ok(turns.was_kept())
    }

    /// Calls it with seats that wait for each other inside the shared tables; whether two met there.
    pub fn call_meeting<R: Threads + Wait + Clone + Send + Sync + Drop + 'static>(
        &mut self,
        threads: &R,
        alloc: Global,
        words: &[String],
    ) -> Result<bool, AllocError> {
        let inside = Meeting::new(2);
        let turns = Arc::new(alloc, Idle)?;
        self.call_by(threads, alloc, words, &turns, &mut Doors::new(&inside));
        Ok(inside.was_kept())
    }

    /// Calls it with a gate that makes no shared tables.
    pub fn call_shut<R: Threads + Wait + Clone + Send + Sync + Drop + 'static>(
        &mut self,
        threads: &R,
        alloc: Global,
        words: &[String],
    ) -> Result<(), AllocError> {
        let turns = Arc::new(alloc, Idle)?;
        self.call_by(threads, alloc, words, &turns, &mut Shut::new());
        Ok(())
    }

    fn call_by<
        R: Threads + Wait + Clone + Send + Sync + Drop + 'static,
        G: Turns + Send + Sync + Drop + 'static,
        L: Gate + Drop + Send,
    >(&mut self, threads: &R, alloc: Global, words: &[String], turns: &Arc<G>, gate: &mut L) {
        let status = maestro(threads, alloc, words, &mut self.files, turns, gate);
        self.status = Some(status);
    }

    /// How many files were opened or created; none while a call is left to fail.
    pub fn opened(&mut self) -> Result<Option<u32>, AllocError> {
        // Numbers count from 2, in the order in which files are opened or created.
        match self.files.create_out("next") {
            Ok(next) => Ok(Some(next.saturating_sub(2))),
            Err(FilesFault::Failed) => Ok(None),
            Err(FilesFault::Memory(e)) => Err(e),
        }
    }

    /// How many files of a run whose names begin with `out` are there.
    pub fn left(&self) -> u32 {
        let mut count: u32 = 0;
        for name in [
            "out.0.pcap",
            "out.1.pcap",
            "out.2.pcap",
            "out.3.pcap",
            "out.journal",
            "out.state",
        ] {
            if self.content(name).is_some() {
                count = count.saturating_add(1);
            }
        }
        count
    }
}

// Bytes with another one at a place; `None`: there is no such place.
fn with_byte(
    alloc: Global,
    bytes: &[u8],
    at: usize,
    byte: u8,
) -> Result<Option<Vec<u8>>, AllocError> {
    let mut out = Vec::from_slice(alloc, bytes)?;
    match out.as_mut_slice().get_mut(at) {
        Some(place) => {
            *place = byte;
            Ok(Some(out))
        }
        None => Ok(None),
    }
}

// The first bytes of some, or all.
fn front(bytes: &[u8], count: usize) -> &[u8] {
    bytes.get(..count).unwrap_or(bytes)
}

// The name of a file in the program's lines, and the port behind it, if it is one of several.
fn name_of(file: RunFile) -> (&'static str, Option<u32>) {
    match file {
        RunFile::Nf => ("nf", None),
        RunFile::Capture(port) => ("capture", Some(port)),
        RunFile::Journal => ("journal", None),
        RunFile::Output(port) => ("output", Some(port)),
        RunFile::OutJournal => ("out journal", None),
        RunFile::State => ("state", None),
        RunFile::Proof => ("proof", None),
        RunFile::Stdout => ("stdout", None),
        RunFile::Stderr => ("stderr", None),
    }
}

fn is_named(file: RunFile, told: &str) -> bool {
    let (name, port) = name_of(file);
    match port {
        Some(port) => {
            let (word, number) = parted(told);
            word == name && number.parse::<u32>() == Ok(port)
        }
        None => told == name,
    }
}

/// Words one space apart.
pub fn words_of(alloc: Global, line: &str) -> Result<Vec<String>, AllocError> {
    let mut words = Vec::new(alloc);
    for word in line.split(' ') {
        words.push(String::from_str(alloc, word)?)?;
    }
    Ok(words)
}
