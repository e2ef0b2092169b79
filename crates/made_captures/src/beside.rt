//! Made captures beside the files outside.
ghost use Rattle.std.specs.Prelude.{◌≡◌, ◌≤◌, []};
ghost use Rattle.made_captures.specs.Told.{standard_named};
ghost use Rattle.made_captures.specs.Outputs.{told_beside, counts_right, is_known, journal_of, mark_of, told_if, standard_if};

use crate::captures::Captures;
use crate::outputs::Outputs;
use nf_files::{Files, FilesFault};
use std::alloc::AllocError;

/// The files of a run over made-up traffic: its captures, which are made, and beside them the outputs and
/// the journal, which are files outside.
///
/// Reads of made captures never fail. What the outputs are given is counted. A run opens and creates
/// nothing: here both answer that memory ran out, since the number of a file that is opened could be that
/// of a made capture.
#[derive(Drop)]
pub struct MadeCaptures<'a, F: Files> {
    files: &'a mut F,
    captures: &'a mut Captures,
    outputs: Outputs,
}

impl<'a, F: Files> MadeCaptures<'a, F> {
    /// Files, and captures beside them. The outputs were given nothing yet.
    pub fn beside(
        files: &'a mut F,
        captures: &'a mut Captures,
        outputs: Outputs,
    ) -> MadeCaptures<'a, F>
        ensures same_files { result.files.ghost_name ≡ files.entry.ghost_name }
        ensures files { result.files.now ≡ files.old }
        ensures captures { result.captures.now ≡ captures.old }
        ensures outputs { result.outputs ≡ outputs }
    {
        MadeCaptures {
            files,
            captures,
            outputs,
        }
    }

    /// How many bytes the outputs were given, modulo 2^64.
    pub fn bytes(&self) -> u64
        ensures { result ≡ self.now.outputs.bytes }
    {
        self.outputs.bytes()
    }
}

impl<'a, F: Files> Files for MadeCaptures<'a, F> {
    ghost told = { λ m. told_beside m.captures.now m.files.ghost_name m.outputs (F.told m.files.now) (F.counted m.files.now) };

    ghost counted = { λ m. F.counted m.files.now };

    ghost will_open = { λ _ _. ⊥ };

    ghost will_not_open = { λ _ _. ⊥ };

    ghost will_pass = { λ m. F.will_pass m.files.now };

    ghost will_fail = { λ _. ⊥ };

    ghost ready = { λ _ _. [] };

    fn open_in(&mut self, _name: &str) -> Result<u32, FilesFault> {
        Err(FilesFault::Memory(AllocError))
    }

    fn create_out(&mut self, _name: &str) -> Result<u32, FilesFault> {
        Err(FilesFault::Memory(AllocError))
    }

    #[tactic(auto, using(crate::proofs::KindsBeside::reads_beside, crate::proofs::KindsBeside::is_some_port))]
    fn read(&mut self, file: u32, out: &mut [u8]) -> Result<usize, FilesFault> {
        match self.captures.port(file) {
            Some(port) => Ok(self.captures.read(port, out)),
            None => unreachable!(),
        }
    }

    fn write(&mut self, file: u32, piece: &[u8]) -> Result<usize, FilesFault> {
        self.outputs.are_numbered();
        match self.files.write(file, piece) {
            Ok(count) => {
                self.outputs.add(file, count);
                Ok(count)
            }
            Err(fault) => Err(fault),
        }
    }

    // Bytes are made as they are read, and none ahead.
    fn ahead(&self, _file: u32) -> &[u8] {
        &[]
    }

    fn take(&mut self, _file: u32, _count: usize) {}

    ghost counts = { λ m. F.counts m.files.now };

    ghost standard = { λ m.
        let right = counts_right m.outputs (F.told m.files.now) in
        let known = is_known (journal_of m.outputs) (F.counted m.files.now).first in
        let mark = mark_of m.files.ghost_name right known m.outputs.first m.outputs.count in
        standard_named mark (told_if right (F.told m.files.now)).name
        (standard_if right (F.told m.files.now) (F.standard m.files.now)) };
}
