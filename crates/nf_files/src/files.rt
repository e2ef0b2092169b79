// The trait of the files outside.
ghost use Rattle.std.specs.Prelude.{◌≡◌, ◌<◌, ◌≤◌, ◌^◌, ℕ, List, IfOk, OnErr, None, length, take};
ghost use Rattle.nf_files.specs.Told.{Told, IsRead, TakesBytes, Same};
ghost use Rattle.nf_files.specs.Openings.{Opens, Creates};
ghost use Rattle.nf_files.specs.Pieces.{Takes};
ghost use Rattle.nf_files.specs.Reads.{Keeps, Reads};
ghost use Rattle.nf_files.specs.Writes.{Writes};
ghost use Rattle.nf_files.specs.Causes.{Counted, HasCause, HasAsked, an_asking, IsCount};
ghost use Rattle.nf_files.specs.declared.kind.Kind.TheVariants.{Input, Output};
ghost use Rattle.nf_files.specs.Expected.{IsFailed, IsNotMemory};

use crate::FilesFault;

/// The files outside, with a count of faults that never falls.
///
/// Files have numbers. 0 is standard output and 1 is standard error: both are written and never
/// opened. The others count from 2 in the order of opening. A call that answers `Failed` has raised
/// the count, or it stands at 2^64 - 1. An `Err` changes nothing else. The names that were asked to be
/// opened or created are told with the count, those of calls that failed too; where such a call had no
/// memory to take its name down, it is told that names are missing.
pub trait Files {
    ghost told: { Self → Told };

    ghost counted: { Self → Counted };

    // The next call is known to fail, or is known not to: an opening of this name, or a call of
    // another kind.
    ghost will_open: { Self → List ℕ → Type 0 };

    ghost will_not_open: { Self → List ℕ → Type 0 };

    ghost will_pass: { Self → Type 0 };

    ghost will_fail: { Self → Type 0 };

    // Of a number that is read: bytes of the front of what is left that stand ready to be taken.
    ghost ready: { Self → ℕ → List ℕ };

    /// Opens a name to be read from its first byte, and gives the file's number.
    fn open_in(&mut self, name: &str) -> Result<u32, FilesFault>
        ensures ok { IfOk result (λ file. Opens (told self.old) (told self.new) name.now file) }
        ensures err { OnErr result (Same (told self.old) (told self.new)) }
        ensures cause { let one = an_asking name.now Input in
            HasAsked (counted self.old) (counted self.new) one (told self.old).next result }
        // A number of 32 bits was left for it.
        ensures numbered { IsFailed result → (told self.old).next < 2 ^ 32 }
        ensures fails { will_not_open self.old name.now → IsFailed result }
        ensures passes { will_open self.old name.now → IsFailed result → ⊥ };

    /// Empties a name, or makes it, to be written, and gives the file's number.
    fn create_out(&mut self, name: &str) -> Result<u32, FilesFault>
        ensures ok { IfOk result (λ file. Creates (told self.old) (told self.new) name.now file) }
        ensures err { OnErr result (Same (told self.old) (told self.new)) }
        ensures cause { let one = an_asking name.now Output in
            HasAsked (counted self.old) (counted self.new) one (told self.old).next result }
        ensures numbered { IsFailed result → (told self.old).next < 2 ^ 32 }
        ensures fails { will_fail self.old → IsFailed result }
        ensures passes { will_pass self.old → IsFailed result → ⊥ };

    /// Reads bytes of a file into the front of `out`, and gives their number.
    ///
    /// 0 for an `out` that isn't empty is the end of the file.
    fn read(&mut self, file: u32, out: &mut [u8]) -> Result<usize, FilesFault>
        requires opened { IsRead (told self.old) file }
        ensures ok { IfOk result (λ count. Reads (told self.old) (told self.new) file count out.new) }
        ensures err { OnErr result (Same (told self.old) (told self.new)) }
        ensures no_memory { IsNotMemory result }
        ensures cause { HasCause (counted self.old) (counted self.new) file result }
        ensures fails { will_fail self.old → IsFailed result }
        ensures passes { will_pass self.old → IsFailed result → ⊥ };

    /// Writes bytes of the front of `piece` to a file, and gives their number.
    ///
    /// Where none of a piece that isn't empty is taken, that is a fault.
    fn write(&mut self, file: u32, piece: &[u8]) -> Result<usize, FilesFault>
        requires created { TakesBytes (told self.old) file }
        ensures within { IfOk result (λ count. count ≤ length piece.now) }
        ensures some { IfOk result (λ count. 0 < length piece.now → 0 < count) }
        ensures ok { IfOk result (λ count. Writes (told self.old) (told self.new) file (take count piece.now)) }
        ensures err { OnErr result (Same (told self.old) (told self.new)) }
        ensures cause { HasCause (counted self.old) (counted self.new) file result }
        ensures fails { will_fail self.old → IsFailed result }
        ensures passes { will_pass self.old → IsFailed result → ⊥ };

    /// The bytes of a file that stand ready: some of the front of what is left, which were read ahead.
    ///
    /// There may be none, and there may be more of the file behind them.
    fn ahead(&self, file: u32) -> &[u8]
        requires opened { IsRead (told self.now) file }
        ensures value { result.now ≡ ready self.now file };

    /// Takes so many of the bytes that stand ready. This is none of the calls that can fail.
    fn take(&mut self, file: u32, count: usize)
        requires opened { IsRead (told self.old) file }
        requires within { count ≤ length (ready self.old file) }
        ensures taken { let front = take count (ready self.old file) in
            Takes front ((told self.old).rest file) ((told self.new).rest file) }
        ensures kept { Keeps (told self.old) (told self.new) file }
        ensures same_count { counted self.new ≡ counted self.old };

    // No file is the first to fail exactly where no fault was counted.
    ghost counts: { (files : Self) → IsCount (counted files) };

    // Standard output and standard error stand under no name.
    ghost standard: { (files : Self) → (g : ℕ) → g < 2 → (told files).name g ≡ None };
}
