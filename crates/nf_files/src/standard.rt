// The two standard outputs.
ghost use Rattle.std.specs.Prelude.{◌≡◌, ◌≢◌};
ghost use Rattle.std.specs.Io.{WritesAtMost};
ghost use Rattle.std.specs.Io.KnownBytes.{WriteAppends};

use std::io::{self, Write};

/// Both: 0 is the number of standard output, and 1 that of standard error.
#[derive(Drop)]
pub(crate) struct Standard<O, E> {
    output: O,
    errors: E,
}

impl<O, E> Standard<O, E> {
    pub(crate) fn new(output: O, errors: E) -> Self
        ensures { result ≡ record { output = output; errors = errors } }
    {
        Standard { output, errors }
    }
}

impl<O: Write, E: Write> Standard<O, E> {
    /// Writes once: what is told as written to one was written there, and nothing to the other.
    pub(crate) fn write(&mut self, file: u32, piece: &[u8]) -> io::Result<usize>
        ensures within { WritesAtMost result piece.now }
        ensures output { file ≡ 0 → let held = O.contents in
            WriteAppends (held self.old.output) (held self.new.output) result piece.now }
        ensures errors { file ≢ 0 → let held = E.contents in
            WriteAppends (held self.old.errors) (held self.new.errors) result piece.now }
        ensures no_output { file ≢ 0 → self.new.output ≡ self.old.output }
        ensures no_errors { file ≡ 0 → self.new.errors ≡ self.old.errors }
    {
        match file {
            0 => self.output.write(piece),
            _ => self.errors.write(piece),
        }
    }
}
