// An opened file of the system.
ghost use Rattle.std.specs.Prelude.{◌≡◌, true, IsErr};
ghost use Rattle.nf_files.specs.Origins.{is_input_of, is_read_of};

use crate::ahead::Ahead;
use crate::origin::{Node, Origin};
use std::fs::{OpenFile, OpenOptions};
use std::{fs, io, rt};

/// An opened file of the system.
#[derive(Drop)]
pub(crate) enum SystemFile<F> {
    /// It is read, ahead.
    Input { origin: Origin, ahead: Ahead<F> },
    /// It is written.
    Output(F),
}

impl<F> SystemFile<F> {
    // Whether it is read, and was opened under a name.
    fn is_input_of(&self, name: &str, node: Option<Node>) -> bool
        ensures { result ≡ is_input_of name.now node self.now }
    {
        match self {
            SystemFile::Input { origin, .. } => origin.is_same(name, node),
            SystemFile::Output(_) => false,
        }
    }
}

/// Opens a name to be read, and tells which file it is. A directory is refused.
pub(crate) fn open_file<R: rt::Files>(
    system: &R,
    name: &str,
) -> io::Result<(R::File, Option<Node>)> {
    let file = fs::open(system, name)?;
    let told = file.metadata()?;
    if told.is_dir() {
        return Err(io::Error::from(io::ErrorKind::IsADirectory));
    }
    Ok((file, Node::of(&told)))
}

// Whether one of the files that are read was opened under a name.
fn is_read<F>(files: &[SystemFile<F>], name: &str, node: Option<Node>) -> bool
    ensures { result ≡ is_read_of name.now node files.now }
{
    'files: for file in files {
        if file.is_input_of(name, node) {
            return true;
        }
    }
    false
}

// Empties a file that was opened under a name. One that is read is refused, and stays as it is.
fn empty<F: OpenFile>(
    file: &F,
    opened: &[SystemFile<F>],
    name: &str,
    node: Option<Node>,
) -> io::Result<()>
    ensures { is_read_of name.now node opened.now ≡ true → IsErr result }
{
    if is_read(opened, name, node) {
        return Err(io::Error::from(io::ErrorKind::ResourceBusy));
    }
    file.set_len(0)
}

/// Makes a name to be written, or empties it. One that is read is refused, and stays as it is.
pub(crate) fn create_file<R: rt::Files>(
    system: &R,
    opened: &[SystemFile<R::File>],
    name: &str,
) -> io::Result<R::File> {
    let file = OpenOptions::new()
        .write(true)
        .create(true)
        .open(system, name)?;
    let told = file.metadata()?;
    // A device or a pipe has nothing to be emptied.
    if told.is_file() {
        empty(&file, opened, name, Node::of(&told))?;
    }
    Ok(file)
}
