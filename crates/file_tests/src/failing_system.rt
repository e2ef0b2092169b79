//! A system whose files fail to be read in the middle, and have no numbers.
use std::alloc::Allocator;
use std::fs::{Metadata, OpenFile, OpenOptions};
use std::io::{Read, Seek, SeekFrom, Write};
use std::{io, rt};

/// The files of a system, but each one that is read has other bytes: 5, with an error after the third. It is never told
/// which file one is.
#[derive(Drop)]
pub struct FailingSystem<R> {
    pub system: R,
}

/// One of its files.
#[derive(Drop)]
pub struct FailingFile<F> {
    file: F,
    reads: u32,
}

/// What the reads of a file give, one after the other, where there is room.
fn piece(reads: u32) -> io::Result<&'static [u8]> {
    match reads {
        0 => Ok(b"abc"),
        1 => Err(io::Error::from(io::ErrorKind::UnexpectedEof)),
        2 => Ok(b"de"),
        _ => Ok(b""),
    }
}

impl<F> Read for FailingFile<F> {
    fn read(&mut self, out: &mut [u8]) -> io::Result<usize> {
        let reads = self.reads;
        self.reads = reads.saturating_add(1);
        let mut piece = piece(reads)?;
        piece.read(out)
    }
}

impl<F: Write> Write for FailingFile<F> {
    fn write(&mut self, piece: &[u8]) -> io::Result<usize> {
        self.file.write(piece)
    }

    fn flush(&mut self) -> io::Result<()> {
        self.file.flush()
    }
}

impl<F: Seek> Seek for FailingFile<F> {
    fn seek(&mut self, to: SeekFrom) -> io::Result<u64> {
        self.file.seek(to)
    }
}

impl<F: OpenFile> OpenFile for FailingFile<F> {
    fn metadata(&self) -> io::Result<Metadata> {
        Ok(Metadata::of_file(5))
    }

    fn set_len(&self, size: u64) -> io::Result<()> {
        self.file.set_len(size)
    }

    fn sync_all(&self) -> io::Result<()> {
        self.file.sync_all()
    }

    fn sync_data(&self) -> io::Result<()> {
        self.file.sync_data()
    }
}

impl<R: rt::Files> rt::Files for FailingSystem<R> {
    type File = FailingFile<R::File>;

    type Dir = R::Dir;

    fn open_file(&self, how: &OpenOptions, path: &str) -> io::Result<FailingFile<R::File>> {
        let file = self.system.open_file(how, path)?;
        Ok(FailingFile { file, reads: 0 })
    }

    fn open_dir(&self, path: &str) -> io::Result<R::Dir> {
        self.system.open_dir(path)
    }

    fn metadata(&self, path: &str) -> io::Result<Metadata> {
        self.system.metadata(path)
    }

    fn symlink_metadata(&self, path: &str) -> io::Result<Metadata> {
        self.system.symlink_metadata(path)
    }

    fn copy(&self, from: &str, to: &str) -> io::Result<u64> {
        self.system.copy(from, to)
    }

    fn rename(&self, from: &str, to: &str) -> io::Result<()> {
        self.system.rename(from, to)
    }

    fn remove_file(&self, path: &str) -> io::Result<()> {
        self.system.remove_file(path)
    }

    fn create_dir(&self, path: &str) -> io::Result<()> {
        self.system.create_dir(path)
    }

    fn remove_dir(&self, path: &str) -> io::Result<()> {
        self.system.remove_dir(path)
    }

    fn remove_dir_all<B: Allocator>(&self, alloc: B, path: &str) -> io::Result<()> {
        self.system.remove_dir_all(alloc, path)
    }
}
