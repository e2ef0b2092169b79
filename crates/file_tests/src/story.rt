//! What a capture in memory gives, from its header to its end.
ghost use Rattle.nf_files.specs.Told.{IsRead};

use crate::calls::{header, next, open};
use nf_files::{Files, MemoryFiles};
use pcap_file::{CapFault, Head, Next, Reader};
use std::alloc::{AllocError, Global};

/// How a capture ended.
#[derive(Clone, Copy, Debug, PartialEq, Eq)]
pub enum End {
    /// The file could not be opened.
    Unopened,
    /// No record was given, since the header fails.
    Unread(CapFault),
    End,
    Torn(u64),
    Fault(CapFault),
    /// It didn't end.
    Never,
}

#[derive(Drop)]
pub struct Story {
    pub heads: Vec<Head>,
    /// The frames, one after the other.
    pub frames: Vec<u8>,
    pub end: End,
}

/// Reads a capture; the calls on files that are listed fail.
pub fn read_all(alloc: Global, bytes: &[u8], fails: &[u64]) -> Result<Story, AllocError> {
    let mut files = MemoryFiles::new(alloc, Vec::from_slice(alloc, fails)?);
    files.put("capture", bytes)?;
    let mut story = Story {
        heads: Vec::new(alloc),
        frames: Vec::new(alloc),
        end: End::Never,
    };
    read_from(alloc, &mut files, &mut story)?;
    Ok(story)
}

/// The same of any files.
fn read_from<F: Files>(alloc: Global, files: &mut F, story: &mut Story) -> Result<(), AllocError> {
    match open(files, "capture") {
        Err(_) => story.end = End::Unopened,
        Ok(file) => match header(alloc, files, file) {
            Err(fault) => story.end = End::Unread(fault),
            Ok(mut reader) => tell(alloc, &mut reader, files, story)?,
        },
    }
    Ok(())
}

/// Tells records until the end.
fn tell<F: Files>(
    alloc: Global,
    reader: &mut Reader,
    files: &mut F,
    story: &mut Story,
) -> Result<(), AllocError>
    requires { IsRead (F.told files.old) reader.old.file }
{
    let mut frame = Vec::new(alloc);
    for _ in 0..1000 {
        match next(reader, files, &mut frame) {
            Ok(Next::Frame(head)) => {
                story.heads.push(head)?;
                story.frames.extend_from_slice(frame.as_slice())?;
            }
            Ok(Next::End) => {
                story.end = End::End;
                return Ok(());
            }
            Ok(Next::Torn(offset)) => {
                story.end = End::Torn(offset);
                return Ok(());
            }
            Err(fault) => {
                story.end = End::Fault(fault);
                return Ok(());
            }
        }
    }
    Ok(())
}
