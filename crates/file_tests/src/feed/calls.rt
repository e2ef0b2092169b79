//! A call on files, which promises what further calls ask for and no more.
ghost use Rattle.packet_feed.specs.Told.{EachFile};
ghost use Rattle.nf_files.specs.Told.{IsRead};

use nf_files::Files;

/// How many bytes are left of the file of a capture, of which there are less than 200.
pub fn left<F: Files>(files: &mut F, opened: &[u32], port: usize) -> usize
    requires { EachFile (IsRead (F.told files.old)) opened.now }
    ensures { EachFile (IsRead (F.told files.new)) opened.now }
{
    let mut out = [0u8; 200];
    match opened.get(port) {
        Some(file) => files.read(*file, &mut out).unwrap_or(200),
        None => 200,
    }
}
