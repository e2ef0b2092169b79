//! A system of one line.
use gf2_solve::{Bits, System};
use std::alloc::{AllocError, Global};

/// What is printed of a line.
pub fn answer(alloc: Global, line: &str) -> Result<String, AllocError> {
    let Some((wanted, behind)) = line.split_once('|') else {
        return String::from_str(alloc, "no system");
    };
    let (rows, groups) = match behind.split_once('|') {
        Some(parts) => parts,
        None => (behind, ""),
    };
    let wanted = bits(alloc, wanted.trim())?;
    let system = system(alloc, &wanted, rows)?;
    match system.nearest(alloc, &wanted, words(alloc, groups)?.as_slice())? {
        Some(x) => text(alloc, &x),
        None => String::from_str(alloc, "none"),
    }
}

/// The system of the rows, over as many bits as are wanted.
fn system(alloc: Global, wanted: &Bits, rows: &str) -> Result<System, AllocError> {
    let width = u32::try_from(wanted.len()).unwrap_or(u32::MAX);
    let mut system = System::new(alloc, width)?;
    for row in words(alloc, rows)? {
        system.add(alloc, &row)?;
    }
    Ok(system)
}

/// The bits of each word.
fn words(alloc: Global, text: &str) -> Result<Vec<Bits>, AllocError> {
    let mut words = Vec::new(alloc);
    for word in text.split_whitespace() {
        words.push(bits(alloc, word)?)?;
    }
    Ok(words)
}

/// The bits of a word: a 1 at each `1`.
fn bits(alloc: Global, word: &str) -> Result<Bits, AllocError> {
    let mut bits = Vec::new(alloc);
    for byte in word.bytes() {
        bits.push(byte == b'1')?;
    }
    Ok(Bits(bits))
}

/// The word of some bits.
fn text(alloc: Global, bits: &Bits) -> Result<String, AllocError> {
    let mut text = String::new(alloc);
    for bit in bits.as_slice() {
        text.push(if *bit { '1' } else { '0' })?;
    }
    Ok(text)
}
