// Texts and frames that rows name, and bytes that rows tell by them.
use crate::bytes::{empty_capture, push_hex, push_record};
use std::alloc::{AllocError, Global};

/// What is named so far.
#[derive(Drop)]
pub struct Names {
    alloc: Global,
    named: Vec<(String, Vec<u8>)>,
}

/// What stands before the first space of a text, and what stands behind it.
pub fn parted(text: &str) -> (&str, &str) {
    text.split_once(' ').unwrap_or((text, ""))
}

impl Names {
    /// Nothing yet.
    pub fn new(alloc: Global) -> Names {
        Names {
            alloc,
            named: Vec::new(alloc),
        }
    }

    /// Gives bytes a name.
    pub fn put(&mut self, name: &str, bytes: Vec<u8>) -> Result<(), AllocError> {
        let name = String::from_str(self.alloc, name)?;
        self.named.push((name, bytes))?;
        Ok(())
    }

    /// The bytes of this name.
    pub fn get(&self, name: &str) -> Option<&[u8]> {
        for (one, bytes) in &self.named {
            if one.as_str() == name {
                return Some(bytes.as_slice());
            }
        }
        None
    }

    // Puts what a word stands for behind bytes: zeros, a name's bytes, or those that it spells. Whether it stands for any.
    fn push_word(&self, out: &mut Vec<u8>, word: &str) -> Result<bool, AllocError> {
        if let Some(count) = word.strip_prefix("zeros:") {
            return push_zeros(out, count);
        }
        match self.get(word) {
            Some(bytes) => {
                out.extend_from_slice(bytes)?;
                Ok(true)
            }
            None => push_hex(self.alloc, out, word),
        }
    }

    /// The bytes that words spell; `None`: one of them spells none.
    pub fn spelled(&self, words: &str) -> Result<Option<Vec<u8>>, AllocError> {
        let mut out = Vec::new(self.alloc);
        let mut all = true;
        for word in words.split_whitespace() {
            all = self.push_word(&mut out, word)? && all;
        }
        Ok(if all { Some(out) } else { None })
    }

    /// The content that is told in a line, by a name, or by the lines behind it; `None`: in none of these ways.
    pub fn content(&self, told: &str, block: &[u8]) -> Result<Option<Vec<u8>>, AllocError> {
        let (how, rest) = parted(told);
        match how {
            "" => Ok(Some(Vec::from_slice(self.alloc, block)?)),
            _ if !block.is_empty() => Ok(None),
            "=" => Ok(Some(Vec::from_slice(self.alloc, rest.as_bytes())?)),
            "is" => match self.get(rest) {
                Some(bytes) => Ok(Some(Vec::from_slice(self.alloc, bytes)?)),
                None => Ok(None),
            },
            _ => Ok(None),
        }
    }

    // Puts a record, told by its time and its frame, behind a capture. Whether it is told.
    fn push_told(&self, out: &mut Vec<u8>, told: &str) -> Result<bool, AllocError> {
        let (time, frame) = parted(told);
        let (name, length) = frame.split_once('/').unwrap_or((frame, ""));
        let Some(bytes) = self.get(name) else {
            return Ok(false);
        };
        match (time.parse::<u64>(), original_of(length, bytes)) {
            (Ok(time), Some(original)) => {
                push_record(out, time, original, bytes)?;
                Ok(true)
            }
            _ => Ok(false),
        }
    }

    /// The capture of records, each a time and a frame, with a comma between two; `None`: one of them is something else.
    pub fn capture(&self, told: &str) -> Result<Option<Vec<u8>>, AllocError> {
        let mut out = empty_capture(self.alloc)?;
        let mut all = true;
        if !told.is_empty() {
            for one in told.split(", ") {
                all = self.push_told(&mut out, one)? && all;
            }
        }
        Ok(if all { Some(out) } else { None })
    }

    /// The capture of so many records of one frame, each so many nanoseconds behind the one before; `None`: of none that is told.
    pub fn many(&self, told: &str) -> Result<Option<Vec<u8>>, AllocError> {
        let (count, behind) = parted(told);
        let (step, frame) = parted(behind);
        match (count.parse::<u32>(), step.parse::<u64>(), self.get(frame)) {
            (Ok(count), Ok(step), Some(bytes)) => Ok(Some(repeated(
                self.alloc, count, step, bytes,
            )?)),
            _ => Ok(None),
        }
    }
}

// Puts so many zeros behind bytes. Whether it is told how many.
fn push_zeros(out: &mut Vec<u8>, count: &str) -> Result<bool, AllocError> {
    match count.parse::<u32>() {
        Ok(count) => {
            let whole = out.len().saturating_add(count as usize);
            out.resize(whole, 0)?;
            Ok(true)
        }
        Err(_) => Ok(false),
    }
}

// The original length of a frame: the one that is told, or how many bytes it has where none is.
fn original_of(length: &str, frame: &[u8]) -> Option<u64> {
    if length.is_empty() {
        Some(frame.len() as u64)
    } else {
        length.parse::<u64>().ok()
    }
}

fn repeated(alloc: Global, count: u32, step: u64, frame: &[u8]) -> Result<Vec<u8>, AllocError> {
    let mut out = empty_capture(alloc)?;
    let mut time: u64 = 0;
    for _ in 0..count {
        push_record(&mut out, time, frame.len() as u64, frame)?;
        time = time.saturating_add(step);
    }
    Ok(out)
}
