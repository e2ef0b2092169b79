// Rows: the lines of a file that say something, each with the lines of text behind it.
use crate::names::parted;
use std::alloc::{AllocError, Global};

/// A row: a word, and what it is about.
#[derive(Drop)]
pub struct Row<'a> {
    /// Its line in the file, from 1.
    pub line: u32,
    pub word: &'a str,
    /// What stands behind the word and a space; empty where there is no space.
    pub rest: &'a str,
    /// Whether the word stands alone, without a space behind it.
    pub is_alone: bool,
    /// The lines behind it that begin with `|`, without that and a space, each with a line feed.
    pub block: Vec<u8>,
}

// A line of a row's text, without the sign that it begins with; None: the line is a row of its own.
fn line_of(text: &str) -> Option<&str> {
    if text == "|" {
        Some("")
    } else {
        text.strip_prefix("| ")
    }
}

fn push_line(rows: &mut Vec<Row>, line: &str) -> Result<(), AllocError> {
    if let Some(row) = rows.as_mut_slice().last_mut() {
        row.block.extend_from_slice(line.as_bytes())?;
        row.block.push(b'\n')?;
    }
    Ok(())
}

/// The rows of a file. Empty lines, and lines that begin with `#`, are passed over.
pub fn rows_of<'a>(alloc: Global, text: &'a str) -> Result<Vec<Row<'a>>, AllocError> {
    let mut rows = Vec::new(alloc);
    let mut line: u32 = 0;
    for one in text.split('\n') {
        line = line.saturating_add(1);
        if let Some(text) = line_of(one) {
            push_line(&mut rows, text)?;
        } else if !one.is_empty() && !one.starts_with("#") {
            let (word, rest) = parted(one);
            rows.push(Row {
                line,
                word,
                rest,
                is_alone: word.len() == one.len(),
                block: Vec::new(alloc),
            })?;
        }
    }
    Ok(rows)
}
