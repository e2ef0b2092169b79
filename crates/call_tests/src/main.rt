//! Calls the top call over files in memory, as rows of text say, and tells what isn't as a row wants it.
//!
//! Its words are the names of files of rows, whose form is told in `docs/ROWS.md`. Of each file it prints how many cases
//! it has, and before that a line for each row that isn't met: the file, the row's line, its case, and the row's word.
#![tactic(auto)]

mod asks;
mod bytes;
mod calls;
mod judge;
mod names;
mod rows;
mod waiting;

use judge::{Judge, Verdict};
use rows::{Row, rows_of};
use std::sync::Wait;
use std::thread::Threads;
use std::{env, fs, io};

// Tells what a row came to, where it isn't as is wanted.
fn tell(
    rt: &HostRuntime,
    name: &str,
    judge: &Judge,
    row: &Row,
    verdict: Verdict,
) -> io::Result<()> {
    let (line, title, word) = (row.line, judge.title(), row.word);
    match verdict {
        Verdict::Met => Ok(()),
        Verdict::Wrong => println!(rt; "{name}:{line}: {title}: {word}"),
        Verdict::Unread => println!(rt; "{name}:{line}: {title}: {word} can't be read"),
    }
}

fn judge_rows<R: Threads + Wait + Clone + Send + Sync + Drop + 'static>(
    rt: &HostRuntime,
    threads: &R,
    name: &str,
    rows: &[Row],
) -> io::Result<u32> {
    let mut judge = Judge::new(rt.alloc());
    for row in rows {
        let verdict = judge.judge(threads, row)?;
        tell(rt, name, &judge, row, verdict)?;
    }
    if judge.is_open() {
        println!(rt; "{name}: {}: parts without an end", judge.title())?;
    }
    Ok(judge.cases())
}

fn judge_file<R: Threads + Wait + Clone + Send + Sync + Drop + 'static>(
    rt: &HostRuntime,
    threads: &R,
    name: &str,
) -> io::Result<()> {
    let text = fs::read_to_string(rt, name)?;
    let rows = rows_of(rt.alloc(), text.as_str())?;
    let cases = judge_rows(rt, threads, name, rows.as_slice())?;
    println!(rt; "{name}: {cases} cases")
}

fn main(rt: HostRuntime) -> io::Result<()> {
    let mut is_own = true;
    for word in env::args(&rt)? {
        if !is_own {
            judge_file(&rt, &rt, word.as_str())?;
        }
        is_own = false;
    }
    Ok(())
}
