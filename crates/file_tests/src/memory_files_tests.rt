//! Files in memory.
use crate::script::{Answer, Call, make_all};
use nf_files::{FilesFault, MemoryFiles};
use std::alloc::{AllocError, Global};
use std::test::Fail;

const FAILED: Answer = Answer::Fault(FilesFault::Failed);

/// Files in memory, of whose calls some fail. `abc` stands under `a`.
fn files(alloc: Global, fails: &[u64]) -> Result<MemoryFiles, AllocError> {
    let fails = Vec::from_slice(alloc, fails)?;
    let mut files = MemoryFiles::new(alloc, fails);
    files.put("a", b"abc")?;
    Ok(files)
}

/// What calls answer, whose places in the order of the calls are listed where they are to fail.
#[test]
fn calls_answer_so(rt: HostRuntime) -> Result<(), Fail> {
    let cases: [(&str, &[u64], &[Call], &[Answer]); 3] = [
        (
            "a name under which nothing stands fails, and its number is given again",
            &[],
            &[Call::Open("a"), Call::Open("b"), Call::Open("a")],
            &[Answer::File(2), FAILED, Answer::File(3)],
        ),
        (
            "listed calls fail, whatever their kind",
            &[1, 2, 4, 6],
            &[
                Call::Create("b"),
                Call::Write(b"x"),
                Call::Create("a"),
                Call::Write(b"xy"),
                Call::Open("a"),
                Call::Open("a"),
                Call::Read(4),
                Call::Read(4),
            ],
            &[
                Answer::File(2),
                FAILED,
                FAILED,
                Answer::Count(2),
                FAILED,
                Answer::File(3),
                FAILED,
                Answer::Count(3),
            ],
        ),
        (
            "a file is read in pieces",
            &[],
            &[Call::Open("a"), Call::Read(2), Call::Read(2), Call::Read(2)],
            &[
                Answer::File(2),
                Answer::Count(2),
                Answer::Count(1),
                Answer::Count(0),
            ],
        ),
    ];
    for (shows, fails, calls, answers) in cases {
        let mut files = files(rt.alloc(), fails)?;
        let told = make_all(rt.alloc(), &mut files, calls)?;
        assert_eq!(rt; told.answers.as_slice(), answers, "{shows}");
        assert!(rt;
            b"abc".as_slice().starts_with(told.bytes.as_slice()),
            "{shows}"
        );
    }
    Ok(())
}

/// What stands under a name, or `-`.
fn content<'a>(files: &'a MemoryFiles, name: &str) -> &'a [u8] {
    files.content(name).unwrap_or(b"-")
}

#[test]
fn a_name_holds_what_came_last(rt: HostRuntime) -> Result<(), Fail> {
    let mut files = files(rt.alloc(), &[])?;
    assert_eq!(rt; content(&files, "b"), b"-".as_slice());
    let calls = [Call::Create("a"), Call::Write(b"12"), Call::Write(b"3")];
    make_all(rt.alloc(), &mut files, &calls)?;
    assert_eq!(rt; content(&files, "a"), b"123".as_slice());
    files.put("a", b"put")?;
    assert_eq!(rt; content(&files, "a"), b"put".as_slice());
    assert_eq!(rt; files.given(2), b"123".as_slice());
    make_all(rt.alloc(), &mut files, &[Call::Create("a")])?;
    assert_eq!(rt; content(&files, "a"), b"".as_slice());
    Ok(())
}

#[test]
fn standard_output_and_error_are_kept(rt: HostRuntime) -> Result<(), Fail> {
    let mut files = files(rt.alloc(), &[])?;
    let calls = [
        Call::Open("a"),
        Call::Print(b"out"),
        Call::Warn(b"err"),
        Call::Print(b"!"),
    ];
    make_all(rt.alloc(), &mut files, &calls)?;
    let cases = [(0, "out!"), (1, "err"), (2, ""), (3, ""), (u32::MAX, "")];
    for (file, given) in cases {
        assert_eq!(rt; files.given(file), given.as_bytes(), "file {file}");
    }
    Ok(())
}
