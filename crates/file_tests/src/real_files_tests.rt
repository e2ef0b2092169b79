//! Files of the system.
use crate::failing_system::FailingSystem;
use crate::script::{Answer, Call, Told, make_all};
use nf_files::{FilesFault, RealFiles};
use std::alloc::{AllocError, Global};
use std::io::pipe;
use std::os::fd::AsRawFd;
use std::os::unix::fs::symlink;
use std::test::Fail;
use std::{env, fs, io, process};

const FAILED: Answer = Answer::Fault(FilesFault::Failed);

/// What calls on files of the system answer.
fn made(rt: &HostRuntime, calls: &[Call]) -> Result<Told, AllocError> {
    let mut files = RealFiles::new(rt.alloc(), rt, rt.stdout(), rt.stderr());
    make_all(rt.alloc(), &mut files, calls)
}

/// The same of the system that fails to be read, and tells no numbers of files.
fn made_failing(rt: &HostRuntime, calls: &[Call]) -> Result<Told, AllocError> {
    let system = FailingSystem { system: rt };
    let mut files = RealFiles::new(rt.alloc(), &system, rt.stdout(), rt.stderr());
    make_all(rt.alloc(), &mut files, calls)
}

/// A new folder for the files of a test: its path, and behind it those of names in it.
fn folder(rt: &HostRuntime, test: &str, names: &[&str]) -> io::Result<Vec<String>> {
    let mut paths = Vec::new(rt.alloc());
    paths.push(new_folder(rt, test)?)?;
    for name in names {
        let path = format!(in rt.alloc(); "{}/{name}", at(paths.as_slice(), 0))?;
        paths.push(path)?;
    }
    Ok(paths)
}

fn new_folder(rt: &HostRuntime, test: &str) -> io::Result<String> {
    let name = format!(in rt.alloc(); "nf_files-{}-{test}", process::id(rt.process()))?;
    let path = env::temp_dir(rt)?.join(rt.alloc(), name.as_str())?;
    fs::create_dir(rt, path.as_str())?;
    Ok(format!(in rt.alloc(); "{}", path.as_str())?)
}

/// One of these paths.
fn at(paths: &[String], number: usize) -> &str {
    match paths.get(number) {
        Some(path) => path.as_str(),
        None => "",
    }
}

/// Whether a file has these bytes.
fn has(rt: &HostRuntime, name: &str, bytes: &[u8]) -> bool {
    match fs::read(rt, name) {
        Ok(found) => found.as_slice() == bytes,
        Err(_) => false,
    }
}

#[test]
fn what_was_written_is_read_again(rt: HostRuntime) -> Result<(), Fail> {
    let paths = folder(&rt, "again", &["file"])?;
    let name = at(paths.as_slice(), 1);
    fs::write(&rt, name, b"old and long".as_slice())?;
    let calls = [
        Call::Create(name),
        Call::Write(b"one "),
        Call::Write(b"two"),
        Call::Open(name),
        Call::Read(16),
        Call::Read(16),
    ];
    let answers = [
        Answer::File(2),
        Answer::Count(4),
        Answer::Count(3),
        Answer::File(3),
        Answer::Count(7),
        Answer::Count(0),
    ];
    let told = made(&rt, &calls)?;
    assert_eq!(rt; told.answers.as_slice(), answers.as_slice());
    assert_eq!(rt; told.bytes.as_slice(), b"one two".as_slice());
    fs::remove_dir_all(&rt, at(paths.as_slice(), 0))?;
    Ok(())
}

/// Of the last two no byte can be read, or written.
#[test]
fn faults_of_the_system_are_told(rt: HostRuntime) -> Result<(), Fail> {
    let cases: [(&str, &[Call], &[Answer]); 4] = [
        (
            "/",
            &[
                Call::Open("/no such folder/a"),
                Call::Create("/no such folder/a"),
            ],
            &[FAILED, FAILED],
        ),
        (
            "/",
            &[Call::Open("/"), Call::Create("/")],
            &[FAILED, FAILED],
        ),
        (
            "/proc/self/mem",
            &[Call::Open("/proc/self/mem"), Call::Read(8), Call::Read(8)],
            &[Answer::File(2), FAILED, FAILED],
        ),
        (
            "/dev/full",
            &[Call::Create("/dev/full"), Call::Write(b"x")],
            &[Answer::File(2), FAILED],
        ),
    ];
    for (needed, calls, answers) in cases {
        if fs::exists(&rt, needed)? {
            let told = made(&rt, calls)?;
            assert_eq!(rt; told.answers.as_slice(), answers, "{needed}");
        }
    }
    Ok(())
}

#[test]
fn a_fault_is_told_once_behind_the_bytes_before_it(rt: HostRuntime) -> Result<(), Fail> {
    let calls = [
        Call::Open("/dev/null"),
        Call::Read(2),
        Call::Read(8),
        Call::Read(0),
        Call::Read(8),
        Call::Read(8),
        Call::Read(8),
    ];
    // No byte is needed of a read of none, and more bytes come behind the fault.
    let answers = [
        Answer::File(2),
        Answer::Count(2),
        Answer::Count(1),
        Answer::Count(0),
        FAILED,
        Answer::Count(2),
        Answer::Count(0),
    ];
    let told = made_failing(&rt, &calls)?;
    assert_eq!(rt; told.answers.as_slice(), answers.as_slice());
    assert_eq!(rt; told.bytes.as_slice(), b"abcde".as_slice());
    Ok(())
}

/// The bytes of the first 100,000 numbers.
fn numbers(alloc: Global) -> Result<Vec<u8>, AllocError> {
    let mut bytes = Vec::new(alloc);
    for number in 0..100_000u32 {
        bytes.extend_from_slice(&number.to_le_bytes())?;
    }
    Ok(bytes)
}

/// All that the reads may leave is read at the end: 400,000 bytes are there.
#[test]
fn reads_of_any_size_go_on_where_the_last_one_ended(rt: HostRuntime) -> Result<(), Fail> {
    let paths = folder(&rt, "ahead", &["file"])?;
    let name = at(paths.as_slice(), 1);
    let bytes = numbers(rt.alloc())?;
    fs::write(&rt, name, bytes.as_slice())?;
    let calls = [
        Call::Open(name),
        Call::Read(1),
        Call::Read(65_519),
        Call::Read(65_536),
        Call::Read(100_000),
        Call::Read(3),
        Call::Read(65_535),
        Call::Read(70_000),
        Call::Read(400_000),
        Call::Read(400_000),
        Call::Read(400_000),
    ];
    let told = made(&rt, &calls)?;
    assert!(rt;
        told.bytes.as_slice() == bytes.as_slice(),
        "{} bytes",
        told.bytes.len()
    );
    fs::remove_dir_all(&rt, at(paths.as_slice(), 0))?;
    Ok(())
}

/// Writes a file that is to be read, and one that isn't.
fn write_both(rt: &HostRuntime, name: &str, other: &str) -> io::Result<()> {
    fs::write(rt, name, b"whole".as_slice())?;
    fs::write(rt, other, b"old".as_slice())
}

/// By whatever name it is to be created: its own, spelled otherwise, or that of a link.
#[test]
fn a_file_that_is_read_is_not_emptied(rt: HostRuntime) -> Result<(), Fail> {
    let paths = folder(&rt, "read", &["in", "./in", "hard", "soft", "other"])?;
    let (name, other) = (at(paths.as_slice(), 1), at(paths.as_slice(), 5));
    let (hard, soft) = (at(paths.as_slice(), 3), at(paths.as_slice(), 4));
    write_both(&rt, name, other)?;
    fs::hard_link(&rt, name, hard)?;
    symlink(&rt, "in", soft)?;
    let calls = [
        Call::Open(name),
        Call::Read(2),
        Call::Create(name),
        Call::Create(at(paths.as_slice(), 2)),
        Call::Create(hard),
        Call::Create(soft),
        Call::Read(8),
        Call::Create(other),
    ];
    let answers = [
        Answer::File(2),
        Answer::Count(2),
        FAILED,
        FAILED,
        FAILED,
        FAILED,
        Answer::Count(3),
        Answer::File(3),
    ];
    let told = made(&rt, &calls)?;
    assert_eq!(rt; told.answers.as_slice(), answers.as_slice());
    assert!(rt; has(&rt, name, b"whole") && has(&rt, other, b""));
    fs::remove_dir_all(&rt, at(paths.as_slice(), 0))?;
    Ok(())
}

#[test]
fn a_file_without_a_number_goes_by_its_name(rt: HostRuntime) -> Result<(), Fail> {
    let paths = folder(&rt, "name", &["in", "out"])?;
    let (name, other) = (at(paths.as_slice(), 1), at(paths.as_slice(), 2));
    write_both(&rt, name, other)?;
    let calls = [Call::Open(name), Call::Create(name), Call::Create(other)];
    let answers = [Answer::File(2), FAILED, Answer::File(3)];
    let told = made_failing(&rt, &calls)?;
    assert_eq!(rt; told.answers.as_slice(), answers.as_slice());
    assert!(rt; has(&rt, name, b"whole") && has(&rt, other, b""));
    fs::remove_dir_all(&rt, at(paths.as_slice(), 0))?;
    Ok(())
}

#[test]
fn a_device_is_written_though_it_is_read(rt: HostRuntime) -> Result<(), Fail> {
    let calls = [
        Call::Open("/dev/null"),
        Call::Create("/dev/null"),
        Call::Write(b"x"),
    ];
    let answers = [Answer::File(2), Answer::File(3), Answer::Count(1)];
    let told = made(&rt, &calls)?;
    assert_eq!(rt; told.answers.as_slice(), answers.as_slice());
    Ok(())
}

/// What goes through a pipe between these names.
fn through<'a>(rt: &HostRuntime, from: &'a str, to: &'a str) -> Result<Told, AllocError> {
    let calls = [
        Call::Open(from),
        Call::Create(to),
        Call::Write(b"ab"),
        Call::Read(8),
    ];
    made(rt, &calls)
}

#[test]
fn pipes_are_read_and_written(rt: HostRuntime) -> Result<(), Fail> {
    let (reader, writer) = pipe(&rt)?;
    let from = format!(in rt.alloc(); "/dev/fd/{}", reader.as_raw_fd())?;
    let to = format!(in rt.alloc(); "/dev/fd/{}", writer.as_raw_fd())?;
    let told = through(&rt, from.as_str(), to.as_str())?;
    let answers = [
        Answer::File(2),
        Answer::File(3),
        Answer::Count(2),
        Answer::Count(2),
    ];
    assert_eq!(rt; told.answers.as_slice(), answers.as_slice());
    assert_eq!(rt; told.bytes.as_slice(), b"ab".as_slice());
    Ok(())
}
