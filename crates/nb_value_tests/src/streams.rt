//! Each object and each call in good order, and at faults.
ghost use Rattle.std.specs.Prelude.{◌<◌, length};

use nb_io::{
    ChildEnd, ChildEnds, Failed, FileFail, Files, MemFiles, MemSink, MemSource, MemSpawner,
    NamedFiles, ReadFail, Sink, Source, SpawnFail, Spawner, StdSink, StdSource, read_to_end,
    write_pieces, write_whole,
};
use nb_value::{Argv, Bytes, Numbers, Text};
use std::alloc::{AllocError, Global};
use std::fs;
use std::test::Fail;

fn numbers(alloc: Global, items: &[u64]) -> Result<Numbers, AllocError> {
    Ok(Numbers::from_vec(Vec::from_slice(alloc, items)?))
}

// A piece, the calls that fail and a limit, and why "abc" is not read to its end.
const READS: &[(usize, &[u64], usize, Option<ReadFail>)] = &[
    (1, &[], 3, None),
    (2, &[], 3, None),
    (3, &[], 3, None),
    (4096, &[], 3, None),
    (1, &[], 2, Some(ReadFail::TooLong(2))),
    (2, &[], 2, Some(ReadFail::TooLong(2))),
    (4096, &[], 2, Some(ReadFail::TooLong(2))),
    (1, &[1], 3, Some(ReadFail::Fault)),
    (4096, &[1], 3, Some(ReadFail::Fault)),
    (1, &[3], 3, Some(ReadFail::Fault)),
];

#[test]
fn reads_to_the_end(rt: HostRuntime) -> Result<(), Fail> {
    let alloc = rt.alloc();
    for &(piece, failing, limit, fail) in READS {
        let content = Bytes::of(alloc, b"abc")?;
        let failing = numbers(alloc, failing)?;
        let mut input = MemSource::new(content, piece.max(1), failing);
        match read_to_end(alloc, &mut input, limit) {
            Ok(bytes) => assert!(rt; bytes.as_slice() == b"abc".as_slice() && fail.is_none()),
            Err(e) => assert!(rt; fail == Some(e)),
        }
    }
    Ok(())
}

// The calls that fail, and what stands after "ab", "" and "cd" were written as pieces, and then "e" as a whole.
const WRITES: &[(&[u64], bool, &[u8])] = &[
    (&[], true, b"abcde"),
    (&[2], false, b"abe"),
    (&[1], false, b"e"),
];

#[test]
fn writes_up_to_a_fault(rt: HostRuntime) -> Result<(), Fail> {
    let alloc = rt.alloc();
    let pieces: [&[u8]; 3] = [b"ab", b"", b"cd"];
    for &(failing, is_whole, written) in WRITES {
        let mut sink = MemSink::new(alloc, numbers(alloc, failing)?);
        assert_eq!(rt; write_pieces(&mut sink, &pieces).is_ok(), is_whole);
        assert!(rt; write_whole(&mut sink, b"e").is_ok());
        assert!(rt; sink.bytes() == written);
    }
    Ok(())
}

#[test]
fn adapts_a_reader(rt: HostRuntime) -> Result<(), Fail> {
    let alloc = rt.alloc();
    let mut input = StdSource::new(b"abc".as_slice());
    let read = read_to_end(alloc, &mut input, 3)?;
    assert!(rt; read.as_slice() == b"abc".as_slice());
    Ok(())
}

#[test]
fn counts_a_reader_s_error(rt: HostRuntime) -> Result<(), Fail> {
    // A folder opens, and each read of it fails.
    let mut folder = StdSource::new(fs::open(&rt, "/")?);
    assert_eq!(rt; folder.read(&mut [0; 4]), Err(Failed));
    Ok(())
}

#[test]
fn adapts_a_writer(rt: HostRuntime) -> Result<(), Fail> {
    let mut output = StdSink::new(Vec::new(rt.alloc()));
    assert_eq!(rt; write_whole(&mut output, b"abc"), Ok(()));
    Ok(())
}

#[test]
fn counts_a_writer_s_error(rt: HostRuntime) -> Result<(), Fail> {
    // A full device takes nothing.
    let full = fs::OpenOptions::new().write(true).open(&rt, "/dev/full")?;
    assert_eq!(rt; StdSink::new(full).write(b"abc"), Err(Failed));
    Ok(())
}

pub(crate) fn length_of<F: Files>(
    files: &mut F,
    name: &str,
    limit: usize,
) -> Result<usize, FileFail> {
    Ok(files.read_file(name, limit)?.len())
}

// A name and a limit, and how many bytes are read of the one file, "a" with "abc". The fourth call fails.
const FILE_READS: &[(&str, usize, Result<usize, FileFail>)] = &[
    ("a", 3, Ok(3)),
    ("a", 2, Err(FileFail::TooLong)),
    ("b", 3, Err(FileFail::Failed)),
    ("a", 3, Err(FileFail::Failed)),
    ("a", 3, Ok(3)),
];

fn one_file(alloc: Global) -> Result<NamedFiles, AllocError> {
    let name = Text::from_str(alloc, "a")?;
    let bytes = Bytes::of(alloc, b"abc")?;
    Ok(NamedFiles::from_vec(vec![in alloc; (name, bytes)]?))
}

#[test]
fn reads_files(rt: HostRuntime) -> Result<(), Fail> {
    let alloc = rt.alloc();
    let failing = numbers(alloc, &[4])?;
    let mut files = MemFiles::new(alloc, one_file(alloc)?, failing);
    for &(name, limit, wanted) in FILE_READS {
        assert_eq!(rt; length_of(&mut files, name, limit), wanted);
    }
    Ok(())
}

pub(crate) fn end_of<P: Spawner>(
    programs: &mut P,
    argv: &Argv,
    limit: usize,
) -> Result<(i64, usize), SpawnFail>
    requires { 0 < length argv.now }
{
    let end = programs.run(argv, limit)?;
    Ok((end.status, end.output.len()))
}

const ENDS: &[(i64, &[u8])] = &[(0, b"[1]"), (3, b"four")];

fn ends(alloc: Global) -> Result<ChildEnds, AllocError> {
    let mut ends = Vec::new(alloc);
    for &(status, text) in ENDS {
        let output = Bytes::of(alloc, text)?;
        ends.push(ChildEnd { status, output })?;
    }
    Ok(ChildEnds::from_vec(ends))
}

// A limit, and the status and the length of the output that the run ends with. The first call fails.
const RUNS: &[(usize, Result<(i64, usize), SpawnFail>)] = &[
    (9, Err(SpawnFail::Failed)),
    (3, Ok((0, 3))),
    (3, Err(SpawnFail::TooLong)),
    (9, Err(SpawnFail::Failed)),
];

#[test]
fn runs_programs(rt: HostRuntime) -> Result<(), Fail> {
    let alloc = rt.alloc();
    let argv = Argv::from_vec(vec![in alloc; Text::from_str(alloc, "echo")?]?);
    assert!(rt; argv.as_slice().len() > 0);
    let failing = numbers(alloc, &[1])?;
    let mut programs = MemSpawner::new(alloc, ends(alloc)?, failing);
    for &(limit, wanted) in RUNS {
        assert_eq!(rt; end_of(&mut programs, &argv, limit), wanted);
    }
    Ok(())
}
