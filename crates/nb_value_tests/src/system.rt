//! The real files and programs.
use crate::streams::{end_of, length_of};
use nb_io::{FileFail, SpawnFail, StdFiles, StdSpawner};
use nb_value::{Argv, Text};
use std::alloc::{AllocError, Global};
use std::test::Fail;

// A name and a limit, and how many bytes are read. One of these files has no end, one is a folder and one isn't there.
const FILE_READS: &[(&str, usize, Result<usize, FileFail>)] = &[
    ("/dev/null", 0, Ok(0)),
    ("/dev/zero", 9, Err(FileFail::TooLong)),
    ("/", 9, Err(FileFail::Failed)),
    ("/no/such/file", 9, Err(FileFail::Failed)),
];

#[test]
fn reads_real_files(rt: HostRuntime) -> Result<(), Fail> {
    let mut files = StdFiles::new(rt.alloc(), &rt);
    for &(name, limit, wanted) in FILE_READS {
        assert_eq!(rt; length_of(&mut files, name, limit), wanted);
    }
    Ok(())
}

// The words of a program, and with what it ends and how many bytes it wrote.
const RUNS: &[(&[&str], Result<(i64, usize), SpawnFail>)] = &[
    (&["sh", "-c", "exit 3"], Ok((3, 0))),
    (&["echo", "[1, 2, 3]"], Ok((0, 10))),
    (&["sh", "-c", "echo out; echo err >&2; cat"], Ok((0, 4))),
    (&["sh", "-c", "kill -9 $$"], Ok((-1, 0))),
    (&["head", "-c", "65536", "/dev/zero"], Ok((0, 65536))),
    (
        &["head", "-c", "65537", "/dev/zero"],
        Err(SpawnFail::TooLong),
    ),
    (&["cat", "/dev/zero"], Err(SpawnFail::TooLong)),
    (&["/no/such/program"], Err(SpawnFail::Failed)),
];

fn argv(alloc: Global, words: &[&str]) -> Result<Argv, AllocError> {
    let mut texts = Vec::new(alloc);
    for word in words {
        texts.push(Text::from_str(alloc, word)?)?;
    }
    Ok(Argv::from_vec(texts))
}

#[test]
fn runs_real_programs(rt: HostRuntime) -> Result<(), Fail> {
    let alloc = rt.alloc();
    let mut programs = StdSpawner::new(alloc, &rt);
    for &(words, wanted) in RUNS {
        let argv = argv(alloc, words)?;
        assert!(rt; argv.as_slice().len() > 0);
        assert_eq!(rt; end_of(&mut programs, &argv, 65_536), wanted);
    }
    Ok(())
}
