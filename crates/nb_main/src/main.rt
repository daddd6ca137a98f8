//! The program: it runs the lines of a notebook, and writes the log of what happened and a table of what stands.
#![tactic(auto)]

mod call;
mod history;
mod making;
mod notes;
mod outcome;
mod reading;
mod status;
mod task;

use crate::call::{notebook, without_words};
use nb_io::{StdFiles, StdSink, StdSource, StdSpawner};
use nb_value::{Text, Words};
use std::alloc::AllocError;
use std::env::Env;
use std::process::ExitCode;
use std::{env, io};

fn main(rt: HostRuntime) -> ExitCode {
    let alloc = rt.alloc();
    let mut input = StdSource::new(rt.stdin());
    let mut files = StdFiles::new(alloc, &rt);
    let mut programs = StdSpawner::new(alloc, &rt);
    let mut out = StdSink::new(rt.stdout());
    let mut notes = StdSink::new(rt.stderr());
    let status = match words_of(&rt) {
        Ok(words) => notebook(
            alloc,
            &words,
            &mut input,
            &mut files,
            &mut programs,
            &mut out,
            &mut notes,
        ),
        Err(AllocError) => without_words(&mut notes),
    };
    ExitCode::from(status.number())
}

/// The words after the program's name. Words that are no text are taken as none.
fn words_of<R: Env + AllocGlobal>(rt: &R) -> Result<Words, AllocError> {
    let alloc = rt.alloc();
    let mut words = Vec::new(alloc);
    match env::args(rt) {
        Ok(args) => {
            for arg in args.skip(1) {
                words.push(Text::from_string(arg))?;
            }
        }
        Err(e) if e.kind() == io::ErrorKind::OutOfMemory => return Err(AllocError),
        Err(_) => {}
    }
    Ok(Words::from_vec(words))
}

#[cfg(test)]
mod cell_tests;
#[cfg(test)]
mod document_tests;
#[cfg(test)]
mod line_tests;
#[cfg(test)]
mod tests;
