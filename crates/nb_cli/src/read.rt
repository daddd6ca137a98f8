ghost use Rattle.std.specs.Prelude.{◌≡◌, IfOk, map, option_and_then, option_map, true};
ghost use Rattle.std.specs.List.{list_all};
ghost use Rattle.clap.specs.Words.{subcommand_rows_of};
ghost use Rattle.nb_cli.specs.Command.{command, is_word as is_word_text, Reads};
ghost use Rattle.nb_cli.specs.Program.{command_by, fail_by, Finds, make_by, parts_in, parts_of, workers_by};
ghost use Rattle.nb_cli.specs.declared.command.Command.TheVariants.{Upgrade};

use crate::command::{Command, WordsFail};
use crate::number::number;
use crate::program::program;
use clap::ArgMatches;
use clap::error::ErrorKind;
use nb_value::{Text, Words};
use std::alloc::{AllocError, Global};

/// The command that the words after the program's name are: `run`, `run FILE`, `workers N`, `workers N FILE`,
/// `make N SEED` or `upgrade FILE`, where no word is empty or begins with `-`.
///
/// It fails with `Usage` exactly where the words are none of these, and with `Memory` only without memory. It takes
/// time and memory linear in the words.
pub fn read_words(alloc: Global, words: &Words) -> Result<Command, WordsFail>
    ensures { Reads (command words.now) result }
{
    if !are_words(words.as_slice()) {
        return Err(WordsFail::Usage);
    }
    let texts = texts_of(alloc, words.as_slice())?;
    read_texts(alloc, texts.as_slice())
}

fn read_texts(alloc: Global, words: &[&str]) -> Result<Command, WordsFail>
    requires { list_all is_word_text (map (λ word. word.now) words.now) ≡ true }
    ensures { Reads (command (map (λ word. word.now) words.now)) result }
{
    match parse(alloc, words) {
        Ok(matches) => command_in(alloc, &matches),
        Err(fail) => Err(fail),
    }
}

fn command_in(alloc: Global, matches: &ArgMatches<'_>) -> Result<Command, WordsFail>
    ensures { Reads (option_and_then command_by (parts_in (subcommand_rows_of matches.now))) result }
{
    match matches.subcommand() {
        Some((name, texts)) => {
            let count = texts.get_str("count");
            let seed = texts.get_str("seed");
            let file = texts.get_str("file");
            command_of(alloc, name, count, seed, file)
        }
        None => Err(WordsFail::Usage),
    }
}

fn are_words(words: &[Text]) -> bool
    ensures { result ≡ list_all is_word_text words.now }
{
    words.iter().all(|word| is_word(word))
}

fn is_word(word: &Text) -> bool
    ensures { result ≡ is_word_text word.now }
{
    match word.as_str().as_bytes() {
        [] => false,
        [first, ..] => *first != b'-',
    }
}

fn texts_of<'a>(alloc: Global, words: &'a [Text]) -> Result<Vec<&'a str>, AllocError>
    ensures { IfOk result (λ texts. map (λ text. text.now) texts.items ≡ words.entry.now) }
{
    let mut texts = Vec::new(alloc);
    for word in words {
        texts.push(word.as_str())?;
    }
    Ok(texts)
}

// Reads words that aren't empty and don't begin with a hyphen.
fn parse<'a>(alloc: Global, words: &'a [&'a str]) -> Result<ArgMatches<'a>, WordsFail>
    requires { list_all is_word_text (map (λ word. word.now) words.now) ≡ true }
    ensures { Finds (parts_of (map (λ word. word.now) words.entry.now)) result }
{
    match program(alloc)?.try_get_matches_from(words) {
        Ok(matches) => Ok(matches),
        Err(error) => Err(fail_of(error.kind())),
    }
}

fn fail_of(kind: ErrorKind) -> WordsFail
    ensures { result ≡ fail_by kind }
{
    match kind {
        ErrorKind::OutOfMemory => WordsFail::Memory,
        _ => WordsFail::Usage,
    }
}

fn command_of(
    alloc: Global,
    name: &str,
    count: Option<&str>,
    seed: Option<&str>,
    file: Option<&str>,
) -> Result<Command, WordsFail>
    ensures { Reads (command_by (record {
      name = name.now;
      count = option_map (λ text. text.now) count.entry;
      seed = option_map (λ text. text.now) seed.entry;
      file = option_map (λ text. text.now) file.entry;
    })) result }
{
    let file = match file {
        Some(file) => Some(Text::from_str(alloc, file)?),
        None => None,
    };
    if name == "run" {
        Ok(Command::Run(file))
    } else if name == "workers" {
        workers(count, file)
    } else if name == "make" {
        make(count, seed)
    } else if name == "upgrade" {
        upgrade(file)
    } else {
        Err(WordsFail::Usage)
    }
}

fn workers(count: Option<&str>, file: Option<Text>) -> Result<Command, WordsFail>
    ensures { Reads (workers_by (option_map (λ text. text.now) count.entry) file) result }
{
    let Some(count) = count else {
        return Err(WordsFail::Usage);
    };
    match number(1, 16, count) {
        Some(count) => Ok(Command::Workers(count, file)),
        None => Err(WordsFail::Usage),
    }
}

fn make(count: Option<&str>, seed: Option<&str>) -> Result<Command, WordsFail>
    ensures { Reads (make_by (option_map (λ text. text.now) count.entry) (option_map (λ text. text.now) seed.entry)) result }
{
    let (Some(count), Some(seed)) = (count, seed) else {
        return Err(WordsFail::Usage);
    };
    match (number(1, 1_000, count), number(0, u32::MAX, seed)) {
        (Some(count), Some(seed)) => Ok(Command::Make(count, seed)),
        _ => Err(WordsFail::Usage),
    }
}

fn upgrade(file: Option<Text>) -> Result<Command, WordsFail>
    ensures { Reads (option_map Upgrade file) result }
{
    match file {
        Some(file) => Ok(Command::Upgrade(file)),
        None => Err(WordsFail::Usage),
    }
}
