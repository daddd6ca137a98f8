//! Words, and the commands that they are.
use nb_cli::{Command, WordsFail, read_words};
use nb_value::{Text, Words};
use std::alloc::{AllocError, Global};
use std::test::Fail;

// Words, and their command as a text: its parts between bars, with `-` for no file.
struct Row {
    words: &'static [&'static str],
    command: &'static str,
}

const ROWS: &[Row] = &[
    Row {
        words: &["run"],
        command: "run|-",
    },
    Row {
        words: &["run", "nb.json"],
        command: "run|nb.json",
    },
    Row {
        words: &["run", "run"],
        command: "run|run",
    },
    Row {
        words: &["run", "a-b=c d"],
        command: "run|a-b=c d",
    },
    Row {
        words: &["workers", "1"],
        command: "workers|1|-",
    },
    Row {
        words: &["workers", "16", "nb.json"],
        command: "workers|16|nb.json",
    },
    Row {
        words: &["make", "1", "7"],
        command: "make|1|7",
    },
    Row {
        words: &["make", "1000", "0"],
        command: "make|1000|0",
    },
    Row {
        words: &["make", "10", "4294967295"],
        command: "make|10|4294967295",
    },
    Row {
        words: &["upgrade", "nb.json"],
        command: "upgrade|nb.json",
    },
    Row {
        words: &[],
        command: "usage",
    },
    Row {
        words: &["run", "--document"],
        command: "usage",
    },
    Row {
        words: &["run", "a", "b"],
        command: "usage",
    },
    Row {
        words: &["workers", "0"],
        command: "usage",
    },
    Row {
        words: &["workers", "17"],
        command: "usage",
    },
    Row {
        words: &["make", "01", "5"],
        command: "usage",
    },
    Row {
        words: &["workers"],
        command: "usage",
    },
    Row {
        words: &["workers", "nb.json"],
        command: "usage",
    },
    Row {
        words: &["workers", "2", "a", "b"],
        command: "usage",
    },
    Row {
        words: &["make", "1"],
        command: "usage",
    },
    Row {
        words: &["make", "0", "1"],
        command: "usage",
    },
    Row {
        words: &["make", "1001", "1"],
        command: "usage",
    },
    Row {
        words: &["make", "1", "4294967296"],
        command: "usage",
    },
    Row {
        words: &["make", "1", "00"],
        command: "usage",
    },
    Row {
        words: &["make", "+1", "1"],
        command: "usage",
    },
    Row {
        words: &["make", "1", "99999999999999999999999999"],
        command: "usage",
    },
    Row {
        words: &["make", "1", "2", "3"],
        command: "usage",
    },
    Row {
        words: &["upgrade"],
        command: "usage",
    },
    Row {
        words: &["upgrade", "a", "b"],
        command: "usage",
    },
    Row {
        words: &["run", ""],
        command: "usage",
    },
    Row {
        words: &["run", "-"],
        command: "usage",
    },
    Row {
        words: &["--", "run"],
        command: "usage",
    },
    Row {
        words: &["help"],
        command: "usage",
    },
    Row {
        words: &["--version"],
        command: "usage",
    },
    Row {
        words: &["ru"],
        command: "usage",
    },
    Row {
        words: &["verify"],
        command: "usage",
    },
];

fn words_of(alloc: Global, words: &[&str]) -> Result<Words, AllocError> {
    let mut items = Vec::new(alloc);
    for word in words {
        items.push(Text::from_str(alloc, word)?)?;
    }
    Ok(Words::from_vec(items))
}

fn file_of(file: &Option<Text>) -> &str {
    match file {
        Some(file) => file.as_str(),
        None => "-",
    }
}

fn text_of(alloc: Global, read: &Result<Command, WordsFail>) -> Result<Text, Fail> {
    let text = match read {
        Ok(Command::Run(file)) => format!(in alloc; "run|{}", file_of(file))?,
        Ok(Command::Workers(count, file)) => {
            format!(in alloc; "workers|{count}|{}", file_of(file))?
        }
        Ok(Command::Make(count, seed)) => format!(in alloc; "make|{count}|{seed}")?,
        Ok(Command::Upgrade(file)) => format!(in alloc; "upgrade|{}", file.as_str())?,
        Err(WordsFail::Usage) => String::from_str(alloc, "usage")?,
        Err(WordsFail::Memory) => String::from_str(alloc, "memory")?,
    };
    Ok(Text::from_string(text))
}

#[test]
fn reads_words(rt: HostRuntime) -> Result<(), Fail> {
    let alloc = rt.alloc();
    for row in ROWS {
        let words = words_of(alloc, row.words)?;
        let read = read_words(alloc, &words);
        assert_eq!(rt; text_of(alloc, &read)?.as_str(), row.command);
    }
    Ok(())
}
