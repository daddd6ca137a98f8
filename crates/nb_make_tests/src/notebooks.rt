//! Made notebooks, with what their lines say. The expected texts are those of another program by the same rules.
use nb_lines::{ScriptLine, Scripts};
use nb_log::Event;
use nb_make::make;
use nb_parser::parse_cell;
use nb_sheet::Edit;
use nb_syntax::{Cell, print};
use std::alloc::Global;
use std::test::Fail;

// How many cells, the seed, and the lines.
struct Row {
    count: u32,
    seed: u32,
    lines: &'static [&'static str],
}

const NOTEBOOKS: &[Row] = &[
    Row {
        count: 1,
        seed: 7,
        lines: &[
            "c1 = 231",
            "frame",
            "frame",
            "frame",
            "redefine c1 = 1",
            "rest",
        ],
    },
    Row {
        count: 3,
        seed: 7,
        lines: &[
            "c1 = 231",
            "c2 = c1 + 1",
            "c3 = 764",
            "frame",
            "frame",
            "frame",
            "redefine c1 = 3",
            "rest",
        ],
    },
    Row {
        count: 5,
        seed: 6,
        lines: &[
            "c1 = 502",
            "c2 = { yield c1; yield c1 + 1; }",
            "c3 = (c1 + c1) % 1000",
            "c4 = { yield c3; yield c3 + 1; }",
            "c5 = c3 + 1",
            "frame",
            "frame",
            "frame",
            "redefine c1 = 5",
            "rest",
        ],
    },
    Row {
        count: 16,
        seed: 4294967295,
        lines: &[
            "c1 = 36",
            "c2 = c1 + 1",
            "c3 = 840",
            "c4 = 805",
            "c5 = { yield c4; yield c4 + 1; }",
            "c6 = 231",
            "c7 = (c3 + c5) % 1000",
            "c8 = c4 + 1",
            "c9 = c3 + 1",
            "c10 = (c1 + c3) % 1000",
            "c11 = (c3 + c10) % 1000",
            "c12 = { yield c9; yield c9 + 1; }",
            "c13 = 32",
            "c14 = { yield c9; yield c9 + 1; }",
            "c15 = c6 + 1",
            "c16 = { yield c4; yield c4 + 1; }",
            "frame",
            "frame",
            "frame",
            "redefine c1 = 16",
            "rest",
        ],
    },
];

// Whether the cell is printed as the text, and is the tree that the text is read as.
fn is_cell(alloc: Global, cell: &Cell, text: &str) -> Result<bool, Fail> {
    let printed = print(alloc, cell)?;
    match parse_cell(alloc, text) {
        Ok(read) => Ok(read.same(cell) && printed.as_str() == text),
        Err(_) => Ok(false),
    }
}

fn is_line(alloc: Global, line: &ScriptLine, text: &str) -> Result<bool, Fail> {
    if line.editor != 0 {
        return Ok(false);
    }
    match &line.event {
        Event::Frame => Ok(text == "frame"),
        Event::Rest => Ok(text == "rest"),
        Event::Edit(
            Edit::AddCell {
                module,
                cell,
                observed,
            },
        ) => Ok(*module == 0 && *observed && is_cell(alloc, cell, text)?),
        Event::Edit(Edit::Redefine { module, cell }) => match text.strip_prefix("redefine ") {
            Some(rest) => Ok(*module == 0 && is_cell(alloc, cell, rest)?),
            None => Ok(false),
        },
        _ => Ok(false),
    }
}

fn are_lines(alloc: Global, lines: &Scripts, texts: &[&str]) -> Result<bool, Fail> {
    if lines.len() != texts.len() {
        return Ok(false);
    }
    for (line, text) in lines.as_slice().iter().zip(texts.iter()) {
        if !is_line(alloc, line, *text)? {
            return Ok(false);
        }
    }
    Ok(true)
}

#[test]
fn notebooks_are_made(rt: HostRuntime) -> Result<(), Fail> {
    let alloc = rt.alloc();
    for row in NOTEBOOKS {
        let lines = make(alloc, row.count, row.seed)?;
        let is_so = are_lines(alloc, &lines, row.lines)?;
        assert!(rt; is_so);
    }
    Ok(())
}

#[test]
fn the_largest_notebook_is_made(rt: HostRuntime) -> Result<(), Fail> {
    let lines = make(rt.alloc(), 1000, 0)?;
    assert_eq!(rt; lines.len(), 1005);
    Ok(())
}
