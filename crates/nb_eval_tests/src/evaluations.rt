//! Evaluations of cells by their texts.

use nb_eval::{
    Ending, Segment, charges, evaluate, law_of_answers, law_of_loops, law_of_plain_cells,
    law_of_pulls,
};
use nb_log::kind_name;
use nb_parser::parse_cell;
use nb_value::{Answer, CellError, Items, Pairs, Text, Value};
use std::alloc::Global;
use std::test::Fail;

/// A cell's text, the pull count, the answers to its fetches (a text that begins with `!` is a failure), and how its
/// evaluation ends, with the number of its yields and its cleanups. The input `a` is 2.
#[derive(Clone, Copy)]
struct Row {
    cell: &'static str,
    pulls: u32,
    answers: &'static [&'static str],
    ending: &'static str,
    made: u32,
    cleanups: usize,
}

const fn ends(cell: &'static str, ending: &'static str) -> Row {
    Row {
        cell,
        pulls: 1,
        answers: &[],
        ending,
        made: 0,
        cleanups: 0,
    }
}

/// The first 200 characters of a text of 256, of two bytes each.
const CUT: &str =
    "Failed Thrown éééééééééééééééééééééééééééééééééééééééééééééééééééééééééééééééééééééééééééééééééééééééééééééééééééééééééééééééééééééééééééééééééééééééééééééééééééééééééééééééééééééééééééééééééééééééééééééééééééééééé";

fn errors() -> [Row; 32] {
    [
        ends("1 + true", "Failed WrongKind +"),
        ends("1 - \"a\"", "Failed WrongKind -"),
        ends("1 < \"a\"", "Failed WrongKind <"),
        ends("!1", "Failed WrongKind !"),
        ends("1 ? 2 : 3", "Failed WrongKind ?"),
        ends("true && 1", "Failed WrongKind &&"),
        ends("false || 1", "Failed WrongKind ||"),
        ends("1.b", "Failed WrongKind ."),
        ends("[1][true]", "Failed WrongKind ["),
        ends("fetch(1)", "Failed WrongKind fetch"),
        ends("{ if (1) {} }", "Failed WrongKind if"),
        ends("{ while (1) {} }", "Failed WrongKind while"),
        ends("{ for (let b of 1) {} }", "Failed WrongKind for"),
        ends("len(1)", "Failed WrongKind len"),
        ends("9223372036854775807 + 1", "Failed Overflow +"),
        ends("-9223372036854775807 - 2", "Failed Overflow -"),
        ends("9223372036854775807 * 2", "Failed Overflow *"),
        ends("(-9223372036854775807 - 1) / -1", "Failed Overflow /"),
        ends("(-9223372036854775807 - 1) % -1", "Failed Overflow %"),
        ends("1 / 0", "Failed ZeroDivisor /"),
        ends("1 % 0", "Failed ZeroDivisor %"),
        ends("[1][1]", "Failed OutOfRange ["),
        ends("[1][-1]", "Failed OutOfRange ["),
        ends("{\"a\": 1}.b", "Failed NoField b"),
        ends("{ throw \"so\"; }", "Failed Thrown so"),
        ends("{ throw [1, null]; }", "Failed Thrown [1,null]"),
        ends("{ b = 1; }", "Failed Unassigned b"),
        ends("{ while (true) {} }", "Failed OutOfFuel "),
        ends("[1 / 0, true + 1]", "Failed ZeroDivisor /"),
        ends("[true + 1, 1 / 0]", "Failed WrongKind +"),
        ends(
            "{ let l = []; for (let b of range(0, 64)) { l = [l]; } }",
            "Failed TooLarge depth",
        ),
        ends(
            "{ let t = \"é\"; for (let b of range(0, 8)) { t = t + t; } throw t; }",
            CUT,
        ),
    ]
}

fn values() -> [Row; 25] {
    [
        ends("-7 / 2", "Done -3"),
        ends("-7 % 2", "Done -1"),
        ends("7 % -2", "Done 1"),
        ends("10 - 2 - 3 * 2", "Done 2"),
        ends("\"a\" + \"b\" + \"c\"", "Done \"abc\""),
        ends("[1] + [[2]]", "Done [1,[2]]"),
        ends("{\"b\": 1, \"a\": 2, \"b\": a}", "Done {\"a\":2,\"b\":2}"),
        ends("{\"a\": 1, \"b\": [true, null]}.b[0]", "Done true"),
        ends("{\"a\": 1}[\"a\"]", "Done 1"),
        ends("[1, 2] == [1, 2] && 1 != true", "Done true"),
        ends("\"a\" < \"ab\" && 2 >= 2", "Done true"),
        ends("false && 1", "Done false"),
        ends("true || 1", "Done true"),
        ends("a > 1 ? \"more\" : 1 / 0", "Done \"more\""),
        ends("sum(sort([3, 1, 2]))", "Done 6"),
        ends(
            "{ let b = 1; if (true) { let b = 2; b = 3; } return b; }",
            "Done 1",
        ),
        ends("{ let b = 1; if (true) { b = 3; } return b; }", "Done 3"),
        ends(
            "{ let l = [1, 2, 3]; let n = 0; for (let x of l) { l = []; n = n + x; } return n; }",
            "Done 6",
        ),
        ends(
            "{ let i = 0; while (i < 10000) { i = i + 1; } return i; }",
            "Done 10000",
        ),
        ends("{ let b = 1; }", "Done null"),
        ends(
            "{ let l = []; for (let b of range(0, 63)) { l = [l]; } }",
            "Done null",
        ),
        ends("len(range(0, 999992))", "Done 999992"),
        ends("len(range(0, 999993))", "Failed OutOfFuel "),
        ends("range(0, 16384)", "Failed TooLarge value"),
        ends("len(range(0, 16383))", "Done 16383"),
    ]
}

/// As many answers as a pull may take.
const ANSWERS: [&str; 64] = ["1"; 64];

fn fetches() -> [Row; 5] {
    [
        Row {
            answers: &ANSWERS,
            ..ends(
                "{ let s = 0; for (let b of range(0, 64)) { s = s + fetch(\"k\"); } return s; }",
                "Done 64",
            )
        },
        Row {
            answers: &ANSWERS,
            ..ends(
                "{ for (let b of range(0, 65)) { let c = fetch(\"k\"); } }",
                "Failed TooManyFetches fetch",
            )
        },
        ends("[fetch(\"k\"), fetch(\"l\")]", "Needs k"),
        Row {
            answers: &["5"],
            ..ends(
                "{ let t = \"k\"; for (let b of range(0, 10)) { t = t + t; } return fetch(slice(t, 1, 1024)); }",
                "Done 5",
            )
        },
        ends(
            "{ let t = \"k\"; for (let b of range(0, 10)) { t = t + t; } return fetch(t); }",
            "Failed TooLarge fetch",
        ),
    ]
}

fn pulls() -> [Row; 10] {
    [
        ends("fetch(\"k\") + a", "Needs k"),
        Row {
            answers: &["5"],
            ..ends("fetch(\"k\") + a", "Done 7")
        },
        Row {
            answers: &["!gone"],
            ..ends("fetch(\"k\") + a", "Failed FetchFailed gone")
        },
        Row {
            answers: &["1"],
            ..ends("[fetch(\"k\"), fetch(\"l\")]", "Needs l")
        },
        Row {
            made: 1,
            ..ends("{ yield 1; yield 2; }", "Paused")
        },
        Row {
            pulls: 2,
            made: 2,
            ..ends("{ yield 1; yield 2; }", "Paused")
        },
        Row {
            pulls: 3,
            made: 2,
            ..ends("{ yield 1; yield 2; }", "Done null")
        },
        Row {
            made: 0,
            ..ends("{ yield range(0, 16384); }", "Failed TooLarge value")
        },
        Row {
            pulls: 2,
            made: 1,
            ..ends("{ yield 1; yield fetch(\"k\"); }", "Needs k")
        },
        Row {
            pulls: 2,
            made: 2,
            ..ends(
                "{ yield len(range(0, 999000)); yield len(range(0, 999000)); }",
                "Paused",
            )
        },
    ]
}

fn cleanups() -> [Row; 4] {
    [
        Row {
            cleanups: 1,
            ..ends("{ cleanup a; return 1; }", "Done 1")
        },
        Row {
            cleanups: 16,
            ..ends(
                "{ for (let b of range(0, 16)) { cleanup b; } }",
                "Done null",
            )
        },
        Row {
            cleanups: 16,
            ..ends(
                "{ for (let b of range(0, 17)) { cleanup b; } }",
                "Failed TooLarge cleanup",
            )
        },
        ends("{ cleanup range(0, 1024); }", "Failed TooLarge cleanup"),
    ]
}

fn answers(alloc: Global, texts: &[&str]) -> Result<Items<Answer>, Fail> {
    let mut all = Items::new(alloc);
    for text in texts {
        all.push(answer(alloc, text)?)?;
    }
    Ok(all)
}

fn answer(alloc: Global, text: &str) -> Result<Answer, Fail> {
    if text.starts_with('!') {
        return Ok(Answer::Failure(Text::from_str(alloc, &text[1..])?));
    }
    match Value::from_json(alloc, text.as_bytes()) {
        Ok(value) => Ok(Answer::Value(value)),
        Err(_) => Err("no JSON".into()),
    }
}

fn failed(alloc: Global, error: &CellError) -> Result<String, Fail> {
    let kind = kind_name(error.kind);
    let detail = error.detail.as_str();
    Ok(format!(in alloc; "Failed {kind} {detail}")?)
}

fn told(alloc: Global, ending: &Ending) -> Result<String, Fail> {
    match ending {
        Ending::Paused => Ok(String::from_str(alloc, "Paused")?),
        Ending::Needs(key) => {
            let key = key.as_str();
            Ok(format!(in alloc; "Needs {key}")?)
        }
        Ending::Done(value) => {
            let json = value.to_json(alloc)?;
            let json = json.as_str();
            Ok(format!(in alloc; "Done {json}")?)
        }
        Ending::Failed(error) => failed(alloc, error),
    }
}

fn segment(alloc: Global, row: &Row) -> Result<Segment, Fail> {
    let Ok(cell) = parse_cell(alloc, row.cell) else {
        return Err("refused".into());
    };
    let mut inputs = Pairs::new(alloc);
    inputs.put(Text::from_str(alloc, "a")?, Value::Int(2))?;
    let answers = answers(alloc, row.answers)?;
    Ok(Segment {
        cell,
        inputs,
        answers,
        pulls: row.pulls,
    })
}

fn check<R: std::process::Abort>(rt: &R, alloc: Global, row: &Row) -> Result<(), Fail> {
    let segment = segment(alloc, row)?;
    let Ok(finished) = evaluate(alloc, segment) else {
        return Err("memory".into());
    };
    let end = finished.result();
    let ending = told(alloc, &end.ending)?;
    assert_eq!(rt; ending.as_str(), row.ending);
    assert_eq!(rt; end.made, row.made);
    assert_eq!(rt; end.last.is_some(), 0 < row.made);
    assert_eq!(rt; end.cleanups.len(), row.cleanups);
    Ok(())
}

#[test]
fn cells_fail(rt: HostRuntime) -> Result<(), Fail> {
    for row in errors() {
        check(&rt, rt.alloc(), &row)?;
    }
    Ok(())
}

#[test]
fn cells_compute(rt: HostRuntime) -> Result<(), Fail> {
    for row in values() {
        check(&rt, rt.alloc(), &row)?;
    }
    Ok(())
}

#[test]
fn cells_fetch(rt: HostRuntime) -> Result<(), Fail> {
    for row in fetches() {
        check(&rt, rt.alloc(), &row)?;
    }
    Ok(())
}

#[test]
fn charges_are_counted(rt: HostRuntime) -> Result<(), Fail> {
    let alloc = rt.alloc();
    let loops = ends(
        "x = { let i = 0; while (i < 10000) { i = i + 1; } return i; }",
        "",
    );
    assert_eq!(rt; charges(alloc, &segment(alloc, &loops)?)?, 70008);
    let sum = ends("1 + 2", "");
    assert_eq!(rt; charges(alloc, &segment(alloc, &sum)?)?, 3);
    Ok(())
}

#[test]
fn cells_pause(rt: HostRuntime) -> Result<(), Fail> {
    for row in pulls() {
        check(&rt, rt.alloc(), &row)?;
    }
    for row in cleanups() {
        check(&rt, rt.alloc(), &row)?;
    }
    law_of_answers();
    law_of_pulls();
    law_of_loops();
    law_of_plain_cells();
    Ok(())
}

#[test]
fn an_evaluation_keeps_its_segment(rt: HostRuntime) -> Result<(), Fail> {
    let alloc = rt.alloc();
    let Ok(finished) = evaluate(alloc, segment(alloc, &ends("1", ""))?) else {
        return Err("memory".into());
    };
    assert_eq!(rt; finished.segment().pulls, 1);
    assert_eq!(rt; finished.result().made, 0);
    let end = finished.into_result();
    assert_eq!(rt; told(alloc, &end.ending)?.as_str(), "Done 1");
    Ok(())
}
