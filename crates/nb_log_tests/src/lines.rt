//! What is read of lines, and which line is the first bad one, for which reason.
use nb_lines::{BadReason, LineFail, Scripts, line_number, read_lines};
use nb_log::{Entry, Refusal, push_entries};
use nb_value::{Bytes, Tree};
use std::alloc::Global;
use std::mem::drop;
use std::test::Fail;

const GOOD: &str = "{\"do\":\"cell\",\"module\":0,\"cell\":\"x = 1 + 2\"}";

// Lines that are read, with their editor and the object that they are written as.
const READ: [(&str, u8, &str); 20] = [
    ("{\"do\":\"module\"}", 0, "{\"do\":\"module\"}"),
    (
        "{\"do\":\"variable\",\"module\":4294967295}",
        0,
        "{\"do\":\"variable\",\"module\":4294967295,\"observed\":true}",
    ),
    (
        " {\"observed\":false,\"editor\":7,\"module\":0,\"do\":\"variable\"}\r",
        7,
        "{\"do\":\"variable\",\"module\":0,\"observed\":false}",
    ),
    (
        "{\"do\":\"cell\",\"module\":1,\"cell\":\"x=1+2\",\"observed\":false}",
        0,
        "{\"cell\":\"x = 1 + 2\",\"do\":\"cell\",\"module\":1,\"observed\":false}",
    ),
    (
        "{\"do\":\"cell\",\"module\":0,\"cell\":\"\\n{ yield fetch(1); cleanup 1; }\\t\"}",
        0,
        "{\"cell\":\"{ yield fetch(1); cleanup 1; }\",\"do\":\"cell\",\"module\":0,\"observed\":true}",
    ),
    (
        "{\"do\":\"define\",\"variable\":7,\"cell\":\"1\",\"editor\":0}",
        0,
        "{\"cell\":\"1\",\"do\":\"define\",\"variable\":7}",
    ),
    (
        "{\"do\":\"import\",\"variable\":2,\"name\":\"len\",\"from\":0}",
        0,
        "{\"alias\":\"len\",\"do\":\"import\",\"from\":0,\"name\":\"len\",\"variable\":2}",
    ),
    (
        "{\"do\":\"import\",\"variable\":2,\"name\":\"a\",\"alias\":\"$_0\",\"from\":0}",
        0,
        "{\"alias\":\"$_0\",\"do\":\"import\",\"from\":0,\"name\":\"a\",\"variable\":2}",
    ),
    (
        "{\"do\":\"delete\",\"variable\":0}",
        0,
        "{\"do\":\"delete\",\"variable\":0}",
    ),
    (
        "{\"do\":\"redefine\",\"module\":0,\"cell\":\"x = 1\"}",
        0,
        "{\"cell\":\"x = 1\",\"do\":\"redefine\",\"module\":0}",
    ),
    (
        "{\"do\":\"derive\",\"module\":0,\"with\":[],\"source\":1}",
        0,
        "{\"do\":\"derive\",\"module\":0,\"source\":1,\"with\":[]}",
    ),
    (
        "{\"do\":\"derive\",\"module\":0,\"with\":[\"a\",{\"name\":\"b\"},{\"alias\":\"d\",\"name\":\"c\"}],\"source\":1}",
        0,
        "{\"do\":\"derive\",\"module\":0,\"source\":1,\"with\":[{\"alias\":\"a\",\"name\":\"a\"},{\"alias\":\"b\",\"name\":\"b\"},{\"alias\":\"d\",\"name\":\"c\"}]}",
    ),
    ("{\"do\":\"frame\",\"editor\":3}", 3, "{\"do\":\"frame\"}"),
    ("{\"do\":\"rest\"}", 0, "{\"do\":\"rest\"}"),
    ("{\"do\":\"dispose\"}", 0, "{\"do\":\"dispose\"}"),
    (
        "{\"do\":\"settle\",\"ticket\":1,\"value\":{\"a\":[null,-1]}}",
        0,
        "{\"do\":\"settle\",\"ticket\":1,\"value\":{\"a\":[null,-1]}}",
    ),
    (
        "{\"do\":\"settle\",\"ticket\":1,\"error\":\"\"}",
        0,
        "{\"do\":\"settle\",\"error\":\"\",\"ticket\":1}",
    ),
    (
        "{\"do\":\"settle\",\"key\":\"k\",\"value\":true}",
        0,
        "{\"do\":\"settle\",\"key\":\"k\",\"value\":true}",
    ),
    (
        "{\"do\":\"settle\",\"key\":\"\",\"error\":\"e\"}",
        0,
        "{\"do\":\"settle\",\"error\":\"e\",\"key\":\"\"}",
    ),
    (
        "{\"do\":\"frame\",\"do\":\"cell\",\"module\":1,\"cell\":\"x = )\",\"module\":0,\"cell\":\"1\"}",
        0,
        "{\"cell\":\"1\",\"do\":\"cell\",\"module\":0,\"observed\":true}",
    ),
];

// Lines of one or two faults, with the number of the first reason and the key that it names.
const FAULTS: [(&str, u8, &str); 20] = [
    ("{\"do\":\"fra", 3, ""),
    ("{\"do\":\"frame\"} {}", 3, ""),
    ("{\"do\":1.5e999,\"x\":0}", 3, ""),
    ("[\"do\"]", 4, ""),
    ("{\"x\":0}", 7, "do"),
    ("{\"do\":[],\"x\":0}", 8, "do"),
    ("{\"do\":\"Frame\",\"x\":0}", 5, ""),
    (
        "{\"do\":\"frame\",\"x\":0,\"module\":0,\"editor\":8}",
        6,
        "module",
    ),
    ("{\"do\":\"cell\",\"\":0,\"a\":0}", 6, ""),
    ("{\"do\":\"cell\",\"editor\":8}", 8, "editor"),
    ("{\"do\":\"frame\",\"editor\":-0}", 8, "editor"),
    ("{\"do\":\"cell\",\"cell\":\")\"}", 7, "module"),
    (
        "{\"do\":\"cell\",\"module\":0.0,\"observed\":0}",
        8,
        "module",
    ),
    ("{\"do\":\"cell\",\"module\":4294967296}", 8, "module"),
    ("{\"do\":\"cell\",\"module\":0,\"observed\":0}", 7, "cell"),
    (
        "{\"do\":\"cell\",\"module\":0,\"cell\":1,\"observed\":0}",
        8,
        "cell",
    ),
    (
        "{\"do\":\"cell\",\"module\":0,\"cell\":\")\",\"observed\":0}",
        8,
        "observed",
    ),
    ("{\"do\":\"redefine\",\"module\":0,\"cell\":\"1\"}", 9, ""),
    (
        "{\"do\":\"redefine\",\"module\":0,\"cell\":\"1 +\"}",
        10,
        "",
    ),
    (
        "{\"do\":\"import\",\"variable\":1,\"name\":\"if\"}",
        8,
        "name",
    ),
];

// The same of imports, derives and settlements.
const MORE_FAULTS: [(&str, u8, &str); 20] = [
    (
        "{\"do\":\"import\",\"variable\":1,\"name\":\"a\",\"alias\":\"1\"}",
        8,
        "alias",
    ),
    (
        "{\"do\":\"import\",\"variable\":1,\"name\":\"a\",\"alias\":null}",
        8,
        "alias",
    ),
    (
        "{\"do\":\"import\",\"variable\":1,\"name\":\"a\",\"alias\":\"b\"}",
        7,
        "from",
    ),
    ("{\"do\":\"derive\",\"module\":0,\"source\":-1}", 7, "with"),
    ("{\"do\":\"derive\",\"module\":0,\"with\":{}}", 8, "with"),
    (
        "{\"do\":\"derive\",\"module\":0,\"with\":[\"a\",\"b c\"]}",
        8,
        "with",
    ),
    (
        "{\"do\":\"derive\",\"module\":0,\"with\":[{\"alias\":\"a\"}]}",
        8,
        "with",
    ),
    (
        "{\"do\":\"derive\",\"module\":0,\"with\":[{\"name\":\"a\",\"as\":\"b\"}]}",
        8,
        "with",
    ),
    (
        "{\"do\":\"derive\",\"module\":0,\"with\":[{\"name\":\"a\",\"alias\":0}]}",
        8,
        "with",
    ),
    (
        "{\"do\":\"derive\",\"module\":0,\"with\":[\"a\"]}",
        7,
        "source",
    ),
    ("{\"do\":\"settle\",\"value\":0,\"error\":0}", 7, "ticket"),
    ("{\"do\":\"settle\",\"ticket\":-1,\"key\":0}", 8, "key"),
    ("{\"do\":\"settle\",\"ticket\":-1}", 7, "value"),
    (
        "{\"do\":\"settle\",\"key\":0,\"value\":0.5,\"error\":0}",
        8,
        "error",
    ),
    (
        "{\"do\":\"settle\",\"ticket\":-1,\"value\":0.5}",
        8,
        "ticket",
    ),
    ("{\"do\":\"settle\",\"key\":0,\"error\":0}", 8, "key"),
    ("{\"do\":\"settle\",\"key\":\"\",\"error\":0}", 8, "error"),
    ("{\"do\":\"settle\",\"key\":\"\",\"value\":0.5}", 8, "value"),
    (
        "{\"do\":\"settle\",\"key\":\"\",\"value\":9223372036854775808}",
        8,
        "value",
    ),
    (
        "{\"do\":\"settle\",\"ticket\":0,\"value\":0,\"with\":[]}",
        6,
        "with",
    ),
];

// Inputs, with the number of the first bad line, or 0.
const INPUTS: [(&str, u32); 8] = [
    ("", 0),
    ("\n", 0),
    ("\n \t\r\n{\"do\":\"rest\"}\r\n", 0),
    ("\n \t\r\nx", 3),
    ("{\"do\":\"rest\"}\n\nx\ny", 3),
    ("{\"do\":\"rest\"}\n{}\n[]", 2),
    ("x\n{\"do\":\"rest\"}", 1),
    ("{\"do\":\"rest\"}{\"do\":\"rest\"}", 1),
];

// The number of a reason, and the key that it names.
fn parts(reason: &BadReason) -> (u8, &str) {
    match reason {
        BadReason::LineTooLong => (1, ""),
        BadReason::TooManyLines => (2, ""),
        BadReason::NotJson => (3, ""),
        BadReason::NotObject => (4, ""),
        BadReason::UnknownDo => (5, ""),
        BadReason::UnknownField(key) => (6, key.as_str()),
        BadReason::MissingField(key) => (7, key.as_str()),
        BadReason::WrongField(key) => (8, key.as_str()),
        BadReason::Unnamed => (9, ""),
        BadReason::BadCell(_) => (10, ""),
    }
}

// Whether the first bad line of an input is this one, for this reason.
fn is_refused(alloc: Global, input: &[u8], at: u32, number: u8, key: &str) -> bool {
    match read_lines(alloc, input) {
        Err(LineFail::Bad { line, reason }) => {
            let (found, named) = parts(&reason);
            line == at && found == number && named == key
        }
        _ => false,
    }
}

// The number of the first bad line, or 0.
fn first_bad(alloc: Global, input: &[u8]) -> Result<u32, Fail> {
    match read_lines(alloc, input) {
        Ok(_) => Ok(0),
        Err(LineFail::Bad { line, .. }) => Ok(line),
        Err(LineFail::Memory) => Err("memory".into()),
    }
}

#[test]
fn tells_the_first_reason(rt: HostRuntime) -> Result<(), Fail> {
    let alloc = rt.alloc();
    for (line, number, key) in &FAULTS {
        assert!(rt;
            is_refused(alloc, line.as_bytes(), 1, *number, key),
            "{line}"
        );
    }
    for (line, number, key) in &MORE_FAULTS {
        assert!(rt;
            is_refused(alloc, line.as_bytes(), 1, *number, key),
            "{line}"
        );
    }
    for (input, bad) in &INPUTS {
        assert_eq!(rt; first_bad(alloc, input.as_bytes())?, *bad, "{input}");
    }
    let not_utf8 = b"{\"do\":\"\xff\",\"do\":\"rest\"}";
    assert!(rt; is_refused(alloc, not_utf8, 1, 3, ""));
    Ok(())
}

// Whether a good line with spaces behind it, as wide as this, is refused as too long.
fn is_too_long(alloc: Global, width: usize) -> Result<bool, Fail> {
    let mut line = Vec::from_slice(alloc, GOOD.as_bytes())?;
    line.resize(width, 32)?;
    let refused = is_refused(alloc, &line, 1, 1, "");
    drop(line);
    Ok(refused)
}

// Whether so many empty lines are refused at the line past the most.
fn are_too_many(alloc: Global, count: usize) -> Result<bool, Fail> {
    let lines = vec![in alloc; b'\n'; count]?;
    let refused = is_refused(alloc, &lines, 65_537, 2, "");
    drop(lines);
    Ok(refused)
}

#[test]
fn keeps_the_limits_of_lines(rt: HostRuntime) -> Result<(), Fail> {
    let alloc = rt.alloc();
    assert_eq!(rt;
        [is_too_long(alloc, 65_536)?, is_too_long(alloc, 65_537)?],
        [false, true]
    );
    assert_eq!(rt;
        [are_too_many(alloc, 65_536)?, are_too_many(alloc, 65_537)?],
        [false, true]
    );
    Ok(())
}

#[test]
fn counts_lines_that_say_something(rt: HostRuntime) -> Result<(), Fail> {
    let input = b"\n{}\n \t\n\n[]\r\nx";
    let numbers = [
        line_number(input, 0),
        line_number(input, 1),
        line_number(input, 2),
        line_number(input, 3),
    ];
    assert_eq!(rt; numbers, [2, 5, 6, 0]);
    Ok(())
}

// What the one line that was read is written as, were it refused.
fn written(alloc: Global, scripts: &Scripts) -> Result<Bytes, Fail> {
    let [line] = scripts.as_slice() else {
        return Err("another number of lines".into());
    };
    let entry = Entry::Refused {
        editor: line.editor,
        reason: Refusal::Disposed,
        event: line.event.copy(alloc)?,
    };
    let mut text = Bytes::new(alloc);
    let pushed = push_entries(alloc, &mut text, &[entry]);
    pushed?;
    Ok(text)
}

#[test]
fn reads_each_form(rt: HostRuntime) -> Result<(), Fail> {
    let alloc = rt.alloc();
    for (line, editor, object) in &READ {
        let Ok(scripts) = read_lines(alloc, line.as_bytes()) else {
            return Err("refused".into());
        };
        let text = written(alloc, &scripts);
        drop(scripts);
        let text = text?;
        let wanted = format!(in alloc; "[\"refused\",{editor},20,\"Disposed\",{object}]\n")?;
        assert_eq!(rt; text.as_slice(), wanted.as_bytes(), "{line}");
    }
    Ok(())
}
