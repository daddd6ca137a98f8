//! Texts that are cells, with what is told of each; and texts that are none, with why.
use nb_parser::{ParseError, law_of_cells, law_of_printing, parse_cell};
use nb_syntax::{Body, Cell, Expr, Names, free_names, is_generator, is_plain, print, printed_len};
use nb_value::Text;
use std::alloc::{AllocError, Global};
use std::test::Fail;

// The error as it is told here, which names the kind and the place, and the token's text.
fn told(alloc: Global, error: &ParseError) -> Result<Text, Fail> {
    let line = match error {
        ParseError::Lex(fault) => format!(in alloc; "Lex {fault:?}")?,
        ParseError::Unexpected(place, token) => {
            let token = token.as_str();
            format!(in alloc; "Unexpected {place} {token}")?
        }
        ParseError::Ended(place) => format!(in alloc; "Ended {place}")?,
        ParseError::TooDeep(place) => format!(in alloc; "TooDeep {place}")?,
        ParseError::Memory => format!(in alloc; "Memory")?,
    };
    Ok(Text::from_string(line))
}

// The printed cell, or the error.
fn read(alloc: Global, text: &str) -> Result<Text, Fail> {
    match parse_cell(alloc, text) {
        Ok(cell) => {
            let printed = print(alloc, &cell);
            drop(cell);
            Ok(printed?)
        }
        Err(error) => told(alloc, &error),
    }
}

// Texts, with the cells as they are printed.
fn cells() -> [(&'static str, &'static str); 18] {
    [
        ("x=1", "x = 1"),
        ("x=(1+2)*a.b", "x = (1 + 2) * a.b"),
        (" (1) ", "1"),
        ("x = (((1+2)))*a . b [ 0 ]", "x = (1 + 2) * a.b[0]"),
        ("a-(b-c)-d", "a - (b - c) - d"),
        ("-(-a)==!b", "-(-a) == !b"),
        ("a||b&&c||(d||e)", "a || b && c || (d || e)"),
        ("a<b?c:(d?e:f)", "a < b ? c : (d ? e : f)"),
        ("[1,[],{}]", "[1, [], {}]"),
        ("x=\"\\\"\\\\\\n\\r\\t\"", "x = \"\\\"\\\\\\n\\r\\t\""),
        (
            "slice(len,sum([1]),fetch(\"u\\n\"))",
            "slice(len, sum([1]), fetch(\"u\\n\"))",
        ),
        ("{}", "{}"),
        ("{a: 1}", "{\"a\": 1}"),
        ("{\"a\": 1, b: null}", "{\"a\": 1, \"b\": null}"),
        ("{a = 1;}", "{ a = 1; }"),
        ("g={ yield 1; }", "g = { yield 1; }"),
        (
            "{let a=0;while(a<3){a=a+1;}for(let i of a){}return i;}",
            "{ let a = 0; while (a < 3) { a = a + 1; } for (let i of a) {} return i; }",
        ),
        (
            "{if(a){throw 1;}else if(b){cleanup 2;}else{if(true){}}}",
            "{ if (a) { throw 1; } else if (b) { cleanup 2; } else { if (true) {} } }",
        ),
    ]
}

// Texts, with why they are no cells.
fn refusals() -> [(&'static str, &'static str); 25] {
    [
        ("x = 1 +", "Ended 7"),
        ("x = )", "Unexpected 4 )"),
        ("foo(1)", "Unexpected 3 ("),
        ("x = #", "Lex BadCharacter(4)"),
        ("x = & 1", "Lex BadCharacter(4)"),
        ("x = ) \"", "Lex OpenText(6)"),
        ("", "Ended 0"),
        (" \n", "Ended 2"),
        ("x =", "Ended 3"),
        ("x = 1 y", "Unexpected 6 y"),
        ("x = y = 1", "Unexpected 6 ="),
        ("(x) = 1", "Unexpected 4 ="),
        ("{1}", "Unexpected 1 1"),
        ("{a", "Ended 2"),
        ("{a + 1}", "Unexpected 3 +"),
        ("{a: 1,}", "Unexpected 6 }"),
        ("{\"a\" = 1;}", "Unexpected 5 ="),
        ("{yield 1}", "Unexpected 8 }"),
        ("[1 2]", "Unexpected 3 2"),
        ("a < b < c", "Unexpected 6 <"),
        ("--a", "Unexpected 1 -"),
        ("len(1, 2)", "Unexpected 5 ,"),
        ("has(1)", "Unexpected 5 )"),
        ("\u{a0}", "Lex BadCharacter(0)"),
        (
            "x = \"\u{e9}\" \"\u{e9}\u{e9}\"",
            "Unexpected 9 \"\u{e9}\u{e9}\"",
        ),
    ]
}

fn keywords() -> [&'static str; 14] {
    [
        "let", "if", "else", "while", "for", "of", "yield", "return", "throw", "cleanup", "fetch",
        "true", "false", "null",
    ]
}

// Whether the text is one of a cell.
fn is_read(alloc: Global, text: &str) -> bool {
    parse_cell(alloc, text).is_ok()
}

#[test]
fn reads_cells(rt: HostRuntime) -> Result<(), Fail> {
    let alloc = rt.alloc();
    for (text, printed) in cells() {
        assert_eq!(rt; read(alloc, text)?.as_str(), printed);
        assert_eq!(rt; read(alloc, printed)?.as_str(), printed);
    }
    for (text, error) in refusals() {
        assert_eq!(rt; read(alloc, text)?.as_str(), error);
    }
    Ok(())
}

#[test]
fn takes_no_keyword_for_a_name(rt: HostRuntime) -> Result<(), Fail> {
    let alloc = rt.alloc();
    for keyword in keywords() {
        let text = format!(in alloc; "a.{keyword}")?;
        let error = format!(in alloc; "Unexpected 2 {keyword}")?;
        assert_eq!(rt; read(alloc, text.as_str())?.as_str(), error.as_str());
        let text = format!(in alloc; "{keyword} = 1")?;
        assert!(rt; !is_read(alloc, text.as_str()));
    }
    Ok(())
}

// What stands behind 64 open brackets, with why the text is no cell.
fn deep() -> [(&'static str, &'static str); 7] {
    [
        ("[", "TooDeep 64"),
        ("fetch(", "TooDeep 69"),
        ("fetch", "Ended 69"),
        ("fetch)", "Unexpected 69 )"),
        ("f(", "Unexpected 65 ("),
        ("len (", "TooDeep 68"),
        (" {", "TooDeep 65"),
    ]
}

#[test]
fn counts_open_brackets(rt: HostRuntime) -> Result<(), Fail> {
    let alloc = rt.alloc();
    let open = "[".repeat(alloc, 64)?;
    let open = open.as_str();
    for (more, error) in deep() {
        let text = format!(in alloc; "{open}{more}")?;
        assert_eq!(rt; read(alloc, text.as_str())?.as_str(), error);
    }
    let close = "]".repeat(alloc, 64)?;
    let close = close.as_str();
    let whole = format!(in alloc; "{open}{close}")?;
    assert_eq!(rt; read(alloc, whole.as_str())?.as_str(), whole.as_str());
    Ok(())
}

// Texts of cells: the name of each, what its body is, which kind of cell it is, and its free names.
fn kinds() -> [(&'static str, &'static str); 21] {
    [
        ("1", "one plain:"),
        ("x = (1)", "x = one plain:"),
        ("{}", "record plain:"),
        ("{a: 1}", "record plain:"),
        ("{\"a\": 1}", "record plain:"),
        ("{a = 1;}", "block plain:"),
        ("{ yield 1; }", "block generator:"),
        ("a + b.c + a", "expression plain: a b"),
        ("{\"k\": v}.w[i]", "expression plain: v i"),
        (
            "x = { let a = b; return a + c + b; }",
            "x = block plain: b c",
        ),
        ("{ let a = a; return a; }", "block plain: a"),
        ("{ let a = 1; let a = a + b; return a; }", "block plain: b"),
        (
            "{ for (let i of i) { i = i + j; } return i; }",
            "block plain: i j",
        ),
        (
            "{ if (a) { let b = 1; } else if (c) { let d = 1; } return b + d; }",
            "block plain: a c b d",
        ),
        ("{ a = b; }", "block plain: b"),
        ("{ throw a ? b : !c; }", "block plain: a b c"),
        (
            "{ while (true) { if (a) { yield b; } } }",
            "block generator: a b",
        ),
        (
            "{ if (a) {} else { for (let c of b) { yield c; } } }",
            "block generator: a b",
        ),
        ("{ if (a) { cleanup b; } }", "block neither: a b"),
        ("[fetch(\"k\"), len(a)]", "expression neither: a"),
        ("{ let a = {\"k\": b[fetch(c)]}; }", "block neither: b c"),
    ]
}

fn body_kind(body: &Body) -> &'static str {
    match body {
        Body::Block(_) => "block ",
        Body::Expr(Expr::Rec(_)) => "record ",
        Body::Expr(Expr::Int(1)) => "one ",
        Body::Expr(_) => "expression ",
    }
}

fn cell_kind(cell: &Cell) -> &'static str {
    match (is_generator(cell), is_plain(cell)) {
        (true, true) => "both:",
        (true, false) => "generator:",
        (false, true) => "plain:",
        (false, false) => "neither:",
    }
}

fn push_names(line: &mut String, names: &Names) -> Result<(), AllocError> {
    for name in names.as_slice() {
        line.push_str(" ")?;
        line.push_str(name.as_str())?;
    }
    Ok(())
}

// What `kinds` tells of the cell.
fn about(alloc: Global, cell: &Cell) -> Result<String, AllocError> {
    let mut line = String::new(alloc);
    if let Some(name) = &cell.name {
        line.push_str(name.as_str())?;
        line.push_str(" = ")?;
    }
    line.push_str(body_kind(&cell.body))?;
    line.push_str(cell_kind(cell))?;
    let names = free_names(alloc, cell)?;
    push_names(&mut line, &names)?;
    Ok(line)
}

fn is_copied(alloc: Global, cell: &Cell) -> Result<bool, AllocError> {
    Ok(cell.copy(alloc)?.same(cell))
}

// Whether the text is one of this cell.
fn is_text_of(alloc: Global, text: &str, cell: &Cell) -> bool {
    match parse_cell(alloc, text) {
        Ok(other) => other.same(cell),
        Err(_) => false,
    }
}

// Whether the printed cell has the length that is told before, and is read as the same cell.
fn is_printed(alloc: Global, cell: &Cell) -> Result<bool, AllocError> {
    let printed = print(alloc, cell)?;
    let text = printed.as_str();
    Ok(printed_len(cell) == text.len() as u64 && is_text_of(alloc, text, cell))
}

#[test]
fn tells_of_cells(rt: HostRuntime) -> Result<(), Fail> {
    let alloc = rt.alloc();
    for (text, line) in kinds() {
        let Ok(cell) = parse_cell(alloc, text) else {
            return Err("refused".into());
        };
        let found = about(alloc, &cell);
        let copied = is_copied(alloc, &cell);
        let printed = is_printed(alloc, &cell);
        drop(cell);
        assert_eq!(rt; found?.as_str(), line);
        assert!(rt; copied? && printed?);
    }
    Ok(())
}

#[test]
fn tells_one_cell_from_another(rt: HostRuntime) -> Result<(), Fail> {
    let alloc = rt.alloc();
    let Ok(cell) = parse_cell(alloc, "x=(1+2)*a.b") else {
        return Err("refused".into());
    };
    let length = printed_len(&cell);
    let is_same = is_text_of(alloc, "x = ((1) + 2) * (a).b", &cell);
    let is_other = is_text_of(alloc, "y = (1 + 2) * a.b", &cell);
    drop(cell);
    assert_eq!(rt; length, 17);
    assert!(rt; is_same && !is_other);
    Ok(())
}

#[test]
fn states_its_laws(rt: HostRuntime) {
    law_of_cells();
    law_of_printing();
}
