//! Calls of each function at values that were worked out by hand.
use nb_builtins::{ApplyFail, apply};
use nb_value::{Function, Items, Text, Value};
use std::alloc::{AllocError, Global};
use std::process::Abort;
use std::test::Fail;

/// The fuel of a pull.
const MUCH: u64 = 1_000_000;

/// A function, its arguments as a list in JSON, the fuel, and the value in JSON or the error's kind and detail.
type Row = (Function, &'static str, u64, &'static str);

const COUNTED: [Row; 21] = [
    (Function::Len, "[\"\"]", MUCH, "0"),
    (Function::Len, "[\"é\"]", MUCH, "1"),
    (Function::Len, "[\"a😀é\"]", MUCH, "3"),
    (Function::Len, "[[1, [2, 3]]]", MUCH, "2"),
    (Function::Len, "[{\"b\": 1, \"a\": 2}]", MUCH, "2"),
    (Function::Len, "[null]", MUCH, "WrongKind len"),
    (Function::Len, "[12]", MUCH, "WrongKind len"),
    (Function::Sum, "[[]]", MUCH, "0"),
    (Function::Sum, "[[1, -5, 7]]", MUCH, "3"),
    (
        Function::Sum,
        "[[9223372036854775807, 1]]",
        MUCH,
        "Overflow sum",
    ),
    (
        Function::Sum,
        "[[9223372036854775807, 1, -1]]",
        MUCH,
        "Overflow sum",
    ),
    (
        Function::Sum,
        "[[9223372036854775807, -1, 1]]",
        MUCH,
        "9223372036854775807",
    ),
    (
        Function::Sum,
        "[[-9223372036854775808, -1]]",
        MUCH,
        "Overflow sum",
    ),
    (
        Function::Sum,
        "[[9223372036854775807, 1, \"a\"]]",
        MUCH,
        "Overflow sum",
    ),
    (
        Function::Sum,
        "[[9223372036854775807, \"a\", 1]]",
        MUCH,
        "WrongKind sum",
    ),
    (Function::Sum, "[\"12\"]", MUCH, "WrongKind sum"),
    (Function::Abs, "[-7]", MUCH, "7"),
    (Function::Abs, "[7]", MUCH, "7"),
    (
        Function::Abs,
        "[-9223372036854775807]",
        MUCH,
        "9223372036854775807",
    ),
    (
        Function::Abs,
        "[-9223372036854775808]",
        MUCH,
        "Overflow abs",
    ),
    (Function::Abs, "[[1]]", MUCH, "WrongKind abs"),
];

const EXTREMES: [Row; 12] = [
    (Function::Min, "[[3, 1, 2]]", MUCH, "1"),
    (Function::Max, "[[3, -1, 2]]", MUCH, "3"),
    (Function::Min, "[[\"b\", \"ab\", \"a\"]]", MUCH, "\"a\""),
    (Function::Max, "[[\"z\", \"é\", \"a\"]]", MUCH, "\"é\""),
    (Function::Min, "[[]]", MUCH, "OutOfRange min"),
    (Function::Max, "[[]]", MUCH, "OutOfRange max"),
    (Function::Min, "[[1, \"a\"]]", MUCH, "WrongKind min"),
    (Function::Max, "[[[1]]]", MUCH, "WrongKind max"),
    (Function::Min, "[\"\"]", MUCH, "WrongKind min"),
    (
        Function::Sort,
        "[[{\"a\": 1}, [2], 3, \"b\", \"a\", -1, true, [1, 9], null, 3]]",
        MUCH,
        "[null,true,-1,3,3,\"a\",\"b\",[1,9],[2],{\"a\":1}]",
    ),
    (Function::Sort, "[[]]", MUCH, "[]"),
    (Function::Sort, "[\"ba\"]", MUCH, "WrongKind sort"),
];

const RANGES: [Row; 21] = [
    (Function::Range, "[0, 3]", MUCH, "[0,1,2]"),
    (Function::Range, "[-2, 1]", MUCH, "[-2,-1,0]"),
    (Function::Range, "[3, 3]", MUCH, "[]"),
    (Function::Range, "[5, -5]", MUCH, "[]"),
    (
        Function::Range,
        "[9223372036854775805, 9223372036854775807]",
        MUCH,
        "[9223372036854775805,9223372036854775806]",
    ),
    (
        Function::Range,
        "[-9223372036854775808, 9223372036854775807]",
        MUCH,
        "OutOfFuel ",
    ),
    (Function::Range, "[\"0\", 3]", MUCH, "WrongKind range"),
    (Function::Range, "[0, null]", MUCH, "WrongKind range"),
    (Function::Slice, "[\"héllo\", 1, 3]", MUCH, "\"él\""),
    (Function::Slice, "[\"abc\", 0, 3]", MUCH, "\"abc\""),
    (Function::Slice, "[\"é\", 1, 1]", MUCH, "\"\""),
    (Function::Slice, "[\"é\", 0, 2]", MUCH, "OutOfRange slice"),
    (Function::Slice, "[\"abc\", 2, 1]", MUCH, "OutOfRange slice"),
    (
        Function::Slice,
        "[\"abc\", -1, 1]",
        MUCH,
        "OutOfRange slice",
    ),
    (Function::Slice, "[[1, [2], 3], 1, 3]", MUCH, "[[2],3]"),
    (Function::Slice, "[[1, 2], 0, 3]", MUCH, "OutOfRange slice"),
    (Function::Slice, "[{}, 0, 0]", MUCH, "WrongKind slice"),
    (
        Function::Slice,
        "[\"abc\", \"0\", 9]",
        MUCH,
        "WrongKind slice",
    ),
    (Function::Reverse, "[\"aé😀\"]", MUCH, "\"😀éa\""),
    (
        Function::Reverse,
        "[[1, [2, 3], null]]",
        MUCH,
        "[null,[2,3],1]",
    ),
    (Function::Reverse, "[12]", MUCH, "WrongKind reverse"),
];

const RECORDS: [Row; 8] = [
    (
        Function::Keys,
        "[{\"b\": 1, \"\": 2, \"a\": 3}]",
        MUCH,
        "[\"\",\"a\",\"b\"]",
    ),
    (Function::Keys, "[[1]]", MUCH, "WrongKind keys"),
    (
        Function::Values,
        "[{\"b\": [1], \"\": 2, \"a\": 3}]",
        MUCH,
        "[2,3,[1]]",
    ),
    (Function::Values, "[\"a\"]", MUCH, "WrongKind values"),
    (Function::Has, "[{\"a\": null}, \"a\"]", MUCH, "true"),
    (Function::Has, "[{\"ab\": 1}, \"a\"]", MUCH, "false"),
    (Function::Has, "[{\"a\": 1}, 1]", MUCH, "WrongKind has"),
    (Function::Has, "[[\"a\"], \"a\"]", MUCH, "WrongKind has"),
];

const NUMERALS: [Row; 16] = [
    (Function::Text, "[\"a\\n\"]", MUCH, "\"a\\n\""),
    (Function::Text, "[-12]", MUCH, "\"-12\""),
    (
        Function::Text,
        "[[1, {\"a\": \"é\"}, null]]",
        MUCH,
        "\"[1,{\\\"a\\\":\\\"é\\\"},null]\"",
    ),
    (Function::Int, "[\"0\"]", MUCH, "0"),
    (Function::Int, "[\"-1\"]", MUCH, "-1"),
    (
        Function::Int,
        "[\"9223372036854775807\"]",
        MUCH,
        "9223372036854775807",
    ),
    (
        Function::Int,
        "[\"-9223372036854775808\"]",
        MUCH,
        "-9223372036854775808",
    ),
    (
        Function::Int,
        "[\"9223372036854775808\"]",
        MUCH,
        "OutOfRange int",
    ),
    (
        Function::Int,
        "[\"-9223372036854775809\"]",
        MUCH,
        "OutOfRange int",
    ),
    (Function::Int, "[\"-0\"]", MUCH, "OutOfRange int"),
    (Function::Int, "[\"007\"]", MUCH, "OutOfRange int"),
    (Function::Int, "[\"+5\"]", MUCH, "OutOfRange int"),
    (Function::Int, "[\"\"]", MUCH, "OutOfRange int"),
    (Function::Int, "[\"-\"]", MUCH, "OutOfRange int"),
    (Function::Int, "[\"1 \"]", MUCH, "OutOfRange int"),
    (Function::Int, "[5]", MUCH, "WrongKind int"),
];

const PARTS: [Row; 14] = [
    (
        Function::Split,
        "[\"a,b,,c\", \",\"]",
        MUCH,
        "[\"a\",\"b\",\"\",\"c\"]",
    ),
    (
        Function::Split,
        "[\"aaaaa\", \"aa\"]",
        MUCH,
        "[\"\",\"\",\"a\"]",
    ),
    (Function::Split, "[\"\", \",\"]", MUCH, "[\"\"]"),
    (Function::Split, "[\"aéb\", \"é\"]", MUCH, "[\"a\",\"b\"]"),
    (Function::Split, "[\"ab\", \"abc\"]", MUCH, "[\"ab\"]"),
    (Function::Split, "[\"abc\", \"\"]", MUCH, "OutOfRange split"),
    (Function::Split, "[\"abc\", 1]", MUCH, "WrongKind split"),
    (Function::Split, "[null, \"\"]", MUCH, "WrongKind split"),
    (
        Function::Join,
        "[[\"a\", \"\", \"é\"], \", \"]",
        MUCH,
        "\"a, , é\"",
    ),
    (Function::Join, "[[\"a\"], \"-\"]", MUCH, "\"a\""),
    (Function::Join, "[[], \"-\"]", MUCH, "\"\""),
    (
        Function::Join,
        "[[\"a\", 1], \"-\"]",
        MUCH,
        "WrongKind join",
    ),
    (Function::Join, "[[\"a\"], 1]", MUCH, "WrongKind join"),
    (Function::Join, "[\"a\", \"-\"]", MUCH, "WrongKind join"),
];

const FUEL: [Row; 20] = [
    (Function::Len, "[\"abc\"]", 2, "3"),
    (Function::Len, "[\"abc\"]", 1, "OutOfFuel "),
    (Function::Text, "[\"ab\"]", 4, "\"ab\""),
    (Function::Text, "[\"ab\"]", 3, "OutOfFuel "),
    (Function::Range, "[0, 3]", 5, "[0,1,2]"),
    (Function::Range, "[0, 3]", 4, "OutOfFuel "),
    (Function::Range, "[3, 0]", 2, "[]"),
    (Function::Range, "[3, 0]", 1, "OutOfFuel "),
    (Function::Join, "[[\"ab\", \"c\"], \"-\"]", 6, "\"ab-c\""),
    (Function::Join, "[[\"ab\", \"c\"], \"-\"]", 5, "OutOfFuel "),
    (Function::Join, "[[], \"abc\"]", 2, "\"\""),
    (Function::Join, "[[], \"abc\"]", 1, "OutOfFuel "),
    (Function::Keys, "[{\"a\": 1}]", 4, "[\"a\"]"),
    (Function::Keys, "[{\"a\": 1}]", 3, "OutOfFuel "),
    (Function::Slice, "[\"éa\", 0, 1]", 4, "\"é\""),
    (Function::Slice, "[\"éa\", 0, 1]", 3, "OutOfFuel "),
    (Function::Split, "[\"a,b\", \",\"]", 6, "[\"a\",\"b\"]"),
    (Function::Split, "[\"a,b\", \",\"]", 5, "OutOfFuel "),
    (Function::Sum, "[[\"a\"]]", 0, "WrongKind sum"),
    (Function::Join, "[[1], \"\"]", 0, "WrongKind join"),
];

fn args_of(alloc: Global, json: &str) -> Result<Items<Value>, Fail> {
    match Value::from_json(alloc, json.as_bytes()) {
        Ok(Value::List(args)) => Ok(args),
        _ => Err("the arguments are no list".into()),
    }
}

fn shown(alloc: Global, answered: Result<Value, ApplyFail>) -> Result<Text, AllocError> {
    match answered {
        Ok(value) => value.to_json(alloc),
        Err(ApplyFail::Error(error)) => {
            let kind = error.kind;
            let detail = error.detail.as_str();
            Ok(Text::from_string(format!(in alloc; "{kind:?} {detail}")?))
        }
        Err(ApplyFail::Memory) => Err(AllocError),
    }
}

fn answer(alloc: Global, function: Function, args: &Items<Value>, fuel: u64) -> Result<Text, Fail> {
    if args.len() != function.arity() {
        return Err("another number of arguments".into());
    }
    Ok(shown(alloc, apply(alloc, function, args.as_slice(), fuel))?)
}

fn check(rt: &(impl Abort + AllocGlobal), rows: &[Row]) -> Result<(), Fail> {
    let alloc = rt.alloc();
    for (function, args, fuel, expected) in rows {
        let answered = answer(alloc, *function, &args_of(alloc, args)?, *fuel)?;
        assert_eq!(rt;
            answered.as_str(),
            *expected,
            "{}{args} for {fuel}",
            function.name()
        );
    }
    Ok(())
}

#[test]
fn counts_and_adds(rt: HostRuntime) -> Result<(), Fail> {
    check(&rt, &COUNTED)
}

#[test]
fn finds_extremes_and_sorts(rt: HostRuntime) -> Result<(), Fail> {
    check(&rt, &EXTREMES)
}

#[test]
fn ranges_and_slices(rt: HostRuntime) -> Result<(), Fail> {
    check(&rt, &RANGES)
}

#[test]
fn reads_records(rt: HostRuntime) -> Result<(), Fail> {
    check(&rt, &RECORDS)
}

#[test]
fn writes_and_reads_numbers(rt: HostRuntime) -> Result<(), Fail> {
    check(&rt, &NUMERALS)
}

#[test]
fn splits_and_joins(rt: HostRuntime) -> Result<(), Fail> {
    check(&rt, &PARTS)
}

#[test]
fn charges_the_last_unit(rt: HostRuntime) -> Result<(), Fail> {
    check(&rt, &FUEL)
}

// A million and one empty texts, and a separator of 65,535 bytes.
fn long_join(alloc: Global) -> Result<[Value; 2], AllocError> {
    let mut items = Items::new(alloc);
    for _ in 0..1_000_001 {
        items.push(Value::Text(Text::from_string(String::new(alloc))))?;
    }
    let separator = format!(in alloc; "{:65535}", "")?;
    Ok([
        Value::List(items),
        Value::Text(Text::from_string(separator)),
    ])
}

// A text of 65,535,000,000 bytes is refused before it is made.
#[test]
fn makes_no_text_that_is_not_paid(rt: HostRuntime) -> Result<(), Fail> {
    let alloc = rt.alloc();
    let args = long_join(alloc)?;
    let unpaid = apply(alloc, Function::Join, &args, 65_535_000_001);
    assert!(rt; matches!(unpaid, Err(ApplyFail::Error(_))));
    Ok(())
}
