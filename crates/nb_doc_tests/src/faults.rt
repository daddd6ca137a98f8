//! Documents that are refused: each with the path and the reason of its first fault.
use nb_doc::{DocFail, DocReason, read_document};
use std::alloc::Global;
use std::test::Fail;

// A document, the path of its first fault, and the reason.
type Row = (&'static str, &'static str, &'static str);

const FAULTS: &[Row] = &[
    ("{", "", "NotJson"),
    ("[]", "", "NotObject"),
    ("\"x\"", "", "NotObject"),
    ("{\"notebook\":1", "", "NotJson"),
    ("{\"a/b\":1,\"modules\":3}", "/a/b", "UnknownField"),
    ("{}", "/notebook", "MissingField"),
    ("{\"notebook\":3,\"title\":\"\"}", "/title", "UnknownField"),
    ("{\"notebook\":3}", "/notebook", "WrongField"),
    (
        "{\"notebook\":1.0,\"modules\":[]}",
        "/notebook",
        "WrongField",
    ),
    ("{\"notebook\":true}", "/notebook", "WrongField"),
    ("{\"notebook\":1}", "/modules", "MissingField"),
    (
        "{\"notebook\":1,\"builtins\":[]}",
        "/builtins",
        "WrongField",
    ),
    (
        "{\"notebook\":1,\"builtins\":{\"x\":1.5}}",
        "/builtins/x",
        "WrongField",
    ),
    (
        "{\"notebook\":1,\"builtins\":{\"b\":1.5,\"1\":0}}",
        "/builtins/1",
        "WrongField",
    ),
    (
        "{\"notebook\":1,\"builtins\":{\"let\":1}}",
        "/builtins/let",
        "WrongField",
    ),
    ("{\"notebook\":1,\"modules\":{}}", "/modules", "WrongField"),
    (
        "{\"notebook\":1,\"modules\":[7]}",
        "/modules/0",
        "NotObject",
    ),
    (
        "{\"notebook\":1,\"modules\":[{}]}",
        "/modules/0/items",
        "MissingField",
    ),
    (
        "{\"notebook\":1,\"modules\":[{\"items\":[],\"name\":\"m\"}]}",
        "/modules/0/name",
        "UnknownField",
    ),
    (
        "{\"notebook\":1,\"modules\":[{\"items\":[],\"derive\":0}]}",
        "/modules/0/items",
        "UnknownField",
    ),
    (
        "{\"notebook\":1,\"modules\":[{\"derive\":0,\"with\":[],\"source\":0}]}",
        "/modules/0/derive",
        "WrongField",
    ),
    (
        "{\"notebook\":1,\"modules\":[{\"items\":[]},{\"derive\":0}]}",
        "/modules/1/with",
        "MissingField",
    ),
    (
        "{\"notebook\":1,\"modules\":[{\"items\":[]},{\"derive\":1,\"with\":[],\"source\":0}]}",
        "/modules/1/derive",
        "WrongField",
    ),
    (
        "{\"notebook\":1,\"modules\":[{\"items\":[]},{\"derive\":0,\"with\":[3],\"source\":1}]}",
        "/modules/1/with",
        "WrongField",
    ),
    (
        "{\"notebook\":1,\"modules\":[{\"items\":[]},{\"derive\":0,\"with\":[{\"name\":\"a\",\"as\":\"b\"}],\"source\":0}]}",
        "/modules/1/with",
        "WrongField",
    ),
    (
        "{\"notebook\":1,\"modules\":[{\"items\":[]},{\"derive\":0,\"with\":[{\"alias\":\"b\"}],\"source\":0}]}",
        "/modules/1/with",
        "WrongField",
    ),
    (
        "{\"notebook\":1,\"modules\":[{\"items\":[]},{\"derive\":0,\"with\":[\"a\"],\"source\":1}]}",
        "/modules/1/source",
        "WrongField",
    ),
    (
        "{\"notebook\":1,\"modules\":[{\"items\":3}]}",
        "/modules/0/items",
        "WrongField",
    ),
    (
        "{\"notebook\":1,\"modules\":[{\"items\":[null]}]}",
        "/modules/0/items/0",
        "NotObject",
    ),
    (
        "{\"notebook\":1,\"modules\":[{\"items\":[{}]}]}",
        "/modules/0/items/0/cell",
        "MissingField",
    ),
    (
        "{\"notebook\":1,\"modules\":[{\"items\":[{\"cell\":1}]}]}",
        "/modules/0/items/0/cell",
        "WrongField",
    ),
    (
        "{\"notebook\":1,\"modules\":[{\"items\":[{\"cell\":\"x = 1\"},{\"cell\":\"x = 1 +\",\"observed\":1}]}]}",
        "/modules/0/items/1/cell",
        "BadCell",
    ),
    (
        "{\"notebook\":1,\"modules\":[{\"items\":[{\"cell\":\"x\",\"observed\":1}]}]}",
        "/modules/0/items/0/observed",
        "WrongField",
    ),
    (
        "{\"notebook\":1,\"modules\":[{\"items\":[{\"cell\":\"x\",\"import\":\"y\",\"zz\":1,\"from\":0}]}]}",
        "/modules/0/items/0/cell",
        "UnknownField",
    ),
    (
        "{\"notebook\":1,\"modules\":[{\"items\":[{\"import\":\"x\"}]}]}",
        "/modules/0/items/0/from",
        "MissingField",
    ),
    (
        "{\"notebook\":1,\"modules\":[{\"items\":[{\"import\":\"1\",\"alias\":\"2\"}]}]}",
        "/modules/0/items/0/import",
        "WrongField",
    ),
    (
        "{\"notebook\":1,\"modules\":[{\"items\":[{\"import\":\"x\",\"alias\":null}]}]}",
        "/modules/0/items/0/alias",
        "WrongField",
    ),
    (
        "{\"notebook\":1,\"modules\":[{\"items\":[{\"import\":\"x\",\"from\":1}]}]}",
        "/modules/0/items/0/from",
        "WrongField",
    ),
    (
        "{\"notebook\":1,\"modules\":[{\"items\":[{\"import\":\"x\",\"from\":-1}]}]}",
        "/modules/0/items/0/from",
        "WrongField",
    ),
    (
        "{\"notebook\":1,\"modules\":[{\"items\":[{\"import\":\"x\",\"from\":\"m\"}]}]}",
        "/modules/0/items/0/from",
        "WrongField",
    ),
    (
        "{\"notebook\":1,\"modules\":[{\"items\":[{\"import\":\"x\",\"from\":0,\"observed\":\"yes\"}]}]}",
        "/modules/0/items/0/observed",
        "WrongField",
    ),
    (
        "{\"notebook\":1,\"modules\":[],\"loaders\":{}}",
        "/loaders",
        "WrongField",
    ),
    (
        "{\"notebook\":1,\"modules\":[],\"loaders\":[0]}",
        "/loaders/0",
        "NotObject",
    ),
    (
        "{\"notebook\":1,\"modules\":[],\"loaders\":[{\"key\":\"k\"}]}",
        "/loaders/0/argv",
        "MissingField",
    ),
    (
        "{\"notebook\":1,\"modules\":[],\"loaders\":[{\"argv\":[\"a\"]}]}",
        "/loaders/0/key",
        "MissingField",
    ),
    (
        "{\"notebook\":1,\"modules\":[],\"loaders\":[{\"key\":1,\"argv\":[]}]}",
        "/loaders/0/key",
        "WrongField",
    ),
    (
        "{\"notebook\":1,\"modules\":[],\"loaders\":[{\"key\":\"\",\"argv\":[]}]}",
        "/loaders/0/argv",
        "WrongField",
    ),
    (
        "{\"notebook\":1,\"modules\":[],\"loaders\":[{\"key\":\"k\",\"argv\":[\"a\",\"\"]}]}",
        "/loaders/0/argv/1",
        "WrongField",
    ),
    (
        "{\"notebook\":1,\"modules\":[],\"loaders\":[{\"key\":\"k\",\"argv\":[\"a\"]},{\"key\":\"k\",\"argv\":7}]}",
        "/loaders/1/key",
        "TwoLoaders",
    ),
    (
        "{\"notebook\":1,\"modules\":[],\"loaders\":[{\"key\":\"k\",\"argv\":[\"a\"]},{\"key\":\"j\",\"argv\":[\"a\",2]}]}",
        "/loaders/1/argv/1",
        "WrongField",
    ),
    (
        "{\"notebook\":1,\"modules\":[],\"loaders\":[{\"key\":\"k\",\"argv\":[\"a\",\"a\",\"a\",\"a\",\"a\",\"a\",\"a\",\"a\",\"a\",\"a\",\"a\",\"a\",\"a\",\"a\",\"a\",\"a\",\"\"]}]}",
        "/loaders/0/argv",
        "WrongField",
    ),
    (
        "{\"notebook\":2,\"modules\":[{\"items\":[]}]}",
        "/modules/0/name",
        "MissingField",
    ),
    (
        "{\"notebook\":2,\"modules\":[{\"name\":\"1\",\"items\":[]}]}",
        "/modules/0/name",
        "WrongField",
    ),
    (
        "{\"notebook\":2,\"modules\":[{\"name\":\"m\",\"items\":3},{\"name\":\"m\"}]}",
        "/modules/0/items",
        "WrongField",
    ),
    (
        "{\"notebook\":2,\"modules\":[{\"name\":\"m\",\"items\":[]},{\"name\":\"m\",\"items\":3}]}",
        "/modules/1/name",
        "TwoModules",
    ),
    (
        "{\"notebook\":2,\"modules\":[{\"name\":\"m\",\"items\":[]},{\"name\":\"n\",\"derive\":\"n\"}]}",
        "/modules/1/derive",
        "WrongField",
    ),
    (
        "{\"notebook\":2,\"modules\":[{\"name\":\"m\",\"items\":[]},{\"name\":\"n\",\"derive\":0}]}",
        "/modules/1/derive",
        "WrongField",
    ),
    (
        "{\"notebook\":2,\"modules\":[{\"name\":\"m\",\"items\":[{\"import\":\"x\",\"from\":\"n\"}]},{\"name\":\"n\",\"items\":[]}]}",
        "/modules/0/items/0/from",
        "WrongField",
    ),
    (
        "{\"notebook\":2,\"modules\":[{\"name\":\"m\",\"items\":[{\"import\":\"x\",\"from\":0}]}]}",
        "/modules/0/items/0/from",
        "WrongField",
    ),
];

fn name_of(reason: &DocReason) -> &'static str {
    match reason {
        DocReason::NotJson => "NotJson",
        DocReason::NotObject => "NotObject",
        DocReason::UnknownField => "UnknownField",
        DocReason::MissingField => "MissingField",
        DocReason::WrongField => "WrongField",
        DocReason::BadCell(_) => "BadCell",
        DocReason::TwoLoaders => "TwoLoaders",
        DocReason::TwoModules => "TwoModules",
    }
}

// Whether the document is refused with this path and reason.
fn is_refused(alloc: Global, document: &str, path: &str, reason: &str) -> bool {
    match read_document(alloc, document.as_bytes()) {
        Err(
            DocFail::Bad {
                path: found,
                reason: why,
            },
        ) => found.as_str() == path && name_of(&why) == reason,
        _ => false,
    }
}

#[test]
fn tells_the_first_fault(rt: HostRuntime) -> Result<(), Fail> {
    let alloc = rt.alloc();
    for (document, path, reason) in FAULTS {
        assert!(rt; is_refused(alloc, document, path, reason), "{document}");
    }
    Ok(())
}
