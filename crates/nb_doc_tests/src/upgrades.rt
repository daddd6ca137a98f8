//! Documents in version 2.
use nb_doc::{DocFail, upgrade};
use std::alloc::Global;
use std::test::Fail;

// A document, and what it is in version 2.
type Row = (&'static str, &'static str);

const UPGRADES: &[Row] = &[
    (
        "{\"notebook\":1,\"modules\":[{\"items\":[{\"cell\":\"x = 1\"}]}]}",
        "{\"modules\":[{\"items\":[{\"cell\":\"x = 1\"}],\"name\":\"m0\"}],\"notebook\":2}\n",
    ),
    (
        "{\"notebook\": 1, \"modules\": []}",
        "{\"modules\":[],\"notebook\":2}\n",
    ),
    (
        "{\"notebook\":1,\"modules\":[{\"items\":[{\"cell\":\"x=1\",\"observed\":true}]},{\"items\":[{\"import\":\"x\",\"from\":1},{\"observed\":false,\"import\":\"x\",\"alias\":\"z\",\"from\":0}]},{\"derive\":1,\"with\":[\"x\",{\"name\":\"x\",\"alias\":\"q\"}],\"source\":0}],\"loaders\":[{\"key\":\"k\",\"argv\":[\"\\u0065\\n\"]}],\"builtins\":{\"b\":[1,-2],\"a\":null}}",
        "{\"builtins\":{\"a\":null,\"b\":[1,-2]},\"loaders\":[{\"argv\":[\"e\\n\"],\"key\":\"k\"}],\"modules\":[{\"items\":[{\"cell\":\"x=1\",\"observed\":true}],\"name\":\"m0\"},{\"items\":[{\"from\":\"m1\",\"import\":\"x\"},{\"alias\":\"z\",\"from\":\"m0\",\"import\":\"x\",\"observed\":false}],\"name\":\"m1\"},{\"derive\":\"m1\",\"name\":\"m2\",\"source\":\"m0\",\"with\":[\"x\",{\"alias\":\"q\",\"name\":\"x\"}]}],\"notebook\":2}\n",
    ),
    (
        "{\"notebook\":2,\"modules\":[{\"name\":\"m1\",\"items\":[]},{\"name\":\"b\",\"derive\":\"m1\",\"with\":[],\"source\":\"m1\"}]}",
        "{\"modules\":[{\"items\":[],\"name\":\"m1\"},{\"derive\":\"m1\",\"name\":\"b\",\"source\":\"m1\",\"with\":[]}],\"notebook\":2}\n",
    ),
];

// Whether the document is refused with this path.
fn is_refused(alloc: Global, document: &str, path: &str) -> bool {
    match upgrade(alloc, document.as_bytes()) {
        Err(DocFail::Bad { path: found, .. }) => found.as_str() == path,
        _ => false,
    }
}

#[test]
fn upgrades_documents(rt: HostRuntime) -> Result<(), Fail> {
    let alloc = rt.alloc();
    for (document, wanted) in UPGRADES {
        let Ok(text) = upgrade(alloc, document.as_bytes()) else {
            return Err("a document is refused".into());
        };
        assert_eq!(rt; text.as_slice(), wanted.as_bytes());
    }
    assert!(rt; is_refused(alloc, "{\"notebook\":3}", "/notebook"));
    assert!(rt;
        is_refused(
            alloc,
            "{\"notebook\":1,\"modules\":[{\"name\":\"m0\",\"items\":[]}]}",
            "/modules/0/name"
        )
    );
    Ok(())
}
