//! Documents that are read: each with its builtins, its loaders and its lines.
use nb_doc::{Document, Loader, read_document};
use nb_log::{Entry, Refusal, push_entries};
use nb_value::{Bytes, Tree, Value};
use std::alloc::Global;
use std::test::Fail;

// A document; its builtins; the words of its loaders, each behind its key; and its lines, were each refused.
struct Row {
    document: &'static str,
    builtins: &'static str,
    loaders: &'static str,
    lines: &'static str,
}

const DOCUMENTS: &[Row] = &[
    Row {
        document: "{\"notebook\":1,\"modules\":[]}",
        builtins: "{}",
        loaders: "",
        lines: "",
    },
    Row {
        document: "{\"notebook\":2,\"modules\":[],\"builtins\":{\"b\":[1,{\"z\":null}],\"a\":\"t\"},\"loaders\":[{\"key\":\"\",\"argv\":[\"sh\",\"-c\",\"exit 1\"]},{\"key\":\"k\",\"argv\":[\"echo\"]}]}",
        builtins: "{\"a\":\"t\",\"b\":[1,{\"z\":null}]}",
        loaders: ":sh -c exit 1;k:echo;",
        lines: "",
    },
    Row {
        document: "{\"notebook\":1,\"modules\":[{\"items\":[{\"cell\":\"x=1\"},{\"cell\":\"2\",\"observed\":false}]},{\"items\":[{\"import\":\"x\",\"from\":0},{\"import\":\"x\",\"alias\":\"z\",\"from\":1,\"observed\":true},{\"cell\":\"y=x\"}]},{\"derive\":1,\"with\":[\"x\",{\"name\":\"x\",\"alias\":\"q\"}],\"source\":0},{\"items\":[{\"import\":\"y\",\"from\":2}]},{\"items\":[]}]}",
        builtins: "{}",
        loaders: "",
        lines: "[\"refused\",0,20,\"Disposed\",{\"cell\":\"x = 1\",\"do\":\"cell\",\"module\":0,\"observed\":true}]\n[\"refused\",0,20,\"Disposed\",{\"cell\":\"2\",\"do\":\"cell\",\"module\":0,\"observed\":false}]\n[\"refused\",0,20,\"Disposed\",{\"do\":\"module\"}]\n[\"refused\",0,20,\"Disposed\",{\"do\":\"variable\",\"module\":1,\"observed\":false}]\n[\"refused\",0,20,\"Disposed\",{\"alias\":\"x\",\"do\":\"import\",\"from\":0,\"name\":\"x\",\"variable\":3}]\n[\"refused\",0,20,\"Disposed\",{\"do\":\"variable\",\"module\":1,\"observed\":true}]\n[\"refused\",0,20,\"Disposed\",{\"alias\":\"z\",\"do\":\"import\",\"from\":1,\"name\":\"x\",\"variable\":4}]\n[\"refused\",0,20,\"Disposed\",{\"cell\":\"y = x\",\"do\":\"cell\",\"module\":1,\"observed\":true}]\n[\"refused\",0,20,\"Disposed\",{\"do\":\"derive\",\"module\":1,\"source\":0,\"with\":[{\"alias\":\"x\",\"name\":\"x\"},{\"alias\":\"q\",\"name\":\"x\"}]}]\n[\"refused\",0,20,\"Disposed\",{\"do\":\"module\"}]\n[\"refused\",0,20,\"Disposed\",{\"do\":\"variable\",\"module\":3,\"observed\":false}]\n[\"refused\",0,20,\"Disposed\",{\"alias\":\"y\",\"do\":\"import\",\"from\":2,\"name\":\"y\",\"variable\":10}]\n[\"refused\",0,20,\"Disposed\",{\"do\":\"module\"}]\n",
    },
    Row {
        document: "{\"notebook\":2,\"modules\":[{\"name\":\"a\",\"items\":[{\"cell\":\"x=1\"}]},{\"name\":\"b\",\"derive\":\"a\",\"with\":[],\"source\":\"a\"},{\"name\":\"c\",\"items\":[{\"import\":\"x\",\"from\":\"b\"},{\"import\":\"x\",\"alias\":\"w\",\"from\":\"c\"}]},{\"name\":\"d\",\"derive\":\"c\",\"with\":[\"w\"],\"source\":\"b\"},{\"name\":\"e\",\"items\":[{\"import\":\"w\",\"from\":\"d\"}]}]}",
        builtins: "{}",
        loaders: "",
        lines: "[\"refused\",0,20,\"Disposed\",{\"cell\":\"x = 1\",\"do\":\"cell\",\"module\":0,\"observed\":true}]\n[\"refused\",0,20,\"Disposed\",{\"do\":\"derive\",\"module\":0,\"source\":0,\"with\":[]}]\n[\"refused\",0,20,\"Disposed\",{\"do\":\"module\"}]\n[\"refused\",0,20,\"Disposed\",{\"do\":\"variable\",\"module\":2,\"observed\":false}]\n[\"refused\",0,20,\"Disposed\",{\"alias\":\"x\",\"do\":\"import\",\"from\":1,\"name\":\"x\",\"variable\":3}]\n[\"refused\",0,20,\"Disposed\",{\"do\":\"variable\",\"module\":2,\"observed\":false}]\n[\"refused\",0,20,\"Disposed\",{\"alias\":\"w\",\"do\":\"import\",\"from\":2,\"name\":\"x\",\"variable\":4}]\n[\"refused\",0,20,\"Disposed\",{\"do\":\"derive\",\"module\":2,\"source\":1,\"with\":[{\"alias\":\"w\",\"name\":\"w\"}]}]\n[\"refused\",0,20,\"Disposed\",{\"do\":\"module\"}]\n[\"refused\",0,20,\"Disposed\",{\"do\":\"variable\",\"module\":5,\"observed\":false}]\n[\"refused\",0,20,\"Disposed\",{\"alias\":\"w\",\"do\":\"import\",\"from\":3,\"name\":\"w\",\"variable\":8}]\n",
    },
    Row {
        document: "{\"notebook\":1,\"notebook\":2,\"modules\":[{\"name\":\"$\",\"items\":[{\"cell\":\"a\",\"cell\":\"b\"}]}]}",
        builtins: "{}",
        loaders: "",
        lines: "[\"refused\",0,20,\"Disposed\",{\"cell\":\"b\",\"do\":\"cell\",\"module\":0,\"observed\":true}]\n",
    },
];

fn push_loader(out: &mut Bytes, loader: &Loader) -> Result<(), Fail> {
    out.append(loader.key.as_str().as_bytes())?;
    let mut before: &[u8] = b":";
    for word in loader.argv.as_slice() {
        out.append(before)?;
        out.append(word.as_str().as_bytes())?;
        before = b" ";
    }
    out.append(b";")?;
    Ok(())
}

fn loaders_of(alloc: Global, document: &Document) -> Result<Bytes, Fail> {
    let mut out = Bytes::new(alloc);
    for loader in document.loaders.as_slice() {
        push_loader(&mut out, loader)?;
    }
    Ok(out)
}

// What the lines are written as, were each refused.
fn lines_of(alloc: Global, document: &Document) -> Result<Bytes, Fail> {
    let mut out = Bytes::new(alloc);
    for event in document.lines.as_slice() {
        let entry = Entry::Refused {
            editor: 0,
            reason: Refusal::Disposed,
            event: event.copy(alloc)?,
        };
        push_entries(alloc, &mut out, &[entry])?;
    }
    Ok(out)
}

#[test]
fn reads_documents(rt: HostRuntime) -> Result<(), Fail> {
    let alloc = rt.alloc();
    for row in DOCUMENTS {
        let Ok(document) = read_document(alloc, row.document.as_bytes()) else {
            return Err("a document is refused".into());
        };
        assert_eq!(rt;
            loaders_of(alloc, &document)?.as_slice(),
            row.loaders.as_bytes()
        );
        assert_eq!(rt;
            lines_of(alloc, &document)?.as_slice(),
            row.lines.as_bytes()
        );
        let text = Value::Rec(document.builtins).to_json(alloc)?;
        assert_eq!(rt; text.as_str(), row.builtins);
    }
    Ok(())
}
