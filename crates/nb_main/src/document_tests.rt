//! Notebooks in files, over files in memory.
use crate::tests::{Case, PLAIN, check};
use std::test::Fail;

// The example of the README.
const PRICES: &[u8] =
    b"{\n  \"notebook\": 2,\n  \"builtins\": {\"tax\": 20},\n  \"modules\": [\n    {\"name\": \"prices\", \"items\": [\n      {\"cell\": \"net = 100\"},\n      {\"cell\": \"gross = net + net * tax / 100\"}\n    ]},\n    {\"name\": \"page\", \"items\": [\n      {\"import\": \"gross\", \"from\": \"prices\"},\n      {\"cell\": \"label = \\\"to pay: \\\" + text(gross)\"}\n    ]}\n  ]\n}\n";

const LOADED: &[u8] =
    b"{\"notebook\":1,\"modules\":[{\"items\":[{\"cell\":\"rows = fetch(\\\"rows\\\")\"},{\"cell\":\"bad = fetch(\\\"bad\\\")\"},{\"cell\":\"n = len(rows)\"}]}],\"loaders\":[{\"key\":\"rows\",\"argv\":[\"echo\",\"[1, 2, 3]\"]},{\"key\":\"bad\",\"argv\":[\"sh\",\"-c\",\"exit 1\"]}]}";

const CASES: [Case<'static>; 17] = [
    Case {
        name: "a notebook and a line",
        words: &["run", "prices.json"],
        input: b"{\"do\":\"redefine\",\"module\":0,\"cell\":\"net = 50\"}\n",
        files: &[("prices.json", PRICES)],
        out: b"[\"edit\",0,{\"cell\":\"net = 100\",\"do\":\"cell\",\"module\":0,\"observed\":true}]\n[\"pending\",1,[]]\n[\"fulfilled\",1,100]\n[\"edit\",0,{\"cell\":\"gross = net + net * tax / 100\",\"do\":\"cell\",\"module\":0,\"observed\":true}]\n[\"pending\",2,[]]\n[\"fulfilled\",2,120]\n[\"edit\",0,{\"do\":\"module\"}]\n[\"edit\",0,{\"do\":\"variable\",\"module\":1,\"observed\":false}]\n[\"edit\",0,{\"alias\":\"gross\",\"do\":\"import\",\"from\":0,\"name\":\"gross\",\"variable\":3}]\n[\"edit\",0,{\"cell\":\"label = \\\"to pay: \\\" + text(gross)\",\"do\":\"cell\",\"module\":1,\"observed\":true}]\n[\"pending\",3,[]]\n[\"pending\",4,[]]\n[\"fulfilled\",3,120]\n[\"fulfilled\",4,\"to pay: 120\"]\n[\"edit\",0,{\"cell\":\"net = 50\",\"do\":\"redefine\",\"module\":0}]\n[\"pending\",1,[]]\n[\"pending\",2,[]]\n[\"pending\",3,[]]\n[\"pending\",4,[]]\n[\"fulfilled\",1,50]\n[\"fulfilled\",2,60]\n[\"fulfilled\",3,60]\n[\"fulfilled\",4,\"to pay: 60\"]\n[\"value\",1,\"net\",\"fulfilled\",50]\n[\"value\",2,\"gross\",\"fulfilled\",60]\n[\"value\",3,\"gross\",\"fulfilled\",60]\n[\"value\",4,\"label\",\"fulfilled\",\"to pay: 60\"]\n[\"done\",23]\n",
        ..PLAIN
    },
    Case {
        name: "two loaders, of which one fails",
        words: &["run", "nb.json"],
        input: b"{\"do\":\"rest\"}\n",
        files: &[("nb.json", LOADED)],
        ends: &[(0, b"[1, 2, 3]\n"), (1, b"")],
        out: b"[\"edit\",0,{\"cell\":\"rows = fetch(\\\"rows\\\")\",\"do\":\"cell\",\"module\":0,\"observed\":true}]\n[\"pending\",1,[]]\n[\"asked\",1,1,\"rows\"]\n[\"loaded\",1,\"value\",[1,2,3]]\n[\"fulfilled\",1,[1,2,3]]\n[\"edit\",0,{\"cell\":\"bad = fetch(\\\"bad\\\")\",\"do\":\"cell\",\"module\":0,\"observed\":true}]\n[\"pending\",2,[]]\n[\"asked\",2,2,\"bad\"]\n[\"loaded\",2,\"error\",\"status 1\"]\n[\"rejected\",2,\"FetchFailed\",\"status 1\",null]\n[\"edit\",0,{\"cell\":\"n = len(rows)\",\"do\":\"cell\",\"module\":0,\"observed\":true}]\n[\"pending\",3,[]]\n[\"fulfilled\",3,3]\n[\"rest\",0]\n[\"value\",1,\"rows\",\"fulfilled\",[1,2,3]]\n[\"value\",2,\"bad\",\"rejected\",\"FetchFailed\",\"status 1\",null]\n[\"value\",3,\"n\",\"fulfilled\",3]\n[\"done\",14]\n",
        ..PLAIN
    },
    Case {
        name: "loaders whose programs don't start",
        words: &["run", "nb.json"],
        files: &[("nb.json", LOADED)],
        out: b"[\"edit\",0,{\"cell\":\"rows = fetch(\\\"rows\\\")\",\"do\":\"cell\",\"module\":0,\"observed\":true}]\n[\"pending\",1,[]]\n[\"asked\",1,1,\"rows\"]\n[\"loaded\",1,\"error\",\"spawn\"]\n[\"rejected\",1,\"FetchFailed\",\"spawn\",null]\n[\"edit\",0,{\"cell\":\"bad = fetch(\\\"bad\\\")\",\"do\":\"cell\",\"module\":0,\"observed\":true}]\n[\"pending\",2,[]]\n[\"asked\",2,2,\"bad\"]\n[\"loaded\",2,\"error\",\"spawn\"]\n[\"rejected\",2,\"FetchFailed\",\"spawn\",null]\n[\"edit\",0,{\"cell\":\"n = len(rows)\",\"do\":\"cell\",\"module\":0,\"observed\":true}]\n[\"pending\",3,[]]\n[\"rejected\",3,\"FetchFailed\",\"spawn\",\"rows\"]\n[\"value\",1,\"rows\",\"rejected\",\"FetchFailed\",\"spawn\",null]\n[\"value\",2,\"bad\",\"rejected\",\"FetchFailed\",\"spawn\",null]\n[\"value\",3,\"n\",\"rejected\",\"FetchFailed\",\"spawn\",\"rows\"]\n[\"done\",13]\n",
        ..PLAIN
    },
    Case {
        name: "another file is not read",
        words: &["run", "nb.json"],
        files: &[
            ("other.json", PRICES),
            (
                "nb.json",
                b"{\"notebook\":1,\"modules\":[{\"items\":[{\"cell\":\"x = 1\"}]}]}",
            ),
        ],
        out: b"[\"edit\",0,{\"cell\":\"x = 1\",\"do\":\"cell\",\"module\":0,\"observed\":true}]\n[\"pending\",1,[]]\n[\"fulfilled\",1,1]\n[\"value\",1,\"x\",\"fulfilled\",1]\n[\"done\",3]\n",
        ..PLAIN
    },
    Case {
        name: "a document that is off",
        words: &["run", "nb.json"],
        input: b"{\"do\":\"fra",
        files: &[("nb.json", b"{\"notebook\":3}")],
        status: 8,
        notes: b"notebook: document /notebook: WrongField\n",
        ..PLAIN
    },
    Case {
        name: "a document that is no JSON",
        words: &["run", "nb.json"],
        files: &[("nb.json", b"{")],
        status: 8,
        notes: b"notebook: document : NotJson\n",
        ..PLAIN
    },
    Case {
        name: "a document with a cell that is none",
        words: &["upgrade", "nb.json"],
        files: &[(
            "nb.json",
            b"{\"notebook\":1,\"modules\":[{\"items\":[{\"cell\":\"x = 1\"},{\"cell\":\"y = x\"},{\"cell\":\"x = 1 +\"}]}]}",
        )],
        status: 8,
        notes: b"notebook: document /modules/0/items/2/cell: BadCell Ended 7\n",
        ..PLAIN
    },
    Case {
        name: "a bad line after a document",
        words: &["run", "nb.json"],
        input: b"{\"do\":\"fra",
        files: &[(
            "nb.json",
            b"{\"notebook\":1,\"modules\":[{\"items\":[{\"cell\":\"x = 1\"}]}]}",
        )],
        status: 3,
        notes: b"notebook: line 1: NotJson\n",
        ..PLAIN
    },
    Case {
        name: "an upgrade",
        words: &["upgrade", "nb.json"],
        input: b"{\"do\":\"fra",
        files: &[(
            "nb.json",
            b"{\"notebook\":1,\"modules\":[{\"items\":[{\"cell\":\"x = 1\"}]}]}",
        )],
        out: b"{\"modules\":[{\"items\":[{\"cell\":\"x = 1\"}],\"name\":\"m0\"}],\"notebook\":2}\n",
        ..PLAIN
    },
    Case {
        name: "no such file",
        words: &["run", "nb.json"],
        status: 6,
        notes: b"notebook: file fault\n",
        ..PLAIN
    },
    Case {
        name: "a word too many",
        words: &["run", "a", "b"],
        files: &[(
            "a",
            b"{\"notebook\":1,\"modules\":[{\"items\":[{\"cell\":\"x = 1\"}]}]}",
        )],
        status: 2,
        notes: b"notebook: usage: notebook run [FILE] | workers N [FILE] | make N SEED | upgrade FILE\n",
        ..PLAIN
    },
    Case {
        name: "a word that begins with a hyphen",
        words: &["run", "--help"],
        status: 2,
        notes: b"notebook: usage: notebook run [FILE] | workers N [FILE] | make N SEED | upgrade FILE\n",
        ..PLAIN
    },
    Case {
        name: "workers",
        words: &["workers", "2"],
        status: 2,
        notes: b"notebook: usage: notebook run [FILE] | workers N [FILE] | make N SEED | upgrade FILE\n",
        ..PLAIN
    },
    Case {
        name: "lines that are made",
        words: &["make", "1", "7"],
        out: b"[\"made\",1,7,6,10,1,0,0]\n[\"done\",10]\n",
        ..PLAIN
    },
    Case {
        name: "an upgrade of nothing",
        words: &["upgrade"],
        status: 2,
        notes: b"notebook: usage: notebook run [FILE] | workers N [FILE] | make N SEED | upgrade FILE\n",
        ..PLAIN
    },
    Case {
        name: "a file that fails",
        words: &["run", "nb.json"],
        input: b"{\"do\":\"fra",
        files: &[(
            "nb.json",
            b"{\"notebook\":1,\"modules\":[{\"items\":[{\"cell\":\"x = 1\"}]}]}",
        )],
        files_fail: &[1],
        status: 6,
        notes: b"notebook: file fault\n",
        ..PLAIN
    },
    Case {
        name: "an upgrade that isn't written",
        words: &["upgrade", "nb.json"],
        files: &[(
            "nb.json",
            b"{\"notebook\":1,\"modules\":[{\"items\":[{\"cell\":\"x = 1\"}]}]}",
        )],
        out_fails: &[1],
        status: 5,
        notes: b"notebook: write fault\n",
        ..PLAIN
    },
];

#[test]
fn notebooks_in_files(rt: HostRuntime) -> Result<(), Fail> {
    for case in &CASES {
        check(&rt, rt.alloc(), case)?;
    }
    Ok(())
}
