//! Cells of each kind that a run takes, as a user writes them.

use crate::tests::{Case, PLAIN, check};
use std::test::Fail;

const CASES: [Case<'static>; 8] = [
    Case {
        name: "fuel runs out",
        input: b"{\"do\":\"cell\",\"module\":0,\"cell\":\"w = { while (true) {} }\"}\n{\"do\":\"cell\",\"module\":0,\"cell\":\"v = w + 1\"}\n",
        out: b"[\"edit\",0,{\"cell\":\"w = { while (true) {} }\",\"do\":\"cell\",\"module\":0,\"observed\":true}]\n[\"pending\",1,[]]\n[\"rejected\",1,\"OutOfFuel\",\"\",null]\n[\"edit\",0,{\"cell\":\"v = w + 1\",\"do\":\"cell\",\"module\":0,\"observed\":true}]\n[\"pending\",2,[]]\n[\"rejected\",2,\"OutOfFuel\",\"\",\"w\"]\n[\"value\",1,\"w\",\"rejected\",\"OutOfFuel\",\"\",null]\n[\"value\",2,\"v\",\"rejected\",\"OutOfFuel\",\"\",\"w\"]\n[\"done\",6]\n",
        ..PLAIN
    },
    Case {
        name: "a range of 16,384",
        input: b"{\"do\":\"cell\",\"module\":0,\"cell\":\"x = range(0, 16384)\"}\n",
        out: b"[\"edit\",0,{\"cell\":\"x = range(0, 16384)\",\"do\":\"cell\",\"module\":0,\"observed\":true}]\n[\"pending\",1,[]]\n[\"rejected\",1,\"TooLarge\",\"value\",null]\n[\"value\",1,\"x\",\"rejected\",\"TooLarge\",\"value\",null]\n[\"done\",3]\n",
        ..PLAIN
    },
    Case {
        name: "the last unit of fuel",
        input: b"{\"do\":\"cell\",\"module\":0,\"cell\":\"x = len(range(0, 999992))\"}\n",
        out: b"[\"edit\",0,{\"cell\":\"x = len(range(0, 999992))\",\"do\":\"cell\",\"module\":0,\"observed\":true}]\n[\"pending\",1,[]]\n[\"fulfilled\",1,999992]\n[\"value\",1,\"x\",\"fulfilled\",999992]\n[\"done\",3]\n",
        ..PLAIN
    },
    Case {
        name: "one unit of fuel more",
        input: b"{\"do\":\"cell\",\"module\":0,\"cell\":\"x = len(range(0, 999993))\"}\n",
        out: b"[\"edit\",0,{\"cell\":\"x = len(range(0, 999993))\",\"do\":\"cell\",\"module\":0,\"observed\":true}]\n[\"pending\",1,[]]\n[\"rejected\",1,\"OutOfFuel\",\"\",null]\n[\"value\",1,\"x\",\"rejected\",\"OutOfFuel\",\"\",null]\n[\"done\",3]\n",
        ..PLAIN
    },
    Case {
        name: "a record's list",
        input: b"{\"do\":\"cell\",\"module\":0,\"cell\":\"{\\\"a\\\": 1, \\\"b\\\": [true, null]}.b[0]\"}\n",
        out: b"[\"edit\",0,{\"cell\":\"{\\\"a\\\": 1, \\\"b\\\": [true, null]}.b[0]\",\"do\":\"cell\",\"module\":0,\"observed\":true}]\n[\"pending\",1,[]]\n[\"fulfilled\",1,true]\n[\"value\",1,null,\"fulfilled\",true]\n[\"done\",3]\n",
        ..PLAIN
    },
    Case {
        name: "minus seven by two",
        input: b"{\"do\":\"cell\",\"module\":0,\"cell\":\"x = -7 / 2\"}\n{\"do\":\"cell\",\"module\":0,\"cell\":\"y = -7 % 2\"}\n",
        out: b"[\"edit\",0,{\"cell\":\"x = -7 / 2\",\"do\":\"cell\",\"module\":0,\"observed\":true}]\n[\"pending\",1,[]]\n[\"fulfilled\",1,-3]\n[\"edit\",0,{\"cell\":\"y = -7 % 2\",\"do\":\"cell\",\"module\":0,\"observed\":true}]\n[\"pending\",2,[]]\n[\"fulfilled\",2,-1]\n[\"value\",1,\"x\",\"fulfilled\",-3]\n[\"value\",2,\"y\",\"fulfilled\",-1]\n[\"done\",6]\n",
        ..PLAIN
    },
    Case {
        name: "a divisor of 0",
        input: b"{\"do\":\"cell\",\"module\":0,\"cell\":\"x = 1 / 0\"}\n",
        out: b"[\"edit\",0,{\"cell\":\"x = 1 / 0\",\"do\":\"cell\",\"module\":0,\"observed\":true}]\n[\"pending\",1,[]]\n[\"rejected\",1,\"ZeroDivisor\",\"/\",null]\n[\"value\",1,\"x\",\"rejected\",\"ZeroDivisor\",\"/\",null]\n[\"done\",3]\n",
        ..PLAIN
    },
    Case {
        name: "a diamond",
        input: b"{\"do\":\"cell\",\"module\":0,\"cell\":\"a = 1\"}\n{\"do\":\"cell\",\"module\":0,\"cell\":\"b = a + 1\"}\n{\"do\":\"cell\",\"module\":0,\"cell\":\"c = a + 2\"}\n{\"do\":\"cell\",\"module\":0,\"cell\":\"d = b + c\"}\n",
        out: b"[\"edit\",0,{\"cell\":\"a = 1\",\"do\":\"cell\",\"module\":0,\"observed\":true}]\n[\"pending\",1,[]]\n[\"fulfilled\",1,1]\n[\"edit\",0,{\"cell\":\"b = a + 1\",\"do\":\"cell\",\"module\":0,\"observed\":true}]\n[\"pending\",2,[]]\n[\"fulfilled\",2,2]\n[\"edit\",0,{\"cell\":\"c = a + 2\",\"do\":\"cell\",\"module\":0,\"observed\":true}]\n[\"pending\",3,[]]\n[\"fulfilled\",3,3]\n[\"edit\",0,{\"cell\":\"d = b + c\",\"do\":\"cell\",\"module\":0,\"observed\":true}]\n[\"pending\",4,[]]\n[\"fulfilled\",4,5]\n[\"value\",1,\"a\",\"fulfilled\",1]\n[\"value\",2,\"b\",\"fulfilled\",2]\n[\"value\",3,\"c\",\"fulfilled\",3]\n[\"value\",4,\"d\",\"fulfilled\",5]\n[\"done\",12]\n",
        ..PLAIN
    },
];

#[test]
fn each_cell_comes_out(rt: HostRuntime) -> Result<(), Fail> {
    for case in &CASES {
        check(&rt, rt.alloc(), case)?;
    }
    Ok(())
}
