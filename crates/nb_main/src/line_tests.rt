//! Lines of each kind: edits, fetches, generators and frames, cleanups, derived modules.

use crate::tests::{Case, PLAIN, check};
use std::test::Fail;

const EDITS_AND_FETCHES: [Case<'static>; 9] = [
    Case {
        name: "one of two of a name deleted",
        input: b"{\"do\":\"cell\",\"module\":0,\"cell\":\"x = 1\"}\n{\"do\":\"cell\",\"module\":0,\"cell\":\"x = 2\"}\n{\"do\":\"cell\",\"module\":0,\"cell\":\"y = x\"}\n{\"do\":\"delete\",\"variable\":2}\n",
        out: b"[\"edit\",0,{\"cell\":\"x = 1\",\"do\":\"cell\",\"module\":0,\"observed\":true}]\n[\"pending\",1,[]]\n[\"fulfilled\",1,1]\n[\"edit\",0,{\"cell\":\"x = 2\",\"do\":\"cell\",\"module\":0,\"observed\":true}]\n[\"pending\",1,[]]\n[\"pending\",2,[]]\n[\"rejected\",1,\"DefinedTwice\",\"x\",null]\n[\"rejected\",2,\"DefinedTwice\",\"x\",null]\n[\"edit\",0,{\"cell\":\"y = x\",\"do\":\"cell\",\"module\":0,\"observed\":true}]\n[\"pending\",3,[]]\n[\"rejected\",3,\"DefinedTwice\",\"x\",null]\n[\"edit\",0,{\"do\":\"delete\",\"variable\":2}]\n[\"left\",2,[]]\n[\"pending\",1,[]]\n[\"pending\",3,[]]\n[\"fulfilled\",1,1]\n[\"fulfilled\",3,1]\n[\"value\",1,\"x\",\"fulfilled\",1]\n[\"value\",3,\"y\",\"fulfilled\",1]\n[\"done\",17]\n",
        ..PLAIN
    },
    Case {
        name: "a cycle made and broken",
        input: b"{\"do\":\"cell\",\"module\":0,\"cell\":\"a = b\"}\n{\"do\":\"cell\",\"module\":0,\"cell\":\"b = a\"}\n{\"do\":\"cell\",\"module\":0,\"cell\":\"c = a\"}\n{\"do\":\"define\",\"variable\":2,\"cell\":\"b = 1\"}\n",
        out: b"[\"edit\",0,{\"cell\":\"a = b\",\"do\":\"cell\",\"module\":0,\"observed\":true}]\n[\"pending\",1,[]]\n[\"rejected\",1,\"NotDefined\",\"b\",null]\n[\"edit\",0,{\"cell\":\"b = a\",\"do\":\"cell\",\"module\":0,\"observed\":true}]\n[\"pending\",1,[]]\n[\"pending\",2,[]]\n[\"rejected\",1,\"Circular\",\"a\",null]\n[\"rejected\",2,\"Circular\",\"b\",null]\n[\"edit\",0,{\"cell\":\"c = a\",\"do\":\"cell\",\"module\":0,\"observed\":true}]\n[\"pending\",3,[]]\n[\"rejected\",3,\"Circular\",\"a\",\"a\"]\n[\"edit\",0,{\"cell\":\"b = 1\",\"do\":\"define\",\"variable\":2}]\n[\"pending\",2,[]]\n[\"pending\",1,[]]\n[\"pending\",3,[]]\n[\"fulfilled\",2,1]\n[\"fulfilled\",1,1]\n[\"fulfilled\",3,1]\n[\"value\",1,\"a\",\"fulfilled\",1]\n[\"value\",2,\"b\",\"fulfilled\",1]\n[\"value\",3,\"c\",\"fulfilled\",1]\n[\"done\",18]\n",
        ..PLAIN
    },
    Case {
        name: "a diamond changed at its top",
        input: b"{\"do\":\"cell\",\"module\":0,\"cell\":\"a = 1\"}\n{\"do\":\"cell\",\"module\":0,\"cell\":\"b = a + 1\"}\n{\"do\":\"cell\",\"module\":0,\"cell\":\"c = a + 2\"}\n{\"do\":\"cell\",\"module\":0,\"cell\":\"d = b + c\"}\n{\"do\":\"define\",\"variable\":1,\"cell\":\"a = 10\"}\n",
        out: b"[\"edit\",0,{\"cell\":\"a = 1\",\"do\":\"cell\",\"module\":0,\"observed\":true}]\n[\"pending\",1,[]]\n[\"fulfilled\",1,1]\n[\"edit\",0,{\"cell\":\"b = a + 1\",\"do\":\"cell\",\"module\":0,\"observed\":true}]\n[\"pending\",2,[]]\n[\"fulfilled\",2,2]\n[\"edit\",0,{\"cell\":\"c = a + 2\",\"do\":\"cell\",\"module\":0,\"observed\":true}]\n[\"pending\",3,[]]\n[\"fulfilled\",3,3]\n[\"edit\",0,{\"cell\":\"d = b + c\",\"do\":\"cell\",\"module\":0,\"observed\":true}]\n[\"pending\",4,[]]\n[\"fulfilled\",4,5]\n[\"edit\",0,{\"cell\":\"a = 10\",\"do\":\"define\",\"variable\":1}]\n[\"pending\",1,[]]\n[\"pending\",2,[]]\n[\"pending\",3,[]]\n[\"pending\",4,[]]\n[\"fulfilled\",1,10]\n[\"fulfilled\",2,11]\n[\"fulfilled\",3,12]\n[\"fulfilled\",4,23]\n[\"value\",1,\"a\",\"fulfilled\",10]\n[\"value\",2,\"b\",\"fulfilled\",11]\n[\"value\",3,\"c\",\"fulfilled\",12]\n[\"value\",4,\"d\",\"fulfilled\",23]\n[\"done\",21]\n",
        ..PLAIN
    },
    Case {
        name: "an input that is no longer needed",
        input: b"{\"do\":\"cell\",\"module\":0,\"cell\":\"a = 1\",\"observed\":false}\n{\"do\":\"cell\",\"module\":0,\"cell\":\"b = a\"}\n{\"do\":\"define\",\"variable\":2,\"cell\":\"b = 5\"}\n",
        out: b"[\"edit\",0,{\"cell\":\"a = 1\",\"do\":\"cell\",\"module\":0,\"observed\":false}]\n[\"edit\",0,{\"cell\":\"b = a\",\"do\":\"cell\",\"module\":0,\"observed\":true}]\n[\"pending\",1,[]]\n[\"pending\",2,[]]\n[\"fulfilled\",1,1]\n[\"fulfilled\",2,1]\n[\"edit\",0,{\"cell\":\"b = 5\",\"do\":\"define\",\"variable\":2}]\n[\"left\",1,[]]\n[\"pending\",2,[]]\n[\"fulfilled\",2,5]\n[\"value\",2,\"b\",\"fulfilled\",5]\n[\"done\",10]\n",
        ..PLAIN
    },
    Case {
        name: "refused edits",
        input: b"{\"do\":\"cell\",\"module\":1,\"cell\":\"x = 1\"}\n{\"do\":\"define\",\"variable\":7,\"cell\":\"x = 1\"}\n{\"do\":\"redefine\",\"module\":0,\"cell\":\"z = 1\"}\n{\"do\":\"cell\",\"module\":0,\"cell\":\"x = 1\"}\n{\"do\":\"cell\",\"module\":0,\"cell\":\"x = 1\"}\n{\"do\":\"redefine\",\"module\":0,\"cell\":\"x = 3\"}\n",
        out: b"[\"refused\",0,1,\"NoModule\",{\"cell\":\"x = 1\",\"do\":\"cell\",\"module\":1,\"observed\":true}]\n[\"refused\",0,2,\"NoVariable\",{\"cell\":\"x = 1\",\"do\":\"define\",\"variable\":7}]\n[\"refused\",0,5,\"NotNamed\",{\"cell\":\"z = 1\",\"do\":\"redefine\",\"module\":0}]\n[\"edit\",0,{\"cell\":\"x = 1\",\"do\":\"cell\",\"module\":0,\"observed\":true}]\n[\"pending\",1,[]]\n[\"fulfilled\",1,1]\n[\"edit\",0,{\"cell\":\"x = 1\",\"do\":\"cell\",\"module\":0,\"observed\":true}]\n[\"pending\",1,[]]\n[\"pending\",2,[]]\n[\"rejected\",1,\"DefinedTwice\",\"x\",null]\n[\"rejected\",2,\"DefinedTwice\",\"x\",null]\n[\"refused\",0,6,\"NamedTwice\",{\"cell\":\"x = 3\",\"do\":\"redefine\",\"module\":0}]\n[\"value\",1,\"x\",\"rejected\",\"DefinedTwice\",\"x\",null]\n[\"value\",2,\"x\",\"rejected\",\"DefinedTwice\",\"x\",null]\n[\"done\",12]\n",
        ..PLAIN
    },
    Case {
        name: "a fetch, settled",
        input: b"{\"do\":\"cell\",\"module\":0,\"cell\":\"x = fetch(\\\"k\\\")\"}\n{\"do\":\"rest\"}\n{\"do\":\"settle\",\"key\":\"k\",\"value\":5}\n",
        out: b"[\"edit\",0,{\"cell\":\"x = fetch(\\\"k\\\")\",\"do\":\"cell\",\"module\":0,\"observed\":true}]\n[\"pending\",1,[]]\n[\"asked\",1,1,\"k\"]\n[\"rest\",0]\n[\"settled\",0,1,\"value\",5]\n[\"fulfilled\",1,5]\n[\"value\",1,\"x\",\"fulfilled\",5]\n[\"done\",6]\n",
        ..PLAIN
    },
    Case {
        name: "a fetch that waits",
        input: b"{\"do\":\"cell\",\"module\":0,\"cell\":\"x = fetch(\\\"k\\\")\"}\n{\"do\":\"rest\"}\n",
        out: b"[\"edit\",0,{\"cell\":\"x = fetch(\\\"k\\\")\",\"do\":\"cell\",\"module\":0,\"observed\":true}]\n[\"pending\",1,[]]\n[\"asked\",1,1,\"k\"]\n[\"rest\",0]\n[\"value\",1,\"x\",\"waiting\"]\n[\"done\",4]\n",
        ..PLAIN
    },
    Case {
        name: "a late settlement",
        input: b"{\"do\":\"cell\",\"module\":0,\"cell\":\"x = fetch(\\\"k\\\")\"}\n{\"do\":\"define\",\"variable\":1,\"cell\":\"x = 2\"}\n{\"do\":\"settle\",\"ticket\":1,\"value\":5}\n{\"do\":\"settle\",\"ticket\":1,\"value\":6}\n{\"do\":\"settle\",\"ticket\":9,\"value\":1}\n",
        out: b"[\"edit\",0,{\"cell\":\"x = fetch(\\\"k\\\")\",\"do\":\"cell\",\"module\":0,\"observed\":true}]\n[\"pending\",1,[]]\n[\"asked\",1,1,\"k\"]\n[\"edit\",0,{\"cell\":\"x = 2\",\"do\":\"define\",\"variable\":1}]\n[\"pending\",1,[]]\n[\"fulfilled\",1,2]\n[\"late\",0,1]\n[\"refused\",0,23,\"AlreadySettled\",{\"do\":\"settle\",\"ticket\":1,\"value\":6}]\n[\"refused\",0,22,\"NoTicket\",{\"do\":\"settle\",\"ticket\":9,\"value\":1}]\n[\"value\",1,\"x\",\"fulfilled\",2]\n[\"done\",9]\n",
        ..PLAIN
    },
    Case {
        name: "a key that nobody asked",
        input: b"{\"do\":\"settle\",\"key\":\"z\",\"value\":1}\n",
        out: b"[\"refused\",0,24,\"NoAsk\",{\"do\":\"settle\",\"key\":\"z\",\"value\":1}]\n[\"done\",1]\n",
        ..PLAIN
    },
];

const GENERATORS_AND_DERIVED_MODULES: [Case<'static>; 7] = [
    Case {
        name: "a generator to its end",
        input: b"{\"do\":\"cell\",\"module\":0,\"cell\":\"g = { yield 1; yield 2; yield 3; }\"}\n{\"do\":\"frame\"}\n{\"do\":\"frame\"}\n{\"do\":\"frame\"}\n{\"do\":\"frame\"}\n{\"do\":\"frame\"}\n",
        out: b"[\"edit\",0,{\"cell\":\"g = { yield 1; yield 2; yield 3; }\",\"do\":\"cell\",\"module\":0,\"observed\":true}]\n[\"pending\",1,[]]\n[\"fulfilled\",1,1]\n[\"frame\",0]\n[\"fulfilled\",1,2]\n[\"frame\",0]\n[\"fulfilled\",1,3]\n[\"frame\",0]\n[\"ended\",1]\n[\"frame\",0]\n[\"frame\",0]\n[\"value\",1,\"g\",\"fulfilled\",3]\n[\"done\",11]\n",
        ..PLAIN
    },
    Case {
        name: "a generator that asks",
        input: b"{\"do\":\"cell\",\"module\":0,\"cell\":\"g = { yield 1; yield fetch(\\\"k\\\"); }\"}\n{\"do\":\"frame\"}\n{\"do\":\"frame\"}\n{\"do\":\"settle\",\"key\":\"k\",\"value\":7}\n",
        out: b"[\"edit\",0,{\"cell\":\"g = { yield 1; yield fetch(\\\"k\\\"); }\",\"do\":\"cell\",\"module\":0,\"observed\":true}]\n[\"pending\",1,[]]\n[\"fulfilled\",1,1]\n[\"frame\",0]\n[\"asked\",1,1,\"k\"]\n[\"frame\",0]\n[\"settled\",0,1,\"value\",7]\n[\"fulfilled\",1,7]\n[\"value\",1,\"g\",\"fulfilled\",7]\n[\"done\",8]\n",
        ..PLAIN
    },
    Case {
        name: "a cleanup",
        input: b"{\"do\":\"cell\",\"module\":0,\"cell\":\"a = 1\"}\n{\"do\":\"cell\",\"module\":0,\"cell\":\"c = { cleanup \\\"c\\\"; return a; }\"}\n{\"do\":\"define\",\"variable\":1,\"cell\":\"a = 2\"}\n{\"do\":\"dispose\"}\n{\"do\":\"frame\"}\n",
        out: b"[\"edit\",0,{\"cell\":\"a = 1\",\"do\":\"cell\",\"module\":0,\"observed\":true}]\n[\"pending\",1,[]]\n[\"fulfilled\",1,1]\n[\"edit\",0,{\"cell\":\"c = { cleanup \\\"c\\\"; return a; }\",\"do\":\"cell\",\"module\":0,\"observed\":true}]\n[\"pending\",2,[]]\n[\"fulfilled\",2,1]\n[\"edit\",0,{\"cell\":\"a = 2\",\"do\":\"define\",\"variable\":1}]\n[\"pending\",1,[]]\n[\"pending\",2,[\"c\"]]\n[\"fulfilled\",1,2]\n[\"fulfilled\",2,2]\n[\"dispose\",0]\n[\"left\",1,[]]\n[\"left\",2,[\"c\"]]\n[\"refused\",0,20,\"Disposed\",{\"do\":\"frame\"}]\n[\"done\",15]\n",
        ..PLAIN
    },
    Case {
        name: "a derived module",
        input: b"{\"do\":\"module\"}\n{\"do\":\"cell\",\"module\":0,\"cell\":\"b = 2\",\"observed\":false}\n{\"do\":\"cell\",\"module\":0,\"cell\":\"c = b * 10\",\"observed\":false}\n{\"do\":\"cell\",\"module\":1,\"cell\":\"a = 5\",\"observed\":false}\n{\"do\":\"derive\",\"module\":0,\"with\":[{\"name\":\"a\",\"alias\":\"b\"}],\"source\":1}\n{\"do\":\"variable\",\"module\":0}\n{\"do\":\"import\",\"variable\":6,\"name\":\"c\",\"alias\":\"d\",\"from\":2}\n{\"do\":\"redefine\",\"module\":1,\"cell\":\"a = 7\"}\n{\"do\":\"redefine\",\"module\":0,\"cell\":\"b = 3\"}\n",
        out: b"[\"edit\",0,{\"do\":\"module\"}]\n[\"edit\",0,{\"cell\":\"b = 2\",\"do\":\"cell\",\"module\":0,\"observed\":false}]\n[\"edit\",0,{\"cell\":\"c = b * 10\",\"do\":\"cell\",\"module\":0,\"observed\":false}]\n[\"edit\",0,{\"cell\":\"a = 5\",\"do\":\"cell\",\"module\":1,\"observed\":false}]\n[\"edit\",0,{\"do\":\"derive\",\"module\":0,\"source\":1,\"with\":[{\"alias\":\"b\",\"name\":\"a\"}]}]\n[\"edit\",0,{\"do\":\"variable\",\"module\":0,\"observed\":true}]\n[\"edit\",0,{\"alias\":\"d\",\"do\":\"import\",\"from\":2,\"name\":\"c\",\"variable\":6}]\n[\"pending\",3,[]]\n[\"pending\",4,[]]\n[\"pending\",5,[]]\n[\"pending\",6,[]]\n[\"fulfilled\",3,5]\n[\"fulfilled\",4,5]\n[\"fulfilled\",5,50]\n[\"fulfilled\",6,50]\n[\"edit\",0,{\"cell\":\"a = 7\",\"do\":\"redefine\",\"module\":1}]\n[\"pending\",3,[]]\n[\"pending\",4,[]]\n[\"pending\",5,[]]\n[\"pending\",6,[]]\n[\"fulfilled\",3,7]\n[\"fulfilled\",4,7]\n[\"fulfilled\",5,70]\n[\"fulfilled\",6,70]\n[\"edit\",0,{\"cell\":\"b = 3\",\"do\":\"redefine\",\"module\":0}]\n[\"value\",3,\"a\",\"fulfilled\",7]\n[\"value\",4,\"b\",\"fulfilled\",7]\n[\"value\",5,\"c\",\"fulfilled\",70]\n[\"value\",6,\"d\",\"fulfilled\",70]\n[\"done\",25]\n",
        ..PLAIN
    },
    Case {
        name: "two generators in one frame",
        input: b"{\"do\":\"cell\",\"module\":0,\"cell\":\"a = { yield 1; yield 2; }\"}\n{\"do\":\"cell\",\"module\":0,\"cell\":\"b = { yield 10; yield 20; }\"}\n{\"do\":\"cell\",\"module\":0,\"cell\":\"h = a + b\"}\n{\"do\":\"frame\"}\n",
        out: b"[\"edit\",0,{\"cell\":\"a = { yield 1; yield 2; }\",\"do\":\"cell\",\"module\":0,\"observed\":true}]\n[\"pending\",1,[]]\n[\"fulfilled\",1,1]\n[\"edit\",0,{\"cell\":\"b = { yield 10; yield 20; }\",\"do\":\"cell\",\"module\":0,\"observed\":true}]\n[\"pending\",2,[]]\n[\"fulfilled\",2,10]\n[\"edit\",0,{\"cell\":\"h = a + b\",\"do\":\"cell\",\"module\":0,\"observed\":true}]\n[\"pending\",3,[]]\n[\"fulfilled\",3,11]\n[\"frame\",0]\n[\"fulfilled\",1,2]\n[\"fulfilled\",2,20]\n[\"pending\",3,[]]\n[\"fulfilled\",3,22]\n[\"value\",1,\"a\",\"fulfilled\",2]\n[\"value\",2,\"b\",\"fulfilled\",20]\n[\"value\",3,\"h\",\"fulfilled\",22]\n[\"done\",14]\n",
        ..PLAIN
    },
    Case {
        name: "a generator over a generator",
        input: b"{\"do\":\"cell\",\"module\":0,\"cell\":\"a = { yield 1; yield 2; }\"}\n{\"do\":\"cell\",\"module\":0,\"cell\":\"g = { yield a; yield a + 10; }\"}\n{\"do\":\"cell\",\"module\":0,\"cell\":\"b = { yield 10; yield 20; }\"}\n{\"do\":\"frame\"}\n",
        out: b"[\"edit\",0,{\"cell\":\"a = { yield 1; yield 2; }\",\"do\":\"cell\",\"module\":0,\"observed\":true}]\n[\"pending\",1,[]]\n[\"fulfilled\",1,1]\n[\"edit\",0,{\"cell\":\"g = { yield a; yield a + 10; }\",\"do\":\"cell\",\"module\":0,\"observed\":true}]\n[\"pending\",2,[]]\n[\"fulfilled\",2,1]\n[\"edit\",0,{\"cell\":\"b = { yield 10; yield 20; }\",\"do\":\"cell\",\"module\":0,\"observed\":true}]\n[\"pending\",3,[]]\n[\"fulfilled\",3,10]\n[\"frame\",0]\n[\"fulfilled\",1,2]\n[\"fulfilled\",3,20]\n[\"pending\",2,[]]\n[\"fulfilled\",2,2]\n[\"value\",1,\"a\",\"fulfilled\",2]\n[\"value\",2,\"g\",\"fulfilled\",2]\n[\"value\",3,\"b\",\"fulfilled\",20]\n[\"done\",14]\n",
        ..PLAIN
    },
    Case {
        name: "a deep derived module",
        input: b"{\"do\":\"cell\",\"module\":0,\"cell\":\"n = 1\",\"observed\":false}\n{\"do\":\"cell\",\"module\":0,\"cell\":\"v = n + 1\",\"observed\":false}\n{\"do\":\"module\"}\n{\"do\":\"cell\",\"module\":1,\"cell\":\"n = 10\",\"observed\":false}\n{\"do\":\"derive\",\"module\":0,\"with\":[\"n\"],\"source\":1}\n{\"do\":\"variable\",\"module\":1,\"observed\":false}\n{\"do\":\"import\",\"variable\":6,\"name\":\"v\",\"from\":2}\n{\"do\":\"cell\",\"module\":1,\"cell\":\"w = v * 2\",\"observed\":false}\n{\"do\":\"module\"}\n{\"do\":\"cell\",\"module\":3,\"cell\":\"n = 100\",\"observed\":false}\n{\"do\":\"derive\",\"module\":1,\"with\":[\"n\"],\"source\":3}\n{\"do\":\"variable\",\"module\":0}\n{\"do\":\"import\",\"variable\":14,\"name\":\"w\",\"alias\":\"out\",\"from\":4}\n",
        out: b"[\"edit\",0,{\"cell\":\"n = 1\",\"do\":\"cell\",\"module\":0,\"observed\":false}]\n[\"edit\",0,{\"cell\":\"v = n + 1\",\"do\":\"cell\",\"module\":0,\"observed\":false}]\n[\"edit\",0,{\"do\":\"module\"}]\n[\"edit\",0,{\"cell\":\"n = 10\",\"do\":\"cell\",\"module\":1,\"observed\":false}]\n[\"edit\",0,{\"do\":\"derive\",\"module\":0,\"source\":1,\"with\":[{\"alias\":\"n\",\"name\":\"n\"}]}]\n[\"edit\",0,{\"do\":\"variable\",\"module\":1,\"observed\":false}]\n[\"edit\",0,{\"alias\":\"v\",\"do\":\"import\",\"from\":2,\"name\":\"v\",\"variable\":6}]\n[\"edit\",0,{\"cell\":\"w = v * 2\",\"do\":\"cell\",\"module\":1,\"observed\":false}]\n[\"edit\",0,{\"do\":\"module\"}]\n[\"edit\",0,{\"cell\":\"n = 100\",\"do\":\"cell\",\"module\":3,\"observed\":false}]\n[\"edit\",0,{\"do\":\"derive\",\"module\":1,\"source\":3,\"with\":[{\"alias\":\"n\",\"name\":\"n\"}]}]\n[\"edit\",0,{\"do\":\"variable\",\"module\":0,\"observed\":true}]\n[\"edit\",0,{\"alias\":\"out\",\"do\":\"import\",\"from\":4,\"name\":\"w\",\"variable\":14}]\n[\"pending\",8,[]]\n[\"pending\",9,[]]\n[\"pending\",12,[]]\n[\"pending\",13,[]]\n[\"pending\",10,[]]\n[\"pending\",11,[]]\n[\"pending\",14,[]]\n[\"fulfilled\",8,100]\n[\"fulfilled\",9,100]\n[\"fulfilled\",12,100]\n[\"fulfilled\",13,101]\n[\"fulfilled\",10,101]\n[\"fulfilled\",11,202]\n[\"fulfilled\",14,202]\n[\"value\",8,\"n\",\"fulfilled\",100]\n[\"value\",9,\"n\",\"fulfilled\",100]\n[\"value\",10,\"v\",\"fulfilled\",101]\n[\"value\",11,\"w\",\"fulfilled\",202]\n[\"value\",12,\"n\",\"fulfilled\",100]\n[\"value\",13,\"v\",\"fulfilled\",101]\n[\"value\",14,\"out\",\"fulfilled\",202]\n[\"done\",27]\n",
        ..PLAIN
    },
];

#[test]
fn edits_and_fetches(rt: HostRuntime) -> Result<(), Fail> {
    for case in &EDITS_AND_FETCHES {
        check(&rt, rt.alloc(), case)?;
    }
    Ok(())
}

#[test]
fn generators_and_derived_modules(rt: HostRuntime) -> Result<(), Fail> {
    for case in &GENERATORS_AND_DERIVED_MODULES {
        check(&rt, rt.alloc(), case)?;
    }
    Ok(())
}
