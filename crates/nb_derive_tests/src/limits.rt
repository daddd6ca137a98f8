//! The reasons against a derive, in their order, and its limits.
use crate::acts::{Act, answer};
use crate::sheets::new_sheet;
use nb_sheet::Sheet;
use std::alloc::Global;
use std::mem::drop;
use std::test::Fail;

// An edit that is made so many times, and the reason against it each time, or 0.
type Step = (Act, u32, u32);

// Of 64 modules, and of 63 where a derive copies two.
const MODULES: &[Step] = &[
    (Act::Derive(1, &[], 0), 1, 1),
    (Act::Derive(0, &[], 1), 1, 1),
    (Act::Module, 1, 0),
    (Act::Derive(0, &[], 0), 1, 0),
    (Act::Variable(1, false), 1, 0),
    (Act::Import(1, "x", "x", 2), 1, 0),
    (Act::Module, 60, 0),
    (Act::Derive(1, &[], 0), 1, 3),
    (Act::Derive(1, &[("x", "x")], 0), 1, 0),
    (Act::Derive(0, &[], 0), 1, 3),
    (Act::Derive(0, &[], 64), 1, 1),
];

// Of 1,025 variables, and of 1,024.
const VARIABLES: &[Step] = &[
    (Act::Cell(0, "x = 1"), 512, 0),
    (Act::Derive(0, &[("y", "y")], 0), 1, 4),
    (Act::Derive(0, &[("x", "x")], 0), 1, 0),
    (Act::Derive(0, &[], 0), 1, 4),
    (Act::Cell(0, "z = 1"), 510, 0),
    (Act::Derive(1, &[], 0), 1, 0),
    (Act::Derive(1, &[], 0), 1, 4),
    (Act::Module, 61, 0),
    (Act::Derive(1, &[], 0), 1, 3),
    (Act::Derive(1, &[], 64), 1, 1),
];

fn comes_out(alloc: Global, sheet: &mut Sheet, step: &Step) -> Result<bool, Fail> {
    let (act, times, reason) = step;
    for _ in 0..*times {
        if answer(alloc, sheet, *act, 1)? != *reason {
            return Ok(false);
        }
    }
    Ok(true)
}

fn all_come_out(alloc: Global, sheet: &mut Sheet, steps: &[Step]) -> Result<bool, Fail> {
    for step in steps {
        if !comes_out(alloc, sheet, step)? {
            return Ok(false);
        }
    }
    Ok(true)
}

fn plays(alloc: Global, steps: &[Step]) -> Result<bool, Fail> {
    let mut sheet = new_sheet(alloc)?;
    let answer = all_come_out(alloc, &mut sheet, steps);
    drop(sheet);
    answer
}

#[test]
fn reasons_against_a_derive_in_order(rt: HostRuntime) -> Result<(), Fail> {
    assert!(rt; plays(rt.alloc(), MODULES)?);
    assert!(rt; plays(rt.alloc(), VARIABLES)?);
    Ok(())
}
