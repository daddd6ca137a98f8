//! A poll in memory, and the gate that holds nobody.
use nb_poll::{FreeGate, Gate, MemPoll, Moment, Poll};
use std::test::Fail;

// The first call that is answered, 0 for none, and what the first three calls answer.
fn rows() -> [(u64, [Option<u64>; 3]); 4] {
    [
        (0, [None, None, None]),
        (1, [Some(9), Some(9), Some(9)]),
        (2, [None, Some(9), Some(9)]),
        (4, [None, None, None]),
    ]
}

#[test]
fn gives_its_number_from_a_call_on(rt: HostRuntime) -> Result<(), Fail> {
    for (at, answers) in rows() {
        let mut poll = MemPoll::new(at, 9);
        let given = [poll.newer(), poll.newer(), poll.newer()];
        assert!(rt; given == answers);
    }
    Ok(())
}

#[test]
fn holds_nobody(_rt: HostRuntime) -> Result<(), Fail> {
    let gate = FreeGate;
    gate.at(1, Moment::Next { editor: 1 });
    gate.at(
        1,
        Moment::Advanced {
            editor: 1,
            place: 4,
        },
    );
    gate.at(8, Moment::Took { var: 1, start: 2 });
    gate.at(8, Moment::Ran { var: 1, start: 2 });
    gate.at(8, Moment::Placed { var: 1 });
    Ok(())
}
