//! The outputs of the process kinds and of the documented process, on hand-computed values. Drops of a counted process
//! are tested on a core (`cores`).
use crate::runtime::{TestProcess, test_process};
use causal_name::{NoMemory, Pid};
use causal_process::{Body, Input, Outgoing, Process};
use std::alloc::Global;

/// A sender or receiver and the bytes of its message; None for the start, or for no message.
type Told = Option<(u8, &'static [u8])>;

/// Process `me` of n of a kind, and its expected output for each of these inputs in turn.
type Case = (TestProcess, u16, u8, &'static [(Told, Told)]);

// 255 + 255 + 3 is twice 256 plus 1.
const CASES: [Case; 11] = [
    (
        TestProcess::Ring(2),
        3,
        0,
        &[
            (None, Some((1, &[2]))),
            (Some((2, &[5])), Some((1, &[4]))),
            (Some((2, &[0])), None),
            (Some((2, &[])), None),
        ],
    ),
    (TestProcess::Ring(2), 1, 0, &[(None, Some((0, &[2])))]),
    (
        TestProcess::Ring(2),
        256,
        255,
        &[(None, None), (Some((254, &[7, 1])), Some((0, &[6])))],
    ),
    (
        TestProcess::Echo(4),
        3,
        2,
        &[
            (None, None),
            (Some((1, &[3])), Some((1, &[2]))),
            (Some((1, &[0])), None),
        ],
    ),
    (TestProcess::Echo(4), 3, 1, &[(None, Some((0, &[4])))]),
    (TestProcess::Echo(4), 256, 254, &[(None, Some((255, &[4])))]),
    (
        TestProcess::Tally,
        3,
        0,
        &[
            (None, None),
            (Some((1, &[1])), Some((1, &[0, 0, 0, 0, 0, 0, 0, 1]))),
            (Some((2, &[2])), Some((2, &[0, 0, 0, 0, 0, 0, 0, 3]))),
        ],
    ),
    (
        TestProcess::Tally,
        3,
        0,
        &[
            (Some((2, &[2])), Some((2, &[0, 0, 0, 0, 0, 0, 0, 2]))),
            (Some((1, &[1])), Some((1, &[0, 0, 0, 0, 0, 0, 0, 3]))),
        ],
    ),
    (
        TestProcess::Tally,
        3,
        0,
        &[
            (Some((1, &[255])), Some((1, &[0, 0, 0, 0, 0, 0, 0, 255]))),
            (Some((1, &[255])), Some((1, &[0, 0, 0, 0, 0, 0, 1, 254]))),
            (Some((1, &[3])), Some((1, &[0, 0, 0, 0, 0, 0, 2, 1]))),
        ],
    ),
    (
        TestProcess::Tally,
        3,
        2,
        &[(None, Some((0, &[2]))), (Some((0, &[9])), None)],
    ),
    (
        TestProcess::Numbering(254),
        1,
        0,
        &[
            (None, None),
            (Some((3, &[])), Some((3, &[255]))),
            (Some((5, &[])), Some((5, &[0]))),
            (Some((3, &[])), Some((3, &[1]))),
        ],
    ),
];

fn input(alloc: Global, given: Told) -> Result<Input, NoMemory> {
    Ok(match given {
        None => Input::Begin,
        Some((from, bytes)) => Input::Message {
            from: Pid(from),
            body: Body::of(alloc, bytes)?,
        },
    })
}

/// Returns whether the sends are exactly the expected ones.
fn are_expected(sends: &[Outgoing], expected: Told) -> bool {
    match (sends, expected) {
        ([], None) => true,
        ([send], Some((to, bytes))) => send.to == Pid(to) && send.body.as_slice() == bytes,
        _ => false,
    }
}

/// Returns whether a process gives the expected output for each input in turn. After `NoMemory` the same input is given
/// again and must have the output of a single step.
fn answers(alloc: Global, (process, n, me, rows): Case) -> Result<bool, NoMemory> {
    let mut process = test_process(alloc, process, n, me)?;
    for (given, expected) in rows {
        let input = input(alloc, *given)?;
        let sends = match process.step(alloc, &input) {
            Ok(sends) => sends,
            Err(NoMemory) => process.step(alloc, &input)?,
        };
        if !are_expected(sends.as_slice(), *expected) {
            return Ok(false);
        }
    }
    Ok(true)
}

#[test]
fn kinds_answer(rt: HostRuntime) {
    for case in &CASES {
        assert!(rt; matches!(answers(rt.alloc(), *case), Ok(true)));
    }
}
