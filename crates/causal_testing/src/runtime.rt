//! The processes that start a core or a shared runtime in tests.
use crate::doubles::{Flood, Refusing};
use crate::example::Numbering;
use causal_name::{NoMemory, Pid};
use causal_process::{Echo, Process, Ring, Tally};
use std::alloc::Global;

pub(crate) type Boxed = Box<dyn Process + Send>;

/// A process for a test, with its first count: of one of the runtime's kinds, the documented process, or a test double.
/// `Flood` sends as many messages as it may. `Refusing` is one of a ring that returns `NoMemory` once, after a number of
/// steps.
#[derive(Clone, Copy)]
pub(crate) enum TestProcess {
    Ring(u8),
    Echo(u8),
    Tally,
    Numbering(u8),
    Flood,
    Refusing(u8, u64),
}

/// Process `me` of n; n is raised to `me` + 1 if it is smaller.
pub(crate) fn test_process(
    alloc: Global,
    process: TestProcess,
    n: u16,
    me: u8,
) -> Result<Boxed, NoMemory> {
    let n = n.max(u16::from(me) + 1);
    let boxed: Boxed = match process {
        TestProcess::Ring(hops) => Box::new(alloc, Ring::new(n, me, hops))?,
        TestProcess::Echo(rounds) => Box::new(alloc, Echo::new(n, me, rounds))?,
        TestProcess::Tally => Box::new(alloc, Tally::new(n, me))?,
        TestProcess::Numbering(count) => Box::new(alloc, Numbering { count })?,
        TestProcess::Flood => Box::new(alloc, Flood { me: Pid(me) })?,
        TestProcess::Refusing(hops, steps) => Box::new(
            alloc,
            Refusing {
                inner: Ring::new(n, me, hops),
                before_refusal: Some(steps),
            },
        )?,
    };
    Ok(boxed)
}

/// All n processes.
pub(crate) fn processes(
    alloc: Global,
    process: TestProcess,
    n: u8,
) -> Result<Vec<Boxed>, NoMemory> {
    let mut boxes = Vec::new(alloc);
    for me in 0..n {
        boxes.push(test_process(alloc, process, u16::from(n), me)?)?;
    }
    Ok(boxes)
}
