//! The boxes of the up processes, in slots.
ghost use Rattle.std.specs.Prelude.{◌≡◌, ◌≤◌, ◌<◌, length, map, is_some, slice_set, true, false, IfOk, OnErr, vec_len};
ghost use Rattle.causal_process.specs.declared.message.Input.TheVariants.{Begin};
ghost use Rattle.causal_core.specs.Boxes.{box_answers, AnswersUnchanged, HoldsBox, HoldsNone, SameElsewhere};
ghost use Rattle.causal_core.specs.Inside.Slots.{HasBox, BoxSteps, IsStepResult, SlotSteps};

use causal_name::NoMemory;
use causal_process::{Input, Outgoing, Process};
use std::alloc::Global;

/// Gives the box of a slot its next input, and returns its sends.
fn step_slot(
    slot: &mut Option<Box<dyn Process + Send>>,
    alloc: Global,
    input: &Input,
) -> Result<Vec<Outgoing>, NoMemory>
    requires { is_some slot.old ≡ true }
    ensures ok { IfOk result (λ sends. SlotSteps answers input.now sends.items slot.old slot.new) }
    ensures few { IfOk result (λ sends. length sends.items ≤ 8) }
    ensures err { OnErr result (AnswersUnchanged (box_answers answers) slot.old slot.new) }
    ensures kept { is_some slot.new ≡ is_some slot.old }
{
    let Some(process) = slot else { unreachable!() };
    process.step(alloc, input)
}

/// Gives a box its first input, `Begin`, and returns its sends.
pub(crate) fn begin_box(
    process: &mut Box<dyn Process + Send>,
    alloc: Global,
) -> Result<Vec<Outgoing>, NoMemory>
    ensures ok { IfOk result (λ sends. BoxSteps answers Begin sends.items process.old process.new) }
    ensures few { IfOk result (λ sends. length sends.items ≤ 8) }
    ensures err { OnErr result (AnswersUnchanged answers process.old process.new) }
{
    process.step(alloc, &Input::Begin)
}

/// Gives the box of slot q its next input, and returns its sends. If allocation fails, all boxes answer as before.
pub(crate) fn step_box(
    slots: &mut Vec<Option<Box<dyn Process + Send>>>,
    q: usize,
    alloc: Global,
    input: &Input,
) -> Result<Vec<Outgoing>, NoMemory>
    requires { HasBox slots.old.items q }
    ensures { IsStepResult answers q input.now result slots.old.items slots.new.items }
{
    step_slot(&mut slots[q], alloc, input)
}

/// Removes the box of slot p, and drops it.
pub(crate) fn drop_box(slots: &mut Vec<Option<Box<dyn Process + Send>>>, p: usize)
    requires { p < vec_len slots.old }
    ensures empty { HoldsNone answers p slots.new.items }
    ensures others { SameElsewhere answers p slots.old.items slots.new.items }
    ensures filled { map is_some slots.new.items ≡ slice_set (map is_some slots.old.items) p false }
{
    slots[p] = None;
}

/// Puts a box into slot p.
pub(crate) fn put_box(
    slots: &mut Vec<Option<Box<dyn Process + Send>>>,
    p: usize,
    process: Box<dyn Process + Send>,
)
    requires { p < vec_len slots.old }
    ensures there { HoldsBox answers p process slots.new.items }
    ensures others { SameElsewhere answers p slots.old.items slots.new.items }
    ensures filled { map is_some slots.new.items ≡ slice_set (map is_some slots.old.items) p true }
{
    slots[p] = Some(process);
}
