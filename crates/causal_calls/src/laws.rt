//! Laws over the definitions. Each function computes nothing: its contract is the law.
ghost use Rattle.causal_calls.specs.StepLaws.{CallsAreSteps, CallsKeepNodeStates};
ghost use Rattle.causal_calls.specs.Systems.{SystemsAreSafe, SystemsShareNoSlot};

use causal_nodes::laws::nodes_are_safe;

/// Each call that a node does not refuse is one step of the process that its state represents, or gives up a round or
/// forgets nothing, which are none. It keeps what is true of the state of a node.
pub fn calls_are_steps()
    ensures steps { CallsAreSteps }
    ensures kept { CallsKeepNodeStates }
{}

/// The recording of each system whose processes make only the calls of nodes is safe for its bound f at each instant. No
/// two different determinants in the logs of its nodes share a slot.
pub fn systems_are_safe()
    ensures safe { SystemsAreSafe }
    ensures single { SystemsShareNoSlot }
{
    nodes_are_safe();
}
