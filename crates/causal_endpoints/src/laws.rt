//! Laws over the definitions. Each function computes nothing: its contract is the law.
ghost use Rattle.causal_endpoints.specs.CallLaws.{EndpointCallsAreNodeCalls, EndpointCallsKeepStates};
ghost use Rattle.causal_endpoints.specs.Systems.{EndpointSystemsAreSafe, EndpointSystemsShareNoSlot};

use causal_calls::laws::{calls_are_steps, systems_are_safe};
use causal_wire::laws::reading_law;

/// Each call that an endpoint does not refuse is a call of its node, with the packets that its parcels' bytes encode, or
/// sends again what the node has sent. It keeps what is true of the state of an endpoint.
pub fn endpoint_calls_are_node_calls()
    ensures calls { EndpointCallsAreNodeCalls }
    ensures kept { EndpointCallsKeepStates }
{
    reading_law();
    calls_are_steps();
}

/// The recording of each system of endpoints that exchange bytes is safe for its bound f at each instant. No two different
/// determinants in the logs of its endpoints share a slot.
pub fn endpoint_systems_are_safe()
    ensures safe { EndpointSystemsAreSafe }
    ensures single { EndpointSystemsShareNoSlot }
{
    reading_law();
    endpoint_calls_are_node_calls();
    systems_are_safe();
}
