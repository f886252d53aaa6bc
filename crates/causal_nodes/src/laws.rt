//! Laws over the definitions. Each function has an empty body: its contract is the law.
ghost use Rattle.causal_nodes.specs.Network.{NodesAreSafe, NodesShareNoSlot, NodesRecover};
ghost use Rattle.causal_nodes.specs.Recordings.{NodesRecordTraces};

/// The recording of each network that nodes reach is safe for its bound f at each instant. No two different determinants
/// that survive in it share a slot, in stable storage, in a log or in transit.
pub fn nodes_are_safe()
    ensures safe { NodesAreSafe }
    ensures single { NodesShareNoSlot }
{}

/// The recording of each network that nodes reach is a well-formed trace, within the limits of any trace.
pub fn nodes_record_traces()
    ensures traces { NodesRecordTraces }
{}

/// A network is reachable in which a process has crashed, and has come up with the determinant of its delivery.
pub fn nodes_recover()
    ensures recovered { NodesRecover }
{}
