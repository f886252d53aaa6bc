//! Why an endpoint refuses a call.
ghost use Rattle.std.specs.Prelude.{◌≡◌};
ghost use Rattle.causal_endpoint.specs.declared.fault.EndpointFault.TheVariants.{Node};
ghost use Rattle.causal_node.specs.declared.node_fault.NodeFault.TheVariants.{NoMemory as OutOfMemory};

use causal_name::NoMemory;
use causal_node::node_fault::NodeFault;
use causal_wire::WireFault;
use thiserror::Error;

/// Why an endpoint refuses a call. If several reasons apply, the first in the order of the call's documentation is
/// returned.
#[derive(Clone, Copy, Debug, PartialEq, Eq, Error)]
pub enum EndpointFault {
    /// The bytes are not those of a parcel of the run.
    #[error("{0}")]
    Wire(WireFault),
    /// The parcel is for another process.
    #[error("a parcel for another process")]
    NotMine,
    /// The parcel names this process as its source.
    #[error("a parcel from this process itself")]
    OwnParcel,
    /// The body has 2^32 bytes or more.
    #[error("the body is too long")]
    Long,
    /// The clock would be 2^62 or greater.
    #[error("the clock is too great")]
    Clock,
    /// The node refuses, or allocation failed.
    #[error("{0}")]
    Node(NodeFault),
}

impl From<NodeFault> for EndpointFault {
    ghost from_gives = { λ fault e. e ≡ Node fault };

    fn from(fault: NodeFault) -> EndpointFault {
        EndpointFault::Node(fault)
    }
}

impl From<NoMemory> for EndpointFault {
    ghost from_gives = { λ _ e. e ≡ Node OutOfMemory };

    fn from(_refused: NoMemory) -> EndpointFault {
        EndpointFault::Node(NodeFault::NoMemory)
    }
}
