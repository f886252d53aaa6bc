//! The content of a handle: an open node in its box, or nothing.
ghost use Rattle.std.specs.Prelude.{◌≡◌, Option, None};
ghost use Rattle.std.specs.Coded.{coded_option};
ghost use Rattle.std_heap.specs.contracts.GlobalAllocator.TheImpl.{ghosts};
ghost use Rattle.nixu_boundary.specs.Handles.{held_owns, count_of};
ghost use Rattle.nixu_node.specs.declared.open_node.OpenNode.{OpenNode};
ghost use Rattle.nixu_node.specs.contracts.open_node.OpenNode.{the_row};

use crate::open_node::OpenNode;
use nixu_boundary::content_owner::ContentOwner;
use nixu_boundary::owned::Owned;
use std::alloc::Global;
use std::marker::Model;
use std::mem;

/// A box as its pointer, or nothing, as an [`Owned`]. The pointer is untyped, since no exported struct may contain a
/// pointer to a type with a `Vec`, nor have type arguments.
#[repr(C)]
#[derive(Drop)]
pub struct OwnedNode {
    at: *mut u8,
    alloc: Global,
    pub ghost value: { Option OpenNode } by { coded_option the_row.coded },
}

impl Model for OwnedNode {
    ghost also_owns = { λ h. held_owns (ghosts.dealloc_token h.alloc) the_row h.at h.value };
}

impl OwnedNode {
    fn of(owned: Owned<OpenNode, Global>) -> OwnedNode
        ensures { result.value ≡ owned.value }
    {
        let Owned { at, alloc } = owned;
        OwnedNode {
            at: at as *mut u8,
            alloc,
        }
    }

    fn into_owned(self) -> Owned<OpenNode, Global>
        ensures { result.value ≡ self.value }
    {
        let OwnedNode { at, alloc } = self;
        Owned {
            at: at as *mut OpenNode,
            alloc,
        }
    }
}

/// The C handle `nixu_node` of nixu.h. A handle whose bytes are all 0 is closed.
#[repr(C)]
#[derive(Drop)]
pub struct NodeHandle {
    pub held: OwnedNode,
    full: u32,
    ghost is: { full ≡ count_of held.value },
}

impl NodeHandle {
    /// A handle with nothing open, as C makes it of bytes that are all 0.
    pub(crate) fn new_closed(alloc: Global) -> NodeHandle
        ensures { result.held.value ≡ None }
    {
        NodeHandle {
            held: OwnedNode::of(Owned::none(alloc)),
            full: 0,
        }
    }
}

impl ContentOwner for NodeHandle {
    type Payload = OpenNode;

    ghost content = { λ h. h.held.value };

    fn is_open(&self) -> bool {
        self.full != 0
    }

    fn replace(&mut self, next: Owned<OpenNode, Global>, full: u32) -> Owned<OpenNode, Global>
        requires { full ≡ count_of next.value }
        ensures given { result.value ≡ self.old.held.value }
        ensures left { self.new.held.value ≡ next.value }
    {
        let next = NodeHandle {
            held: OwnedNode::of(next),
            full,
        };
        let NodeHandle { held, full: _ } = mem::replace(self, next);
        held.into_owned()
    }
}
