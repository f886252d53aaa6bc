//! The content of a handle: a reader or a trace in its box, or nothing.
ghost use Rattle.std.specs.Prelude.{◌≡◌, Option, None};
ghost use Rattle.std.specs.Coded.{coded_option};
ghost use Rattle.std_heap.specs.contracts.GlobalAllocator.TheImpl.{ghosts};
ghost use Rattle.nixu_boundary.specs.Handles.{held_owns, count_of};
ghost use Rattle.nixu.specs.declared.handle_content.HandleContent.{HandleContent};
ghost use Rattle.nixu.specs.contracts.handle_content.HandleContent.{the_row};

use crate::handle_content::HandleContent;
use nixu_boundary::content_owner::ContentOwner;
use nixu_boundary::owned::Owned;
use std::alloc::Global;
use std::marker::Model;
use std::mem;

/// A box as its pointer, or nothing, as an [`Owned`]. The pointer is untyped, since no exported struct may contain a
/// pointer to a type with a `Vec`, nor have type arguments.
#[repr(C)]
#[derive(Drop)]
pub struct OwnedBox {
    at: *mut u8,
    alloc: Global,
    pub ghost value: { Option HandleContent } by { coded_option the_row.coded },
}

impl Model for OwnedBox {
    ghost also_owns = { λ h. held_owns (ghosts.dealloc_token h.alloc) the_row h.at h.value };
}

impl OwnedBox {
    fn of(owned: Owned<HandleContent, Global>) -> OwnedBox
        ensures { result.value ≡ owned.value }
    {
        let Owned { at, alloc } = owned;
        OwnedBox {
            at: at as *mut u8,
            alloc,
        }
    }

    fn into_owned(self) -> Owned<HandleContent, Global>
        ensures { result.value ≡ self.value }
    {
        let OwnedBox { at, alloc } = self;
        Owned {
            at: at as *mut HandleContent,
            alloc,
        }
    }
}

/// The C handles `nixu_reader` and `nixu_trace` of nixu.h. A handle whose bytes are all 0 is closed.
#[repr(C)]
#[derive(Drop)]
pub struct Handle {
    pub held: OwnedBox,
    full: u32,
    ghost is: { full ≡ count_of held.value },
}

impl Handle {
    /// A handle with nothing open, as C makes it of bytes that are all 0.
    pub(crate) fn new_closed(alloc: Global) -> Handle
        ensures { result.held.value ≡ None }
    {
        Handle {
            held: OwnedBox::of(Owned::none(alloc)),
            full: 0,
        }
    }
}

impl ContentOwner for Handle {
    type Payload = HandleContent;

    ghost content = { λ h. h.held.value };

    fn is_open(&self) -> bool {
        self.full != 0
    }

    fn replace(
        &mut self,
        next: Owned<HandleContent, Global>,
        full: u32,
    ) -> Owned<HandleContent, Global>
        requires { full ≡ count_of next.value }
        ensures given { result.value ≡ self.old.held.value }
        ensures left { self.new.held.value ≡ next.value }
    {
        let next = Handle {
            held: OwnedBox::of(next),
            full,
        };
        let Handle { held, full: _ } = mem::replace(self, next);
        held.into_owned()
    }
}
