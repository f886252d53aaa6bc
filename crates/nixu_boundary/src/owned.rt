//! A box as its pointer and its allocator, or nothing.
ghost use Rattle.std.specs.Prelude.{◌≡◌, IsSome, Option, Some, None};
ghost use Rattle.std.specs.Coded.{coded_option};
ghost use Rattle.nixu_boundary.specs.Handles.{held_owns};

use std::alloc::Allocator;
use std::marker::Model;
use std::ptr::null_mut;

/// A box as its pointer and its allocator; or nothing, and then the pointer is not read. Letting go of it frees nothing.
#[derive(Drop)]
pub struct Owned<T, A: Allocator> {
    pub at: *mut T,
    pub alloc: A,
    pub ghost value: { Option T } by { coded_option T.code },
}

impl<T, A: Allocator> Model for Owned<T, A> {
    ghost also_owns = { λ o. held_owns (A.dealloc_token o.alloc) T.row o.at o.value };
}

impl<T: Drop, A: Allocator> Owned<T, A> {
    /// Nothing.
    pub fn none(alloc: A) -> Owned<T, A>
        ensures { result.value ≡ None }
    {
        Owned {
            at: null_mut(),
            alloc,
        }
    }

    /// Takes a box apart.
    pub fn of(value: Box<T, A>) -> Owned<T, A>
        ensures { result.value ≡ Some value.value }
    {
        let (at, alloc) = Box::into_raw_with_allocator(value);
        Owned { at, alloc }
    }

    /// Returns the box.
    pub fn into_box(self) -> Box<T, A>
        requires { IsSome self.value }
        ensures { self.value ≡ Some result.value }
    {
        let Owned { at, alloc } = self;
        unsafe { Box::from_raw(alloc, at) }
    }
}
