//! A box by its pointer, or none: what a value that C keeps stands on.

ghost use Rattle.std.specs.Prelude.{◌≡◌, Option, None, Some, is_some, true};
ghost use Rattle.nvmesgl_c.specs.HeldOwned.{held_owns};

use std::alloc::Allocator;
use std::marker::Model;
use std::ptr::null_mut;

/// A box by its pointer, or none. Contracts see the value in the box.
pub struct Held<T, A: Allocator> {
    /// Where the value is, if there is one.
    pub at: *mut T,
    /// By what the box is freed.
    pub alloc: A,
    pub ghost value: { Option T },
}

impl<T, A: Allocator> Model for Held<T, A> {
    ghost also_owns = { λ h. held_owns (A.dealloc_token h.alloc) T.row h.at h.value };
}

impl<T, A: Allocator> Held<T, A> {
    /// None.
    pub fn none(alloc: A) -> Held<T, A>
        ensures { result.value ≡ None }
    {
        Held {
            at: null_mut(),
            alloc,
        }
    }

    /// The box.
    pub fn of(value: Box<T, A>) -> Held<T, A>
    where
        T: Drop,
        ensures { result.value ≡ Some value.value }
    {
        let (at, alloc) = Box::into_raw_with_allocator(value);
        Held { at, alloc }
    }

    /// The box that there is.
    pub fn into_box(self) -> Box<T, A>
        requires { is_some self.value ≡ true }
        ensures { Some result.value ≡ self.value }
    {
        let Held { at, alloc } = self;
        unsafe { Box::from_raw(alloc, at) }
    }
}
