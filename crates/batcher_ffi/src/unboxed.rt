//! A box without its type: the pointer and the allocator that it is made of.

ghost use Rattle.std.specs.Prelude.{◌≡◌};

use std::alloc::Allocator;
use std::marker::Model;

// What a box was made of. Beside it `crate::handle` can take a pointer apart from the calls that
// make and free boxes, so that a proof by hand is either of a pointer or of such a call.
pub(crate) struct Unboxed<T, A: Allocator> {
    pub(crate) at: *mut T,
    pub(crate) alloc: A,
    pub(crate) ghost value: { T },
}

impl<T, A: Allocator> Model for Unboxed<T, A> {
    ghost use Rattle.batcher_ffi.specs.Ownership.{block_owned};

    ghost also_owns = { λ u. block_owned T.row (A.dealloc_token u.alloc) u.at u.value };
}

impl<T: Drop, A: Allocator> Unboxed<T, A> {
    // Takes the box apart.
    pub(crate) fn of(whole: Box<T, A>) -> Unboxed<T, A>
        ensures { result.value ≡ whole.value }
    {
        let (at, alloc) = Box::into_raw_with_allocator(whole);
        Unboxed { at, alloc }
    }

    // The box again.
    pub(crate) fn into_box(self) -> Box<T, A>
        ensures { result.value ≡ self.value }
    {
        let Unboxed { at, alloc } = self;
        unsafe { Box::from_raw(alloc, at) }
    }
}
