//! A heap that refuses on purpose, and what opens in it.

use std::alloc::{Allocator, Global};
use std::process::Abort;
use step_core::Image;
use test_support::Refusing;

/// A heap that refuses on purpose.
pub(crate) type Heap = Refusing<Global>;

/// More growths than anything here has.
pub(crate) const MANY: u64 = 5_000;

/// An image of 64 zero blocks.
pub(crate) fn zeros<A: Allocator, R: Abort>(rt: &R, alloc: A) -> Image<A> {
    match Image::zeroed(alloc, 64) {
        Ok(image) => image,
        Err(_) => panic!(rt; "no image"),
    }
}
