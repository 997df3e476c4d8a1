//! A book as the value under a lock.

ghost use Rattle.std.specs.Prelude.{◌≡◌};

use crate::book::{Book, LogBrand};
use shared::Machine;
use std::alloc::Allocator;

impl<L: LogBrand, A: Allocator + Copy> Machine for Book<L, A> {
    ghost use Rattle.std.specs.Prelude.{◌≡◌};
    ghost use Rattle.driver_book.specs.State.{IsBookOf};

    ghost is = { IsBookOf L.opening };

    ghost stays = { λ before after. after ≡ record before { touches = after.touches } };

    fn confirm(&self) {
        self.check();
    }

    fn can_reap(&mut self) -> bool {
        self.next_completion().is_some()
    }

    fn can_serve(&mut self) -> bool {
        self.next_step().is_some()
    }
}
