//! The host: each event but a reset is one step of the machine with no controller.

use crate::spare::Spares;
use crate::tables::HostTables;
use std::alloc::{Allocator, Global};
use std::marker::Model;

/// A host. Contracts see it as the machine's host, with the entries of its rings and the descriptors of a full segment.
pub struct Host<A: Allocator = Global> {
    pub(crate) parts: HostTables<A>,
    /// The lists of commands that are over. Contracts see nothing of them.
    pub(crate) spares: Spares<A>,
}

impl<A: Allocator> Drop for Host<A> {
    fn drop(self) {
        let Self {
            parts: _,
            spares: _,
        } = self;
    }
}

impl<A: Allocator> Model for Host<A> {
    ghost use Rattle.std.specs.Prelude.{[]};
    ghost use Rattle.host_core.specs.Alone.{HostView};
    ghost use Rattle.host_core.specs.Parts.{tables_of};
    ghost use Rattle.host_core.specs.Tables.{view_of};
    ghost use Rattle.host_core.specs.Whole.{IsHost};

    ghost Value = { HostView };

    ghost view = { λ h. view_of (tables_of h.parts []) };

    ghost invariant = { λ h. IsHost (tables_of h.parts []) };
}
