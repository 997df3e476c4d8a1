//! A book's brand as another one, whose book takes every step.

use crate::book::{FullLogBrand, LogBrand};
use crate::known_list::Naming;
use std::marker::PhantomData;
use std::sync::ledger::Ledger;

/// The brand `L`, with a book that takes every step. Whoever picks a brand by the ghosts of a call picks a [`LogBrand`], and names its book by
/// this one: a trait with a law, as [`FullLogBrand`], is not picked.
pub struct Full<L>(PhantomData<L>);

impl<L: LogBrand> Ledger for Full<L> {
    ghost name = { L.name };

    ghost parts = { L.parts };
}

impl<L: LogBrand> Naming for Full<L> {
    ghost list = { L.list };
}

impl<L: LogBrand> LogBrand for Full<L> {
    ghost use Rattle.std.specs.Prelude.{false};

    ghost opening = { L.opening };

    ghost jobs_alone = { false };
}

impl<L: LogBrand> FullLogBrand for Full<L> {
    ghost use Rattle.std.specs.Prelude.{refl};

    ghost takes_all = { refl };
}
