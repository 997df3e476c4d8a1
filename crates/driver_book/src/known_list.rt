//! A list that one owner lengthens, and that everybody may know a beginning of. Its entries exist in the proofs alone.
//!
//! No clause can compare what two threads found under a lock, or one thread at two moments. A [`KnownList`] kept under the lock beside the data makes
//! up for that: its owner records what happens with [`KnownList::push`], which cannot fail, and hands out a [`Beginning`], which may go anywhere.
//! Later, [`KnownList::begins_with`] shows that the list has only grown since then. No value here has bytes, and no function does anything at run
//! time.

ghost use Rattle.std.specs.Prelude.{◌≡◌, ℕ, ◌++◌, ◌∷◌, [], List};
ghost use base.Stored.{coded_list};
ghost use denote.Sharing.{said};
ghost use mathlib.Core.List.{IsPrefix};
ghost use Rattle.driver_book.specs.KnownLists.{grows, reached};

use std::marker::{Brand, Model, PhantomData};

/// Which list it is: picked when it is named.
pub trait Naming {
    ghost list: { ℕ };
}

impl Naming for Brand {
    ghost list = { 0 };
}

/// An empty list that no type names yet.
pub struct Unnamed<E> {
    marker: PhantomData<E>,
    /// The name that it is to have.
    pub ghost name: { ℕ },
}

impl<E> Model for Unnamed<E> {
    ghost also_owns = { λ l. grows E.row.coded.code l.name [] };
}

impl<E> Unnamed<E> {
    /// A new list.
    pub fn new() -> Unnamed<E> {
        Unnamed {
            marker: PhantomData,
        }
    }

    /// The list under its name.
    pub fn named<N: Naming>(self) -> KnownList<E, N>
        requires { self.name ≡ N.list }
        ensures { result.entries ≡ [] }
    {
        let Self { marker: _ } = self;
        KnownList {
            marker: PhantomData,
        }
    }
}

/// A list that only its owner lengthens.
pub struct KnownList<E, N: Naming> {
    marker: PhantomData<(E, N)>,
    /// Its entries.
    pub ghost entries: { List E } by { coded_list E.code },
}

impl<E, N: Naming> Model for KnownList<E, N> {
    ghost also_owns = { λ l. grows E.row.coded.code N.list l.entries };
}

impl<E, N: Naming> KnownList<E, N> {
    /// Puts an entry at the end.
    pub fn push(&mut self, entry: &E)
        ensures { self.new.entries ≡ self.old.entries ++ entry.now ∷ [] }
    {}

    /// The list as it is, to be known anywhere.
    pub fn beginning(&mut self) -> Beginning<E, N>
        ensures entries { result.entries ≡ self.old.entries }
        ensures same { self.new ≡ self.old }
    {
        Beginning {
            marker: PhantomData,
        }
    }

    /// Shows that the list begins with what was known of it, and changes nothing.
    pub fn begins_with(&mut self, known: &Beginning<E, N>)
        ensures same { self.new ≡ self.old }
        ensures begins { IsPrefix known.now.entries self.new.entries }
    {}
}

/// What a list began with when it was asked for.
pub struct Beginning<E, N: Naming> {
    marker: PhantomData<(E, N)>,
    /// Those entries.
    pub ghost entries: { List E } by { coded_list E.code },
}

impl<E, N: Naming> Model for Beginning<E, N> {
    ghost also_owns = { λ b. reached E.row.coded.code N.list b.entries };

    ghost also_shares = { λ b _ κ. said (reached E.row.coded.code N.list b.entries) κ };
}

impl<E> Drop for Unnamed<E> {
    fn drop(self) {
        let Self { marker: _ } = self;
    }
}

impl<E, N: Naming> Drop for KnownList<E, N> {
    fn drop(self) {
        let Self { marker: _ } = self;
    }
}

impl<E, N: Naming> Drop for Beginning<E, N> {
    fn drop(self) {
        let Self { marker: _ } = self;
    }
}

unsafe impl<E, N: Naming> Send for KnownList<E, N> {}

unsafe impl<E, N: Naming> Send for Beginning<E, N> {}

unsafe impl<E, N: Naming> Sync for Beginning<E, N> {}
