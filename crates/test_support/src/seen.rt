//! What a test saw that it does not want.

use std::alloc::{AllocError, Global};
use std::fmt::Debug;

/// What a test has compared, and the first of its comparisons that did not hold.
///
/// A comparison that does not hold lets the test go on, so that a call of it is proved like any other; [`Seen::end`] then fails the test.
#[derive(Debug, Drop)]
pub struct Seen {
    alloc: Global,
    comparisons: u64,
    first: Option<Difference>,
}

/// A comparison that did not hold.
#[derive(Debug, Drop)]
pub struct Difference {
    /// Which of the test's comparisons it was, counted from 1.
    pub comparison: u64,
    /// What was compared, what was found and what was wanted, or that there was no memory to write that down.
    pub text: Result<String, AllocError>,
}

impl Seen {
    /// Nothing is seen yet.
    pub fn new(alloc: Global) -> Seen {
        Seen {
            alloc,
            comparisons: 0,
            first: None,
        }
    }

    /// Sees a value that is to be the one that is wanted.
    pub fn same<T: PartialEq + Debug + Drop>(&mut self, found: T, wanted: T) {
        self.same_at("", found, wanted);
    }

    /// Sees a value that is to be the one that is wanted; `at` tells what it is of.
    pub fn same_at<T: PartialEq + Debug + Drop>(
        &mut self,
        at: impl Debug + Drop,
        found: T,
        wanted: T,
    ) {
        self.comparisons = self.comparisons.wrapping_add(1);
        if self.first.is_none() && found != wanted {
            self.first = Some(Difference {
                comparison: self.comparisons,
                text: format!(in self.alloc; "at {at:?}: found {found:?}, wanted {wanted:?}"),
            });
        }
    }

    /// Sees what is to hold; `what` tells what that is.
    pub fn holds(&mut self, what: &str, holds: bool) {
        self.same_at(what, holds, true);
    }

    /// What a test ends with.
    ///
    /// # Errors
    ///
    /// The first comparison that did not hold.
    pub fn end(self) -> Result<(), Difference> {
        match self.first {
            None => Ok(()),
            Some(difference) => Err(difference),
        }
    }
}
