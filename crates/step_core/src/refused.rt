//! Which pages a step of the controller touched, and what it answers.

ghost use Rattle.std.specs.Prelude.{◌≡◌, ◌≤◌, [], length};

use arrayvec::ArrayVec;
use controller_walk::WalkState;
use machine_model::words::Refusal;
use page_memory::{PageNo, Store, TouchRecord};
use std::alloc::Allocator;
use std::marker::Model;

/// The pages that a step of the controller touched, in the order in which it touched them. Contracts see that list.
#[derive(Debug, Drop)]
pub struct Touched {
    pages: ArrayVec<PageNo, 4>,
}

impl Model for Touched {
    ghost use Rattle.std.specs.Prelude.{List, ℕ};

    ghost Value = { List ℕ };

    ghost view = { λ t. t.pages.items };
}

/// A step of the controller that was refused. Nothing changed.
#[derive(Debug, Drop)]
pub struct StepRefused {
    /// Why.
    pub why: Refusal,
    /// The pages that it touched before it was refused.
    pub touched: Touched,
}

/// What a fetch answers.
#[derive(Debug, Drop)]
pub struct Fetched {
    /// The identifier of the entry that was fetched.
    pub cid: u16,
    /// The pages that it touched.
    pub touched: Touched,
}

/// What a step of a walk answers.
#[derive(Debug, Drop)]
pub struct Walked {
    /// What the walk answered.
    pub state: WalkState,
    /// The pages that it touched.
    pub touched: Touched,
}

/// What a completion answers.
#[derive(Debug, Drop)]
pub struct Completed {
    /// The page that it touched.
    pub touched: Touched,
}

/// These few pages.
fn listed(numbers: &[PageNo]) -> Touched
    requires { length numbers.now ≤ 4 }
    ensures { result ≡ numbers.now }
{
    let mut pages = ArrayVec::new();
    for number in numbers {
        pages.push(*number);
    }
    Touched { pages }
}

/// The pages that a store noted as touched.
pub(crate) fn touched_by<A: Allocator>(store: &Store<A>) -> Touched
    ensures { result ≡ store.now.touched }
{
    listed(store.touched().as_slice())
}

impl Touched {
    /// No page.
    pub fn none() -> Touched
        ensures { result ≡ [] }
    {
        Touched {
            pages: ArrayVec::new(),
        }
    }

    /// A copy of these pages, to be kept beside an answer that is handed on. It allocates no memory.
    pub fn copied(&self) -> Touched
        ensures { result ≡ self.now }
    {
        listed(&self.pages)
    }

    /// The pages, in the order in which they were touched.
    pub fn pages(&self) -> &[PageNo]
        ensures { result.now ≡ self.now }
    {
        &self.pages
    }
}
