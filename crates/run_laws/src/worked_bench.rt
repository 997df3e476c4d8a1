//! A worked run: what a draft that was filled twice gathers, computed from the definitions. Its function does nothing.
//!
//! The world has 16 pages, one I/O queue of 4 entries and an image of 64 blocks of zeros.
#![tactic(auto, unfolding(page_memory::specs::Pages::zero_page))]

ghost use Rattle.std.specs.Prelude.{◌≡◌, [], ◌∷◌, replicate};
ghost use Rattle.machine_model.specs.Script.{played};
ghost use Rattle.machine_model.specs.WorkedReads.{ordinary};
ghost use Rattle.run_laws.specs.WorkedDrafts.{filled_twice, filled_twice_said, bytes_submitted, a_bench_fills_twice};

/// Two Writes are reserved. The first is filled with three bytes, built, filled with two, and then with more than it has; the other with
/// one byte between.
///
/// What its submitted draft gathers are the two bytes and zeros after them. A bench that opened does those steps: the accepted fills of
/// the first are the two, in order, and leave just these bytes.
pub fn worked_drafts()
    ensures said { played ordinary filled_twice ≡ filled_twice_said }
    ensures submitted { bytes_submitted ≡ (9 ∷ replicate 511 0) ∷ (5 ∷ 6 ∷ replicate 510 0) ∷ [] }
    ensures bench { a_bench_fills_twice }
{}
