//! What the definitions give: worked runs, and the law that memory tells pages.

ghost use Rattle.std.specs.Prelude.{◌≡◌, [], ◌∷◌, ℕ, None, Some, length};
ghost use Rattle.page_memory.specs.Memory.{bytes_at, written, pages_reached, page_of};
ghost use Rattle.page_memory.specs.Pages.{Pages, page_at, byte_at, with_bytes, AreWhole};

/// Two pools of equally many whole pages that show the same memory are the same, page by page: what a controller could read, and
/// the size of the pool, tell which pages are in, and their bytes.
#[tactic(auto, using(crate::proofs::Bytes::told))]
pub fn memory_tells_pages()
    ensures { (a b : Pages) → AreWhole a → AreWhole b → length a ≡ length b
        → ((place : ℕ) → byte_at a place ≡ byte_at b place) → a ≡ b }
{}

/// Worked runs of the definitions of addresses, ranges and pages.
#[tactic(auto, unfolding(crate::specs::Memory::bytes_at))]
pub fn worked_places()
    ensures page { page_of 8192 ≡ 2 }
    ensures one_page { pages_reached 4096 4096 ≡ 1 ∷ [] }
    ensures two_pages { pages_reached 8184 16 ≡ 1 ∷ 2 ∷ [] }
    ensures last_place { pages_reached 18446744073709551615 2 ≡ 4503599627370495 ∷ 4503599627370496 ∷ [] }
    ensures page_in { page_at (None ∷ Some (7 ∷ 8 ∷ []) ∷ []) 1 ≡ Some (7 ∷ 8 ∷ []) }
    ensures page_out { page_at (None ∷ Some (7 ∷ 8 ∷ []) ∷ []) 0 ≡ None }
    ensures page_outside { page_at (None ∷ Some (7 ∷ 8 ∷ []) ∷ []) 2 ≡ None }
    ensures byte_in { byte_at (None ∷ Some (7 ∷ 8 ∷ []) ∷ []) 4097 ≡ Some 8 }
    ensures byte_out { byte_at (None ∷ Some (7 ∷ 8 ∷ []) ∷ []) 1 ≡ None }
    ensures bytes { bytes_at (byte_at (Some (7 ∷ 8 ∷ 9 ∷ []) ∷ [])) 1 2 ≡ Some (8 ∷ 9 ∷ []) }
    ensures bytes_missing { bytes_at (byte_at (Some (7 ∷ 8 ∷ 9 ∷ []) ∷ [])) 1 3 ≡ None }
    ensures write { bytes_at (written (byte_at (Some (7 ∷ 8 ∷ 9 ∷ []) ∷ [])) 1 (5 ∷ [])) 0 3 ≡ Some (7 ∷ 5 ∷ 9 ∷ []) }
    ensures set { with_bytes (7 ∷ 8 ∷ 9 ∷ []) 1 (5 ∷ []) ≡ 7 ∷ 5 ∷ 9 ∷ [] }
{}
