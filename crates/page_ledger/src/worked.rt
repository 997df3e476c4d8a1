//! Worked runs of the definitions, on small pools. Each function does nothing.

ghost use Rattle.std.specs.Prelude.{◌≡◌, ◌∷◌, [], Some, None};
ghost use Rattle.page_memory.specs.declared.page.Half.TheVariants.{Submission, Completion};
ghost use Rattle.page_ledger.specs.declared.owner.Owner.TheVariants.{Free, Queue, Command};
ghost use Rattle.page_ledger.specs.declared.owner.Role.TheVariants.{Data, Chain};
ghost use Rattle.page_ledger.specs.Owners.{owner_at, free_pages, given_back, is_command, is_half, is_queue, pages_from, pages_owned, with_owner};
ghost use Rattle.page_ledger.specs.Counting.{counts_of};
ghost use Rattle.page_ledger.specs.Runs.{lowest_run};
ghost use Rattle.page_ledger.specs.Worked.{small_pool};

/// The owners, the pages and the counts of a pool of eight pages.
pub fn pages_of_small_pool()
    ensures owner { owner_at small_pool 2 ≡ Some (Command 1 9 Data) }
    ensures outside { owner_at small_pool 8 ≡ None }
    ensures free { free_pages small_pool ≡ 1 ∷ 4 ∷ 5 ∷ 6 ∷ [] }
    ensures command { pages_owned (is_command 1 9) small_pool ≡ 2 ∷ 3 ∷ [] }
    ensures half { pages_owned (is_half 1 Completion) small_pool ≡ 7 ∷ [] }
    ensures queue { pages_owned (is_queue 1) small_pool ≡ 0 ∷ 7 ∷ [] }
    ensures other { pages_owned (is_queue 2) small_pool ≡ [] }
    ensures counts { counts_of small_pool ≡
        record { free_pages = 4; queue_pages = 2; chain_pages = 1; data_pages = 1 } }
{}

/// The lowest runs of one to four free pages in that pool, and one that ends with its pool.
pub fn runs_of_small_pool()
    ensures one { lowest_run 1 small_pool ≡ Some 1 }
    ensures two { lowest_run 2 small_pool ≡ Some 4 }
    ensures three { lowest_run 3 small_pool ≡ Some 4 }
    ensures four { lowest_run 4 small_pool ≡ None }
    ensures at_end { lowest_run 2 (Free ∷ Queue 1 Completion ∷ Free ∷ Free ∷ []) ≡ Some 2 }
{}

/// Pages that get an owner, and pages that become free again.
pub fn grants_and_give_backs()
    ensures pages { pages_from 3 4 ≡ 3 ∷ 4 ∷ 5 ∷ 6 ∷ [] }
    ensures granted { with_owner (Free ∷ Queue 1 Submission ∷ Free ∷ Free ∷ []) (0 ∷ 2 ∷ []) (Command 1 9 Data)
        ≡ Command 1 9 Data ∷ Queue 1 Submission ∷ Command 1 9 Data ∷ Free ∷ [] }
    ensures command { given_back (is_command 1 9)
        (Command 1 9 Data ∷ Command 2 9 Data ∷ Command 1 8 Data ∷ Command 1 9 Chain ∷ Queue 1 Submission ∷ [])
        ≡ Free ∷ Command 2 9 Data ∷ Command 1 8 Data ∷ Free ∷ Queue 1 Submission ∷ [] }
    ensures half { given_back (is_half 1 Completion)
        (Queue 1 Submission ∷ Queue 1 Completion ∷ Queue 2 Completion ∷ Command 1 9 Data ∷ [])
        ≡ Queue 1 Submission ∷ Free ∷ Queue 2 Completion ∷ Command 1 9 Data ∷ [] }
    ensures queue { given_back (is_queue 1)
        (Queue 1 Submission ∷ Queue 1 Completion ∷ Queue 2 Completion ∷ Command 1 9 Data ∷ [])
        ≡ Free ∷ Free ∷ Queue 2 Completion ∷ Command 1 9 Data ∷ [] }
{}
