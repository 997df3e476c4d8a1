//! Laws of the definitions that the contracts cite. Each function does nothing, and its clause is the law.

ghost use Rattle.std.specs.Prelude.{◌<◌, Bool, ℕ, List};
ghost use Rattle.page_ledger.specs.declared.owner.Owner.{Owner};
ghost use Rattle.page_ledger.specs.Laws.{ListsOwned, ChangesJust, FindsLowestRun, CountsAddUp, GrantLeavesRest, GrantLeavesOthers, GivesBackOwned};

/// The pages of an owner are listed each once, in rising order, and no others.
#[tactic(auto, using(crate::proofs::Tables::owned_listed, crate::proofs::Pages::filter_rising))]
pub fn lists_owned()
    ensures { (test : Owner → Bool) (owners : List Owner) → ListsOwned test owners }
{}

/// Where pages get an owner, just these pages get it.
pub fn changes_just()
    ensures { (owners : List Owner) (pages : List ℕ) (owner : Owner) → ChangesJust owners pages owner }
{}

/// What `lowest_run` finds is the lowest run of this many free pages, and it finds nothing exactly where there is none.
pub fn finds_lowest_run()
    ensures { (k : ℕ) (owners : List Owner) → 0 < k → FindsLowestRun k owners }
{}

/// The four counts add up to the number of pages.
#[tactic(auto, using(crate::proofs::Tables::counts_sum))]
pub fn counts_add_up()
    ensures { (owners : List Owner) → CountsAddUp owners }
{}

/// After the lowest `k` free pages got an owner, the free pages are all others of them.
#[tactic(auto, using(crate::proofs::Tables::free_granted))]
pub fn grant_leaves_rest()
    ensures { (k : ℕ) (owner : Owner) (owners : List Owner) → GrantLeavesRest k owner owners }
{}

/// After any pages got an owner, the free pages are all others that were free.
pub fn grant_leaves_others()
    ensures { (pages : List ℕ) (owner : Owner) (owners : List Owner) → GrantLeavesOthers pages owner owners }
{}

/// A give-back makes just the named owners' pages free; they join the free pages, in rising order.
#[tactic(auto, using(crate::proofs::Tables::given_back_is, crate::proofs::Tables::free_given_back))]
pub fn gives_back_owned()
    ensures { (named : Owner → Bool) (owners : List Owner) → GivesBackOwned named owners }
{}
