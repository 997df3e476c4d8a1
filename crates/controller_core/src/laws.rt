//! Laws of the definitions that the contracts cite. Each function does nothing, and its clause is the law.

ghost use Rattle.controller_core.specs.Laws.{WalksOneWay, CompletesOneWay, FetchesOneWay, RefusesOneWay, ServedUnlessMemory};
ghost use Rattle.controller_core.specs.Lending.{NoneLacksAtHand, RefusesAsImage};
ghost use Rattle.controller_core.specs.Resetting.{ResetIsQuiet, QuietUntilTail, IdleUntilCreated, ResetKeepsImage, ResetOnce};

/// The contract of a walk leaves nothing open of the answer, the memory and the touched pages, nor of the controller but how a walk keeps
/// its place.
pub fn walks_go_one_way()
    ensures { WalksOneWay }
{}

/// The contract of a completion leaves nothing open.
#[tactic(auto, using(crate::proofs::Lists::one_completion))]
pub fn completions_go_one_way()
    ensures { CompletesOneWay }
{}

/// The contract of a fetch leaves nothing open but want of memory, and how a walk keeps its place: neither what is answered nor why it is
/// refused. A fetch that can be served is refused for want of memory alone.
#[tactic(auto, using(crate::proofs::Lists::one_fetch, crate::proofs::Lists::one_refusal, crate::proofs::Lists::served_unless_memory))]
pub fn fetches_go_one_way()
    ensures served { FetchesOneWay }
    ensures refused { RefusesOneWay }
    ensures unless_memory { ServedUnlessMemory }
{}

/// Calls over blocks that are lent lack none where all are at hand, and are refused then for what they are refused for over an image.
#[tactic(auto, using(crate::proofs::Ended::none_lacks_at_hand, crate::proofs::Ended::refuses_as_image))]
pub fn lent_blocks_are_an_image()
    ensures fetches { NoneLacksAtHand }
    ensures completes { RefusesAsImage }
{}

/// After a reset, and after one head that is rung then, nothing can be fetched, walked or completed, whatever the controller was; and after
/// one tail that is rung then, still nothing can be fetched from an I/O queue. The image is as it was. A second reset changes nothing.
#[tactic(auto, using(crate::proofs::ResetQueues::reset_quiet, crate::proofs::ResetQueues::quiet_until_tail, crate::proofs::ResetQueues::idle_until_created, crate::proofs::ResetQueues::reset_once))]
pub fn a_reset_leaves_nothing_to_do()
    ensures quiet { ResetIsQuiet }
    ensures until_tail { QuietUntilTail }
    ensures until_created { IdleUntilCreated }
    ensures image { ResetKeepsImage }
    ensures once { ResetOnce }
{}
