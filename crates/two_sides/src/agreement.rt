//! Laws of states whose sides agree: what each step keeps as long as nothing is forged, said of the state alone. Each function does nothing.

ghost use Rattle.two_sides.specs.AgreeingLaws.{openings_agree, steps_keep_agreement, trusted_runs_agree, agreeing_sides_are_linked, agreed_live_queues_are_there, agreeing_sides_have_room, agreed_admin_commands_stand_once, agreed_jobs_stand, agreed_jobs_keep_their_lists, agreed_chains_stand, agreed_chains_stay, agreeing_steps_stay_allowed};

/// An opening's sides agree, and each step that leads to a trusted state came from one or is a reset, and keeps them so. `law_of_resets` says that a
/// reset makes them agree whatever was forged.
///
/// So they agree after each run in which nothing was forged.
#[tactic(auto, using(crate::proofs::Agreed::step_keeps_agreement))]
pub fn law_of_agreement()
    ensures openings { openings_agree }
    ensures steps { steps_keep_agreement }
    ensures runs { trusted_runs_agree }
{}

/// Where both sides agree, each queue that the controller has, and each that has a job, is at the host with its halves, and a submission queue that
/// is live at the host is there at the controller.
#[tactic(auto, using(crate::proofs::Agreed::agreed_linked, crate::proofs::Agreed::agreed_there))]
pub fn law_of_agreed_queues()
    ensures linked { agreeing_sides_are_linked }
    ensures live { agreed_live_queues_are_there }
{}

/// Where nothing was forged and both sides agree, no step is refused because a ring is full or a page of a queue is out.
#[tactic(auto, using(crate::proofs::Agreed::agreed_room))]
pub fn law_of_agreed_room()
    ensures { agreeing_sides_have_room }
{}

/// Where both sides agree, each admin command is at the controller at most once, and only while it is outstanding.
#[tactic(auto, using(crate::proofs::Agreed::agreed_once))]
pub fn law_of_agreed_places()
    ensures { agreed_admin_commands_stand_once }
{}

/// Where both sides agree, each job of an I/O queue is that of a submitted command, and its walk keeps to the command's pages and,
/// where the command moves data, would end well.
///
/// Where nothing was forged, a step that forges nothing and leaves the job there keeps its list the same.
#[tactic(auto, using(crate::proofs::Agreed::agreed_jobs))]
pub fn law_of_agreed_jobs()
    ensures stand { agreed_jobs_stand }
    ensures keep { agreed_jobs_keep_their_lists }
{}

/// Where both sides agree, the chain of each submitted command that has a list spells its parts, from the descriptor of its entry, and
/// where nothing was forged no step changes a byte of a command's chain pages.
#[tactic(auto, using(crate::proofs::Agreed::agreed_chains, crate::proofs::Agreed::agreed_chain_pages))]
pub fn law_of_agreed_chains()
    ensures stand { agreed_chains_stand }
    ensures stay { agreed_chains_stay }
{}

/// Where nothing was forged and both sides agree, each step of the controller, accepted or refused, touches only allowed pages: a `fetch` and a `complete`
/// pages of their own queue, and a `walk` pages of its own command.
#[tactic(auto, using(crate::proofs::Agreed::agreed_stays))]
pub fn law_of_agreed_touches()
    ensures { agreeing_steps_stay_allowed }
{}
