//! A host and a controller over one pool of pages are the machine, step by step, and a reset of both ties them again, whatever was forged.
//!
//! There is no code here: each public function has an empty body, and its clauses are what is proved. [`agreement`] has laws of states of the machine
//! whose sides agree, [`laws`] has laws of every step and run that speak of both sides, of order, answers and trust, of resets, and of lists and
//! slots in memory. The other functions say that a call of a side is a step of the machine.
#![tactic(auto)]

pub mod agreement;
mod completing;
mod doorbells;
mod fetching;
mod forging;
mod hosts;
pub mod laws;
mod opening;
mod resetting;
mod seeing;
mod walking;

pub use completing::{completes_are_the_machines, completes_refuse_as_the_machine};
pub use doorbells::doorbells_are_heard;
pub use fetching::{fetches_are_the_machines, fetches_refuse_as_the_machine};
pub use forging::forged_entries_are_the_machines;
pub use hosts::{
    forged_hosts_are_the_machine, hosts_answer_as_the_machine, hosts_are_the_machine,
    hosts_keep_their_queues, hosts_refuse_as_the_machine,
};
pub use opening::opened_sides_are_the_machine;
pub use resetting::resets_are_the_machines;
pub use seeing::completions_are_seen_alike;
pub use walking::{walks_are_the_machines, walks_refuse_as_the_machine};
