//! The machine, defined: host, memory and controller of this project as one state of lists, what each of its eighteen
//! events may answer and leave, and laws of what the host owns.
//!
//! There is no code here but the types of [`words`]. Each public function does nothing, and its clauses are what is proved: in [`laws`] laws of
//! every step or run, in [`worked`] whole runs that are computed from the definitions. `two_sides` and `run_laws`, above, have the other
//! laws. A reader begins with the crate's `README.md`.
//!
//! - `specs/State.antt` is the state, `specs/Events.antt` the events, replies and refusals.
//! - `specs/Refusals.antt` says which refusal an event meets, `specs/After.antt` what an accepted one leaves, and
//!   `specs/Step.antt` puts both together: `Step old event reply new`. `specs/Run.antt` has runs of steps.
//! - `specs/Claims.antt` says who claims which page, `specs/Touch.antt` which pages the controller may touch, and
//!   `specs/Image.antt` which image a run leaves.
//! - `specs/Agreeing.antt` says what both sides agree on as long as nothing is forged, as a predicate of the state, and
//!   `specs/Always.antt` what the host has whatever was forged.
//! - `specs/Trusted.antt` has the runs in which nothing was forged.
//!
//! What an event does is this project's own. Commands, entries, statuses and queues are those of the NVM Express Base
//! Specification 2.0 and the NVM Command Set Specification 1.0.
#![tactic(auto)]

pub mod laws;
pub mod words;
pub mod worked;
