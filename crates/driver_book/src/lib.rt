//! A book: a world with the log of all its steps, and the seats of those who submit.
//!
//! [`Book`] is the value that a driver keeps under its one lock. Each step of the world is one method, which makes the step and writes it down,
//! unless it answers `Memory`. The log, from the opening on, is a run of the machine that leads to the world as it is ([`Book::check`]). Whoever
//! submits has a [`Seat`], which keeps a receipt for each accepted submission. [`Book::close`] compares the log with the receipts: an answer means
//! that the receipts handed in are the accepted submissions of the log, all of them and no more. [`Book::carry_on`] does so too, and hands out the
//! log and the world, over which a new book opens ([`Book::over`]): so a driver's memory need not grow with all that was done.
//!
//! A ledger of the standard library (`std::sync::ledger`) counts the submissions on either side. It is the type parameter of a book and
//! of its seats, so a seat is always one of its own book.
//!
//! World, log, receipts and report are in the memory of the allocator with which the book was opened, and so is all that is handed in and out, except
//! the request of [`Book::least_pages`]. It is [`Global`](std::alloc::Global) where none is named.
//!
//! The log is a [`Log`], a value of its own: it keeps an [`Entry`] for each step, with who made it, the step, what it answered, and for a reservation
//! and a submission what the draft was. Requests and drafts are in a list of their own, the pieces of all requests in one list, one after another,
//! and the page numbers of all drafts in another; an entry names positions in them. So an entry takes no memory of its own: the four lists grow by
//! [`Log::make_room`], and an entry that has room is written without more memory.
//!
//! `specs/History.antt` says where a log leads, `specs/Entries.antt` what contracts see of it, `specs/Keeping.antt` how entries are kept, `specs/Calls.antt` what the
//! calls do, `specs/Close.antt` what it is to close a book.
#![tactic(auto)]

mod admin;
mod book;
mod carry;
mod close;
mod controller;
mod ends;
mod entry;
mod full;
mod host;
mod keep;
mod known_list;
pub mod laws;
mod log;
mod look;
mod machine;
mod note;
mod report;
mod seat;
mod shown;
mod submissions;
mod two_passes;

pub use book::{BlankBook, Book, BookRefused, FullLogBrand, LogBrand};
pub use carry::{CarryRefused, ClosedLog};
pub use close::CloseRefused;
pub use entry::{Entry, KeptStep, LoggedDraft, NoBytes};
pub use full::Full;
pub use known_list::{Naming, Unnamed};
pub use log::Log;
pub use report::{Asked, CloseFault, NoSeat, Receipt, Receipts, Report, ReportIn};
pub use seat::Seat;
pub use shown::{PageNumbers, PieceList, ShownEntry, ShownStep};
pub use submissions::UnnamedDrafts;
