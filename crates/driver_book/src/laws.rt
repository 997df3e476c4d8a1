//! Laws of logs. Each function does nothing.

ghost use Rattle.driver_book.specs.Laws.{entries_name_allowed_pages, logs_are_trusted_runs, logs_of_jobs_are_trusted_runs, pieces_are_one_history, trusted_ends_are_unforged};

/// Each entry of a log that leads from an opening tells of a step between two states; and where the first is trusted, it names
/// allowed pages alone: a fetch and a completion those of their own queue, a walk those of its own command.
pub fn law_of_entries()
    ensures { entries_name_allowed_pages }
{}

/// A log that leads from an opening, and in which no forgery was accepted, is a run covered by the machine's laws of trusted runs, resets and all; it
/// ends in a trusted state.
pub fn law_of_logs()
    ensures { logs_are_trusted_runs }
{}

/// So is a log of the steps of jobs alone.
pub fn law_of_logs_of_jobs()
    ensures { logs_of_jobs_are_trusted_runs }
{}

/// A log that leads to a trusted state, from wherever it began, has no accepted forgery since the last reset in it.
pub fn law_of_trusted_ends()
    ensures { trusted_ends_are_unforged }
{}

/// The logs of two books, the second opened over the world of the first, are one history: one after the other, they lead from where the first opened
/// to where the second leads. So are the logs of any number of such books.
pub fn law_of_pieces()
    ensures { pieces_are_one_history }
{}
