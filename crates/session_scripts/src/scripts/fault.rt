//! How a script is played, and what is wrong with it.

use driver_threads::RunFault;
use script_cli::transcripts::{OpeningFault, TranscriptFault};
use std::fmt;
use std::fmt::{Display, Formatter, Write};
use step_core::OpenRefusal;

/// How a script is played.
#[derive(Clone, Copy)]
pub enum Way {
    /// It was not played yet.
    Unplayed,
    /// On a bench, with a growth of its steps refused.
    Bench,
    /// On a bench, with no memory for the calls that take none.
    WithoutMemory,
    /// Through a book, with a growth refused, from its opening to its end.
    Book,
    /// Under a lock.
    Lock,
    /// At two books: a draft of one visits the other, with a growth of the steps refused.
    Visit,
    /// No script, but two submitters in threads, with a growth refused.
    Threads,
}

impl Way {
    /// The words for it.
    fn words(self) -> &'static str {
        match self {
            Way::Unplayed => "before it is played",
            Way::Bench => "on a bench",
            Way::WithoutMemory => "on a bench, without memory",
            Way::Book => "through a book",
            Way::Lock => "behind a lock",
            Way::Visit => "at another book",
            Way::Threads => "in threads",
        }
    }
}

/// How something was played, and what was wrong with it.
#[derive(Clone, Copy)]
pub struct PlayFault {
    /// How it was played.
    pub way: Way,
    /// Which growth was refused, counted from 1; 0 where none was.
    pub growth: u64,
    /// What was wrong.
    pub wrong: Wrong,
}

impl Display for PlayFault {
    fn fmt<W: Write>(&self, f: &mut Formatter<W>) -> fmt::Result {
        let PlayFault { way, growth, wrong } = *self;
        let way = way.words();
        match growth {
            0 => write!(f, "{wrong} ({way})"),
            growth => write!(f, "{wrong} ({way}, growth {growth} refused)"),
        }
    }
}

/// Why a script does not play as its transcript says, or a run does not leave what it must.
#[derive(Clone, Copy)]
pub enum Wrong {
    /// The file is not a transcript.
    Transcript(TranscriptFault),
    /// No bench was opened.
    Opening(OpeningFault),
    /// No book was opened.
    NoBook(OpenRefusal),
    /// Something other than what is in this line is printed; that was told.
    Line(u32),
    /// A run of threads did not come to its end.
    Threads(RunFault),
    /// The file is not there, or is not text.
    Unreadable,
    /// Memory is missing that is not refused on purpose.
    Memory,
    /// A step that wanted memory changed something.
    Changed,
    /// A call that takes no memory asked for some.
    Asked,
    /// Owners, counts, how the book is closed, or what else there is to see.
    Standing,
    /// Pages that refused steps touched.
    Touched,
    /// Blocks of the heap.
    Leaked,
    /// Want of memory though none was refused.
    Unrefused,
    /// Jobs, owners, report or log of a run of threads.
    Outcome,
}

impl Display for Wrong {
    fn fmt<W: Write>(&self, f: &mut Formatter<W>) -> fmt::Result {
        let words = match self {
            Wrong::Transcript(fault) => return write!(f, "{fault}"),
            Wrong::Opening(fault) => return write!(f, "{fault}"),
            Wrong::NoBook(why) => return write!(f, "no book was opened: {why:?}"),
            Wrong::Line(number) => return write!(f, "line {number}"),
            Wrong::Threads(fault) => return write!(f, "{fault}"),
            Wrong::Unreadable => "unreadable",
            Wrong::Memory => "memory",
            Wrong::Changed => "a step wanted memory, and something changed",
            Wrong::Asked => "a call asked for memory that takes none",
            Wrong::Standing => "it does not stand as it must at the end",
            Wrong::Touched => "other pages were touched by steps that were refused",
            Wrong::Leaked => "the heap is not empty at the end",
            Wrong::Unrefused => "memory is wanting, and none was refused",
            Wrong::Outcome => "the run did not leave what it must",
        };
        f.write_str(words)
    }
}
