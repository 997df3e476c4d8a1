//! What C is told of a step besides its code.

ghost use Rattle.std.specs.Prelude.{◌≡◌, slice_get, unwrap_or, length, min};
ghost use Rattle.nvmesgl_c.specs.Answers as answers;

use controller_walk::WalkState;
use entry_codec::{Hints, Status};
use machine_model::words::{OpenRefusal, Reaped, Refusal, RejectedFor};
use page_memory::PageNo;

/// What a call tells besides its code. A field that the call has nothing to say in is 0.
#[repr(C)]
#[derive(Clone, Copy)]
pub struct Answer {
    /// Of a walk how the list stands: 1 it goes on, 2 its end, 3 a fault, whose status is told. Of a reap what was found: 4 nothing, 5 a
    /// command of an I/O queue has ended, 6 one of queue 0 has, 7 to 9 a completion that was rejected for its queue, its head or its identifier. Of a
    /// call that serves: 10 there is more to do. Of a whole command that was not carried to its end: 11 it is outstanding.
    pub state: u32,
    /// The command specific double word of a completion of queue 0.
    pub dw0: u32,
    /// How many pages are needed, where too few are free.
    pub need: u32,
    /// How many pages are free, where too few are.
    pub free: u32,
    /// How many data pages a reserved command has.
    pub data_pages: u32,
    /// How many chain pages a reserved command has.
    pub chain_pages: u32,
    /// How many bytes were gathered, or would be.
    pub bytes: usize,
    /// The first pages that a step of the controller touched, in order, a page as often as it was touched.
    pub touched: [u32; 4],
    /// How many of them there are.
    pub touched_count: u32,
    /// The identifier that was reserved, fetched, sent or reaped.
    pub cid: u16,
    /// The status code type.
    pub sct: u8,
    /// The status code.
    pub sc: u8,
    /// How many commands a call that serves completed.
    pub count: u32,
    /// The retry delay that was hinted at of a command that was collected.
    pub retry_delay: u8,
    /// Whether there is more on it in the controller's log.
    pub more: bool,
    /// Whether it is expected to fail again.
    pub do_not_retry: bool,
    /// Zeros.
    pub reserved: [u8; 9],
    /// The tag of a host's command of an I/O queue that was reaped or collected.
    pub tag: u64,
}

/// Nothing.
pub fn nothing() -> Answer
    ensures { result ≡ answers.nothing }
{
    Answer {
        state: 0,
        dw0: 0,
        need: 0,
        free: 0,
        data_pages: 0,
        chain_pages: 0,
        bytes: 0,
        touched: [0; 4],
        touched_count: 0,
        cid: 0,
        sct: 0,
        sc: 0,
        count: 0,
        retry_delay: 0,
        more: false,
        do_not_retry: false,
        reserved: [0; 9],
        tag: 0,
    }
}

/// The number of the page at a position in a list, or 0 after its end.
fn page_at(pages: &[PageNo], place: usize) -> u32
    ensures { result ≡ unwrap_or (slice_get pages.now place) 0 }
{
    match pages.get(place) {
        Some(page) => page.0,
        None => 0,
    }
}

/// These pages were touched.
pub fn touching(touched: &[PageNo]) -> Answer
    ensures { result ≡ answers.touching touched.now }
{
    Answer {
        touched: [
            page_at(touched, 0),
            page_at(touched, 1),
            page_at(touched, 2),
            page_at(touched, 3),
        ],
        touched_count: touched.len().min(4) as u32,
        ..nothing()
    }
}

/// A command ended so.
pub fn ended(status: Status) -> Answer
    ensures { result ≡ answers.ended status }
{
    Answer {
        sct: status.sct,
        sc: status.sc,
        ..nothing()
    }
}

/// A command was collected that ended so, with these hints.
pub fn collected(status: Status, hints: Hints) -> Answer
    ensures { result ≡ answers.collected status hints }
{
    Answer {
        retry_delay: hints.retry_delay,
        more: hints.more,
        do_not_retry: hints.do_not_retry,
        ..ended(status)
    }
}

/// How a walk stands, and the pages touched.
pub fn walked(state: WalkState, touched: &[PageNo]) -> Answer
    ensures { result ≡ answers.walked state touched.now }
{
    match state {
        WalkState::More => Answer {
            state: 1,
            ..touching(touched)
        },
        WalkState::End => Answer {
            state: 2,
            ..touching(touched)
        },
        WalkState::Fault(status) => Answer {
            state: 3,
            sct: status.sct,
            sc: status.sc,
            ..touching(touched)
        },
    }
}

/// Why a completion was rejected.
fn rejected(why: RejectedFor) -> Answer
    ensures { result ≡ answers.rejected why }
{
    let state = match why {
        RejectedFor::WrongQueue => 7,
        RejectedFor::BadHead => 8,
        RejectedFor::UnknownId => 9,
    };
    Answer { state, ..nothing() }
}

/// What a reap found.
pub fn reaped(what: Reaped) -> Answer
    ensures { result ≡ answers.reaped what }
{
    match what {
        Reaped::Empty => Answer {
            state: 4,
            ..nothing()
        },
        Reaped::Done { cid, status } => Answer {
            state: 5,
            cid,
            ..ended(status)
        },
        Reaped::AdminDone { cid, status, dw0 } => Answer {
            state: 6,
            cid,
            dw0,
            ..ended(status)
        },
        Reaped::Rejected(why) => rejected(why),
    }
}

/// The numbers of a refusal, and the pages touched before it.
pub fn refused(why: Refusal, touched: &[PageNo]) -> Answer
    ensures { result ≡ answers.refused why touched.now }
{
    match why {
        Refusal::NoPages { need, free } => Answer {
            need,
            free,
            ..touching(touched)
        },
        Refusal::NoRun { need } => Answer {
            need,
            ..touching(touched)
        },
        _ => touching(touched),
    }
}

/// The numbers of an opening that was refused.
pub fn not_opened(why: OpenRefusal) -> Answer
    ensures { result ≡ answers.not_opened why }
{
    match why {
        OpenRefusal::NoPages { need, free } => Answer {
            need,
            free,
            ..nothing()
        },
        OpenRefusal::BadConfig | OpenRefusal::Memory => nothing(),
    }
}
