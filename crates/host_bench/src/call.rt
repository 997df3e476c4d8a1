//! Calls as values: what a host is told to do, and what it answered.

ghost use Rattle.std.specs.Prelude.{◌≡◌, length};

use entry_codec::{Hints, Status};
use host_core::Doorbell;
use io_commands::{Bytes, Draft, FillFault, Request};
use machine_model::words::{Reaped, Refusal};
use std::alloc::Allocator;

/// A call of a host. Drafts, tickets and finished commands are named by their queue and identifier.
#[derive(Drop)]
pub enum Call<R = Request, B = Bytes> {
    /// Reserve a command.
    Reserve {
        /// The queue.
        q: u16,
        /// What is asked for.
        request: R,
    },
    /// Fill a draft with the bytes, padded with zeros to its Data length.
    Fill {
        /// The draft's queue.
        q: u16,
        /// Its identifier.
        cid: u16,
        /// The bytes.
        bytes: B,
    },
    /// Lay a draft's chain.
    Build {
        /// The draft's queue.
        q: u16,
        /// Its identifier.
        cid: u16,
    },
    /// Submit a draft.
    Submit {
        /// The draft's queue.
        q: u16,
        /// Its identifier.
        cid: u16,
    },
    /// Cancel a draft.
    Cancel {
        /// The draft's queue.
        q: u16,
        /// Its identifier.
        cid: u16,
    },
    /// Tell the value for the tail doorbell of a queue.
    Ring {
        /// The queue.
        q: u16,
    },
    /// Take a completion from a queue.
    Reap {
        /// The queue.
        q: u16,
    },
    /// Collect a finished command by its ticket.
    Collect {
        /// The command's queue.
        q: u16,
        /// Its identifier.
        cid: u16,
    },
    /// Gather a Read's bytes from a finished command; of another kind there are none.
    Gather {
        /// The command's queue.
        q: u16,
        /// Its identifier.
        cid: u16,
    },
    /// Release a finished command.
    Release {
        /// The command's queue.
        q: u16,
        /// Its identifier.
        cid: u16,
    },
    /// Send an Abort.
    Abort {
        /// The queue of the command to abort.
        q: u16,
        /// Its identifier.
        cid: u16,
    },
    /// Send a deletion of a submission queue.
    DeleteSq {
        /// The queue.
        q: u16,
    },
    /// Send a deletion of a completion queue.
    DeleteCq {
        /// The queue.
        q: u16,
    },
    /// Send a creation of a completion queue.
    CreateCq {
        /// The queue.
        q: u16,
        /// The vector of its interrupts; none where it is polled.
        vector: Option<u16>,
    },
    /// Send a creation of a submission queue.
    CreateSq {
        /// The queue.
        q: u16,
    },
    /// Retire a queue whose submission queue is deleted.
    Retire {
        /// The queue.
        q: u16,
    },
    /// Begin again, where the controller is reset.
    Reset,
}

/// A call whose request and bytes are in the memory of one allocator.
pub type CallIn<A> = Call<Request<A>, Bytes<A>>;

/// What a call answered.
#[derive(Drop)]
pub enum Reply<B = Bytes> {
    /// A command was reserved.
    Reserved {
        /// Its queue.
        q: u16,
        /// Its identifier.
        cid: u16,
        /// How many data pages it has.
        data: u32,
        /// How many chain pages it has.
        chain: u32,
    },
    /// It was done, and there is no more to say.
    Accepted,
    /// The value for a tail doorbell.
    Rung(Doorbell),
    /// What a reap found.
    Reaps {
        /// What was found.
        found: Reaped,
        /// Where a completion was taken, the value for the head doorbell.
        bell: Option<Doorbell>,
    },
    /// A command was collected.
    Collected {
        /// How it ended.
        status: Status,
        /// What its completion hinted at.
        hints: Hints,
    },
    /// A Read's bytes, and none of another kind.
    Gathered(B),
    /// An admin command was sent, under this identifier of queue 0.
    Sent {
        /// The identifier.
        cid: u16,
    },
    /// No value of the fitting kind has this queue and identifier.
    NoValue,
    /// A draft was not filled.
    NotFilled(FillFault),
    /// The call was refused: nothing changed.
    Refused(Refusal),
}

/// What a call answered, where its bytes are in the memory of one allocator.
pub type ReplyIn<A> = Reply<Bytes<A>>;

impl<B> Reply<B> {
    /// What is answered of a command that was reserved.
    pub fn reserved<A: Allocator>(draft: &Draft<A>) -> Self
        ensures { result ≡ Reply.Reserved draft.now.q draft.now.cid (length draft.now.data_pages) (length draft.now.chain_pages) }
    {
        let data = draft.request().data_pages();
        let chain = draft.chain_pages().len();
        Reply::Reserved {
            q: draft.q(),
            cid: draft.cid(),
            data: data as u32,
            chain: chain as u32,
        }
    }
}
