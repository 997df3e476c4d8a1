//! What a book writes down, and what it hands out.

ghost use Rattle.std.specs.Prelude.{◌≡◌, map};
ghost use Rattle.driver_book.specs.Entries.{asked_of};

use entry_codec::Status;
use io_commands::{BlockSize, Flags, Kind, RequestOf};
use page_ledger::Counts;
use std::alloc::{Allocator, Global};
use std::marker::Model;
use thiserror::Error;

/// What a command asks for, apart from its pieces.
#[derive(Clone, Copy, Debug, PartialEq, Eq)]
pub struct Asked {
    /// Its first block.
    pub slba: u64,
    /// How many blocks it moves.
    pub blocks: u32,
    /// Its namespace.
    pub nsid: u32,
    /// Which I/O command.
    pub kind: Kind,
    /// Its flags.
    pub flags: Flags,
    /// How many bytes its blocks have.
    pub block_size: BlockSize,
}

impl Asked {
    /// What a request asks for.
    pub fn of<P>(request: &RequestOf<P>) -> Asked
        ensures { result ≡ asked_of request.now }
    {
        Asked {
            kind: request.kind,
            nsid: request.nsid,
            flags: request.flags,
            block_size: request.block_size,
            slba: request.slba,
            blocks: request.blocks,
        }
    }
}

/// What a seat knows of a command that it submitted: which submission it is, what it asks for, and how it ended.
#[derive(Clone, Copy, Debug, PartialEq, Eq)]
pub struct Receipt {
    /// Which accepted submission of the book it is, from 0.
    pub number: u64,
    /// What it asks for, as its draft said.
    pub asked: Asked,
    /// The command's queue.
    pub q: u16,
    /// Its identifier.
    pub cid: u16,
    /// How it ended, once it was released.
    pub status: Option<Status>,
}

/// No seat was made: 65,535 were.
#[derive(Clone, Copy, Debug, PartialEq, Eq, Error)]
#[error("all seats are taken")]
pub struct NoSeat;

/// Why a book was not closed: the first of these that holds.
#[derive(Clone, Copy, Debug, PartialEq, Eq, Error)]
pub enum CloseFault {
    /// The first accepted submission that stands in no receipt handed in.
    #[error("submission {number} of seat {seat} stands in no receipt")]
    Missing {
        /// The seat that made it, as the log says.
        seat: u16,
        /// Its number.
        number: u64,
    },
    /// Fewer seats were handed in than were made and no earlier close took.
    #[error("a seat was not handed in")]
    SeatOut,
    /// A receipt has no status, or a command is outstanding.
    #[error("a command is still outstanding")]
    StillOut,
    /// Memory was refused.
    #[error("memory was refused")]
    Memory,
}

/// The receipts of seats, one list for each. Contracts see these lists.
#[derive(Debug, Drop)]
pub struct Receipts<A: Allocator = Global> {
    lists: Vec<Vec<Receipt, A>, A>,
}

impl<A: Allocator> Model for Receipts<A> {
    ghost use Rattle.std.specs.Prelude.{List, map};
    ghost use Rattle.driver_book.specs.declared.report.Receipt.{Receipt};

    ghost Value = { List (List Receipt) };

    ghost view = { λ r. map (λ list. list.items) r.lists.items };
}

impl<A: Allocator> Receipts<A> {
    /// These lists.
    pub(crate) fn of(lists: Vec<Vec<Receipt, A>, A>) -> Self
        ensures { result ≡ map (λ list. list.items) lists.items }
    {
        Receipts { lists }
    }

    /// The lists, one for each seat.
    pub fn as_slice(&self) -> &[Vec<Receipt, A>]
        ensures { map (λ list. list.items) result.now ≡ self.now }
    {
        &self.lists
    }
}

/// What a closed book says.
#[derive(Debug, Drop)]
pub struct Report<R = Receipts> {
    /// How many submissions were accepted.
    pub submissions: u64,
    /// How many pages each class has.
    pub counts: Counts,
    /// The receipts of the seats, in the order in which they were handed in.
    pub receipts: R,
}

/// A report whose receipts are in the memory of one allocator.
pub type ReportIn<A> = Report<Receipts<A>>;
