//! The book itself: how it opens and ends, and what it shows.

ghost use Rattle.std.specs.Prelude.{◌≡◌, ◌+◌, ◌<◌, ◌≤◌, [], false, true, length, None, Some, IfOk, IfErr, OnOk, OnErr};
ghost use mathlib.Core.List.{IsPrefix};
ghost use Rattle.std.specs.Bool.{OnTrue};
ghost use Rattle.std.specs.List.{Contains};
ghost use Rattle.machine_model.specs.Claims.{claims_of, counts_of, IsSound};
ghost use Rattle.page_ledger.specs.Counting.{total};
ghost use Rattle.host_core.specs.Opening.{refusal_of_config, RefusesOpening};
ghost use Rattle.step_core.specs.Opening.{opening_of};
ghost use Rattle.driver_book.specs.History.{accepted, last_place, LeadsBy, LeadsTo};
ghost use Rattle.driver_book.specs.State.{AreOfJobs, BookContents};

use crate::Log;
use crate::known_list::{Naming, Unnamed};
use crate::report::NoSeat;
use crate::seat::Seat;
use crate::submissions::{Submissions, UnnamedDrafts};
use block_image::Image;
use page_ledger::{Counts, Owner};
use page_memory::PageNo;
use std::alloc::{Allocator, Global};
use std::marker::{Brand, Model};
use std::sync::ledger;
use std::sync::ledger::{Blank, Ledger, Share};
use step_core::{Config, Ended, OpenRefusal, World};

/// The brand of one book: its ledger, the list of its submissions, and what contracts alone know of that book: the state with which it opens, and whether it takes the steps of
/// jobs alone.
pub trait LogBrand: Ledger + Naming {
    ghost use Rattle.std.specs.Prelude.{Bool};
    ghost use Rattle.machine_model.specs.State.{State};

    ghost opening: { State };

    ghost jobs_alone: { Bool };
}

/// The brand of a book that takes every step: admin commands, retirements, forged entries and resets too.
pub trait FullLogBrand: LogBrand {
    ghost use Rattle.std.specs.Prelude.{◌≡◌, false};

    ghost takes_all: { Self.jobs_alone ≡ false };
}

impl LogBrand for Brand {
    ghost use Rattle.std.specs.Prelude.{[], false};
    ghost use Rattle.machine_model.specs.Opening.{opening as opening_of_numbers};

    ghost opening = { opening_of_numbers 0 0 0 0 [] };

    ghost jobs_alone = { false };
}

impl FullLogBrand for Brand {
    ghost use Rattle.std.specs.Prelude.{refl};

    ghost takes_all = { refl };
}

/// What a book opens with, and no other book: a ledger of 65,536 parts, and a list of submissions that has none yet. It takes no memory.
#[derive(Drop)]
pub struct BlankBook<A: Allocator = Global> {
    /// The ledger.
    pub ledger: Blank,
    /// The list.
    pub drafts: UnnamedDrafts<A>,
}

impl<A: Allocator> BlankBook<A> {
    /// One more.
    pub fn new() -> Self
        ensures { result.ledger.parts ≡ 65536 }
    {
        BlankBook {
            ledger: Blank::new(65536),
            drafts: Unnamed::new(),
        }
    }
}

/// A book that was not opened: why, and what was handed in.
#[derive(Drop)]
pub struct BookRefused<A: Allocator = Global> {
    /// Why.
    pub why: OpenRefusal,
    /// The image, as it was handed in.
    pub image: Image<A>,
    /// The ledger and the list of submissions, as they were handed in.
    pub blank: BlankBook<A>,
}

/// A world, and the log of all its steps since it opened, in the memory of one allocator. Contracts see both, and the
/// rest of `BookContents`.
pub struct Book<L: LogBrand, A: Allocator = Global> {
    pub(crate) alloc: A,
    pub(crate) world: World<A>,
    pub(crate) log: Log<A>,
    pub(crate) submissions: Submissions<L, A>,
    pub(crate) tally: ledger::Book<L>,
    pub(crate) rest: Share<L>,
    pub(crate) made: u16,
    pub(crate) out: u16,
    pub(crate) stopping: bool,
}

impl<L: LogBrand, A: Allocator> Book<L, A> {
    /// The log and the world.
    pub(crate) fn apart(self) -> (Log<A>, World<A>)
        ensures log { result.0 ≡ record { entries = self.log; room = self.room } }
        ensures world { result.1 ≡ record { state = self.world; touches = self.touches } }
    {
        let Self {
            log,
            world,
            alloc: _,
            submissions: _,
            tally: _,
            rest: _,
            made: _,
            out: _,
            stopping: _,
        } = self;
        (log, world)
    }
}

impl<L: LogBrand, A: Allocator> Drop for Book<L, A> {
    fn drop(self) {
        drop(self.apart());
    }
}

impl<L: LogBrand, A: Allocator> Model for Book<L, A> {
    ghost use Rattle.driver_book.specs.State.{BookContents, IsBook};

    ghost Value = { BookContents };

    ghost view = { λ b. record { opening = L.opening; world = b.world.state; touches = b.world.touches; log = b.log.entries; made = b.made; out = b.out; taken = b.rest.amount; stopping = b.stopping; room = b.log.room; drafts = b.submissions.drafts; tabled = b.submissions.tabled } };

    ghost invariant = { λ b. IsBook L.jobs_alone L.opening b.world.state b.log.entries b.submissions.drafts b.tally.total b.rest.parts b.out b.made L.parts };
}

impl<L: LogBrand, A: Allocator + Copy> Book<L, A> {
    /// Opens a world over an image, and a book of it, with an empty log and no seat. The allocator is that of all that the book will hold.
    /// What is blank opens this book alone.
    ///
    /// # Errors
    ///
    /// As [`World::open`]. The image and what is blank come back.
    pub fn open(
        alloc: A,
        config: Config,
        image: Image<A>,
        blank: BlankBook<A>,
    ) -> Result<Book<L, A>, BookRefused<A>>
        requires name { blank.ledger.name ≡ L.name }
        requires parts { blank.ledger.parts ≡ L.parts }
        requires number { blank.ledger.parts ≡ 65536 }
        requires list { blank.drafts.name ≡ L.list }
        requires opening { L.opening ≡ opening_of config image }
        ensures fits { IfOk result (λ book. refusal_of_config config ≡ None) }
        ensures opened { IfOk result (λ book. book ≡ record { opening = opening_of config image; world = opening_of config image; touches = 0; log = []; made = 0; out = 0; taken = 0; stopping = false; room = record { entries = 0; pieces = 0; pages = 0 }; drafts = []; tabled = false }) }
        ensures refused { IfErr result (λ refused. RefusesOpening config refused.why) }
        ensures image { IfErr result (λ refused. refused.image ≡ image) }
        ensures blank { IfErr result (λ refused. refused.blank ≡ blank) }
    {
        let world = match World::open(alloc, config, image) {
            Ok(world) => world,
            Err(refused) => {
                return Err(BookRefused {
                    why: refused.why,
                    image: refused.image,
                    blank,
                });
            }
        };
        Ok(Book::over(alloc, world, blank))
    }

    /// Opens a book over an existing world, with an empty log and no seat. The world's state, whatever led to it, is the book's opening. The
    /// allocator is that of all that the book will hold, except for what the world already holds. What is blank opens this book alone.
    pub fn over(alloc: A, world: World<A>, blank: BlankBook<A>) -> Book<L, A>
        requires name { blank.ledger.name ≡ L.name }
        requires parts { blank.ledger.parts ≡ L.parts }
        requires number { blank.ledger.parts ≡ 65536 }
        requires list { blank.drafts.name ≡ L.list }
        requires opening { L.opening ≡ world.state }
        ensures { result ≡ record { opening = world.state; world = world.state; touches = world.touches; log = []; made = 0; out = 0; taken = 0; stopping = false; room = record { entries = 0; pieces = 0; pages = 0 }; drafts = []; tabled = false } }
    {
        prove!({
            world.check();
            true
        });
        let BlankBook { ledger, drafts } = blank;
        let (tally, rest) = ledger.open::<L>();
        Book {
            alloc,
            world,
            log: Log::new(alloc),
            submissions: Submissions::named(drafts),
            tally,
            rest,
            made: 0,
            out: 0,
            stopping: false,
        }
    }

    /// Shows that the log leads from the opening to the world as it is: its entries tell of the steps of a run of the machine. And that
    /// the world is sound, that the ledger counts the accepted submissions, and, of a book that takes the steps of jobs alone, that there
    /// is no other entry. It does nothing.
    pub fn check(&self)
        ensures opening { self.now.opening ≡ L.opening }
        ensures legal { LeadsTo self.now.opening self.now.log self.now.world }
        ensures submitted { LeadsBy self.now.opening self.now.log self.now.drafts self.now.world }
        ensures sound { IsSound self.now.world }
        ensures jobs { OnTrue L.jobs_alone (AreOfJobs self.now.log) }
    {
        prove!(self.out <= self.made);
    }

    /// The log, the oldest entry first.
    pub fn log(&self) -> &Log<A>
        ensures entries { result.now.entries ≡ self.now.log }
        ensures room { result.now.room ≡ self.now.room }
    {
        &self.log
    }

    /// Makes a seat, with the next number and no receipts. It takes no memory and writes nothing down.
    ///
    /// # Errors
    ///
    /// Where 65,535 seats were made.
    pub fn seat(&mut self) -> Result<Seat<L, A>, NoSeat>
        ensures seat { IfOk result (λ seat. seat ≡ record { number = self.old.made; receipts = []; spare = 0; known = self.old.drafts }) }
        ensures made { OnOk result (self.new ≡ record self.old { made = self.old.made + 1; out = self.old.out + 1 }) }
        ensures room { OnOk result (self.old.made < 65535) }
        ensures refused { OnErr result (self.new ≡ self.old) }
        ensures all { OnErr result (self.old.made ≡ 65535) }
    {
        if self.made == u16::MAX {
            return Err(NoSeat);
        }
        let seat = Seat::new(
            self.alloc,
            self.made,
            self.rest.split_off(1, 0),
            self.submissions.known(),
        );
        self.made += 1;
        self.out += 1;
        Ok(seat)
    }

    /// Tells the workers to stop. It writes nothing down.
    pub fn stop(&mut self)
        ensures { self.new ≡ record self.old { stopping = true } }
    {
        self.stopping = true;
    }

    /// Whether the workers are told to stop.
    pub fn stopping(&self) -> bool
        ensures { result ≡ self.now.stopping }
    {
        self.stopping
    }

    /// The owner of a page of the pool. It writes nothing down.
    pub fn owner(&self, p: PageNo) -> Owner
        requires { p < length self.now.world.memory }
        ensures { Contains (claims_of self.now.world.host) (p, result) }
    {
        self.world.owner(p)
    }

    /// How many pages are free, and how many belong to queues, to chains and to data. It writes nothing down.
    pub fn counts(&self) -> Counts
        ensures counts { result ≡ counts_of self.now.world.host }
        ensures all { total result ≡ length self.now.world.memory }
    {
        self.world.counts()
    }

    /// How many submissions were accepted: the ledger's tally, and one for each receipt that a seat of this book got.
    pub fn submissions(&self) -> u64
        ensures { result ≡ accepted self.now.log }
    {
        self.submissions.len()
    }

    /// Whether the last submission of this queue and identifier is known to be the one with this number, counted from 0.
    pub fn is_latest(&self, q: u16, cid: u16, number: u64) -> bool
        ensures { OnTrue result (last_place q cid self.now.drafts ≡ Some number) }
    {
        self.submissions.is_latest(q, cid, number)
    }

    /// Shows that its submissions begin with those that a seat knows. It changes nothing.
    pub fn knows(&mut self, seat: &Seat<L, A>)
        ensures same { self.new ≡ self.old }
        ensures begin { IsPrefix seat.now.known self.new.drafts }
    {
        self.submissions.begin_with(&seat.known);
    }

    /// How many pages the pool has, 8 to 65,536.
    pub fn pages(&self) -> u32
        ensures pages { result ≡ length self.now.world.memory }
        ensures least { 8 ≤ length self.now.world.memory }
        ensures most { length self.now.world.memory ≤ 65536 }
    {
        self.world.pages()
    }

    /// How many pages were touched since the world opened ([`step_core::World::touches`]).
    pub fn touches(&self) -> u64
        ensures { result ≡ self.now.touches }
    {
        self.world.touches()
    }

    /// Ends the book and its world. It takes no memory.
    pub fn end(self) -> Ended {
        let (_, world) = self.apart();
        world.end()
    }
}
