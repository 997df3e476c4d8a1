//! The ledger: the owner of each page of a pool.

ghost use Rattle.std.specs.Prelude.{◌≡◌, ◌≢◌, ◌+◌, ◌<◌, ◌≤◌, ◌↔◌, ◌⊎◌, ◌++◌, ℕ, false, All, length, replicate, slice_set, take, vec_len, vec_capacity, Err, IfOk, OnOk, OnErr, IfErr, IfSome, IfNone};
ghost use Rattle.page_ledger.specs.Owners.{owner_at, free_pages, pages_from, pages_owned, is_free, is_command, is_half, is_queue, with_owner, given_back};
ghost use Rattle.page_ledger.specs.Lists.{ListsAll};
ghost use Rattle.page_ledger.specs.Free.{true_places};
ghost use Rattle.page_ledger.specs.Groups.{is_member};
ghost use Rattle.page_ledger.specs.Counting.{counts_of, total};
ghost use Rattle.page_ledger.specs.Runs.{lowest_run as spec_lowest_run};

use crate::owner::{Counts, Group, NoPages, Owner};
use arrayvec::ArrayVec;
use page_memory::{Half, MAX_PAGES, OpenFault, PageNo};
use slot_table::BitList;
use std::alloc::{Allocator, Global};
use std::marker::Model;

/// The owner of each page of a pool. Contracts see it as the list of the owners, in the pages' order.
#[derive(Drop)]
pub struct Ledger<A: Allocator = Global> {
    owners: Vec<Owner, A>,
    counts: Counts,
    free: BitList<A>,
}

impl<A: Allocator> Model for Ledger<A> {
    ghost use Rattle.std.specs.Prelude.{◌≡◌, ◌≤◌, List, length, map};
    ghost use Rattle.page_ledger.specs.declared.owner.Owner.{Owner};
    ghost use Rattle.page_ledger.specs.Owners.{is_free};
    ghost use Rattle.page_ledger.specs.Counting.{counts_of};

    ghost Value = { List Owner };

    ghost view = { λ l. l.owners.items };

    ghost invariant = { λ l. (8 ≤ length l.owners.items) × (length l.owners.items ≤ 65536) × (l.counts ≡ counts_of l.owners.items) × (l.free ≡ map is_free l.owners.items) };
}

impl<A: Allocator + Clone> Ledger<A> {
    /// Opens a pool of this many pages, all of them free.
    ///
    /// # Errors
    ///
    /// 1. `BadSize` exactly where the number is outside 8 to 65,536. 2. `Memory` where memory is refused.
    pub fn open(alloc: A, pages: u32) -> Result<Self, OpenFault>
        ensures free { IfOk result (λ ledger. ledger ≡ replicate pages Owner.Free) }
        ensures bad_size { (result ≡ Err OpenFault.BadSize) ↔ ((pages < 8) ⊎ (65536 < pages)) }
    {
        if pages < 8 || MAX_PAGES < pages {
            return Err(OpenFault::BadSize);
        }
        let owners = Vec::from_elem(alloc.clone()?, Owner::Free, pages as usize)?;
        Ok(Ledger {
            owners,
            counts: Counts {
                free_pages: pages,
                queue_pages: 0,
                chain_pages: 0,
                data_pages: 0,
            },
            free: BitList::open(alloc, pages)?,
        })
    }
}

impl<A: Allocator> Ledger<A> {
    /// Gives the `k` lowest free pages to an owner, and appends them in rising order to a list that has room for them.
    ///
    /// # Errors
    ///
    /// `NoPages` exactly where fewer than `k` pages are free. Then nothing changed.
    pub fn grant(&mut self, owner: Owner, k: u32, into: &mut Vec<PageNo, A>) -> Result<(), NoPages>
        requires owned { is_free owner ≡ false }
        requires room { vec_len into.old + k ≤ vec_capacity into.old }
        ensures enough { OnOk result (k ≤ length (free_pages self.old)) }
        ensures granted { OnOk result (into.new.items ≡ into.old.items ++ take k (free_pages self.old)) }
        ensures owners { OnOk result (self.new ≡ with_owner self.old (take k (free_pages self.old)) owner) }
        ensures too_few { OnErr result (length (free_pages self.old) < k) }
        ensures fault { IfErr result (λ e. e ≡ record { need = k; free = length (free_pages self.old) }) }
        ensures refused { OnErr result ((self.new ≡ self.old) × (into.new.items ≡ into.old.items)) }
        ensures capacity { vec_capacity into.new ≡ vec_capacity into.old }
    {
        let free = self.counts.free_pages;
        if free < k {
            return Err(NoPages { need: k, free });
        }
        let start = into.len();
        push_lowest_free(&self.free, k, into);
        self.give(&into[start..], owner);
        Ok(())
    }

    /// Gives the lowest run of `k` consecutive free pages to an owner, and answers its first page; `None`, with nothing
    /// changed, where there is no such run.
    pub fn grant_run(&mut self, owner: Owner, k: u32) -> Option<PageNo>
        requires some { 0 < k }
        requires owned { is_free owner ≡ false }
        ensures lowest { result ≡ spec_lowest_run k self.old }
        ensures owners { IfSome result (λ p. self.new ≡ with_owner self.old (pages_from p k) owner) }
        ensures unchanged { IfNone result (self.new ≡ self.old) }
    {
        let first = self.lowest_run(k)?;
        self.give_run(first.0, k, owner);
        Some(first)
    }

    /// Frees the pages of a command, of its data and of its chain, and answers how many there were.
    pub fn give_back(&mut self, q: u16, cid: u16) -> u32
        ensures freed { self.new ≡ given_back (is_command q cid) self.old }
        ensures number { result ≡ length (pages_owned (is_command q cid) self.old) }
    {
        self.free_group(Group::Command { q, cid })
    }

    /// Frees the pages of one half of a queue, and answers how many there were.
    pub fn give_back_half(&mut self, q: u16, half: Half) -> u32
        ensures freed { self.new ≡ given_back (is_half q half) self.old }
        ensures number { result ≡ length (pages_owned (is_half q half) self.old) }
    {
        self.free_group(Group::Half { q, half })
    }

    /// Frees the pages of both halves of a queue, not those of its commands, and answers how many there were.
    pub fn give_back_queue(&mut self, q: u16) -> u32
        ensures freed { self.new ≡ given_back (is_queue q) self.old }
        ensures number { result ≡ length (pages_owned (is_queue q) self.old) }
    {
        self.free_group(Group::Queue { q })
    }

    /// Frees the pages of a command, which are listed: those of its data, and those of its chain. It takes as long as the lists.
    pub fn give_back_pages(
        &mut self,
        q: u16,
        cid: u16,
        data_pages: &[PageNo],
        chain_pages: &[PageNo],
    )
        requires { ListsAll (is_command q cid) self.old (data_pages.now ++ chain_pages.now) }
        ensures { self.new ≡ given_back (is_command q cid) self.old }
    {
        self.give(data_pages, Owner::Free);
        self.give(chain_pages, Owner::Free);
    }

    /// Frees the pages of one half of a queue, which are `k` consecutive ones. It takes as long as there are pages of it.
    pub fn give_back_run(&mut self, q: u16, half: Half, first: PageNo, k: u32)
        requires { ListsAll (is_half q half) self.old (pages_from first k) }
        ensures { self.new ≡ given_back (is_half q half) self.old }
    {
        self.give_run(first.0, k, Owner::Free);
    }

    /// The first page of the lowest run of `count` consecutive free pages; `None` where there is no such run.
    pub fn lowest_run(&self, count: u32) -> Option<PageNo>
        requires some { 0 < count }
        ensures lowest { result ≡ spec_lowest_run count self.now }
    {
        let first = self.free.lowest_run(count)?;
        Some(PageNo(first))
    }

    /// The `count` lowest free pages in rising order, at most 1,024; all that are free where there are fewer.
    pub fn lowest_free(&self, count: u32) -> ArrayVec<PageNo, 1024>
        requires few { count ≤ 1024 }
        ensures pages { result.items ≡ take count (free_pages self.now) }
    {
        let mut pages = ArrayVec::new();
        let mut from = 0;
        for _ in 0..count {
            let Some(p) = self.free.lowest_from(from) else {
                return pages;
            };
            pages.push(PageNo(p));
            from = p + 1;
        }
        pages
    }

    /// The owner of a page of the pool.
    pub fn owner(&self, p: PageNo) -> Owner
        requires { p < length self.now }
        ensures { owner_at self.now p ≡ Some result }
    {
        self.owners[p.0 as usize]
    }

    /// How many pages each class has.
    pub fn counts(&self) -> Counts
        ensures counts { result ≡ counts_of self.now }
        ensures sum { total result ≡ length self.now }
    {
        self.counts
    }

    /// How many pages the pool has, 8 to 65,536.
    pub fn pages(&self) -> u32
        ensures pages { result ≡ length self.now }
        ensures least { 8 ≤ length self.now }
        ensures most { length self.now ≤ 65536 }
    {
        self.owners.len() as u32
    }
}

impl<A: Allocator> Ledger<A> {
    /// Gives one page of the pool to an owner.
    fn set(&mut self, p: PageNo, owner: Owner)
        requires { p < length self.old }
        ensures { self.new ≡ slice_set self.old p owner }
    {
        let at = p.0 as usize;
        let before = self.owners[at];
        self.counts = self.counts.one_less(before).one_more(owner);
        self.owners[at] = owner;
        self.free.set(p.0, owner.is_free());
    }

    /// Gives pages of the pool to an owner.
    fn give(&mut self, pages: &[PageNo], owner: Owner)
        requires { All (λ p. p < length self.old) pages.now }
        ensures { self.new ≡ with_owner self.old pages.now owner }
    {
        for page in pages {
            self.set(*page, owner);
        }
    }

    /// Gives `k` consecutive pages of the pool to an owner.
    fn give_run(&mut self, first: u32, k: u32, owner: Owner)
        requires { (i : ℕ) → i < k → first + i < length self.old }
        ensures { self.new ≡ with_owner self.old (pages_from first k) owner }
    {
        prove!(self.owners.len() <= 65_536);
        for i in 0..k {
            self.set(PageNo(first + i), owner);
        }
    }

    /// Frees the pages of a group of owners, and answers how many there were.
    fn free_group(&mut self, group: Group) -> u32
        ensures freed { self.new ≡ given_back (is_member group) self.old }
        ensures number { result ≡ length (pages_owned (is_member group) self.old) }
    {
        let mut freed = 0;
        for p in 0..self.pages() {
            let page = PageNo(p);
            if group.has(self.owner(page)) {
                self.set(page, Owner::Free);
                freed += 1;
            }
        }
        freed
    }
}

/// Appends the `k` lowest free pages to a list that has room for them.
fn push_lowest_free<A: Allocator>(free: &BitList<A>, k: u32, into: &mut Vec<PageNo, A>)
    requires enough { k ≤ length (true_places free.now) }
    requires room { vec_len into.old + k ≤ vec_capacity into.old }
    ensures pages { into.new.items ≡ into.old.items ++ take k (true_places free.now) }
    ensures capacity { vec_capacity into.new ≡ vec_capacity into.old }
{
    let mut from = 0;
    for _ in 0..k {
        let Some(p) = free.lowest_from(from) else {
            return;
        };
        into.push_reserved(PageNo(p));
        from = p + 1;
    }
}
