//! The list: a bit for each position in words of 64, and a summary of them with a bit for each word.

ghost use Rattle.std.specs.Prelude.{◌≡◌, ◌+◌, ◌<◌, ◌≤◌, Bool, true, length, replicate, slice_set, IfOk, IfSome};
ghost use Rattle.slot_table.specs.Places.{is_true_at};
ghost use Rattle.slot_table.specs.Searches.{FindsFrom, IsRunEnd, is_run};

use crate::bits::{all_below, fill_below, lowest_from, lowest_one, put, run_end};
use std::alloc::{AllocError, Allocator, Global};
use std::marker::Model;

/// A list of Bools, a bit for each. Contracts see it as the list.
#[derive(Drop)]
pub struct BitList<A: Allocator = Global> {
    words: Vec<u64, A>,
    summary: Vec<u64, A>,
    len: u32,
}

impl<A: Allocator> Model for BitList<A> {
    ghost use Rattle.std.specs.Prelude.{Bool, List};
    ghost use Rattle.slot_table.specs.Places.{bools_of, IsSummed};

    ghost Value = { List Bool };

    ghost view = { λ b. bools_of b.words.items b.len };

    ghost invariant = { λ b. IsSummed b.words.items b.summary.items b.len };
}

impl<A: Allocator + Clone> BitList<A> {
    /// A list of this many Bools, all of them true.
    ///
    /// # Errors
    ///
    /// Where memory is refused.
    pub fn open(alloc: A, len: u32) -> Result<Self, AllocError>
        requires { len ≤ 65536 }
        ensures { IfOk result (λ list. list ≡ replicate len true) }
    {
        let words = all_below(alloc.clone()?, len)?;
        let summary = all_below(alloc, words.len() as u32)?;
        Ok(BitList {
            words,
            summary,
            len,
        })
    }
}

impl<A: Allocator> BitList<A> {
    /// Makes a position true, or false.
    pub fn set(&mut self, i: u32, value: bool)
        requires { i < length self.old }
        ensures { self.new ≡ slice_set self.old i value }
    {
        put(&mut self.words, i, value);
        let word = i / 64;
        let some = self.words[word as usize] != 0;
        put(&mut self.summary, word, some);
    }

    /// Makes every position true, or every position false.
    pub fn fill(&mut self, value: bool)
        ensures filled { self.new ≡ replicate (length self.old) value }
    {
        fill_below(&mut self.words, self.len, value);
        fill_below(&mut self.summary, self.words.len() as u32, value);
    }

    /// The lowest true position, at or after another.
    pub fn lowest_from(&self, from: u32) -> Option<u32>
        ensures lowest { FindsFrom (is_true_at self.now) from result }
        ensures inside { IfSome result (λ i. i < 65536) }
    {
        let word = from / 64;
        if word as usize >= self.words.len() {
            return None;
        }
        if let Some(place) = lowest_one(self.words[word as usize], from % 64) {
            return Some(64 * word + place);
        }
        let next = lowest_from(&self.summary, word + 1)?;
        Some(64 * next + self.words[next as usize].trailing_zeros())
    }

    /// The first position of the lowest run of `k` consecutive true positions.
    pub fn lowest_run(&self, k: u32) -> Option<u32>
        requires { 0 < k }
        ensures { FindsFrom (is_run (is_true_at self.now) k) 0 result }
    {
        let mut from = 0;
        while let Some(first) = self.lowest_from(from) {
            if self.len - first < k {
                return None;
            }
            let end = run_end(&self.words, first, first + k);
            if end - first == k {
                return Some(first);
            }
            from = end;
        }
        None
    }
}
