//! A set of numbers as words of 64 bits: number `i` is inside where bit `i % 64` of word `i / 64` is 1.

ghost use Rattle.std.specs.Prelude.{◌≡◌, ◌+◌, ◌*◌, ◌/◌, ◌<◌, ◌≤◌, ◌&&◌, Bool, ℕ, length, nat_lt, not, slice_index, IfOk, IfSome, IsFalse};
ghost use Rattle.slot_table.specs.Bits.{is_one, is_set, IsPut};
ghost use Rattle.slot_table.specs.Searches.{FindsFrom, IsRunEnd};

use std::alloc::{AllocError, Allocator};

/// The set of all numbers below a bound.
pub(crate) fn all_below<A: Allocator>(alloc: A, bound: u32) -> Result<Vec<u64, A>, AllocError>
    requires { bound ≤ 65536 }
    ensures size { IfOk result (λ words. length words.items ≡ (bound + 63) / 64) }
    ensures all { IfOk result (λ words. (i : ℕ) → is_set words.items i ≡ nat_lt i bound) }
{
    let mut words = Vec::with_capacity(alloc, ((bound + 63) / 64) as usize)?;
    for _ in 0..bound / 64 {
        words.push_reserved(u64::MAX);
    }
    let rest = bound % 64;
    if rest > 0 {
        words.push_reserved((1 << rest) - 1);
    }
    Ok(words)
}

/// Makes a set the one of all numbers below a bound, or the empty one, whatever it was.
pub(crate) fn fill_below(words: &mut [u64], bound: u32, inside: bool)
    requires { length words.old ≡ (bound + 63) / 64 }
    ensures size { length words.new ≡ length words.old }
    ensures all { (i : ℕ) → is_set words.new i ≡ (inside && nat_lt i bound) }
    ensures none { IsFalse inside → (w : ℕ) → slice_index words.new w ≡ 0 }
{
    if inside {
        words.fill(u64::MAX);
        let rest = bound % 64;
        if rest > 0 {
            words[(bound / 64) as usize] = (1 << rest) - 1;
        }
    } else {
        words.fill(0);
    }
}

/// Puts a number into a set, or takes it out.
pub(crate) fn put(words: &mut [u64], i: u32, inside: bool)
    requires { i / 64 < length words.old }
    ensures { IsPut words.old i inside words.new }
{
    let word = &mut words[(i / 64) as usize];
    let bit = 1 << (i % 64);
    if inside {
        *word |= bit;
    } else {
        *word &= !bit;
    }
}

/// The lowest 1 of a word, at a position or higher.
pub(crate) fn lowest_one(word: u64, place: u32) -> Option<u32>
    requires { place < 64 }
    ensures one { FindsFrom (is_one word) place result }
    ensures inside { IfSome result (λ r. r < 64) }
{
    let rest = word >> place;
    if rest == 0 {
        return None;
    }
    Some(place + rest.trailing_zeros())
}

/// The lowest number of a set, at or above a bound.
pub(crate) fn lowest_from(words: &[u64], from: u32) -> Option<u32>
    requires { length words.now ≤ 1024 }
    ensures { FindsFrom (is_set words.now) from result }
{
    let mut place = from % 64;
    for w in (from / 64) as usize..words.len() {
        if let Some(one) = lowest_one(words[w], place) {
            return Some(64 * w as u32 + one);
        }
        place = 0;
    }
    None
}

/// Where the consecutive numbers of a set from a given one end: at the first that isn't inside, or at a limit.
pub(crate) fn run_end(words: &[u64], from: u32, limit: u32) -> u32
    requires few { length words.now ≤ 1024 }
    requires order { from ≤ limit }
    requires inside { limit ≤ 64 * length words.now }
    ensures { IsRunEnd (is_set words.now) from limit result }
{
    let mut at = from;
    while at < limit {
        let first = at - at % 64;
        if let Some(zero) = lowest_one(!words[(at / 64) as usize], at % 64) {
            return limit.min(first + zero);
        }
        at = first + 64;
    }
    limit
}
