//! Bytes as people type them: `AB*1,CD*1,00*510`, as a gather prints them, or `ABCD`, or both.
//!
//! A word is runs with commas between them. A run is hexadecimal digits, two for each byte, and, after a star, how often these bytes occur.

ghost use Rattle.std.specs.Prelude.{◌≡◌, ◌≤◌, ◌+◌, ◌++◌, ◌<◌, ℕ, Some, List, length, IfSome, IfOk, IfErr, MatchOption, MatchResult, OnOk, vec_len};
ghost use Rattle.texts.specs.Runs.{digit_bytes, times_said, run_parts, run_bytes, star_of, bytes_of_word, len_of_word, run_len as spec_run_len, AreNone, IsNotPut, IsNoWord, IsUncounted};
ghost use Rattle.texts.specs.declared.byte_runs.RunsFault.{RunsFault};

use script_cli::{LineError, LineFault, words_of};
use std::alloc::{AllocError, Global};

/// Why a word is not bytes.
#[derive(Clone, Copy, Debug, PartialEq, Eq)]
pub enum RunsFault {
    /// It is not made of runs.
    NoRuns,
    /// It has more bytes than allowed.
    TooMany,
    /// Memory was refused.
    Memory,
}

impl From<AllocError> for RunsFault {
    ghost use Rattle.std.specs.Prelude.{◌≡◌};
    ghost use Rattle.texts.specs.declared.byte_runs.RunsFault.{RunsFault};

    ghost from_gives = { λ _ fault. fault ≡ RunsFault.Memory };

    fn from(_refused: AllocError) -> Self {
        RunsFault::Memory
    }
}

impl From<LineError> for RunsFault {
    ghost use Rattle.std.specs.Prelude.{◌≡◌};
    ghost use Rattle.texts.specs.Runs.{fault_of_line};

    ghost from_gives = { λ why fault. fault ≡ fault_of_line why };

    fn from(why: LineError) -> Self {
        match why {
            LineError::Fault(_) => RunsFault::NoRuns,
            LineError::Memory => RunsFault::Memory,
        }
    }
}

impl From<LineFault> for RunsFault {
    ghost use Rattle.std.specs.Prelude.{◌≡◌};
    ghost use Rattle.texts.specs.declared.byte_runs.RunsFault.{RunsFault};

    ghost from_gives = { λ _ fault. fault ≡ RunsFault.NoRuns };

    fn from(_fault: LineFault) -> Self {
        RunsFault::NoRuns
    }
}

/// The bytes of hexadecimal digits.
fn hex(alloc: Global, digits: &[u8]) -> Result<Vec<u8>, RunsFault>
    ensures { MatchResult result (λ bytes. digit_bytes digits.now ≡ Some bytes.items) (AreNone (digit_bytes digits.now)) }
{
    let mut words = words_of(digits)?;
    Ok(words.bytes(alloc)?.into_vec())
}

/// How often the bytes of a run occur.
fn count(digits: &[u8]) -> Result<u32, RunsFault>
    ensures times { MatchResult result (λ times. times_said digits.now ≡ Some times) (AreNone (times_said digits.now)) }
    ensures none { IfErr result (λ fault. fault ≡ RunsFault.NoRuns) }
{
    let mut words = words_of(digits)?;
    Ok(words.number32()?)
}

/// Where the star of a run is.
#[tactic(auto, unfolding(crate::specs::Runs::star_of))]
fn star_in(run: &[u8]) -> Option<usize>
    ensures star { result ≡ star_of run.now }
    ensures inside { IfSome result (λ star. star < length run.now) }
{
    run.iter().position(|byte| *byte == b'*')
}

/// The digits of a run, and how often their bytes occur.
fn parts_of(run: &[u8]) -> Result<(&[u8], u32), RunsFault>
    ensures parts { MatchResult result (λ parts. run_parts run.now ≡ Some (parts.0.now, parts.1)) (AreNone (run_parts run.now)) }
    ensures none { IfErr result (λ fault. fault ≡ RunsFault.NoRuns) }
{
    match star_in(run) {
        Some(star) => Ok((&run[..star], count(&run[star + 1..])?)),
        None => Ok((run, 1)),
    }
}

/// Puts the bytes of a run after others.
fn put_run(alloc: Global, out: &mut Vec<u8>, run: &[u8], most: usize) -> Result<(), RunsFault>
    requires { vec_len out.old ≤ most }
    ensures put { OnOk result ((bytes : List ℕ) × (run_bytes run.now ≡ Some bytes) × (out.new.items ≡ out.old.items ++ bytes)) }
    ensures few { OnOk result (vec_len out.new ≤ most) }
    ensures not_put { IfErr result (IsNotPut (run_bytes run.now) (vec_len out.old) most) }
{
    let (digits, times) = parts_of(run)?;
    let bytes = hex(alloc, digits)?;
    let room = most.saturating_sub(out.len());
    match bytes.len().checked_mul(times as usize) {
        Some(len) if len <= room => {}
        _ => return Err(RunsFault::TooMany),
    }
    for _ in 0..times {
        out.extend_from_slice(bytes.as_slice())?;
    }
    Ok(())
}

/// How many bytes a run is, where that is a number of 64 bits.
#[tactic(auto, unfolding(crate::specs::Runs::run_len))]
fn run_len(run: &[u8]) -> Option<u64>
    ensures { MatchOption result (IsUncounted (spec_run_len run.now)) (λ len. spec_run_len run.now ≡ Some len) }
{
    let (digits, times) = parts_of(run).ok()?;
    (digits.len() as u64 / 2).checked_mul(u64::from(times))
}

/// How many bytes a word is, where that is a number of 64 bits: those of its runs, which need not be hexadecimal.
pub fn len_of(word: &[u8]) -> Option<u64>
    ensures { MatchOption result (IsUncounted (len_of_word word.now)) (λ len. len_of_word word.now ≡ Some len) }
{
    let mut len = 0u64;
    for run in word.split(|byte| *byte == b',') {
        len = len.checked_add(run_len(run)?)?;
    }
    Some(len)
}

/// The bytes that a word is, of this many at most.
///
/// # Errors
///
/// Where the word is not bytes, or too many, or memory is refused.
pub fn bytes_of(alloc: Global, word: &[u8], most: usize) -> Result<Vec<u8>, RunsFault>
    ensures bytes { IfOk result (λ bytes. bytes_of_word word.now ≡ Some bytes.items) }
    ensures few { IfOk result (λ bytes. vec_len bytes ≤ most) }
    ensures refused { IfErr result (IsNoWord word.now most) }
{
    let mut out = Vec::new(alloc);
    for run in word.split(|byte| *byte == b',') {
        put_run(alloc, &mut out, run, most)?;
    }
    Ok(out)
}
