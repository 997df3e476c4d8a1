//! The words of a line.

ghost use Rattle.std.specs.Prelude.{◌≡◌, ◌≤◌, ◌^◌, ◌∷◌, [], length, true, false, Ok, Err, MatchOption, MatchResult};
ghost use Rattle.std.specs.List.{position_or_len};
ghost use Rattle.script_cli.specs.Grammar.{number_word, kind_word, hex_word, sixteen_bytes_word, namespace_word, named_word, nsid_words, size_word, size_words, vector_words, begins_option as spec_begins_option, ends_pieces, nothing_more, IsErrorOf};
ghost use Rattle.script_cli.specs.Lines.{is_blank as spec_is_blank, is_solid, words};
ghost use Rattle.script_cli.specs.declared.fault.LineFault.TheVariants.{MissingWord};
ghost use Rattle.script_cli.specs.declared.script.Line.{Line};
ghost use Rattle.io_commands.specs.Asked.{Request};

use crate::fault::{LineError, LineFault};
use crate::grammar::{BLOCK_SIZE, NSID, VECTOR, begins_option};
use crate::values::{bytes, kind, number_below, number16, number32, number64, sixteen_bytes};
use io_commands::{BlockSize, Kind};
use std::alloc::Global;
use std::marker::Model;
use step_core::Bytes;

/// The words of a line that are left. Contracts see it as the list of them.
#[derive(Drop)]
pub struct Words<'a> {
    rest: &'a [u8],
}

impl<'a> Model for Words<'a> {
    ghost use Rattle.std.specs.Prelude.{List, ℕ};
    ghost use Rattle.script_cli.specs.Lines.{words};

    ghost Value = { List (List ℕ) };

    ghost view = { λ w. words w.rest.now };
}

/// Whether a byte separates words.
fn is_blank(byte: u8) -> bool
    ensures { result ≡ spec_is_blank byte }
{
    byte == b' ' || byte == b'\t'
}

/// Where the first blank is; the length of the text if there is none.
fn first_blank(text: &[u8]) -> usize
    ensures place { result ≡ position_or_len spec_is_blank text.now }
    ensures most { result ≤ length text.now }
{
    for (i, byte) in text.iter().enumerate() {
        if is_blank(*byte) {
            return i;
        }
    }
    text.len()
}

/// How many blanks the text begins with.
fn leading_blanks(text: &[u8]) -> usize
    ensures place { result ≡ position_or_len is_solid text.now }
    ensures most { result ≤ length text.now }
{
    for (i, byte) in text.iter().enumerate() {
        if !is_blank(*byte) {
            return i;
        }
    }
    text.len()
}

/// The first word of a line, and what follows it.
fn split_word(line: &[u8]) -> Option<(&[u8], &[u8])>
    ensures { MatchOption result (words line.now ≡ []) (λ r. words line.now ≡ r.0.now ∷ words r.1.now) }
{
    let (_, text) = line.split_at(leading_blanks(line));
    if text.is_empty() {
        return None;
    }
    Some(text.split_at(first_blank(text)))
}

impl<'a> Words<'a> {
    /// The words of a line.
    pub(crate) fn of(line: &'a [u8]) -> Words<'a>
        ensures { result ≡ words line.now }
    {
        Words { rest: line }
    }

    /// Takes the first word.
    pub fn take_first(&mut self) -> Option<&'a [u8]>
        ensures { MatchOption result ((self.old ≡ []) × (self.new ≡ [])) (λ word. self.old ≡ word.now ∷ self.new) }
    {
        let (word, rest) = split_word(self.rest)?;
        self.rest = rest;
        Some(word)
    }

    /// Takes the next word, if it does not come after the pieces of a request.
    pub(crate) fn take_before_options(&mut self) -> Option<&'a [u8]>
        ensures { MatchOption result ((self.new ≡ self.old) × (ends_pieces self.old ≡ true)) (λ word. (self.old ≡ word.now ∷ self.new) × (spec_begins_option word.now ≡ false)) }
    {
        let (word, rest) = split_word(self.rest)?;
        if begins_option(word) {
            return None;
        }
        self.rest = rest;
        Some(word)
    }

    /// Takes the next word, if it is this one.
    pub(crate) fn take_named(&mut self, name: &str) -> bool
        ensures { named_word name.now self.old ≡ Ok (result, self.new) }
    {
        let Some((word, rest)) = split_word(self.rest) else {
            return false;
        };
        if word != name.as_bytes() {
            return false;
        }
        self.rest = rest;
        true
    }
}

impl<'a> Words<'a> {
    /// Takes a required word.
    fn wanted(&mut self) -> Result<&'a [u8], LineFault>
        ensures { MatchResult result (λ word. self.old ≡ word.now ∷ self.new) (λ fault. (self.old ≡ []) × (fault ≡ MissingWord)) }
    {
        self.take_first().ok_or(LineFault::MissingWord)
    }

    /// Takes a number of 16 bits.
    #[tactic(auto, unfolding(crate::specs::Grammar::number_word))]
    pub fn number16(&mut self) -> Result<u16, LineFault>
        ensures { MatchResult result (λ n. number_word (2 ^ 16) self.old ≡ Ok (n, self.new)) (λ fault. number_word (2 ^ 16) self.old ≡ Err fault) }
    {
        let word = self.wanted()?;
        number16(word).ok_or(LineFault::BadNumber)
    }

    /// Takes a number that is below a limit.
    #[tactic(auto, unfolding(crate::specs::Grammar::number_word))]
    pub fn number_below(&mut self, limit: u16) -> Result<u16, LineFault>
        ensures { MatchResult result (λ n. number_word limit self.old ≡ Ok (n, self.new)) (λ fault. number_word limit self.old ≡ Err fault) }
    {
        let word = self.wanted()?;
        number_below(limit, word).ok_or(LineFault::BadNumber)
    }

    /// Takes a number of 32 bits.
    #[tactic(auto, unfolding(crate::specs::Grammar::number_word))]
    pub fn number32(&mut self) -> Result<u32, LineFault>
        ensures { MatchResult result (λ n. number_word (2 ^ 32) self.old ≡ Ok (n, self.new)) (λ fault. number_word (2 ^ 32) self.old ≡ Err fault) }
    {
        let word = self.wanted()?;
        number32(word).ok_or(LineFault::BadNumber)
    }

    /// Takes the number of a namespace, which is not 0.
    pub fn namespace(&mut self) -> Result<u32, LineFault>
        ensures { MatchResult result (λ n. namespace_word self.old ≡ Ok (n, self.new)) (λ fault. namespace_word self.old ≡ Err fault) }
    {
        let n = self.number32()?;
        if n == 0 {
            return Err(LineFault::BadNumber);
        }
        Ok(n)
    }

    /// Takes how many bytes a block has.
    pub fn size(&mut self) -> Result<BlockSize, LineFault>
        ensures { MatchResult result (λ size. size_word self.old ≡ Ok (size, self.new)) (λ fault. size_word self.old ≡ Err fault) }
    {
        let bytes = self.number64()?;
        match BlockSize::of(bytes) {
            Some(size) => Ok(size),
            None => Err(LineFault::BadNumber),
        }
    }

    /// Takes the namespace of a request, which is 1 where none is named.
    pub(crate) fn nsid(&mut self) -> Result<u32, LineFault>
        ensures { MatchResult result (λ n. nsid_words self.old ≡ Ok (n, self.new)) (λ fault. nsid_words self.old ≡ Err fault) }
    {
        if self.take_named(NSID) {
            self.namespace()
        } else {
            Ok(1)
        }
    }

    /// Takes the block size of a request, which is 512 bytes where none is named.
    pub(crate) fn block_size(&mut self) -> Result<BlockSize, LineFault>
        ensures { MatchResult result (λ size. size_words self.old ≡ Ok (size, self.new)) (λ fault. size_words self.old ≡ Err fault) }
    {
        if self.take_named(BLOCK_SIZE) {
            self.size()
        } else {
            Ok(BlockSize::Bytes512)
        }
    }

    /// Takes the vector of a completion queue's interrupts; none where no vector is named.
    pub(crate) fn vector(&mut self) -> Result<Option<u16>, LineFault>
        ensures { MatchResult result (λ v. vector_words self.old ≡ Ok (v, self.new)) (λ fault. vector_words self.old ≡ Err fault) }
    {
        if !self.take_named(VECTOR) {
            return Ok(None);
        }
        Ok(Some(self.number16()?))
    }

    /// Takes a number of 64 bits.
    #[tactic(auto, unfolding(crate::specs::Grammar::number_word))]
    pub fn number64(&mut self) -> Result<u64, LineFault>
        ensures { MatchResult result (λ n. number_word (2 ^ 64) self.old ≡ Ok (n, self.new)) (λ fault. number_word (2 ^ 64) self.old ≡ Err fault) }
    {
        let word = self.wanted()?;
        number64(word).ok_or(LineFault::BadNumber)
    }

    /// Takes a kind of command.
    #[tactic(auto, unfolding(crate::specs::Grammar::kind_word))]
    pub fn kind(&mut self) -> Result<Kind, LineFault>
        ensures { MatchResult result (λ k. kind_word self.old ≡ Ok (k, self.new)) (λ fault. kind_word self.old ≡ Err fault) }
    {
        let word = self.wanted()?;
        kind(word).ok_or(LineFault::BadKind)
    }

    /// Takes bytes in hexadecimal digits.
    #[tactic(auto, unfolding(crate::specs::Grammar::hex_word))]
    pub fn bytes(&mut self, alloc: Global) -> Result<Bytes, LineError>
        ensures { MatchResult result (λ b. hex_word self.old ≡ Ok (b, self.new)) (IsErrorOf (hex_word self.old)) }
    {
        let word = self.wanted()?;
        Ok(bytes(alloc, word)?.ok_or(LineFault::BadHex)?)
    }

    /// Takes the 16 bytes of a completion slot.
    #[tactic(auto, unfolding(crate::specs::Grammar::sixteen_bytes_word))]
    pub fn sixteen_bytes(&mut self, alloc: Global) -> Result<[u8; 16], LineError>
        ensures { MatchResult result (λ b. sixteen_bytes_word self.old ≡ Ok (b, self.new)) (IsErrorOf (sixteen_bytes_word self.old)) }
    {
        let word = self.wanted()?;
        Ok(sixteen_bytes(alloc, word)?.ok_or(LineFault::BadHex)?)
    }

    /// Checks that no word is left.
    #[tactic(auto, unfolding(crate::specs::Grammar::nothing_more))]
    pub(crate) fn end(&mut self) -> Result<(), LineFault>
        ensures of_lines { MatchResult result (λ u. (what : Line) → nothing_more self.old what ≡ Ok what) (λ fault. (what : Line) → nothing_more self.old what ≡ Err fault) }
        ensures of_requests { MatchResult result (λ u. (what : Request) → nothing_more self.old what ≡ Ok what) (λ fault. (what : Request) → nothing_more self.old what ≡ Err fault) }
    {
        match self.take_first() {
            Some(_) => Err(LineFault::ExtraWord),
            None => Ok(()),
        }
    }
}
