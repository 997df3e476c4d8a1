//! The words of a line, and what they stand for.

ghost use Rattle.std.specs.Prelude.{◌≤◌, IfOk, length};

use crate::explain::fault::{CaseFault, Wrong};
use script_cli::words_of;
use std::alloc::AllocError;
use texts::faults::{Place, word_from};

/// Why a line is not read.
#[derive(Clone, Copy, Debug, PartialEq, Eq)]
pub enum Stop {
    /// Something is wrong at this place of the line.
    At(Place, Wrong),
    /// Something is wrong at this place of an earlier line, that of the number.
    Before(u32, Place, Wrong),
    /// Memory was refused.
    Memory,
}

impl Stop {
    /// Why the line of a number is not read.
    pub(crate) fn in_line(self, number: u32) -> Stop {
        match self {
            Stop::At(place, wrong) => Stop::Before(number, place, wrong),
            Stop::Before(..) | Stop::Memory => self,
        }
    }

    /// The fault that it is of the line of this number, or of an earlier one.
    pub(crate) fn fault(self, line: u32) -> CaseFault {
        let (number, Place { start, end }, wrong) = match self {
            Stop::Memory => return CaseFault::Memory,
            Stop::At(place, wrong) => (line, place, wrong),
            Stop::Before(number, place, wrong) => (number, place, wrong),
        };
        CaseFault::Line {
            number,
            start,
            end,
            wrong,
        }
    }
}

impl From<AllocError> for Stop {
    fn from(_fault: AllocError) -> Self {
        Stop::Memory
    }
}

/// A line, and what of it is not read yet.
#[derive(Clone, Copy)]
pub(crate) struct Line<'a> {
    bytes: &'a [u8],
    at: usize,
    ghost inside: { at ≤ length bytes.now },
}

impl<'a> Line<'a> {
    /// A line, starting at its beginning.
    pub(crate) fn of(bytes: &'a [u8]) -> Line<'a> {
        Line { bytes, at: 0 }
    }

    /// How many bytes it has.
    pub(crate) fn len(&self) -> usize {
        self.bytes.len()
    }

    /// Where the next word is; nothing where there is none.
    pub(crate) fn peek(&self) -> Option<Place> {
        word_from(self.bytes, self.at)
    }

    /// Takes the next word; nothing where there is none.
    pub(crate) fn next(&mut self) -> Option<Place> {
        let place = word_from(self.bytes, self.at)?;
        self.at = place.end;
        Some(place)
    }

    /// Leaves all words that are left.
    pub(crate) fn leave(&mut self) {
        self.at = self.bytes.len();
    }

    /// The bytes of a word.
    pub(crate) fn word(&self, place: Place) -> &'a [u8] {
        self.bytes.get(place.start..place.end).unwrap_or(&[])
    }

    /// Where a next word is, or where the line ends.
    pub(crate) fn wanted(&mut self) -> Place {
        let end = self.bytes.len();
        self.next().unwrap_or(Place { start: end, end })
    }

    /// Takes a decimal number.
    pub(crate) fn number(&mut self, least: u64, most: u64) -> Result<u64, Stop>
        ensures least { IfOk result (λ n. least ≤ n) }
        ensures most { IfOk result (λ n. n ≤ most) }
    {
        let place = self.wanted();
        match number_of(self.word(place)) {
            Some(number) if least <= number && number <= most => Ok(number),
            _ => Err(Stop::At(place, Wrong::NoNumber { least, most })),
        }
    }

    /// Checks that no word is left.
    pub(crate) fn done(&mut self) -> Result<(), Stop> {
        match self.next() {
            Some(place) => Err(Stop::At(place, Wrong::Extra)),
            None => Ok(()),
        }
    }
}

/// The number that a word is, if it is a decimal one below 2^64.
pub(crate) fn number_of(word: &[u8]) -> Option<u64> {
    words_of(word).ok()?.number64().ok()
}

/// What a digit stands for, of the decimal and the hexadecimal ones.
pub(crate) fn digit_of(byte: u8) -> Option<u8> {
    match byte {
        b'0'..=b'9' => Some(byte - b'0'),
        b'a'..=b'f' => Some(byte - b'a' + 10),
        b'A'..=b'F' => Some(byte - b'A' + 10),
        _ => None,
    }
}

/// Whether a word is hexadecimal digits alone.
pub(crate) fn is_hex(word: &[u8]) -> bool {
    !word.is_empty() && word.iter().all(|byte| digit_of(*byte).is_some())
}

/// The number that digits are, if it is below 2^64.
pub(crate) fn value_of(digits: &[u8], radix: u8) -> Option<u64> {
    if digits.is_empty() {
        return None;
    }
    let mut value = 0u64;
    for byte in digits {
        let digit = digit_of(*byte)?;
        if digit >= radix {
            return None;
        }
        value = value
            .checked_mul(u64::from(radix))?
            .checked_add(u64::from(digit))?;
    }
    Some(value)
}

/// What follows `0x`.
pub(crate) fn behind_prefix(word: &[u8]) -> Option<&[u8]> {
    match word {
        [b'0', b'x' | b'X', digits @ ..] => Some(digits),
        _ => None,
    }
}

/// The address that a word is: hexadecimal digits after `0x`, or before an h.
pub(crate) fn address_of(word: &[u8]) -> Option<u64> {
    if let Some(digits) = behind_prefix(word) {
        return value_of(digits, 16);
    }
    match word {
        [digits @ .., b'h' | b'H'] => value_of(digits, 16),
        _ => None,
    }
}

/// Puts bytes over others, starting at a position.
pub(crate) fn put_in(into: &mut [u8], from: usize, bytes: &[u8]) {
    for (slot, byte) in into.iter_mut().skip(from).zip(bytes) {
        *slot = *byte;
    }
}
