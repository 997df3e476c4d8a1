//! Bytes as people type them and as tools print them, over several lines.
//!
//! A line of a dump may begin with an offset and end with a column of text. The widths of its words say which of them are what: `docs/FIRMWARE.md`
//! has the forms.

use crate::explain::fault::Wrong;
use crate::explain::lines::{Line, Stop, behind_prefix, digit_of, is_hex, value_of};
use std::alloc::{AllocError, Global};
use texts::byte_runs::{RunsFault, bytes_of, len_of};
use texts::faults::Place;

/// What begins a word that names a file.
pub(crate) const FILE: u8 = b'@';

/// What the words of a line are.
#[derive(Clone, Copy, PartialEq, Eq)]
enum Row {
    /// Words as people type them, without an offset.
    Typed,
    /// After an offset with a colon: what follows two blanks is text.
    Colon,
    /// After an offset, words of two digits, each a byte: what follows three blanks or a bar is text.
    Bytes,
    /// After an offset, words of more digits, each a number with its lowest byte first.
    Numbers,
    /// An offset alone.
    End,
}

impl Row {
    /// Whether bytes end before a word, which follows this many blanks.
    fn ends(self, word: &[u8], blanks: usize) -> bool {
        let bar = matches!(word, [b'|' | b'>', ..]);
        match self {
            Row::Typed | Row::End => false,
            Row::Colon => blanks >= 2,
            Row::Bytes => bar || blanks >= 3,
            Row::Numbers => bar,
        }
    }
}

/// How many digits each of the words has that are left, if they are all hexadecimal and have as many; 0 where none is left.
fn shared_width(line: Line<'_>) -> Option<usize> {
    let mut line = line;
    let mut width = 0usize;
    let mut end = 0usize;
    for _ in 0..line.len() {
        let Some(place) = line.next() else {
            break;
        };
        let word = line.word(place);
        let blanks = place.start.saturating_sub(end);
        if matches!(word, [b'|' | b'>', ..]) || (width == 2 && blanks >= 3) {
            break;
        }
        if !is_hex(word) || (width != 0 && word.len() != width) {
            return None;
        }
        width = word.len();
        end = place.end;
    }
    Some(width)
}

/// The digits of an offset with a colon after it.
fn before_colon(word: &[u8]) -> Option<&[u8]> {
    let [digits @ .., b':'] = word else {
        return None;
    };
    let digits = behind_prefix(digits).unwrap_or(digits);
    if is_hex(digits) { Some(digits) } else { None }
}

/// Why a word gives no bytes.
#[derive(Clone, Copy)]
enum NoBytes {
    /// It has more than allowed.
    TooMany,
    /// It is not bytes.
    NoHex,
    /// Memory was refused.
    Memory,
}

impl From<AllocError> for NoBytes {
    fn from(_refused: AllocError) -> Self {
        NoBytes::Memory
    }
}

impl From<RunsFault> for NoBytes {
    fn from(fault: RunsFault) -> Self {
        match fault {
            RunsFault::NoRuns => NoBytes::NoHex,
            RunsFault::TooMany => NoBytes::TooMany,
            RunsFault::Memory => NoBytes::Memory,
        }
    }
}

/// The bytes of a number of 2, 4, 8 or 16 digits, its lowest byte first.
fn lowest_first(alloc: Global, digits: &[u8]) -> Result<Vec<u8>, NoBytes> {
    if !matches!(digits.len(), 2 | 4 | 8 | 16) {
        return Err(NoBytes::NoHex);
    }
    let Some(value) = value_of(digits, 16) else {
        return Err(NoBytes::NoHex);
    };
    let mut bytes = Vec::new(alloc);
    for byte in value.to_le_bytes().iter().take(digits.len() / 2) {
        bytes.push(*byte).map_err(AllocError::from)?;
    }
    Ok(bytes)
}

/// The bytes of pairs of digits that colons or dashes part.
fn parted(alloc: Global, word: &[u8]) -> Result<Vec<u8>, NoBytes> {
    let mut bytes = Vec::new(alloc);
    for pair in word.split(|byte| *byte == b':' || *byte == b'-') {
        let [high, low] = pair else {
            return Err(NoBytes::NoHex);
        };
        match (digit_of(*high), digit_of(*low)) {
            (Some(high), Some(low)) => {
                bytes
                    .push(high.wrapping_mul(16).wrapping_add(low))
                    .map_err(AllocError::from)?;
            }
            _ => return Err(NoBytes::NoHex),
        }
    }
    Ok(bytes)
}

/// The bytes that a word is, this many at most.
fn word_bytes(alloc: Global, row: Row, word: &[u8], most: usize) -> Result<Vec<u8>, NoBytes> {
    let bare = word.strip_suffix(b",").unwrap_or(word);
    let bytes = if row == Row::Numbers {
        lowest_first(alloc, word)?
    } else if let Some(digits) = behind_prefix(bare) {
        lowest_first(alloc, digits)?
    } else if word.iter().any(|byte| *byte == b':' || *byte == b'-') {
        parted(alloc, word)?
    } else {
        return Ok(bytes_of(alloc, word, most)?);
    };
    if bytes.len() > most {
        return Err(NoBytes::TooMany);
    }
    Ok(bytes)
}

/// How many bytes a word is, where that is known.
fn word_len(row: Row, word: &[u8]) -> Option<u64> {
    let bare = word.strip_suffix(b",").unwrap_or(word);
    if row == Row::Numbers {
        Some(word.len() as u64 / 2)
    } else if let Some(digits) = behind_prefix(bare) {
        Some(digits.len() as u64 / 2)
    } else if word.iter().any(|byte| *byte == b':' || *byte == b'-') {
        Some(word.len() as u64 / 3 + 1)
    } else {
        len_of(word)
    }
}

/// Bytes whose lines are not all read.
#[derive(Drop)]
pub(crate) struct Dump {
    /// How many bytes there may be.
    most: usize,
    /// How many were read.
    filled: usize,
    /// The offset of the first byte, if a line told one.
    base: Option<u64>,
    /// What offsets are written to.
    radix: u8,
    /// The bytes of the last line that has some.
    row: Vec<u8>,
    /// Whether that line has numbers.
    numbers: bool,
    /// Whether a line `*` follows it.
    starred: bool,
}

impl Dump {
    /// Before the first line, of this many bytes at most.
    pub(crate) fn begin(alloc: Global, most: usize) -> Dump {
        Dump {
            most,
            filled: 0,
            base: None,
            radix: 16,
            row: Vec::new(alloc),
            numbers: false,
            starred: false,
        }
    }

    /// How many bytes were read.
    pub(crate) fn filled(&self) -> usize {
        self.filled
    }

    /// How many more there may be.
    pub(crate) fn room(&self) -> usize {
        self.most.saturating_sub(self.filled)
    }

    /// The fault of this many bytes more than were read, where that is known.
    fn too_many(&self, more: Option<u64>) -> Wrong {
        Wrong::TooManyBytes {
            most: self.most,
            found: more.map(|more| more.saturating_add(self.filled as u64)),
        }
    }

    /// Whether a line `*` is the last one, and stands for bytes that are not zero.
    pub(crate) fn is_cut(&self) -> bool {
        self.starred && self.row.iter().any(|byte| *byte != 0)
    }

    /// Counts bytes that were read otherwise.
    pub(crate) fn add(&mut self, count: usize) {
        self.filled = self.filled.saturating_add(count);
    }

    /// What a line is that begins with a word, after which this is left of it.
    fn row_of(&self, word: &[u8], rest: Line<'_>) -> Row {
        if before_colon(word).is_some() {
            return Row::Colon;
        }
        let len = word.len();
        if !is_hex(word) || len < 3 {
            return Row::Typed;
        }
        match shared_width(rest) {
            Some(0) if self.base.is_some() => Row::End,
            Some(2) => Row::Bytes,
            Some(4 | 8 | 16) if len == 6 || len == 7 => Row::Numbers,
            _ => Row::Typed,
        }
    }

    /// Repeats the last row as often as a line `*` stands for it, up to an offset.
    fn repeat(&mut self, place: Place, count: u64, bytes: &mut Vec<u8>) -> Result<(), Stop> {
        self.starred = false;
        let room = self.room().saturating_sub(bytes.len());
        if count > room as u64 {
            let more = count.saturating_add(bytes.len() as u64);
            return Err(Stop::At(place, self.too_many(Some(more))));
        }
        let rows = count.checked_div(self.row.len() as u64).unwrap_or(0);
        if rows.saturating_mul(self.row.len() as u64) != count {
            return Err(Stop::At(place, Wrong::NoEnd));
        }
        for _ in 0..rows {
            bytes.extend_from_slice(self.row.as_slice())?;
        }
        Ok(())
    }

    /// Goes to the offset that begins a line.
    fn go_to(
        &mut self,
        place: Place,
        word: &[u8],
        row: Row,
        bytes: &mut Vec<u8>,
    ) -> Result<(), Stop> {
        let digits = before_colon(word).unwrap_or(word);
        if self.base.is_none() && row == Row::Bytes && digits.len() == 7 {
            self.radix = 8;
        }
        let Some(offset) = value_of(digits, self.radix) else {
            return Err(Stop::At(place, Wrong::NoHex));
        };
        let Some(base) = self.base else {
            self.base = Some(offset.wrapping_sub(self.filled as u64));
            return Ok(());
        };
        let wanted = base.wrapping_add(self.filled as u64);
        if self.starred {
            return self.repeat(place, offset.wrapping_sub(wanted), bytes);
        }
        if offset == wanted {
            return Ok(());
        }
        if row == Row::End && self.numbers && offset.wrapping_add(1) == wanted {
            self.filled = self.filled.saturating_sub(1);
            return Ok(());
        }
        Err(Stop::At(place, Wrong::NoOffset(wanted)))
    }

    /// Puts the bytes of the words that are left, up to one that names a file.
    fn put_words(
        &self,
        alloc: Global,
        row: Row,
        line: &mut Line<'_>,
        bytes: &mut Vec<u8>,
    ) -> Result<(), Stop> {
        let mut end = None;
        for _ in 0..line.len() {
            let Some(place) = line.peek() else {
                break;
            };
            let word = line.word(place);
            if matches!(word, [FILE, ..]) {
                break;
            }
            let blanks = place.start.saturating_sub(end.unwrap_or(place.start));
            if row.ends(word, blanks) {
                line.leave();
                break;
            }
            line.next();
            end = Some(place.end);
            let room = self.room().saturating_sub(bytes.len());
            match word_bytes(alloc, row, word, room) {
                Ok(more) => bytes.extend_from_slice(more.as_slice())?,
                Err(NoBytes::TooMany) => {
                    let more = word_len(row, word).map(|len| len.saturating_add(
                        bytes.len() as u64,
                    ));
                    return Err(Stop::At(place, self.too_many(more)));
                }
                Err(NoBytes::NoHex) => return Err(Stop::At(place, Wrong::NoHex)),
                Err(NoBytes::Memory) => return Err(Stop::Memory),
            }
        }
        Ok(())
    }

    /// Whether a line has no bytes: `*`, or what `xxd -i` prints around its bytes.
    fn passes_over(&mut self, word: &[u8], line: &mut Line<'_>) -> bool {
        if word == "*".as_bytes() && !self.row.is_empty() {
            self.starred = true;
        } else if word != "unsigned".as_bytes() && word != "};".as_bytes() {
            return false;
        }
        line.leave();
        true
    }

    /// Takes the words of a line, up to one that names a file, and answers their bytes.
    pub(crate) fn line(&mut self, alloc: Global, line: &mut Line<'_>) -> Result<Vec<u8>, Stop> {
        let mut bytes = Vec::new(alloc);
        let Some(place) = line.peek() else {
            return Ok(bytes);
        };
        let word = line.word(place);
        if self.passes_over(word, line) {
            return Ok(bytes);
        }
        let mut rest = *line;
        rest.next();
        let row = self.row_of(word, rest);
        if row == Row::Typed {
            if self.starred {
                return Err(Stop::At(place, Wrong::NoEnd));
            }
        } else {
            *line = rest;
            self.go_to(place, word, row, &mut bytes)?;
        }
        let from = bytes.len();
        self.put_words(alloc, row, line, &mut bytes)?;
        let new = bytes.get(from..).unwrap_or(&[]);
        if !new.is_empty() {
            self.row = Vec::from_slice(alloc, new)?;
            self.numbers = row == Row::Numbers;
        }
        self.filled = self.filled.saturating_add(bytes.len());
        Ok(bytes)
    }
}
