//! Why lines are not a case.

ghost use Rattle.std.specs.Prelude.{◌≡◌};
ghost use Rattle.std.specs.Option.{option_map};
ghost use Rattle.views.specs.FaultObjects.{wrong_name};
ghost use Rattle.views.specs.FaultTexts.{unplaced_sentence};

use std::{fmt, io};

/// What is wrong with a line.
#[derive(Clone, Copy, Debug, PartialEq, Eq)]
pub enum Wrong {
    /// It has more than 16,384 bytes, or one that is not ASCII.
    NoText,
    /// Its first word is not one that begins a line.
    NoKey,
    /// A decimal number is expected, of these.
    NoNumber {
        /// The least.
        least: u64,
        /// The most.
        most: u64,
    },
    /// A decimal number is expected, of these, or that there are as many as may be.
    NoSize {
        /// The least.
        least: u32,
        /// The most.
        most: u32,
    },
    /// An address of the pool is expected.
    NoAddress {
        /// The pool's first address.
        first: u64,
        /// Its last address.
        last: u64,
    },
    /// A multiple of 4,096 is expected, with which the pool ends at 2^64.
    NoMultiple,
    /// How many bytes a block has is expected.
    NoBlockSize,
    /// Bytes are expected.
    NoHex,
    /// A status is expected.
    NoStatus,
    /// An offset is expected that goes on where the line before ended.
    NoOffset(u64),
    /// After a line that stands for others an offset is expected.
    NoEnd,
    /// A file that is named cannot be read; the system's number of the reason, if it gave one.
    NoFile(Option<i32>),
    /// A line of a file that is named is not a line of a dump.
    NoDump(u32),
    /// There are more bytes than allowed.
    TooManyBytes {
        /// How many there may be.
        most: usize,
        /// How many there are with this word, where that is known.
        found: Option<u64>,
    },
    /// There are this many bytes, and another number is expected.
    NotSoMany {
        /// How many there are.
        found: usize,
        /// How many are expected.
        wanted: usize,
    },
    /// A word is left over.
    Extra,
    /// Sizes come after what they size.
    Late,
    /// Bytes for a page that is out.
    IsOut,
    /// The line of this number has such bytes already.
    Given(u32),
    /// The entry is there already.
    Twice,
    /// The namespace is there already.
    SecondNamespace,
}

impl Wrong {
    /// Its name.
    pub(crate) fn name(self) -> &'static str
        ensures { result.now ≡ wrong_name self }
    {
        match self {
            Wrong::NoText => "BadLine",
            Wrong::NoKey => "UnknownWord",
            Wrong::NoNumber { .. } | Wrong::NoSize { .. } | Wrong::NoBlockSize => "BadNumber",
            Wrong::NoAddress { .. } | Wrong::NoMultiple => "BadAddress",
            Wrong::NoHex => "BadHex",
            Wrong::NoStatus => "BadStatus",
            Wrong::NoOffset(_) | Wrong::NoEnd => "BadOffset",
            Wrong::NoFile(_) | Wrong::NoDump(_) => "BadFile",
            Wrong::TooManyBytes { .. } | Wrong::NotSoMany { .. } => "BadLength",
            Wrong::Extra => "ExtraWord",
            Wrong::Late => "LateSize",
            Wrong::IsOut => "PageOut",
            Wrong::Given(_) => "SecondBytes",
            Wrong::Twice => "SecondEntry",
            Wrong::SecondNamespace => "SecondNamespace",
        }
    }
}

/// The sentence for too many bytes, or too few.
fn put_length<W: fmt::Write>(f: &mut fmt::Formatter<W>, wrong: Wrong) -> fmt::Result {
    match wrong {
        Wrong::TooManyBytes {
            most,
            found: Some(found),
        } => write!(f, "there are {most} bytes at most, and {found} stand here."),
        Wrong::TooManyBytes { most, found: None } => {
            write!(f, "there are {most} bytes at most.")
        }
        Wrong::NotSoMany { found: 1, wanted } => {
            write!(f, "there is 1 byte here, and {wanted} are wanted.")
        }
        Wrong::NotSoMany { found, wanted } => {
            write!(f, "there are {found} bytes here, and {wanted} are wanted.")
        }
        _ => Ok(()),
    }
}

/// The sentence for a file that gives no bytes.
fn put_file<W: fmt::Write>(f: &mut fmt::Formatter<W>, wrong: Wrong) -> fmt::Result {
    match wrong {
        Wrong::NoFile(Some(code)) => {
            let why = io::Error::from_raw_os_error(code);
            write!(f, "this file cannot be read: {why}.")
        }
        Wrong::NoDump(line) => write!(f, "line {line} of this file is no line of a dump."),
        _ => f.write_str("this file cannot be read."),
    }
}

/// The sentence for a word that is not a number or an address.
fn put_wanted<W: fmt::Write>(f: &mut fmt::Formatter<W>, wrong: Wrong) -> fmt::Result {
    match wrong {
        Wrong::NoNumber { least, most } => {
            write!(f, "a decimal number is wanted here, {least} to {most}.")
        }
        Wrong::NoSize { least, most } => {
            write!(
                f,
                "a decimal number is wanted here, {least} to {most}, or any."
            )
        }
        Wrong::NoBlockSize => {
            f.write_str("a block's size is wanted here: 512, 1024, 2048 or 4096 bytes.")
        }
        Wrong::NoAddress { first, last } => write!(
            f,
            "an address of the pool is wanted here, hexadecimal, as 0x1000 or 1000h: {first:X}h to {last:X}h."
        ),
        _ => f.write_str(
            "a multiple of 1000h is wanted here, hexadecimal, as 0x1000 or 1000h; a pool has a page or more, and ends at 2^64.",
        ),
    }
}

/// A sentence for people, with its stop.
impl fmt::Display for Wrong {
    fn fmt<W: fmt::Write>(&self, f: &mut fmt::Formatter<W>) -> fmt::Result {
        match self {
            Wrong::NoText => f.write_str("a line is ASCII text of 16384 bytes at most."),
            Wrong::NoKey => f.write_str(
                "a line begins with pages, memory, page, at, out, blocks, block_size, block, nsid or sqe, or goes on with bytes.",
            ),
            Wrong::NoNumber { .. }
            | Wrong::NoSize { .. }
            | Wrong::NoAddress { .. }
            | Wrong::NoMultiple
            | Wrong::NoBlockSize => put_wanted(f, *self),
            Wrong::NoFile(_) | Wrong::NoDump(_) => put_file(f, *self),
            Wrong::TooManyBytes { .. } | Wrong::NotSoMany { .. } => put_length(f, *self),
            Wrong::NoHex => f.write_str(
                "bytes are wanted here: two hexadecimal digits for each, or a byte so often, as 00*16, or a file, as @FILE.",
            ),
            Wrong::NoStatus => f.write_str(
                "a status is wanted here: type and code, as 0:0D, or the 15 bits of its field, hexadecimal, as 0x400D.",
            ),
            Wrong::NoOffset(wanted) => {
                write!(
                    f,
                    "a dump goes on where the line before ended: the offset {wanted:X} is wanted here."
                )
            }
            Wrong::NoEnd => f.write_str("after a line * an offset is wanted."),
            Wrong::Extra => f.write_str("this word is one too many."),
            Wrong::Late => f.write_str("a size stands once, before the lines that it is for."),
            Wrong::IsOut => f.write_str("this page is out, and has no bytes."),
            Wrong::Given(line) => write!(f, "line {line} has bytes for this place already."),
            Wrong::Twice => f.write_str("an entry stands there already, and one is explained."),
            Wrong::SecondNamespace => f.write_str("a namespace stands there already."),
        }
    }
}

/// Why a text is not a case.
#[derive(Clone, Copy, Debug, PartialEq, Eq)]
pub enum CaseFault {
    /// The first line that is at fault, and where.
    Line {
        /// The line's number, from 1.
        number: u32,
        /// Where the word that is at fault begins, in bytes from the left.
        start: usize,
        /// Where it ends.
        end: usize,
        /// What is wrong there.
        wrong: Wrong,
    },
    /// It has more than 1,048,576 bytes, or more than 65,536 lines.
    TooLong,
    /// No line has an entry.
    NoEntry,
    /// Memory was refused.
    Memory,
}

impl CaseFault {
    /// A sentence for people of a fault that has no line.
    pub(crate) fn sentence(self) -> Option<&'static str>
        ensures { option_map (λ said. said.now) result ≡ unplaced_sentence self }
    {
        match self {
            CaseFault::TooLong => Some("it has 1048576 bytes and 65536 lines at most."),
            CaseFault::NoEntry => Some("a line has the entry: `sqe`, and its 64 bytes."),
            CaseFault::Line { .. } | CaseFault::Memory => None,
        }
    }
}

impl fmt::Display for CaseFault {
    fn fmt<W: fmt::Write>(&self, f: &mut fmt::Formatter<W>) -> fmt::Result {
        match self {
            CaseFault::Line { number, wrong, .. } => {
                let name = wrong.name();
                write!(f, "line {number}: {name}")
            }
            CaseFault::TooLong => f.write_str("input: too long"),
            CaseFault::NoEntry => f.write_str("input: no entry"),
            CaseFault::Memory => f.write_str("memory"),
        }
    }
}
