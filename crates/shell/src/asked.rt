//! What a line asks for.

use crate::dot_word::DotWord;
use crate::fault::Fault;
use script_cli::transcripts::SaidOptions;
use script_cli::{Line, LineFault, ScriptFault, Words, read_script, split_line, words_of};
use std::alloc::Global;
use step_core::{Bytes, PageNo, Step};
use texts::byte_runs::{RunsFault, bytes_of};

/// The most bytes that a command moves.
const MOST: usize = 1_048_576;

/// Blocks, and the queue by which they are moved.
#[derive(Clone, Copy, Debug, PartialEq, Eq)]
pub(crate) struct Extent {
    /// The queue.
    pub(crate) q: u16,
    /// The first block.
    pub(crate) slba: u64,
    /// How many blocks.
    pub(crate) blocks: u32,
}

/// What a line asks for.
#[derive(Drop)]
pub(crate) enum Asked<'a> {
    /// An empty line or a comment.
    Nothing,
    /// A step of a script.
    Step(Step),
    /// Who owns which page.
    Owners,
    /// How many pages each class has.
    Counts,
    /// Where both sides stand in the rings, of all queues or of one.
    Rings(Option<u16>),
    /// The bytes of a page.
    Page(PageNo),
    /// Whether steps are traced from now on.
    Trace(bool),
    /// What there is to say, or the form of a word.
    Help(Option<&'a str>),
    /// That the controller works, on all queues or on one.
    Serve(Option<u16>),
    /// That blocks are read.
    Read(Extent),
    /// That the lines of a file are answered.
    Play(&'a str),
    /// That blocks are written.
    Write(Extent, Bytes),
    /// That the image is written into a file.
    Save(&'a str),
    /// What was done in this world, as a transcript, into a file if one is named.
    Dump(Option<&'a str>),
    /// That what is answered goes into a file, or to standard output.
    Output(Option<&'a str>),
    /// What a name means.
    Explain(&'a str),
    /// A new world, over an image if a file is named.
    Open(SaidOptions, Option<&'a str>),
    /// That a text is printed.
    Print(&'a str),
    /// That the session ends.
    Quit,
}

/// Why it is not known what a line asks for.
#[derive(Clone, Copy, Debug, PartialEq, Eq)]
pub(crate) enum NotAsked<'a> {
    /// Something is wrong with it.
    Fault(Fault<'a>),
    /// Memory was refused.
    Memory,
}

impl<'a> From<Fault<'a>> for NotAsked<'a> {
    fn from(fault: Fault<'a>) -> Self {
        NotAsked::Fault(fault)
    }
}

/// What a line asks for.
type Reading<'a> = Result<Asked<'a>, NotAsked<'a>>;

/// A word as text; a line's words are ASCII.
fn text_of(word: &[u8]) -> &str {
    std::str::from_utf8(word).unwrap_or("")
}

/// The number of 16 bits that a word is.
fn number16(word: &[u8]) -> Result<u16, LineFault> {
    let mut words = words_of(word)?;
    words.number16()
}

/// The number of 32 bits that a word is.
fn number32(word: &[u8]) -> Result<u32, LineFault> {
    let mut words = words_of(word)?;
    words.number32()
}

/// The number of 64 bits that a word is.
fn number64(word: &[u8]) -> Result<u64, LineFault> {
    let mut words = words_of(word)?;
    words.number64()
}

/// The words after a word with a dot.
#[derive(Drop)]
struct Arguments<'a> {
    words: Words<'a>,
    dot: DotWord,
}

impl<'a> Arguments<'a> {
    /// Takes a word, if one is left.
    fn next(&mut self) -> Option<&'a str> {
        self.words.take_first().map(text_of)
    }

    /// Takes a required word.
    fn wanted(&mut self) -> Result<&'a str, Fault<'a>> {
        self.next().ok_or(Fault::Missing(self.dot))
    }

    /// A queue, a first block and a number of blocks; the queue is this word.
    fn extent(&mut self, queue: &'a str, first: &'a str) -> Result<Extent, Fault<'a>> {
        let q = number16(queue.as_bytes()).map_err(|_| Fault::Bad(queue, self.dot))?;
        let slba = number64(first.as_bytes()).map_err(|_| Fault::Bad(first, self.dot))?;
        let count = self.wanted()?;
        let blocks = number32(count.as_bytes()).map_err(|_| Fault::Bad(count, self.dot))?;
        Ok(Extent { q, slba, blocks })
    }

    /// Checks that no word is left.
    fn end(&mut self) -> Result<(), Fault<'a>> {
        match self.next() {
            Some(word) => Err(Fault::Extra(word, self.dot)),
            None => Ok(()),
        }
    }
}

/// A word that has no argument.
fn alone<'a>(asked: Asked<'a>, mut arguments: Arguments<'a>) -> Result<Asked<'a>, Fault<'a>> {
    arguments.end()?;
    Ok(asked)
}

/// One word that may follow.
fn perhaps<'a>(mut arguments: Arguments<'a>) -> Result<Option<&'a str>, Fault<'a>> {
    let word = arguments.next();
    arguments.end()?;
    Ok(word)
}

/// The queue that follows, if one is named.
fn of_queues<'a>(mut arguments: Arguments<'a>) -> Result<Option<u16>, Fault<'a>> {
    let Some(word) = arguments.next() else {
        return Ok(None);
    };
    match number16(word.as_bytes()) {
        Ok(q) => {
            arguments.end()?;
            Ok(Some(q))
        }
        Err(_) => Err(Fault::Bad(word, arguments.dot)),
    }
}

/// What follows `.page`.
fn page(mut arguments: Arguments<'_>) -> Result<Asked<'_>, Fault<'_>> {
    let word = arguments.wanted()?;
    let p = number32(word.as_bytes()).map_err(|_| Fault::Bad(word, arguments.dot))?;
    arguments.end()?;
    Ok(Asked::Page(PageNo(p)))
}

/// What follows `.trace`.
fn trace(mut arguments: Arguments<'_>) -> Result<Asked<'_>, Fault<'_>> {
    let word = arguments.wanted()?;
    let traces = word == "on";
    if !traces && word != "off" {
        return Err(Fault::Bad(word, arguments.dot));
    }
    arguments.end()?;
    Ok(Asked::Trace(traces))
}

/// One word that follows.
fn one<'a>(mut arguments: Arguments<'a>) -> Result<&'a str, Fault<'a>> {
    let word = arguments.wanted()?;
    arguments.end()?;
    Ok(word)
}

/// What follows `.read`: a path, which is not a number, or blocks.
fn read(mut arguments: Arguments<'_>) -> Result<Asked<'_>, Fault<'_>> {
    let first = arguments.wanted()?;
    match arguments.next() {
        Some(second) => {
            let extent = arguments.extent(first, second)?;
            arguments.end()?;
            Ok(Asked::Read(extent))
        }
        None if number64(first.as_bytes()).is_ok() => Err(Fault::Missing(arguments.dot)),
        None => Ok(Asked::Play(first)),
    }
}

/// What follows `.write`.
fn write(alloc: Global, mut arguments: Arguments<'_>) -> Reading<'_> {
    let queue = arguments.wanted()?;
    let first = arguments.wanted()?;
    let extent = arguments.extent(queue, first)?;
    let word = arguments.wanted()?;
    arguments.end()?;
    match bytes_of(alloc, word.as_bytes(), MOST) {
        Ok(bytes) => Ok(Asked::Write(extent, Bytes::from_vec(bytes))),
        Err(RunsFault::NoRuns | RunsFault::TooMany) => {
            Err(NotAsked::Fault(Fault::Bad(word, arguments.dot)))
        }
        Err(RunsFault::Memory) => Err(NotAsked::Memory),
    }
}

/// What follows `.open` in the text of a line.
fn open(behind: &str) -> Result<Asked<'_>, Fault<'_>> {
    match SaidOptions::of_words(behind) {
        Ok((said, image)) => Ok(Asked::Open(said, image)),
        Err(bad) => Err(Fault::BadOption(bad)),
    }
}

/// What a word with a dot asks for, with the words after it, and with the text after it.
fn asked_of_dot<'a>(alloc: Global, dot: DotWord, words: Words<'a>, behind: &'a str) -> Reading<'a> {
    let arguments = Arguments { words, dot };
    match dot {
        DotWord::Help => Ok(Asked::Help(perhaps(arguments)?)),
        DotWord::Explain => Ok(Asked::Explain(one(arguments)?)),
        DotWord::Owners => Ok(alone(Asked::Owners, arguments)?),
        DotWord::Counts => Ok(alone(Asked::Counts, arguments)?),
        DotWord::Rings => Ok(Asked::Rings(of_queues(arguments)?)),
        DotWord::Page => Ok(page(arguments)?),
        DotWord::Trace => Ok(trace(arguments)?),
        DotWord::Serve => Ok(Asked::Serve(of_queues(arguments)?)),
        DotWord::Read => Ok(read(arguments)?),
        DotWord::Write => write(alloc, arguments),
        DotWord::Save => Ok(Asked::Save(one(arguments)?)),
        DotWord::Dump => Ok(Asked::Dump(perhaps(arguments)?)),
        DotWord::Output => Ok(Asked::Output(perhaps(arguments)?)),
        DotWord::Open => Ok(open(behind)?),
        DotWord::Print => Ok(Asked::Print(behind.strip_prefix(' ').unwrap_or(behind))),
        DotWord::Quit => Ok(alone(Asked::Quit, arguments)?),
    }
}

/// What a line of a script asks for.
fn asked_of_step(alloc: Global, line: &[u8]) -> Reading<'_> {
    let script = match read_script(alloc, line) {
        Ok(script) => script,
        Err(ScriptFault::Line { number: _, fault }) => {
            return Err(NotAsked::Fault(Fault::Line(fault)));
        }
        Err(ScriptFault::TooLong) => return Err(NotAsked::Fault(Fault::Line(LineFault::LongLine))),
        Err(ScriptFault::Memory) => return Err(NotAsked::Memory),
    };
    let line = script.into_lines().pop().map(|numbered| numbered.line);
    Ok(match line {
        Some(Line::Step(step)) => Asked::Step(step),
        Some(Line::Owners) => Asked::Owners,
        Some(Line::Nothing) | None => Asked::Nothing,
    })
}

/// What a line asks for, which ends as it was read: with a line feed or without.
pub(crate) fn asked_of(alloc: Global, line: &[u8]) -> Reading<'_> {
    let (bytes, _) = split_line(line);
    let mut words = match words_of(bytes) {
        Ok(words) => words,
        Err(fault) => return Err(NotAsked::Fault(Fault::Line(fault))),
    };
    let first = words.take_first().map_or("", text_of);
    if !first.starts_with('.') {
        return asked_of_step(alloc, line);
    }
    let Some(dot) = DotWord::named(first) else {
        return Err(NotAsked::Fault(Fault::UnknownWord(first)));
    };
    let behind = match text_of(bytes).split_once(dot.name()) {
        Some((_, behind)) => behind,
        None => "",
    };
    asked_of_dot(alloc, dot, words, behind)
}
