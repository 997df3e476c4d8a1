//! Which word of a line is at fault.

ghost use Rattle.std.specs.Prelude.{◌≡◌, ◌≤◌, ◌<◌, IfErr, IfOk, IfSome, length};
ghost use Rattle.texts.specs.Found.{IsErrorIn, IsIn};

use crate::faults::forms::{Grammar, Slot, has_pieces, slots_of, slots_of_job};
use crate::faults::words::{Place, word_from};
use script_cli::{
    BLOCK_SIZE, FUA, LR, LineError, LineFault, NSID, VECTOR, Verb, Words, begins_comment,
    begins_option, piece, words_of,
};
use std::alloc::{AllocError, Global};

/// The word with which the line of a job begins.
pub(crate) const JOB: &[u8] = b"job";

/// The most bytes of a line.
const MAX_LINE: usize = 16_384;

/// What a line wants where it is at fault.
#[derive(Clone, Copy, Debug, PartialEq, Eq)]
pub enum Wanted {
    /// Fewer bytes.
    ShorterLine,
    /// A byte of ASCII.
    Ascii,
    /// A verb, or `job`.
    Verb,
    /// This word.
    Slot(Slot),
    /// A piece.
    Piece,
    /// Nothing more, after what this verb takes.
    Nothing(Verb),
    /// Nothing more, after the request of a job.
    NothingOfJob,
}

/// What is at fault in a line, and where.
#[derive(Clone, Copy, Debug, PartialEq, Eq)]
pub struct Found {
    /// The first fault.
    pub fault: LineFault,
    /// Where the word that is at fault begins, in bytes from the left.
    pub start: usize,
    /// Where it ends. A word that is missing has no bytes.
    pub end: usize,
    /// What is expected there.
    pub wanted: Wanted,
}

/// Why no more of a line is read.
#[derive(Clone, Copy)]
pub(crate) enum FindError {
    /// It is at fault.
    Found(Found),
    /// Memory was refused.
    Memory,
}

impl From<Found> for FindError {
    ghost use Rattle.texts.specs.declared.faults.finding.FindError.{FindError};
    ghost use Rattle.std.specs.Prelude.{◌≡◌};

    ghost from_gives = { λ found error. error ≡ FindError.Found found };

    fn from(found: Found) -> Self {
        FindError::Found(found)
    }
}

impl From<AllocError> for FindError {
    ghost use Rattle.texts.specs.declared.faults.finding.FindError.{FindError};
    ghost use Rattle.std.specs.Prelude.{◌≡◌};

    ghost from_gives = { λ _ error. error ≡ FindError.Memory };

    fn from(_refused: AllocError) -> Self {
        FindError::Memory
    }
}

/// Whether something was read; an error where memory was refused.
fn was_read<T: Drop>(read: Result<T, LineError>) -> Result<bool, AllocError> {
    match read {
        Ok(_) => Ok(true),
        Err(LineError::Fault(_)) => Ok(false),
        Err(LineError::Memory) => Err(AllocError),
    }
}

/// Whether memory was refused, or else whether a word is what is wanted, as the parser reads it.
fn is_good(alloc: Global, slot: Slot, words: &mut Words<'_>) -> Result<bool, AllocError> {
    Ok(match slot {
        Slot::Queue | Slot::Identifier | Slot::CompletionSlot | Slot::Vector => {
            words.number16().is_ok()
        }
        Slot::Kind => words.kind().is_ok(),
        Slot::FirstBlock => words.number64().is_ok(),
        Slot::Blocks => words.number32().is_ok(),
        Slot::Namespace => words.namespace().is_ok(),
        Slot::BlockSize => words.size().is_ok(),
        Slot::Bytes => was_read(words.bytes(alloc))?,
        Slot::EntryBytes => was_read(words.sixteen_bytes(alloc))?,
        Slot::Submitter(submitters) => words.number_below(submitters).is_ok(),
    })
}

/// The fault of a word that is not what is wanted.
fn fault_of(slot: Slot) -> LineFault {
    match slot {
        Slot::Kind => LineFault::BadKind,
        Slot::Bytes | Slot::EntryBytes => LineFault::BadHex,
        Slot::Queue
        | Slot::Identifier
        | Slot::CompletionSlot
        | Slot::FirstBlock
        | Slot::Blocks
        | Slot::Namespace
        | Slot::BlockSize
        | Slot::Vector
        | Slot::Submitter(_) => LineFault::BadNumber,
    }
}

/// A fault at a place.
fn at_fault(fault: LineFault, place: Place, wanted: Wanted) -> Found
    ensures start { result.start ≡ place.start }
    ensures end { result.end ≡ place.end }
{
    Found {
        fault,
        start: place.start,
        end: place.end,
        wanted,
    }
}

/// Looks at the word that follows a position, and answers where it ends.
fn word_after(alloc: Global, line: &[u8], at: usize, slot: Slot) -> Result<usize, FindError>
    requires { at ≤ length line.now }
    ensures next { IfOk result (λ next. next ≤ length line.now) }
    ensures error { IfErr result (IsErrorIn (length line.now)) }
{
    let wanted = Wanted::Slot(slot);
    let Some(place) = word_from(line, at) else {
        let end = line.len();
        let place = Place { start: end, end };
        return Err(FindError::Found(at_fault(LineFault::MissingWord, place, wanted)));
    };
    let good = match words_of(&line[place.start..place.end]) {
        Ok(mut word) => is_good(alloc, slot, &mut word)?,
        Err(_) => false,
    };
    if good {
        Ok(place.end)
    } else {
        Err(FindError::Found(at_fault(fault_of(slot), place, wanted)))
    }
}

/// Looks at the words that follow a position, and answers where the last one ends.
fn words_after(alloc: Global, line: &[u8], at: usize, slots: &[Slot]) -> Result<usize, FindError>
    requires { at ≤ length line.now }
    ensures next { IfOk result (λ next. next ≤ length line.now) }
    ensures error { IfErr result (IsErrorIn (length line.now)) }
{
    let mut at = at;
    for slot in slots {
        at = word_after(alloc, line, at, *slot)?;
    }
    Ok(at)
}

/// Looks at the pieces that follow a position, and answers where the last one ends.
fn pieces_after(line: &[u8], at: usize) -> Result<usize, Found>
    requires { at ≤ length line.now }
    ensures next { IfOk result (λ next. next ≤ length line.now) }
    ensures found { IfErr result (IsIn (length line.now)) }
{
    let mut at = at;
    'words: for _ in 0..line.len() {
        let Some(place) = word_from(line, at) else {
            return Ok(at);
        };
        let word = &line[place.start..place.end];
        if begins_option(word) {
            return Ok(at);
        }
        if piece(word).is_none() {
            return Err(at_fault(LineFault::BadPiece, place, Wanted::Piece));
        }
        at = place.end;
    }
    Ok(at)
}

/// Where a word ends, if it is the one that follows a position.
fn named_after(line: &[u8], at: usize, name: &str) -> Option<usize>
    requires { at ≤ length line.now }
    ensures { IfSome result (λ next. next ≤ length line.now) }
{
    let place = word_from(line, at)?;
    if &line[place.start..place.end] != name.as_bytes() {
        return None;
    }
    Some(place.end)
}

/// Looks at the word that may follow a position after its name, and answers where it ends.
fn option_after(
    alloc: Global,
    line: &[u8],
    at: usize,
    name: &str,
    slot: Slot,
) -> Result<usize, FindError>
    requires { at ≤ length line.now }
    ensures next { IfOk result (λ next. next ≤ length line.now) }
    ensures error { IfErr result (IsErrorIn (length line.now)) }
{
    match named_after(line, at, name) {
        Some(next) => word_after(alloc, line, next, slot),
        None => Ok(at),
    }
}

/// Where a flag ends, if it follows a position; else that position.
fn flag_after(line: &[u8], at: usize, name: &str) -> usize
    requires { at ≤ length line.now }
    ensures { result ≤ length line.now }
{
    match named_after(line, at, name) {
        Some(next) => next,
        None => at,
    }
}

/// Checks that no word follows a position.
fn end_after(line: &[u8], at: usize, wanted: Wanted) -> Result<(), Found>
    requires { at ≤ length line.now }
    ensures { IfErr result (IsIn (length line.now)) }
{
    match word_from(line, at) {
        Some(place) => Err(at_fault(LineFault::ExtraWord, place, wanted)),
        None => Ok(()),
    }
}

/// Looks at what follows the number of blocks of a request, to the end of the line.
fn request_after(alloc: Global, line: &[u8], at: usize, wanted: Wanted) -> Result<(), FindError>
    requires { at ≤ length line.now }
    ensures { IfErr result (IsErrorIn (length line.now)) }
{
    let at = pieces_after(line, at)?;
    let at = option_after(alloc, line, at, NSID, Slot::Namespace)?;
    let at = option_after(alloc, line, at, BLOCK_SIZE, Slot::BlockSize)?;
    let at = flag_after(line, at, FUA);
    let at = flag_after(line, at, LR);
    Ok(end_after(line, at, wanted)?)
}

/// Looks at what follows a verb of steps.
fn step_after(alloc: Global, line: &[u8], at: usize, verb: Verb) -> Result<(), FindError>
    requires { at ≤ length line.now }
    ensures { IfErr result (IsErrorIn (length line.now)) }
{
    let at = words_after(alloc, line, at, slots_of(verb))?;
    let wanted = Wanted::Nothing(verb);
    if has_pieces(verb) {
        return request_after(alloc, line, at, wanted);
    }
    if verb != Verb::CreateCq {
        return Ok(end_after(line, at, wanted)?);
    }
    let at = option_after(alloc, line, at, VECTOR, Slot::Vector)?;
    Ok(end_after(line, at, wanted)?)
}

/// Whether the third word that follows a position is a kind of command whose job has bytes.
fn has_bytes(line: &[u8], at: usize) -> bool
    requires { at ≤ length line.now }
{
    let Ok(mut words) = words_of(&line[at..]) else {
        return false;
    };
    // the submitter and the queue
    words.take_first();
    words.take_first();
    match words.kind() {
        Ok(kind) => kind.has_list() && !kind.brings_data(),
        Err(_) => false,
    }
}

/// Looks at what follows `job`.
fn job_after(alloc: Global, line: &[u8], at: usize, submitters: u16) -> Result<(), FindError>
    requires { at ≤ length line.now }
    ensures { IfErr result (IsErrorIn (length line.now)) }
{
    let slots = slots_of_job(submitters);
    let mut next = words_after(alloc, line, at, &slots)?;
    if has_bytes(line, at) {
        next = word_after(alloc, line, next, Slot::Bytes)?;
    }
    request_after(alloc, line, next, Wanted::NothingOfJob)
}

/// Where the first byte that is not ASCII is.
fn first_high(line: &[u8]) -> Option<usize>
    ensures { IfSome result (λ n. n < length line.now) }
{
    line.iter().position(|byte| *byte >= 128)
}

/// Checks that a line is short enough, and has bytes of ASCII alone.
fn whole_line(line: &[u8]) -> Result<(), Found>
    ensures { IfErr result (IsIn (length line.now)) }
{
    if line.len() > MAX_LINE {
        let place = Place {
            start: MAX_LINE,
            end: line.len(),
        };
        return Err(at_fault(LineFault::LongLine, place, Wanted::ShorterLine));
    }
    match first_high(line) {
        Some(start) => {
            let end = start + 1;
            let place = Place { start, end };
            Err(at_fault(LineFault::NotAscii, place, Wanted::Ascii))
        }
        None => Ok(()),
    }
}

/// Looks at a line of a script.
fn look_over_line(alloc: Global, grammar: Grammar, line: &[u8]) -> Result<(), FindError>
    ensures { IfErr result (IsErrorIn (length line.now)) }
{
    whole_line(line)?;
    let Some(place) = word_from(line, 0) else {
        return Ok(());
    };
    let first = &line[place.start..place.end];
    if begins_comment(first) {
        return Ok(());
    }
    let verb = Verb::named(first);
    match (grammar, verb) {
        (Grammar::Steps, Some(verb)) => step_after(alloc, line, place.end, verb),
        (Grammar::Jobs(submitters), _) if first == JOB => {
            job_after(alloc, line, place.end, submitters)
        }
        _ => Err(FindError::Found(at_fault(LineFault::UnknownVerb, place, Wanted::Verb))),
    }
}

/// What is at fault in a line of a script, and where. Nothing where the line has no fault.
///
/// # Errors
///
/// Where memory is refused.
pub fn find(alloc: Global, grammar: Grammar, line: &[u8]) -> Result<Option<Found>, AllocError>
    ensures { IfOk result (λ found. IfSome found (IsIn (length line.now))) }
{
    match look_over_line(alloc, grammar, line) {
        Ok(()) => Ok(None),
        Err(FindError::Found(found)) => Ok(Some(found)),
        Err(FindError::Memory) => Err(AllocError),
    }
}
