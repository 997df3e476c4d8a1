//! The lines of a script, by their words.

ghost use Rattle.std.specs.Prelude.{◌≡◌, [], Ok, MatchResult};
ghost use Rattle.std.specs.List.{list_any};
ghost use Rattle.script_cli.specs.declared.verb.Verb.TheVariants.{Owners, Reset};
ghost use Rattle.script_cli.specs.Grammar.{pieces_from, request_words, begins_option as spec_begins_option, reserve_line as spec_reserve_line, fill_line as spec_fill_line, create_cq_line as spec_create_cq_line, forge_line as spec_forge_line, queue_line as spec_queue_line, command_line as spec_command_line, verb_line as spec_verb_line, line_of_words, begins_comment as spec_begins_comment, begins_with_hash as spec_begins_with_hash, is_high, words_of as spec_words_of, line_of, IsErrorOf, IsReadFrom};

use crate::fault::{LineError, LineFault};
use crate::script::Line;
use crate::values::piece;
use crate::verb::{CommandVerb, QueueVerb, Verb};
use crate::words::Words;
use io_commands::{Flags, Kind, Pieces, Request};
use std::alloc::Global;
use step_core::Step;

/// The most bytes of a line.
const MAX_LINE: usize = 16_384;

/// The word that an answer follows.
const ANSWER: &str = ">";

/// The word before the namespace of a request.
pub const NSID: &str = "nsid";

/// The word before the block size of a request.
pub const BLOCK_SIZE: &str = "block_size";

/// The word of Force Unit Access.
pub const FUA: &str = "fua";

/// The word of Limited Retry.
pub const LR: &str = "lr";

/// The word before the vector of a completion queue's interrupts.
pub const VECTOR: &str = "vector";

/// Whether a word comes after the pieces of a request.
pub fn begins_option(word: &[u8]) -> bool
    ensures { result ≡ spec_begins_option word.now }
{
    word == NSID.as_bytes()
        || word == BLOCK_SIZE.as_bytes()
        || word == FUA.as_bytes()
        || word == LR.as_bytes()
}

/// Takes the pieces of a request.
#[tactic(auto, using(crate::proofs::Pieces::pieces_end, crate::proofs::Pieces::piece_next, crate::proofs::Pieces::no_piece))]
fn pieces(alloc: Global, words: &mut Words<'_>) -> Result<Pieces, LineError>
    ensures { MatchResult result (λ pieces. pieces_from [] words.old ≡ Ok (pieces, words.new)) (IsErrorOf (pieces_from [] words.old)) }
{
    let mut pieces = Pieces::new(alloc);
    while let Some(word) = words.take_before_options() {
        let Some(next) = piece(word) else {
            return Err(LineError::Fault(LineFault::BadPiece));
        };
        pieces.push(next)?;
    }
    Ok(pieces)
}

/// A request, by the words that follow its number of blocks: its pieces, and then perhaps its namespace, its block size and its flags.
///
/// # Errors
///
/// The first fault of the words, or [`LineError::Memory`] where memory is refused.
pub fn read_request(
    alloc: Global,
    kind: Kind,
    slba: u64,
    blocks: u32,
    words: &mut Words<'_>,
) -> Result<Request, LineError>
    ensures { IsReadFrom (request_words kind slba blocks words.old) result }
{
    let pieces = pieces(alloc, words)?;
    let nsid = words.nsid()?;
    let block_size = words.block_size()?;
    let force_unit_access = words.take_named(FUA);
    let limited_retry = words.take_named(LR);
    words.end()?;
    Ok(Request {
        kind,
        nsid,
        flags: Flags {
            force_unit_access,
            limited_retry,
        },
        slba,
        block_size,
        blocks,
        pieces,
    })
}

/// A verb of a queue and the words after it.
fn queue_line(verb: QueueVerb, words: &mut Words<'_>) -> Result<Line, LineFault>
    ensures { result ≡ spec_queue_line verb words.old }
{
    let q = words.number16()?;
    words.end()?;
    Ok(Line::Step(verb.step(q)))
}

/// A verb of a command and the words after it.
fn command_line(verb: CommandVerb, words: &mut Words<'_>) -> Result<Line, LineFault>
    ensures { result ≡ spec_command_line verb words.old }
{
    let q = words.number16()?;
    let cid = words.number16()?;
    words.end()?;
    Ok(Line::Step(verb.step(q, cid)))
}

/// What follows `owners`.
fn owners_line(words: &mut Words<'_>) -> Result<Line, LineFault>
    ensures { result ≡ spec_verb_line words.old Owners }
{
    words.end()?;
    Ok(Line::Owners)
}

/// What follows `reset`.
fn reset_line(words: &mut Words<'_>) -> Result<Line, LineFault>
    ensures { result ≡ spec_verb_line words.old Reset }
{
    words.end()?;
    Ok(Line::Step(Step::Reset))
}

/// What follows `create_cq`.
fn create_cq_line(words: &mut Words<'_>) -> Result<Line, LineFault>
    ensures { result ≡ spec_create_cq_line words.old }
{
    let q = words.number16()?;
    let vector = words.vector()?;
    words.end()?;
    Ok(Line::Step(Step::CreateCq { q, vector }))
}

/// What follows `fill`.
fn fill_line(alloc: Global, words: &mut Words<'_>) -> Result<Line, LineError>
    ensures { IsReadFrom (spec_fill_line words.old) result }
{
    let q = words.number16()?;
    let cid = words.number16()?;
    let bytes = words.bytes(alloc)?;
    words.end()?;
    Ok(Line::Step(Step::Fill { q, cid, bytes }))
}

/// What follows `forge`.
fn forge_line(alloc: Global, words: &mut Words<'_>) -> Result<Line, LineError>
    ensures { IsReadFrom (spec_forge_line words.old) result }
{
    let q = words.number16()?;
    let slot = words.number16()?;
    let bytes = words.sixteen_bytes(alloc)?;
    words.end()?;
    Ok(Line::Step(Step::Forge { q, slot, bytes }))
}

/// What follows `reserve`.
fn reserve_line(alloc: Global, words: &mut Words<'_>) -> Result<Line, LineError>
    ensures { IsReadFrom (spec_reserve_line words.old) result }
{
    let q = words.number16()?;
    let kind = words.kind()?;
    let slba = words.number64()?;
    let blocks = words.number32()?;
    let request = read_request(alloc, kind, slba, blocks, words)?;
    Ok(Line::Step(Step::Reserve { q, request }))
}

/// A verb and the words after it.
fn verb_line(alloc: Global, verb: Verb, words: &mut Words<'_>) -> Result<Line, LineError>
    ensures { IsReadFrom (spec_verb_line words.old verb) result }
{
    match verb {
        Verb::Reserve => reserve_line(alloc, words),
        Verb::Fill => fill_line(alloc, words),
        Verb::CreateCq => Ok(create_cq_line(words)?),
        Verb::Forge => forge_line(alloc, words),
        Verb::Reset => Ok(reset_line(words)?),
        Verb::Owners => Ok(owners_line(words)?),
        Verb::OnQueue(verb) => Ok(queue_line(verb, words)?),
        Verb::OnCommand(verb) => Ok(command_line(verb, words)?),
    }
}

/// Whether a word begins with `#`.
fn begins_with_hash(word: &[u8]) -> bool
    ensures { result ≡ spec_begins_with_hash word.now }
{
    match word.split_first() {
        Some((first, _)) => *first == b'#',
        None => false,
    }
}

/// Whether a line that begins with this word does nothing: a comment, or `>`, which an answer follows in a transcript.
pub fn begins_comment(word: &[u8]) -> bool
    ensures { result ≡ spec_begins_comment word.now }
{
    begins_with_hash(word) || word == ANSWER.as_bytes()
}

/// A line, by its words.
fn line_of_its_words(alloc: Global, words: &mut Words<'_>) -> Result<Line, LineError>
    ensures { IsReadFrom (line_of_words words.old) result }
{
    let Some(first) = words.take_first() else {
        return Ok(Line::Nothing);
    };
    if begins_comment(first) {
        return Ok(Line::Nothing);
    }
    match Verb::named(first) {
        Some(verb) => verb_line(alloc, verb, words),
        None => Err(LineError::Fault(LineFault::UnknownVerb)),
    }
}

/// Whether a line has a byte that is not ASCII.
fn has_high(line: &[u8]) -> bool
    ensures { result ≡ list_any is_high line.now }
{
    line.iter().any(|byte| *byte >= 128)
}

/// The words of a line, or a fault of the line as a whole.
pub fn words_of(line: &[u8]) -> Result<Words<'_>, LineFault>
    ensures { result ≡ spec_words_of line.now }
{
    if line.len() > MAX_LINE {
        return Err(LineFault::LongLine);
    }
    if has_high(line) {
        return Err(LineFault::NotAscii);
    }
    Ok(Words::of(line))
}

/// What a line is, or its first fault.
pub(crate) fn read_line(alloc: Global, line: &[u8]) -> Result<Line, LineError>
    ensures { IsReadFrom (line_of line.now) result }
{
    let mut words = words_of(line)?;
    line_of_its_words(alloc, &mut words)
}
