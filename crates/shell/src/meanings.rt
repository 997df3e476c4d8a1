//! What refusals, faults and statuses mean, each in a sentence.

use entry_codec::Status;
use entry_codec::status_names::Named;
use std::alloc::{AllocError, Global};
use texts::faults::nearest;

/// Why a step is refused: what follows `refused`.
pub const REFUSALS: [(&str, &str); 29] = [
    (
        "NoValue",
        "no draft, ticket or finished command of this queue and identifier is kept here; which of them the verb wants, docs/PROFILE.md says",
    ),
    (
        "NoQueue",
        "there is no such queue, or it takes this call no more",
    ),
    (
        "Deleting",
        "the queue is being deleted, and takes no new commands",
    ),
    ("Bad", "the request is at fault; the name after it says how"),
    (
        "OtherBlocks",
        "the controller has blocks of another size than the request",
    ),
    (
        "NoIdentifier",
        "a queue of n entries has n - 1 identifiers, and all are outstanding: release a command first",
    ),
    ("NoPages", "the command needs more pages than are free"),
    (
        "Memory",
        "memory of the program itself was refused; nothing has changed",
    ),
    (
        "Stranger",
        "no command of this world fits the value; it never comes in a script",
    ),
    (
        "NotBuilt",
        "the draft has no list yet: build it before it is submitted",
    ),
    (
        "QueueGone",
        "the queue is no longer live, so the draft cannot be submitted: cancel it",
    ),
    (
        "QueueFull",
        "the submission ring is full: reap completions, which tell how far the controller has fetched",
    ),
    (
        "NotYet",
        "the command has not ended: the controller completes it, and reap takes the completion",
    ),
    (
        "WrongState",
        "the queue is in a state in which this call is not allowed; .rings shows it",
    ),
    (
        "NoSuchCommand",
        "no command with this identifier is submitted and waits for its end",
    ),
    (
        "NotDeleted",
        "the queue's submission half is not deleted yet: delete_sq, and reap its completion, come first",
    ),
    (
        "NotDrained",
        "a completion still stands in the queue: reap it first",
    ),
    (
        "Outstanding",
        "commands of the queue are outstanding: release them first",
    ),
    (
        "NoRun",
        "so many free pages do not stand one after the other",
    ),
    (
        "NoSlot",
        "the completion ring has no such slot; slots count from 0",
    ),
    ("NotASource", "a Read brings bytes, and is not filled"),
    ("WrongLength", "more bytes came than the data pieces take"),
    (
        "Idle",
        "there is nothing to fetch: no entry is rung, or the queue is not there",
    ),
    (
        "SlotOut",
        "the page of the ring's slot is out, so the controller cannot reach it",
    ),
    (
        "Full",
        "the completion ring is full: the host has to reap first",
    ),
    (
        "NoJob",
        "the controller has fetched no such command, or has completed it already",
    ),
    (
        "Nothing",
        "the command's list is at its end, or it is an admin command, which has none",
    ),
    (
        "Walking",
        "the command's list is not at its end: walk it on",
    ),
    (
        "Waits",
        "an Abort waits for the command that it stops, and Delete I/O Submission Queue for the queue's commands",
    ),
];

/// What is wrong with a request: what follows `Bad`; and why a completion is rejected.
pub const REASONS: [(&str, &str); 9] = [
    ("TooManyPieces", "a request has 1,024 pieces at most"),
    ("EmptyPiece", "a piece has length 0"),
    (
        "CrossesPage",
        "a data piece passes the end of its page of 4,096 bytes",
    ),
    (
        "BadCount",
        "a command has 1 block to 1 MiB of them, and a flush none",
    ),
    (
        "LengthMismatch",
        "the lengths of all pieces together are not the bytes of the blocks",
    ),
    ("HostsOwn", "the host keeps this admin command to itself"),
    (
        "WrongQueue",
        "the completion names another submission queue",
    ),
    (
        "BadHead",
        "the completion's submission head lies outside of what the host submitted",
    ),
    (
        "UnknownId",
        "no submitted command has the completion's identifier",
    ),
];

/// Faults of a line, of an opening and of an image.
pub const FAULTS: [(&str, &str); 15] = [
    ("TooManyLines", "a script has 65,536 lines at most"),
    ("LongLine", "a line has 16,384 bytes at most"),
    (
        "NotAscii",
        "a script is ASCII text; the byte that is shown is none of it",
    ),
    (
        "UnknownVerb",
        "the first word is no verb; nvmesgl grammar prints all",
    ),
    ("MissingWord", "the line lacks a word that its verb wants"),
    (
        "BadKind",
        "a kind is read, write, compare, deallocate, write_zeroes, verify or flush",
    ),
    (
        "BadNumber",
        "a number has 1 to 20 decimal digits, and is small enough for its place",
    ),
    (
        "BadHex",
        "bytes are pairs of hexadecimal digits; forge wants 16 of them",
    ),
    (
        "BadPiece",
        "a piece is OFFSET+LEN, as 0+512, or xLEN, as x512",
    ),
    ("ExtraWord", "the line has more words than its verb wants"),
    (
        "UnknownWord",
        "the shell has no such word with a dot; .help lists them",
    ),
    (
        "BadWord",
        "a word does not fit the form; .help WORD shows that",
    ),
    (
        "BadOptions",
        "the first line of a script says options as --pages 32, and no others than those of a world",
    ),
    (
        "BadConfig",
        "pages, queues, entries or segment lie outside of their ranges",
    ),
    ("BadLength", "an image has 1 to 65,536 blocks of 512 bytes"),
];

/// Statuses with which a controller ends a command.
pub const STATUSES: [(Status, &str); 18] = [
    (Status::SUCCESS, "the command is done"),
    (
        Status::INVALID_OPCODE,
        "the entry's opcode is none that this controller knows on this queue",
    ),
    (
        Status::INVALID_FIELD,
        "a field of the entry has a value that is not allowed; nvmesgl show sqe says which",
    ),
    (
        Status::COMMAND_ID_CONFLICT,
        "a command with the same identifier is at work on this queue",
    ),
    (
        Status::DATA_TRANSFER_ERROR,
        "a byte of the list or of its data lies where the controller reaches no memory",
    ),
    (Status::ABORT_REQUESTED, "an Abort stopped the command"),
    (
        Status::ABORTED_SQ_DELETION,
        "the command's queue was deleted, or the controller was reset",
    ),
    (Status::INVALID_NAMESPACE, "the entry's namespace is not 1"),
    (
        Status::INVALID_SGL_SEGMENT,
        "a link is malformed, or stands in a Last Segment, or is missing at the end of a Segment",
    ),
    (
        Status::INVALID_SGL_COUNT,
        "the list has more than 4,096 descriptors, or a link before the end of its segment",
    ),
    (
        Status::DATA_SGL_LENGTH_INVALID,
        "the list ends before the command's bytes do, or a descriptor passes the end of all addresses",
    ),
    (
        Status::SGL_TYPE_INVALID,
        "a descriptor's type is above 3h, or its subtype is not 0h",
    ),
    (
        Status::LBA_OUT_OF_RANGE,
        "blocks of the command lie past the end of the image",
    ),
    (
        Status::COMPLETION_QUEUE_INVALID,
        "the completion queue that is named is not there, or is another queue's",
    ),
    (
        Status::INVALID_QUEUE_IDENTIFIER,
        "the queue's number is not allowed, or it is there already, or is not there",
    ),
    (
        Status::INVALID_QUEUE_SIZE,
        "the queue's number of entries is not allowed",
    ),
    (
        Status::INVALID_QUEUE_DELETION,
        "the completion queue's submission queue is still there",
    ),
    (
        Status::COMPARE_FAILURE,
        "the blocks are not what they were compared with",
    ),
];

/// A name of a table, with its sentence.
fn find_in(
    table: &[(&'static str, &'static str)],
    name: &str,
) -> Option<(&'static str, &'static str)> {
    for entry in table {
        let (known, sentence) = *entry;
        if known == name {
            return Some((known, sentence));
        }
    }
    None
}

/// A name, with its sentence.
fn meaning_of(name: &str) -> Option<(&'static str, &'static str)> {
    if let Some(found) = find_in(&REFUSALS, name) {
        return Some(found);
    }
    if let Some(found) = find_in(&REASONS, name) {
        return Some(found);
    }
    find_in(&FAULTS, name)
}

/// Puts the names of a table after others.
fn push_names(
    names: &mut Vec<&'static str>,
    table: &[(&'static str, &'static str)],
) -> Result<(), AllocError> {
    for entry in table {
        let (known, _) = *entry;
        names.push(known)?;
    }
    Ok(())
}

/// The name that a word is nearest to.
fn nearest_name(alloc: Global, word: &str) -> Result<Option<&'static str>, AllocError> {
    let mut names = Vec::new(alloc);
    push_names(&mut names, &REFUSALS)?;
    push_names(&mut names, &REASONS)?;
    push_names(&mut names, &FAULTS)?;
    nearest(alloc, word.as_bytes(), &names)
}

/// Puts the status that a word is, and its sentence. False where it is none of those that have one.
fn put_status(alloc: Global, out: &mut String, word: &str) -> Result<bool, AllocError> {
    for (status, sentence) in STATUSES {
        let text = format!(in alloc; "{status}")?;
        if text.as_str() == word {
            let named = Named(status);
            write!(out, "{named}: {sentence}\n")?;
            return Ok(true);
        }
    }
    Ok(false)
}

/// Says what a refusal, a fault or a status means.
pub(crate) fn say_meaning(alloc: Global, out: &mut String, word: &str) -> Result<(), AllocError> {
    if let Some((name, sentence)) = meaning_of(word) {
        return write!(out, "{name}: {sentence}\n");
    }
    if put_status(alloc, out, word)? {
        return Ok(());
    }
    write!(out, "'{word}' is no refusal, fault or status")?;
    match nearest_name(alloc, word)? {
        Some(name) => write!(out, "; did you mean '{name}'?\n"),
        None => out.push_str("; nvmesgl grammar prints all.\n"),
    }
}

/// Puts names and their sentences.
fn put_table(
    out: &mut String,
    head: &str,
    table: &[(&'static str, &'static str)],
) -> Result<(), AllocError> {
    write!(out, "\n{head}\n")?;
    for entry in table {
        let (name, sentence) = *entry;
        write!(out, "  {name:<15} {sentence}\n")?;
    }
    Ok(())
}

/// All refusals and faults, each with a sentence: what `nvmesgl grammar` prints after the verbs.
///
/// # Errors
///
/// Where memory is refused.
pub fn meanings_text(alloc: Global) -> Result<String, AllocError> {
    let mut out = String::new(alloc);
    put_table(&mut out, "Why a step is refused:", &REFUSALS)?;
    put_table(
        &mut out,
        "What is wrong with a request, and why a completion is rejected:",
        &REASONS,
    )?;
    put_table(
        &mut out,
        "What is wrong with a line, or with options:",
        &FAULTS,
    )?;
    Ok(out)
}
