//! What follows a verb: the table of forms.

ghost use Rattle.std.specs.Prelude.{◌≡◌, IfOk, string_bytes};
ghost use Rattle.texts.specs.Forms.{form_of, pieces_follow, slot_name, slots_after};

use script_cli::Verb;
use std::alloc::{AllocError, Global};

/// Whose lines a script has.
#[derive(Clone, Copy, Debug, PartialEq, Eq)]
pub enum Grammar {
    /// The steps of `nvmesgl steps`.
    Steps,
    /// The jobs of `nvmesgl threads`, for this many submitters.
    Jobs(u16),
}

/// A word that a line wants.
#[derive(Clone, Copy, Debug, PartialEq, Eq)]
pub enum Slot {
    /// A queue.
    Queue,
    /// A command's identifier.
    Identifier,
    /// A slot of a completion queue.
    CompletionSlot,
    /// `read`, `write` or `compare`.
    Kind,
    /// The first block.
    FirstBlock,
    /// How many blocks.
    Blocks,
    /// A namespace.
    Namespace,
    /// The bytes of a block.
    BlockSize,
    /// A vector.
    Vector,
    /// Bytes.
    Bytes,
    /// The 16 bytes of a completion entry.
    EntryBytes,
    /// One of this many submitters.
    Submitter(u16),
}

static NOTHING: [Slot; 0] = [];

static QUEUE: [Slot; 1] = [Slot::Queue];

static COMMAND: [Slot; 2] = [Slot::Queue, Slot::Identifier];

static FILL: [Slot; 3] = [Slot::Queue, Slot::Identifier, Slot::Bytes];

static FORGE: [Slot; 3] = [Slot::Queue, Slot::CompletionSlot, Slot::EntryBytes];

static RESERVE: [Slot; 4] = [Slot::Queue, Slot::Kind, Slot::FirstBlock, Slot::Blocks];

/// The words that follow a verb, but for pieces.
pub(crate) fn slots_of(verb: Verb) -> &'static [Slot]
    ensures { result.now ≡ slots_after verb }
{
    match verb {
        Verb::Reserve => &RESERVE,
        Verb::Fill => &FILL,
        Verb::Forge => &FORGE,
        Verb::Reset | Verb::Owners => &NOTHING,
        Verb::CreateCq | Verb::OnQueue(_) => &QUEUE,
        Verb::OnCommand(_) => &COMMAND,
    }
}

/// Whether pieces follow these words.
pub(crate) fn has_pieces(verb: Verb) -> bool
    ensures { result ≡ pieces_follow verb }
{
    matches!(verb, Verb::Reserve)
}

/// The words that follow `job`, but for the bytes and the pieces.
pub(crate) fn slots_of_job(submitters: u16) -> [Slot; 5] {
    [
        Slot::Submitter(submitters),
        Slot::Queue,
        Slot::Kind,
        Slot::FirstBlock,
        Slot::Blocks,
    ]
}

impl Slot {
    /// Its name in the forms of lines.
    pub(crate) fn name(self) -> &'static str
        ensures { result.now ≡ slot_name self }
    {
        match self {
            Slot::Queue => "Q",
            Slot::Identifier => "CID",
            Slot::CompletionSlot => "SLOT",
            Slot::Kind => "KIND",
            Slot::FirstBlock => "SLBA",
            Slot::Blocks => "BLOCKS",
            Slot::Namespace | Slot::BlockSize | Slot::Vector => "N",
            Slot::Bytes | Slot::EntryBytes => "HEX",
            Slot::Submitter(_) => "S",
        }
    }

    /// Puts what it is.
    pub(crate) fn put_about(self, out: &mut String) -> Result<(), AllocError> {
        let text = match self {
            Slot::Queue => "a queue, 0 to 65535",
            Slot::Identifier => "an identifier, 0 to 65535",
            Slot::CompletionSlot => "a slot of the completion queue, 0 to 65535",
            Slot::Kind => "read, write, compare, deallocate, write_zeroes, verify or flush",
            Slot::FirstBlock => "the first block, 0 to 18446744073709551615",
            Slot::Blocks => "how many blocks, or ranges of a deallocate, 0 to 4294967295",
            Slot::Namespace => "a namespace, 1 to 4294967295",
            Slot::BlockSize => "512, 1024, 2048 or 4096",
            Slot::Vector => "a vector, 0 to 65535",
            Slot::Bytes => "bytes, of two hexadecimal digits each",
            Slot::EntryBytes => "16 bytes, of two hexadecimal digits each",
            Slot::Submitter(submitters) => {
                let last = submitters.saturating_sub(1);
                return write!(
                    out,
                    "a submitter, 0 to {last}, as --submitters is {submitters}"
                );
            }
        };
        out.push_str(text)
    }
}

/// A verb and the names of the words that follow it.
pub fn form_text(alloc: Global, verb: Verb) -> Result<String, AllocError>
    ensures { IfOk result (λ text. string_bytes text ≡ form_of verb) }
{
    let mut out = String::from_str(alloc, verb.name())?;
    for slot in slots_of(verb) {
        out.push_str(" ")?;
        out.push_str(slot.name())?;
    }
    if has_pieces(verb) {
        out.push_str(" PIECE..")?;
    }
    Ok(out)
}
