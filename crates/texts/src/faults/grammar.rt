//! All that a script may say.

ghost use Rattle.std.specs.Prelude.{◌≡◌, ◌++◌, IfOk, OnOk, map, string_bytes};
ghost use Rattle.texts.specs.Grammars.{about_queue as spec_about_queue, about_command as spec_about_command, about as spec_about, verb_line, verb_lines, status_lines, grammar_of};

use crate::faults::forms::form_text;
use entry_codec::Status;
use entry_codec::status_names::NAMES;
use script_cli::{CommandVerb, QueueVerb, VERBS, Verb};
use std::alloc::{AllocError, Global};

/// What comes before the verbs.
const BEGINNING: &str = "A script of `nvmesgl steps` has one step on each line:

";

/// What comes after them.
const END: &str = "
A script of `nvmesgl threads` has one job on each line:

  job S Q read SLBA BLOCKS PIECE..
  job S Q write SLBA BLOCKS HEX PIECE..
  job S Q compare SLBA BLOCKS HEX PIECE..
  job S Q deallocate 0 RANGES HEX PIECE..
  job S Q KIND SLBA BLOCKS               a KIND without a piece

  Q       a queue; 0 is the admin queue
  CID     a command's identifier on its queue, as `reserve` answers it
  S       a submitter, from 0, below --submitters
  KIND    read, write, compare or deallocate; or, without a piece, write_zeroes, verify or flush
  SLBA    the first block
  BLOCKS  how many blocks; of a deallocate, how many ranges, whose 16 bytes each are its data
  PIECE   OFFSET+LEN, bytes of a page of its own, or xLEN, bytes that are left out
  HEX     bytes, two hexadecimal digits each; those of a command are followed by zeros
  SLOT    a slot of a completion queue

After the pieces of `reserve` and `job` may come, in this order: `nsid N`, the namespace, where it
is not 1; `block_size N`, the bytes of a block, where it has not 512; `fua`, for Force Unit Access;
and `lr`, for Limited Retry.

After the queue of `create_cq` may come `vector N`, the vector of its interrupts; else the queue
is polled.

Numbers are decimal. Words are separated by blanks. A line whose first word begins with `#` is a
comment.

A status, as replies have it:

";

/// What comes last.
const LAST: &str = "
docs/SCRIPT.md in the repository has all of this in full.
";

/// What the step of a verb on a queue does.
fn about_queue(verb: QueueVerb) -> &'static str
    ensures { result.now ≡ spec_about_queue verb }
{
    match verb {
        QueueVerb::Ring => "tells the controller of what was submitted",
        QueueVerb::Reap => "takes a completion",
        QueueVerb::Fetch => "the controller takes an entry",
        QueueVerb::Retire => "gives up a queue whose submission half is deleted",
        QueueVerb::DeleteSq => "asks to drop a queue's submission half, on queue 0",
        QueueVerb::DeleteCq => "asks to drop a queue's completion half, on queue 0",
        QueueVerb::CreateSq => "asks to make a submission half again, on queue 0",
    }
}

/// What the step of a verb on a command does.
fn about_command(verb: CommandVerb) -> &'static str
    ensures { result.now ≡ spec_about_command verb }
{
    match verb {
        CommandVerb::Build => "lays the scatter-gather list",
        CommandVerb::Submit => "puts the command into its queue",
        CommandVerb::Cancel => "gives up a command that was not submitted",
        CommandVerb::Collect => "asks how the command ended",
        CommandVerb::Gather => "asks for the bytes of a Read",
        CommandVerb::Release => "gives back the pages of a command that ended",
        CommandVerb::Walk => "the controller does one unit of the list",
        CommandVerb::Complete => "the controller posts the completion",
        CommandVerb::Abort => "asks to stop the command, on queue 0",
    }
}

/// What the line of a verb does.
fn about(verb: Verb) -> &'static str
    ensures { result.now ≡ spec_about verb }
{
    match verb {
        Verb::Reserve => "reserves a command and its pages",
        Verb::Fill => "writes the bytes of a Write, a Compare or a Deallocate",
        Verb::CreateCq => "asks to make a completion half again, on queue 0",
        Verb::Forge => "overwrites a completion slot",
        Verb::Reset => "resets the controller: queue 0 alone is left",
        Verb::Owners => "prints who owns which page",
        Verb::OnQueue(verb) => about_queue(verb),
        Verb::OnCommand(verb) => about_command(verb),
    }
}

/// Puts the line of a verb: its form, and what it does.
fn put_verb(alloc: Global, out: &mut String, verb: Verb) -> Result<(), AllocError>
    ensures { OnOk result (string_bytes out.new ≡ string_bytes out.old ++ verb_line verb) }
{
    let form = form_text(alloc, verb)?;
    let form = form.as_str();
    let about = about(verb);
    write!(out, "  {form:<35}  {about}\n")
}

/// Puts the lines of verbs.
#[tactic(auto, unfolding(crate::specs::Grammars::verb_lines))]
fn put_verbs(alloc: Global, out: &mut String, verbs: &[Verb]) -> Result<(), AllocError>
    ensures { OnOk result (string_bytes out.new ≡ string_bytes out.old ++ verb_lines verbs.now) }
{
    for verb in verbs {
        put_verb(alloc, out, *verb)?;
    }
    Ok(())
}

/// Puts the lines of statuses: their numbers and names.
#[tactic(auto, unfolding(crate::specs::Grammars::status_lines))]
fn put_statuses(out: &mut String, names: &[(Status, &str)]) -> Result<(), AllocError>
    ensures { OnOk result (string_bytes out.new ≡ string_bytes out.old ++ status_lines (map (λ named. (named.0, named.1.now)) names.now)) }
{
    for (status, name) in names {
        write!(out, "  {status} {name}\n")?;
    }
    Ok(())
}

/// All that a script may say: each verb of the parser's table, with its form, and then the line of a job, what the words
/// are, and the names of statuses.
///
/// # Errors
///
/// Where memory is refused.
pub fn grammar_text(alloc: Global) -> Result<String, AllocError>
    ensures { IfOk result (λ text. string_bytes text ≡ grammar_of) }
{
    let mut out = String::from_str(alloc, BEGINNING)?;
    put_verbs(alloc, &mut out, &VERBS)?;
    out.push_str(END)?;
    put_statuses(&mut out, &NAMES)?;
    out.push_str(LAST)?;
    Ok(out)
}
