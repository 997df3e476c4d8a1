//! What trusted runs leave: statuses, the image, what Compares and Reads find, and histories. Each function does nothing.

ghost use Rattle.run_laws.specs.Built.{built_drafts_spell_in_store};
ghost use Rattle.two_sides.specs.Histories.{openings_have_histories, steps_make_histories};
ghost use Rattle.two_sides.specs.InOrder.{runs_are_made};
ghost use Rattle.run_laws.specs.Statuses.{every_status_has_its_cause};
ghost use Rattle.run_laws.specs.Blocks.{the_image_is_the_runs, compares_tell_equality, reads_give_their_blocks, stopped_reads_give_a_prefix};

use io_commands::laws::laws_of_built_drafts;

/// An opening has a history, and each step that leads to a trusted state came from one or is a reset, and makes a history longer. So what
/// holds of every trusted run holds of each state that steps lead to without a forgery.
///
/// The events and replies of a run from an opening in which no forgery was accepted are those of such a history.
pub fn law_of_histories()
    ensures openings { openings_have_histories }
    ensures steps { steps_make_histories }
    ensures runs { runs_are_made }
{}

/// Once the chain pages of a built draft with a list are in the store, the descriptor of its entry spells its parts there.
pub fn law_of_built_drafts()
    ensures { built_drafts_spell_in_store }
{
    laws_of_built_drafts();
}

/// Where nothing was forged, each status of an I/O command has its cause.
///
/// It is success; or an Abort of the command, or the deletion of its queue, fetched since the command was; or an opcode that the
/// controller does not have, such as that of a Write Zeroes, a Verify, a Flush and a Deallocate; or another namespace than 1; or blocks
/// beyond the image; or a Compare that found a difference.
pub fn law_of_statuses()
    ensures { every_status_has_its_cause }
{}

/// Where nothing was forged, the image is the opening's, changed by each Write whose completion gave success, in the order of those
/// steps.
///
/// Such a Write puts exactly its draft's bytes over exactly its blocks. Nothing else changes the image.
pub fn law_of_images()
    ensures { the_image_is_the_runs }
{}

/// Where nothing was forged, a Compare of namespace 1 that ended neither by an Abort or a deletion nor for blocks beyond the image
/// succeeds exactly where its blocks are then its draft's bytes, and otherwise fails as a Compare. One of another namespace ends for that.
pub fn law_of_compares()
    ensures { compares_tell_equality }
{}

/// Where nothing was forged, a Read that ended with success gathers its blocks'
/// bytes except the discarded ones, from the image of the run at its fetch.
///
/// One that ended otherwise gathers a prefix of them, and its draft's own bytes after it.
pub fn law_of_reads()
    ensures blocks { reads_give_their_blocks }
    ensures stopped { stopped_reads_give_a_prefix }
{}
