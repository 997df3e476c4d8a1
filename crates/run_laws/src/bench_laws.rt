//! Laws of benches, of the values that they keep. Each function does nothing.

ghost use Rattle.run_laws.specs.DraftBlocks.{benches_write_their_blocks, benches_compare_their_blocks};
ghost use Rattle.run_laws.specs.Drafts.{submitted_drafts_were_reserved, benches_submit_what_they_reserved_and_filled};
ghost use Rattle.run_laws.specs.Gathering.{gathered_bytes_are_of_collected_commands, gathered_reads_have_their_blocks};
ghost use Rattle.run_laws.specs.Values.{benches_have_tables, benches_make_runs_of_their_values, benches_of_trusted_worlds_are_unforged};

/// What a bench does goes from table to table; and where nothing was forged since it opened, its steps make a trusted run of the machine with
/// the values that the bench keeps.
///
/// Each step that is an event makes one step of the run: a submission with the draft that the bench keeps under that name, filled and built
/// as its steps said, and a collection with the finished command that the bench keeps from then on.
///
/// That nothing was forged is said of the steps: none of them is an accepted forgery. Resets may be among them. For a bench whose world is trusted it
/// is so of the steps after the last reset, and of all of them where there is none.
pub fn law_of_values()
    ensures tables { benches_have_tables }
    ensures runs { benches_make_runs_of_their_values }
    ensures unforged { benches_of_trusted_worlds_are_unforged }
{}

/// A bench submits the draft that it reserved, as its fills left it, whatever was forged.
///
/// The draft that the machine's submission gets has the request and the pages of the draft that the machine gave as it reserved the
/// command. Its data's bytes are zeros, and each fill that was accepted between written over them, in order, with zeros after it.
/// Nothing else of its data pages differs from those of the reservation.
///
/// And so it is for each submission: a draft that a bench keeps was reserved in a step since it opened, and neither submitted nor
/// cancelled since. A reset takes none.
pub fn law_of_submitted_drafts()
    ensures reservation { submitted_drafts_were_reserved }
    ensures contents { benches_submit_what_they_reserved_and_filled }
{}

/// Where nothing was forged, the bytes that a bench gathers are those of the command of that name that it collected last, and keeps
/// since.
///
/// A Read that ended with success gathers its blocks' bytes except the discarded ones, from the image of the run at its fetch. One that was fetched
/// gathers a prefix of them, and its draft's own bytes after it; one that was not, its draft's own bytes alone. One that was lost, with its queue or
/// by a reset, may be either of these two.
pub fn law_of_gathering()
    ensures commands { gathered_bytes_are_of_collected_commands }
    ensures reads { gathered_reads_have_their_blocks }
{}

/// Where nothing was forged, the image is the opening's, changed by each Write that a step completed with success, in the order of those
/// steps: the bytes of the draft that the bench kept as it submitted it, over just its blocks. So a Write that a reset lost changed it only
/// where a step had completed it before with success.
pub fn law_of_writes()
    ensures { benches_write_their_blocks }
{}

/// Where nothing was forged, a Compare of namespace 1 that a step completes, neither by an Abort or a deletion nor for blocks beyond the image,
/// succeeds exactly where its blocks are then the bytes of the draft that the bench kept as it submitted it, and otherwise fails as a Compare. One of
/// another namespace ends for that. The image is then the opening's, changed by the Writes before.
pub fn law_of_compares()
    ensures { benches_compare_their_blocks }
{}
