//! What a command's pages and lists hold, between its submission and its collection. Each function does nothing.

ghost use Rattle.run_laws.specs.JobTies.{collected_commands_are_of_their_submissions};
ghost use Rattle.run_laws.specs.Submitted.{collected_commands_were_submitted, requests_stay, data_pages_stay, chain_pages_stay, unfetched_commands_keep_their_data, unfetched_commands_keep_the_drafts_bytes, unfetched_commands_were_deleted, successful_commands_were_fetched, drafts_of_reserve_are_zero, unfetched_commands_of_zeros_gather_zeros, fetched_commands_have_their_fetch, commands_are_fetched_once, fetched_reads_give_a_prefix, successful_reads_give_their_blocks, chains_are_the_drafts};

/// A command that is collected where the submission of this number was the last one of its queue and identifier was submitted with the draft of
/// that number; so the laws of collected commands speak of the jobs of threads.
pub fn law_of_jobs()
    ensures { collected_commands_are_of_their_submissions }
{}

/// Where nothing was forged, a command that is collected was submitted, and has the request and the pages of the draft that was.
pub fn law_of_kept_commands()
    ensures submission { collected_commands_were_submitted }
    ensures request { requests_stay }
    ensures data_pages { data_pages_stay }
    ensures chain_pages { chain_pages_stay }
{}

/// Where nothing was forged, a command that was never fetched comes back with its draft's data pages, byte for byte, and the
/// status of a deleted queue, which a reset gives too. So one that ended with success was fetched.
///
/// The data pages of a draft that was just reserved are zeros, and where they were submitted so, an unfetched command gathers zeros.
pub fn law_of_unfetched_commands()
    ensures pages { unfetched_commands_keep_their_data }
    ensures bytes { unfetched_commands_keep_the_drafts_bytes }
    ensures status { unfetched_commands_were_deleted }
    ensures successes { successful_commands_were_fetched }
    ensures reserved { drafts_of_reserve_are_zero }
    ensures zeros { unfetched_commands_of_zeros_gather_zeros }
{}

/// Where nothing was forged, a command is fetched once at most. A Read that was fetched gathers a prefix of its blocks' bytes, from the image of the
/// run at its fetch, and its draft's own bytes after it.
///
/// One that ended with success gathers all its blocks' bytes except the discarded ones.
pub fn law_of_fetched_commands()
    ensures fetch { fetched_commands_have_their_fetch }
    ensures once { commands_are_fetched_once }
    ensures prefix { fetched_reads_give_a_prefix }
    ensures blocks { successful_reads_give_their_blocks }
{}

/// Where nothing was forged, a submitted command has the request and the pages of the latest draft of its queue and identifier.
///
/// That draft was built; where the command has a list its chain spells the draft's list, and each entry of the command that is at the controller
/// names that list. Where it has none, such an entry has zeros there.
pub fn law_of_drafted_chains()
    ensures { chains_are_the_drafts }
{}
