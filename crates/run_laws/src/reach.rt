//! Which pages a device may reach. Each function does nothing.

ghost use Rattle.run_laws.specs.Named.{other_commands_stay, other_commands_keep_their_rights, other_rings_keep_their_rights};
ghost use Rattle.run_laws.specs.Reach.{chain_pages_have_their_right, completion_rings_are_written, data_pages_have_their_right, free_pages_have_none, lists_name_what_may_be_reached, none_outside_the_pool, submission_rings_are_read};

/// In a sound state, whatever was forged, each page of the pool has the right of its owner: the pages of an outstanding command that of
/// its phase, its kind and what they hold, those of rings theirs, and all others none.
///
/// So each address in the entry and in the list that the host lays for a submitted command, whose request passed its check, lies with all its bytes
/// on a page with the right that it needs: that of the command's direction where it is data, and to be read where it is a further segment.
///
/// And a step, whatever a device wrote, leaves the records of all commands that it does not name as they were, and the rights to their
/// pages, and those to the rings of all queues that it does not name.
pub fn law_of_rights()
    ensures data { data_pages_have_their_right }
    ensures chains { chain_pages_have_their_right }
    ensures submission_rings { submission_rings_are_read }
    ensures completion_rings { completion_rings_are_written }
    ensures free { free_pages_have_none }
    ensures outside { none_outside_the_pool }
    ensures lists { lists_name_what_may_be_reached }
    ensures records { other_commands_stay }
    ensures others { other_commands_keep_their_rights }
    ensures other_rings { other_rings_keep_their_rights }
{}
