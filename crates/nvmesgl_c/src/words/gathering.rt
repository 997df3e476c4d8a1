//! What a collected command brought, at the start of a buffer of C's.

ghost use Rattle.std.specs.Prelude.{◌≡◌, IfNone, IfSome, length};
ghost use Rattle.std.specs.Option.{option_copied};
ghost use Rattle.nvmesgl_c.specs.Gathering.{IsGathered, IsUngathered};

use io_commands::Finished;

/// Gathers what a collected command brought to the start of a buffer, with no list between: how many bytes. None, and nothing is
/// written, where there is no such command, or the buffer is too short.
pub fn gather_into(finished: Option<&Finished>, buffer: &mut [u8]) -> Option<usize>
    ensures laid { IfSome result (λ count. IsGathered (option_copied finished.entry) count buffer.old buffer.new) }
    ensures kept { IfNone result (buffer.new ≡ buffer.old) }
    ensures unlaid { IfNone result (IsUngathered (option_copied finished.entry) (length buffer.old)) }
{
    finished?.gather_into(buffer).ok()
}
