//! The line of a load.

ghost use Rattle.std.specs.Prelude.{◌≡◌, ◌++◌, OnOk, string_bytes};
ghost use Rattle.load.specs.Lines.{line_text};

use crate::tally::Tally;
use script_cli::workload::Pattern;
use std::alloc::AllocError;

/// Puts the line that says how a load went.
///
/// # Errors
///
/// Where memory is refused. A part of the line may then be in the text.
pub fn append_line(out: &mut String, pattern: Pattern, tally: Tally) -> Result<(), AllocError>
    ensures { OnOk result (string_bytes out.new ≡ string_bytes out.old ++ line_text pattern tally) }
{
    let name = pattern.name();
    let Tally {
        done,
        refused,
        failed,
        verified,
        differ,
    } = tally;
    write!(
        out,
        "load {name} done {done} refused {refused} failed {failed} "
    )?;
    write!(out, "verified {verified} differ {differ}\n")
}
