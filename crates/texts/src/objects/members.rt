//! The members of objects.

ghost use Rattle.std.specs.Prelude.{OnOk};
ghost use Rattle.serde_json.specs.Data.{number, unsigned, string};
ghost use Rattle.texts.specs.Objects.{Sends, lone, members_events};

use serde::Serializer;

/// Puts a member that is a number.
///
/// # Errors
///
/// Where `out` answers one.
pub fn put_number<S: Serializer>(out: &mut S, name: &str, value: u64) -> Result<(), S::Error>
    ensures { OnOk result (Sends (members_events (lone name.now (number (unsigned value)))) (S.written out.old) (S.written out.new)) }
{
    out.key(name)?;
    out.u64(value)
}

/// Puts a member that is a text.
///
/// # Errors
///
/// Where `out` answers one.
pub fn put_text<S: Serializer>(out: &mut S, name: &str, value: &str) -> Result<(), S::Error>
    ensures { OnOk result (Sends (members_events (lone name.now (string value.now))) (S.written out.old) (S.written out.new)) }
{
    out.key(name)?;
    out.str(value)
}
