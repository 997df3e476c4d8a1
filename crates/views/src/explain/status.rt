//! Statuses as logs and tools print them.

use crate::explain::entry::put_hints;
use crate::explain::fault::Wrong;
use crate::explain::lines::{Line, Stop, behind_prefix, value_of};
use crate::explain::status_words::word_of;
use entry_codec::completion::{hints, status};
use entry_codec::status_names::name_of;
use entry_codec::{Hints, Status};
use std::alloc::AllocError;

/// The most that a status field of 15 bits is.
const MOST_FIELD: u64 = 0x7FFF;

/// The status field that a word is: `0:0D`, type and code, or the field's 15 bits as a hexadecimal number.
fn field_of(word: &[u8]) -> Option<u16> {
    let field = match word {
        [kind @ b'0'..=b'7', b':', code @ ..] => {
            let code = value_of(code, 16)?;
            if code > 255 {
                return None;
            }
            u64::from(kind - b'0') * 256 + code
        }
        [digits @ .., b'h' | b'H'] => value_of(digits, 16)?,
        digits => value_of(behind_prefix(digits).unwrap_or(digits), 16)?,
    };
    if field > MOST_FIELD {
        return None;
    }
    Some(field as u16)
}

/// The status and the hints of a field, as they are read of a completion entry that has it above its phase.
pub(crate) fn parts_of(field: u16) -> (Status, Hints) {
    let [low, high] = (field % 32_768 * 2).to_le_bytes();
    let bytes = [0, 0, 0, 0, 0, 0, 0, 0, 0, 0, 0, 0, 0, 0, low, high];
    (status(&bytes), hints(&bytes))
}

/// The name of a status, one that this controller does not have among them.
pub(crate) fn any_name_of(status: Status) -> Option<&'static str> {
    name_of(status).or(word_of(status.sct, status.sc))
}

/// Puts a status by its name, and the hints above it.
fn put_field(out: &mut String, field: u16) -> Result<(), AllocError> {
    let (status, hints) = parts_of(field);
    match any_name_of(status) {
        Some(name) => write!(out, "{status} {name}\n")?,
        None => write!(
            out,
            "{status}, a status without a name in the specifications\n"
        )?,
    }
    put_hints(out, hints)
}

/// The status field that the one word of a line is.
pub(crate) fn status_field(text: &[u8]) -> Result<u16, Stop> {
    let mut line = Line::of(text);
    let place = line.wanted();
    let Some(field) = field_of(line.word(place)) else {
        return Err(Stop::At(place, Wrong::NoStatus));
    };
    line.done()?;
    Ok(field)
}

/// Puts the status that the one word of a line is.
pub(crate) fn put_status(out: &mut String, text: &[u8]) -> Result<(), Stop> {
    put_field(out, status_field(text)?)?;
    Ok(())
}
