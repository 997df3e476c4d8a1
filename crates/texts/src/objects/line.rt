//! An object on a line, and what is in it as hexadecimal digits.

ghost use Rattle.std.specs.Prelude.{◌≡◌, ◌++◌, IfOk, OnOk, string_bytes};
ghost use Rattle.texts.specs.Objects.{PutsObject};
ghost use Rattle.texts.specs.Words.{hex_byte_text, hex_number_text, hex_text};

use serde::Serialize;
use std::alloc::{AllocError, Global};

/// Puts an object and a line feed.
///
/// # Errors
///
/// Where memory is refused.
pub fn put_object<T: Serialize>(
    alloc: Global,
    out: &mut String,
    object: &T,
) -> Result<(), AllocError>
    ensures { OnOk result (PutsObject T.writes object.now (string_bytes out.old) (string_bytes out.new)) }
{
    match serde_json::to_string(alloc, object) {
        Ok(text) => {
            out.push_str(text.as_str())?;
            out.push('\n')
        }
        Err(_) => Err(AllocError),
    }
}

/// A number of 64 bits as a hexadecimal text, as `0x1000`.
///
/// # Errors
///
/// Where memory is refused.
pub fn hex_number(alloc: Global, number: u64) -> Result<String, AllocError>
    ensures { IfOk result (λ text. string_bytes text ≡ hex_number_text number) }
{
    format!(in alloc; "0x{number:X}")
}

/// Puts a byte as two hexadecimal digits.
fn put_hex_byte(out: &mut String, byte: u8) -> Result<(), AllocError>
    ensures { OnOk result (string_bytes out.new ≡ string_bytes out.old ++ hex_byte_text byte) }
{
    write!(out, "{byte:02X}")
}

/// Bytes as two hexadecimal digits each.
///
/// # Errors
///
/// Where memory is refused.
pub fn hex_bytes(alloc: Global, bytes: &[u8]) -> Result<String, AllocError>
    ensures { IfOk result (λ text. string_bytes text ≡ hex_text bytes.now) }
{
    let mut text = String::new(alloc);
    for byte in bytes {
        put_hex_byte(&mut text, *byte)?;
    }
    Ok(text)
}
