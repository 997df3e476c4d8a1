//! Numbers as text.

ghost use Rattle.std.specs.Prelude.{◌≡◌, ◌<◌, ◌++◌, ◌/◌, ◌%◌, [], ◌∷◌, OnOk, string_bytes, true};
ghost use Rattle.std.specs.Fmt.{decimal, digit_glyph};
ghost use Rattle.entry_codec.specs.Status.{status_text};

use entry_codec::Status;
use std::alloc::AllocError;

/// Puts a number in decimal digits.
pub(crate) fn put_number(out: &mut String, n: u64) -> Result<(), AllocError>
    ensures { OnOk result (string_bytes out.new ≡ string_bytes out.old ++ decimal n) }
{
    if n >= 10 {
        put_number(out, n / 10)?;
    }
    out.push(char::from(b'0' + (n % 10) as u8))
}

/// Puts a number after the word for it.
pub(crate) fn put_field(out: &mut String, word: &str, n: u64) -> Result<(), AllocError>
    ensures { OnOk result (string_bytes out.new ≡ string_bytes out.old ++ (word.now ++ decimal n)) }
{
    out.push_str(word)?;
    put_number(out, n)
}

/// An upper case hexadecimal digit.
fn digit_char(digit: u8) -> char
    requires { digit < 16 }
    ensures value { result ≡ digit_glyph true digit }
    ensures ascii { result < 128 }
{
    if digit < 10 {
        char::from(b'0' + digit)
    } else {
        char::from(b'A' + (digit - 10))
    }
}

/// Puts a byte as two upper case hexadecimal digits.
pub(crate) fn put_byte(out: &mut String, byte: u8) -> Result<(), AllocError>
    ensures { OnOk result (string_bytes out.new ≡ string_bytes out.old ++ (digit_glyph true (byte / 16) ∷ digit_glyph true (byte % 16) ∷ [])) }
{
    out.push(digit_char(byte / 16))?;
    out.push(digit_char(byte % 16))
}

/// Puts a status: its type, a colon and its code.
pub(crate) fn put_status(out: &mut String, status: Status) -> Result<(), AllocError>
    ensures { OnOk result (string_bytes out.new ≡ string_bytes out.old ++ status_text status) }
{
    put_number(out, u64::from(status.sct))?;
    out.push(':')?;
    put_byte(out, status.sc)
}
