//! What single words stand for.

ghost use Rattle.std.specs.Prelude.{◌≡◌, ◌≤◌, ◌<◌, ◌^◌, ◌+◌, ◌*◌, ◌==◌, Some, [], length, IfOk, IfSome};
ghost use Rattle.std.specs.List.{position_or_len};
ghost use Rattle.script_cli.specs.Numbers.{number, digits_from, if_below, hex_digit as spec_hex_digit, hex_byte as spec_hex_byte, bytes_from, hex, if_sixteen, sixteen_bytes as spec_sixteen_bytes, kind as spec_kind};
ghost use Rattle.script_cli.specs.Pieces.{number32 as spec_number32, is_plus, piece as spec_piece, data_of, data_piece as spec_data_piece};
ghost use Rattle.script_cli.specs.Lines.{before, onward};

use io_commands::{Kind, Piece};
use std::alloc::{AllocError, Global};
use step_core::Bytes;

/// The most digits of a number.
const MAX_DIGITS: usize = 20;

/// The value with one more digit, if it fits.
fn with_digit(value: u64, digit: u8) -> Option<u64>
    requires { digit < 10 }
    ensures value { result ≡ if_below (2 ^ 64) (Some (value * 10 + digit)) }
    ensures small { IfSome result (λ n. n < 2 ^ 64) }
{
    value.checked_mul(10)?.checked_add(u64::from(digit))
}

/// The number of decimal digits, if it fits.
fn digits(word: &[u8]) -> Option<u64>
    ensures { result ≡ if_below (2 ^ 64) (digits_from 0 word.now) }
{
    let mut value = 0u64;
    let mut rest = word;
    while let Some((byte, others)) = rest.split_first() {
        if *byte < b'0' || *byte > b'9' {
            return None;
        }
        value = with_digit(value, *byte - b'0')?;
        rest = others;
    }
    Some(value)
}

/// The number of 1 to 20 decimal digits, if it fits 64 bits.
pub(crate) fn number64(word: &[u8]) -> Option<u64>
    ensures { result ≡ number (2 ^ 64) word.now }
{
    if word.is_empty() || word.len() > MAX_DIGITS {
        return None;
    }
    digits(word)
}

/// The number of 1 to 20 decimal digits, if it fits 32 bits.
pub(crate) fn number32(word: &[u8]) -> Option<u32>
    ensures { result ≡ number (2 ^ 32) word.now }
{
    u32::try_from(number64(word)?).ok()
}

/// The number of 1 to 20 decimal digits, if it fits 16 bits.
pub(crate) fn number16(word: &[u8]) -> Option<u16>
    ensures { result ≡ number (2 ^ 16) word.now }
{
    u16::try_from(number64(word)?).ok()
}

/// The number of 1 to 20 decimal digits, if it is below a limit.
pub(crate) fn number_below(limit: u16, word: &[u8]) -> Option<u16>
    ensures { result ≡ number limit word.now }
{
    let value = number16(word)?;
    if value < limit { Some(value) } else { None }
}

/// The value of a hexadecimal digit.
fn hex_digit(byte: u8) -> Option<u8>
    ensures value { result ≡ spec_hex_digit byte }
    ensures small { IfSome result (λ digit. digit < 16) }
{
    match byte {
        b'0'..=b'9' => Some(byte - b'0'),
        b'A'..=b'F' => Some(byte - b'A' + 10),
        b'a'..=b'f' => Some(byte - b'a' + 10),
        _ => None,
    }
}

/// The byte of two hexadecimal digits.
fn hex_byte(high: u8, low: u8) -> Option<u8>
    ensures { result ≡ spec_hex_byte high low }
{
    let high = hex_digit(high)?;
    let low = hex_digit(low)?;
    Some(high * 16 + low)
}

/// The bytes of pairs of hexadecimal digits; nothing if there is something else.
fn hex_bytes(alloc: Global, word: &[u8]) -> Result<Option<Bytes>, AllocError>
    ensures { IfOk result (λ bytes. bytes ≡ bytes_from [] word.now) }
{
    let mut bytes = Vec::new(alloc);
    let mut rest = word;
    while let Some((high, tail)) = rest.split_first() {
        let Some((low, others)) = tail.split_first() else {
            return Ok(None);
        };
        let Some(byte) = hex_byte(*high, *low) else {
            return Ok(None);
        };
        bytes.push(byte)?;
        rest = others;
    }
    Ok(Some(Bytes::from_vec(bytes)))
}

/// The bytes of an even number of hexadecimal digits, at least two; nothing if there is something else.
pub(crate) fn bytes(alloc: Global, word: &[u8]) -> Result<Option<Bytes>, AllocError>
    ensures { IfOk result (λ bytes. bytes ≡ hex word.now) }
{
    if word.is_empty() {
        return Ok(None);
    }
    hex_bytes(alloc, word)
}

/// The kind of command that a word names.
pub(crate) fn kind(word: &[u8]) -> Option<Kind>
    ensures { result ≡ spec_kind word.now }
{
    if word == "read".as_bytes() {
        Some(Kind::Read)
    } else if word == "write".as_bytes() {
        Some(Kind::Write)
    } else if word == "compare".as_bytes() {
        Some(Kind::Compare)
    } else if word == "write_zeroes".as_bytes() {
        Some(Kind::WriteZeroes)
    } else if word == "verify".as_bytes() {
        Some(Kind::Verify)
    } else if word == "flush".as_bytes() {
        Some(Kind::Flush)
    } else if word == "deallocate".as_bytes() {
        Some(Kind::Deallocate)
    } else {
        None
    }
}

/// Where the first byte of this value is; the length of the text if there is none.
pub(crate) fn first_place(text: &[u8], byte: u8) -> usize
    ensures place { result ≡ position_or_len (λ b. b == byte) text.now }
    ensures most { result ≤ length text.now }
{
    for (i, other) in text.iter().enumerate() {
        if *other == byte {
            return i;
        }
    }
    text.len()
}

/// Data of these digits, if both are numbers.
fn data_piece(offset: &[u8], len: &[u8]) -> Option<Piece>
    ensures { result ≡ data_of (spec_number32 offset.now) (spec_number32 len.now) }
{
    let offset = number32(offset)?;
    let len = number32(len)?;
    Some(Piece::Data { offset, len })
}

/// The data that `OFFSET+LEN` is.
fn data(word: &[u8]) -> Option<Piece>
    ensures { result ≡ spec_data_piece (before is_plus word.now) (onward is_plus word.now) }
{
    let (offset, rest) = word.split_at(first_place(word, b'+'));
    let (_, len) = rest.split_first()?;
    data_piece(offset, len)
}

/// The piece that a word is.
pub fn piece(word: &[u8]) -> Option<Piece>
    ensures { result ≡ spec_piece word.now }
{
    let (first, others) = word.split_first()?;
    if *first == b'x' {
        let len = number32(others)?;
        return Some(Piece::Bucket { len });
    }
    data(word)
}

/// The 16 bytes that a word is.
pub(crate) fn sixteen_bytes(alloc: Global, word: &[u8]) -> Result<Option<[u8; 16]>, AllocError>
    ensures { IfOk result (λ bytes. bytes ≡ spec_sixteen_bytes word.now) }
{
    match bytes(alloc, word)? {
        Some(bytes) => Ok(array_of(bytes.as_slice())),
        None => Ok(None),
    }
}

/// Bytes as an array, if they are 16.
fn array_of(bytes: &[u8]) -> Option<[u8; 16]>
    ensures { result ≡ if_sixteen (Some bytes.now) }
{
    <[u8; 16]>::try_from(bytes).ok()
}
