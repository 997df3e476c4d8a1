//! Numbers with a unit.

ghost use Rattle.std.specs.Prelude.{◌≡◌, ◌≤◌, ◌<◌, ◌*◌, ◌^◌, ◌-◌, IfSome, option_map, option_and_then};
ghost use Rattle.command_line.specs.Units.{blocks_by, bytes_of as spec_bytes_of, last_letter as spec_last_letter, number, scaled as spec_scaled, seconds_by, seconds_of as spec_seconds_of, seconds_within as spec_seconds_within, size_within as spec_size_within};

/// The last letter of a text; 0 of none.
fn last_letter(text: &str) -> u8
    ensures { result ≡ spec_last_letter text.now }
{
    match text.as_bytes().last() {
        Some(letter) => *letter,
        None => 0,
    }
}

/// How many bytes a letter after a number stands for.
fn bytes_of(letter: u8) -> Option<u64>
    ensures unit { result ≡ spec_bytes_of letter }
    ensures letter { IfSome result (λ _. (1 ≤ letter) × (letter < 128)) }
    ensures small { IfSome result (λ unit. unit ≤ 1048576) }
{
    match letter {
        b'b' | b'B' => Some(1),
        b'k' | b'K' => Some(1024),
        b'm' | b'M' => Some(1_048_576),
        _ => None,
    }
}

/// How many seconds a letter after a number stands for.
fn seconds_of(letter: u8) -> Option<u64>
    ensures unit { result ≡ spec_seconds_of letter }
    ensures letter { IfSome result (λ _. (1 ≤ letter) × (letter < 128)) }
    ensures small { IfSome result (λ unit. unit ≤ 1048576) }
{
    match letter {
        b's' => Some(1),
        b'm' => Some(60),
        b'h' => Some(3600),
        _ => None,
    }
}

/// A number as it is read on a command line.
fn plain(text: &str) -> Option<u64>
    ensures value { result ≡ number text.now }
    ensures small { IfSome result (λ n. n < 2 ^ 32) }
{
    match text.parse::<u32>() {
        Ok(n) => Some(u64::from(n)),
        Err(_) => None,
    }
}

/// The number before the last letter of a text, this many times.
fn scaled(text: &str, unit: u64) -> Option<u64>
    requires some { 1 ≤ spec_last_letter text.now }
    requires letter { spec_last_letter text.now < 128 }
    requires small { unit ≤ 1048576 }
    ensures { result ≡ spec_scaled text.now unit }
{
    let (digits, _letter) = text.split_at(text.len() - 1);
    let n = plain(digits)?;
    Some(n * unit)
}

/// The blocks of a text: blocks, or whole blocks in bytes with a unit.
fn blocks(text: &str) -> Option<u64>
    ensures { result ≡ blocks_by (spec_bytes_of (spec_last_letter text.now)) text.now }
{
    let Some(unit) = bytes_of(last_letter(text)) else {
        return plain(text);
    };
    let bytes = scaled(text, unit)?;
    if bytes % 512 == 0 {
        Some(bytes / 512)
    } else {
        None
    }
}

/// The blocks of a text, where they are 1 to this many.
pub(crate) fn size_within(text: &str, most: u32) -> Option<u32>
    ensures size { result ≡ spec_size_within most text.now }
    ensures least { IfSome result (λ blocks. 1 ≤ blocks) }
    ensures most { IfSome result (λ blocks. blocks ≤ most) }
{
    let blocks = blocks(text)?;
    if blocks < 1 || blocks > u64::from(most) {
        return None;
    }
    Some(blocks as u32)
}

/// The seconds of a text.
fn seconds(text: &str) -> Option<u64>
    ensures { result ≡ seconds_by (spec_seconds_of (spec_last_letter text.now)) text.now }
{
    match seconds_of(last_letter(text)) {
        Some(unit) => scaled(text, unit),
        None => plain(text),
    }
}

/// The seconds of a text, where they are this many at least and a number of 32 bits.
pub(crate) fn seconds_within(text: &str, least: u32) -> Option<u32>
    ensures { result ≡ spec_seconds_within least text.now }
{
    let seconds = seconds(text)?;
    if seconds < u64::from(least) || seconds > u64::from(u32::MAX) {
        return None;
    }
    Some(seconds as u32)
}
