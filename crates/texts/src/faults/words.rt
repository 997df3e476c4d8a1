//! Where the words of a line are.

ghost use Rattle.std.specs.Prelude.{◌≤◌, IfSome, length};

/// Where a word is in its line, in bytes from the left: its first one, and the one after its last.
#[derive(Clone, Copy, Debug, PartialEq, Eq)]
pub struct Place {
    /// Where its first byte is.
    pub start: usize,
    /// Where it ends; a word that is missing has no bytes.
    pub end: usize,
}

/// Whether a byte separates words.
fn is_blank(byte: u8) -> bool {
    byte == b' ' || byte == b'\t'
}

/// Where the next blank, or the next byte that is none, is; the length of the line if there is none.
fn next_where(line: &[u8], from: usize, blank: bool) -> usize
    requires { from ≤ length line.now }
    ensures least { from ≤ result }
    ensures most { result ≤ length line.now }
{
    match line[from..]
        .iter()
        .position(|byte| is_blank(*byte) == blank)
    {
        Some(n) => from + n,
        None => line.len(),
    }
}

/// The first word at or after a position.
pub fn word_from(line: &[u8], from: usize) -> Option<Place>
    requires { from ≤ length line.now }
    ensures start { IfSome result (λ place. place.start ≤ place.end) }
    ensures end { IfSome result (λ place. place.end ≤ length line.now) }
{
    let start = next_where(line, from, false);
    if start == line.len() {
        return None;
    }
    let end = next_where(line, start, true);
    Some(Place { start, end })
}
