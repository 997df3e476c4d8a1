//! The lines of a script.

ghost use Rattle.std.specs.Prelude.{◌≡◌, ◌≤◌, length};
ghost use Rattle.std.specs.List.{position_or_len};
ghost use Rattle.script_cli.specs.Lines.{is_feed, first_line, after_line, unreturned};

/// Where the first line feed is; the length of the text if there is none.
fn first_feed(text: &[u8]) -> usize
    ensures place { result ≡ position_or_len is_feed text.now }
    ensures most { result ≤ length text.now }
{
    for (i, byte) in text.iter().enumerate() {
        if *byte == b'\n' {
            return i;
        }
    }
    text.len()
}

/// A line without the carriage return at its end.
fn without_return(line: &[u8]) -> &[u8]
    ensures { result.now ≡ unreturned line.now }
{
    if let Some((last, front)) = line.split_last() {
        if *last == b'\r' {
            return front;
        }
    }
    line
}

/// The first line, and what follows its line feed.
pub fn split_line(text: &[u8]) -> (&[u8], &[u8])
    ensures line { result.0.now ≡ first_line text.now }
    ensures rest { result.1.now ≡ after_line text.now }
{
    let (line, rest) = text.split_at(first_feed(text));
    match rest.split_first() {
        Some((_, after)) => (without_return(line), after),
        None => (text, rest),
    }
}
