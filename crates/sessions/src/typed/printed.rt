//! Commands that print a text.

use std::alloc::Global;
use std::io;

/// The escapes of a text, and the byte that each stands for.
const ESCAPES: [(&str, u8); 4] = [("n", b'\n'), ("r", b'\r'), ("t", b'\t'), ("377", 0xFF)];

/// What a command prints, whose last quotation mark is left out: `printf 'TEXT`, or `perl -e 'print "TEXT" x TIMES, "TEXT"`.
pub(crate) fn printed(alloc: Global, command: &str) -> io::Result<Vec<u8>> {
    let mut out = Vec::new(alloc);
    if let Some(text) = command.strip_prefix("printf '") {
        put_text(&mut out, text)?;
        return Ok(out);
    }
    let Some(parts) = command.strip_prefix("perl -e 'print ") else {
        return Err(io::Error::from(io::ErrorKind::InvalidInput));
    };
    for part in parts.split(", ") {
        put_part(&mut out, alloc, part)?;
    }
    Ok(out)
}

/// Adds `"TEXT"` after the others once, or `"TEXT" x TIMES` that many times.
fn put_part(out: &mut Vec<u8>, alloc: Global, part: &str) -> io::Result<()> {
    let (quoted, times) = part.split_once(" x ").unwrap_or((part, "1"));
    let text = quoted.strip_prefix('"').unwrap_or("");
    let (Some(text), Ok(times)) = (text.strip_suffix('"'), times.parse::<u32>()) else {
        return Err(io::Error::from(io::ErrorKind::InvalidInput));
    };
    let mut bytes = Vec::new(alloc);
    put_text(&mut bytes, text)?;
    for _ in 0..times {
        out.extend_from_slice(&bytes)?;
    }
    Ok(())
}

/// Adds the bytes of a text after the others, with those that its escapes stand for.
fn put_text(out: &mut Vec<u8>, text: &str) -> io::Result<()> {
    let mut parts = text.split('\\');
    if let Some(first) = parts.next() {
        out.extend_from_slice(first.as_bytes())?;
    }
    for part in parts {
        let before = out.len();
        for (escape, byte) in ESCAPES {
            if let Some(rest) = part.strip_prefix(escape) {
                out.push(byte)?;
                out.extend_from_slice(rest.as_bytes())?;
                break;
            }
        }
        if out.len() == before {
            return Err(io::Error::from(io::ErrorKind::InvalidInput));
        }
    }
    Ok(())
}
