//! Text of a script inside a page.

use std::alloc::AllocError;

/// Puts a text as a page shows it: what begins a tag or an entity is written as an entity.
pub(crate) fn put_escaped(out: &mut String, text: &str) -> Result<(), AllocError> {
    for character in text.chars() {
        match character {
            '<' => out.push_str("&lt;")?,
            '>' => out.push_str("&gt;")?,
            '&' => out.push_str("&amp;")?,
            '"' => out.push_str("&quot;")?,
            other => out.push(other)?,
        }
    }
    Ok(())
}
