//! Cases of `nvmesgl explain`, and arbitrary lines of such.

mod arbitrary;
mod files;

pub use arbitrary::play_lines;
pub use files::play_case;
