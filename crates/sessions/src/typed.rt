//! Sessions: commands as somebody types them.
//!
//! The commands are `nvmesgl ..`, `cat FILE`, and either with `; echo $?` after it.

mod play;
mod printed;
mod terminal;

pub(crate) use play::play_session;
