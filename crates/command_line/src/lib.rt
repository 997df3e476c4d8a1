//! The command line of `nvmesgl`: its commands and options, what its words ask for, and its help texts.
//!
//! [`words`] has the words that were typed, and [`CommandLine::parse`] says what they ask for. `specs/Commands.antt` has the commands and options, `specs/Asked.antt` what words ask for, and [`worked`] computes some command lines.
#![tactic(auto)]

mod arguments;
mod commands;
mod help;
mod load;
mod load_options;
mod parts;
mod sentences;
mod serving;
mod threads;
mod units;
pub mod worked;

pub use arguments::{CommandLine, CommandOptions, Testing, words};
pub use commands::VERSION;
pub use sentences::sentence;
pub use serving::Serving;
pub use threads::Threading;
