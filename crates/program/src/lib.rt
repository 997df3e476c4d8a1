//! What `nvmesgl` does with its command line.
//!
//! [`perform`] does what words ask for with the script of a reader and a writer: from the words to what is written, it has a contract
//! (`specs/Performing.antt`). [`run`] performs the words that were typed, with standard input and output, and answers the exit status.
#![tactic(auto)]

mod below;
mod bytes;
mod checking;
mod commands;
mod fault;
mod inputs;
mod loading;
mod pipe;
mod places;
mod printing;
mod saving;
mod serving;
mod testing;

pub use commands::{Terminals, perform, run};
pub use fault::{BytesFault, Fault, FaultReport};
pub use testing::Tally;
