//! What a load is made of: which commands, of which size, how many, by whom.
//!
//! `command_line` reads it from words, and `load` runs it, so that neither waits for the other.

ghost use Rattle.std.specs.Prelude.{◌≡◌};
ghost use Rattle.script_cli.specs.Patterns.{format_named, pattern_name, pattern_named};

use std::fmt;

/// Which commands a load has, and which slots they go to.
#[derive(Clone, Copy, Debug, PartialEq, Eq)]
pub enum Pattern {
    /// Reads of the slots in turn.
    Read,
    /// Writes of the slots in turn.
    Write,
    /// Reads and writes of the slots in turn, mixed.
    Rw,
    /// Reads of slots at random.
    RandRead,
    /// Writes of slots at random.
    RandWrite,
    /// Reads and writes of slots at random, mixed.
    RandRw,
}

impl Pattern {
    /// The pattern of this name; `readwrite` is another name of `rw`.
    pub fn named(text: &str) -> Option<Pattern>
        ensures { result ≡ pattern_named text.now }
    {
        if text == "read" {
            Some(Pattern::Read)
        } else if text == "write" {
            Some(Pattern::Write)
        } else if text == "rw" || text == "readwrite" {
            Some(Pattern::Rw)
        } else if text == "randread" {
            Some(Pattern::RandRead)
        } else if text == "randwrite" {
            Some(Pattern::RandWrite)
        } else if text == "randrw" {
            Some(Pattern::RandRw)
        } else {
            None
        }
    }

    /// Its name on the command line.
    pub fn name(self) -> &'static str
        ensures { result.now ≡ pattern_name self }
    {
        match self {
            Pattern::Read => "read",
            Pattern::Write => "write",
            Pattern::Rw => "rw",
            Pattern::RandRead => "randread",
            Pattern::RandWrite => "randwrite",
            Pattern::RandRw => "randrw",
        }
    }
}

impl fmt::Display for Pattern {
    ghost use Rattle.std.specs.Prelude.{Some};
    ghost use Rattle.script_cli.specs.Patterns.{pattern_name};

    ghost output = { λ pattern. Some (pattern_name pattern) };

    fn fmt<W: fmt::Write>(&self, f: &mut fmt::Formatter<W>) -> fmt::Result {
        f.write_str(self.name())
    }
}

/// What standard output gets of a load.
#[derive(Clone, Copy, Debug, PartialEq, Eq)]
pub enum OutputFormat {
    /// The line that says how it went.
    Normal,
    /// What was measured, as JSON.
    Json,
}

impl OutputFormat {
    /// The format of this name.
    pub fn named(text: &str) -> Option<OutputFormat>
        ensures { result ≡ format_named text.now }
    {
        if text == "normal" {
            Some(OutputFormat::Normal)
        } else if text == "json" {
            Some(OutputFormat::Json)
        } else {
            None
        }
    }
}

/// What `load` is asked for, besides its world.
#[derive(Clone, Copy, Debug, PartialEq, Eq)]
pub struct Load<'a> {
    /// Which commands there are.
    pub pattern: Pattern,
    /// How many of a hundred commands of a mixed pattern are Reads, 0 to 100.
    pub reads: u32,
    /// The blocks of each command, 1 to 256.
    pub command_blocks: u32,
    /// How many blocks are read and written at most, from block 0; no number where they are all blocks of the image.
    pub size: Option<u32>,
    /// Submitters, 1 to 16.
    pub submitters: u16,
    /// How many commands each submitter keeps outstanding, 1 to 256.
    pub depth: u16,
    /// How many entries the log of a round has at most, of one command at least; no number where rounds have the usual length.
    pub log_limit: Option<u32>,
    /// What the order and the bytes are made of.
    pub seed: u32,
    /// How many commands there are in all; no number where the time alone bounds them.
    pub count: Option<u32>,
    /// The seconds after which no more commands are begun.
    pub runtime: Option<u32>,
    /// Whether what is read is compared with what was written.
    pub verify: bool,
    /// Whether no times are told.
    pub quiet: bool,
    /// The path of the file of the statistics.
    pub stats: Option<&'a str>,
    /// The seconds after which the statistics of what has run are written anew; no number where they are written at the end alone.
    pub interval: Option<u32>,
    /// What standard output gets.
    pub format: OutputFormat,
}
