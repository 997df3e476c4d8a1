//! Which options lie outside of their ranges.

ghost use Rattle.std.specs.Prelude.{◌≡◌, ◌++◌, IfOk, OnOk, map, string_bytes};
ghost use Rattle.script_cli.specs.Ranges.{is_in_range, line_out_of_range, lines_out_of_range, ranged_text, sizes_of, zero_blocks_of};

use crate::transcripts::options::Options;
use page_memory::MAX_PAGES;
use std::alloc::{AllocError, Global};
use std::fmt;

/// A number that was given, and the range that it may lie in.
#[derive(Clone, Copy, Debug, PartialEq, Eq)]
pub struct Ranged {
    /// The option, without its hyphens.
    pub name: &'static str,
    /// The number that was given.
    pub value: u32,
    /// The least that is allowed.
    pub least: u32,
    /// The most that is allowed.
    pub most: u32,
}

impl Ranged {
    /// A number that was given for an option.
    fn of(name: &'static str, value: u32, least: u32, most: u32) -> Ranged
        ensures { ranged_text result ≡ record { name = name.now; value = value; least = least; most = most } }
    {
        Ranged {
            name,
            value,
            least,
            most,
        }
    }

    /// Whether it lies in its range.
    pub fn is_good(&self) -> bool
        ensures { result ≡ is_in_range (ranged_text self.now) }
    {
        self.least <= self.value && self.value <= self.most
    }
}

impl fmt::Display for Ranged {
    ghost use Rattle.std.specs.Prelude.{Some};
    ghost use Rattle.script_cli.specs.Ranges.{range_line, ranged_text};

    ghost output = { λ ranged. Some (range_line (ranged_text ranged)) };

    fn fmt<W: fmt::Write>(&self, f: &mut fmt::Formatter<W>) -> fmt::Result {
        let Ranged {
            name,
            value,
            least,
            most,
        } = *self;
        write!(f, "--{name} is {value}, and may be {least} to {most}")
    }
}

impl Options {
    /// The numbers that a world is opened with.
    pub fn sizes(&self) -> [Ranged; 4]
        ensures { map ranged_text result ≡ sizes_of self.now }
    {
        let config = self.config;
        [
            Ranged::of("pages", config.pages, 8, MAX_PAGES),
            Ranged::of("queues", config.queues, 1, 64),
            Ranged::of("entries", config.entries, 2, 1_024),
            Ranged::of("segment", config.segment, 2, 256),
        ]
    }

    /// How many blocks an image of zeros has.
    pub fn zero_blocks(&self) -> Ranged
        ensures { ranged_text result ≡ zero_blocks_of self.now }
    {
        Ranged::of("blocks", self.blocks, 1, 65_536)
    }
}

/// Puts a line for a number that lies outside of its range.
fn put_out_of_range(text: &mut String, number: &Ranged) -> Result<(), AllocError>
    ensures { OnOk result (string_bytes text.new ≡ string_bytes text.old ++ line_out_of_range (ranged_text number.now)) }
{
    if number.is_good() {
        return Ok(());
    }
    write!(text, "{number}\n")
}

/// A line for each number that lies outside of its range.
///
/// # Errors
///
/// Where memory is refused.
pub fn out_of_range(alloc: Global, numbers: &[Ranged]) -> Result<String, AllocError>
    ensures { IfOk result (λ text. string_bytes text ≡ lines_out_of_range (map ranged_text numbers.now)) }
{
    let mut text = String::new(alloc);
    let mut rest = numbers;
    while let Some((number, others)) = rest.split_first() {
        put_out_of_range(&mut text, number)?;
        rest = others;
    }
    Ok(text)
}
