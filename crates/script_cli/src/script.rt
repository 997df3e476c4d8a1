//! Scripts, as the lines that do something.

ghost use Rattle.std.specs.Prelude.{◌≡◌, ◌≤◌, OnOk, length};
ghost use Rattle.script_cli.specs.Scripts.{with_line, IsNumberedLine, AreLines, IsReading};

use crate::fault::{LineError, LineFault, ScriptFault};
use crate::grammar::read_line;
use crate::lines::split_line;
use std::alloc::{AllocError, Global};
use std::marker::Model;
use step_core::Step;

/// The most bytes of a script.
pub const MAX_SCRIPT: usize = 1_048_576;

/// The most lines of a script.
pub const MAX_LINES: u32 = 65_536;

/// What a line of a script is.
#[derive(Drop)]
pub enum Line {
    /// A step.
    Step(Step),
    /// The owners of all pages are printed.
    Owners,
    /// A line without words, or a comment.
    Nothing,
}

/// A line of a script that does something.
#[derive(Drop)]
pub struct Numbered {
    /// The line's number, from 1.
    pub number: u32,
    /// What it is.
    pub line: Line,
}

/// A script without faults. Contracts see it as the list of its lines that do something.
#[derive(Drop)]
pub struct Script {
    lines: Vec<Numbered>,
}

impl Model for Script {
    ghost use Rattle.std.specs.Prelude.{List};
    ghost use Rattle.script_cli.specs.declared.script.Numbered.{Numbered};

    ghost Value = { List Numbered };

    ghost view = { λ s. s.lines.items };
}

impl Script {
    /// The lines that do something, in order.
    pub fn lines(&self) -> &[Numbered]
        ensures { result.now ≡ self.now }
    {
        &self.lines
    }

    /// The lines that do something, in order.
    pub fn into_lines(self) -> Vec<Numbered>
        ensures { result.items ≡ self }
    {
        self.lines
    }
}

/// The line of this number.
fn numbered_line(alloc: Global, number: u32, bytes: &[u8]) -> Result<Line, ScriptFault>
    ensures { IsNumberedLine number bytes.now result }
{
    if number > MAX_LINES {
        let fault = LineFault::TooManyLines;
        return Err(ScriptFault::Line { number, fault });
    }
    match read_line(alloc, bytes) {
        Ok(line) => Ok(line),
        Err(LineError::Fault(fault)) => Err(ScriptFault::Line { number, fault }),
        Err(LineError::Memory) => Err(ScriptFault::Memory),
    }
}

/// Adds a line after those so far, if it does something.
fn push_line(lines: &mut Vec<Numbered>, number: u32, line: Line) -> Result<(), AllocError>
    ensures { OnOk result (lines.new.items ≡ with_line lines.old.items number line) }
{
    match line {
        Line::Nothing => Ok(()),
        Line::Owners => Ok(lines.push(Numbered {
            number,
            line: Line::Owners,
        })?),
        Line::Step(step) => Ok(lines.push(Numbered {
            number,
            line: Line::Step(step),
        })?),
    }
}

/// The lines of a text that do something.
#[tactic(auto, using(crate::proofs::Texts::lines_are_cut, crate::proofs::Texts::after_is_shorter, crate::proofs::Texts::line_is_next))]
fn read_lines(alloc: Global, text: &[u8]) -> Result<Script, ScriptFault>
    requires { length text.now ≤ 1048576 }
    ensures { AreLines text.now result }
{
    let mut lines = Vec::new(alloc);
    let mut number = 1u32;
    let mut rest = text;
    while !rest.is_empty() {
        let (bytes, after) = split_line(rest);
        let line = match numbered_line(alloc, number, bytes) {
            Ok(line) => line,
            Err(fault) => return Err(fault),
        };
        if push_line(&mut lines, number, line).is_err() {
            return Err(ScriptFault::Memory);
        }
        number += 1;
        rest = after;
    }
    Ok(Script { lines })
}

/// Reads a script.
///
/// # Errors
///
/// [`ScriptFault::TooLong`] before any line is read, else the first fault of the first line that has one; and
/// [`ScriptFault::Memory`] where memory is refused.
#[tactic(auto, using(crate::proofs::Texts::lines_are_read))]
pub fn read_script(alloc: Global, text: &[u8]) -> Result<Script, ScriptFault>
    ensures { IsReading text.now result }
{
    if text.len() > MAX_SCRIPT {
        return Err(ScriptFault::TooLong);
    }
    read_lines(alloc, text)
}
