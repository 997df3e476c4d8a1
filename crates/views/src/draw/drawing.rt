//! A script is played and drawn.

ghost use Rattle.std.specs.Prelude.{◌≡◌, ◌≤◌, IfOk, length, min};
ghost use Rattle.script_cli.specs.Runs.{AreFirstOwners};

use crate::draw::commands::Requests;
use crate::draw::picture::{Caption, put_picture, touched_by};
use crate::draw::style::{FOOT, HEAD};
use page_ledger::Owner;
use script_cli::{
    Line, Numbered, RunFault, Script, Verb, append_reply, first_owners, flush, not_opened, put,
    read_script, script_at_fault, split_line,
};
use std::alloc::{AllocError, Global};
use std::io::Write;
use step_core::{Config, Image, Reply, Step};
use world_bench::Bench;

/// The most pages that a picture has; of a larger pool it has the first ones.
pub const MOST_CELLS: u32 = 1_024;

/// The most pictures of a script, after that of the opening. The steps after them are not made.
pub const MOST_PICTURES: usize = 1_000;

/// The owners of the pages that are drawn.
fn owners_of(alloc: Global, bench: &Bench) -> Result<Vec<Owner>, AllocError>
    ensures many { IfOk result (λ owners. length owners.items ≡ min (length bench.now.table.world.memory) 1024) }
    ensures owners { IfOk result (λ owners. AreFirstOwners bench.now.table.world owners.items) }
{
    first_owners(alloc, bench, bench.pages().min(MOST_CELLS))
}

/// A text whose lines are taken in rising order.
#[derive(Drop)]
struct Lines<'a> {
    rest: &'a [u8],
    /// The number of the first line of the rest, from 1.
    number: u32,
}

impl<'a> Lines<'a> {
    /// The line of this number. Those before it are passed over, and so is this one.
    fn take(&mut self, number: u32) -> &'a str {
        let mut line: &[u8] = &[];
        let next = number.saturating_add(1);
        for _ in self.number..next {
            let (first, rest) = split_line(self.rest);
            line = first;
            self.rest = rest;
        }
        self.number = next;
        std::str::from_utf8(line).unwrap_or("")
    }
}

/// A world that is drawn as it goes.
#[derive(Drop)]
struct Drawing<'a> {
    alloc: Global,
    bench: &'a mut Bench,
    /// How many slots a ring has.
    entries: u16,
    /// What its commands were asked for.
    requests: Requests,
    /// The owners of its pages as they were drawn last.
    owners: Vec<Owner>,
    /// The text of a picture.
    out: String,
}

impl Drawing<'_> {
    /// Puts the picture of the opening.
    fn begin(&mut self) -> Result<(), AllocError> {
        self.out.push_str(HEAD)?;
        let caption = Caption {
            number: 0,
            line: "",
            reply: "",
        };
        let owners = &self.owners;
        put_picture(
            self.alloc,
            &mut self.out,
            &caption,
            self.bench,
            self.entries,
            &self.requests,
            owners,
            owners,
            &[],
        )
    }

    /// Makes a step, and puts its picture in place of the one before.
    fn step(&mut self, number: u32, line: &str, step: Step) -> Result<(), AllocError> {
        let verb = Verb::of(&step);
        let reply = self.bench.step(step);
        if let Reply::Reserved { q, cid, .. } = &reply {
            self.requests.note(self.alloc, *q, *cid, line)?;
        }
        let mut told = String::new(self.alloc);
        append_reply(&mut told, number, verb, &reply)?;
        let caption = Caption {
            number,
            line,
            reply: &told,
        };
        let owners = owners_of(self.alloc, self.bench)?;
        self.out.clear();
        put_picture(
            self.alloc,
            &mut self.out,
            &caption,
            self.bench,
            self.entries,
            &self.requests,
            &self.owners,
            &owners,
            touched_by(&reply),
        )?;
        self.owners = owners;
        Ok(())
    }
}

/// Puts how many lines of a script are not drawn, and the end of the page.
fn put_end<W: Write>(alloc: Global, left_out: usize, writer: &mut W) -> Result<(), RunFault> {
    if left_out > 0 {
        let told = format!(in alloc;
            "<p class=\"key\">{left_out} lines after these are not drawn</p>\n"
        );
        let Ok(told) = told else {
            return Err(RunFault::Memory);
        };
        put(writer, told.as_bytes())?;
    }
    put(writer, FOOT.as_bytes())
}

/// Draws the steps of a script.
fn draw_all<W: Write>(
    drawing: &mut Drawing<'_>,
    text: &[u8],
    script: Script,
    writer: &mut W,
) -> Result<(), RunFault> {
    drawing.begin()?;
    put(writer, drawing.out.as_bytes())?;
    let mut lines = Lines {
        rest: text,
        number: 1,
    };
    let all = script.into_lines();
    let left_out = all.len().saturating_sub(MOST_PICTURES);
    for Numbered { number, line } in all.into_iter().take(MOST_PICTURES) {
        if let Line::Step(step) = line {
            drawing.step(number, lines.take(number), step)?;
            put(writer, drawing.out.as_bytes())?;
        }
    }
    put_end(drawing.alloc, left_out, writer)?;
    flush(writer)
}

/// Plays a script over a world that it opens, and writes a page of HTML with a picture after each of its steps: the command `draw`.
///
/// # Errors
///
/// The first fault of the script, and then one of the opening; nothing is written then. `Memory` where memory is refused, and not inside a
/// step, and `OutputFailed` where a write or the flush fails; what was written by then is a prefix of the page.
pub fn draw_steps<W: Write>(
    alloc: Global,
    config: Config,
    image: Image,
    text: &[u8],
    writer: &mut W,
) -> Result<(), RunFault> {
    let script = match read_script(alloc, text) {
        Ok(script) => script,
        Err(why) => return Err(script_at_fault(why)),
    };
    let mut bench = match Bench::open(alloc, config, image) {
        Ok(bench) => bench,
        Err(refused) => return Err(not_opened(refused.why)),
    };
    let drawn = match owners_of(alloc, &bench) {
        Ok(owners) => {
            let mut drawing = Drawing {
                alloc,
                bench: &mut bench,
                entries: u16::try_from(config.entries).unwrap_or(u16::MAX),
                requests: Requests::new(alloc),
                owners,
                out: String::new(alloc),
            };
            draw_all(&mut drawing, text, script, writer)
        }
        Err(_) => Err(RunFault::Memory),
    };
    let _ended = bench.end();
    drawn
}
