//! A session: a world, and the lines that are answered over it.

ghost use Rattle.std.specs.Prelude.{◌≡◌, [], string_bytes};

use crate::asked::{Asked, NotAsked, asked_of};
use crate::files::{file_image, open_file, put_not_read, unread};
use crate::hand::{Hand, MOST_STEPS};
use crate::help::say_help;
use crate::lines::Lines;
use crate::looks::say_rings;
use crate::meanings::say_meaning;
use crate::pages::say_page;
use crate::record::Record;
use crate::sink::Sink;
use script_cli::transcripts::{OpeningFault, Options, SaidOptions, out_of_range};
use script_cli::{
    ImageFault, MAX_SCRIPT, ReadFault, RunFault, Verb, append_counts, not_opened, not_written,
    play_step, put_owners, read_first, split_line, write_out,
};
use std::alloc::{AllocError, AllocGlobal, Global};
use std::io::{BufRead, BufReader, Read, Write};
use std::mem;
use std::rt::Files;
use step_core::{Config, Image, ImageError, Step};
use texts::traces::Traced;
use world_bench::Bench;

/// What comes before a line on a terminal.
const PROMPT: &str = "nvmesgl> ";

/// How a session goes on.
#[derive(Drop)]
enum Going {
    /// With the next line.
    On,
    /// With the lines of a file.
    Into(Vec<u8>),
    /// With a file for what is answered, or standard output.
    To(Option<String>),
    /// Not at all.
    Out,
}

/// A world, and what it was opened with.
pub(crate) struct Session {
    alloc: Global,
    /// What a new world is opened with, where a line does not say otherwise.
    usual: Options,
    /// What this one was opened with.
    config: Config,
    bench: Bench,
    /// What was done since it was opened.
    record: Record,
    /// Whether each step says what it moved.
    traces: bool,
}

/// Zero blocks.
fn zeros(alloc: Global, blocks: u32) -> Result<Image, OpeningFault> {
    match Image::zeroed(alloc, blocks) {
        Ok(image) => Ok(image),
        Err(ImageError::BadLength) => Err(OpeningFault::Image(ImageFault::BadLength)),
        Err(ImageError::Memory) => Err(OpeningFault::Image(ImageFault::Memory)),
    }
}

/// Whether an image has zeros alone.
fn is_zeros(image: &Image) -> bool {
    image
        .blocks_from(0, image.blocks())
        .iter()
        .all(|byte| *byte == 0)
}

/// Puts the options that lie outside of their ranges, where that is why nothing was opened.
fn put_ranges(
    alloc: Global,
    out: &mut String,
    options: Options,
    why: OpeningFault,
) -> Result<(), AllocError> {
    let lines = match why {
        OpeningFault::World(RunFault::BadConfig) => out_of_range(alloc, &options.sizes())?,
        OpeningFault::Image(ImageFault::BadLength) => {
            out_of_range(alloc, &[options.zero_blocks()])?
        }
        _ => return Ok(()),
    };
    out.push_str(&lines)
}

/// Reads the lines of a file, to be answered next. Where it is not read that is said.
fn read_lines<R: AllocGlobal + Files>(
    rt: &R,
    path: &str,
    out: &mut String,
) -> Result<Going, AllocError> {
    let mut file = match open_file(rt, path) {
        Ok(file) => file,
        Err(why) => {
            put_not_read(out, path, &why)?;
            return Ok(Going::On);
        }
    };
    match read_first(rt.alloc(), &mut file, MAX_SCRIPT) {
        Ok(text) if text.len() <= MAX_SCRIPT => return Ok(Going::Into(text)),
        Ok(_) => write!(out, "'{path}': a script has {MAX_SCRIPT} bytes at most\n")?,
        Err(ReadFault::Unreadable) => put_not_read(out, path, &unread(file.code()))?,
        Err(ReadFault::Memory) => return Err(AllocError),
    }
    Ok(Going::On)
}

/// That what is answered goes to a file, or to standard output.
fn going_to(alloc: Global, path: Option<&str>) -> Result<Going, AllocError> {
    match path {
        Some(path) => Ok(Going::To(Some(String::from_str(alloc, path)?))),
        None => Ok(Going::To(None)),
    }
}

impl Session {
    /// A session over a world that it opens. With `traces` each step says what it moved.
    pub(crate) fn open(
        alloc: Global,
        config: Config,
        image: Image,
        traces: bool,
    ) -> Result<Session, RunFault> {
        let blocks = image.blocks();
        let usual = Options { config, blocks };
        let record = Record::open(alloc, usual, is_zeros(&image))?;
        match Bench::open(alloc, config, image) {
            Ok(bench) => Ok(Session {
                alloc,
                usual,
                config,
                bench,
                record,
                traces,
            }),
            Err(refused) => Err(not_opened(refused.why)),
        }
    }

    /// Ends the session, and gives its world out.
    pub(crate) fn into_bench(self) -> Bench {
        let Session {
            alloc: _,
            usual: _,
            config: _,
            bench,
            record: _,
            traces: _,
        } = self;
        bench
    }

    /// Opens a new world over an image in place of the old one. Where that is refused the old one stays.
    fn reopen(
        &mut self,
        options: Options,
        image: Image,
        out: &mut String,
    ) -> Result<(), AllocError> {
        let record = Record::open(self.alloc, options, is_zeros(&image))?;
        match Bench::open(self.alloc, options.config, image) {
            Ok(bench) => {
                self.config = options.config;
                self.record = record;
                let _ended = mem::replace(&mut self.bench, bench).end();
                out.push_str("ok\n")
            }
            Err(refused) => {
                let why = OpeningFault::World(not_opened(refused.why));
                write!(out, "{why}\n")?;
                put_ranges(self.alloc, out, options, why)
            }
        }
    }

    /// Opens a new world over zeros, or over the image that a file is.
    fn open_anew<R: AllocGlobal + Files>(
        &mut self,
        rt: &R,
        said: SaidOptions,
        path: Option<&str>,
        out: &mut String,
    ) -> Result<(), AllocError> {
        let options = said.over(self.usual);
        let Some(path) = path else {
            return match zeros(self.alloc, options.blocks) {
                Ok(image) => self.reopen(options, image, out),
                Err(why) => {
                    write!(out, "{why}\n")?;
                    put_ranges(self.alloc, out, options, why)
                }
            };
        };
        match file_image(rt, path) {
            Ok(image) => {
                let blocks = image.blocks();
                self.reopen(Options { blocks, ..options }, image, out)
            }
            Err(why) => put_not_read(out, path, &why),
        }
    }

    /// Says the owners of all pages in an empty text.
    fn owners(&mut self, out: &mut String) -> Result<(), AllocError>
        requires empty { string_bytes out.old ≡ [] }
    {
        put_owners(self.alloc, &self.bench, out)?;
        self.record.keep_owners(out)
    }

    /// Says what was done in this world, as a transcript, or writes it into a file.
    fn dump<R: AllocGlobal + Files + Print>(
        &self,
        rt: &R,
        path: Option<&str>,
        out: &mut String,
    ) -> Result<(), AllocError> {
        let Some(text) = self.record.transcript(self.alloc, self.bench.counts())? else {
            return out.push_str("what was done is too long for a transcript\n");
        };
        match path {
            None => out.push_str(&text),
            Some(path) => self.write_file(rt, path, text.as_bytes(), out),
        }
    }

    /// Writes bytes into a file, and says whether that was done.
    fn write_file<R: AllocGlobal + Files + Print>(
        &self,
        rt: &R,
        path: &str,
        bytes: &[u8],
        out: &mut String,
    ) -> Result<(), AllocError> {
        match write_out(rt, path, bytes) {
            Ok(()) => out.push_str("ok\n"),
            Err(why) => out.push_str(&not_written(self.alloc, path, &why)?),
        }
    }

    /// What makes the steps of a line.
    fn hand<'a>(&'a mut self, out: &'a mut String, says: bool) -> Hand<'a> {
        let (alloc, config, traces) = (self.alloc, self.config, self.traces);
        let Session { bench, record, .. } = self;
        Hand {
            alloc,
            bench,
            out,
            record,
            entries: u16::try_from(config.entries).unwrap_or(u16::MAX),
            left: MOST_STEPS,
            says,
            traces,
        }
    }

    /// Does a step, says what it answered in an empty text, and what it moved, if that is wanted.
    fn step(&mut self, number: u32, step: Step, out: &mut String) -> Result<(), AllocError>
        requires empty { string_bytes out.old ≡ [] }
    {
        let traced = Traced::of(&step);
        let verb = Verb::of(&step);
        self.record.begin(&step)?;
        let reply = play_step(&mut self.bench, number, step, out)?;
        self.record.end(self.alloc, verb, &reply)?;
        self.hand(out, true).trace(traced, &reply)
    }

    /// Lets the controller work, on all queues or on one.
    fn serve(&mut self, q: Option<u16>, out: &mut String) -> Result<(), AllocError> {
        let (first, last) = self.queues(q);
        self.hand(out, true).serve(first, last)
    }

    /// The numbers of all queues, or of the one that is named.
    fn queues(&self, q: Option<u16>) -> (u16, u16) {
        match q {
            Some(q) => (q, q),
            None => (0, u16::try_from(self.config.queues).unwrap_or(u16::MAX)),
        }
    }

    /// Writes the image into a file. Where this fails, the file is as it was.
    fn save<R: AllocGlobal + Files + Print>(
        &self,
        rt: &R,
        path: &str,
        out: &mut String,
    ) -> Result<(), AllocError> {
        let image = self.bench.image();
        self.write_file(rt, path, image.blocks_from(0, image.blocks()), out)
    }

    /// Does what a line asks for, and leaves what it says in an empty text.
    fn perform<R: AllocGlobal + Files + Print>(
        &mut self,
        rt: &R,
        number: u32,
        asked: Asked<'_>,
        out: &mut String,
    ) -> Result<Going, AllocError>
        requires empty { string_bytes out.old ≡ [] }
    {
        let says = self.traces;
        match asked {
            Asked::Nothing => {}
            Asked::Step(step) => self.step(number, step, out)?,
            Asked::Owners => self.owners(out)?,
            Asked::Counts => append_counts(out, self.bench.counts())?,
            Asked::Rings(q) => {
                let (first, last) = self.queues(q);
                say_rings(&self.bench, first, last, out)?;
            }
            Asked::Page(p) => say_page(&mut self.bench, p, out)?,
            Asked::Trace(traces) => {
                self.traces = traces;
                out.push_str("ok\n")?;
            }
            Asked::Help(word) => say_help(self.alloc, out, word)?,
            Asked::Serve(q) => self.serve(q, out)?,
            Asked::Read(extent) => self.hand(out, says).read(extent)?,
            Asked::Write(extent, bytes) => self.hand(out, says).write(extent, bytes)?,
            Asked::Play(path) => return read_lines(rt, path, out),
            Asked::Save(path) => self.save(rt, path, out)?,
            Asked::Dump(path) => self.dump(rt, path, out)?,
            Asked::Output(path) => return going_to(self.alloc, path),
            Asked::Explain(name) => say_meaning(self.alloc, out, name)?,
            Asked::Open(said, image) => self.open_anew(rt, said, image, out)?,
            Asked::Print(text) => write!(out, "{text}\n")?,
            Asked::Quit => return Ok(Going::Out),
        }
        Ok(Going::On)
    }

    /// Answers a line: leaves what it says in an empty text.
    fn answer<R: AllocGlobal + Files + Print>(
        &mut self,
        rt: &R,
        number: u32,
        line: &[u8],
        out: &mut String,
    ) -> Result<Going, AllocError>
        requires empty { string_bytes out.old ≡ [] }
    {
        match asked_of(self.alloc, line) {
            Ok(asked) => self.perform(rt, number, asked, out),
            Err(NotAsked::Memory) => Err(AllocError),
            Err(NotAsked::Fault(fault)) => {
                let (line, _) = split_line(line);
                fault.put(self.alloc, out, number, line)?;
                Ok(Going::On)
            }
        }
    }

    /// Answers the lines of a reader, and of the files that they name, one after the other, until one ends the session or there is none.
    fn talk<R: AllocGlobal + Files + Print, B: BufRead, W: Write>(
        &mut self,
        rt: &R,
        reader: &mut B,
        writer: &mut W,
        prompt: bool,
    ) -> Result<(), RunFault> {
        let (prompt, end) = if prompt { (PROMPT, "\n") } else { ("", "") };
        let mut lines = Lines::new(self.alloc);
        let mut line = Vec::new(self.alloc);
        let mut out = String::new(self.alloc);
        let mut sink = Sink::new(writer);
        for _ in 0..u64::MAX {
            let number = match lines.of_file(&mut line)? {
                Some(number) => number,
                None => {
                    sink.say(prompt)?;
                    sink.flush()?;
                    match lines.of_reader(reader, &mut line)? {
                        Some(number) => number,
                        None => {
                            sink.say(end)?;
                            break;
                        }
                    }
                }
            };
            out.clear();
            let going = self.answer(rt, number, &line, &mut out)?;
            sink.put(rt, &out)?;
            match going {
                Going::On => {}
                Going::Into(text) if lines.has_room() => lines.push(text)?,
                Going::Into(_) => sink.put(rt, "files are read 16 deep at most\n")?,
                Going::To(path) => sink.turn(rt, path)?,
                Going::Out => break,
            }
        }
        sink.flush()
    }
}

/// Answers the lines of a reader over a world that it opens, each before the next one is read: the command `shell`. With `traces` each step says what
/// it moved, until a line ends that. With `prompt`, something comes before each line. What is written is flushed before a line is read, and at the
/// end.
///
/// # Errors
///
/// The fault of an opening, before anything is written. `Unreadable` where a read fails, `OutputFailed` where a write or a flush does, and
/// `Memory` where memory is refused, and not inside a step. A faulty line and a step that is refused are answers, and no faults.
pub fn run_shell<R: AllocGlobal + Files + Print, I: Read, W: Write>(
    rt: &R,
    config: Config,
    image: Image,
    traces: bool,
    reader: &mut I,
    writer: &mut W,
    prompt: bool,
) -> Result<(), RunFault> {
    let alloc = rt.alloc();
    let mut session = Session::open(alloc, config, image, traces)?;
    let talked = match BufReader::new(alloc, reader) {
        Ok(mut reader) => session.talk(rt, &mut reader, writer, prompt),
        Err(_) => Err(RunFault::Memory),
    };
    let _ended = session.into_bench().end();
    talked
}
