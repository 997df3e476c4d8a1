//! The image and the script of a run, and why there is none.

ghost use Rattle.std.specs.Prelude.{◌≡◌, ◌≤◌, ◌⊎◌, IfOk, IfErr, None, OnErr, Some};
ghost use Rattle.command_line.specs.Asked.{given_of, path_of};
ghost use Rattle.program.specs.Performing.{IsFirstImage, IsNoFirstImage, IsNotBegun, jobs_said as spec_jobs_said, script_told, steps_said as spec_steps_said};
ghost use Rattle.script_cli.specs.Inputs.{AreFirstOf};
ghost use Rattle.script_cli.specs.declared.fault.RunFault.TheVariants as run;

use crate::below::{below_options, lines_or_none, world_of};
use crate::fault::{Fault, FaultReport};
use crate::places::STANDARD;
use block_image::{Image, ImageError, MAX_BYTES};
use command_line::CommandOptions;
use script_cli::transcripts::MAX_TRANSCRIPT;
use script_cli::{ImageFault, MAX_SCRIPT, ReadFault, RunFault, read_first, read_image};
use std::alloc::{AllocGlobal, Global};
use std::fs::File;
use std::io;
use std::io::Read;
use std::rt::Files;

/// A reader that counts its bytes, and keeps why a read failed.
#[derive(Drop)]
struct Noted<R> {
    reader: R,
    count: usize,
    why: Option<io::Error>,
}

impl<R> Noted<R> {
    /// A reader over this one.
    fn over(reader: R) -> Noted<R> {
        Noted {
            reader,
            count: 0,
            why: None,
        }
    }
}

impl<R: Read> Read for Noted<R> {
    fn read(&mut self, buf: &mut [u8]) -> io::Result<usize> {
        match self.reader.read(buf) {
            Ok(n) => {
                self.count = self.count.saturating_add(n);
                Ok(n)
            }
            Err(why) => {
                self.why = Some(why);
                Err(why)
            }
        }
    }
}

/// What the system says of a file that it did not open or read.
fn unreadable(alloc: Global, path: &str, why: Option<io::Error>) -> String {
    let text = match why {
        Some(why) => format!(in alloc; "'{path}': {why}\n"),
        None => format!(in alloc; "'{path}' could not be read\n"),
    };
    lines_or_none(alloc, text)
}

/// What a file's length is, and what an image's may be.
fn bad_length(alloc: Global, path: &str, count: usize) -> String {
    let text = if count > MAX_BYTES {
        format!(in alloc; "'{path}' has more than {MAX_BYTES} bytes, the most that an image has\n")
    } else {
        format!(in alloc; "'{path}' has {count} bytes; an image has 1 to 65536 blocks of 512\n")
    };
    lines_or_none(alloc, text)
}

/// Says that standard input is not an image.
fn no_standard(alloc: Global) -> String {
    let text = format!(in alloc;
        "--image names a file, and standard input is none; './-' is a file of that name\n"
    );
    lines_or_none(alloc, text)
}

/// Why a file has no bytes.
pub(crate) enum Unread {
    /// The system's reason.
    Because(io::Error),
    /// A read failed, and the system gave no reason.
    Unknown,
    /// Memory was refused.
    Memory,
}

/// Why a read gave no bytes, with the system's reason, if there is one.
fn why_unread(fault: ReadFault, why: Option<io::Error>) -> Unread {
    match fault {
        ReadFault::Memory => Unread::Memory,
        ReadFault::Unreadable => match why {
            Some(why) => Unread::Because(why),
            None => Unread::Unknown,
        },
    }
}

/// The bytes of a file, or of the reader that is standard input; one more than a transcript may have at most.
pub(crate) fn transcript_bytes<R: AllocGlobal + Files, I: Read>(
    rt: &R,
    path: &str,
    reader: &mut I,
) -> Result<Vec<u8>, Unread> {
    let alloc = rt.alloc();
    if path == STANDARD {
        return match read_first(alloc, reader, MAX_TRANSCRIPT) {
            Ok(bytes) => Ok(bytes),
            Err(fault) => Err(why_unread(fault, None)),
        };
    }
    let mut file = match File::open(rt, path) {
        Ok(file) => Noted::over(file),
        Err(why) => return Err(Unread::Because(why)),
    };
    match read_first(alloc, &mut file, MAX_TRANSCRIPT) {
        Ok(bytes) => Ok(bytes),
        Err(fault) => Err(why_unread(fault, file.why)),
    }
}

/// The image that a file is.
fn file_image<R: AllocGlobal + Files>(
    rt: &R,
    path: &str,
) -> Result<Image, FaultReport<ImageFault>> {
    let alloc = rt.alloc();
    if path == STANDARD {
        return Err(FaultReport::of(ImageFault::Unreadable, no_standard(alloc)));
    }
    let mut file = match File::open(rt, path) {
        Ok(file) => Noted::over(file),
        Err(why) => {
            let below = unreadable(alloc, path, Some(why));
            let fault = ImageFault::Unreadable;
            return Err(FaultReport::of(fault, below));
        }
    };
    match read_image(alloc, &mut file) {
        Ok(image) => Ok(image),
        Err(fault) => {
            let below = match fault {
                ImageFault::Unreadable => unreadable(alloc, path, file.why),
                ImageFault::BadLength => bad_length(alloc, path, file.count),
                ImageFault::Memory => String::new(alloc),
            };
            Err(FaultReport::of(fault, below))
        }
    }
}

/// An image of zeros.
fn zero_image(alloc: Global, options: &CommandOptions<'_>) -> Result<Image, FaultReport<ImageFault>>
    ensures image { IfOk result (IsFirstImage (given_of options.now)) }
    ensures no_image { IfErr result (λ told. IsNoFirstImage (given_of options.now) told.fault) }
{
    match Image::zeroed(alloc, options.blocks) {
        Ok(image) => Ok(image),
        Err(ImageError::BadLength) => {
            let blocks = world_of(options).zero_blocks();
            let below = lines_or_none(alloc, format!(in alloc; "{blocks}\n"));
            let fault = ImageFault::BadLength;
            Err(FaultReport::of(fault, below))
        }
        Err(ImageError::Memory) => Err(FaultReport::alone(alloc, ImageFault::Memory)),
    }
}

/// The image that a run begins with: the bytes of a file, or zeros.
pub(crate) fn open_image<R: AllocGlobal + Files>(
    rt: &R,
    options: &CommandOptions<'_>,
) -> Result<Image, FaultReport<ImageFault>>
    ensures image { IfOk result (λ image. IsFirstImage (given_of options.now) image) }
    ensures no_image { IfErr result (λ told. IsNoFirstImage (given_of options.now) told.fault) }
{
    match options.image {
        Some(path) => file_image(rt, path),
        None => zero_image(rt.alloc(), options),
    }
}

/// The bytes of a reader, or one more than a script may have.
fn first_bytes<I: Read>(alloc: Global, reader: &mut I) -> Result<Vec<u8>, RunFault>
    ensures text { IfOk result (λ text. AreFirstOf 1048576 (I.remaining reader.old) text.items) }
    ensures fault { IfErr result (λ fault. (fault ≡ run.Unreadable) ⊎ (fault ≡ run.Memory)) }
{
    match read_first(alloc, reader, MAX_SCRIPT) {
        Ok(text) => Ok(text),
        Err(ReadFault::Unreadable) => Err(RunFault::Unreadable),
        Err(ReadFault::Memory) => Err(RunFault::Memory),
    }
}

/// The script that a file has.
fn file_script<R: AllocGlobal + Files>(rt: &R, path: &str) -> Result<Vec<u8>, FaultReport<RunFault>>
    ensures text { IfOk result (λ text. AreFirstOf 1048576 None text.items) }
    ensures fault { IfErr result (λ told. (told.fault ≡ run.Unreadable) ⊎ (told.fault ≡ run.Memory)) }
{
    let alloc = rt.alloc();
    let mut file = match File::open(rt, path) {
        Ok(file) => Noted::over(file),
        Err(why) => {
            let below = unreadable(alloc, path, Some(why));
            let fault = RunFault::Unreadable;
            return Err(FaultReport::of(fault, below));
        }
    };
    match first_bytes(alloc, &mut file) {
        Ok(text) => Ok(text),
        Err(RunFault::Unreadable) => {
            let below = unreadable(alloc, path, file.why);
            let fault = RunFault::Unreadable;
            Err(FaultReport::of(fault, below))
        }
        Err(fault) => Err(FaultReport::alone(alloc, fault)),
    }
}

/// The script of a reader that is standard input.
fn reader_script<I: Read>(alloc: Global, reader: &mut I) -> Result<Vec<u8>, FaultReport<RunFault>>
    ensures text { IfOk result (λ text. AreFirstOf 1048576 (I.remaining reader.old) text.items) }
    ensures fault { IfErr result (λ told. (told.fault ≡ run.Unreadable) ⊎ (told.fault ≡ run.Memory)) }
{
    match first_bytes(alloc, reader) {
        Ok(text) => Ok(text),
        Err(fault) => Err(FaultReport::alone(alloc, fault)),
    }
}

/// The script that a path names: `-` and no path are the reader, which is standard input.
pub(crate) fn script_text<R: AllocGlobal + Files, I: Read>(
    rt: &R,
    path: Option<&str>,
    reader: &mut I,
) -> Result<Vec<u8>, FaultReport<RunFault>>
    ensures text { IfOk result (λ text. AreFirstOf 1048576 (script_told (path_of path.entry) (I.remaining reader.old)) text.items) }
    ensures fault { IfErr result (λ told. (told.fault ≡ run.Unreadable) ⊎ (told.fault ≡ run.Memory)) }
{
    match path {
        None => reader_script(rt.alloc(), reader),
        Some(path) => {
            if path == "-" {
                reader_script(rt.alloc(), reader)
            } else {
                file_script(rt, path)
            }
        }
    }
}

/// What a script of steps is played over: what is given, but for the options that its first line says.
fn steps_said<'a>(
    alloc: Global,
    options: CommandOptions<'a>,
    text: &[u8],
) -> Result<CommandOptions<'a>, FaultReport<Fault>>
    ensures said { IfOk result (λ said. spec_steps_said (given_of options.entry) text.now ≡ Some (given_of said)) }
    ensures fault { IfErr result (λ told. told.fault ≡ Fault.BadOptions) }
    ensures none { OnErr result (spec_steps_said (given_of options.entry) text.now ≡ None) }
{
    match world_of(&options).said_in(text) {
        Ok(said) => Ok(CommandOptions {
            config: said.config,
            blocks: said.blocks,
            ..options
        }),
        Err(bad) => {
            let below = below_options(alloc, text, bad);
            Err(FaultReport::of(Fault::BadOptions, below))
        }
    }
}

/// What a script of jobs is run over, and by how many submitters: what is given, but for what its first line says.
fn jobs_said<'a>(
    alloc: Global,
    options: CommandOptions<'a>,
    submitters: u16,
    text: &[u8],
) -> Result<(CommandOptions<'a>, u16), FaultReport<Fault>>
    requires some { 1 ≤ submitters }
    requires few { submitters ≤ 16 }
    ensures said { IfOk result (λ said. spec_jobs_said (given_of options.entry) submitters text.now ≡ Some (given_of said.0, said.1)) }
    ensures some { IfOk result (λ said. 1 ≤ said.1) }
    ensures few { IfOk result (λ said. said.1 ≤ 16) }
    ensures fault { IfErr result (λ told. told.fault ≡ Fault.BadOptions) }
    ensures none { OnErr result (spec_jobs_said (given_of options.entry) submitters text.now ≡ None) }
{
    match world_of(&options).jobs_said_in(submitters, text) {
        Ok((said, submitters)) => {
            let options = CommandOptions {
                config: said.config,
                blocks: said.blocks,
                ..options
            };
            Ok((options, submitters))
        }
        Err(bad) => {
            let below = below_options(alloc, text, bad);
            Err(FaultReport::of(Fault::BadOptions, below))
        }
    }
}

/// A script that was read, and what it is played over.
#[derive(Drop)]
pub(crate) struct Begun<'a> {
    /// Its bytes, or one more than a script may have.
    pub(crate) text: Vec<u8>,
    /// What is given, but for the options that it says itself.
    pub(crate) said: CommandOptions<'a>,
    /// The image that the run begins with.
    pub(crate) image: Image,
}

/// Reads a script of steps, what it says of options, and its image.
pub(crate) fn begin_steps<'a, R: AllocGlobal + Files, I: Read>(
    rt: &R,
    options: CommandOptions<'a>,
    reader: &mut I,
) -> Result<Begun<'a>, FaultReport<Fault>>
    ensures read { IfOk result (λ begun. AreFirstOf 1048576 (script_told (path_of options.entry.script) (I.remaining reader.old)) begun.text.items) }
    ensures said { IfOk result (λ begun. spec_steps_said (given_of options.entry) begun.text.items ≡ Some (given_of begun.said)) }
    ensures image { IfOk result (λ begun. IsFirstImage (given_of begun.said) begun.image) }
    ensures failed { IfErr result (λ told. IsNotBegun (script_told (path_of options.entry.script) (I.remaining reader.old)) (spec_steps_said (given_of options.entry)) (λ said. said) told.fault) }
{
    let text = script_text(rt, options.script, reader)?;
    let said = steps_said(rt.alloc(), options, &text)?;
    let image = open_image(rt, &said)?;
    Ok(Begun { text, said, image })
}

/// Reads a script of jobs, what it says of options and submitters, and its image.
pub(crate) fn begin_jobs<'a, R: AllocGlobal + Files, I: Read>(
    rt: &R,
    options: CommandOptions<'a>,
    submitters: u16,
    reader: &mut I,
) -> Result<(Begun<'a>, u16), FaultReport<Fault>>
    requires some { 1 ≤ submitters }
    requires few { submitters ≤ 16 }
    ensures read { IfOk result (λ begun. AreFirstOf 1048576 (script_told (path_of options.entry.script) (I.remaining reader.old)) begun.0.text.items) }
    ensures said { IfOk result (λ begun. spec_jobs_said (given_of options.entry) submitters begun.0.text.items ≡ Some (given_of begun.0.said, begun.1)) }
    ensures some { IfOk result (λ begun. 1 ≤ begun.1) }
    ensures few { IfOk result (λ begun. begun.1 ≤ 16) }
    ensures image { IfOk result (λ begun. IsFirstImage (given_of begun.0.said) begun.0.image) }
    ensures failed { IfErr result (λ told. IsNotBegun (script_told (path_of options.entry.script) (I.remaining reader.old)) (spec_jobs_said (given_of options.entry) submitters) (λ said. said.0) told.fault) }
{
    let text = script_text(rt, options.script, reader)?;
    let (said, submitters) = jobs_said(rt.alloc(), options, submitters, &text)?;
    let image = open_image(rt, &said)?;
    Ok((Begun { text, said, image }, submitters))
}
