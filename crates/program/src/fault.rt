//! Why a run did not end well.

ghost use Rattle.std.specs.Prelude.{◌≡◌, ◌≢◌, IfErr, OnOk};
ghost use Rattle.clap.specs.Words.{kind_of};
ghost use Rattle.program.specs.Statuses.{status_of, status_of_bytes};
ghost use Rattle.clap.specs.declared.error.kind.ErrorKind.TheVariants.{OutOfMemory};
ghost use Rattle.script_cli.specs.declared.fault.RunFault.TheVariants as run;

use crate::below::lines_or_none;
use crate::testing::Tally;
use clap::error::ErrorKind;
use command_line::sentence;
use load::LoadFault;
use script_cli::{ImageFault, RunFault};
use std::alloc::{AllocGlobal, Global};
use std::{fmt, io};
use views::explain::CaseFault;

/// Why bytes that were pasted in did not end well.
#[derive(Clone, Copy, Debug, PartialEq, Eq)]
pub enum BytesFault {
    /// The controller refuses the command. The output told it.
    Refused,
    /// They are not a case, or not an entry.
    Case(CaseFault),
    /// They are not a case, or not an entry, and the output told it.
    Answered(CaseFault),
    /// The word before them names no kind of bytes.
    UnknownKind,
    /// The input that has them could not be read.
    Unreadable,
}

impl BytesFault {
    /// The exit status.
    fn exit_status(self) -> u8
        ensures { result ≡ status_of_bytes self }
    {
        match self {
            BytesFault::Refused => 4,
            BytesFault::Case(CaseFault::Memory) | BytesFault::Answered(CaseFault::Memory) => 3,
            BytesFault::Case(_) | BytesFault::Answered(_) | BytesFault::Unreadable => 1,
            BytesFault::UnknownKind => 2,
        }
    }
}

/// Why a run did not end well: its line on standard error, and its exit status.
#[derive(Debug, Drop)]
pub enum Fault {
    /// The arguments are at fault.
    Arguments(clap::Error),
    /// The image is at fault.
    Image(ImageFault),
    /// The script or the opening is at fault, or something was missing while it ran.
    Run(RunFault),
    /// The reader of the output closed it early. Nothing is told.
    PipeClosed,
    /// All went well, but the image was not saved.
    NotSaved,
    /// Transcripts turned out otherwise, or are at fault. The output told it.
    Transcripts(Tally),
    /// Bytes that were pasted in are refused, or at fault.
    Bytes(BytesFault),
    /// A load did not run to its end.
    Load(LoadFault),
    /// Commands of a load were refused, failed, or brought other bytes. The output told it.
    Loaded(load::Tally),
    /// All went well, but what was measured was not written.
    NoStats,
    /// The first line of a script says invalid options.
    BadOptions,
    /// All went well, but with `--strict` a step was refused, or a status is not 0:00. The output told it.
    Unwell,
}

/// A fault, and the lines below its own on standard error.
#[derive(Debug, Drop)]
pub struct FaultReport<F> {
    /// The fault.
    pub fault: F,
    /// Where it is, as `FILE:LINE:COLUMN`, if that is told in place of the line's number.
    pub place: Option<String>,
    /// Whole lines; none where there is no more to say, or no memory to say it.
    pub below: String,
}

impl<F> FaultReport<F> {
    /// A fault with these lines below its own.
    pub(crate) fn of(fault: F, below: String) -> FaultReport<F>
        ensures { result.fault ≡ fault }
    {
        FaultReport {
            fault,
            place: None,
            below,
        }
    }

    /// A fault with nothing below its line.
    pub(crate) fn alone(alloc: Global, fault: F) -> FaultReport<F>
        ensures { result.fault ≡ fault }
    {
        FaultReport::of(fault, String::new(alloc))
    }
}

impl Fault {
    /// Prints a help text or the version, if that was asked for; any other error of the arguments is a fault, and lack of memory that of a run.
    pub fn shown<R: AllocGlobal + Print + Eprint>(
        rt: &R,
        why: clap::Error,
    ) -> Result<(), FaultReport<Fault>>
        ensures memory { IfErr result (λ told. kind_of why ≡ OutOfMemory → told.fault ≡ Fault.Run run.Memory) }
        ensures done { OnOk result (kind_of why ≢ OutOfMemory) }
    {
        let alloc = rt.alloc();
        if why.kind() == ErrorKind::OutOfMemory {
            return Err(FaultReport::alone(alloc, Fault::Run(RunFault::Memory)));
        }
        if why.use_stderr() {
            let below = lines_or_none(alloc, sentence(alloc, &why));
            return Err(FaultReport::of(Fault::Arguments(why), below));
        }
        match why.print(rt) {
            Ok(()) => Ok(()),
            Err(why) => Err(FaultReport::alone(alloc, not_written(&why))),
        }
    }

    /// The exit status that the program ends with.
    pub fn exit_status(&self) -> u8
        ensures { result ≡ status_of self.now }
    {
        match self {
            Fault::Arguments(_) => 2,
            Fault::Image(fault) => fault.exit_status(),
            Fault::Run(fault) => fault.exit_status(),
            Fault::PipeClosed | Fault::NotSaved | Fault::NoStats => {
                RunFault::OutputFailed.exit_status()
            }
            Fault::Transcripts(tally) => tally.exit_status(),
            Fault::Bytes(fault) => fault.exit_status(),
            Fault::Load(fault) => fault.exit_status(),
            Fault::BadOptions => 1,
            Fault::Loaded(_) | Fault::Unwell => 4,
        }
    }
}

/// The fault of an output that failed.
fn not_written(why: &io::Error) -> Fault {
    if why.kind() == io::ErrorKind::BrokenPipe {
        Fault::PipeClosed
    } else {
        Fault::Run(RunFault::OutputFailed)
    }
}

/// Puts the line of a fault of a script: its place, or the number of its line, and its name.
fn put_head<W: fmt::Write, N: fmt::Display>(
    f: &mut fmt::Formatter<W>,
    place: Option<&String>,
    number: u32,
    name: &N,
) -> fmt::Result {
    match place {
        Some(place) => write!(f, "{place}: {name}\n"),
        None => write!(f, "line {number}: {name}\n"),
    }
}

impl fmt::Display for FaultReport<Fault> {
    /// The fault's line and those below it, whole lines; nothing of what the output told, nor of an output that its reader closed.
    fn fmt<W: fmt::Write>(&self, f: &mut fmt::Formatter<W>) -> fmt::Result {
        match &self.fault {
            Fault::Arguments(why) if self.below.is_empty() => write!(f, "{why}")?,
            Fault::Image(fault) => write!(f, "{fault}\n")?,
            Fault::Run(RunFault::Line { number, fault }) => {
                put_head(f, self.place.as_ref(), *number, fault)?;
            }
            Fault::BadOptions => put_head(f, self.place.as_ref(), 1, &"BadOptions")?,
            Fault::Run(fault) => write!(f, "{fault}\n")?,
            Fault::NotSaved => f.write_str("image: not saved\n")?,
            Fault::NoStats => f.write_str("stats: not written\n")?,
            Fault::Load(fault) => write!(f, "{fault}\n")?,
            Fault::Bytes(BytesFault::Case(fault)) => write!(f, "{fault}\n")?,
            Fault::Bytes(BytesFault::UnknownKind) => {
                f.write_str("show: the first word is sqe, admin, cqe, sgl or status\n")?
            }
            Fault::Bytes(BytesFault::Unreadable) => f.write_str("input: unreadable\n")?,
            Fault::Arguments(_)
            | Fault::PipeClosed
            | Fault::Transcripts(_)
            | Fault::Loaded(_)
            | Fault::Unwell
            | Fault::Bytes(BytesFault::Refused | BytesFault::Answered(_)) => {}
        }
        f.write_str(self.below.as_str())
    }
}

impl From<FaultReport<ImageFault>> for FaultReport<Fault> {
    ghost use Rattle.program.specs.declared.fault.Fault.{Fault};
    ghost use Rattle.std.specs.Prelude.{◌≡◌};

    ghost from_gives = { λ why told. told.fault ≡ Fault.Image why.fault };

    fn from(why: FaultReport<ImageFault>) -> Self {
        FaultReport {
            fault: Fault::Image(why.fault),
            place: why.place,
            below: why.below,
        }
    }
}

impl From<FaultReport<RunFault>> for FaultReport<Fault> {
    ghost use Rattle.program.specs.declared.fault.Fault.{Fault};
    ghost use Rattle.std.specs.Prelude.{◌≡◌};

    ghost from_gives = { λ why told. told.fault ≡ Fault.Run why.fault };

    fn from(why: FaultReport<RunFault>) -> Self {
        FaultReport {
            fault: Fault::Run(why.fault),
            place: why.place,
            below: why.below,
        }
    }
}
