//! Texts that are printed whole.

ghost use Rattle.std.specs.Prelude.{IfErr};
ghost use Rattle.program.specs.Performing.{IsNoGrammar, IsRunFault};

use crate::fault::{Fault, FaultReport};
use script_cli::{RunFault, flush, put};
use std::alloc::{AllocError, Global};
use std::io::Write;

/// Writes a text, if there was memory for it, and sees that it is written.
pub(crate) fn print_text<W: Write>(
    alloc: Global,
    text: Result<String, AllocError>,
    writer: &mut W,
) -> Result<(), FaultReport<Fault>>
    ensures fault { IfErr result (λ told. IsRunFault told.fault IsNoGrammar) }
{
    let end = match text {
        Ok(text) => match put(writer, text.as_bytes()) {
            Ok(()) => flush(writer),
            Err(fault) => Err(fault),
        },
        Err(_) => Err(RunFault::Memory),
    };
    match end {
        Ok(()) => Ok(()),
        Err(fault) => Err(FaultReport::alone(alloc, Fault::Run(fault))),
    }
}
