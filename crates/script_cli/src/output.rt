//! What is written.

ghost use Rattle.std.specs.Prelude.{◌≡◌, OnOk, OnErr, IfErr};
ghost use Rattle.std.specs.Io.KnownBytes.{Appends, Keeps};
ghost use Rattle.script_cli.specs.Inputs.{Gains, IsFront};
ghost use Rattle.script_cli.specs.declared.fault.RunFault.TheVariants as run;

use crate::fault::RunFault;
use std::io::Write;

/// Writes bytes. After a write that fails, or that takes no byte, nothing more is written.
pub fn put<W: Write>(writer: &mut W, bytes: &[u8]) -> Result<(), RunFault>
    ensures written { OnOk result (Appends (W.contents writer.old) (W.contents writer.new) bytes.now) }
    ensures front { OnErr result (Gains (W.contents writer.old) (W.contents writer.new) (λ front. IsFront front bytes.now)) }
    ensures fault { IfErr result (λ fault. fault ≡ run.OutputFailed) }
{
    let mut rest = bytes;
    while !rest.is_empty() {
        match writer.write(rest) {
            Ok(0) | Err(_) => return Err(RunFault::OutputFailed),
            Ok(n) => rest = &rest[n..],
        }
    }
    Ok(())
}

/// Hands on what a writer may hold back.
pub fn flush<W: Write>(writer: &mut W) -> Result<(), RunFault>
    ensures kept { Keeps (W.contents writer.old) (W.contents writer.new) }
    ensures fault { IfErr result (λ fault. fault ≡ run.OutputFailed) }
{
    match writer.flush() {
        Ok(()) => Ok(()),
        Err(_) => Err(RunFault::OutputFailed),
    }
}
