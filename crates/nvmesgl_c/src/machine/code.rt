//! The code of each answer.

ghost use Rattle.std.specs.Prelude.{◌≡◌};
ghost use Rattle.nvmesgl_c.specs.MachineCodes as codes;

use crate::words::code::{DONE, NO_VALUE, code_of_fill_fault, code_of_refusal};
use step_core::Reply;

/// The code of what a step answered.
pub(crate) fn code_of_answer(reply: &Reply) -> u32
    ensures { result ≡ codes.code_of_answer reply.now }
{
    match reply {
        Reply::Refused { why, .. } => code_of_refusal(*why),
        Reply::NoValue => NO_VALUE,
        Reply::NotFilled(why) => code_of_fill_fault(*why),
        _ => DONE,
    }
}

/// The code of what a step answered, or of the handle that it was made on.
pub(crate) fn code_of_reply(reply: &Result<Reply, u32>) -> u32
    ensures { result ≡ codes.code_of_reply reply.now }
{
    match reply {
        Ok(reply) => code_of_answer(reply),
        Err(code) => *code,
    }
}
