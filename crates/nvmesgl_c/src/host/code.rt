//! The code of each answer.

ghost use Rattle.std.specs.Prelude.{◌≡◌};
ghost use Rattle.nvmesgl_c.specs.HostCodes as codes;

use crate::words::code::{DONE, NO_VALUE, code_of_fill_fault, code_of_refusal};
use host_bench::Reply;

/// No queue of this number is there.
pub(crate) const NO_QUEUE: u32 = 10;
/// No byte is to be moved, or more than 4,096 are.
pub(crate) const BAD_LENGTH: u32 = 53;
/// A byte is outside the pool, or on a page that is out.
pub(crate) const PAGE_OUT: u32 = 54;
/// No such command is outstanding, or it has no such data piece.
pub(crate) const NO_PIECE: u32 = 55;

/// The code of what a call answered.
pub(crate) fn code_of_answer(reply: &Reply) -> u32
    ensures { result ≡ codes.code_of_answer reply.now }
{
    match reply {
        Reply::Refused(why) => code_of_refusal(*why),
        Reply::NoValue => NO_VALUE,
        Reply::NotFilled(why) => code_of_fill_fault(*why),
        _ => DONE,
    }
}

/// The code of what a call answered, or of the handle that it was made on.
pub(crate) fn code_of_reply(reply: &Result<Reply, u32>) -> u32
    ensures { result ≡ codes.code_of_reply reply.now }
{
    match reply {
        Ok(reply) => code_of_answer(reply),
        Err(code) => *code,
    }
}
