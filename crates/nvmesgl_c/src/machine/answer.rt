//! What C is told of a reply besides its code.

ghost use Rattle.std.specs.Prelude.{◌≡◌};
ghost use Rattle.nvmesgl_c.specs.MachineAnswers as answers;

use crate::words::{Answer, collected, nothing, reaped, refused, touching, walked};
use step_core::Reply;

/// What a reply tells.
pub(crate) fn told_of(reply: &Reply) -> Answer
    ensures { result ≡ answers.told_of reply.now }
{
    match reply {
        Reply::Reserved {
            q: _,
            cid,
            data,
            chain,
        } => Answer {
            cid: *cid,
            data_pages: *data,
            chain_pages: *chain,
            ..nothing()
        },
        Reply::Fetched { cid, touched } => Answer {
            cid: *cid,
            ..touching(touched.pages())
        },
        Reply::Walked { state, touched } => walked(*state, touched.pages()),
        Reply::Completed { touched } => touching(touched.pages()),
        Reply::Reaps(what) => reaped(*what),
        Reply::Collected { status, hints } => collected(*status, *hints),
        Reply::Gathered(bytes) => Answer {
            bytes: bytes.as_slice().len(),
            ..nothing()
        },
        Reply::Sent { cid } => Answer {
            cid: *cid,
            ..nothing()
        },
        Reply::Refused { why, touched } => refused(*why, touched.pages()),
        Reply::Accepted | Reply::NoValue | Reply::NotFilled(_) => nothing(),
    }
}

/// What a step's reply tells, of a handle that was open or not.
pub(crate) fn told(reply: &Result<Reply, u32>) -> Answer
    ensures { result ≡ answers.told reply.now }
{
    match reply {
        Ok(reply) => told_of(reply),
        Err(_) => nothing(),
    }
}
