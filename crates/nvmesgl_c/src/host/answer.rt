//! What C is told of a reply besides its code.

ghost use Rattle.std.specs.Prelude.{◌≡◌};
ghost use Rattle.nvmesgl_c.specs.HostAnswers as answers;

use crate::words::{Answer, collected, nothing, reaped, refused};
use host_bench::{Doorbell, Reply};

/// A value for a doorbell register, where there is one.
#[repr(C)]
#[derive(Clone, Copy)]
pub struct CDoorbell {
    /// The offset of the register in bytes, where doorbells lie 4 bytes apart, or 0.
    pub offset: u32,
    /// The value to write there, or 0.
    pub value: u32,
    /// Whether there is one.
    pub rings: bool,
    /// Zeros.
    pub reserved: [u32; 4],
}

/// What a reply tells.
pub(crate) fn told_of(reply: &Reply) -> Answer
    ensures { result ≡ answers.told_of reply.now }
{
    match reply {
        Reply::Reserved {
            q: _,
            cid,
            data,
            chain,
        } => Answer {
            cid: *cid,
            data_pages: *data,
            chain_pages: *chain,
            ..nothing()
        },
        Reply::Reaps { found, bell: _ } => reaped(*found),
        Reply::Collected { status, hints } => collected(*status, *hints),
        Reply::Gathered(bytes) => Answer {
            bytes: bytes.as_slice().len(),
            ..nothing()
        },
        Reply::Sent { cid } => Answer {
            cid: *cid,
            ..nothing()
        },
        Reply::Refused(why) => refused(*why, &[]),
        Reply::Accepted | Reply::Rung(_) | Reply::NoValue | Reply::NotFilled(_) => nothing(),
    }
}

/// What a call tells, of a handle that was open or not.
pub(crate) fn told(reply: &Result<Reply, u32>) -> Answer
    ensures { result ≡ answers.told reply.now }
{
    match reply {
        Ok(reply) => told_of(reply),
        Err(_) => nothing(),
    }
}

/// A doorbell, as C sees it.
pub(crate) fn shown_bell(bell: Option<Doorbell>) -> CDoorbell
    ensures { result ≡ answers.shown_bell bell }
{
    let (offset, value, rings) = match bell {
        Some(bell) => (bell.offset, bell.value, true),
        None => (0, 0, false),
    };
    CDoorbell {
        offset,
        value,
        rings,
        reserved: [0; 4],
    }
}

/// The doorbell that a reply tells.
pub(crate) fn bell_in(reply: &Reply) -> CDoorbell
    ensures { result ≡ answers.bell_in reply.now }
{
    match reply {
        Reply::Rung(bell) => shown_bell(Some(*bell)),
        Reply::Reaps { found: _, bell } => shown_bell(*bell),
        _ => shown_bell(None),
    }
}

/// The doorbell that a call tells, of a handle that was open or not.
pub(crate) fn bell_of(reply: &Result<Reply, u32>) -> CDoorbell
    ensures { result ≡ answers.bell_of reply.now }
{
    match reply {
        Ok(reply) => bell_in(reply),
        Err(_) => shown_bell(None),
    }
}
