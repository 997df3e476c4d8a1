//! The rules for descriptors, each with the value that breaks it.

use crate::explain::list::Taken;
use controller_walk::FaultCause;
use sgl_descriptor::Descriptor;
use std::alloc::AllocError;
use texts::traces::{subtype_name, type_name, type_of};

/// The highest type of a descriptor that is known, Last Segment.
const LAST_TYPE: u8 = 3;

/// Puts what is not known of a descriptor's type.
fn put_type(out: &mut String, bytes: &[u8; 16]) -> Result<(), AllocError> {
    let (kind, subtype) = type_of(bytes);
    if kind > LAST_TYPE {
        let name = type_name(kind);
        return write!(
            out,
            "its type is {kind:X}h, {name}: 0h to 3h are known here"
        );
    }
    let name = subtype_name(subtype);
    write!(out, "its subtype is {subtype:X}h, {name}: 0h is known here")
}

/// Puts what makes a link malformed.
fn put_malformed(out: &mut String, addr: u64, len: u32) -> Result<(), AllocError> {
    if len == 0 {
        out.push_str("it is a link whose length is 0")
    } else if len % 16 != 0 {
        write!(out, "it is a link whose length is {len}, no multiple of 16")
    } else {
        write!(
            out,
            "it is a link whose address is {addr:X}h, no multiple of 8"
        )
    }
}

/// Puts the rule that the descriptor that was taken last breaks, with its value where the rule has one.
pub(crate) fn put_cause(
    out: &mut String,
    cause: FaultCause,
    last: Option<&Taken>,
) -> Result<(), AllocError> {
    match (cause, last) {
        (FaultCause::UnknownType, Some(taken)) => put_type(out, &taken.bytes),
        (FaultCause::MalformedLink, Some(taken)) => match Descriptor::read(&taken.bytes) {
            Ok(Descriptor::Segment { addr, len } | Descriptor::LastSegment { addr, len }) => {
                put_malformed(out, addr, len)
            }
            _ => write!(out, "{cause}"),
        },
        _ => write!(out, "{cause}"),
    }
}
