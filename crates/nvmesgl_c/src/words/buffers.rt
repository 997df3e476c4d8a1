//! Bytes that lie in several buffers of C's, one after the other.

ghost use Rattle.std.specs.Prelude.{◌≡◌, ◌<◌, ◌≤◌, ◌^◌, IfNone, IfOk, IfSome, length, min};
ghost use Rattle.nvmesgl_c.specs.Buffers.{LaidIn, filled, joined, joined_buffers, lengths_of, places_of};

use crate::words::request::MOST_MOVED;
use std::alloc::{AllocError, Global};

/// Bytes of C's that are read.
#[repr(C)]
#[derive(Clone, Copy)]
pub struct CBytes<'a> {
    /// The bytes.
    pub bytes: &'a [u8],
}

/// Bytes of C's that are written.
#[repr(C)]
pub struct CBuffer<'a> {
    /// The bytes.
    pub bytes: &'a mut [u8],
}

/// How many bytes there are to read, or this many where there are more.
fn bytes_up_to(sources: &[CBytes<'_>], most: usize) -> usize
    requires { most < 2 ^ 63 }
    ensures { result ≡ min (length (joined sources.now)) most }
{
    let mut count = 0;
    for source in sources {
        count = (count + source.bytes.len().min(most)).min(most);
    }
    count
}

/// How many bytes there is room for, or this many where there is more.
fn room_up_to(buffers: &[CBuffer<'_>], most: usize) -> usize
    requires { most < 2 ^ 63 }
    ensures { result ≡ min (length (joined_buffers buffers.now)) most }
{
    let mut room = 0;
    for buffer in buffers {
        room = (room + buffer.bytes.len().min(most)).min(most);
    }
    room
}

/// How many bytes there are to read; none where they are more than a command moves.
pub fn count_of(sources: &[CBytes<'_>]) -> Option<usize>
    ensures count { IfSome result (λ count. count ≡ length (joined sources.now)) }
    ensures few { IfSome result (λ count. count ≤ 1048576) }
    ensures many { IfNone result (1048576 < length (joined sources.now)) }
{
    let count = bytes_up_to(sources, MOST_MOVED + 1);
    if count > MOST_MOVED {
        None
    } else {
        Some(count)
    }
}

/// How many bytes there is room for; none where it is more than a command moves.
pub fn room_of(buffers: &[CBuffer<'_>]) -> Option<usize>
    ensures room { IfSome result (λ room. room ≡ length (joined_buffers buffers.now)) }
    ensures few { IfSome result (λ room. room ≤ 1048576) }
    ensures much { IfNone result (1048576 < length (joined_buffers buffers.now)) }
{
    let room = room_up_to(buffers, MOST_MOVED + 1);
    if room > MOST_MOVED { None } else { Some(room) }
}

/// A copy of the bytes, of which there are this many.
///
/// # Errors
///
/// Where memory is refused.
pub fn copy_of(alloc: Global, sources: &[CBytes<'_>], count: usize) -> Result<Vec<u8>, AllocError>
    ensures { IfOk result (λ copied. copied.items ≡ joined sources.now) }
{
    let mut copied = Vec::with_capacity(alloc, count)?;
    for source in sources {
        copied.extend_from_slice(source.bytes)?;
    }
    Ok(copied)
}

/// Lays bytes into the start of others, as many as fit: how many those are.
fn fill(into: &mut [u8], bytes: &[u8]) -> usize
    ensures count { result ≡ min (length into.old) (length bytes.now) }
    ensures filled { into.new ≡ filled bytes.now into.old }
{
    let count = into.len().min(bytes.len());
    into[..count].copy_from_slice(&bytes[..count]);
    count
}

/// Lays bytes into the start of a buffer, as many as fit: how many those are.
fn fill_buffer(buffer: &mut CBuffer<'_>, bytes: &[u8]) -> usize
    ensures place { buffer.new.bytes.ghost_name ≡ buffer.old.bytes.ghost_name }
    ensures count { result ≡ min (length buffer.old.bytes.now) (length bytes.now) }
    ensures filled { buffer.new.bytes.now ≡ filled bytes.now buffer.old.bytes.now }
{
    fill(buffer.bytes, bytes)
}

/// Lays bytes into buffers, one after the other, as many as fit.
fn scatter(bytes: &[u8], buffers: &mut [CBuffer<'_>])
    ensures places { places_of buffers.new ≡ places_of buffers.old }
    ensures lengths { lengths_of buffers.new ≡ lengths_of buffers.old }
    ensures filled { joined_buffers buffers.new ≡ filled bytes.now (joined_buffers buffers.old) }
{
    let mut rest = bytes;
    for place in 0..buffers.len() {
        let count = fill_buffer(&mut buffers[place], rest);
        rest = &rest[count..];
    }
}

/// Lays bytes at the start of a buffer, where there is room for all: whether there is.
pub fn lay_in(bytes: &[u8], buffer: &mut [u8]) -> bool
    ensures { LaidIn bytes.now result buffer.old buffer.new }
{
    if buffer.len() < bytes.len() {
        return false;
    }
    buffer[..bytes.len()].copy_from_slice(bytes);
    true
}

/// Lays bytes into buffers, one after the other, where there is room for all: whether there is.
pub fn lay(bytes: &[u8], buffers: &mut [CBuffer<'_>]) -> bool
    ensures laid { LaidIn bytes.now result (joined_buffers buffers.old) (joined_buffers buffers.new) }
    ensures lengths { lengths_of buffers.new ≡ lengths_of buffers.old }
    ensures places { places_of buffers.new ≡ places_of buffers.old }
{
    if room_up_to(buffers, bytes.len()) < bytes.len() {
        return false;
    }
    scatter(bytes, buffers);
    true
}
