//! The bytes of data pieces in their pages.

ghost use Rattle.std.specs.Prelude.{◌≡◌, ◌<◌, ◌≤◌, ◌+◌, ◌-◌, ◌++◌, length, take, drop, replicate, sum_by, vec_len, OnOk, OnErr, false};
ghost use Rattle.std.specs.Vec.{vec_capacity};
ghost use Rattle.std.specs.List.{list_any};
ghost use Rattle.std.specs.Str.{bytes_eq};
ghost use Rattle.page_memory.specs.Pages.{with_bytes};
ghost use Rattle.io_commands.specs.Requests.{crosses_page, data_count};
ghost use Rattle.io_commands.specs.DataBytes.{data_length, filled, gathered};

use crate::request::Piece;
use page_memory::{PAGE_BYTES, Page};
use std::alloc::{AllocError, Allocator};

/// `count` zeros, at most as many as a page has.
fn zeros(count: usize) -> &'static [u8]
    requires { count ≤ 4096 }
    ensures { result.now ≡ replicate count 0 }
{
    static ZEROS: [u8; PAGE_BYTES] = [0; PAGE_BYTES];
    &ZEROS[..count]
}

/// The first of the bytes, as many as there are up to a length, and the others.
fn split_within(bytes: &[u8], len: usize) -> (&[u8], &[u8])
    ensures first { result.0.now ≡ take len bytes.now }
    ensures others { result.1.now ≡ drop len bytes.now }
    ensures count { length result.1.now ≡ length bytes.now - len }
{
    match bytes.split_at_checked(len) {
        Some(parts) => parts,
        None => (bytes, &[]),
    }
}

/// Puts bytes into a page from an offset on, and zeros after them up to a length.
#[tactic(auto, using(crate::proofs::Padding::written_behind))]
fn put_padded<A: Allocator>(page: &mut Page<A>, offset: usize, len: usize, bytes: &[u8])
    requires inside { offset + len ≤ 4096 }
    requires room { length bytes.now ≤ len }
    ensures { page.new ≡ (page.old.0, with_bytes page.old.1 offset (bytes.now ++ replicate (len - length bytes.now) 0)) }
{
    page.set(offset, bytes);
    page.set(offset + bytes.len(), zeros(len - bytes.len()));
}

/// Puts bytes into the data pieces, one piece after the other, and zeros after them.
pub(crate) fn fill<A: Allocator>(pieces: &[Piece], pages: &mut [Page<A>], bytes: &[u8])
    requires inside { list_any crosses_page pieces.now ≡ false }
    requires enough { data_count pieces.now ≤ length pages.old }
    requires length { length bytes.now ≤ sum_by data_length pieces.now }
    ensures { pages.new ≡ filled pieces.now pages.old (bytes.now ++ replicate (sum_by data_length pieces.now - length bytes.now) 0) }
{
    let Some((piece, others)) = pieces.split_first() else {
        return;
    };
    match *piece {
        Piece::Bucket { .. } => fill(others, pages, bytes),
        Piece::Data { offset, len } => {
            if let Some((page, behind)) = pages.split_first_mut() {
                let (here, rest) = split_within(bytes, len as usize);
                put_padded(page, offset as usize, len as usize, here);
                fill(others, behind, rest);
            }
        }
    }
}

/// Puts bytes into the data pieces of the first pages, and zeros after them.
pub(crate) fn fill_first<A: Allocator>(
    pieces: &[Piece],
    pages: &mut Vec<Page<A>, A>,
    count: usize,
    bytes: &[u8],
)
    requires inside { list_any crosses_page pieces.now ≡ false }
    requires enough { data_count pieces.now ≤ count }
    requires there { count ≤ length pages.old.items }
    requires length { length bytes.now ≤ sum_by data_length pieces.now }
    ensures { pages.new.items ≡ filled pieces.now (take count pages.old.items) (bytes.now ++ replicate (sum_by data_length pieces.now - length bytes.now) 0) ++ drop count pages.old.items }
{
    let (front, _) = pages.as_mut_slice().split_at_mut(count);
    fill(pieces, front, bytes);
}

/// Appends the bytes of the data pieces, one piece after the other.
pub(crate) fn push_data<A: Allocator, B: Allocator>(
    pieces: &[Piece],
    pages: &[Page<A>],
    out: &mut Vec<u8, B>,
) -> Result<(), AllocError>
    requires inside { list_any crosses_page pieces.now ≡ false }
    requires enough { data_count pieces.now ≤ length pages.now }
    ensures gathered { OnOk result (out.new.items ≡ out.old.items ++ gathered pieces.now pages.now) }
    ensures full { OnErr result (vec_capacity out.old < vec_len out.old + sum_by data_length pieces.now) }
{
    let Some((piece, others)) = pieces.split_first() else {
        return Ok(());
    };
    match *piece {
        Piece::Bucket { .. } => push_data(others, pages, out),
        Piece::Data { offset, len } => {
            let Some((page, behind)) = pages.split_first() else {
                return Ok(());
            };
            let start = offset as usize;
            out.extend_from_slice(&page.bytes()[start..start + len as usize])?;
            push_data(others, behind, out)
        }
    }
}

/// Lays the bytes of the data pieces at the start of others, one piece after the other.
pub(crate) fn lay<A: Allocator>(pieces: &[Piece], pages: &[Page<A>], into: &mut [u8])
    requires inside { list_any crosses_page pieces.now ≡ false }
    requires enough { data_count pieces.now ≤ length pages.now }
    requires room { sum_by data_length pieces.now ≤ length into.old }
    ensures { into.new ≡ gathered pieces.now pages.now ++ drop (sum_by data_length pieces.now) into.old }
{
    let Some((piece, others)) = pieces.split_first() else {
        return;
    };
    match *piece {
        Piece::Bucket { .. } => lay(others, pages, into),
        Piece::Data { offset, len } => {
            if let Some((page, behind)) = pages.split_first() {
                let start = offset as usize;
                let here = &page.bytes()[start..start + len as usize];
                let (front, rest) = into.split_at_mut(here.len());
                front.copy_from_slice(here);
                lay(others, behind, rest);
            }
        }
    }
}

/// Whether bytes are those of the data pieces, one piece after the other. It copies none.
#[tactic(auto, using(crate::proofs::Comparing::parts_equal, crate::proofs::Comparing::shorter_differs))]
pub(crate) fn holds<A: Allocator>(pieces: &[Piece], pages: &[Page<A>], bytes: &[u8]) -> bool
    requires inside { list_any crosses_page pieces.now ≡ false }
    requires enough { data_count pieces.now ≤ length pages.now }
    ensures { result ≡ bytes_eq (gathered pieces.now pages.now) bytes.now }
{
    let Some((piece, others)) = pieces.split_first() else {
        return bytes.is_empty();
    };
    match *piece {
        Piece::Bucket { .. } => holds(others, pages, bytes),
        Piece::Data { offset, len } => {
            let Some((page, behind)) = pages.split_first() else {
                return bytes.is_empty();
            };
            let from = offset as usize;
            let here = &page.bytes()[from..from + len as usize];
            match bytes.split_at_checked(here.len()) {
                Some((first, rest)) => here == first && holds(others, behind, rest),
                None => false,
            }
        }
    }
}
