//! The texts of refusals.

use crate::expecting::same;
use block_image::{Image, ImageError};
use page_ledger::NoPages;
use sgl_descriptor::TypeInvalid;
use std::alloc::Global;
use std::fmt::Display;
use std::process::Abort;

/// Sees the text of a refusal.
fn see_text(rt: &impl Abort, alloc: Global, refusal: impl Display + Drop, wanted: &'static str) {
    let text = format!(in alloc; "{refusal}").expect(rt, "its text");
    same(rt, text.as_str(), wanted);
}

#[test]
fn refusals_have_their_texts(rt: HostRuntime) {
    let alloc = rt.alloc();
    let invalid = "the SGL descriptor's type is above 3, or its subtype is not 0";
    see_text(&rt, alloc, TypeInvalid, invalid);
    let no_pages = NoPages { need: 4, free: 3 };
    see_text(&rt, alloc, no_pages, "4 pages are needed, and 3 are free");
    let no_image = Image::from_bytes(Vec::new(alloc)).expect_err(&rt, "no byte");
    see_text(
        &rt,
        alloc,
        no_image,
        "an image is 1 to 65536 blocks of 512 bytes",
    );
    let bad_length = "an image has 1 to 65536 blocks";
    see_text(&rt, alloc, ImageError::BadLength, bad_length);
    see_text(&rt, alloc, ImageError::Memory, "out of memory");
}
