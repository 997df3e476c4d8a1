//! A new book, and what is played at a desk with it.

ghost use Rattle.std.specs.Prelude.{◌≡◌};
ghost use Rattle.step_core.specs.Opening.{opening_of};

use block_image::Image;
use driver_book::{BlankBook, Book, FullLogBrand, LogBrand};
use script_cli::transcripts::{play, read_transcript};
use session_scripts::desk::Desk;
use std::alloc::Allocator;
use std::process::Abort;
use std::sync::Wait;
use step_core::Config;

/// The pool of most runs.
pub(crate) const USUAL: Config = Config {
    pages: 16,
    queues: 1,
    entries: 4,
    segment: 256,
};

/// 8 pages that no queue owns, of which a command of the tests takes up to 4, and 3 identifiers.
pub(crate) const SMALL: Config = Config {
    pages: 12,
    queues: 1,
    entries: 4,
    segment: 256,
};

/// Plays a transcript, as it says.
pub(crate) fn play_text<L: FullLogBrand, R: Abort + Wait, A: Allocator + Copy>(
    rt: &R,
    desk: &mut Desk<'_, L, R, A>,
    text: &str,
) {
    let Ok(transcript) = read_transcript(desk.alloc, text) else {
        panic!(rt; "it is no transcript");
    };
    match play(desk.alloc, desk, &transcript) {
        Ok(None) => {}
        Ok(Some(difference)) => panic!(rt; "{difference}"),
        Err(_) => panic!(rt; "memory is wanting"),
    }
}

/// A new book.
pub(crate) fn opened<L: LogBrand, A: Allocator + Copy, R: Abort>(
    rt: &R,
    alloc: A,
    config: Config,
    image: Image<A>,
    blank: BlankBook<A>,
) -> Book<L, A>
    requires name { blank.ledger.name ≡ L.name }
    requires parts { blank.ledger.parts ≡ L.parts }
    requires number { blank.ledger.parts ≡ 65536 }
    requires list { blank.drafts.name ≡ L.list }
    requires opening { L.opening ≡ opening_of config image }
{
    match Book::<L, A>::open(alloc, config, image, blank) {
        Ok(book) => book,
        Err(_) => panic!(rt; "it was not opened"),
    }
}
