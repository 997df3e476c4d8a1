//! A draft of one book is handed to another one, which refuses it, and then to its own.

ghost use Rattle.std.specs.Prelude.{◌≡◌};
ghost use Rattle.step_core.specs.Opening.{opening_of};

use crate::desk::{Access, Desk, Value};
use crate::scripts::book::{opened, seated};
use crate::scripts::fault::Wrong;
use crate::scripts::refused::{End, Run, play_refused};
use crate::scripts::standing::{DeskIn, Heap, Stands};
use driver_book::{BlankBook, Full, FullLogBrand, LogBrand};
use script_cli::transcripts::{Options, read_transcript};
use std::alloc::Global;
use std::marker::Brand;
use std::mem;
use std::sync::Wait;
use step_core::{Config, Image};

/// A draft is built at its own book. This is the script that is played; the others follow it.
pub const BUILT: &str = "reserve 1 read 0 1 0+512
> reserve q 1 cid 0 data 1 chain 0
build 1 0
> build ok
> counts free 11 queue 4 chain 0 data 1
";

/// Another book refuses it.
const STRANGER: &str = "submit 1 0
> submit refused Stranger
> counts free 12 queue 4 chain 0 data 0
";

/// Its own book takes it.
const SUBMITTED: &str = "submit 1 0
> submit ok
> counts free 11 queue 4 chain 0 data 1
";

/// Plays a text with one of the growths to come refused.
fn play_text<M: Stands, R: Eprint>(
    rt: &R,
    alloc: Global,
    maker: &mut M,
    run: Run<'_>,
    text: &str,
    left: u64,
) -> Result<End, Wrong> {
    match read_transcript(alloc, text) {
        Ok(read) => {
            let transcript = &read;
            play_refused(rt, alloc, maker, Run { transcript, ..run }, left)
        }
        Err(fault) => Err(Wrong::Transcript(fault)),
    }
}

/// Opens the other book, and hands it the draft, which then comes back. It answers how many growths are left.
fn play_away<'h, M: LogBrand, R: Eprint + Wait>(
    rt: &'h R,
    alloc: Global,
    heap: &'h Heap,
    config: Config,
    image: Image<&'h Heap>,
    blank: BlankBook<&'h Heap>,
    values: &mut Vec<Value<&'h Heap>>,
    run: Run<'_>,
    left: u64,
) -> Result<End, Wrong>
    requires name { blank.ledger.name ≡ M.name }
    requires parts { blank.ledger.parts ≡ M.parts }
    requires number { blank.ledger.parts ≡ 65536 }
    requires list { blank.drafts.name ≡ M.list }
    requires opening { M.opening ≡ opening_of config image }
{
    let book = opened::<Full<M>, &'h Heap>(heap, config, image, blank)?;
    let mut away = Desk::new(rt, alloc, heap, Access::Book(book));
    mem::swap(&mut away.values, values);
    let played = match seated(&mut away) {
        Ok(()) => play_text(rt, alloc, &mut away, run, STRANGER, left),
        Err(wrong) => Err(wrong),
    };
    mem::swap(&mut away.values, values);
    away.end();
    played
}

/// A draft is built at home, handed to another book and back, and submitted.
pub fn visit<'h, L: FullLogBrand, R: Eprint + Wait>(
    rt: &'h R,
    home: &mut DeskIn<'h, L, R>,
    run: Run<'_>,
    left: u64,
) -> Result<End, Wrong> {
    let (alloc, heap) = (home.alloc, home.heap);
    let Options { config, blocks } = run.transcript.options();
    seated(home)?;
    let left = play_refused(rt, alloc, home, run, left)?.left;
    let Ok(image) = Image::zeroed(heap, blocks) else {
        return Err(Wrong::Memory);
    };
    let (blank, values) = (BlankBook::new(), &mut home.values);
    let end = play_away::<Brand, R>(rt, alloc, heap, config, image, blank, values, run, left)?;
    play_text(rt, alloc, home, run, SUBMITTED, end.left)
}
