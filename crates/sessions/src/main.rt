//! Plays files: sessions, cases and scripts, each by the ending of its name.
//!
//! - `.session`: commands of `nvmesgl` as somebody types them. Each line is printed again, and below a command what it prints.
//! - `.case`: the lines of a case of `nvmesgl explain`, with what is printed for it. It is also cut after each of its bytes.
//! - `.transcript`: a script with its answers. It is played on a bench, through a book and under a lock, and once for each refused growth of memory.
//!
//! The word `lines` reads a hundred thousand arbitrary lines as lines of a case, `sum` prints how much was played of scripts since the last `sum`,
//! and `growths` refuses each growth of a draft that visits another book, and of a run of threads. What must be printed is in `stdout`.
#![tactic(auto)]

mod cases;
mod typed;

use cases::{play_case, play_lines};
use session_scripts::{Scores, play_script, print_sum, refuse_growths};
use std::alloc::AllocGlobal;
use std::env::Env;
use std::io;
use std::process::ExitCode;
use std::rt::{Clock, Files};
use std::sync::Wait;
use std::thread::Threads;

fn main(rt: HostRuntime) -> ExitCode {
    match start(&rt) {
        Ok(true) => ExitCode::SUCCESS,
        Ok(false) | Err(_) => ExitCode::FAILURE,
    }
}

/// Plays what the words of the command line name. False where something is not as its file says, which is told then.
fn start<R: AllocGlobal + Clock + Env + Eprint + Files + Print + Sync + Threads + Wait>(
    rt: &R,
) -> io::Result<bool> {
    let words: Vec<String> = std::env::args(rt)?.collect(rt.alloc())?;
    let mut sum = Scores::NONE;
    let mut good = true;
    for word in words.iter().skip(1) {
        if !play(rt, word.as_str(), &mut sum)? {
            good = false;
        }
    }
    Ok(good)
}

/// Plays what a word names.
fn play<R: AllocGlobal + Clock + Eprint + Files + Print + Sync + Threads + Wait>(
    rt: &R,
    word: &str,
    sum: &mut Scores,
) -> io::Result<bool> {
    if word == "lines" {
        play_lines(rt)?;
        return Ok(true);
    }
    if word == "growths" {
        return refuse_growths(rt);
    }
    if word == "sum" {
        print_sum(rt, *sum)?;
        *sum = Scores::NONE;
        return Ok(true);
    }
    if word.ends_with(".case") {
        return play_case(rt, word);
    }
    if word.ends_with(".transcript") {
        return play_script(rt, word, sum);
    }
    typed::play_session(rt, word)?;
    Ok(true)
}
