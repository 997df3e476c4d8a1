//! Scripts with their answers, played in each way.
//!
//! Each is played on a bench, through a book and under a lock, and answers each time as it says. Then it is played once for each growth of memory
//! that it has on a bench, and that it has through a book from the opening to the end, which is refused; and once on a bench with no memory for the
//! calls that take none. The first difference is told, and the file and the line where it is.

mod book;
mod fault;
mod player;
mod refused;
mod report;
mod standing;
mod threads;
mod visit;

use fault::{PlayFault, Way, Wrong};
use player::{play_run, refuse_each};
use refused::{End, Run};
use report::print_line;
pub use report::{Scores, print_sum};
use script_cli::transcripts::{Transcript, read_transcript};
use standing::Standing;
use std::alloc::AllocGlobal;
use std::rt::Files;
use std::sync::Wait;
use std::thread::Threads;
use std::{fs, io};
use threads::refuse_each_in_threads;

/// At most this many growths of a run of threads are told: how many there are depends on which commands are outstanding at one time, as a host keeps
/// the lists of those that are over.
const MOST_TOLD: u64 = 100;

/// Plays the transcript of a file in each way, prints its line and counts it. Where it is not as it says, that is told, and the answer is false.
pub fn play_script<R: AllocGlobal + Eprint + Files + Print + Wait>(
    rt: &R,
    file: &str,
    sum: &mut Scores,
) -> io::Result<bool> {
    let played = match read_file(rt, file) {
        Ok(transcript) => play_each_way(rt, &transcript),
        Err(wrong) => Err(PlayFault {
            way: Way::Unplayed,
            growth: 0,
            wrong,
        }),
    };
    match played {
        Ok((scores, standing)) => {
            print_line(rt, file, scores, &standing)?;
            sum.add(scores);
            Ok(true)
        }
        Err(fault) => {
            eprintln!(rt; "{file}: {fault}")?;
            Ok(false)
        }
    }
}

/// Reads the transcript of a file.
fn read_file<R: AllocGlobal + Files>(rt: &R, file: &str) -> Result<Transcript, Wrong> {
    let Ok(text) = fs::read_to_string(rt, file) else {
        return Err(Wrong::Unreadable);
    };
    match read_transcript(rt.alloc(), &text) {
        Ok(transcript) => Ok(transcript),
        Err(fault) => Err(Wrong::Transcript(fault)),
    }
}

/// Plays a transcript on a bench and through a book, which leave the pages alike, and then again. It answers how much was played, and how the book
/// stood at the end.
fn play_each_way<R: AllocGlobal + Eprint + Wait>(
    rt: &R,
    transcript: &Transcript,
) -> Result<(Scores, Standing), PlayFault> {
    let run = Run {
        way: Way::Bench,
        growth: 0,
        transcript,
        wanted: None,
    };
    let way = Way::Book;
    let on_bench = play_run(rt, run)?;
    let through_book = play_run(rt, Run { way, ..run })?;
    let (book, bench) = (&through_book.standing, &on_bench.standing);
    if book.owners.as_slice() != bench.owners.as_slice() || book.counts != bench.counts {
        return Err(PlayFault {
            way,
            growth: 0,
            wrong: Wrong::Standing,
        });
    }
    let scores = play_again(rt, run, &on_bench, &through_book)?;
    Ok((scores, through_book.standing))
}

/// Plays a transcript under a lock, and with its growths refused, which must leave what it left before. It answers how much was played.
fn play_again<'t, R: AllocGlobal + Eprint + Wait>(
    rt: &R,
    run: Run<'t>,
    on_bench: &'t End,
    through_book: &'t End,
) -> Result<Scores, PlayFault> {
    let on_bench = Run {
        wanted: Some(on_bench),
        ..run
    };
    let through_book = Run {
        way: Way::Book,
        wanted: Some(through_book),
        ..run
    };
    let way = Way::Lock;
    play_run(
        rt,
        Run {
            way,
            ..through_book
        },
    )?;
    let way = Way::WithoutMemory;
    Ok(Scores {
        scripts: 1,
        on_bench: refuse_each(rt, on_bench)?,
        through_book: refuse_each(rt, through_book)?,
        without_memory: play_run(rt, Run { way, ..on_bench })?.without_memory,
    })
}

/// Refuses each growth of a draft that visits another book, and of two submitters with a poller and a controller in threads, and prints how many
/// there are.
pub fn refuse_growths<R: AllocGlobal + Eprint + Print + Sync + Threads + Wait>(
    rt: &R,
) -> io::Result<bool> {
    match each_growth(rt) {
        Ok((visit, threads)) => {
            let told = threads.min(MOST_TOLD);
            println!(rt;
                "{told} growths or more refused in a run of threads, {visit} of a draft at another book"
            )?;
            Ok(true)
        }
        Err(fault) => {
            eprintln!(rt; "{fault}")?;
            Ok(false)
        }
    }
}

/// How many growths a visit has, and a run of threads. Each was refused.
fn each_growth<R: AllocGlobal + Eprint + Sync + Threads + Wait>(
    rt: &R,
) -> Result<(u64, u64), PlayFault> {
    let (way, growth) = (Way::Visit, 0);
    let transcript = match read_transcript(rt.alloc(), visit::BUILT) {
        Ok(transcript) => transcript,
        Err(fault) => {
            let wrong = Wrong::Transcript(fault);
            return Err(PlayFault { way, growth, wrong });
        }
    };
    let run = Run {
        way,
        growth,
        transcript: &transcript,
        wanted: None,
    };
    Ok((refuse_each(rt, run)?, refuse_each_in_threads(rt)?))
}
