//! Sessions that are played.

use crate::typed::printed::printed;
use crate::typed::terminal::Terminal;
use program::{Terminals, perform};
use std::alloc::AllocGlobal;
use std::rt::{Clock, Files};
use std::sync::Wait;
use std::thread::Threads;
use std::{fs, io};

/// What begins a line that is a command.
const COMMAND: &str = "$ ";
/// What asks for the exit status, after a command.
const STATUS: &str = "; echo $?";
/// What begins a line that is typed while a command runs.
const TYPED: &str = "nvmesgl> ";

/// Prints the lines of a file, and below each command what it prints.
pub(crate) fn play_session<R: AllocGlobal + Clock + Eprint + Files + Print + Sync + Threads + Wait>(
    rt: &R,
    file: &str,
) -> io::Result<()> {
    let text = fs::read_to_string(rt, file)?;
    let mut command = None;
    let mut typed = String::new(rt.alloc());
    for line in text.lines() {
        if let Some(line) = line.strip_prefix(TYPED) {
            typed.push_str(line)?;
            typed.push('\n')?;
            continue;
        }
        play(rt, command, typed.as_str())?;
        typed.clear();
        println!(rt; "{line}")?;
        command = line.strip_prefix(COMMAND);
    }
    play(rt, command, typed.as_str())
}

/// Does what a command says, if there is one, and prints its exit status where that is asked for.
fn play<R: AllocGlobal + Clock + Eprint + Files + Print + Sync + Threads + Wait>(
    rt: &R,
    command: Option<&str>,
    typed: &str,
) -> io::Result<()> {
    let Some(command) = command else {
        return Ok(());
    };
    let bare = command.strip_suffix(STATUS);
    let status = status_of(rt, bare.unwrap_or(command), typed)?;
    match bare {
        Some(_) => println!(rt; "{status}"),
        None => Ok(()),
    }
}

/// Does what a command says while lines are typed, and tells its exit status.
///
/// - `.. | nvmesgl ..`: runs the program over what another command prints.
/// - `.. > FILE`: writes what another command prints into a file.
/// - `cat FILE`: prints a file.
/// - `nvmesgl .. < FILE`: runs the program over a file.
/// - `nvmesgl ..`: runs it over the lines that are typed below the command.
fn status_of<R: AllocGlobal + Clock + Eprint + Files + Print + Sync + Threads + Wait>(
    rt: &R,
    command: &str,
    typed: &str,
) -> io::Result<u8> {
    if let Some((before, behind)) = command.rsplit_once("' | ") {
        let text = printed(rt.alloc(), before)?;
        return run(rt, behind, &mut text.as_slice(), false);
    }
    if let Some((before, file)) = command.rsplit_once("' > ") {
        let text = printed(rt.alloc(), before)?;
        fs::write(rt, file, text.as_slice())?;
        return Ok(0);
    }
    if let Some(file) = command.strip_prefix("cat ") {
        let text = fs::read_to_string(rt, file)?;
        print!(rt; "{text}")?;
        return Ok(0);
    }
    match command.split_once(" < ") {
        Some((words, file)) => {
            let text = fs::read(rt, file)?;
            run(rt, words, &mut text.as_slice(), false)
        }
        None => run(rt, command, &mut Terminal { rt, rest: typed }, true),
    }
}

/// Runs the program over a reader, and tells its exit status.
fn run<R: AllocGlobal + Clock + Eprint + Files + Print + Sync + Threads + Wait, I: io::Read>(
    rt: &R,
    command: &str,
    reader: &mut I,
    is_terminal: bool,
) -> io::Result<u8> {
    let words: Vec<&str> = command.split_ascii_whitespace().collect(rt.alloc())?;
    if words.first() != Some(&"nvmesgl") {
        return Err(io::Error::from(io::ErrorKind::InvalidInput));
    }
    let mut writer = io::writer(rt);
    // What a load says while it runs is different each time: standard error is not a terminal here.
    let terminals = Terminals {
        input: is_terminal,
        ..Terminals::NONE
    };
    match perform(rt, words.as_slice(), reader, &mut writer, terminals) {
        Ok(()) => Ok(0),
        Err(told) => {
            print!(rt; "{told}")?;
            Ok(told.fault.exit_status())
        }
    }
}
