//! Cases in files.

use entry_codec::Status;
use std::alloc::{AllocError, AllocGlobal};
use std::rt::Files;
use std::{fs, io};
use views::explain::{Layout, explain_text, fault_lines};

/// What begins a line that is printed.
const WANTED: &str = "> ";

/// Parts the lines of a file: those of the case, and those that are to be printed for it.
fn part(text: &str, case: &mut String, wanted: &mut String) -> Result<(), AllocError> {
    for line in text.lines() {
        match line.strip_prefix(WANTED) {
            Some(line) => {
                wanted.push_str(line)?;
                wanted.push('\n')?;
            }
            None => {
                case.push_str(line)?;
                case.push('\n')?;
            }
        }
    }
    Ok(())
}

/// What is printed for a case, also of one that is at fault.
fn printed<R: AllocGlobal + Files>(rt: &R, file: &str, case: &[u8]) -> Result<String, AllocError> {
    let alloc = rt.alloc();
    match explain_text(rt, Some(file), case, Layout::Lines) {
        Ok(answer) => Ok(answer.text),
        Err(fault) => {
            let below = fault_lines(alloc, case, fault)?;
            format!(in alloc; "{fault}\n{below}")
        }
    }
}

/// Cuts a case after each byte, and answers how often what is left is accepted, refused, and at fault.
fn cut<R: AllocGlobal + Files>(rt: &R, file: &str, case: &[u8]) -> (u32, u32, u32) {
    let (mut accepted, mut refused, mut at_fault) = (0u32, 0u32, 0u32);
    for len in 0..case.len() {
        match explain_text(rt, Some(file), &case[..len], Layout::Objects) {
            Ok(answer) if answer.status == Status::SUCCESS => {
                accepted = accepted.saturating_add(1);
            }
            Ok(_) => refused = refused.saturating_add(1),
            Err(_) => at_fault = at_fault.saturating_add(1),
        }
    }
    (accepted, refused, at_fault)
}

/// Plays the case of a file, whole and cut, and prints a line of it; where it does not say what is printed, that too. Then the answer is false.
pub fn play_case<R: AllocGlobal + Files + Print>(rt: &R, file: &str) -> io::Result<bool> {
    let text = fs::read_to_string(rt, file)?;
    let mut case = String::new(rt.alloc());
    let mut wanted = String::new(rt.alloc());
    part(text.as_str(), &mut case, &mut wanted)?;
    let case = case.as_bytes();
    let came = printed(rt, file, case)?;
    if came != wanted {
        print!(rt; "{file} differs: there came\n{came}")?;
        return Ok(false);
    }
    let (accepted, refused, at_fault) = cut(rt, file, case);
    println!(rt; "{file} ok; cut: {accepted} accepted, {refused} refused, {at_fault} at fault")?;
    Ok(true)
}
