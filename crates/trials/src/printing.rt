//! Lines of numbers.

use crate::fault::TrialFault;

/// Prints numbers with their labels before them, in one line.
///
/// # Errors
///
/// `Output` where the line could not be written.
pub fn print_numbers<R: Print>(rt: &R, numbers: &[(&'static str, u64)]) -> Result<(), TrialFault> {
    match print_line(rt, numbers) {
        Ok(()) => Ok(()),
        Err(_) => Err(TrialFault::Output),
    }
}

/// Prints them.
fn print_line<R: Print>(rt: &R, numbers: &[(&'static str, u64)]) -> std::io::Result<()> {
    let mut between = "";
    for (label, number) in numbers {
        print!(rt; "{between}{label} {number}")?;
        between = " ";
    }
    println!(rt; "")
}
