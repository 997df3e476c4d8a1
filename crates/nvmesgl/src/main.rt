//! Plays scripts over an NVMe host driver and its modelled controller.
//!
//! `nvmesgl steps` reads a script, opens a world, does its steps and prints what each answered. `nvmesgl threads` reads a script of jobs, lets
//! a thread for each submitter do them over one world, and prints how each ended; `load` makes jobs itself and measures. `check` tells all faults of a script, `test` plays
//! transcripts, `shell` answers lines one at a time, `grammar` prints the verbs.
#![tactic(auto)]

use program::{Terminals, run};
use std::io::IsTerminal;
use std::process::ExitCode;

fn main(rt: HostRuntime) -> ExitCode {
    let terminals = Terminals {
        input: rt.stdin().is_terminal() && rt.stdout().is_terminal(),
        error: rt.stderr().is_terminal(),
    };
    run(&rt, terminals)
}
