//! A whole driver: it writes a block of a device, and reads it back.
//!
//! The host (`host_bench`) has the rings, the lists and the pages of the commands. The driver's own part is in `driver`: a command's way through the
//! host's calls, and what the host tells for the device's registers. `device` has what a driver needs of a device, and a small one. Whoever has
//! another device writes its [`device::Device`], and changes no line of the driver.
#![tactic(auto)]

mod device;
mod driver;

use device::SmallDevice;
use driver::{Driver, Ended, Failure};
use host_bench::{Config, HostBench};
use std::alloc::AllocGlobal;
use std::io;
use std::process::ExitCode;

/// A pool of 16 pages, the admin queue and one I/O queue, with rings of 4 entries.
const CONFIG: Config = Config {
    pages: 16,
    queues: 1,
    entries: 4,
    segment: 256,
};

fn main(rt: HostRuntime) -> ExitCode {
    let Ok(host) = HostBench::open(rt.alloc(), CONFIG) else {
        return ExitCode::FAILURE;
    };
    let mut driver = Driver::new(rt.alloc(), host, SmallDevice::new());
    match play(&rt, &mut driver) {
        Ok(()) => ExitCode::SUCCESS,
        Err(_) => ExitCode::FAILURE,
    }
}

/// Writes a block, reads it back, and reads one that is not there.
fn play<R: Print>(rt: &R, driver: &mut Driver<SmallDevice>) -> io::Result<()> {
    tell(rt, "write 5", driver.write(5, b"letters"))?;
    tell(rt, "read 5", driver.read(5))?;
    tell(rt, "read 99", driver.read(99))
}

/// Prints how a command ended.
fn tell<R: Print>(rt: &R, what: &str, end: Result<Ended, Failure>) -> io::Result<()> {
    match end {
        Ok(Ended { status, bytes }) => {
            let first = bytes.as_slice().get(..7).unwrap_or(&[]);
            println!(rt; "{what}: status {status}, first bytes {first:?}")
        }
        Err(why) => println!(rt; "{what}: {why}"),
    }
}
