//! The pages of the host that a handle keeps, as a device reads and writes them.

ghost use Rattle.std.specs.Prelude.{◌≡◌, length};
ghost use Rattle.nvmesgl_c.specs.HostKept.{kept_in};
ghost use Rattle.nvmesgl_c.specs.HostPool.{fits as spec_fits, Reads, ReadsFrom, Writes, WritesInto};

use crate::host::code::{BAD_LENGTH, PAGE_OUT};
use crate::host::handle::Handle;
use crate::words::code::DONE;
use crate::words::or_code;
use host_bench::HostBench;
use std::alloc::Global;

/// Whether this many bytes are moved by one call: 1 to 4,096.
fn fits(count: usize) -> bool
    ensures { result ≡ spec_fits count }
{
    0 < count && count <= 4096
}

/// Fills a buffer with the bytes of a host's pool starting at an address.
fn read_from(bench: &mut HostBench, addr: u64, buffer: &mut [u8]) -> u32
    ensures { ReadsFrom bench.old addr result buffer.old buffer.new bench.new }
{
    if !fits(buffer.len()) {
        return BAD_LENGTH;
    }
    match bench.read(addr, buffer) {
        Ok(()) => DONE,
        Err(_) => PAGE_OUT,
    }
}

/// Puts bytes into a host's pool starting at an address.
fn write_into(bench: &mut HostBench, addr: u64, bytes: &[u8]) -> u32
    ensures { WritesInto bench.old addr bytes.now result bench.new }
{
    if !fits(bytes.len()) {
        return BAD_LENGTH;
    }
    match bench.write(addr, bytes) {
        Ok(()) => DONE,
        Err(_) => PAGE_OUT,
    }
}

/// Copies bytes of the pool into a buffer, starting at an address.
#[unsafe(no_mangle)]
pub extern "C" fn nvmehost_read(
    alloc: Global,
    handle: &mut Handle,
    addr: u64,
    buffer: &mut [u8],
) -> u32
    ensures { Reads (kept_in handle.old) addr result buffer.old buffer.new (kept_in handle.new) }
{
    let mut kept = or_code!(handle.take(alloc));
    let code = read_from(&mut kept.bench, addr, buffer);
    handle.put(kept);
    code
}

/// Copies bytes into the pool, starting at an address.
#[unsafe(no_mangle)]
pub extern "C" fn nvmehost_write(alloc: Global, handle: &mut Handle, addr: u64, bytes: &[u8]) -> u32
    ensures { Writes (kept_in handle.old) addr bytes.now result (kept_in handle.new) }
{
    let mut kept = or_code!(handle.take(alloc));
    let code = write_into(&mut kept.bench, addr, bytes);
    handle.put(kept);
    code
}
