//! The halves of a queue pair: their doorbells and their pages.

ghost use Rattle.std.specs.Prelude.{◌≡◌};
ghost use Rattle.queue_pair.specs.Memory.{doorbell_offset, half_pages as pages_of_half};

use page_memory::Half;

/// The offset of a doorbell register: the tail doorbell of submission queue `q`, or the head doorbell of completion queue `q`.
///
/// The doorbell stride is 0, and the value is in bits 15:0 of the register (NVM Express over PCIe Transport Specification 1.0,
/// "Doorbell registers", section 3.1.2).
pub fn doorbell(q: u16, half: Half) -> u32
    ensures { result ≡ doorbell_offset q half }
{
    let tail = 0x1000 + 8 * u32::from(q);
    match half {
        Half::Submission => tail,
        Half::Completion => tail + 4,
    }
}

/// How many pages a half with this many entries has: 64 submission entries, or 256 completions, fit in a page.
pub fn half_pages(entries: u16, half: Half) -> u32
    ensures { result ≡ pages_of_half entries half }
{
    match half {
        Half::Submission => u32::from(entries).div_ceil(64),
        Half::Completion => u32::from(entries).div_ceil(256),
    }
}
