//! The doorbells of a controller.

ghost use Rattle.std.specs.Prelude.{◌≡◌};
ghost use Rattle.host_core.specs.Doorbells as doorbells;

/// A value for a doorbell register (NVM Express over PCIe Transport Specification 1.0, "Doorbell registers", section 3.1.2).
#[derive(Clone, Copy, Debug, PartialEq, Eq)]
pub struct Doorbell {
    /// The offset of the register in bytes, where doorbells lie 4 bytes apart.
    pub offset: u32,
    /// The value to write there.
    pub value: u32,
}

/// Where the doorbells begin.
const FIRST: u32 = 4096;
/// How many bytes lie from a queue's doorbells to the next queue's.
const EACH: u32 = 8;
/// How many bytes lie from a tail doorbell to the head doorbell after it.
const HEAD: u32 = 4;

impl Doorbell {
    /// The tail of a submission queue.
    pub fn tail(q: u16, slot: u16) -> Doorbell
        ensures { result ≡ doorbells.tail_bell q slot }
    {
        Doorbell {
            offset: FIRST + EACH * u32::from(q),
            value: u32::from(slot),
        }
    }

    /// The head of a completion queue.
    pub fn head(q: u16, slot: u16) -> Doorbell
        ensures { result ≡ doorbells.head_bell q slot }
    {
        Doorbell {
            offset: FIRST + EACH * u32::from(q) + HEAD,
            value: u32::from(slot),
        }
    }
}
