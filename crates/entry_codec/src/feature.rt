//! Feature identifiers, bits 7:0 of CDW10 of Set Features and Get Features (NVM Express Base Specification 2.0, section 5.27.1).

ghost use Rattle.std.specs.Prelude.{◌≡◌};

/// Number of Queues.
pub const NUMBER_OF_QUEUES: u32 = 0x07;
/// Host Memory Buffer.
pub const HOST_MEMORY_BUFFER: u32 = 0x0D;

/// The identifiers, by their numbers.
pub fn values()
    ensures number_of_queues { NUMBER_OF_QUEUES ≡ 0x07 }
    ensures host_memory_buffer { HOST_MEMORY_BUFFER ≡ 0x0D }
{}
