//! What is opened in a heap.

ghost use Rattle.std.specs.Prelude.{◌≡◌};

use step_core::Config;

/// The blocks of the image.
pub const IMAGE_BLOCKS: u32 = 64;

/// A pool, the commands over it, and the heap in which all of it stands.
#[derive(Clone, Copy)]
pub struct Pool {
    /// The pages of the pool.
    pub pages: u32,
    /// How many commands are outstanding at once, each with one page of data.
    pub commands: u16,
    /// The bytes of the heap.
    pub heap: usize,
}

/// A pool of 16 pages, of which the queues leave 12, and one of 4,096 pages with as many commands as the queue takes.
pub const POOLS: [Pool; 2] = [
    Pool {
        pages: 16,
        commands: 12,
        heap: 131_072,
    },
    Pool {
        pages: 4_096,
        commands: 16,
        heap: 17_825_792,
    },
];

impl Pool {
    /// One I/O queue that takes sixteen commands.
    pub fn config(self) -> Config
        ensures pages { result.pages ≡ self.pages }
        ensures queues { result.queues ≡ 1 }
        ensures entries { result.entries ≡ 17 }
    {
        Config {
            pages: self.pages,
            queues: 1,
            entries: 17,
            segment: 256,
        }
    }
}
