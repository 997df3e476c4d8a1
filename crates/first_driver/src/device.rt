//! What a driver needs of a device, and a small one that stands in its place.

ghost use Rattle.std.specs.Prelude.{◌<◌, IfOk};

use entry_codec::{ComEntry, Hints, Status, SubEntry, io_opcode};
use host_bench::{Doorbell, HostBench, Unreadable};
use sgl_descriptor::Descriptor;

/// A device, as a driver sees it: its doorbell registers, and that it reads and writes the host's pages.
pub(crate) trait Device {
    /// Writes a doorbell register.
    fn write_register(&mut self, doorbell: Doorbell);

    /// Lets the device do what there is to do. A device of silicon does so by itself, and this is where its driver waits for the interrupt.
    fn work(&mut self, memory: &mut HostBench) -> Result<(), Unreadable>;
}

/// Entries of each ring.
const ENTRIES: u16 = 4;
/// Where the rings of queue 1 begin: the pages that the host gave it.
const SUBMISSIONS: u64 = 2 * 4_096;

const COMPLETIONS: u64 = 3 * 4_096;
/// Blocks of the disk, 512 bytes each.
const BLOCKS: usize = 8;
/// The register of queue 1's submission tail.
const TAIL: u32 = 0x1008;

/// A device with one queue and a disk of eight blocks. It knows Reads and Writes of one block by one Data Block.
#[derive(Drop)]
pub(crate) struct SmallDevice {
    disk: [[u8; 512]; BLOCKS],
    /// The slot after the last entry that the host announced.
    rung: u16,
    /// The next entry to take.
    head: u16,
    /// The next completion's slot, and its phase.
    tail: u16,
    phase: bool,
}

impl SmallDevice {
    /// A device with empty rings and a disk of zeros.
    pub(crate) fn new() -> SmallDevice {
        SmallDevice {
            disk: [[0; 512]; BLOCKS],
            rung: 0,
            head: 0,
            tail: 0,
            phase: true,
        }
    }

    /// Moves the block that an entry names, and answers the command's status.
    fn carry_out(&mut self, entry: &SubEntry, memory: &mut HostBench) -> Result<Status, Unreadable>
        ensures fits { IfOk result (λ status. status.sct < 8) }
    {
        let Some(block) = self.disk.get_mut(entry.cdw10 as usize) else {
            return Ok(Status::LBA_OUT_OF_RANGE);
        };
        let Ok(Descriptor::DataBlock { addr, len: 512 }) = Descriptor::read(&entry.sgl1) else {
            return Ok(Status::DATA_SGL_LENGTH_INVALID);
        };
        match entry.opcode {
            io_opcode::READ => memory.write(addr, block)?,
            io_opcode::WRITE => memory.read(addr, block)?,
            _ => return Ok(Status::INVALID_OPCODE),
        }
        Ok(Status::SUCCESS)
    }

    /// Posts the completion of a command.
    fn post(&mut self, cid: u16, status: Status, memory: &mut HostBench) -> Result<(), Unreadable>
        requires fits { status.sct < 8 }
    {
        let completion = ComEntry {
            dw0: 0,
            sqhd: self.head,
            sqid: 1,
            cid,
            phase: self.phase,
            status,
            hints: Hints::NONE,
        };
        memory.write(COMPLETIONS + 16 * u64::from(self.tail), &completion.write())?;
        self.tail = self.tail.wrapping_add(1) % ENTRIES;
        if self.tail == 0 {
            self.phase = !self.phase;
        }
        Ok(())
    }
}

impl Device for SmallDevice {
    fn write_register(&mut self, doorbell: Doorbell) {
        if doorbell.offset == TAIL {
            self.rung = (doorbell.value % u32::from(ENTRIES)) as u16;
        }
    }

    fn work(&mut self, memory: &mut HostBench) -> Result<(), Unreadable> {
        for _ in 0..ENTRIES {
            if self.head == self.rung {
                break;
            }
            let mut entry = [0; 64];
            memory.read(SUBMISSIONS + 64 * u64::from(self.head), &mut entry)?;
            let entry = SubEntry::read(&entry);
            self.head = self.head.wrapping_add(1) % ENTRIES;
            let status = self.carry_out(&entry, memory)?;
            self.post(entry.cid, status, memory)?;
        }
        Ok(())
    }
}
