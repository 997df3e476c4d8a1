//! The driver: a command from its request to its end.

use crate::device::Device;
use host_bench::{
    BlockSize, Bytes, Call, Flags, HostBench, Kind, Piece, Pieces, Reaped, Reply, Request, Status,
    Unreadable,
};
use std::alloc::{AllocError, Global};
use std::fmt;

/// Why a command was not carried through.
#[derive(Drop)]
pub(crate) enum Failure {
    /// The host did not do a call, and answered this.
    NotDone(Reply),
    /// The device looked for a page that the host has out.
    Device(Unreadable),
    /// Memory was refused.
    Memory,
}

impl From<AllocError> for Failure {
    fn from(_why: AllocError) -> Failure {
        Failure::Memory
    }
}

impl From<Unreadable> for Failure {
    fn from(why: Unreadable) -> Failure {
        Failure::Device(why)
    }
}

impl fmt::Display for Failure {
    fn fmt<W: fmt::Write>(&self, f: &mut fmt::Formatter<W>) -> fmt::Result {
        match self {
            Failure::NotDone(Reply::Refused(why)) => write!(f, "the host refused a call: {why:?}"),
            Failure::NotDone(_) => f.write_str("the host did not do a call"),
            Failure::Device(_) => f.write_str("the device looked for a page that is out"),
            Failure::Memory => f.write_str("memory was refused"),
        }
    }
}

/// How a command ended: its status, and the bytes of a Read.
#[derive(Debug, Drop)]
pub(crate) struct Ended {
    pub(crate) status: Status,
    pub(crate) bytes: Bytes,
}

/// A host, and the device that it drives.
#[derive(Drop)]
pub(crate) struct Driver<D> {
    host: HostBench,
    device: D,
    alloc: Global,
}

impl<D: Device> Driver<D> {
    /// A driver of a device, with a host that was opened.
    pub(crate) fn new(alloc: Global, host: HostBench, device: D) -> Driver<D> {
        Driver {
            host,
            device,
            alloc,
        }
    }

    /// Makes a call that only has to succeed.
    fn done(&mut self, call: Call) -> Result<(), Failure> {
        match self.host.call(call) {
            Reply::Accepted => Ok(()),
            reply => Err(Failure::NotDone(reply)),
        }
    }

    /// Reserves a command for one block, with a page for its bytes, and answers its identifier.
    fn reserve(&mut self, kind: Kind, block: u64) -> Result<u16, Failure> {
        let piece = Piece::Data {
            offset: 0,
            len: 512,
        };
        let request = Request {
            kind,
            nsid: 1,
            flags: Flags::NONE,
            block_size: BlockSize::Bytes512,
            slba: block,
            blocks: 1,
            pieces: Pieces::from_slice(self.alloc, &[piece])?,
        };
        match self.host.call(Call::Reserve { q: 1, request }) {
            Reply::Reserved { cid, .. } => Ok(cid),
            reply => Err(Failure::NotDone(reply)),
        }
    }

    /// Puts a draft into the queue, and tells the device by its register.
    fn submit(&mut self, cid: u16) -> Result<(), Failure> {
        self.done(Call::Build { q: 1, cid })?;
        self.done(Call::Submit { q: 1, cid })?;
        match self.host.call(Call::Ring { q: 1 }) {
            Reply::Rung(bell) => {
                self.device.write_register(bell);
                Ok(())
            }
            reply => Err(Failure::NotDone(reply)),
        }
    }

    /// Lets the device work, and takes the completion that it posted.
    fn wait(&mut self) -> Result<(), Failure> {
        self.device.work(&mut self.host)?;
        match self.host.call(Call::Reap { q: 1 }) {
            Reply::Reaps {
                found: Reaped::Done { .. },
                bell: Some(bell),
            } => {
                self.device.write_register(bell);
                Ok(())
            }
            reply => Err(Failure::NotDone(reply)),
        }
    }

    /// Takes a command's end, and gives its page back.
    fn collect(&mut self, cid: u16) -> Result<Ended, Failure> {
        let status = match self.host.call(Call::Collect { q: 1, cid }) {
            Reply::Collected { status, .. } => status,
            reply => return Err(Failure::NotDone(reply)),
        };
        let bytes = match self.host.call(Call::Gather { q: 1, cid }) {
            Reply::Gathered(bytes) => bytes,
            reply => return Err(Failure::NotDone(reply)),
        };
        self.done(Call::Release { q: 1, cid })?;
        Ok(Ended { status, bytes })
    }

    /// Reads a block.
    pub(crate) fn read(&mut self, block: u64) -> Result<Ended, Failure> {
        let cid = self.reserve(Kind::Read, block)?;
        self.submit(cid)?;
        self.wait()?;
        self.collect(cid)
    }

    /// Writes a block, whose bytes are laid where the device reads them; zeros follow the bytes.
    pub(crate) fn write(&mut self, block: u64, bytes: &[u8]) -> Result<Ended, Failure> {
        let cid = self.reserve(Kind::Write, block)?;
        let laid = self.host.write_data(1, cid, 0, |page| {
            for (slot, byte) in page.iter_mut().zip(bytes) {
                *slot = *byte;
            }
        });
        if laid.is_none() {
            return Err(Failure::NotDone(Reply::NoValue));
        }
        self.submit(cid)?;
        self.wait()?;
        self.collect(cid)
    }
}
