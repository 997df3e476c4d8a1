//! Blocks that are read and written by one line.

use crate::asked::Extent;
use crate::hand::Hand;
use entry_codec::status_names::Named;
use script_cli::{CommandVerb, QueueVerb, Verb, put_gathered};
use std::alloc::{AllocError, Global};
use step_core::{
    BlockSize, Bytes, FillFault, Flags, Kind, Piece, Pieces, Reaped, Refusal, Reply, Request,
    Status, Step,
};
use texts::traces::Traced;

/// The bytes of a page.
const PAGE: u32 = 4_096;

/// The bytes of a block.
const BLOCK: u32 = 512;

/// The most blocks of a command.
const MOST_BLOCKS: u32 = 2_048;

/// The pieces of this many blocks, each the whole of a page, but for the last one. There are none for more blocks than a command has.
fn pieces_of(alloc: Global, blocks: u32) -> Result<Pieces, AllocError> {
    let mut pieces = Pieces::new(alloc);
    if blocks > MOST_BLOCKS {
        return Ok(pieces);
    }
    let bytes = blocks * BLOCK;
    for _ in 0..bytes / PAGE {
        pieces.push(Piece::Data {
            offset: 0,
            len: PAGE,
        })?;
    }
    if bytes % PAGE > 0 {
        pieces.push(Piece::Data {
            offset: 0,
            len: bytes % PAGE,
        })?;
    }
    Ok(pieces)
}

impl Hand<'_> {
    /// Reserves a command, and answers its identifier. Where it is refused that is said, and what is wrong with the request.
    fn reserve(&mut self, kind: Kind, extent: Extent) -> Result<Option<u16>, AllocError> {
        let Extent { q, slba, blocks } = extent;
        let pieces = pieces_of(self.alloc, blocks)?;
        let request = Request {
            kind,
            nsid: 1,
            flags: Flags::NONE,
            block_size: BlockSize::Bytes512,
            slba,
            blocks,
            pieces,
        };
        let reply = self.make(Step::Reserve { q, request })?;
        if let Reply::Reserved { cid, .. } = reply {
            self.tell_on_queue(Verb::Reserve, q, Traced::Other, &reply)?;
            return Ok(Some(cid));
        }
        self.say_on_queue(Verb::Reserve, q, &reply)?;
        if let Reply::Refused {
            why: Refusal::Bad(fault),
            ..
        } = reply
        {
            write!(self.out, "{fault}\n")?;
        }
        Ok(None)
    }

    /// Fills a draft of this many blocks. Where it is refused that is said, and why.
    fn fill(
        &mut self,
        (q, cid): (u16, u16),
        blocks: u32,
        bytes: Bytes,
    ) -> Result<bool, AllocError> {
        let count = bytes.as_slice().len();
        let reply = self.make(Step::Fill { q, cid, bytes })?;
        if let Reply::Accepted = reply {
            if self.says {
                self.say_on_command(Verb::Fill, (q, cid), &reply)?;
            }
            return Ok(true);
        }
        self.say_on_command(Verb::Fill, (q, cid), &reply)?;
        match reply {
            Reply::NotFilled(FillFault::WrongLength) => {
                let most = u64::from(blocks) * u64::from(BLOCK);
                write!(
                    self.out,
                    "{count} bytes came, and the command moves {most}\n"
                )?;
            }
            Reply::NotFilled(why) => write!(self.out, "{why}\n")?,
            _ => {}
        }
        Ok(false)
    }

    /// Makes a step of the host on a command. Where it is refused that is said.
    fn host_step(&mut self, verb: CommandVerb, command: (u16, u16)) -> Result<bool, AllocError> {
        let reply = self.on_command(verb, command)?;
        if let Reply::Accepted = reply {
            self.tell_on_command(verb, command, &reply)?;
            return Ok(true);
        }
        self.say_on_command(Verb::OnCommand(verb), command, &reply)?;
        Ok(false)
    }

    /// Fills a draft of this many blocks, builds and submits it.
    fn send(
        &mut self,
        command: (u16, u16),
        blocks: u32,
        bytes: Option<Bytes>,
    ) -> Result<bool, AllocError> {
        if let Some(bytes) = bytes {
            if !self.fill(command, blocks, bytes)? {
                return Ok(false);
            }
        }
        if !self.host_step(CommandVerb::Build, command)? {
            return Ok(false);
        }
        self.host_step(CommandVerb::Submit, command)
    }

    /// Rings the tail doorbell of a queue. Where that is refused it is said.
    fn ring(&mut self, q: u16) -> Result<(), AllocError> {
        let verb = Verb::OnQueue(QueueVerb::Ring);
        match self.on_queue(QueueVerb::Ring, q)? {
            Reply::Accepted => self.tell_on_queue(verb, q, Traced::Ring(q), &Reply::Accepted),
            other => self.say_on_queue(verb, q, &other),
        }
    }

    /// Takes completions until it is that of a command, or there is none. What else there is is said.
    fn reap_own(&mut self, (q, cid): (u16, u16)) -> Result<bool, AllocError> {
        let verb = Verb::OnQueue(QueueVerb::Reap);
        for _ in 0..=self.entries {
            let reply = self.on_queue(QueueVerb::Reap, q)?;
            match &reply {
                Reply::Reaps(Reaped::Done { cid: done, .. }) if *done == cid => {
                    self.tell_on_queue(verb, q, Traced::Reap(q), &reply)?;
                    return Ok(true);
                }
                Reply::Reaps(Reaped::Empty) => return Ok(false),
                other => self.say_on_queue(verb, q, other)?,
            }
        }
        Ok(false)
    }

    /// Lets the controller work and takes completions until a command is done. Where it is not done that is said.
    fn await_own(&mut self, command: (u16, u16)) -> Result<bool, AllocError> {
        let (q, cid) = command;
        for _ in 0..=self.entries {
            self.serve_queue(q)?;
            if self.reap_own(command)? {
                return Ok(true);
            }
        }
        write!(
            self.out,
            "command {q} {cid} is not done, and stays outstanding\n"
        )?;
        Ok(false)
    }

    /// Collects a command, and answers how it ended. Where it is refused that is said.
    fn collect_own(&mut self, command: (u16, u16)) -> Result<Option<Status>, AllocError> {
        let reply = self.on_command(CommandVerb::Collect, command)?;
        if let Reply::Collected { status, .. } = reply {
            self.tell_on_command(CommandVerb::Collect, command, &reply)?;
            return Ok(Some(status));
        }
        self.say_on_command(Verb::OnCommand(CommandVerb::Collect), command, &reply)?;
        Ok(None)
    }

    /// Moves blocks by one command, up to its collection: the command, and how it ended. What is refused is said, and a draft that is not
    /// submitted is cancelled.
    fn run(
        &mut self,
        kind: Kind,
        extent: Extent,
        bytes: Option<Bytes>,
    ) -> Result<Option<((u16, u16), Status)>, AllocError> {
        let Some(cid) = self.reserve(kind, extent)? else {
            return Ok(None);
        };
        let command = (extent.q, cid);
        if !self.send(command, extent.blocks, bytes)? {
            self.host_step(CommandVerb::Cancel, command)?;
            return Ok(None);
        }
        self.ring(extent.q)?;
        if !self.await_own(command)? {
            return Ok(None);
        }
        match self.collect_own(command)? {
            Some(status) => Ok(Some((command, status))),
            None => Ok(None),
        }
    }

    /// Says the bytes of a Read, once its pages are given back.
    fn say_bytes(&mut self, command: (u16, u16)) -> Result<(), AllocError> {
        let reply = self.on_command(CommandVerb::Gather, command)?;
        if let Reply::Gathered(_) = &reply {
            self.tell_on_command(CommandVerb::Gather, command, &reply)?;
        }
        self.host_step(CommandVerb::Release, command)?;
        if let Reply::Gathered(bytes) = reply {
            put_gathered(self.out, bytes.as_slice())?;
            return self.out.push('\n');
        }
        self.say_on_command(Verb::OnCommand(CommandVerb::Gather), command, &reply)
    }

    /// Says how a command ended.
    fn say_status(&mut self, status: Status) -> Result<(), AllocError> {
        let named = Named(status);
        write!(self.out, "status {named}\n")
    }

    /// Reads blocks, and says their bytes, or how the Read ended if not well.
    pub(crate) fn read(&mut self, extent: Extent) -> Result<(), AllocError> {
        let Some((command, status)) = self.run(Kind::Read, extent, None)? else {
            return Ok(());
        };
        if status == Status::SUCCESS {
            return self.say_bytes(command);
        }
        self.host_step(CommandVerb::Release, command)?;
        self.say_status(status)
    }

    /// Writes blocks, and says how that ended.
    pub(crate) fn write(&mut self, extent: Extent, bytes: Bytes) -> Result<(), AllocError> {
        let Some((command, status)) = self.run(Kind::Write, extent, Some(bytes))? else {
            return Ok(());
        };
        self.host_step(CommandVerb::Release, command)?;
        self.say_status(status)
    }
}
