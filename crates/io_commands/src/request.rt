//! What a host asks for.

ghost use Rattle.std.specs.Prelude.{◌≡◌, ◌≤◌, ◌∷◌, ◌++◌, [], length, sum_by, All, IfOk, OnOk, OnErr, Ok};
ghost use Rattle.std.specs.Result.{result_err};
ghost use Rattle.io_commands.specs.BlockSizes.{most_blocks};
ghost use Rattle.io_commands.specs.DataBytes.{data_length};
ghost use Rattle.io_commands.specs.Requests.{moves_data as spec_moves_data, names_ranges as spec_names_ranges, has_list as spec_has_list, names_blocks as spec_names_blocks, kind_name, same_kind, same_flags, is_admin as spec_is_admin, brings_data as spec_brings_data, direction_of, opcode_of, need_of, most_of, is_count, is_hosts_own, has_its_bytes as spec_has_its_bytes, is_empty_piece, crosses_page as spec_crosses_page, is_data as spec_is_data, counted_length, counted_lengths, data_count, fault_of, flag_bits, FitsPiece, FitsRequest};

use crate::admin::{AdminCommand, PageUse};
use crate::block_size::BlockSize;
use entry_codec::io_opcode;
use sgl_descriptor::Direction;
use std::alloc::{AllocError, Allocator, Global};
use std::marker::Model;
use thiserror::Error;

/// The most pieces that a request has (own).
pub const MAX_PIECES: usize = 1_024;

/// The most blocks that a command has, of 512 bytes each (own).
pub const MAX_COMMAND_BLOCKS: u32 = 2_048;

/// The most ranges of a Deallocate (NVM Command Set Specification 1.0, Dataset Management, Number of Ranges).
pub const MAX_RANGES: u32 = 256;

/// Which command: an I/O command (NVM Command Set Specification 1.0, section 3.2), or an admin command of the caller's own.
#[derive(Clone, Copy, Debug, PartialEq, Eq)]
pub enum Kind {
    /// Blocks come to the host's pages.
    Read,
    /// Blocks are replaced by data of the host's pages.
    Write,
    /// Blocks are compared with data of the host's pages.
    Compare,
    /// Blocks become zeros. It moves no data.
    WriteZeroes,
    /// Blocks are read and checked, and not brought. It moves no data.
    Verify,
    /// What was written goes to non-volatile media. It names no blocks, and moves no data.
    Flush,
    /// Blocks are not needed any more: Dataset Management with the attribute Deallocate. Its data is ranges of blocks, each a
    /// [`BlockRange`]'s 16 bytes.
    ///
    /// [`BlockRange`]: crate::BlockRange
    Deallocate,
    /// An admin command, of queue 0. It names no blocks, and its data is not theirs.
    Admin(AdminCommand),
}

impl Kind {
    /// Whether data goes between blocks and the host's pages.
    pub fn moves_data(self) -> bool
        ensures { result ≡ spec_moves_data self }
    {
        matches!(self, Kind::Read | Kind::Write | Kind::Compare)
    }

    /// Whether it names blocks in its entry.
    pub fn names_blocks(self) -> bool
        ensures { result ≡ spec_names_blocks self }
    {
        !matches!(self, Kind::Flush | Kind::Deallocate | Kind::Admin(_))
    }

    /// Whether it names blocks by ranges, which are its data.
    pub fn names_ranges(self) -> bool
        ensures { result ≡ spec_names_ranges self }
    {
        matches!(self, Kind::Deallocate)
    }

    /// Whether its data pointer leads to a list of parts.
    pub fn has_list(self) -> bool
        ensures { result ≡ spec_has_list self }
    {
        self.moves_data() || self.names_ranges()
    }

    /// Whether it is an admin command, of queue 0.
    pub fn is_admin(self) -> bool
        ensures { result ≡ spec_is_admin self }
    {
        matches!(self, Kind::Admin(_))
    }

    /// Whether data comes to the host's pages: in a Read, and in an admin command that has data come.
    pub fn brings_data(self) -> bool
        ensures { result ≡ spec_brings_data self }
    {
        match self {
            Kind::Read => true,
            Kind::Admin(command) => command.page == PageUse::In,
            _ => false,
        }
    }

    /// Which way the data goes, as the host's pages see it; [`Direction::Source`] where it moves none.
    pub fn direction(self) -> Direction
        ensures { result ≡ direction_of self }
    {
        if self.brings_data() {
            Direction::Destination
        } else {
            Direction::Source
        }
    }

    /// The command's opcode.
    pub fn opcode(self) -> u8
        ensures { result ≡ opcode_of self }
    {
        match self {
            Kind::Read => io_opcode::READ,
            Kind::Write => io_opcode::WRITE,
            Kind::Compare => io_opcode::COMPARE,
            Kind::WriteZeroes => io_opcode::WRITE_ZEROES,
            Kind::Verify => io_opcode::VERIFY,
            Kind::Flush => io_opcode::FLUSH,
            Kind::Deallocate => io_opcode::DATASET_MANAGEMENT,
            Kind::Admin(command) => command.opcode,
        }
    }

    /// Its name, as scripts have it.
    pub fn name(self) -> &'static str
        ensures { result.now ≡ kind_name self }
    {
        match self {
            Kind::Read => "read",
            Kind::Write => "write",
            Kind::Compare => "compare",
            Kind::WriteZeroes => "write_zeroes",
            Kind::Verify => "verify",
            Kind::Flush => "flush",
            Kind::Deallocate => "deallocate",
            Kind::Admin(_) => "admin",
        }
    }

    /// Whether another is the same, an admin command's words among it.
    pub fn is_same(self, other: Kind) -> bool
        ensures { result ≡ same_kind self other }
    {
        match (self, other) {
            (Kind::Read, Kind::Read)
            | (Kind::Write, Kind::Write)
            | (Kind::Compare, Kind::Compare)
            | (Kind::WriteZeroes, Kind::WriteZeroes)
            | (Kind::Verify, Kind::Verify)
            | (Kind::Flush, Kind::Flush)
            | (Kind::Deallocate, Kind::Deallocate) => true,
            (Kind::Admin(a), Kind::Admin(b)) => a.is_same(b),
            _ => false,
        }
    }

    /// How many blocks of a size a command may have, or ranges.
    fn most(self, size: BlockSize) -> u32
        ensures { result ≡ most_of self size }
    {
        if self.names_ranges() {
            MAX_RANGES
        } else {
            size.most_blocks()
        }
    }

    /// Whether a command has this many blocks of a size, one to 1 MiB of them, or this many ranges, and none where it names none.
    fn has_count(self, size: BlockSize, blocks: u32) -> bool
        ensures { result ≡ is_count self size blocks }
    {
        if self.names_blocks() || self.names_ranges() {
            blocks != 0 && blocks <= self.most(size)
        } else {
            blocks == 0
        }
    }

    /// How many bytes the pieces of a command of this many blocks of a size, or this many ranges, are together.
    fn need(self, size: BlockSize, blocks: u32) -> u64
        requires { blocks ≤ most_blocks size }
        ensures { result ≡ need_of self size blocks }
    {
        if self.moves_data() {
            u64::from(size.bytes_of(blocks))
        } else if self.names_ranges() {
            16 * u64::from(blocks)
        } else {
            0
        }
    }

    /// Whether pieces, of which this many bytes count, are what a command of this many blocks of a size, or this many ranges, moves.
    fn has_its_bytes(self, size: BlockSize, blocks: u32, pieces: &[Piece], counted: u64) -> bool
        requires few { blocks ≤ most_blocks size }
        requires counted { counted ≡ counted_lengths self pieces.now }
        ensures { result ≡ spec_has_its_bytes self size blocks pieces.now }
    {
        match self {
            Kind::Admin(command) => command.has_its_page(pieces),
            _ => counted == self.need(size, blocks),
        }
    }

    /// Whether it is an admin command that the host keeps to itself.
    fn is_hosts_own(self) -> bool
        ensures { result ≡ is_hosts_own self }
    {
        match self {
            Kind::Admin(command) => command.is_hosts_own(),
            _ => false,
        }
    }
}

/// The flags of a command that names blocks (NVM Command Set Specification 1.0, Read, Write, Compare, Write Zeroes and
/// Verify, CDW12).
#[derive(Clone, Copy, Debug, PartialEq, Eq)]
pub struct Flags {
    /// The command ends once its data is in non-volatile media, or comes from there (FUA, bit 30).
    pub force_unit_access: bool,
    /// The controller makes only a limited effort to try again where it fails (LR, bit 31).
    pub limited_retry: bool,
}

impl Flags {
    /// No flag is set.
    pub const NONE: Flags = Flags {
        force_unit_access: false,
        limited_retry: false,
    };

    /// Their bits in CDW12.
    pub fn bits(self) -> u32
        ensures { result ≡ flag_bits self }
    {
        let force_unit_access = if self.force_unit_access { 1 << 30 } else { 0 };
        let limited_retry = if self.limited_retry { 1 << 31 } else { 0 };
        force_unit_access + limited_retry
    }

    /// Whether others are the same.
    pub fn is_same(self, other: Flags) -> bool
        ensures { result ≡ same_flags self other }
    {
        self.force_unit_access == other.force_unit_access
            && self.limited_retry == other.limited_retry
    }
}

/// A piece of a command's data.
#[derive(Clone, Copy, Debug, PartialEq, Eq)]
pub enum Piece {
    /// `len` bytes from `offset` on, in a page of the piece's own.
    Data {
        /// Where the bytes begin in the page.
        offset: u32,
        /// How many there are.
        len: u32,
    },
    /// `len` bytes that a Read discards. Where data goes from the host it has no effect.
    Bucket {
        /// How many bytes are discarded.
        len: u32,
    },
}

impl Piece {
    /// Whether its length is 0.
    pub fn is_empty(self) -> bool
        ensures { result ≡ is_empty_piece self }
    {
        match self {
            Piece::Data { len, .. } | Piece::Bucket { len } => len == 0,
        }
    }

    /// Whether it is data that passes the end of its page.
    pub fn crosses_page(self) -> bool
        ensures { result ≡ spec_crosses_page self }
    {
        match self {
            Piece::Data { offset, len } => u64::from(offset) + u64::from(len) > 4096,
            Piece::Bucket { .. } => false,
        }
    }

    /// Whether it is data, which takes a page of its own.
    pub fn is_data(self) -> bool
        ensures { result ≡ spec_is_data self }
    {
        matches!(self, Piece::Data { .. })
    }

    /// How many bytes of data it is.
    pub fn data_len(self) -> u32
        ensures { result ≡ data_length self }
    {
        match self {
            Piece::Data { len, .. } => len,
            Piece::Bucket { .. } => 0,
        }
    }

    /// How many bytes of a command of this kind it is: a bucket is passed over where data goes from the host.
    pub fn counted(self, kind: Kind) -> u32
        ensures { result ≡ counted_length kind self }
    {
        match (self, kind) {
            (Piece::Bucket { .. }, Kind::Write | Kind::Compare | Kind::Deallocate) => 0,
            (Piece::Data { len, .. } | Piece::Bucket { len }, _) => len,
        }
    }
}

/// A list of pieces. Contracts see it as that list.
#[derive(Debug)]
pub struct Pieces<A: Allocator = Global> {
    pieces: Vec<Piece, A>,
}

impl<A: Allocator> Drop for Pieces<A> {
    fn drop(self) {
        let Self { pieces: _ } = self;
    }
}

impl<A: Allocator> Model for Pieces<A> {
    ghost use Rattle.std.specs.Prelude.{List, All};
    ghost use Rattle.io_commands.specs.declared.request.Piece.{Piece};
    ghost use Rattle.io_commands.specs.Requests.{FitsPiece};

    ghost Value = { List Piece };

    ghost view = { λ p. p.pieces.items };

    ghost invariant = { λ p. All FitsPiece p.pieces.items };
}

impl<A: Allocator> Pieces<A> {
    /// No piece yet.
    pub fn new(alloc: A) -> Self
        ensures { result ≡ [] }
    {
        Pieces {
            pieces: Vec::new(alloc),
        }
    }

    /// No piece yet, with room for this many.
    ///
    /// # Errors
    ///
    /// Where memory is refused.
    pub fn with_capacity(alloc: A, room: usize) -> Result<Self, AllocError>
        ensures { IfOk result (λ made. made ≡ []) }
    {
        Ok(Pieces {
            pieces: Vec::with_capacity(alloc, room)?,
        })
    }

    /// Puts a piece after the others.
    ///
    /// # Errors
    ///
    /// Where memory is refused; the pieces are then as they were.
    pub fn push(&mut self, piece: Piece) -> Result<(), AllocError>
        ensures pushed { OnOk result (self.new ≡ self.old ++ piece ∷ []) }
        ensures refused { OnErr result (self.new ≡ self.old) }
    {
        self.pieces.push(piece)?;
        Ok(())
    }

    /// The pieces of a list, in order.
    ///
    /// # Errors
    ///
    /// Where memory is refused.
    pub fn from_slice(alloc: A, pieces: &[Piece]) -> Result<Self, AllocError>
        ensures { IfOk result (λ made. made ≡ pieces.now) }
    {
        let mut made = Pieces::with_capacity(alloc, pieces.len())?;
        for piece in pieces {
            made.push(*piece)?;
        }
        Ok(made)
    }

    /// The pieces.
    pub fn as_slice(&self) -> &[Piece]
        ensures { result.now ≡ self.now }
    {
        &self.pieces
    }

    /// The same pieces once more.
    ///
    /// # Errors
    ///
    /// Where memory is refused.
    pub fn copied<B: Allocator>(&self, alloc: B) -> Result<Pieces<B>, AllocError>
        ensures { IfOk result (λ pieces. pieces ≡ self.now) }
    {
        self.copied_into(Pieces::new(alloc))
    }

    /// The list without its pieces, which keeps their memory.
    fn emptied(self) -> Vec<Piece, A>
        ensures { result.items ≡ [] }
    {
        let Self { mut pieces } = self;
        pieces.clear();
        pieces
    }

    /// The same pieces once more, in the place of others, whose memory they take. More is asked for only where that is too little.
    ///
    /// # Errors
    ///
    /// Where memory is refused.
    pub fn copied_into<B: Allocator>(&self, room: Pieces<B>) -> Result<Pieces<B>, AllocError>
        ensures { IfOk result (λ pieces. pieces ≡ self.now) }
    {
        let mut pieces = room.emptied();
        pieces.extend_from_slice(&self.pieces)?;
        Ok(Pieces { pieces })
    }

    /// How many data pages the pieces take.
    pub fn data_pages(&self) -> usize
        ensures { result ≡ data_count self.now }
    {
        self.as_slice()
            .iter()
            .filter(|piece| piece.is_data())
            .count()
    }

    /// How many bytes the data pieces are together.
    pub fn data_bytes(&self) -> u64
        requires { length self.now ≤ 1024 }
        ensures { result ≡ sum_by data_length self.now }
    {
        self.as_slice()
            .iter()
            .map(|piece| u64::from(piece.data_len()))
            .sum()
    }
}

/// Why a request is refused, in the order of the checks (own).
#[derive(Clone, Copy, Debug, PartialEq, Eq, Error)]
pub enum RequestFault {
    /// There are more than 1,024 pieces.
    #[error("a request has at most 1,024 pieces")]
    TooManyPieces,
    /// A piece has length 0.
    #[error("a piece has length 0")]
    EmptyPiece,
    /// A data piece passes the end of its page.
    #[error("a data piece passes the end of its page")]
    CrossesPage,
    /// There are no blocks, or more than 1 MiB of them; no ranges, or more than 256; or a command that names none has some.
    #[error("a command has a block to 1 MiB of them, a Deallocate 1 to 256 ranges, and a Flush none")]
    BadCount,
    /// The pieces that count are not the bytes of the blocks, or of the ranges; a command without data has a piece; or the data of an
    /// admin command is not one piece from the start of its page.
    #[error("the lengths of the pieces are not the bytes of the blocks")]
    LengthMismatch,
    /// It is an admin command that the host keeps to itself ([`AdminCommand::is_hosts_own`]).
    #[error("the host keeps this admin command to itself")]
    HostsOwn,
}

/// What a host asks for: `blocks` blocks of a size from `slba` on, and the pieces of memory that take part, none where
/// no data moves. A Flush has no blocks, and its `slba` and flags, which the standard reserves, are to be 0 and
/// [`Flags::NONE`]. Of a Deallocate `blocks` counts the ranges, and its entry has neither `slba` nor flags. An admin command has no
/// blocks, and its words in place of `slba` and flags. A host writes it as [`Request`]; contracts see the pieces as a list, whatever
/// holds them.
#[derive(Debug, Drop)]
pub struct RequestOf<P> {
    /// Which command.
    pub kind: Kind,
    /// The namespace; 1 is the first.
    pub nsid: u32,
    /// The flags.
    pub flags: Flags,
    /// The first block.
    pub slba: u64,
    /// How many bytes a block of the namespace has.
    pub block_size: BlockSize,
    /// How many blocks, or ranges.
    pub blocks: u32,
    /// The pieces, in the order of the data.
    pub pieces: P,
}

/// A request whose pieces stand in the memory of one allocator.
pub type Request<A = Global> = RequestOf<Pieces<A>>;

impl<A: Allocator> Request<A> {
    /// The same request once more.
    ///
    /// # Errors
    ///
    /// Where memory is refused.
    pub fn copied<B: Allocator>(&self, alloc: B) -> Result<Request<B>, AllocError>
        ensures { IfOk result (λ request. request ≡ self.now) }
    {
        self.copied_into(Pieces::new(alloc))
    }

    /// The same request once more, its pieces in the place of others ([`Pieces::copied_into`]).
    ///
    /// # Errors
    ///
    /// Where memory is refused.
    pub fn copied_into<B: Allocator>(&self, room: Pieces<B>) -> Result<Request<B>, AllocError>
        ensures { IfOk result (λ request. request ≡ self.now) }
    {
        Ok(Request {
            kind: self.kind,
            nsid: self.nsid,
            flags: self.flags,
            slba: self.slba,
            block_size: self.block_size,
            blocks: self.blocks,
            pieces: self.pieces.copied_into(room)?,
        })
    }

    /// The pieces.
    pub fn pieces(&self) -> &[Piece]
        ensures { result.now ≡ self.now.pieces }
    {
        self.pieces.as_slice()
    }

    /// How many data pages the pieces take.
    pub fn data_pages(&self) -> usize
        ensures { result ≡ data_count self.now.pieces }
    {
        self.pieces.data_pages()
    }

    /// How many bytes the data pieces are together.
    pub fn data_bytes(&self) -> u64
        requires { length self.now.pieces ≤ 1024 }
        ensures { result ≡ sum_by data_length self.now.pieces }
    {
        self.pieces.data_bytes()
    }

    /// Checks the request. It may pass the end of the image: that is answered by the controller.
    ///
    /// # Errors
    ///
    /// The first fault in the order of [`RequestFault`].
    pub fn check(&self) -> Result<(), RequestFault>
        ensures { result_err result ≡ fault_of self.now.kind self.now.block_size self.now.blocks self.now.pieces }
    {
        let pieces = self.pieces.as_slice();
        if pieces.len() > MAX_PIECES {
            return Err(RequestFault::TooManyPieces);
        }
        let mut crosses = false;
        let mut counted = 0;
        for piece in pieces {
            if piece.is_empty() {
                return Err(RequestFault::EmptyPiece);
            }
            crosses |= piece.crosses_page();
            counted += u64::from(piece.counted(self.kind));
        }
        if crosses {
            return Err(RequestFault::CrossesPage);
        }
        if !self.kind.has_count(self.block_size, self.blocks) {
            return Err(RequestFault::BadCount);
        }
        if !self
            .kind
            .has_its_bytes(self.block_size, self.blocks, pieces, counted)
        {
            return Err(RequestFault::LengthMismatch);
        }
        if self.kind.is_hosts_own() {
            return Err(RequestFault::HostsOwn);
        }
        Ok(())
    }
}
