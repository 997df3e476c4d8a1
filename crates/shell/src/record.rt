//! What a session did, kept as a transcript.

use script_cli::transcripts::{MAX_TRANSCRIPT, Options};
use script_cli::{BLOCK_SIZE, FUA, LR, NSID, VECTOR, Verb, append_counts, append_reply};
use std::alloc::{AllocError, Global};
use step_core::{Counts, Piece, Reply, Request, Step};

/// The most bytes that a line of a script can fill any draft with: two digits each, after `fill 65535 65535 `.
const MOST_FILLED: usize = 8_183;

/// Puts bytes as hexadecimal digits, after a blank; a zero where there is none.
fn put_hex(out: &mut String, bytes: &[u8]) -> Result<(), AllocError> {
    out.push(' ')?;
    for byte in bytes {
        write!(out, "{byte:02X}")?;
    }
    if bytes.is_empty() {
        out.push_str("00")?;
    }
    Ok(())
}

/// Puts the words of a namespace, a block size and flags, as far as they differ from 1, from 512 and from none.
fn put_options(out: &mut String, request: &Request) -> Result<(), AllocError> {
    let (nsid, bytes, flags) = (request.nsid, request.block_size.bytes(), request.flags);
    if nsid != 1 {
        write!(out, " {NSID} {nsid}")?;
    }
    if bytes != 512 {
        write!(out, " {BLOCK_SIZE} {bytes}")?;
    }
    if flags.force_unit_access {
        write!(out, " {FUA}")?;
    }
    if flags.limited_retry {
        write!(out, " {LR}")?;
    }
    Ok(())
}

/// Puts the words of a vector, where there is one.
fn put_vector(out: &mut String, vector: Option<u16>) -> Result<(), AllocError> {
    match vector {
        Some(vector) => write!(out, " {VECTOR} {vector}"),
        None => Ok(()),
    }
}

/// Puts the words of a request.
fn put_request(out: &mut String, request: &Request) -> Result<(), AllocError> {
    let (kind, slba, blocks) = (request.kind.name(), request.slba, request.blocks);
    write!(out, " {kind} {slba} {blocks}")?;
    for piece in request.pieces() {
        match *piece {
            Piece::Data { offset, len } => write!(out, " {offset}+{len}")?,
            Piece::Bucket { len } => write!(out, " x{len}")?,
        }
    }
    put_options(out, request)
}

/// Puts the words after the verb of a step.
fn put_words(out: &mut String, step: &Step) -> Result<(), AllocError> {
    match step {
        Step::Reserve { q, request } => {
            write!(out, " {q}")?;
            put_request(out, request)
        }
        Step::Fill { q, cid, bytes } => {
            write!(out, " {q} {cid}")?;
            put_hex(out, bytes.as_slice())
        }
        Step::Forge { q, slot, bytes } => {
            write!(out, " {q} {slot}")?;
            put_hex(out, bytes)
        }
        Step::CreateCq { q, vector } => {
            write!(out, " {q}")?;
            put_vector(out, *vector)
        }
        Step::Build { q, cid }
        | Step::Submit { q, cid }
        | Step::Cancel { q, cid }
        | Step::Collect { q, cid }
        | Step::Gather { q, cid }
        | Step::Release { q, cid }
        | Step::Walk { q, cid }
        | Step::Complete { q, cid }
        | Step::Abort { q, cid } => write!(out, " {q} {cid}"),
        Step::Ring { q }
        | Step::Fetch { q }
        | Step::Reap { q }
        | Step::DeleteSq { q }
        | Step::DeleteCq { q }
        | Step::CreateSq { q }
        | Step::Retire { q } => write!(out, " {q}"),
        Step::Reset => Ok(()),
    }
}

/// Whether the line of a step is short enough for a script.
fn fits_line(step: &Step) -> bool {
    match step {
        Step::Fill { bytes, .. } => bytes.as_slice().len() <= MOST_FILLED,
        _ => true,
    }
}

/// What a session did, since its world was opened.
#[derive(Drop)]
pub(crate) struct Record {
    /// Lines of a transcript.
    text: String,
    /// Whether each step is there.
    is_whole: bool,
}

impl Record {
    /// The record of a world that was opened with these, and whether over zero blocks.
    pub(crate) fn open(alloc: Global, options: Options, zeros: bool) -> Result<Record, AllocError> {
        let mut text = String::new(alloc);
        if options != Options::USUAL {
            text.push_str(&options.line(alloc)?)?;
            text.push('\n')?;
        }
        if !zeros {
            text.push_str("# The image was one of a file, and not of zeros.\n")?;
        }
        Ok(Record {
            text,
            is_whole: true,
        })
    }

    /// Whether more can be kept; if not, nothing is.
    fn has_room(&mut self) -> bool {
        self.is_whole = self.is_whole && self.text.len() < MAX_TRANSCRIPT;
        if !self.is_whole {
            self.text.clear();
        }
        self.is_whole
    }

    /// Keeps the line of a step that is about to be made.
    pub(crate) fn begin(&mut self, step: &Step) -> Result<(), AllocError> {
        self.is_whole = self.is_whole && fits_line(step);
        if !self.has_room() {
            return Ok(());
        }
        self.text.push_str(Verb::of(step).name())?;
        put_words(&mut self.text, step)?;
        self.text.push('\n')
    }

    /// Keeps lines that are printed, without the number of a step's line.
    pub(crate) fn keep_lines(&mut self, lines: &str) -> Result<(), AllocError> {
        if !self.has_room() {
            return Ok(());
        }
        for line in lines.lines() {
            self.text.push_str("> ")?;
            self.text.push_str(line)?;
            self.text.push('\n')?;
        }
        Ok(())
    }

    /// Keeps what a step answered.
    pub(crate) fn end(
        &mut self,
        alloc: Global,
        verb: Verb,
        reply: &Reply,
    ) -> Result<(), AllocError> {
        let mut numbered = String::new(alloc);
        append_reply(&mut numbered, 0, verb, reply)?;
        match numbered.split_once(' ') {
            Some((_, answer)) => self.keep_lines(answer),
            None => Ok(()),
        }
    }

    /// Keeps that the owners were asked for, and who they are.
    pub(crate) fn keep_owners(&mut self, owners: &str) -> Result<(), AllocError> {
        if self.has_room() {
            self.text.push_str("owners\n")?;
        }
        self.keep_lines(owners)
    }

    /// The whole transcript, with the counts at its end; none where a step is not there, or where it is longer than one that is read.
    pub(crate) fn transcript(
        &self,
        alloc: Global,
        counts: Counts,
    ) -> Result<Option<String>, AllocError> {
        if !self.is_whole {
            return Ok(None);
        }
        let mut text = String::from_str(alloc, &self.text)?;
        text.push_str("> ")?;
        append_counts(&mut text, counts)?;
        if text.len() > MAX_TRANSCRIPT {
            return Ok(None);
        }
        Ok(Some(text))
    }
}
