//! Pages, blocks and an entry, from lines.

ghost use Rattle.std.specs.Prelude.{◌≤◌, IfOk};

use crate::explain::dump::{Dump, FILE};
use crate::explain::fault::{CaseFault, Wrong};
use crate::explain::files::file_bytes;
use crate::explain::key::Key;
use crate::explain::lines::{Line, Stop, address_of, number_of, put_in};
use crate::explain::namespace::{GivenBlock, MAX_BLOCK_BYTES, Namespace};
use crate::sparse_memory::{ALL_PAGES, SparseMemory};
use io_commands::BlockSize;
use page_memory::PAGE_BYTES;
use script_cli::{MAX_LINES, MAX_SCRIPT, begins_comment, split_line, words_of};
use std::alloc::{AllocError, AllocGlobal, Global};
use std::rt::Files;
use texts::faults::Place;

/// How many pages a pool has where no line says so.
const PAGES: u64 = 16;

/// How many blocks a namespace has where no line says so.
const BLOCKS: u64 = 64;

/// The bytes of a page.
const PAGE: u64 = 4_096;

/// The most bytes that follow an address.
const MOST_BYTES: u64 = 1_048_576;

/// What a controller is to be asked.
#[derive(Drop)]
pub struct Case {
    /// The pool.
    pub memory: SparseMemory,
    /// The namespace.
    pub namespace: Namespace,
    /// The 64 bytes of the submission entry.
    pub entry: [u8; 64],
}

/// What a line has bytes for.
#[derive(Clone, Copy)]
enum Target {
    /// The pool, starting at an address.
    Memory(u64),
    /// The block that was given last.
    Block,
    /// The entry.
    Entry,
}

/// A line with bytes, which go on in the lines after it.
#[derive(Drop)]
struct Open {
    target: Target,
    dump: Dump,
    /// The line's number, and where its first word is.
    number: u32,
    key: Place,
}

/// Addresses, or blocks, that a line has bytes for.
#[derive(Clone, Copy)]
struct Claim {
    first: u64,
    count: u64,
    number: u32,
}

/// The line that has bytes for one of this many places starting at a first one.
fn claimed(claims: &[Claim], first: u64, count: u64) -> Option<u32> {
    for claim in claims {
        let apart = if claim.first <= first {
            first - claim.first >= claim.count
        } else {
            claim.first - first >= count
        };
        if !apart {
            return Some(claim.number);
        }
    }
    None
}

/// A case whose lines are not all read. After a fault no more is read of it.
#[derive(Drop)]
pub struct CaseReader {
    folder: String,
    memory: SparseMemory,
    namespace: Namespace,
    /// The bytes of the entry, as far as they were read.
    entry: [u8; 64],
    /// Whether a line has the entry.
    has_entry: bool,
    /// Whether a line told the pool's size, or something of a page.
    pool_told: bool,
    /// Whether a line told how many blocks there are, or a block.
    blocks_told: bool,
    /// Whether a line told how many bytes a block has, or a block.
    size_told: bool,
    /// Whether a line told the namespace.
    namespace_told: bool,
    /// What has bytes in the pool.
    addresses: Vec<Claim>,
    /// Which blocks have bytes.
    blocks: Vec<Claim>,
    open: Option<Open>,
}

impl CaseReader {
    /// Before the first line: a pool of 16 pages and a namespace of 64 blocks of 512 bytes, all zero. Files that lines name are relative to a folder.
    ///
    /// # Errors
    ///
    /// Where memory is refused.
    pub fn begin(alloc: Global, folder: &str) -> Result<CaseReader, AllocError> {
        Ok(CaseReader {
            folder: String::from_str(alloc, folder)?,
            memory: SparseMemory::open(alloc, 0, PAGES)?,
            namespace: Namespace {
                number: 1,
                size: BlockSize::Bytes512,
                blocks: BLOCKS,
                given: Vec::new(alloc),
            },
            entry: [0; 64],
            has_entry: false,
            pool_told: false,
            blocks_told: false,
            size_told: false,
            namespace_told: false,
            addresses: Vec::new(alloc),
            blocks: Vec::new(alloc),
            open: None,
        })
    }

    /// Replaces the pool that no line has told of.
    fn set_pool(&mut self, key: Place, memory: SparseMemory) -> Result<(), Stop> {
        if self.pool_told {
            return Err(Stop::At(key, Wrong::Late));
        }
        self.pool_told = true;
        self.memory = memory;
        Ok(())
    }

    /// `pages N`, `pages any`: the size of the pool.
    fn pages(&mut self, alloc: Global, key: Place, line: &mut Line<'_>) -> Result<(), Stop> {
        let pages = size_of(line, 8, ALL_PAGES)?;
        line.done()?;
        self.set_pool(key, SparseMemory::open(alloc, 0, pages)?)
    }

    /// `memory BASE SIZE`: where the pool is.
    fn memory(&mut self, alloc: Global, key: Place, line: &mut Line<'_>) -> Result<(), Stop> {
        let first = pages_of(line, ALL_PAGES - 1)?;
        let place = line.peek();
        let count = pages_of(line, ALL_PAGES - first)?;
        if count == 0 {
            return Err(Stop::At(place.unwrap_or(key), Wrong::NoMultiple));
        }
        line.done()?;
        self.set_pool(key, SparseMemory::open(alloc, first, count)?)
    }

    /// `blocks N`, `blocks any`: how many blocks the namespace has.
    fn blocks(&mut self, key: Place, line: &mut Line<'_>) -> Result<(), Stop> {
        let blocks = size_of(line, 1, u64::MAX)?;
        line.done()?;
        if self.blocks_told {
            return Err(Stop::At(key, Wrong::Late));
        }
        self.blocks_told = true;
        self.namespace.blocks = blocks;
        Ok(())
    }

    /// `block_size N`: how many bytes a block has.
    fn block_size(&mut self, key: Place, line: &mut Line<'_>) -> Result<(), Stop> {
        let place = line.wanted();
        let Some(size) = number_of(line.word(place)).and_then(BlockSize::of) else {
            return Err(Stop::At(place, Wrong::NoBlockSize));
        };
        line.done()?;
        if self.size_told {
            return Err(Stop::At(key, Wrong::Late));
        }
        self.size_told = true;
        self.namespace.size = size;
        Ok(())
    }

    /// `nsid N`: the namespace.
    fn nsid(&mut self, key: Place, line: &mut Line<'_>) -> Result<(), Stop> {
        let number = line.number(0, u64::from(u32::MAX))?;
        line.done()?;
        if self.namespace_told {
            return Err(Stop::At(key, Wrong::SecondNamespace));
        }
        self.namespace_told = true;
        self.namespace.number = number as u32;
        Ok(())
    }

    /// Takes the number of a page of the pool.
    fn page_number(&self, line: &mut Line<'_>) -> Result<u64, Stop> {
        let (first, count) = (self.memory.first(), self.memory.count());
        line.number(first, first.saturating_add(count).saturating_sub(1))
    }

    /// Takes an address of the pool.
    fn address(&self, line: &mut Line<'_>) -> Result<u64, Stop> {
        let place = line.wanted();
        match address_of(line.word(place)) {
            Some(address) if self.memory.is_of_pool(address / PAGE) => Ok(address),
            _ => {
                let first = self.memory.first().saturating_mul(PAGE);
                let more = self.memory.count().saturating_sub(1).saturating_mul(PAGE);
                let last = first.saturating_add(more).saturating_add(PAGE - 1);
                Err(Stop::At(place, Wrong::NoAddress { first, last }))
            }
        }
    }

    /// `out P`, `out ADDRESS`: a page that is out.
    fn out(&mut self, line: &mut Line<'_>) -> Result<(), Stop> {
        let is_address = match line.peek() {
            Some(place) => address_of(line.word(place)).is_some(),
            None => false,
        };
        let page = if is_address {
            self.address(line)? / PAGE
        } else {
            self.page_number(line)?
        };
        line.done()?;
        self.pool_told = true;
        self.memory.take_out(page)?;
        Ok(())
    }

    /// Begins a line with bytes, this many at most.
    fn begin_bytes(&mut self, alloc: Global, target: Target, most: usize, number: u32, key: Place) {
        self.open = Some(Open {
            target,
            dump: Dump::begin(alloc, most),
            number,
            key,
        });
    }

    /// `page P BYTES`: the bytes of a page, and zeros after them.
    fn page(
        &mut self,
        alloc: Global,
        number: u32,
        key: Place,
        line: &mut Line<'_>,
    ) -> Result<(), Stop> {
        let place = line.peek().unwrap_or(key);
        let page = self.page_number(line)?;
        if self.memory.is_out(page) {
            return Err(Stop::At(key, Wrong::IsOut));
        }
        let first = page.saturating_mul(PAGE);
        if let Some(other) = claimed(self.addresses.as_slice(), first, PAGE) {
            return Err(Stop::At(place, Wrong::Given(other)));
        }
        self.pool_told = true;
        self.addresses
            .push(Claim {
                first,
                count: PAGE,
                number,
            })
            .map_err(AllocError::from)?;
        self.begin_bytes(alloc, Target::Memory(first), PAGE_BYTES, number, key);
        Ok(())
    }

    /// `at ADDRESS BYTES`: bytes starting at an address.
    fn at(
        &mut self,
        alloc: Global,
        number: u32,
        key: Place,
        line: &mut Line<'_>,
    ) -> Result<(), Stop> {
        let first = self.address(line)?;
        let end = self.memory.first().saturating_add(self.memory.count());
        let pages = end.saturating_sub(first / PAGE);
        let most = pages
            .saturating_mul(PAGE)
            .saturating_sub(first % PAGE)
            .min(MOST_BYTES);
        self.pool_told = true;
        self.addresses
            .push(Claim {
                first,
                count: 0,
                number,
            })
            .map_err(AllocError::from)?;
        self.begin_bytes(alloc, Target::Memory(first), most as usize, number, key);
        Ok(())
    }

    /// `block N BYTES`: the bytes of a block, and zeros after them.
    fn block(
        &mut self,
        alloc: Global,
        number: u32,
        key: Place,
        line: &mut Line<'_>,
    ) -> Result<(), Stop> {
        let place = line.peek().unwrap_or(key);
        let first = line.number(0, self.namespace.blocks.saturating_sub(1))?;
        if let Some(other) = claimed(self.blocks.as_slice(), first, 1) {
            return Err(Stop::At(place, Wrong::Given(other)));
        }
        self.blocks_told = true;
        self.size_told = true;
        self.blocks
            .push(Claim {
                first,
                count: 1,
                number,
            })
            .map_err(AllocError::from)?;
        self.namespace
            .given
            .push(GivenBlock {
                number: first,
                bytes: [0; MAX_BLOCK_BYTES],
            })
            .map_err(AllocError::from)?;
        let most = self.namespace.size.bytes();
        self.begin_bytes(alloc, Target::Block, most, number, key);
        Ok(())
    }

    /// `sqe BYTES`: the entry.
    fn sqe(&mut self, alloc: Global, number: u32, key: Place) -> Result<(), Stop> {
        if self.has_entry {
            return Err(Stop::At(key, Wrong::Twice));
        }
        self.has_entry = true;
        self.begin_bytes(alloc, Target::Entry, 64, number, key);
        Ok(())
    }

    /// Puts bytes into the pool.
    fn put_bytes(&mut self, place: Place, address: u64, bytes: &[u8]) -> Result<(), Stop> {
        let mut rest = bytes;
        let mut page = address / PAGE;
        let mut at = (address % PAGE) as usize;
        for _ in 0..=bytes.len() / PAGE_BYTES + 1 {
            if rest.is_empty() {
                break;
            }
            if self.memory.is_out(page) {
                return Err(Stop::At(place, Wrong::IsOut));
            }
            let (here, behind) = rest.split_at(rest.len().min(PAGE_BYTES.saturating_sub(at)));
            if at <= PAGE_BYTES - here.len() {
                self.memory.put(page, at, here)?;
            }
            rest = behind;
            page = page.saturating_add(1);
            at = 0;
        }
        Ok(())
    }

    /// Puts bytes that are in a line, the first of which is this one of their target.
    fn put(&mut self, target: Target, place: Place, from: usize, bytes: &[u8]) -> Result<(), Stop> {
        match target {
            Target::Memory(first) => {
                let address = first.saturating_add(from as u64);
                let Some((own, others)) = self.addresses.as_mut_slice().split_last_mut() else {
                    return Ok(());
                };
                if let Some(other) = claimed(others, address, bytes.len() as u64) {
                    return Err(Stop::At(place, Wrong::Given(other)));
                }
                let count = (from as u64).saturating_add(bytes.len() as u64);
                own.count = own.count.max(count);
                self.put_bytes(place, address, bytes)
            }
            Target::Block => {
                if let Some(block) = self.namespace.given.as_mut_slice().last_mut() {
                    put_in(&mut block.bytes, from, bytes);
                }
                Ok(())
            }
            Target::Entry => {
                put_in(&mut self.entry, from, bytes);
                Ok(())
            }
        }
    }

    /// Reads the bytes that are left of a line.
    fn read_bytes<R: AllocGlobal + Files>(
        &mut self,
        rt: &R,
        line: &mut Line<'_>,
    ) -> Result<(), Stop> {
        let Some(open) = self.open.take() else {
            return line.done();
        };
        let mut open = open;
        for _ in 0..line.len() {
            let Some(place) = line.peek() else {
                break;
            };
            let (word, mut from) = (line.word(place), open.dump.filled());
            let bytes = if matches!(word, [FILE, ..]) {
                line.next();
                let room = open.dump.room();
                let bytes = file_bytes(rt, self.folder.as_str(), place, word, room)?;
                open.dump.add(bytes.len());
                bytes
            } else {
                let bytes = open.dump.line(rt.alloc(), line)?;
                from = open.dump.filled().saturating_sub(bytes.len());
                bytes
            };
            self.put(open.target, place, from, bytes.as_slice())?;
        }
        self.open = Some(open);
        Ok(())
    }

    /// Ends the line whose bytes go on.
    fn close(&mut self) -> Result<(), Stop> {
        let Some(open) = self.open.take() else {
            return Ok(());
        };
        let found = open.dump.filled();
        if open.dump.is_cut() {
            return Err(Stop::Before(open.number, open.key, Wrong::NoEnd));
        }
        match open.target {
            Target::Entry if found != 64 => {
                let wanted = 64;
                let wrong = Wrong::NotSoMany { found, wanted };
                Err(Stop::Before(open.number, open.key, wrong))
            }
            _ => Ok(()),
        }
    }

    /// Reads what follows the first word of a line.
    fn keyed<R: AllocGlobal + Files>(
        &mut self,
        rt: &R,
        number: u32,
        key: Place,
        what: Key,
        line: &mut Line<'_>,
    ) -> Result<(), Stop> {
        let alloc = rt.alloc();
        self.close()?;
        match what {
            Key::Pages => return self.pages(alloc, key, line),
            Key::Memory => return self.memory(alloc, key, line),
            Key::Blocks => return self.blocks(key, line),
            Key::BlockSize => return self.block_size(key, line),
            Key::Namespace => return self.nsid(key, line),
            Key::Out => return self.out(line),
            Key::Page => self.page(alloc, number, key, line)?,
            Key::At => self.at(alloc, number, key, line)?,
            Key::Block => self.block(alloc, number, key, line)?,
            Key::Entry => self.sqe(alloc, number, key)?,
        }
        self.read_bytes(rt, line)
    }

    /// Reads the line of a number, without its line feed.
    ///
    /// # Errors
    ///
    /// What is wrong with it, and where, or with the line that it ends.
    pub fn line<R: AllocGlobal + Files>(
        &mut self,
        rt: &R,
        number: u32,
        bytes: &[u8],
    ) -> Result<(), Stop> {
        if words_of(bytes).is_err() {
            let place = Place { start: 0, end: 1 };
            return Err(Stop::At(place, Wrong::NoText));
        }
        let mut line = Line::of(bytes);
        let Some(first) = line.peek() else {
            return Ok(());
        };
        let word = line.word(first);
        if begins_comment(word) {
            return Ok(());
        }
        if let Some(key) = Key::named(word) {
            line.next();
            return self.keyed(rt, number, first, key, &mut line);
        }
        if self.open.is_none() || !begins_bytes(word) {
            return Err(Stop::At(first, Wrong::NoKey));
        }
        self.read_bytes(rt, &mut line)
    }

    /// The case, if a line had the entry.
    ///
    /// # Errors
    ///
    /// What is wrong with the last line that has bytes.
    pub fn end(self) -> Result<Option<Case>, Stop> {
        let mut reader = self;
        reader.close()?;
        let CaseReader {
            memory,
            namespace,
            entry,
            has_entry,
            ..
        } = reader;
        if !has_entry {
            return Ok(None);
        }
        Ok(Some(Case {
            memory,
            namespace,
            entry,
        }))
    }
}

/// Whether a word can begin a line with bytes.
fn begins_bytes(word: &[u8]) -> bool {
    match word {
        [b'@' | b'*' | b'0'..=b'9' | b'a'..=b'f' | b'A'..=b'F', ..] => true,
        _ => word == "unsigned".as_bytes() || word == "};".as_bytes(),
    }
}

/// Takes a size: a number up to 65,536, or `any`, which is as many as there may be.
fn size_of(line: &mut Line<'_>, least: u32, all: u64) -> Result<u64, Stop>
    requires { 65536 ≤ all }
    ensures { IfOk result (λ n. n ≤ all) }
{
    let most = 65_536;
    let place = line.wanted();
    let word = line.word(place);
    if word == "any".as_bytes() {
        return Ok(all);
    }
    match number_of(word) {
        Some(number) if u64::from(least) <= number && number <= u64::from(most) => Ok(number),
        _ => Err(Stop::At(place, Wrong::NoSize { least, most })),
    }
}

/// Takes a number of bytes that is one of whole pages, and answers how many pages, this many at most.
fn pages_of(line: &mut Line<'_>, most: u64) -> Result<u64, Stop>
    ensures { IfOk result (λ n. n ≤ most) }
{
    let place = line.wanted();
    match address_of(line.word(place)) {
        Some(bytes) if bytes % PAGE == 0 && bytes / PAGE <= most => Ok(bytes / PAGE),
        _ => Err(Stop::At(place, Wrong::NoMultiple)),
    }
}

/// Reads a case: a line for each page and each block that is not all zeros, for each page that is out, and for the entry. Files that lines name are relative to
/// a folder, which ends with a slash, or is empty for the working folder.
///
/// # Errors
///
/// `TooLong` before any line is read, where there are more than 1,048,576 bytes, and where there are more than 65,536 lines; else the first fault of
/// the first line that has one; `NoEntry` where no line has an entry; and `Memory` where memory is refused.
pub(crate) fn read_case<R: AllocGlobal + Files>(
    rt: &R,
    folder: &str,
    text: &[u8],
) -> Result<Case, CaseFault> {
    if text.len() > MAX_SCRIPT {
        return Err(CaseFault::TooLong);
    }
    let Ok(mut reader) = CaseReader::begin(rt.alloc(), folder) else {
        return Err(CaseFault::Memory);
    };
    let mut rest = text;
    for number in 1..=MAX_LINES {
        if rest.is_empty() {
            break;
        }
        let (line, after) = split_line(rest);
        if let Err(stop) = reader.line(rt, number, line) {
            return Err(stop.fault(number));
        }
        rest = after;
    }
    if !rest.is_empty() {
        return Err(CaseFault::TooLong);
    }
    match reader.end() {
        Ok(Some(case)) => Ok(case),
        Ok(None) => Err(CaseFault::NoEntry),
        Err(stop) => Err(stop.fault(1)),
    }
}
