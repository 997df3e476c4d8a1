//! How far a walk is, and what one step does.

ghost use Rattle.std.specs.Prelude.{◌≡◌, ◌<◌, ◌≤◌, ◌+◌, ◌-◌, ◌*◌, ◌/◌, ◌^◌, ◌⊎◌, ◌++◌, ◌&&◌, ℕ, List, OnOk, OnErr, Some, None, length, min, nat_eq, not, true, false};
ghost use Rattle.page_memory.specs.Memory.{Memory, bytes_at, pages_reached};
ghost use Rattle.sgl_descriptor.specs.declared.Descriptor.TheVariants.{BitBucket};
ghost use Rattle.sgl_descriptor.specs.Spelling.{descriptor_of};
ghost use Rattle.sgl_descriptor.specs.Targets.{counted as spec_counted};
ghost use Rattle.controller_walk.specs.declared.progress.State.TheVariants.{Over};
ghost use Rattle.controller_walk.specs.Units.{next as spec_next, after_read, goes_on, rest_of, from_place, moving, first_part as spec_first_part, pages_spanned, segment_start, cause_status};
ghost use Rattle.controller_walk.specs.Faults.{fault_of, fault_met, fault_at, fault_status, answered_status, cause_if, cause_moved, cause_next, cause_taken, counts_next, counts_of, counts_taken, ends_short, is_short, taken_last as spec_taken_last};
ghost use Rattle.controller_walk.specs.declared.walk.WalkState.TheVariants.{End, Fault};
ghost use Rattle.controller_walk.specs.declared.cause.FaultCause.TheVariants.{ListTooShort};
ghost use Rattle.controller_walk.specs.Progress.{IsProgress, IsBounded, IsClear, IsAfter, IsCursor, IsBlock};
ghost use Rattle.controller_walk.specs.Walks.{course, is_over, is_more, IfMore, DoesFirst, LeavesRest, Leaves, left_of, reads_first, Keeps, Moved};

use crate::cause::{DescriptorAt, FaultCause, WalkFault};
use crate::cursor::{Cursor, Named};
use crate::faults::first_cause;
use crate::walk::WalkState;
use page_memory::{Dma, Unreadable};
use sgl_descriptor::{Descriptor, Direction};

/// What is left to move of a Data Block.
#[derive(Clone, Copy, Debug)]
pub struct Block {
    /// The address of the next byte.
    pub place: u64,
    /// How many bytes are left.
    pub len: u32,
    /// Where the next byte is among the command's bytes.
    pub offset: u32,
    /// The address of its descriptor; `None` for the entry's.
    pub descriptor: Option<u64>,
}

/// What the next step meets.
#[derive(Clone, Copy, Debug)]
pub enum State {
    /// The entry's descriptor.
    First([u8; 16]),
    /// A descriptor in memory.
    Next(Cursor),
    /// A Data Block, and after it another descriptor or the list's end.
    Data(Block, Option<Cursor>),
    /// Nothing: the verdict was answered, with that fault.
    Over(Option<WalkFault>),
}

/// How far a walk is.
#[derive(Clone, Copy, Debug)]
pub struct Progress {
    /// Which way the bytes go.
    pub direction: Direction,
    /// How many bytes the command moves.
    pub need: u32,
    /// How many of them no descriptor has counted yet.
    pub wanted: u32,
    /// How many more descriptors the list may have.
    pub allowed: u32,
    /// What the next step meets.
    pub state: State,
}

/// The cursor of the entry's own descriptor.
const ENTRY: Cursor = Cursor {
    place: 0,
    left: 1,
    named: Named::Unnamed,
};

impl Progress {
    /// Does the next unit.
    pub fn step<D: Dma>(self, dma: &mut D, staging: &mut [u8]) -> (Progress, WalkState)
        requires proper { IsProgress self }
        requires open { is_over self ≡ false }
        requires staging { length staging.old ≡ self.need }
        requires room { length (D.reached dma.old) ≤ 2 }
        ensures does { DoesFirst (course (D.memory dma.old) self) self.direction (D.memory dma.old) (D.memory dma.new) staging.old staging.new (D.reached dma.old) (D.reached dma.new) }
        ensures leaves { LeavesRest (course (D.memory dma.old) self) result.1 (course (D.memory dma.old) result.0) }
        ensures proper { IsProgress result.0 }
        ensures over { is_over result.0 ≡ not (is_more result.1) }
        ensures fault { fault_of result.0 ≡ fault_met (D.memory dma.old) self }
        ensures status { fault_status (fault_of result.0) ≡ answered_status result.1 }
        ensures counts { result.0.wanted ≡ self.wanted - counts_of (D.memory dma.old) self }
        ensures ended { result.1 ≡ End → result.0.wanted ≡ 0 }
        ensures kept { Keeps self result.0 }
        ensures fewer { IfMore result.1 (left_of result.0 < left_of self) }
        ensures reads { reads_first (course (D.memory dma.old) self) + result.0.allowed ≤ self.allowed }
        ensures unlisted { D.unlisted dma.new ≡ D.unlisted dma.old }
        ensures pool { D.page_count dma.new ≡ D.page_count dma.old }
    {
        match self.state {
            State::First(sgl1) => self.take(ENTRY, None, &sgl1),
            State::Next(cursor) => self.take_next(cursor, dma),
            State::Data(block, after) => self.move_part(block, after, dma, staging),
            // Nobody steps a walk that is over: the caller guarantees it.
            State::Over(_) => unreachable!(),
        }
    }

    /// The descriptor that was taken last, which is at that address.
    pub fn taken_last(self, place: Option<u64>) -> DescriptorAt
        requires bounded { IsBounded self }
        ensures { result ≡ spec_taken_last self place }
    {
        DescriptorAt {
            number: 4096 - self.allowed,
            place,
        }
    }

    /// The progress of a walk that ends well.
    fn end(self) -> (Progress, WalkState)
        ensures { (result.0 ≡ record self { state = Over None }) × (result.1 ≡ End) }
    {
        let state = State::Over(None);
        (Progress { state, ..self }, WalkState::End)
    }

    /// The progress of a walk that meets a fault at a descriptor.
    fn fail(self, cause: FaultCause, at: DescriptorAt) -> (Progress, WalkState)
        ensures { (result.0 ≡ record self { state = Over (Some (record { cause = cause; at = at })) }) × (result.1 ≡ Fault (cause_status cause)) }
    {
        let state = State::Over(Some(WalkFault { cause, at }));
        (Progress { state, ..self }, WalkState::Fault(cause.status()))
    }

    /// Goes on after a descriptor that is done and is at `at`, if bytes are still wanted.
    #[tactic(auto, using(crate::proofs::Courses::more_at, crate::proofs::Courses::still_wants))]
    fn go(self, after: Option<Cursor>, at: Option<u64>) -> (Progress, WalkState)
        requires bounded { IsBounded self }
        requires after { IsAfter after }
        ensures leaves { (m : Memory) → Leaves (rest_of self.allowed m self.direction self.need after self.wanted) result.1 (course m result.0) }
        ensures proper { IsProgress result.0 }
        ensures over { is_over result.0 ≡ not (is_more result.1) }
        ensures fault { fault_of result.0 ≡ fault_at (spec_taken_last self at) (cause_if (ends_short after self.wanted) ListTooShort) }
        ensures status { fault_status (fault_of result.0) ≡ answered_status result.1 }
        ensures counts { result.0.wanted ≡ self.wanted }
        ensures ended { result.1 ≡ End → result.0.wanted ≡ 0 }
        ensures kept { Keeps self result.0 }
        ensures fewer { IfMore result.1 (left_of result.0 ≤ 1 + 3 * self.allowed + self.wanted / 4096) }
        ensures allowed { result.0.allowed ≡ self.allowed }
    {
        if self.wanted == 0 {
            return self.end();
        }
        match after {
            Some(cursor) => {
                let state = State::Next(cursor);
                (Progress { state, ..self }, WalkState::More)
            }
            None => self.fail(FaultCause::ListTooShort, self.taken_last(at)),
        }
    }
}

impl Progress {
    /// Reads and takes the next descriptor.
    fn take_next<D: Dma>(self, cursor: Cursor, dma: &mut D) -> (Progress, WalkState)
        requires bounded { IsBounded self }
        requires cursor { IsCursor cursor }
        requires room { length (D.reached dma.old) ≤ 2 }
        ensures does { (bytes : List ℕ) → DoesFirst (from_place self.allowed (D.memory dma.old) self.direction self.need cursor self.wanted) self.direction (D.memory dma.old) (D.memory dma.new) bytes bytes (D.reached dma.old) (D.reached dma.new) }
        ensures leaves { LeavesRest (from_place self.allowed (D.memory dma.old) self.direction self.need cursor self.wanted) result.1 (course (D.memory dma.old) result.0) }
        ensures proper { IsProgress result.0 }
        ensures over { is_over result.0 ≡ not (is_more result.1) }
        ensures fault { fault_of result.0 ≡ fault_at (record { number = 4097 - self.allowed; place = Some cursor.place }) (cause_next (D.memory dma.old) self.direction self.allowed cursor self.wanted) }
        ensures status { fault_status (fault_of result.0) ≡ answered_status result.1 }
        ensures counts { result.0.wanted ≡ self.wanted - counts_next (D.memory dma.old) self.direction self.allowed cursor }
        ensures ended { result.1 ≡ End → result.0.wanted ≡ 0 }
        ensures kept { Keeps self result.0 }
        ensures fewer { IfMore result.1 (left_of result.0 < 1 + 3 * self.allowed + self.wanted / 4096) }
        ensures reads { reads_first (from_place self.allowed (D.memory dma.old) self.direction self.need cursor self.wanted) + result.0.allowed ≤ self.allowed }
        ensures unlisted { D.unlisted dma.new ≡ D.unlisted dma.old }
        ensures pool { D.page_count dma.new ≡ D.page_count dma.old }
    {
        let at = DescriptorAt {
            number: 4097 - self.allowed,
            place: Some(cursor.place),
        };
        if self.allowed == 0 {
            return self.fail(FaultCause::TooManyDescriptors, at);
        }
        let mut bytes = [0; 16];
        match dma.read(cursor.place, &mut bytes) {
            Err(_) => self.fail(FaultCause::UnreadableDescriptor, at),
            Ok(()) => {
                let allowed = self.allowed - 1;
                Progress { allowed, ..self }.take(cursor, at.place, &bytes)
            }
        }
    }

    /// Takes a descriptor that is at `at` and whose bytes were read.
    fn take(self, cursor: Cursor, at: Option<u64>, bytes: &[u8; 16]) -> (Progress, WalkState)
        requires bounded { IsBounded self }
        requires cursor { IsCursor cursor }
        ensures leaves { (m : Memory) → Leaves (after_read m self.direction self.need cursor self.wanted (rest_of self.allowed m self.direction self.need) (descriptor_of bytes.now)) result.1 (course m result.0) }
        ensures proper { IsProgress result.0 }
        ensures over { is_over result.0 ≡ not (is_more result.1) }
        ensures fault { fault_of result.0 ≡ fault_at (spec_taken_last self at) (cause_taken self.direction cursor self.wanted (descriptor_of bytes.now)) }
        ensures status { fault_status (fault_of result.0) ≡ answered_status result.1 }
        ensures counts { result.0.wanted ≡ self.wanted - counts_taken self.direction cursor (descriptor_of bytes.now) }
        ensures ended { result.1 ≡ End → result.0.wanted ≡ 0 }
        ensures kept { Keeps self result.0 }
        ensures fewer { IfMore result.1 (left_of result.0 < 4 + 3 * self.allowed + self.wanted / 4096) }
        ensures allowed { result.0.allowed ≡ self.allowed }
    {
        match Descriptor::read(bytes) {
            Err(_) => self.fail(FaultCause::UnknownType, self.taken_last(at)),
            Ok(descriptor) => match first_cause(cursor, descriptor) {
                Some(cause) => self.fail(cause, self.taken_last(at)),
                None => self.follow(cursor, at, descriptor),
            },
        }
    }

    /// Goes on after a descriptor without fault that is at `at`, or into it.
    fn follow(
        self,
        cursor: Cursor,
        at: Option<u64>,
        descriptor: Descriptor,
    ) -> (Progress, WalkState)
        requires bounded { IsBounded self }
        requires cursor { IsCursor cursor }
        requires clear { IsClear descriptor }
        ensures leaves { (m : Memory) → Leaves (goes_on m self.direction self.need cursor self.wanted (rest_of self.allowed m self.direction self.need) descriptor) result.1 (course m result.0) }
        ensures proper { IsProgress result.0 }
        ensures over { is_over result.0 ≡ not (is_more result.1) }
        ensures fault { fault_of result.0 ≡ fault_at (spec_taken_last self at) (cause_if (is_short self.direction cursor self.wanted descriptor) ListTooShort) }
        ensures status { fault_status (fault_of result.0) ≡ answered_status result.1 }
        ensures counts { result.0.wanted ≡ self.wanted - spec_counted self.direction descriptor }
        ensures ended { result.1 ≡ End → result.0.wanted ≡ 0 }
        ensures kept { Keeps self result.0 }
        ensures fewer { IfMore result.1 (left_of result.0 < 4 + 3 * self.allowed + self.wanted / 4096) }
        ensures allowed { result.0.allowed ≡ self.allowed }
    {
        match descriptor {
            Descriptor::DataBlock { addr, len } => self.start(addr, len, next(cursor), at),
            Descriptor::BitBucket { .. } => self.count(descriptor).go(next(cursor), at),
            Descriptor::Segment { addr, len } => {
                self.go(Some(segment(addr, len, Named::BySegment)), at)
            }
            Descriptor::LastSegment { addr, len } => {
                self.go(Some(segment(addr, len, Named::ByLastSegment)), at)
            }
        }
    }

    /// Counts the bytes of a descriptor, as far as they are wanted.
    fn count(self, descriptor: Descriptor) -> Progress
        ensures { result ≡ record self { wanted = self.wanted - spec_counted self.direction descriptor } }
    {
        let wanted = self
            .wanted
            .saturating_sub(counted(self.direction, descriptor));
        Progress { wanted, ..self }
    }
}

impl Progress {
    /// Begins to move the wanted prefix of a Data Block whose descriptor is at `at`, and after which another may come.
    fn start(
        self,
        place: u64,
        len: u32,
        after: Option<Cursor>,
        at: Option<u64>,
    ) -> (Progress, WalkState)
        requires bounded { IsBounded self }
        requires after { IsAfter after }
        requires end { place + len ≤ 2 ^ 64 }
        ensures leaves { (m : Memory) → Leaves (moving m (pages_spanned place (min len self.wanted)) place (min len self.wanted) (self.need - self.wanted) (rest_of self.allowed m self.direction self.need after (self.wanted - len))) result.1 (course m result.0) }
        ensures proper { IsProgress result.0 }
        ensures over { is_over result.0 ≡ not (is_more result.1) }
        ensures fault { fault_of result.0 ≡ fault_at (spec_taken_last self at) (cause_if (nat_eq len 0 && ends_short after self.wanted) ListTooShort) }
        ensures status { fault_status (fault_of result.0) ≡ answered_status result.1 }
        ensures counts { result.0.wanted ≡ self.wanted - len }
        ensures ended { result.1 ≡ End → result.0.wanted ≡ 0 }
        ensures kept { Keeps self result.0 }
        ensures fewer { IfMore result.1 (left_of result.0 < 4 + 3 * self.allowed + self.wanted / 4096) }
        ensures allowed { result.0.allowed ≡ self.allowed }
    {
        let offset = self.need - self.wanted;
        let front = len.min(self.wanted);
        let counted = Progress {
            wanted: self.wanted - front,
            ..self
        };
        if front == 0 {
            return counted.go(after, at);
        }
        let block = Block {
            place,
            len: front,
            offset,
            descriptor: at,
        };
        let state = State::Data(block, after);
        (Progress { state, ..counted }, WalkState::More)
    }

    /// Moves the part of a Data Block that lies in its first page.
    fn move_part<D: Dma>(
        self,
        block: Block,
        after: Option<Cursor>,
        dma: &mut D,
        staging: &mut [u8],
    ) -> (Progress, WalkState)
        requires bounded { IsBounded self }
        requires block { IsBlock self.need self.wanted block }
        requires after { IsAfter after }
        requires staging { length staging.old ≡ self.need }
        requires room { length (D.reached dma.old) ≤ 2 }
        ensures does { DoesFirst (moving (D.memory dma.old) (pages_spanned block.place block.len) block.place block.len block.offset (rest_of self.allowed (D.memory dma.old) self.direction self.need after self.wanted)) self.direction (D.memory dma.old) (D.memory dma.new) staging.old staging.new (D.reached dma.old) (D.reached dma.new) }
        ensures leaves { LeavesRest (moving (D.memory dma.old) (pages_spanned block.place block.len) block.place block.len block.offset (rest_of self.allowed (D.memory dma.old) self.direction self.need after self.wanted)) result.1 (course (D.memory dma.old) result.0) }
        ensures proper { IsProgress result.0 }
        ensures over { is_over result.0 ≡ not (is_more result.1) }
        ensures fault { fault_of result.0 ≡ fault_at (spec_taken_last self block.descriptor) (cause_moved (D.memory dma.old) block after self.wanted) }
        ensures status { fault_status (fault_of result.0) ≡ answered_status result.1 }
        ensures counts { result.0.wanted ≡ self.wanted }
        ensures ended { result.1 ≡ End → result.0.wanted ≡ 0 }
        ensures kept { Keeps self result.0 }
        ensures fewer { IfMore result.1 (left_of result.0 < 1 + pages_spanned block.place block.len + 3 * self.allowed + self.wanted / 4096) }
        ensures reads { reads_first (moving (D.memory dma.old) (pages_spanned block.place block.len) block.place block.len block.offset (rest_of self.allowed (D.memory dma.old) self.direction self.need after self.wanted)) + result.0.allowed ≤ self.allowed }
        ensures unlisted { D.unlisted dma.new ≡ D.unlisted dma.old }
        ensures pool { D.page_count dma.new ≡ D.page_count dma.old }
    {
        let n = first_part(block.place, block.len);
        let offset = block.offset as usize;
        match transfer(
            self.direction,
            block.place,
            dma,
            staging,
            offset,
            n as usize,
        ) {
            Err(_) => {
                self.fail(
                    FaultCause::UnreadableData,
                    self.taken_last(block.descriptor),
                )
            }
            Ok(()) => self.advance(block, n, after),
        }
    }

    /// Goes on after the part of a Data Block that was moved.
    fn advance(self, block: Block, n: u32, after: Option<Cursor>) -> (Progress, WalkState)
        requires bounded { IsBounded self }
        requires block { IsBlock self.need self.wanted block }
        requires after { IsAfter after }
        requires part { n ≡ spec_first_part block.place block.len }
        ensures leaves { (m : Memory) → Leaves (moving m (pages_spanned (block.place + n) (block.len - n)) (block.place + n) (block.len - n) (block.offset + n) (rest_of self.allowed m self.direction self.need after self.wanted)) result.1 (course m result.0) }
        ensures proper { IsProgress result.0 }
        ensures over { is_over result.0 ≡ not (is_more result.1) }
        ensures fault { fault_of result.0 ≡ fault_at (spec_taken_last self block.descriptor) (cause_if (nat_eq n block.len && ends_short after self.wanted) ListTooShort) }
        ensures status { fault_status (fault_of result.0) ≡ answered_status result.1 }
        ensures counts { result.0.wanted ≡ self.wanted }
        ensures ended { result.1 ≡ End → result.0.wanted ≡ 0 }
        ensures kept { Keeps self result.0 }
        ensures fewer { IfMore result.1 (left_of result.0 ≤ 1 + pages_spanned (block.place + n) (block.len - n) + 3 * self.allowed + self.wanted / 4096) }
        ensures allowed { result.0.allowed ≡ self.allowed }
    {
        if n == block.len {
            return self.go(after, block.descriptor);
        }
        let rest = Block {
            place: block.place + u64::from(n),
            len: block.len - n,
            offset: block.offset + n,
            descriptor: block.descriptor,
        };
        let state = State::Data(rest, after);
        (Progress { state, ..self }, WalkState::More)
    }
}

/// How many bytes a descriptor counts: a Bit Bucket counts only for a destination, and a link never.
fn counted(direction: Direction, descriptor: Descriptor) -> u32
    ensures { result ≡ spec_counted direction descriptor }
{
    match descriptor {
        Descriptor::DataBlock { len, .. } => len,
        Descriptor::BitBucket { len } => match direction {
            Direction::Destination => len,
            Direction::Source => 0,
        },
        Descriptor::Segment { .. } | Descriptor::LastSegment { .. } => 0,
    }
}

/// The first descriptor of a segment, which has `len` bytes.
fn segment(addr: u64, len: u32, named: Named) -> Cursor
    ensures { result ≡ segment_start named addr len }
{
    Cursor {
        place: addr,
        left: len / 16,
        named,
    }
}

/// The descriptor after one, if its segment has another.
fn next(cursor: Cursor) -> Option<Cursor>
    requires { cursor.left ≤ 1 ⊎ (cursor.place + 16 * cursor.left ≤ 2 ^ 64) }
    ensures { result ≡ spec_next cursor }
{
    if cursor.left > 1 {
        Some(Cursor {
            place: cursor.place + 16,
            left: cursor.left - 1,
            named: cursor.named,
        })
    } else {
        None
    }
}

/// How much of a Data Block lies in its first page.
fn first_part(place: u64, len: u32) -> u32
    requires { 0 < len }
    ensures part { result ≡ spec_first_part place len }
    ensures some { 0 < result }
    ensures most { result ≤ 4096 }
    ensures within { result ≤ len }
{
    let room = 4096 - (place % 4096) as u32;
    if len <= room { len } else { room }
}

/// In how many pages a Data Block lies.
pub fn pages(block: Block) -> u32
    requires some { 0 < block.len }
    requires few { block.len ≤ 1048576 }
    requires end { block.place + block.len ≤ 2 ^ 64 }
    ensures { result ≡ pages_spanned block.place block.len }
{
    let last = block.place + (u64::from(block.len) - 1);
    (last / 4096 - block.place / 4096) as u32 + 1
}

/// Moves bytes between the memory and a part of the command's bytes.
fn transfer<D: Dma>(
    direction: Direction,
    place: u64,
    dma: &mut D,
    staging: &mut [u8],
    offset: usize,
    n: usize,
) -> Result<(), Unreadable>
    requires room { length (D.reached dma.old) ≤ 2 }
    requires some { 0 < n }
    requires few { n ≤ 4096 }
    requires within { offset + n ≤ length staging.old }
    ensures moved { OnOk result (Moved direction place n offset (D.memory dma.old) (D.memory dma.new) staging.old staging.new) }
    ensures there { OnOk result ((found : List ℕ) × (bytes_at (D.memory dma.old) place n ≡ Some found)) }
    ensures touched { OnOk result (D.reached dma.new ≡ D.reached dma.old ++ pages_reached place n) }
    ensures missing { OnErr result (bytes_at (D.memory dma.old) place n ≡ None) }
    ensures kept { OnErr result ((D.memory dma.new ≡ D.memory dma.old) × (staging.new ≡ staging.old) × (D.reached dma.new ≡ D.reached dma.old)) }
    ensures unlisted { D.unlisted dma.new ≡ D.unlisted dma.old }
    ensures pool { D.page_count dma.new ≡ D.page_count dma.old }
{
    match direction {
        Direction::Destination => dma.write(place, &staging[offset..offset + n]),
        Direction::Source => dma.read(place, &mut staging[offset..offset + n]),
    }
}
