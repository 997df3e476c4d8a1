//! Ranges of bytes, as they lie in pages.

ghost use Rattle.std.specs.Prelude.{◌≡◌, ◌+◌, ◌*◌, ◌<◌, ◌≤◌};

/// A range of bytes, as it lies in its first page and in the next one.
#[derive(Clone, Copy)]
pub(crate) struct Range {
    pub(crate) page: u64,
    pub(crate) at: usize,
    pub(crate) front: usize,
    pub(crate) back: usize,
}

impl Range {
    /// The range of `count` bytes starting at an address.
    pub(crate) fn new(addr: u64, count: usize) -> Self
        requires { count ≤ 4096 }
        ensures place { 4096 * result.page + result.at ≡ addr }
        ensures offset { result.at < 4096 }
        ensures count { result.front + result.back ≡ count }
        ensures fits { result.at + result.front ≤ 4096 }
        ensures crosses { 0 < result.back → result.at + result.front ≡ 4096 }
        ensures front { 0 < count → 0 < result.front }
    {
        let at = (addr % 4096) as usize;
        let front = count.min(4096 - at);
        Range {
            page: addr / 4096,
            at,
            front,
            back: count - front,
        }
    }
}
