//! Arbitrary numbers, the same in each run.

ghost use Rattle.std.specs.Prelude.{◌<◌};

/// A generator of numbers: the upper half of a linear congruence modulo 2^64.
#[derive(Clone, Copy, Debug)]
pub struct Numbers {
    state: u64,
}

impl Numbers {
    /// The numbers that follow from a first state.
    pub fn new(state: u64) -> Numbers {
        Numbers { state }
    }

    /// Any number.
    pub fn next(&mut self) -> u32 {
        self.state = self
            .state
            .wrapping_mul(6_364_136_223_846_793_005)
            .wrapping_add(1_442_695_040_888_963_407);
        (self.state >> 32) as u32
    }

    /// A number below `count`.
    pub fn below(&mut self, count: u32) -> u32
        requires some { 0 < count }
        ensures below { result < count }
    {
        self.next() % count
    }

    /// Any bytes.
    pub fn bytes<const N: usize>(&mut self) -> [u8; N] {
        let mut bytes = [0; N];
        for byte in &mut bytes {
            *byte = (self.next() % 256) as u8;
        }
        bytes
    }
}
