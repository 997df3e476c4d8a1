//! Which calls are refused.

ghost use Rattle.test_support.specs.Refusals.{IsSpanOf};

/// Which calls for memory are refused. Calls are counted from 1.
#[derive(Clone, Copy, PartialEq, Eq, Debug)]
pub enum RefusedCalls {
    /// None.
    Never,
    /// The call of this number.
    Nth(u64),
    /// The call of this number, and each one after it.
    NthOn(u64),
}

impl RefusedCalls {
    /// The first call that is refused, and the last: the last is below the first where none is.
    pub fn span(self) -> (u64, u64)
        ensures { IsSpanOf self result.0 result.1 }
    {
        match self {
            RefusedCalls::Never => (1, 0),
            RefusedCalls::Nth(refused) => (refused, refused),
            RefusedCalls::NthOn(first) => (first, u64::MAX),
        }
    }
}
