//! Lists that go round.

use crate::explain::command::Explanation;
use crate::explain::list::Taken;
use controller_walk::FaultCause;

/// Where a list goes round.
#[derive(Clone, Copy, Debug)]
pub(crate) struct Round {
    /// How many descriptors were taken before one came again.
    pub(crate) len: usize,
    /// The number of the descriptor that came again.
    pub(crate) again: u32,
    /// How many were taken from then on.
    pub(crate) left_out: usize,
}

/// The first descriptor that is where an earlier one is, by its position among all, and that earlier one.
fn first_repeated(all: &[Taken]) -> Option<(usize, Taken)> {
    for (i, taken) in all.iter().enumerate() {
        for earlier in all.iter().take(i) {
            if earlier.at.place == taken.at.place {
                return Some((i, *earlier));
            }
        }
    }
    None
}

/// Where the list of a command goes round, if it is refused for that.
pub(crate) fn round_of(explanation: &Explanation) -> Option<Round> {
    let cause = explanation.fault?.cause;
    if cause != FaultCause::TooManyDescriptors {
        return None;
    }
    let all = explanation.taken.as_slice();
    let (len, earlier) = first_repeated(all)?;
    Some(Round {
        len,
        again: earlier.at.number,
        left_out: all.len().saturating_sub(len),
    })
}
