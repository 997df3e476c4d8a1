//! What a completion tells in addition to its status: whether and when it makes sense to try again.

ghost use Rattle.std.specs.Prelude.{◌≡◌, true, false};
ghost use Rattle.entry_codec.specs.Hints.{hint_bits, FitsHints};

/// The fields of a completion's status field besides the status code type and the status code (NVM Express Base Specification
/// 2.0, "Status Field Definition").
#[derive(Clone, Copy, Debug, PartialEq, Eq)]
pub struct Hints {
    /// Command Retry Delay: 0 where the command may be sent again at once, else which of the three delays of the
    /// Identify Controller data structure is to pass first. It has 2 bits in an entry, so it is below 4 in all hints that
    /// are written.
    pub retry_delay: u8,
    /// More: the Error Information log has more on this command.
    pub more: bool,
    /// Do Not Retry: the same command is expected to fail again.
    pub do_not_retry: bool,
}

impl Hints {
    /// No hints.
    pub const NONE: Hints = Hints {
        retry_delay: 0,
        more: false,
        do_not_retry: false,
    };

    /// Their four bits.
    pub(crate) fn bits(self) -> u16
        requires fits { FitsHints self }
        ensures { result ≡ hint_bits self }
    {
        let more = if self.more { 4 } else { 0 };
        let do_not_retry = if self.do_not_retry { 8 } else { 0 };
        u16::from(self.retry_delay) + more + do_not_retry
    }
}

/// The bits of each hint alone, and of none.
pub fn worked_bits()
    ensures none { hint_bits Hints.NONE ≡ 0 }
    ensures retry_delay { hint_bits (record { retry_delay = 3; more = false; do_not_retry = false }) ≡ 3 }
    ensures more { hint_bits (record { retry_delay = 0; more = true; do_not_retry = false }) ≡ 4 }
    ensures do_not_retry { hint_bits (record { retry_delay = 0; more = false; do_not_retry = true }) ≡ 8 }
{}
