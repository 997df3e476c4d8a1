//! What may be under the lock.

/// Something that makes steps, which threads share under a lock. A user's own type may be one too.
pub trait Machine {
    /// What holds of each whenever the lock is free, whatever was done with it before.
    ghost is: { Self → Type 0 };

    /// What a look leaves as it was.
    ghost stays: { Self → Self → Type 0 };

    /// Shows that it is so. It does nothing.
    fn confirm(&self)
        ensures { is self.now };

    /// Whether a completion is there that would be reaped. Whoever waits for completions is told where it is. It makes no step.
    fn can_reap(&mut self) -> bool
        ensures { stays self.old self.new };

    /// Whether its controller can do something. Whoever waits for that is told where it can. It makes no step.
    fn can_serve(&mut self) -> bool
        ensures { stays self.old self.new };
}
