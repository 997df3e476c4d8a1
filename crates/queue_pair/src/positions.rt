//! Where each side stands in the two rings of a queue.

/// Where the host stands in the two rings of a queue.
#[derive(Clone, Copy, Debug, PartialEq, Eq)]
pub struct HostPositions {
    /// The submission tail: the slot that the next entry goes to.
    pub submission_tail: u16,
    /// The controller's submission head, as a completion told it last.
    pub submission_head: u16,
    /// The completion head: the slot where the next completion is looked for.
    pub completion_head: u16,
    /// The phase tag that a new completion has there.
    pub phase: bool,
}

/// Where the controller stands in the two rings of a queue, and what doorbells told it.
#[derive(Clone, Copy, Debug, PartialEq, Eq)]
pub struct ControllerPositions {
    /// The submission head: the slot of the next entry to fetch.
    pub submission_head: u16,
    /// The submission tail written to the doorbell last.
    pub tail_doorbell: u16,
    /// The completion tail: the slot that the next completion goes to.
    pub completion_tail: u16,
    /// The phase tag that it gets there.
    pub phase: bool,
    /// The completion head written to the doorbell last.
    pub head_doorbell: u16,
}
