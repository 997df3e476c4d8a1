//! A queue at the host.

use machine_model::words::HostState;
use queue_pair::HostPair;

/// What the host keeps of a queue.
#[derive(Drop)]
pub(crate) struct Queue<H = HostPair> {
    /// What the host knows of it.
    pub(crate) state: HostState,
    /// The host's side of its rings.
    pub(crate) host: H,
}
