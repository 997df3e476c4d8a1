//! How a call answers that it was refused, where a value was handed in.

use machine_model::words::Refusal;

/// A call that was refused: why, and the value that was handed in. Nothing changed.
///
/// It is no `Drop` where the value must be spent.
#[derive(Drop)]
pub struct Refused<T> {
    /// The value, as it was handed in.
    pub value: T,
    /// Why.
    pub why: Refusal,
}
