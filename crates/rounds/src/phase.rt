//! How far a dialogue is.

/// How far a dialogue is.
#[derive(Clone, Copy, PartialEq, Eq)]
pub enum Phase {
    /// More bytes are wanted.
    Wants,
    /// A question may stand in the bytes that have come, or was found and is not answered.
    Asks,
    /// It is over.
    Over,
    /// Memory was refused for it.
    Gone,
}
