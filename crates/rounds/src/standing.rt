//! How a place stands.

/// How a place stands.
#[derive(Clone, Copy, PartialEq, Eq)]
pub enum Standing {
    /// Nobody is there.
    Free,
    /// More bytes are wanted.
    Reads,
    /// A question is to be answered, or may stand in what has come.
    Asks,
    /// Something is to be written.
    Writes,
    /// Nothing more comes of it: the dialogue is over, or memory was refused for it.
    Over,
}
