//! An answer that can be sent.

ghost use Rattle.std.specs.Prelude.{◌≡◌};
ghost use Rattle.desk.specs.Dialogue.{bytes_of};

/// An answer that can be sent.
#[derive(Drop)]
pub enum Answer {
    /// An answer that is the same each time, and takes no memory.
    Fixed(&'static [u8]),
    /// An answer that was made for its question.
    Made(Vec<u8>),
}

impl Answer {
    /// Returns the bytes of the answer.
    pub fn as_bytes(&self) -> &[u8]
        ensures { result.now ≡ bytes_of self.now }
    {
        match self {
            Answer::Fixed(text) => text,
            Answer::Made(text) => text,
        }
    }
}
