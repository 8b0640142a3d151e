//! The crowd, out of which connections come.

use crate::stream::Stream;
use std::io;
use std::time::Duration;

/// What can be done at a place, as far as it is known.
#[derive(Clone, Copy)]
pub struct Readiness {
    /// A read may bring something.
    pub can_read: bool,
    /// A write may take something.
    pub can_write: bool,
}

/// The crowd out of which connections come. It says which of them can be read or written.
pub trait Crowd {
    ghost use Rattle.std.specs.Prelude.{IfNone, IfSome, length, ◌≡◌};

    type Stream: Stream + Drop;

    // This connection may be admitted, as it comes, and this is the crowd after that.
    ghost comes: { Self → Self.Stream → Self → Type 0 };

    // This connection is closed as it stands, and this is the crowd after that.
    ghost closes: { Self → Self.Stream → Self → Type 0 };

    // This is what the crowd may be after a wait.
    ghost waits: { Self → Self → Type 0 };

    /// Waits until something can be done at a place or somebody comes, but at most as long as `most` says. Marks what
    /// can be done, place by place. Returns whether anything happened.
    fn wait(&mut self, most: Option<Duration>, ready: &mut [Readiness]) -> io::Result<bool>
        ensures waits { waits self.old self.new }
        ensures size { length ready.new ≡ length ready.old };

    /// Returns whether somebody may wait to be admitted.
    fn may_come(&self) -> bool;

    /// Admits a connection that waits, to a place, and returns it as it came. A connection that cannot be admitted is
    /// not given out: nobody reads it or writes to it.
    fn admit(&mut self, place: usize) -> Option<Self::Stream>
        ensures some { IfSome result (λ stream. comes self.old stream self.new) }
        ensures none { IfNone result (waits self.old self.new) };

    /// Closes a connection, as it stands.
    fn close(&mut self, stream: Self::Stream)
        ensures { closes self.old stream self.new };
}
