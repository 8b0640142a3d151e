//! What a connection is read from and written to.

use std::io::{self, ErrorKind, Read, Write};

/// What a connection is read from and written to. A read leaves what was written, and a write what is left to read.
pub trait Stream {
    ghost use Rattle.std.specs.Prelude.{List, Option, ℕ};
    ghost use Rattle.std.specs.Io.{ReadsAtMost, WritesAtMost};
    ghost use Rattle.std.specs.Io.KnownBytes.{Keeps, ReadConsumes, WriteAppends};

    // The bytes that reads will give from here on, where they are known.
    ghost remaining: { Self → Option (List ℕ) };

    // The bytes that were written, where they are known.
    ghost contents: { Self → Option (List ℕ) };

    /// Reads into a piece. Returns how many bytes came, 0 only at the end.
    fn read_piece(&mut self, piece: &mut [u8]) -> io::Result<usize>
        ensures bound { ReadsAtMost result piece.new }
        ensures bytes { ReadConsumes (remaining self.old) (remaining self.new) result piece.new }
        ensures others { Keeps (contents self.old) (contents self.new) };

    /// Writes a beginning of the bytes. Returns how many bytes that has.
    fn write_some(&mut self, bytes: &[u8]) -> io::Result<usize>
        ensures bound { WritesAtMost result bytes.now }
        ensures bytes { WriteAppends (contents self.old) (contents self.new) result bytes.now }
        ensures others { Keeps (remaining self.old) (remaining self.new) };
}

impl<R: Read, W: Write> Stream for (R, W) {
    ghost remaining = { λ s. R.remaining s.0 };

    ghost contents = { λ s. W.contents s.1 };

    fn read_piece(&mut self, piece: &mut [u8]) -> io::Result<usize> {
        self.0.read(piece)
    }

    fn write_some(&mut self, bytes: &[u8]) -> io::Result<usize> {
        self.1.write(bytes)
    }
}

/// Returns whether a call failed only because there was nothing to do.
pub fn would_block(error: &io::Error) -> bool {
    matches!(error.kind(), ErrorKind::WouldBlock | ErrorKind::Interrupted)
}
