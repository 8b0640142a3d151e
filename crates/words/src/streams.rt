//! Reads one piece from a reader, and writes a whole text to a writer.

ghost use Rattle.std.specs.Prelude.{◌≡◌, ◌≤◌, ◌<◌, ℕ, IfOk, OnErr, OnOk, length, take};
ghost use Rattle.std.specs.Io.KnownBytes.{Appends, Consumes, IsAtEnd, Keeps};

use std::io::{Read, Write};
use thiserror::Error;

/// A read failed.
#[derive(Clone, Copy, Debug, PartialEq, Eq, Error)]
#[error("reading failed")]
pub struct ReadFault;

/// A write failed, or took nothing.
#[derive(Clone, Copy, Debug, PartialEq, Eq, Error)]
#[error("writing failed")]
pub struct WriteFault;

/// Makes one read. Returns how many bytes came; they stand at the front of the buffer, and 0 means that the reader is
/// at its end. Where the read fails, in whatever way, that is the answer at once, and nothing was taken from the
/// reader.
pub fn read_piece<R: Read>(reader: &mut R, buffer: &mut [u8]) -> Result<usize, ReadFault>
    requires { 0 < length buffer.old }
    ensures within { IfOk result (λ count. count ≤ length buffer.new) }
    ensures size { length buffer.new ≡ length buffer.old }
    ensures taken { IfOk result (λ count. Consumes (R.remaining reader.old) (R.remaining reader.new)
        (take count buffer.new)) }
    ensures end { IfOk result (λ count. count ≡ 0 → IsAtEnd (R.remaining reader.new)) }
    ensures err { OnErr result (Keeps (R.remaining reader.old) (R.remaining reader.new)) }
{
    match reader.read(buffer) {
        Ok(count) => Ok(count),
        Err(_) => Err(ReadFault),
    }
}

/// Writes the whole text. Where a write fails, in whatever way, or takes nothing, that is the answer at once, and a
/// beginning of the text is written, but not all of it. For a text without bytes the call always succeeds.
pub fn write_whole<W: Write>(writer: &mut W, text: &[u8]) -> Result<(), WriteFault>
    ensures whole { OnOk result (Appends (W.contents writer.old) (W.contents writer.new) text.now) }
    ensures some { OnErr result (0 < length text.now) }
    ensures beginning { OnErr result ((count : ℕ) × (count < length text.now)
        × Appends (W.contents writer.old) (W.contents writer.new) (take count text.now)) }
{
    let mut written = 0;
    while written < text.len() {
        match writer.write(&text[written..]) {
            Ok(0) => return Err(WriteFault),
            Ok(count) => written += count,
            Err(_) => return Err(WriteFault),
        }
    }
    Ok(())
}
