//! Readers and writers that fail once.

use std::io::{self, Read, Write};

/// Gives its bytes in pieces; once, in place of the piece with this number, it fails, and then goes on. The failure
/// is an interrupted read, which might be tried again, or another one.
#[derive(Drop)]
pub(crate) struct Drip<'a> {
    pub bytes: &'a [u8],
    pub piece: usize,
    pub before_fault: usize,
    pub is_interrupted: bool,
}

fn read_fault(is_interrupted: bool) -> io::Error {
    if is_interrupted {
        io::Error::from(io::ErrorKind::Interrupted)
    } else {
        io::Error::from(io::ErrorKind::Other)
    }
}

impl Read for Drip<'_> {
    fn read(&mut self, buffer: &mut [u8]) -> io::Result<usize> {
        if self.before_fault == 0 {
            self.before_fault = usize::MAX;
            return Err(read_fault(self.is_interrupted));
        }
        self.before_fault -= 1;
        let count = self.piece.min(self.bytes.len()).min(buffer.len());
        buffer[..count].copy_from_slice(&self.bytes[..count]);
        self.bytes = &self.bytes[count..];
        Ok(count)
    }
}

/// Takes pieces; once, in place of the piece with this number, it takes nothing or fails, and then goes on.
#[derive(Drop)]
pub(crate) struct Sink {
    pub taken: Vec<u8>,
    pub piece: usize,
    pub before_fault: usize,
    pub takes_none: bool,
}

impl Write for Sink {
    fn write(&mut self, bytes: &[u8]) -> io::Result<usize> {
        if self.before_fault == 0 {
            self.before_fault = usize::MAX;
            if self.takes_none {
                return Ok(0);
            }
            return Err(io::Error::from(io::ErrorKind::Interrupted));
        }
        self.before_fault -= 1;
        let count = self.piece.min(bytes.len());
        self.taken.extend_from_slice(&bytes[..count])?;
        Ok(count)
    }

    fn flush(&mut self) -> io::Result<()> {
        Ok(())
    }
}
