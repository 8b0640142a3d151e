//! The listener, to which connections come one after the other.

ghost use Rattle.std.specs.Prelude.{IfOk, OnErr};

use std::io::{self, Read, Write};
use std::net::{TcpListener, TcpStream};

/// A listener, to which connections come one after the other.
pub trait Listen {
    type Reader: Read + Drop;

    type Writer: Write + Drop;

    /// This connection may come, and this is the listener after that.
    ghost comes: { Self → Self.Reader → Self.Writer → Self → Type 0 };

    /// This connection is closed as it stands, and this is the listener after that.
    ghost closes: { Self → Self.Reader → Self.Writer → Self → Type 0 };

    /// This is what the listener may be after a wait to which no connection came.
    ghost waits: { Self → Self → Type 0 };

    /// Waits for the next connection, and returns it as it came. After an error none is given out: one that came and
    /// could not be had whole is closed as it came.
    fn next_connection(&mut self) -> io::Result<(Self::Reader, Self::Writer)>
        ensures ok { IfOk result (λ connection. comes self.old connection.0 connection.1 self.new) }
        ensures err { OnErr result (waits self.old self.new) };

    /// Closes a connection, as it stands.
    fn close(&mut self, reader: Self::Reader, writer: Self::Writer)
        ensures { closes self.old reader writer self.new };
}

impl Listen for TcpListener {
    type Reader = TcpStream;

    type Writer = TcpStream;

    // no clause knows what a socket gives or takes
    ghost comes = { λ old reader writer new. Unit {0} };

    ghost closes = { λ old reader writer new. Unit {0} };

    ghost waits = { λ old new. Unit {0} };

    fn next_connection(&mut self) -> io::Result<(TcpStream, TcpStream)> {
        let (stream, _) = self.accept()?;
        // an answer that waits for others to join it only comes later
        let _ = stream.set_nodelay(true);
        Ok((stream.try_clone()?, stream))
    }

    fn close(&mut self, reader: TcpStream, writer: TcpStream) {
        drop(reader);
        drop(writer);
    }
}
