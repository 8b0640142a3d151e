//! Many connections to this machine at once; none of them is waited for alone.

ghost use Rattle.std.specs.Prelude.{◌≡◌, length};

use mio::net::{TcpListener, TcpStream};
use mio::{Events, Interest, Poll, Token};
use rounds::{Crowd, Readiness, Stream};
use std::alloc::Global;
use std::io::{self, ErrorKind, Read, Write};
use std::net::{Ipv4Addr, SocketAddr};
use std::time::Duration;

/// How many events the system reports at a time, at the most.
const EVENTS: usize = 1024;

/// The name of the listener in events; the name of a connection is its place.
const LISTENER: usize = usize::MAX;

/// After how many milliseconds the program tries again to let in somebody who could not be let in, as where no
/// descriptor or no memory was free.
const AGAIN: u64 = 50;

/// A connection to read and write without waiting.
#[derive(Drop)]
pub struct Socket {
    stream: TcpStream,
}

impl Stream for Socket {
    ghost use Rattle.std.specs.Prelude.{None};

    // no clause knows what a socket gives or takes
    ghost remaining = { λ socket. None };

    ghost contents = { λ socket. None };

    fn read_piece(&mut self, piece: &mut [u8]) -> io::Result<usize> {
        self.stream.read(piece)
    }

    fn write_some(&mut self, bytes: &[u8]) -> io::Result<usize> {
        self.stream.write(bytes)
    }
}

/// Those who come to a port of this machine; they come from this machine alone.
#[derive(Drop)]
pub struct Loopback {
    listener: TcpListener,
    poll: Poll,
    events: Events<Global>,
    /// Whether somebody may wait to be let in.
    may_come: bool,
}

impl Loopback {
    /// Listens at a port, for 0 at any that is free. Returns the crowd, and the port that it got.
    pub fn listen(rt: &HostRuntime, port: u16) -> io::Result<(Loopback, u16)> {
        let address = SocketAddr::from((Ipv4Addr::LOCALHOST, port));
        let mut listener = TcpListener::bind(rt, address)?;
        let got = listener.local_addr()?;
        let poll = Poll::new(rt)?;
        let events = Events::with_capacity(rt.alloc(), EVENTS)?;
        poll.registry()
            .register(&mut listener, Token(LISTENER), Interest::READABLE)?;
        let crowd = Loopback {
            listener,
            poll,
            events,
            may_come: true,
        };
        Ok((crowd, got.port()))
    }

    /// Has the system report what can be done on a connection, by its place. Where that fails, the connection is closed.
    fn register(&self, place: usize, stream: TcpStream) -> Option<Socket> {
        let mut stream = stream;
        // an answer that waits for others to join it only comes later
        let _ = stream.set_nodelay(true);
        let both = Interest::READABLE | Interest::WRITABLE;
        match self
            .poll
            .registry()
            .register(&mut stream, Token(place), both)
        {
            Ok(()) => Some(Socket { stream }),
            Err(_) => None,
        }
    }

    /// Returns how long the program waits at the most.
    fn patience(&self, most: Option<Duration>) -> Option<Duration> {
        if !self.may_come {
            return most;
        }
        let again = Duration::from_millis(AGAIN);
        match most {
            Some(most) if most < again => Some(most),
            _ => Some(again),
        }
    }
}

/// Marks what the system reports of each place. Returns whether somebody waits to be let in.
fn mark_all(events: &Events<Global>, ready: &mut [Readiness]) -> bool
    ensures { length ready.new ≡ length ready.old }
{
    let mut may_come = false;
    for event in events {
        let Token(place) = event.token();
        if place == LISTENER {
            may_come = true;
        } else if place < ready.len() {
            let is_hurt = event.is_error();
            let can_read = event.is_readable() || event.is_read_closed() || is_hurt;
            let can_write = event.is_writable() || event.is_write_closed() || is_hurt;
            ready[place] = Readiness {
                can_read: ready[place].can_read || can_read,
                can_write: ready[place].can_write || can_write,
            };
        }
    }
    may_come
}

impl Crowd for Loopback {
    type Stream = Socket;

    // no clause knows who comes
    ghost comes = { λ old stream new. Unit {0} };

    ghost closes = { λ old stream new. Unit {0} };

    ghost waits = { λ old new. Unit {0} };

    fn wait(&mut self, most: Option<Duration>, ready: &mut [Readiness]) -> io::Result<bool> {
        let most = self.patience(most);
        self.poll.poll(&mut self.events, most)?;
        if mark_all(&self.events, ready) {
            self.may_come = true;
        }
        Ok(!self.events.is_empty())
    }

    fn may_come(&self) -> bool {
        self.may_come
    }

    fn admit(&mut self, place: usize) -> Option<Socket> {
        match self.listener.accept() {
            Ok((stream, _)) => self.register(place, stream),
            Err(error) => {
                self.may_come = error.kind() != ErrorKind::WouldBlock;
                None
            }
        }
    }

    fn close(&mut self, stream: Socket) {
        drop(stream);
    }
}
