//! What a session wants of the machine.

use crate::crowd::Loopback;
use crate::listener::Listen;
use rounds::Crowd;
use std::fs::File;
use std::io::{self, Read};
use std::net::{Ipv4Addr, SocketAddr, TcpListener};

/// A machine: it opens files of requests, and listens at ports.
pub trait Machine {
    ghost use Rattle.std.specs.Prelude.{ℕ, List, IfOk};

    type Csv: Read + Drop;

    type Listener: Listen + Drop;

    type Crowd: Crowd + Drop;

    /// This file may open at that path.
    ghost opens: { Self → List ℕ → Self.Csv → Type 0 };

    /// This listener may be had where a port was asked for, at the port that it got.
    ghost listens: { Self → ℕ → ℕ → Self.Listener → Type 0 };

    /// This crowd may be had where a port was asked for, at the port that it got.
    ghost gathers: { Self → ℕ → ℕ → Self.Crowd → Type 0 };

    /// Opens a file to read it.
    fn open_csv(&self, rt: &HostRuntime, path: &str) -> io::Result<Self::Csv>
        ensures { IfOk result (λ csv. opens self.now path.now csv) };

    /// Listens at a port, for 0 at any that is free. Returns the listener, and the port that it got.
    fn listen(&self, rt: &HostRuntime, port: u16) -> io::Result<(Self::Listener, u16)>
        ensures { IfOk result (λ got. listens self.now port got.1 got.0) };

    /// Listens for many connections at once at a port, for 0 at any that is free. Returns the crowd, and the port that
    /// it got.
    fn gather(&self, rt: &HostRuntime, port: u16) -> io::Result<(Self::Crowd, u16)>
        ensures { IfOk result (λ got. gathers self.now port got.1 got.0) };
}

/// The machine that the program runs on. It listens for connections from itself alone.
pub struct Host;

impl Machine for Host {
    type Csv = File;

    type Listener = TcpListener;

    type Crowd = Loopback;

    // no clause knows what a path names, nor what port is free
    ghost opens = { λ machine path csv. Unit {0} };

    ghost listens = { λ machine asked got listener. Unit {0} };

    ghost gathers = { λ machine asked got crowd. Unit {0} };

    fn open_csv(&self, rt: &HostRuntime, path: &str) -> io::Result<File> {
        File::open(rt, path)
    }

    fn listen(&self, rt: &HostRuntime, port: u16) -> io::Result<(TcpListener, u16)> {
        let listener = TcpListener::bind(rt, SocketAddr::from((Ipv4Addr::LOCALHOST, port)))?;
        let address = listener.local_addr()?;
        Ok((listener, address.port()))
    }

    fn gather(&self, rt: &HostRuntime, port: u16) -> io::Result<(Loopback, u16)> {
        Loopback::listen(rt, port)
    }
}
