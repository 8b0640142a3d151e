//! The work that may be done on a desk.

ghost use Rattle.std.specs.Prelude.{◌≡◌, ◌≤◌, IfNone, IfSome};
ghost use Rattle.std.specs.Int.NonZero.{non_zero_usize_get};

use escrow::{Article, Branch};
use std::num::NonZeroUsize;

/// What a file of requests holds.
#[derive(Clone, Copy)]
pub enum Kind {
    Orders,
    Deliveries,
    Bounds,
}

/// What a sheet shows.
#[derive(Clone, Copy)]
pub enum SheetOf {
    Branch(Branch),
    Article(Article),
}

/// Where a desk is served, and to how many connections. Port 0 is any that is free.
#[derive(Clone, Copy)]
pub struct Service {
    pub port: u16,
    pub connections: u32,
}

/// How many connections are served at once.
#[derive(Clone, Copy)]
pub struct AtOnce {
    /// How many questions are answered in a round, at the most.
    pub together: NonZeroUsize,
    /// How many connections may be open at once, where the words say that.
    pub clients: Option<NonZeroUsize>,
    /// Where the words say that: once so many places of the desk are taken or set aside, nobody else is served.
    pub places: Option<NonZeroUsize>,
}

/// How many connections may be open at once where the words say nothing.
const CLIENTS: usize = 1_000;

impl AtOnce {
    /// Returns how many connections may be open at once.
    pub fn most_clients(&self) -> usize
        ensures said { IfSome self.now.clients (λ clients. result ≡ non_zero_usize_get clients) }
        ensures unsaid { IfNone self.now.clients (result ≡ 1000) }
        ensures some { 1 ≤ result }
    {
        match self.clients {
            Some(clients) => clients.get(),
            None => CLIENTS,
        }
    }
}

/// What is done on a desk.
#[derive(Clone, Copy)]
pub enum Work<'a> {
    /// To play a script, from the reader to the writer.
    Script,
    /// To answer the requests of the file at this path, one after the other or in batches of at most so many.
    Requests(Kind, &'a str, Option<NonZeroUsize>),
    /// To write a sheet of the desk.
    Sheet(SheetOf),
    /// To serve the desk to one connection after the other.
    Serve(Service),
    /// To serve the desk to many connections at once.
    ServeAtOnce(Service, AtOnce),
}
