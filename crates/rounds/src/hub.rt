//! A service of many connections, in rounds.

ghost use Rattle.std.specs.Prelude.{◌≡◌, ◌≢◌, ◌+◌, ◌-◌, ◌<◌, ◌≤◌, ◌^◌, [], false, length, slice_get, ℕ, None, Option, Some, IfErr, IfOk};
ghost use Rattle.desk.specs.Desk.{Snapshot};
ghost use Rattle.rounds.specs.Crowds.{IsServing, listening_to};
ghost use Rattle.rounds.specs.Lines.{LineView, speaks};
ghost use Rattle.rounds.specs.Rounds.{IsAt, Loss};
ghost use Rattle.rounds.specs.Services.{InService};

use crate::clock::micros_since;
use crate::crowd::{Crowd, Readiness};
use crate::marks::{clear, least_of, many};
use crate::places::Places;
use crate::standing::Standing;
use crate::stream::would_block;
use desk::{Begin, Deferred, Desk, Dialogue};
use keep::Keep;
use std::alloc::Global;
use std::io;
use std::marker::Model;
use std::time::{Duration, Instant};

/// The connections that are there, each at a place.
#[derive(Drop)]
pub struct Hub<D: Dialogue + Drop, C: Crowd + Drop> {
    crowd: C,
    places: Places<D, C::Stream>,
    /// What can be done at each place.
    ready: Vec<Readiness>,
    /// For each place, the last turn in which something came there or was taken.
    heard: Vec<u64>,
    /// For each place, whether somebody was answered there who may ask again at once.
    awaited: Vec<bool>,
    turn: u64,
    /// How many rounds are still to be held without waiting for more.
    hasty: u32,
    /// From this place on, no place was ever taken.
    unused: usize,
    /// How many microseconds a round has taken of late.
    cost: u64,
    /// How often in a row memory was refused for somebody who waited.
    refused: u32,
}

impl<D: Dialogue + Drop, C: Crowd + Drop> Model for Hub<D, C> {
    ghost use Rattle.std.specs.Prelude.{◌≡◌, ◌≤◌, length};
    ghost use Rattle.rounds.specs.Crowds.{HubView};
    ghost use Rattle.rounds.specs.Lines.{LineView};

    ghost Value = { HubView C (LineView D D.Question C.Stream) };

    ghost view = { λ h. record { crowd = h.crowd; places = h.places } };

    ghost invariant = { λ h. (length h.ready.items ≡ length h.places.lines)
        × (length h.heard.items ≡ length h.places.lines) × (length h.awaited.items ≡ length h.places.lines) };
}

/// How often the hub waits for more before a round, at the most.
const GATHERS: u32 = 256;

/// How many rounds are held without waiting for more, once nobody came.
const HASTY: u32 = 32;

/// How many rounds are held so where each round takes long.
const HASTY_WHERE_SLOW: u32 = 8;

/// A round that takes so many microseconds takes long.
const SLOW: u64 = 2_000;

impl<D: Dialogue + Drop, C: Crowd + Drop> Hub<D, C> {
    /// Closes the connection at a place, if there is one.
    fn close(&mut self, place: usize)
        requires place { place < length self.old.places.lines }
        ensures served { (first : C) (loss : Option Loss) (start now : Snapshot)
            → IsServing (speaks D.Dialogue C.Stream.Stream) (listening_to C.Crowd) first loss start now self.old
            → IsServing (speaks D.Dialogue C.Stream.Stream) (listening_to C.Crowd) first loss start now self.new }
        ensures others { (other : ℕ) → other ≢ place
            → slice_get self.new.places.lines other ≡ slice_get self.old.places.lines other }
        ensures free { slice_get self.new.places.lines place ≡ Some None }
        ensures same { (length self.new.places.lines ≡ length self.old.places.lines)
            × (self.new.places.connections ≡ self.old.places.connections) }
    {
        if let Some(stream) = self.places.leave(place) {
            self.crowd.close(stream);
        }
    }

    /// Returns a free place. Where there is none, returns that of the connection that was silent longest.
    fn place_for_one(&self) -> usize
        requires some { 1 ≤ length self.now.places.lines }
        ensures within { result < length self.now.places.lines }
    {
        match self.places.free_place() {
            Some(place) => place,
            None => least_of(&self.heard),
        }
    }

    /// Has a connection, as the crowd has admitted it, take a place. Whoever was there is closed.
    fn take_place(&mut self, alloc: Global, place: usize, dialogue: D, stream: C::Stream)
        requires new { D.has_found dialogue [] false [] }
        requires none { D.language.have_come [] [] }
        requires place { place < length self.old.places.lines }
        requires count { self.old.places.connections < 2 ^ 64 - 1 }
        ensures served { (first crowd : C) (loss : Option Loss) (start now : Snapshot) → C.comes crowd stream self.old.crowd
            → IsServing (speaks D.Dialogue C.Stream.Stream) (listening_to C.Crowd) first loss start now
            (record { crowd = crowd; places = self.old.places })
            → IsServing (speaks D.Dialogue C.Stream.Stream) (listening_to C.Crowd) first loss start now self.new }
        ensures here { (v : LineView D D.Question C.Stream) × IsAt self.new.places.lines place v
            × (v.connection ≡ self.old.places.connections) × (v.stream ≡ stream) }
        ensures others { (other : ℕ) → other ≢ place
            → slice_get self.new.places.lines other ≡ slice_get self.old.places.lines other }
        ensures size { length self.new.places.lines ≡ length self.old.places.lines }
        ensures count { self.new.places.connections ≡ self.old.places.connections + 1 }
    {
        let left = self.places.leave(place);
        self.places.seat(alloc, place, dialogue, stream);
        if let Some(stream) = left {
            self.crowd.close(stream);
        }
    }

    /// Notes that somebody came to a place: it may be read and written, and was heard in this turn.
    fn note_place(&mut self, place: usize)
        requires place { place < length self.old.places.lines }
        ensures { self.new ≡ self.old }
    {
        self.ready[place] = Readiness {
            can_read: true,
            can_write: true,
        };
        self.heard[place] = self.turn;
        self.awaited[place] = false;
        self.unused = self.unused.max(place.saturating_add(1));
    }

    /// Returns how many places, from the first on, have ever been taken.
    fn used(&self) -> usize
        ensures { result ≤ length self.now.places.lines }
    {
        let all = self.places.len();
        if self.unused < all { self.unused } else { all }
    }

    /// Returns whether a place is free, or a connection was silent in this turn.
    fn has_place(&self) -> bool
        requires { 1 ≤ length self.now.places.lines }
    {
        let silent = least_of(&self.heard);
        self.places.free_place().is_some() || self.heard[silent] < self.turn
    }

    /// Reads at a place, where something may have come and more is wanted, and looks for a question in it. Where the
    /// read fails, the connection is closed.
    fn read(&mut self, alloc: Global, place: usize, piece: &mut [u8])
        requires place { place < length self.old.places.lines }
        requires room { 0 < length piece.old }
        ensures served { (first : C) (loss : Option Loss) (start now : Snapshot)
            → IsServing (speaks D.Dialogue C.Stream.Stream) (listening_to C.Crowd) first loss start now self.old
            → IsServing (speaks D.Dialogue C.Stream.Stream) (listening_to C.Crowd) first loss start now self.new }
        ensures same { (length self.new.places.lines ≡ length self.old.places.lines)
            × (self.new.places.connections ≡ self.old.places.connections) }
    {
        if !self.ready[place].can_read {
            return;
        }
        match self.places.read(alloc, place, piece) {
            Ok(Some(_)) => {
                self.heard[place] = self.turn;
                self.places.look(alloc, place);
            }
            Ok(None) => {}
            Err(error) if would_block(&error) => self.ready[place].can_read = false,
            Err(_) => self.close(place),
        }
    }

    /// Writes what is to be written at a place, as far as it is taken, and looks for the next question there. Where
    /// the write fails, the connection is closed.
    fn write(&mut self, alloc: Global, place: usize)
        requires place { place < length self.old.places.lines }
        ensures served { (first : C) (loss : Option Loss) (start now : Snapshot)
            → IsServing (speaks D.Dialogue C.Stream.Stream) (listening_to C.Crowd) first loss start now self.old
            → IsServing (speaks D.Dialogue C.Stream.Stream) (listening_to C.Crowd) first loss start now self.new }
        ensures same { (length self.new.places.lines ≡ length self.old.places.lines)
            × (self.new.places.connections ≡ self.old.places.connections) }
    {
        if !self.ready[place].can_write {
            return;
        }
        match self.places.write(place) {
            Ok(Some(0)) => self.close(place),
            Ok(Some(_)) => {
                self.heard[place] = self.turn;
                self.awaited[place] = true;
                self.places.look(alloc, place);
            }
            Ok(None) => {}
            Err(error) if would_block(&error) => self.ready[place].can_write = false,
            Err(_) => self.close(place),
        }
    }

    /// Reads at a place. Returns whether a question is to be answered there, and whether one is awaited.
    fn hear_at(&mut self, alloc: Global, place: usize, piece: &mut [u8]) -> (bool, bool)
        requires place { place < length self.old.places.lines }
        requires room { 0 < length piece.old }
        ensures served { (first : C) (loss : Option Loss) (start now : Snapshot)
            → IsServing (speaks D.Dialogue C.Stream.Stream) (listening_to C.Crowd) first loss start now self.old
            → IsServing (speaks D.Dialogue C.Stream.Stream) (listening_to C.Crowd) first loss start now self.new }
        ensures same { (length self.new.places.lines ≡ length self.old.places.lines)
            × (self.new.places.connections ≡ self.old.places.connections) }
    {
        self.read(alloc, place, piece);
        let has_question = self.places.standing(place) == Standing::Asks;
        if has_question {
            self.awaited[place] = false;
        }
        (has_question, self.awaited[place])
    }

    /// Reads at each place. Returns at how many places a question is to be answered, and how many connections that were
    /// answered have not asked again.
    pub fn read_all(&mut self, alloc: Global, piece: &mut [u8]) -> (usize, usize)
        requires room { 0 < length piece.old }
        ensures served { (first : C) (loss : Option Loss) (start now : Snapshot)
            → IsServing (speaks D.Dialogue C.Stream.Stream) (listening_to C.Crowd) first loss start now self.old
            → IsServing (speaks D.Dialogue C.Stream.Stream) (listening_to C.Crowd) first loss start now self.new }
        ensures same { (length self.new.places.lines ≡ length self.old.places.lines)
            × (self.new.places.connections ≡ self.old.places.connections) }
    {
        let mut asking = 0usize;
        let mut awaited = 0usize;
        for place in 0..self.used() {
            let (has_question, is_awaited) = self.hear_at(alloc, place, piece);
            asking = asking.saturating_add(usize::from(has_question));
            awaited = awaited.saturating_add(usize::from(is_awaited));
        }
        (asking, awaited)
    }

    /// Stops waiting for those who were answered.
    pub fn await_none(&mut self)
        ensures { self.new ≡ self.old }
    {
        clear(&mut self.awaited);
    }

    /// Writes at a place, and closes the connection if nothing more comes of it. Returns how the place stands then.
    fn tell_at(&mut self, alloc: Global, place: usize) -> Standing
        requires place { place < length self.old.places.lines }
        ensures served { (first : C) (loss : Option Loss) (start now : Snapshot)
            → IsServing (speaks D.Dialogue C.Stream.Stream) (listening_to C.Crowd) first loss start now self.old
            → IsServing (speaks D.Dialogue C.Stream.Stream) (listening_to C.Crowd) first loss start now self.new }
        ensures same { (length self.new.places.lines ≡ length self.old.places.lines)
            × (self.new.places.connections ≡ self.old.places.connections) }
    {
        self.write(alloc, place);
        if self.places.standing(place) == Standing::Over {
            self.close(place);
        }
        self.places.standing(place)
    }

    /// Returns whether something can be done at a place before the crowd says more.
    fn is_busy(&self, place: usize, standing: Standing) -> bool
        requires { place < length self.now.places.lines }
    {
        match standing {
            Standing::Asks => true,
            Standing::Reads => self.ready[place].can_read,
            Standing::Writes => self.ready[place].can_write,
            Standing::Free | Standing::Over => false,
        }
    }

    /// Writes at each place. Returns whether anybody is there, and whether something can be done before a wait.
    pub fn tell_all(&mut self, alloc: Global) -> (bool, bool)
        ensures served { (first : C) (loss : Option Loss) (start now : Snapshot)
            → IsServing (speaks D.Dialogue C.Stream.Stream) (listening_to C.Crowd) first loss start now self.old
            → IsServing (speaks D.Dialogue C.Stream.Stream) (listening_to C.Crowd) first loss start now self.new }
        ensures same { (length self.new.places.lines ≡ length self.old.places.lines)
            × (self.new.places.connections ≡ self.old.places.connections) }
    {
        let mut is_open = false;
        let mut is_busy = false;
        for place in 0..self.used() {
            let standing = self.tell_at(alloc, place);
            is_open = is_open || standing != Standing::Free;
            is_busy = is_busy || self.is_busy(place, standing);
        }
        (is_open, is_busy)
    }

    /// Closes all connections.
    pub fn close_all(&mut self)
        ensures served { (first : C) (loss : Option Loss) (start now : Snapshot)
            → IsServing (speaks D.Dialogue C.Stream.Stream) (listening_to C.Crowd) first loss start now self.old
            → IsServing (speaks D.Dialogue C.Stream.Stream) (listening_to C.Crowd) first loss start now self.new }
        ensures same { (length self.new.places.lines ≡ length self.old.places.lines)
            × (self.new.places.connections ≡ self.old.places.connections) }
        ensures free { (place : ℕ) → place < length self.new.places.lines
            → slice_get self.new.places.lines place ≡ Some None }
    {
        for place in 0..self.places.len() {
            self.close(place);
        }
    }

    /// Waits, at most for `most`, until something can be done or somebody comes. Returns whether anything happened.
    pub fn wait(&mut self, most: Option<Duration>) -> io::Result<bool>
        ensures served { (first : C) (loss : Option Loss) (start now : Snapshot)
            → IsServing (speaks D.Dialogue C.Stream.Stream) (listening_to C.Crowd) first loss start now self.old
            → IsServing (speaks D.Dialogue C.Stream.Stream) (listening_to C.Crowd) first loss start now self.new }
        ensures same { (length self.new.places.lines ≡ length self.old.places.lines)
            × (self.new.places.connections ≡ self.old.places.connections) }
    {
        self.crowd.wait(most, &mut self.ready)
    }

    /// Holds a round: questions of all connections are answered, up to `most`, and kept in one transaction.
    pub fn round<K: Keep>(&mut self, alloc: Global, most: usize, desk: &mut Desk<Deferred<K>>)
        requires going { D.may_stop → ⊥ }
        requires settled { desk.old.keep.changes ≡ [] }
        ensures served { (first : C) (start : Snapshot)
            → InService (speaks D.Dialogue C.Stream.Stream) (listening_to C.Crowd) K.Keep first start desk.old self.old
            → InService (speaks D.Dialogue C.Stream.Stream) (listening_to C.Crowd) K.Keep first start desk.new self.new }
        ensures settled { desk.new.keep.changes ≡ [] }
        ensures honest { K.is_honest desk.new.keep.keep → K.is_honest desk.old.keep.keep }
        ensures same { (length self.new.places.lines ≡ length self.old.places.lines)
            × (self.new.places.connections ≡ self.old.places.connections) }
    {
        let _ = self.places.round(alloc, most, desk);
    }

    /// Returns a hub with so many places, at which nobody is. Where memory is refused, the crowd is given back.
    pub fn new(alloc: Global, crowd: C, clients: usize) -> Result<Hub<D, C>, C>
        ensures serving { IfOk result (λ hub. (start : Snapshot)
            → IsServing (speaks D.Dialogue C.Stream.Stream) (listening_to C.Crowd)
            crowd None start start hub) }
        ensures size { IfOk result (λ hub. (length hub.places.lines ≡ clients) × (hub.places.connections ≡ 0)) }
        ensures err { IfErr result (λ back. back ≡ crowd) }
    {
        let Ok(places) = Places::new(alloc, clients) else {
            return Err(crowd);
        };
        let silent = Readiness {
            can_read: false,
            can_write: false,
        };
        let (Ok(ready), Ok(heard), Ok(awaited)) = (
            many(alloc, silent, clients),
            many(alloc, 0, clients),
            many(alloc, false, clients),
        ) else {
            return Err(crowd);
        };
        Ok(Hub {
            crowd,
            places,
            ready,
            heard,
            awaited,
            turn: 0,
            hasty: 0,
            unused: 0,
            cost: 0,
            refused: 0,
        })
    }

    /// Returns how many connections have come.
    pub fn connections(&self) -> usize
        ensures { result ≡ self.now.places.connections }
    {
        self.places.connections()
    }

    /// Returns the crowd, as it is.
    pub fn into_crowd(self) -> C
        ensures { result ≡ self.crowd }
    {
        let Hub { crowd, .. } = self;
        crowd
    }

    /// Returns how often in a row memory was refused of late for somebody who waited.
    pub fn refused(&self) -> u32 {
        self.refused
    }

    /// Begins a turn.
    pub fn begin_turn(&mut self)
        ensures { self.new ≡ self.old }
    {
        self.turn = self.turn.saturating_add(1);
    }

    /// Notes how many microseconds a round has taken.
    pub fn note(&mut self, micros: u64)
        ensures { self.new ≡ self.old }
    {
        let before = self.cost - self.cost / 8;
        self.cost = if micros < before { before } else { micros };
    }

    /// Has the next rounds wait for nobody, since nobody came.
    fn be_hasty(&mut self)
        ensures { self.new ≡ self.old }
    {
        self.hasty = if self.cost < SLOW {
            HASTY
        } else {
            HASTY_WHERE_SLOW
        };
        self.await_none();
    }

    /// Reads what has come. Those whom the last round answered may ask again at once, so the hub waits for them: then
    /// all ask in one round, and not by turns in two. It pays off to wait for half as long as a round takes, or a
    /// quarter of that where nobody comes, but at least for a millisecond. Where nobody came, some rounds do not wait.
    pub fn gather(&mut self, rt: &HostRuntime, most: usize, piece: &mut [u8]) -> io::Result<()>
        requires room { 0 < length piece.old }
        ensures served { (first : C) (loss : Option Loss) (start now : Snapshot)
            → IsServing (speaks D.Dialogue C.Stream.Stream) (listening_to C.Crowd) first loss start now self.old
            → IsServing (speaks D.Dialogue C.Stream.Stream) (listening_to C.Crowd) first loss start now self.new }
        ensures same { (length self.new.places.lines ≡ length self.old.places.lines)
            × (self.new.places.connections ≡ self.old.places.connections) }
    {
        let (mut asking, mut awaited) = self.read_all(rt.alloc(), piece);
        if self.hasty > 0 {
            self.hasty -= 1;
            self.await_none();
            return Ok(());
        }
        let begun = Instant::now(rt);
        let mut silent = 0u64;
        for _more in 0..GATHERS {
            if asking == 0 || awaited == 0 || most <= asking {
                break;
            }
            if self.wait(Some(Duration::from_millis(1)))? {
                (asking, awaited) = self.read_all(rt.alloc(), piece);
            } else if silent < self.cost / 8_000 {
                silent += 1;
            } else {
                self.be_hasty();
                break;
            }
            if self.cost / 2 + 1_000 < micros_since(rt, &begun) {
                break;
            }
        }
        Ok(())
    }
}

impl<D: Begin + Drop, C: Crowd + Drop> Hub<D, C> {
    /// Lets in one more, if somebody waits. Returns whether somebody was let in.
    pub fn let_in(&mut self, alloc: Global) -> bool
        requires some { 1 ≤ length self.old.places.lines }
        requires count { self.old.places.connections < 2 ^ 64 - 1 }
        ensures served { (first : C) (loss : Option Loss) (start now : Snapshot)
            → IsServing (speaks D.Dialogue C.Stream.Stream) (listening_to C.Crowd) first loss start now self.old
            → IsServing (speaks D.Dialogue C.Stream.Stream) (listening_to C.Crowd) first loss start now self.new }
        ensures size { length self.new.places.lines ≡ length self.old.places.lines }
        ensures count { self.new.places.connections ≤ self.old.places.connections + 1 }
    {
        if !self.crowd.may_come() || !self.has_place() {
            return false;
        }
        // where memory is refused for a dialogue, whoever waits is let in later
        let Ok(dialogue) = D::begin(alloc) else {
            self.refused = self.refused.saturating_add(1);
            return false;
        };
        self.refused = 0;
        let place = self.place_for_one();
        let Some(stream) = self.crowd.admit(place) else {
            return false;
        };
        self.take_place(alloc, place, dialogue, stream);
        self.note_place(place);
        true
    }
}
