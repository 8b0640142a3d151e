//! Connections at their places, and the rounds in which their questions are answered.

ghost use Rattle.std.specs.Prelude.{◌≡◌, ◌≢◌, ◌⊎◌, ◌↔◌, ◌<◌, ◌≤◌, ◌+◌, ◌-◌, ◌^◌, [], ◌∷◌, ◌++◌, false, true, length, set, slice_get, List, None, Option, Some, ℕ, option_map, IfNone, IfOk, IfSome, IsTrue, OnErr, OnOk};
ghost use Rattle.desk.specs.Deferred.{snapshot_off};
ghost use Rattle.desk.specs.Desk.{IsStored, Snapshot};
ghost use Rattle.rounds.specs.Histories.{IsReached, Visit, visit_of};
ghost use Rattle.rounds.specs.Lines.{LineView, speaks};
ghost use Rattle.rounds.specs.Rounds.{AtEach, HasQuestion, IsAt, IsLeftBy, IsLooked, IsRead, IsWritten, Loss, SameAt, line_at, lost_between, standing_at};

use crate::line::Line;
use crate::standing::Standing;
use crate::stream::Stream;
use crate::turns::{
    ask_all, forget_all, look_at, read_at, settle_round, show_all, standing_at, stream_of, write_at,
};
use desk::{CallFault, Deferred, Desk, Dialogue};
use keep::Keep;
use std::alloc::{AllocError, Global};
use std::io;
use std::marker::Model;

/// Returns the greater of two numbers.
fn greater_of(left: usize, right: usize) -> usize
    ensures left { left ≤ result }
    ensures right { right ≤ result }
    ensures least { (most : ℕ) → left ≤ most → right ≤ most → result ≤ most }
{
    if left < right { right } else { left }
}

/// Connections, each at a place.
#[derive(Drop)]
pub struct Places<D: Dialogue + Drop, S: Stream + Drop> {
    lines: Vec<Option<Line<D, S>>>,
    /// How many connections have come.
    connections: usize,
    /// The place with which the next round begins.
    first: usize,
    /// From this place on, no place was ever taken.
    unused: usize,
}

impl<D: Dialogue + Drop, S: Stream + Drop> Model for Places<D, S> {
    ghost use Rattle.rounds.specs.Histories.{PlacesView};
    ghost use Rattle.rounds.specs.Lines.{LineView};
    ghost use Rattle.std.specs.Prelude.{◌≤◌, length};
    ghost use Rattle.rounds.specs.Rounds.{AreBefore};

    ghost Value = { PlacesView (LineView D D.Question S) };

    ghost view = { λ p. record { lines = p.lines.items; connections = p.connections } };

    ghost invariant = { λ p. (p.unused ≤ length p.lines.items) × AreBefore p.unused p.lines.items };
}

impl<D: Dialogue + Drop, S: Stream + Drop> Places<D, S> {
    /// Returns so many places, at which nobody is.
    pub fn new(alloc: Global, places: usize) -> Result<Places<D, S>, AllocError>
        ensures reached { IfOk result (λ p. (start : Snapshot)
            → IsReached (speaks D.Dialogue S.Stream) None start start [] p) }
        ensures size { IfOk result (λ p. (length p.lines ≡ places) × (p.connections ≡ 0)) }
    {
        let mut lines = Vec::with_capacity(alloc, places)?;
        for _place in 0..places {
            lines.push(None)?;
        }
        Ok(Places {
            lines,
            connections: 0,
            first: 0,
            unused: 0,
        })
    }

    /// Returns how many places there are.
    pub fn len(&self) -> usize
        ensures { result ≡ length self.now.lines }
    {
        self.lines.len()
    }

    /// Returns how many connections have come.
    pub fn connections(&self) -> usize
        ensures { result ≡ self.now.connections }
    {
        self.connections
    }

    /// Returns how a place stands.
    pub fn standing(&self, place: usize) -> Standing
        requires { place < length self.now.lines }
        ensures { IfSome (slice_get self.now.lines place) (λ line. result ≡ standing_at line) }
    {
        standing_at(&self.lines[place])
    }

    /// Returns a place at which nobody is, if there is one.
    pub fn free_place(&self) -> Option<usize>
        ensures free { IfSome result (λ place. slice_get self.now.lines place ≡ Some None) }
        ensures within { IfSome result (λ place. place < length self.now.lines) }
        ensures none { IfNone result ((place : ℕ) → slice_get self.now.lines place ≢ Some None) }
    {
        for place in 0..self.lines.len() {
            if self.lines[place].is_none() {
                return Some(place);
            }
        }
        None
    }

    /// Seats a connection, on which nothing has come yet, at a place at which nobody is.
    pub fn seat(&mut self, alloc: Global, place: usize, dialogue: D, stream: S)
        requires new { D.has_found dialogue [] false [] }
        requires none { D.language.have_come [] [] }
        requires free { slice_get self.old.lines place ≡ Some None }
        requires count { self.old.connections < 2 ^ 64 - 1 }
        ensures reached { (loss : Option Loss) (start now : Snapshot) (visits : List (Visit S))
            → IsReached (speaks D.Dialogue S.Stream) loss start now visits self.old
            → IsReached (speaks D.Dialogue S.Stream) loss start now (visits ++ visit_of stream ∷ []) self.new }
        ensures here { (v : LineView D D.Question S) × IsAt self.new.lines place v
            × (v.connection ≡ self.old.connections) × (v.stream ≡ stream) }
        ensures others { (other : ℕ) → other ≢ place → slice_get self.new.lines other ≡ slice_get self.old.lines other }
        ensures size { length self.new.lines ≡ length self.old.lines }
        ensures count { self.new.connections ≡ self.old.connections + 1 }
    {
        self.lines[place] = Some(Line::new(alloc, self.connections, dialogue, stream));
        self.connections += 1;
        self.unused = greater_of(self.unused, place + 1);
    }

    /// Ends the dialogue at a place, if somebody is there, and returns its stream.
    pub fn leave(&mut self, place: usize) -> Option<S>
        requires place { place < length self.old.lines }
        ensures left { IfSome result (λ stream. (loss : Option Loss) (start now : Snapshot) (visits : List (Visit S))
            → IsReached (speaks D.Dialogue S.Stream) loss start now visits self.old
            → (connection : ℕ) × (came : S) × (slice_get visits connection ≡ Some (visit_of came))
            × IsReached (speaks D.Dialogue S.Stream) loss start now
            (set visits connection (record { came = came; left = Some stream })) self.new) }
        ensures stream { result ≡ option_map (λ v. v.stream) (line_at self.old.lines place) }
        ensures none { IfNone result (self.new ≡ self.old) }
        ensures free { slice_get self.new.lines place ≡ Some None }
        ensures others { (other : ℕ) → other ≢ place → slice_get self.new.lines other ≡ slice_get self.old.lines other }
        ensures same { (length self.new.lines ≡ length self.old.lines) × (self.new.connections ≡ self.old.connections) }
    {
        let line = self.lines[place].take();
        stream_of(line)
    }

    /// Reads a piece at a place. Returns how many bytes came, 0 at the end of what there is; `None` where no more is
    /// wanted there. A read that fails brings nothing.
    pub fn read(
        &mut self,
        alloc: Global,
        place: usize,
        piece: &mut [u8],
    ) -> io::Result<Option<usize>>
        requires place { place < length self.old.lines }
        requires room { 0 < length piece.old }
        ensures read { IsRead (speaks D.Dialogue S.Stream) result piece.new
            (line_at self.old.lines place) (line_at self.new.lines place) }
        ensures others { (other : ℕ) → other ≢ place → slice_get self.new.lines other ≡ slice_get self.old.lines other }
        ensures reached { (loss : Option Loss) (start now : Snapshot) (visits : List (Visit S))
            → IsReached (speaks D.Dialogue S.Stream) loss start now visits self.old
            → IsReached (speaks D.Dialogue S.Stream) loss start now visits self.new }
        ensures same { (length self.new.lines ≡ length self.old.lines) × (self.new.connections ≡ self.old.connections) }
    {
        read_at(alloc, &mut self.lines[place], piece)
    }

    /// Writes what is to be written at a place, as far as it is taken. Returns how many bytes were written; `None`
    /// where nothing is to be written there. A write that fails takes nothing.
    pub fn write(&mut self, place: usize) -> io::Result<Option<usize>>
        requires place { place < length self.old.lines }
        ensures written { IsWritten (speaks D.Dialogue S.Stream) result
            (line_at self.old.lines place) (line_at self.new.lines place) }
        ensures others { (other : ℕ) → other ≢ place → slice_get self.new.lines other ≡ slice_get self.old.lines other }
        ensures reached { (loss : Option Loss) (start now : Snapshot) (visits : List (Visit S))
            → IsReached (speaks D.Dialogue S.Stream) loss start now visits self.old
            → IsReached (speaks D.Dialogue S.Stream) loss start now visits self.new }
        ensures same { (length self.new.lines ≡ length self.old.lines) × (self.new.connections ≡ self.old.connections) }
    {
        write_at(&mut self.lines[place])
    }

    /// Looks for a question in what has come at a place, where none waits there. Returns whether one waits then.
    pub fn look(&mut self, alloc: Global, place: usize) -> bool
        requires place { place < length self.old.lines }
        ensures looked { IsLooked (speaks D.Dialogue S.Stream)
            (line_at self.old.lines place) (line_at self.new.lines place) }
        ensures waits { IsTrue result ↔ HasQuestion (line_at self.new.lines place) }
        ensures asks { standing_at (line_at self.new.lines place) ≡ Standing.Asks → IsTrue result }
        ensures others { (other : ℕ) → other ≢ place → slice_get self.new.lines other ≡ slice_get self.old.lines other }
        ensures reached { (loss : Option Loss) (start now : Snapshot) (visits : List (Visit S))
            → IsReached (speaks D.Dialogue S.Stream) loss start now visits self.old
            → IsReached (speaks D.Dialogue S.Stream) loss start now visits self.new }
        ensures same { (length self.new.lines ≡ length self.old.lines) × (self.new.connections ≡ self.old.connections) }
    {
        look_at(alloc, &mut self.lines[place])
    }

    /// Answers questions of the connections in turn, up to `most` of them, and keeps in one transaction what they
    /// change; only then are the answers shown. Where they could not be kept, no answer is shown, and the questions
    /// are asked again in the next round, of a desk that is stopped.
    pub fn round<K: Keep>(
        &mut self,
        alloc: Global,
        most: usize,
        desk: &mut Desk<Deferred<K>>,
    ) -> Result<(), CallFault>
        requires going { D.may_stop → ⊥ }
        requires settled { desk.old.keep.changes ≡ [] }
        ensures told { OnOk result ((loss : Option Loss) (start : Snapshot) (visits : List (Visit S))
            → IsReached (speaks D.Dialogue S.Stream) loss start (snapshot_off desk.old) visits self.old
            → IsReached (speaks D.Dialogue S.Stream) loss start (snapshot_off desk.new) visits self.new) }
        ensures untold { OnErr result ((loss : Option Loss) (start : Snapshot) (visits : List (Visit S))
            → IsReached (speaks D.Dialogue S.Stream) loss start (snapshot_off desk.old) visits self.old
            → IsReached (speaks D.Dialogue S.Stream)
            (Some (lost_between (snapshot_off desk.old) (snapshot_off desk.new))) start (snapshot_off desk.new) visits
            self.new) }
        ensures seats { AtEach SameAt self.old.lines self.new.lines }
        ensures settled { desk.new.keep.changes ≡ [] }
        ensures honest { K.is_honest desk.new.keep.keep → K.is_honest desk.old.keep.keep }
        // what is shown is kept: a stop of the program leaves the rows of the ledger after the round
        ensures kept { OnOk result (desk.old.keep.stopped ≡ false → (desk.new.keep.stopped ≡ false)
            × (K.is_honest desk.new.keep.keep
            → IsStored (K.holds desk.new.keep.keep) (K.leaves desk.new.keep.keep) desk.new.ledger)) }
        // where it could not be kept, a stop of the program leaves the rows before the round, or those of the ledger
        // that is shown
        ensures lost { OnErr result ((desk.old.keep.stopped ≡ false) × IsTrue desk.new.keep.stopped
            × IsLeftBy K.Keep desk.new.keep.keep (lost_between (snapshot_off desk.old) (snapshot_off desk.new))) }
        ensures halts { IsTrue desk.old.keep.stopped → (desk.new.ledger ≡ desk.old.ledger) × IsTrue desk.new.keep.stopped
            × (desk.new.keep.keep ≡ desk.old.keep.keep) }
        ensures same { (length self.new.lines ≡ length self.old.lines) × (self.new.connections ≡ self.old.connections) }
    {
        // does nothing when run; the prover learns that the desk is in order
        desk.is_kept();
        let was_stopped = desk.is_stopped();
        self.first = ask_all(alloc, &mut self.lines, self.first, self.unused, most, desk);
        match settle_round(desk, was_stopped) {
            Ok(()) => {
                show_all(alloc, &mut self.lines, self.unused);
                Ok(())
            }
            Err(fault) => {
                forget_all(&mut self.lines, self.unused);
                Err(fault)
            }
        }
    }
}
