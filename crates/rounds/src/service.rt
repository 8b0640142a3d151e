//! A service of many connections, in rounds.

ghost use Rattle.std.specs.Prelude.{◌≡◌, ◌<◌, ◌≤◌, ◌^◌, [], false, length, Err, Option, OnErr, OnOk, IsTrue, ℕ};
ghost use Rattle.desk.specs.Deferred.{snapshot_off};
ghost use Rattle.desk.specs.Desk.{Snapshot};
ghost use Rattle.rounds.specs.Crowds.{IsServing, listening_to};
ghost use Rattle.rounds.specs.Lines.{speaks};
ghost use Rattle.rounds.specs.Rounds.{Loss};
ghost use Rattle.rounds.specs.Services.{HasServed, HasServedEnough, InService};

use crate::clock::micros_since;
use crate::crowd::Crowd;
use crate::filling::{is_filled, still_free};
use crate::hub::Hub;
use desk::{Begin, Deferred, Desk};
use keep::Keep;
use std::alloc::Global;
use std::io;
use std::num::NonZeroUsize;
use std::time::{Duration, Instant};
use thiserror::Error;

/// How many bytes are read at a time, at the most.
const PIECE: usize = 32 * 1024;

/// How many turns follow the one that stopped the desk, so that connections learn of it.
const LAST_TURNS: u32 = 3;

/// How often in a row memory may be refused for somebody who waits, while nobody is there who could give some back.
const REFUSED: u32 = 20;

/// The terms of a service.
#[derive(Clone, Copy)]
pub struct Terms {
    /// How many connections are served.
    pub connections: usize,
    /// How many may be there at once; at least one.
    pub clients: usize,
    /// How many questions are answered in a round, at the most.
    pub together: usize,
    /// Where it is told: how many places of the desk are taken or set aside when the service ends, even if fewer
    /// connections have come. A desk of which so many are taken at the beginning is served on.
    pub places: Option<NonZeroUsize>,
}

/// Why a service has ended before its time.
#[derive(Clone, Copy, Debug, PartialEq, Eq, Error)]
pub enum ServiceFault {
    /// Memory was refused before anything was begun, or again and again for somebody who waited while nobody was there.
    #[error("no memory")]
    Memory,
    /// The crowd failed.
    #[error("no connection can be had")]
    Crowd,
    /// The desk is stopped.
    #[error("the desk is stopped")]
    Stopped,
}

impl<D: Begin + Drop, C: Crowd + Drop> Hub<D, C> {
    /// Lets in all who wait, until `most` have come in all.
    fn let_in_all(&mut self, alloc: Global, most: usize)
        requires some { 1 ≤ length self.old.places.lines }
        requires within { self.old.places.connections ≤ most }
        ensures served { (first : C) (loss : Option Loss) (start now : Snapshot)
            → IsServing (speaks D.Dialogue C.Stream.Stream) (listening_to C.Crowd) first loss start now self.old
            → IsServing (speaks D.Dialogue C.Stream.Stream) (listening_to C.Crowd) first loss start now self.new }
        ensures size { length self.new.places.lines ≡ length self.old.places.lines }
        ensures within { self.new.places.connections ≤ most }
    {
        for _one in 0..most {
            if most <= self.connections() || !self.let_in(alloc) {
                return;
            }
        }
    }

    /// Makes a turn: whoever waits is let in, what has come is read, a round is held, and its answers are written.
    /// Returns whether anybody is there, and whether something can be done before the crowd says more.
    fn turn<K: Keep>(
        &mut self,
        rt: &HostRuntime,
        terms: &Terms,
        is_busy: bool,
        piece: &mut [u8],
        desk: &mut Desk<Deferred<K>>,
    ) -> io::Result<(bool, bool)>
        requires going { D.may_stop → ⊥ }
        requires settled { desk.old.keep.changes ≡ [] }
        requires some { 1 ≤ length self.old.places.lines }
        requires within { self.old.places.connections ≤ terms.now.connections }
        requires room { 0 < length piece.old }
        ensures served { (first : C) (start : Snapshot)
            → InService (speaks D.Dialogue C.Stream.Stream) (listening_to C.Crowd) K.Keep first start desk.old self.old
            → InService (speaks D.Dialogue C.Stream.Stream) (listening_to C.Crowd) K.Keep first start desk.new self.new }
        ensures settled { desk.new.keep.changes ≡ [] }
        ensures honest { K.is_honest desk.new.keep.keep → K.is_honest desk.old.keep.keep }
        ensures size { length self.new.places.lines ≡ length self.old.places.lines }
        ensures within { self.new.places.connections ≤ terms.now.connections }
    {
        self.begin_turn();
        let most = if is_busy { Some(Duration::ZERO) } else { None };
        self.wait(most)?;
        self.let_in_all(rt.alloc(), terms.connections);
        self.gather(rt, terms.together, piece)?;
        let begun = Instant::now(rt);
        self.round(rt.alloc(), terms.together, desk);
        self.note(micros_since(rt, &begun));
        Ok(self.tell_all(rt.alloc()))
    }

    /// Makes turns until so many connections have come and all have left again, or so many places are taken as the terms
    /// say; or, where the desk is stopped, some turns more.
    fn serve<K: Keep>(
        &mut self,
        rt: &HostRuntime,
        terms: &Terms,
        desk: &mut Desk<Deferred<K>>,
    ) -> Result<(), ServiceFault>
        requires going { D.may_stop → ⊥ }
        requires settled { desk.old.keep.changes ≡ [] }
        requires some { 1 ≤ length self.old.places.lines }
        requires within { self.old.places.connections ≤ terms.now.connections }
        ensures served { (first : C) (start : Snapshot)
            → InService (speaks D.Dialogue C.Stream.Stream) (listening_to C.Crowd) K.Keep first start desk.old self.old
            → InService (speaks D.Dialogue C.Stream.Stream) (listening_to C.Crowd) K.Keep first start desk.new self.new }
        ensures within { self.new.places.connections ≤ terms.now.connections }
        ensures honest { K.is_honest desk.new.keep.keep → K.is_honest desk.old.keep.keep }
        ensures all { OnOk result (HasServedEnough terms.now.connections terms.now.places self.new.places.connections
            desk.old.ledger desk.new.ledger × (desk.new.keep.stopped ≡ false)) }
        ensures stop { result ≡ Err ServiceFault.Stopped → IsTrue desk.new.keep.stopped }
    {
        let mut piece = [0; PIECE];
        let mut is_busy = true;
        let mut last = 0u32;
        let most = still_free(terms.places, desk);
        for _turn in 0..u64::MAX {
            let Ok((is_open, more)) = self.turn(rt, terms, is_busy, &mut piece, desk) else {
                return Err(ServiceFault::Crowd);
            };
            is_busy = more;
            if desk.is_stopped() {
                if last == LAST_TURNS {
                    return Err(ServiceFault::Stopped);
                }
                last += 1;
                is_busy = true;
            } else if is_filled(most, desk)
                || (!is_open && self.connections() == terms.connections)
            {
                return Ok(());
            } else if !is_open && REFUSED <= self.refused() {
                return Err(ServiceFault::Memory);
            }
        }
        Err(ServiceFault::Crowd)
    }
}

/// Serves as many connections as the terms say, many at once, on a desk whose commits are put off. It serves them in
/// rounds; each round is kept in one transaction before its answers are written. Once a round is kept behind which so
/// many places are taken as the terms say, it ends. At the end all connections are closed, and the crowd is given back.
///
/// `Memory` is returned where memory is refused before anything is begun, or again and again for somebody who waits
/// while nobody is there; `Crowd` where the crowd fails; `Stopped` where a round could not be kept, which stops the
/// desk. Nothing of that round is answered but `stopped`. While the disk is honest, a stop of the program then leaves
/// the rows before that round, or those after it.
pub fn serve_rounds<D: Begin + Drop, C: Crowd + Drop, K: Keep>(
    rt: &HostRuntime,
    desk: &mut Desk<Deferred<K>>,
    crowd: C,
    terms: &Terms,
) -> (C, Result<(), ServiceFault>)
    requires going { D.may_stop → ⊥ }
    requires goes { desk.old.keep.stopped ≡ false }
    requires settled { desk.old.keep.changes ≡ [] }
    requires clients { 1 ≤ terms.now.clients }
    ensures whole { OnOk result.1 ((desk.new.keep.stopped ≡ false) × (count : ℕ)
        × HasServedEnough terms.now.connections terms.now.places count desk.old.ledger desk.new.ledger
        × HasServed D.language C.Stream.remaining C.Stream.contents (listening_to C.Crowd) K.Keep
        crowd result.0 count desk.old desk.new) }
    ensures cut { OnErr result.1 ((count : ℕ) × (count ≤ terms.now.connections)
        × HasServed D.language C.Stream.remaining C.Stream.contents (listening_to C.Crowd) K.Keep
        crowd result.0 count desk.old desk.new) }
    ensures stop { result.1 ≡ Err ServiceFault.Stopped → IsTrue desk.new.keep.stopped }
    ensures honest { K.is_honest desk.new.keep.keep → K.is_honest desk.old.keep.keep }
{
    // does nothing when run; the prover learns that the desk is in order
    desk.is_kept();
    let mut hub = match Hub::<D, C>::new(rt.alloc(), crowd, terms.clients) {
        Ok(hub) => hub,
        Err(crowd) => return (crowd, Err(ServiceFault::Memory)),
    };
    let ended = hub.serve(rt, terms, desk);
    hub.close_all();
    (hub.into_crowd(), ended)
}
