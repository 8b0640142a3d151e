//! One connection of many.

ghost use Rattle.std.specs.Prelude.{◌≡◌, ◌≢◌, ◌<◌, ◌≤◌, ◌↔◌, [], ◌∷◌, ◌++◌, false, true, drop, length, take, List, ℕ, IfOk, OnErr, IsTrue};
ghost use Rattle.desk.specs.Deferred.{snapshot_off};
ghost use Rattle.desk.specs.Dialogue.{bytes_of};
ghost use Rattle.rounds.specs.Lines.{Heard, IsHeard, Said, Stands, speaks, unheard, with_said};
ghost use Rattle.rounds.specs.Rounds.{HasCome, HasFailed, HasTurn, HasWritten, OnlyPutsOff, standing_of};

use crate::phase::Phase;
use crate::standing::Standing;
use crate::stream::Stream;
use desk::{Answer, CallFault, Deferred, Desk, Dialogue, Next};
use keep::Keep;
use std::alloc::{AllocError, Global};
use std::collections::VecDeque;
use std::marker::Model;
use std::{io, mem};

/// Another question is answered only where at most so many bytes of answers are hidden.
const MOST_HIDDEN: usize = 32 * 1024;

/// For how many bytes of its answer room is made before a command is carried out.
const ROOM: usize = 512;

/// A dialogue, and the stream that it is with.
#[derive(Drop)]
pub struct Line<D: Dialogue + Drop, S: Drop> {
    dialogue: D,
    stream: S,
    /// The connection's number, counted from 0 in the order in which connections came.
    connection: usize,
    phase: Phase,
    /// The questions that were found, and whose answers are not shown yet.
    questions: VecDeque<D::Question>,
    /// How many of them are answered in this round.
    answered: usize,
    /// The answers to these, while it is not known whether they are kept.
    hidden: Vec<u8>,
    /// Answers that may be written.
    output: Vec<u8>,
    /// How many bytes of them are written.
    written: usize,
    /// Whether the question that was answered last in this round has changed nothing.
    is_still: bool,
}

impl<D: Dialogue + Drop, S: Drop> Model for Line<D, S> {
    ghost use Rattle.std.specs.Prelude.{◌≤◌, drop, length, take};
    ghost use Rattle.rounds.specs.Lines.{LineView};

    ghost Value = { LineView D D.Question S };

    ghost view = { λ l. record {
      dialogue = l.dialogue;
      stream = l.stream;
      connection = l.connection;
      phase = l.phase;
      asked = take l.answered l.questions.items;
      waiting = drop l.answered l.questions.items;
      hidden = l.hidden.items;
      output = drop l.written l.output.items;
    } };

    ghost invariant = { λ l. (l.answered ≤ length l.questions.items) × (l.written ≤ length l.output.items) };
}

impl<D: Dialogue + Drop, S: Stream + Drop> Line<D, S> {
    /// Returns a connection on which nothing has come yet.
    pub fn new(alloc: Global, connection: usize, dialogue: D, stream: S) -> Line<D, S>
        requires new { D.has_found dialogue [] false [] }
        requires none { D.language.have_come [] [] }
        ensures heard { IsHeard (speaks D.Dialogue S.Stream) result unheard [] }
        ensures stream { result.stream ≡ stream }
        ensures connection { result.connection ≡ connection }
    {
        Line {
            dialogue,
            stream,
            connection,
            phase: Phase::Wants,
            questions: VecDeque::new(alloc),
            answered: 0,
            hidden: Vec::new(alloc),
            output: Vec::new(alloc),
            written: 0,
            is_still: false,
        }
    }

    /// Returns what is to be written.
    pub fn output(&self) -> &[u8]
        ensures { result.now ≡ self.now.output }
    {
        rest_of(&self.output, self.written)
    }

    /// Returns whether a question was found that is not answered.
    pub fn has_question(&self) -> bool
        ensures waits { IsTrue result → 1 ≤ length self.now.waiting }
        ensures none { result ≡ false → self.now.waiting ≡ [] }
    {
        self.answered < self.questions.len()
    }

    /// Returns how the connection stands.
    pub fn standing(&self) -> Standing
        ensures { result ≡ standing_of self.now }
    {
        if self.phase == Phase::Gone {
            return Standing::Over;
        }
        if !self.output().is_empty() {
            return Standing::Writes;
        }
        match self.phase {
            Phase::Wants => Standing::Reads,
            Phase::Asks => Standing::Asks,
            Phase::Over | Phase::Gone => Standing::Over,
        }
    }

    /// Returns the stream, as it is.
    pub fn into_stream(self) -> S
        ensures { result ≡ self.stream }
    {
        let Line { stream, .. } = self;
        stream
    }

    /// Reads a piece, where more is wanted. Returns how many bytes came; 0 means that the reader is at its end. A read
    /// that fails brings nothing.
    pub fn read(&mut self, alloc: Global, piece: &mut [u8]) -> io::Result<usize>
        requires wants { self.old.phase ≡ Phase.Wants }
        requires room { 0 < length piece.old }
        ensures within { IfOk result (λ count. count ≤ length piece.new) }
        ensures came { IfOk result (λ count. HasCome (speaks D.Dialogue S.Stream) self.old self.new (take count piece.new)) }
        ensures failed { OnErr result (HasFailed (speaks D.Dialogue S.Stream) self.old self.new) }
    {
        let count = self.stream.read_piece(piece)?;
        match self.dialogue.take_in(alloc, front_of(piece, count)) {
            Ok(()) => self.phase = Phase::Asks,
            Err(_) => self.phase = Phase::Gone,
        }
        Ok(count)
    }

    /// Writes what is to be written, as far as it is taken. Returns how many bytes were written. A write that fails
    /// takes nothing.
    pub fn write(&mut self) -> io::Result<usize>
        ensures within { IfOk result (λ count. count ≤ length self.old.output) }
        ensures written { IfOk result (λ count.
            HasWritten (speaks D.Dialogue S.Stream) self.old self.new (take count self.old.output)) }
        ensures failed { OnErr result (HasFailed (speaks D.Dialogue S.Stream) self.old self.new) }
        ensures phase { self.new.phase ≡ self.old.phase }
    {
        let count = self.stream.write_some(rest_of(&self.output, self.written))?;
        self.written += count;
        Ok(count)
    }

    /// Looks for a question in what has come, where none waits. Returns whether one waits then.
    pub fn look(&mut self, alloc: Global) -> bool
        ensures heard { (h : Heard D.Asked D.Told) (said : List (Said D.Asked D.Told))
            → Stands (speaks D.Dialogue S.Stream) self.old h said
            → Stands (speaks D.Dialogue S.Stream) self.new h said }
        ensures waits { IsTrue result → 1 ≤ length self.new.waiting }
        ensures asks { IsTrue result ↔ (self.new.phase ≡ Phase.Asks) }
        ensures same { (self.new.connection ≡ self.old.connection) × (self.new.stream ≡ self.old.stream)
            × (self.new.output ≡ self.old.output) }
    {
        if self.phase != Phase::Asks {
            return false;
        }
        if self.has_question() {
            return true;
        }
        let Ok(()) = self.questions.reserve(1) else {
            self.phase = Phase::Gone;
            return false;
        };
        match self.dialogue.next(alloc) {
            Next::Question(question) => {
                self.questions.push_back_reserved(question);
                return true;
            }
            Next::More => self.phase = Phase::Wants,
            Next::Over => self.phase = Phase::Over,
        }
        false
    }

    /// Answers the next question, if there is one and it may be answered in this round: each answer before it is
    /// written, or is hidden in this round, and then the last one has changed something. The new answer is hidden.
    /// Returns whether a question was answered.
    pub fn turn<K: Keep>(&mut self, alloc: Global, desk: &mut Desk<Deferred<K>>) -> bool
        requires going { D.may_stop → ⊥ }
        ensures turn { (h : Heard D.Asked D.Told) (said : List (Said D.Asked D.Told))
            → Stands (speaks D.Dialogue S.Stream) self.old h said
            → HasTurn (speaks D.Dialogue S.Stream) result self.old self.new
            (snapshot_off desk.old) (snapshot_off desk.new) h said }
        ensures same { (self.new.connection ≡ self.old.connection) × (self.new.stream ≡ self.old.stream) }
        ensures off { OnlyPutsOff desk.old desk.new }
    {
        // does nothing when run; the prover learns that the desk is in order
        desk.is_stopped();
        if self.standing() != Standing::Asks || self.is_still || MOST_HIDDEN < self.hidden.len() {
            return false;
        }
        if !self.look(alloc) {
            return false;
        }
        self.answer(alloc, desk)
    }

    /// Answers the first question that waits, unless memory is refused. Returns whether it did.
    fn answer<K: Keep>(&mut self, alloc: Global, desk: &mut Desk<Deferred<K>>) -> bool
        requires going { D.may_stop → ⊥ }
        requires waits { 1 ≤ length self.old.waiting }
        requires asks { self.old.phase ≡ Phase.Asks }
        requires quiet { self.old.output ≡ [] }
        ensures turn { (h : Heard D.Asked D.Told) (said : List (Said D.Asked D.Told))
            → Stands (speaks D.Dialogue S.Stream) self.old h said
            → HasTurn (speaks D.Dialogue S.Stream) result self.old self.new
            (snapshot_off desk.old) (snapshot_off desk.new) h said }
        ensures same { (self.new.connection ≡ self.old.connection) × (self.new.stream ≡ self.old.stream) }
        ensures off { OnlyPutsOff desk.old desk.new }
    {
        // does nothing when run; the prover learns that the desk is in order
        desk.is_stopped();
        let put_off = desk.put_off();
        let Ok(()) = self.hidden.reserve(ROOM) else {
            self.phase = Phase::Gone;
            return false;
        };
        match self
            .dialogue
            .answer(alloc, desk, &self.questions[self.answered])
        {
            Ok(answer) => {
                self.is_still = desk.put_off() == put_off;
                self.hide(&answer);
                true
            }
            Err(CallFault::Memory) => {
                self.phase = Phase::Gone;
                false
            }
            Err(CallFault::Stopped) => unreachable!(),
        }
    }

    /// Hides an answer to the first question that waits.
    fn hide(&mut self, answer: &Answer)
        requires { 1 ≤ length self.old.waiting }
        ensures hidden { self.new.phase ≢ Phase.Gone → self.new ≡ record self.old {
          asked = self.old.asked ++ take 1 self.old.waiting;
          waiting = drop 1 self.old.waiting;
          hidden = self.old.hidden ++ bytes_of answer.now;
        } }
        ensures same { (self.new.connection ≡ self.old.connection) × (self.new.stream ≡ self.old.stream) }
    {
        match self.hidden.extend_from_slice(answer.as_bytes()) {
            Ok(()) => self.answered += 1,
            Err(_) => self.phase = Phase::Gone,
        }
    }

    /// Shows what is hidden, which may then be written.
    pub fn show(&mut self, alloc: Global)
        ensures shown { (h : Heard D.Asked D.Told) (said : List (Said D.Asked D.Told))
            → Stands (speaks D.Dialogue S.Stream) self.old h said
            → Stands (speaks D.Dialogue S.Stream) self.new (with_said h said) [] }
        ensures same { (self.new.connection ≡ self.old.connection) × (self.new.stream ≡ self.old.stream)
            × (self.new.phase ≡ self.old.phase) }
    {
        self.is_still = false;
        if self.answered == 0 {
            return;
        }
        let_go(&mut self.questions, self.answered);
        self.answered = 0;
        self.output = mem::replace(&mut self.hidden, Vec::new(alloc));
        self.written = 0;
    }

    /// Drops what is hidden: its questions are to be answered again.
    pub fn forget(&mut self)
        ensures forgotten { (h : Heard D.Asked D.Told) (said : List (Said D.Asked D.Told))
            → Stands (speaks D.Dialogue S.Stream) self.old h said
            → Stands (speaks D.Dialogue S.Stream) self.new h [] }
        ensures same { (self.new.connection ≡ self.old.connection) × (self.new.stream ≡ self.old.stream) }
    {
        self.is_still = false;
        if self.answered == 0 {
            return;
        }
        self.answered = 0;
        self.hidden.clear();
        self.phase = asking_again(self.phase);
    }
}

/// Returns the first so many bytes.
fn front_of(bytes: &[u8], count: usize) -> &[u8]
    requires { count ≤ length bytes.now }
    ensures { result.now ≡ take count bytes.now }
{
    &bytes[..count]
}

/// Returns the bytes after the first so many.
fn rest_of(bytes: &[u8], count: usize) -> &[u8]
    requires { count ≤ length bytes.now }
    ensures { result.now ≡ drop count bytes.now }
{
    &bytes[count..]
}

/// Returns how far a dialogue is whose questions are to be answered again.
fn asking_again(phase: Phase) -> Phase
    ensures { result ≢ Phase.Gone → (phase ≢ Phase.Gone) × (result ≡ Phase.Asks) }
{
    match phase {
        Phase::Gone => Phase::Gone,
        Phase::Wants | Phase::Asks | Phase::Over => Phase::Asks,
    }
}

/// Drops the first so many questions.
fn let_go<Q: Drop>(questions: &mut VecDeque<Q>, count: usize)
    ensures { questions.new.items ≡ drop count questions.old.items }
{
    for _question in 0..count {
        questions.pop_front();
    }
}
