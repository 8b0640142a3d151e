//! How a connection is served.

ghost use Rattle.std.specs.Prelude.{◌≡◌, ◌≢◌, [], Err, IfErr, IfOk, drop, false, true};
ghost use Rattle.desk.specs.Desk.{Goes, desk_state, snapshot};
ghost use Rattle.desk.specs.Dialogue.{BeginsTranscript, EndsCut, EndsUntaken, EndsWhole};
ghost use Rattle.desk.specs.Streams.{streams};
ghost use Rattle.web.specs.Intake.{IsMessageAt, IsMessageWithin};
ghost use Rattle.web.specs.Messages.{Message, whole};
ghost use Rattle.web.specs.Serving.{Tells, cause_of};
ghost use Rattle.web.specs.Turns.{IsAsked, ending_of};
ghost use Rattle.web.specs.Web.{http};

use crate::ask::{Ask, ask_of};
use crate::calls::answer_ask;
use crate::fixed::Fixed;
use crate::intake::{Found, Next as Held, next_message};
use crate::route::Routes;
use crate::served::{Ending, Served, WebFault};
use desk::{Answer, Begin, CallFault, Desk, Dialogue, Next, ScriptFault, converse};
use keep::Keep;
use std::alloc::{AllocError, Global};
use std::io::{Read, Write};
use words::Memory;

/// A part of a stream, as the dialogue found it.
#[derive(Drop)]
pub enum Asked {
    /// A message that asks for this.
    Message(Ask),
    /// A message for which memory was refused.
    NoMemory,
    /// Something that is no message.
    Unreadable,
}

/// A dialogue in HTTP.
#[derive(Drop)]
pub struct HttpDialogue {
    routes: Routes,
    /// The bytes that have come after the messages that were found.
    held: Vec<u8>,
    has_ended: bool,
    /// Whether it was found that what is held is no message.
    is_over: bool,
}

impl Begin for HttpDialogue {
    fn begin(alloc: Global) -> Result<HttpDialogue, Memory> {
        let Ok(routes) = Routes::new(alloc) else {
            return Err(Memory);
        };
        Ok(HttpDialogue {
            routes,
            held: Vec::new(alloc),
            has_ended: false,
            is_over: false,
        })
    }
}

impl HttpDialogue {
    /// Drops the message at the front, and returns what it asks for.
    fn take_message(&mut self, alloc: Global, found: &Found) -> Asked
        requires { IsMessageWithin self.old.held.items found.now }
        ensures asked { (m : Message) → IsMessageAt self.old.held.items found.now m → IsAsked result (whole m) }
        ensures behind { self.new.held.items ≡ drop found.now.end self.old.held.items }
        ensures ended { self.new.has_ended ≡ self.old.has_ended }
        ensures over { self.new.is_over ≡ self.old.is_over }
    {
        let asked = match ask_of(alloc, &self.routes, &self.held, found) {
            Ok(ask) => Asked::Message(ask),
            Err(AllocError) => Asked::NoMemory,
        };
        self.held.drain(..found.end);
        asked
    }

    /// Notes that what is held is no message, so that the dialogue looks for nothing after it.
    fn end_unreadable(&mut self) -> Asked
        ensures asked { result ≡ Asked.Unreadable }
        ensures held { self.new.held ≡ self.old.held }
        ensures ended { self.new.has_ended ≡ self.old.has_ended }
        ensures over { self.new.is_over ≡ true }
    {
        self.is_over = true;
        Asked::Unreadable
    }

    /// Returns how the dialogue has ended.
    fn ending(&self) -> Ending
        ensures { result ≡ ending_of self.now.is_over }
    {
        if self.is_over {
            Ending::BadMessage
        } else {
            Ending::Input
        }
    }
}

impl Dialogue for HttpDialogue {
    ghost use Rattle.std.specs.Prelude.{◌≡◌};
    ghost use Rattle.web.specs.Answers.{Answer};
    ghost use Rattle.web.specs.Messages.{Part};
    ghost use Rattle.web.specs.Turns.{AreFirst, HasFound, IsAsked, left_to_find};
    ghost use Rattle.web.specs.Web.{http};

    type Question = Asked;

    ghost Asked = { Part };

    ghost Told = { Answer };

    ghost language = { http };

    ghost asks = { IsAsked };

    ghost has_found = { λ s read ended found. (s.has_ended ≡ ended) × HasFound s.is_over s.held.items read ended found
        × AreFirst read ended found };

    ghost may_stop = { ⊥ };

    ghost may_want = { ⊥ };

    ghost size = { λ s. left_to_find s.is_over s.held.items };

    fn take_in(&mut self, _alloc: Global, piece: &[u8]) -> Result<(), Memory> {
        if piece.is_empty() {
            self.has_ended = true;
            return Ok(());
        }
        match self.held.extend_from_slice(piece) {
            Ok(()) => Ok(()),
            Err(_) => Err(Memory),
        }
    }

    fn next(&mut self, alloc: Global) -> Next<Asked> {
        if self.is_over {
            return Next::Over;
        }
        match next_message(&self.held) {
            Held::Message(found) => Next::Question(self.take_message(alloc, &found)),
            Held::More if !self.has_ended => Next::More,
            Held::More if self.held.is_empty() => Next::Over,
            Held::More => Next::Question(self.end_unreadable()),
            Held::Unreadable => Next::Question(self.end_unreadable()),
        }
    }

    fn answer<K: Keep>(
        &self,
        alloc: Global,
        desk: &mut Desk<K>,
        asked: &Asked,
    ) -> Result<Answer, CallFault> {
        // does nothing when run; the prover learns that the desk is in order
        desk.is_stopped();
        match asked {
            Asked::Message(ask) => Ok(answer_ask(alloc, desk, ask)),
            Asked::NoMemory => Ok(Fixed::Memory.answer()),
            Asked::Unreadable => Ok(Fixed::NoMessage.answer()),
        }
    }

    ghost settled = { λ s read ended found h. h.2 };
}

/// Returns the fault of a connection that a fault of its dialogue becomes; a stopped desk does not end such a dialogue.
fn web_fault(fault: ScriptFault) -> WebFault
    requires { fault ≢ ScriptFault.Stopped }
    ensures { cause_of result ≡ fault }
{
    match fault {
        ScriptFault::Memory => WebFault::Memory,
        ScriptFault::Stopped => unreachable!(),
        ScriptFault::Read => WebFault::Read,
        ScriptFault::Write => WebFault::Write,
    }
}

/// Answers the messages of a connection in their order, each before the next is looked at, until the input ends or what
/// comes is no message. More is read only where a head or a body has not come whole.
///
/// What is written is the answers to all that was read, and `Served` has their number. After a fault, what is written
/// is a beginning of these answers. It has the answers to all that the desk has done; only after a failing write the
/// last one, or its end, may be missing. A message for which memory is refused is answered so. `Memory` is returned
/// only where memory is refused for the router, before anything is read, or for a piece of the input: what came whole
/// before that piece is answered, and nothing of the piece. A connection of 2^64 - 1 pieces ends as one whose reader
/// fails.
///
/// `stopped` is answered only where the desk is stopped. Where the keeper failed in this call and the disk is honest, a
/// stop of the program then leaves the rows of the desk's ledger, or those after the command that was first answered
/// `stopped`. Where the desk is not stopped after the call and the disk is honest, a stop of the program leaves the
/// rows of the desk's ledger and nothing else. A desk that was stopped before changes nothing, and answers as a stopped
/// desk.
pub fn serve<K: Keep, R: Read, W: Write>(
    alloc: Global,
    reader: &mut R,
    writer: &mut W,
    desk: &mut Desk<K>,
) -> Result<Served, WebFault>
    ensures whole { IfOk result (λ served. (whole : EndsWhole http (desk_state K.Keep desk.old)
        (desk_state K.Keep desk.new)
        (streams (R.remaining reader.old) (R.remaining reader.new) (W.contents writer.old) (W.contents writer.new)))
        × Tells served whole) }
    ensures cut { IfErr result (λ fault. EndsCut http (cause_of fault) (desk_state K.Keep desk.old)
        (desk_state K.Keep desk.new)
        (streams (R.remaining reader.old) (R.remaining reader.new) (W.contents writer.old) (W.contents writer.new))) }
    ensures begins { IfErr result (λ fault. BeginsTranscript http (snapshot (desk_state K.Keep desk.old))
        (streams (R.remaining reader.old) (R.remaining reader.new) (W.contents writer.old) (W.contents writer.new))) }
    ensures memory { result ≡ Err WebFault.Memory → EndsUntaken http (desk_state K.Keep desk.old)
        (desk_state K.Keep desk.new)
        (streams (R.remaining reader.old) (R.remaining reader.new) (W.contents writer.old) (W.contents writer.new)) }
    ensures goes { Goes K.Keep desk.old desk.new }
{
    // does nothing when run; the prover learns that the desk is in order
    desk.is_stopped();
    let Ok(routes) = Routes::new(alloc) else {
        return Err(WebFault::Memory);
    };
    let mut dialogue = HttpDialogue {
        routes,
        held: Vec::new(alloc),
        has_ended: false,
        is_over: false,
    };
    match converse(alloc, &mut dialogue, reader, writer, desk) {
        Ok(answered) => Ok(Served {
            answered,
            ending: dialogue.ending(),
        }),
        Err(fault) => Err(web_fault(fault)),
    }
}
