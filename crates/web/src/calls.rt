//! What is answered to what a message asks for.

ghost use Rattle.std.specs.Prelude.{◌≡◌, IfOk};
ghost use Rattle.desk.specs.Desk.{Goes, StaysSet, desk_state, snapshot};
ghost use Rattle.desk.specs.Dialogue.{bytes_of};
ghost use Rattle.web.specs.Answers.{answer_bytes};
ghost use Rattle.web.specs.Replies.{reply_of_stopped};
ghost use Rattle.web.specs.Turns.{IsAnswered, IsNoCall, Shows};
ghost use Rattle.web.specs.declared.ask.Ask.TheVariants as ask;

use crate::answer::reply_answer;
use crate::ask::Ask;
use crate::fixed::Fixed;
use crate::views::show_view;
use desk::{Answer, CallFault, Desk, Teller};
use escrow::Key;
use keep::Keep;
use std::alloc::{AllocError, Global};
use words::{Memory, Reply, Request};

/// The teller that makes the answer over HTTP of a reply.
struct AsAnswer;

impl Teller for AsAnswer {
    ghost use Rattle.std.specs.Prelude.{◌≡◌};
    ghost use Rattle.web.specs.Answers.{answer_bytes, reply_answer};

    type Told = Vec<u8>;

    ghost tells = { λ key reply told. told.items ≡ answer_bytes (reply_answer reply) };

    ghost wants_memory = { Unit {0} };

    fn tell(&self, alloc: Global, _key: Key, reply: &Reply) -> Result<Vec<u8>, Memory> {
        match reply_answer(alloc, *reply) {
            Ok(answer) => Ok(answer),
            Err(AllocError) => Err(Memory),
        }
    }
}

/// Calls a request, and returns the answer. The answer is made before the request is carried out. So no request is
/// carried out for whose answer memory is then refused.
fn answer_call<K: Keep>(alloc: Global, desk: &mut Desk<K>, request: &Request) -> Answer
    ensures answers { IsAnswered (desk_state K.Keep desk.old) (ask.Call request.now) result (desk_state K.Keep desk.new) }
    ensures set { StaysSet K.same_settings desk.old desk.new }
    ensures goes { Goes K.Keep desk.old desk.new }
{
    match desk.call_and_tell(alloc, &AsAnswer, request) {
        Ok(answer) => Answer::Made(answer),
        Err(CallFault::Memory) => Fixed::Memory.answer(),
        Err(CallFault::Stopped) => Fixed::Stopped.answer(),
    }
}

/// Returns the answer of a desk that is stopped.
fn answer_of_stopped(ask: &Ask) -> Answer
    ensures { bytes_of result ≡ answer_bytes (reply_of_stopped ask.now) }
{
    match ask {
        Ask::BadCall => Fixed::BadCommand.answer(),
        Ask::Nothing => Fixed::Nothing.answer(),
        _ => Fixed::Stopped.answer(),
    }
}

/// Returns the answer to a message that calls no request.
fn answer_view<K: Keep>(alloc: Global, desk: &Desk<K>, ask: &Ask) -> Result<Answer, AllocError>
    requires { IsNoCall ask.now }
    ensures { IfOk result (λ answer. Shows (snapshot (desk_state K.Keep desk.now)) ask.now answer) }
{
    if desk.is_stopped() {
        return Ok(answer_of_stopped(ask));
    }
    show_view(alloc, desk.book(), ask)
}

/// Answers what a message asks for, and returns the answer. Where memory is refused for the answer, nothing is done.
pub fn answer_ask<K: Keep>(alloc: Global, desk: &mut Desk<K>, ask: &Ask) -> Answer
    ensures answers { IsAnswered (desk_state K.Keep desk.old) ask.now result (desk_state K.Keep desk.new) }
    ensures set { StaysSet K.same_settings desk.old desk.new }
    ensures goes { Goes K.Keep desk.old desk.new }
{
    // does nothing when run; the prover learns that the desk is in order
    desk.is_stopped();
    if let Ask::Call(request) = ask {
        return answer_call(alloc, desk, request);
    }
    match answer_view(alloc, desk, ask) {
        Ok(answer) => answer,
        Err(_) => Fixed::Memory.answer(),
    }
}
