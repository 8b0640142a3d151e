//! What is made of the reply to a request, for the one who asked.

ghost use Rattle.std.specs.Prelude.{◌≢◌, Err, IfOk, OnErr};

use crate::fault::CallFault;
use crate::reply::line_of_reply;
use escrow::Key;
use std::alloc::Global;
use words::{Memory, Reply};

/// A teller makes of a reply what the caller gets: the reply itself, its line of text, or an answer over HTTP.
pub trait Teller {
    ghost use Rattle.std.specs.Prelude.{ℕ, List, IfOk, OnErr};
    ghost use Rattle.words.specs.declared.reply.Reply.{Reply};

    /// What is made.
    type Told: Drop;

    // This is made of that reply to a request with this key.
    ghost tells: { List ℕ → Reply → Self.Told → Type 0 };

    // Making it may want memory.
    ghost wants_memory: { Type 0 };

    /// Makes of the reply to the request with that key what the caller gets.
    fn tell(&self, alloc: Global, key: Key, reply: &Reply) -> Result<Self::Told, Memory>
        ensures told { IfOk result (λ told. tells key reply.now told) }
        ensures memory { OnErr result wants_memory };
}

/// Returns what the teller makes of the reply to the request with that key. Fails with `Memory` only where the teller
/// may want memory, and never with `Stopped`.
pub(crate) fn tell_reply<T: Teller>(
    alloc: Global,
    teller: &T,
    key: Key,
    reply: Reply,
) -> Result<T::Told, CallFault>
    ensures told { IfOk result (λ told. T.tells key reply told) }
    ensures memory { OnErr result T.wants_memory }
    ensures going { result ≢ Err CallFault.Stopped }
{
    Ok(teller.tell(alloc, key, &reply)?)
}

/// The teller that gives the reply itself, and wants no memory.
pub(crate) struct AsReply;

impl Teller for AsReply {
    ghost use Rattle.std.specs.Prelude.{◌≡◌};

    type Told = Reply;

    ghost tells = { λ key reply told. told ≡ reply };

    ghost wants_memory = { ⊥ };

    fn tell(&self, _alloc: Global, _key: Key, reply: &Reply) -> Result<Reply, Memory> {
        Ok(*reply)
    }
}

/// The teller that makes the line of text of the reply.
pub(crate) struct AsLine;

impl Teller for AsLine {
    ghost use Rattle.std.specs.Prelude.{◌≡◌};
    ghost use Rattle.desk.specs.Replies.{request_line};

    type Told = Vec<u8>;

    ghost tells = { λ key reply told. told.items ≡ request_line key reply };

    ghost wants_memory = { Unit {0} };

    fn tell(&self, alloc: Global, key: Key, reply: &Reply) -> Result<Vec<u8>, Memory> {
        line_of_reply(alloc, key, reply)
    }
}

/// A reply, and its line of text.
#[derive(Drop)]
pub(crate) struct Answered {
    pub reply: Reply,
    pub line: Vec<u8>,
}

/// The teller that gives the reply together with its line of text.
pub(crate) struct AsBoth;

impl Teller for AsBoth {
    ghost use Rattle.std.specs.Prelude.{◌≡◌, ◌≤◌};
    ghost use Rattle.std.specs.Vec.{vec_len};
    ghost use Rattle.desk.specs.Replies.{request_line};
    ghost use Rattle.desk.specs.declared.reply.TheConstants.{LONGEST_LINE};

    type Told = Answered;

    ghost tells = { λ key reply told. (told.reply ≡ reply) × (told.line.items ≡ request_line key reply)
        × (vec_len told.line ≤ LONGEST_LINE) };

    ghost wants_memory = { Unit {0} };

    fn tell(&self, alloc: Global, key: Key, reply: &Reply) -> Result<Answered, Memory> {
        let line = line_of_reply(alloc, key, reply)?;
        Ok(Answered {
            reply: *reply,
            line,
        })
    }
}
