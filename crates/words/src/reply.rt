//! Replies, and why commands are refused.

ghost use Rattle.std.specs.Prelude.{◌≡◌, ◌++◌, IfOk, OnErr, OnOk, decimal};
ghost use Rattle.words.specs.Replies.{refusal_code, refusal_name, reply_text};
ghost use Rattle.words.specs.Words.{after_space};

use crate::write::{push_number, push_word};
use std::alloc::{AllocError, AllocFailed, Global};
use thiserror::Error;

/// Memory was refused, and nothing was changed.
#[derive(Clone, Copy, Debug, PartialEq, Eq, Error)]
#[error("out of memory")]
pub struct Memory;

impl From<AllocError> for Memory {
    fn from(_: AllocError) -> Memory {
        Memory
    }
}

impl<T: Drop> From<AllocFailed<T>> for Memory {
    fn from(_: AllocFailed<T>) -> Memory {
        Memory
    }
}

/// Why a command is refused.
#[derive(Clone, Copy, PartialEq, Eq)]
pub enum Refusal {
    /// Another command is kept under the key.
    KeyReused,
    /// The desk is full: it has no place, field or order left for the command.
    Full,
    /// The field is there already.
    FieldThere,
    /// There is no such field.
    NoField,
    /// Not `lo <= start <= hi`.
    BadBounds,
    /// An order has this number.
    OrderThere,
    /// No order has this number.
    NoOrder,
    /// The order has ended.
    Ended,
    /// The moment is not after the clock.
    Past,
    /// An earlier line of the command is on this field.
    SameField,
    /// The order's line on this field has the other way.
    OtherWay,
    /// The order has 64 lines, none of them on this field.
    TooManyLines,
    /// Some outcome would be below the lower bound.
    TooLittle,
    /// Some outcome would be above the upper bound.
    TooMuch,
    /// The order has no line on this field.
    NotHeld,
    /// The quantity is more than the order's line holds and has not used.
    OverUse,
    /// The order is a transfer, whose lines are fixed.
    TransferFixed,
    /// The moment is before the clock.
    ClockBack,
    /// The order is firm.
    Firm,
    /// The bytes are no spelling of a command.
    BadCommand,
}

impl Refusal {
    /// Returns the number of the refusal.
    pub fn code(self) -> u64
        ensures { result ≡ refusal_code self }
    {
        match self {
            Refusal::KeyReused => 1,
            Refusal::Full => 2,
            Refusal::FieldThere => 3,
            Refusal::NoField => 4,
            Refusal::BadBounds => 5,
            Refusal::OrderThere => 6,
            Refusal::NoOrder => 7,
            Refusal::Ended => 8,
            Refusal::Past => 9,
            Refusal::SameField => 10,
            Refusal::OtherWay => 11,
            Refusal::TooManyLines => 12,
            Refusal::TooLittle => 13,
            Refusal::TooMuch => 14,
            Refusal::NotHeld => 15,
            Refusal::OverUse => 16,
            Refusal::TransferFixed => 17,
            Refusal::ClockBack => 18,
            Refusal::Firm => 19,
            Refusal::BadCommand => 20,
        }
    }

    /// Returns the name of the refusal.
    pub fn name(self) -> &'static str
        ensures { result.now ≡ refusal_name self }
    {
        match self {
            Refusal::KeyReused => "KeyReused",
            Refusal::Full => "Full",
            Refusal::FieldThere => "FieldThere",
            Refusal::NoField => "NoField",
            Refusal::BadBounds => "BadBounds",
            Refusal::OrderThere => "OrderThere",
            Refusal::NoOrder => "NoOrder",
            Refusal::Ended => "Ended",
            Refusal::Past => "Past",
            Refusal::SameField => "SameField",
            Refusal::OtherWay => "OtherWay",
            Refusal::TooManyLines => "TooManyLines",
            Refusal::TooLittle => "TooLittle",
            Refusal::TooMuch => "TooMuch",
            Refusal::NotHeld => "NotHeld",
            Refusal::OverUse => "OverUse",
            Refusal::TransferFixed => "TransferFixed",
            Refusal::ClockBack => "ClockBack",
            Refusal::Firm => "Firm",
            Refusal::BadCommand => "BadCommand",
        }
    }
}

/// The reply to a request.
#[derive(Clone, Copy, PartialEq, Eq)]
pub enum Reply {
    /// The command is done, and this is its place.
    Done(u64),
    /// The command is refused. Where the check of an order line failed, the number is that line's, counted from 1;
    /// else it is 0.
    Refused(Refusal, u64),
}

fn text_of(alloc: Global, reply: &Reply) -> Result<Vec<u8>, AllocError>
    ensures { IfOk result (λ text. text.items ≡ reply_text reply.now) }
{
    match reply {
        Reply::Done(place) => {
            let mut text = Vec::from_slice(alloc, b"done")?;
            push_number(&mut text, *place)?;
            Ok(text)
        }
        Reply::Refused(refusal, line) => {
            let mut text = Vec::from_slice(alloc, b"refused")?;
            push_number(&mut text, refusal.code())?;
            push_word(&mut text, refusal.name().as_bytes())?;
            push_number(&mut text, *line)?;
            Ok(text)
        }
    }
}

/// Appends the text of a reply: `done PLACE` or `refused CODE NAME LINE`.
pub fn write_reply(reply: &Reply, out: &mut Vec<u8>) -> Result<(), Memory>
    ensures ok { OnOk result (out.new.items ≡ out.old.items ++ reply_text reply.now) }
    ensures err { OnErr result (out.new.items ≡ out.old.items) }
{
    let Ok(text) = text_of(*out.allocator(), reply) else {
        return Err(Memory);
    };
    match out.extend_from_slice(&text) {
        Ok(()) => Ok(()),
        Err(_) => Err(Memory),
    }
}
