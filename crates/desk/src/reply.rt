//! What is written for an item.

ghost use Rattle.std.specs.Prelude.{◌≡◌, ◌<◌, ◌≤◌, ◌^◌, IfOk};
ghost use Rattle.std.specs.Vec.{vec_len};
ghost use Rattle.desk.specs.Dialogue.{bytes_of};
ghost use Rattle.desk.specs.Replies.{AnswersFieldAsk, AnswersOrderAsk, number_of, request_line};
ghost use Rattle.desk.specs.declared.reply.TheConstants.{LONGEST_LINE};

use crate::answer::Answer;
use crate::desk::Desk;
use crate::lines::{field_text, order_text, push_text, text};
use escrow::{Article, Branch, Key, OrderNo};
use keep::Keep;
use std::alloc::Global;
use words::{Memory, Reply, write_reply};

/// What is written for a line that is bad.
pub const BAD_LINE: &[u8] = b"- refused 20 BadCommand 0\n";

/// What is written where a field or an order is asked for that is not there.
const NONE_LINE: &[u8] = b"? none\n";

/// No reply line has more bytes.
pub(crate) const LONGEST_LINE: usize = 96;

/// Does nothing when run; the prover learns that a `u64` is below 2^64.
fn is_word(number: u64)
    ensures { number < 2 ^ 64 }
{}

/// Does nothing when run; the prover learns the range of the reply's number.
fn in_range(reply: &Reply)
    ensures { number_of reply.now < 2 ^ 64 }
{
    match reply {
        Reply::Done(place) => is_word(*place),
        Reply::Refused(_, line) => is_word(*line),
    }
}

/// Returns the line of a reply: the key, a space, and the reply's text.
pub fn line_of_reply(alloc: Global, key: Key, reply: &Reply) -> Result<Vec<u8>, Memory>
    ensures line { IfOk result (λ out. out.items ≡ request_line key reply.now) }
    ensures short { IfOk result (λ out. vec_len out ≤ LONGEST_LINE) }
{
    in_range(reply);
    let mut out = text(alloc, key.as_bytes())?;
    push_text(&mut out, b" ")?;
    write_reply(reply, &mut out)?;
    push_text(&mut out, b"\n")?;
    Ok(out)
}

/// Returns the answer to a question for a field.
pub fn line_of_field<K: Keep>(
    alloc: Global,
    desk: &Desk<K>,
    branch: Branch,
    article: Article,
) -> Result<Answer, Memory>
    ensures { IfOk result (λ line. AnswersFieldAsk desk.now.ledger branch article (bytes_of line)) }
{
    match desk.field(branch, article) {
        Some(view) => Ok(Answer::Made(field_text(alloc, view)?)),
        None => Ok(Answer::Fixed(NONE_LINE)),
    }
}

/// Returns the answer to a question for an order.
pub fn line_of_order<K: Keep>(
    alloc: Global,
    desk: &Desk<K>,
    number: OrderNo,
) -> Result<Answer, Memory>
    ensures { IfOk result (λ line. AnswersOrderAsk desk.now.ledger number (bytes_of line)) }
{
    match desk.order(number) {
        Some(view) => Ok(Answer::Made(order_text(alloc, &view)?)),
        None => Ok(Answer::Fixed(NONE_LINE)),
    }
}
