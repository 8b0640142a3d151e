//! Lines in, lines out, a piece at a time.

ghost use Rattle.std.specs.Prelude.{◌≡◌, ◌≢◌, false, Err, IfErr, IfOk, OnOk};
ghost use Rattle.desk.specs.Desk.{Goes, TellsStop, desk_state};
ghost use Rattle.desk.specs.Dialogue.{EndsCut, EndsWhole};
ghost use Rattle.desk.specs.Script.{WritesBeginning, lines};
ghost use Rattle.desk.specs.Streams.{streams};

use crate::answer::Answer;
use crate::desk::Desk;
use crate::dialogue::{Dialogue, Next, converse};
use crate::fault::{CallFault, ScriptFault};
use crate::reply::{BAD_LINE, line_of_field, line_of_order};
use crate::telling::AsLine;
use keep::Keep;
use std::alloc::Global;
use std::io::{Read, Write};
use std::vec::IntoIter;
use words::{Item, Lines, Memory};

/// A dialogue in lines.
#[derive(Drop)]
struct LineDialogue {
    lines: Lines,
    /// The items of complete lines that `next` has not given out yet.
    waiting: IntoIter<Item>,
    has_ended: bool,
}

impl Dialogue for LineDialogue {
    ghost use Rattle.std.specs.Prelude.{◌≡◌, ◌+◌, ℕ, List, length};
    ghost use Rattle.std.specs.Vec.Iter.{into_iter_items};
    ghost use Rattle.words.specs.declared.item.Item.{Item};
    ghost use Rattle.desk.specs.Laws.{fed_settles};
    ghost use Rattle.desk.specs.Script.{HasFed, lines};
    ghost use Rattle.desk.specs.Text.{unended};

    type Question = Item;

    ghost Asked = { Item };

    ghost Told = { List ℕ };

    ghost language = { lines };

    ghost asks = { λ question asked. asked ≡ question };

    ghost has_found = { λ s read ended found. (s.has_ended ≡ ended) × HasFed s.lines (into_iter_items s.waiting) read ended found };

    ghost may_stop = { Unit {0} };

    ghost may_want = { Unit {0} };

    ghost size = { λ s. length (into_iter_items s.waiting) + length (unended s.lines) };

    fn take_in(&mut self, alloc: Global, piece: &[u8]) -> Result<(), Memory> {
        if piece.is_empty() {
            self.has_ended = true;
        } else {
            self.waiting = self.lines.feed(alloc, piece)?.into_iter();
        }
        Ok(())
    }

    fn next(&mut self, _alloc: Global) -> Next<Item> {
        if let Some(item) = self.waiting.next() {
            return Next::Question(item);
        }
        if !self.has_ended {
            return Next::More;
        }
        match self.lines.finish() {
            Some(item) => Next::Question(item),
            None => Next::Over,
        }
    }

    fn answer<K: Keep>(
        &self,
        alloc: Global,
        desk: &mut Desk<K>,
        item: &Item,
    ) -> Result<Answer, CallFault> {
        desk.in_order();
        match item {
            Item::Request(request) => {
                Ok(Answer::Made(desk.call_and_tell(alloc, &AsLine, request)?))
            }
            Item::AskField(branch, article) => Ok(line_of_field(alloc, desk, *branch, *article)?),
            Item::AskOrder(number) => Ok(line_of_order(alloc, desk, *number)?),
            Item::Bad => Ok(Answer::Fixed(BAD_LINE)),
        }
    }

    ghost settled = { λ s read ended found h. fed_settles s.lines (into_iter_items s.waiting) read ended found h.1 };
}

/// Writes to each line its reply line, until the input ends. The input is read in pieces of at most 512 bytes. Each
/// line is answered, and its reply line is written, before the next line is answered; so somebody who types sees each
/// reply.
///
/// After a fault, what is written is a beginning of the text for what was read. It has the reply lines to all that the
/// desk has done, but after a failing write the last of them may be missing or cut. So where memory is refused, all
/// that is done is answered.
///
/// `Stopped` is returned only where the desk is stopped. Where the desk was not stopped before the call and the disk is
/// honest, a stop of the program then leaves the rows before the request at which the script is cut, or those after it.
/// Where the desk is not stopped after the call and the disk is honest, a stop of the program leaves the rows of the
/// desk's ledger and nothing else. A desk that was stopped before answers the lines up to the first request, and
/// changes nothing.
pub fn script<K: Keep, R: Read, W: Write>(
    alloc: Global,
    reader: &mut R,
    writer: &mut W,
    desk: &mut Desk<K>,
) -> Result<(), ScriptFault>
    ensures whole { OnOk result (EndsWhole lines (desk_state K.Keep desk.old) (desk_state K.Keep desk.new)
        (streams (R.remaining reader.old) (R.remaining reader.new) (W.contents writer.old) (W.contents writer.new))) }
    ensures cut { IfErr result (λ fault. EndsCut lines fault (desk_state K.Keep desk.old) (desk_state K.Keep desk.new)
        (streams (R.remaining reader.old) (R.remaining reader.new) (W.contents writer.old) (W.contents writer.new))) }
    ensures begins { IfErr result (λ fault. WritesBeginning desk.old.ledger
        (streams (R.remaining reader.old) (R.remaining reader.new) (W.contents writer.old) (W.contents writer.new))) }
    ensures stop { TellsStop (result ≡ Err ScriptFault.Stopped) (desk_state K.Keep desk.old) (desk_state K.Keep desk.new) }
    ensures goes { Goes K.Keep desk.old desk.new }
{
    desk.in_order();
    let mut dialogue = LineDialogue {
        lines: Lines::new(alloc),
        waiting: Vec::new(alloc).into_iter(),
        has_ended: false,
    };
    converse(alloc, &mut dialogue, reader, writer, desk)?;
    Ok(())
}
