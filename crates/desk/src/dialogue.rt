//! A dialogue with a desk, over any reader and writer.

ghost use Rattle.std.specs.Prelude.{◌≡◌, ◌≢◌, ◌⊎◌, ◌++◌, ◌∷◌, ◌+◌, ◌-◌, ◌^◌, [], Bool, false, true, Err, IfErr, IfOk, ℕ, List, OnOk, length, min};
ghost use Rattle.desk.specs.Desk.{Goes, desk_state};
ghost use Rattle.desk.specs.Dialogue.{Answered, EndsCut, EndsUntaken, EndsWhole, IsCut, most};
ghost use Rattle.desk.specs.Script.{Writes};
ghost use Rattle.desk.specs.Streams.{streams};

use crate::answer::Answer;
use crate::desk::Desk;
use crate::fault::{CallFault, ScriptFault};
use keep::Keep;
use std::alloc::Global;
use std::io::{Read, Write};
use words::{Memory, read_piece, write_whole};

/// How many bytes are read at a time, at the most.
const PIECE: usize = 512;

/// What comes next in a dialogue.
pub enum Next<Q> {
    /// A question is to be answered.
    Question(Q),
    /// More bytes are wanted.
    More,
    /// The dialogue is over.
    Over,
}

/// A dialogue with a desk: it takes bytes in, finds the questions in them, and has each answered.
pub trait Dialogue {
    ghost use Rattle.std.specs.Prelude.{◌≡◌, ◌++◌, ◌∷◌, ◌<◌, [], Bool, false, true, IfErr, IfOk, IsOk, ℕ, List, OnOk};
    ghost use Rattle.desk.specs.Desk.{DeskState, Goes, StaysSet, desk_state};
    ghost use Rattle.desk.specs.Dialogue.{AnswersOne, Begins, FailsOne, Language, bytes_of, is_end};
    ghost use Rattle.desk.specs.declared.dialogue.Next.{Next};
    ghost use Rattle.desk.specs.declared.dialogue.Next.TheVariants as next;

    /// A question, as the program holds it.
    type Question: Drop;

    // A question, as the language has it.
    ghost Asked: { Type 0 };

    // An answer, as the language has it.
    ghost Told: { Type 0 };

    // The language that is spoken.
    ghost language: { Language Asked Told };

    // What is asked by a question that is held.
    ghost asks: { Self.Question → Asked → Type 0 };

    // `has_found s read ended questions`: the dialogue `s` has taken in the bytes `read`, `ended` says whether the
    // input ends after them, and these questions were found.
    ghost has_found: { Self → List ℕ → Bool → List Asked → Type 0 };

    // A stopped desk may end the dialogue.
    ghost may_stop: { Type 0 };

    // Want of memory for an answer may end the dialogue.
    ghost may_want: { Type 0 };

    // How many questions the dialogue can find at the most, before more bytes are taken in.
    ghost size: { Self → ℕ };

    /// Takes in a piece of the input, where more bytes are wanted. A piece without bytes is the end of the input, and
    /// wants no memory.
    fn take_in(&mut self, alloc: Global, piece: &[u8]) -> Result<(), Memory>
        ensures end { piece.now ≡ [] → IsOk result }
        ensures taken { OnOk result ((read : List ℕ) (questions : List Asked) → has_found self.old read false questions
            → language.have_come read questions
            → has_found self.new (read ++ piece.now) (is_end piece.now) questions) };

    /// Finds the next question.
    fn next(&mut self, alloc: Global) -> Next<Self::Question>
        ensures question { (question : Self.Question) → result ≡ next.Question question → (read : List ℕ) (ended : Bool)
            (questions : List Asked) → has_found self.old read ended questions
            → (asked : Asked) × asks question asked × has_found self.new read ended (questions ++ asked ∷ []) }
        ensures fewer { (question : Self.Question) → result ≡ next.Question question → size self.new < size self.old }
        ensures more { result ≡ next.More → (read : List ℕ) (ended : Bool) (questions : List Asked)
            → has_found self.old read ended questions
            → has_found self.new read ended questions × (ended ≡ false) × language.have_come read questions }
        ensures over { result ≡ next.Over → (read : List ℕ) (ended : Bool) (questions : List Asked)
            → has_found self.old read ended questions
            → has_found self.new read ended questions × language.are_questions read questions
            × language.ends ended questions };

    /// Answers a question. The answer is made before the desk does anything.
    fn answer<K: Keep>(
        &self,
        alloc: Global,
        desk: &mut Desk<K>,
        question: &Self::Question,
    ) -> Result<Answer, CallFault>
        ensures told { IfOk result (λ answer. (asked : Asked) → asks question.now asked
            → AnswersOne language (desk_state K.Keep desk.old) asked (bytes_of answer) (desk_state K.Keep desk.new)) }
        ensures fails { IfErr result (λ fault. (asked : Asked) → asks question.now asked
            → FailsOne language fault (desk_state K.Keep desk.old) asked (desk_state K.Keep desk.new)) }
        ensures stop { result ≡ Err CallFault.Stopped → may_stop }
        ensures memory { result ≡ Err CallFault.Memory → may_want }
        ensures set { StaysSet K.same_settings desk.old desk.new }
        ensures goes { Goes K.Keep desk.old desk.new };

    // Whatever comes after what was taken in, the first questions are those that were found.
    ghost settled: { (self : Self) (read : List ℕ) (ended : Bool) (questions : List Asked)
        → has_found self read ended questions → (more : List ℕ) → (ended ≡ true → more ≡ [])
        → Begins language (read ++ more) questions };
}

/// A dialogue that can be begun.
pub trait Begin: Dialogue + Sized {
    ghost use Rattle.std.specs.Prelude.{[], false, IfOk};

    /// Returns a dialogue in which nothing has come yet.
    fn begin(alloc: Global) -> Result<Self, Memory>
        ensures new { IfOk result (λ dialogue. Self.has_found dialogue [] false []) }
        ensures none { Self.language.have_come [] [] };
}

/// Answers the questions that have come, and writes each answer before the next is made. Returns whether the dialogue
/// is over.
fn answer_come<D: Dialogue, K: Keep, W: Write>(
    alloc: Global,
    dialogue: &mut D,
    answered: &mut u64,
    writer: &mut W,
    desk: &mut Desk<K>,
) -> Result<bool, ScriptFault>
    ensures whole { IfOk result (λ is_over. (read : List ℕ) (ended : Bool) (before : List D.Asked)
        → D.has_found dialogue.old read ended before → (questions : List D.Asked)
        × (done : Answered D.language (desk_state K.Keep desk.old) questions (desk_state K.Keep desk.new)
        (W.contents writer.old) (W.contents writer.new))
        × ((count : ℕ) → answered.old ≡ most count → answered.new ≡ most (count + length done.answers))
        × D.has_found dialogue.new read ended (before ++ questions)
        × (is_over ≡ false → (ended ≡ false) × D.language.have_come read (before ++ questions))
        × (is_over ≡ true → D.language.are_questions read (before ++ questions)
        × D.language.ends ended (before ++ questions))) }
    ensures cut { IfErr result (λ fault. (read : List ℕ) (ended : Bool) (before : List D.Asked)
        → D.has_found dialogue.old read ended before → (questions : List D.Asked)
        × D.has_found dialogue.new read ended (before ++ questions)
        × Writes (W.contents writer.old) (W.contents writer.new) (λ written. IsCut D.language fault
        (desk_state K.Keep desk.old) questions written (desk_state K.Keep desk.new))) }
    ensures read { result ≢ Err ScriptFault.Read }
    ensures stop { result ≡ Err ScriptFault.Stopped → D.may_stop }
    ensures memory { result ≡ Err ScriptFault.Memory → D.may_want }
    ensures goes { Goes K.Keep desk.old desk.new }
{
    desk.in_order();
    loop {
        let question = match dialogue.next(alloc) {
            Next::Question(question) => question,
            Next::More => return Ok(false),
            Next::Over => return Ok(true),
        };
        let answer = dialogue.answer(alloc, desk, &question)?;
        write_whole(writer, answer.as_bytes())?;
        *answered = answered.saturating_add(1);
    }
}

/// Holds a dialogue with a desk until it is over. The input is read in pieces of at most 512 bytes. Each question that
/// has come is answered, and its answer is written, before the next question is answered. Returns how many questions
/// were answered, up to the greatest `u64`.
///
/// After a fault, what is written is a beginning of the answers to what was read. It has the answers to all that the
/// desk has done, but after a failing write the last of them may be missing or cut. So where memory is refused, all
/// that is done is answered. `Memory` is returned where memory was refused for an answer, or else for taking a piece of
/// the input in: then all questions that came whole before that piece are answered, and nothing of that piece is. (The
/// clause `memory` also allows that nothing was read, as it may be where a dialogue cannot be begun.)
///
/// `Stopped` is returned only where the desk is stopped. Where the desk was not stopped before the call and the disk is
/// honest, a stop of the program then leaves the rows before the request at which the keeper failed, or those after it.
/// Where the desk is not stopped after the call and the disk is honest, a stop of the program leaves the rows of the
/// desk's ledger and nothing else. A desk that was stopped before changes nothing.
pub fn converse<D: Dialogue, K: Keep, R: Read, W: Write>(
    alloc: Global,
    dialogue: &mut D,
    reader: &mut R,
    writer: &mut W,
    desk: &mut Desk<K>,
) -> Result<u64, ScriptFault>
    requires new { D.has_found dialogue.old [] false [] }
    requires none { D.language.have_come [] [] }
    ensures whole { IfOk result (λ count. (whole : EndsWhole D.language (desk_state K.Keep desk.old)
        (desk_state K.Keep desk.new)
        (streams (R.remaining reader.old) (R.remaining reader.new) (W.contents writer.old) (W.contents writer.new)))
        × (count ≡ most (length whole.answers))
        × D.has_found dialogue.new whole.read whole.has_ended whole.questions) }
    ensures cut { IfErr result (λ fault. EndsCut D.language fault (desk_state K.Keep desk.old)
        (desk_state K.Keep desk.new)
        (streams (R.remaining reader.old) (R.remaining reader.new) (W.contents writer.old) (W.contents writer.new))) }
    ensures stop { result ≡ Err ScriptFault.Stopped → D.may_stop }
    ensures memory { result ≡ Err ScriptFault.Memory → D.may_want ⊎ EndsUntaken D.language (desk_state K.Keep desk.old)
        (desk_state K.Keep desk.new)
        (streams (R.remaining reader.old) (R.remaining reader.new) (W.contents writer.old) (W.contents writer.new)) }
    ensures goes { Goes K.Keep desk.old desk.new }
{
    desk.in_order();
    let mut answered: u64 = 0;
    let mut piece = [0; PIECE];
    for _turn in 0..u64::MAX {
        let Ok(count) = read_piece(reader, &mut piece) else {
            return Err(ScriptFault::Read);
        };
        dialogue.take_in(alloc, &piece[..count])?;
        if answer_come(alloc, dialogue, &mut answered, writer, desk)? {
            return Ok(answered);
        }
    }
    Err(ScriptFault::Read)
}
