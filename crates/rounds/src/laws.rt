//! What is true of every history. The function does nothing when run; its contract is the law.

ghost use Rattle.std.specs.Prelude.{◌≡◌, ℕ, Option};
ghost use Rattle.desk.specs.Desk.{Snapshot};
ghost use Rattle.rounds.specs.Histories.{AreRounds, History, heard_in, order_of};
ghost use Rattle.rounds.specs.Lines.{answers_of, questions_of};
ghost use Rattle.rounds.specs.Rounds.{IsOneOrder, Loss, said_on};

use desk::Dialogue;

/// Whatever comes on the connections, in whatever pieces, and whenever rounds are held and answers are written: all
/// that was said has one order, in which the answers are those of the language. The questions and answers of a
/// connection are those of its own in that order.
pub fn rounds_are_one_order<D: Dialogue>()
    ensures order { (loss : Option Loss) (history : History D.Asked D.Told) (start now : Snapshot)
        → AreRounds D.language loss start history now → IsOneOrder D.language loss start (order_of history) now }
    ensures questions { (history : History D.Asked D.Told) (connection : ℕ)
        → (heard_in history connection).questions ≡ questions_of (said_on connection (order_of history)) }
    ensures answers { (history : History D.Asked D.Told) (connection : ℕ)
        → (heard_in history connection).answers ≡ answers_of (said_on connection (order_of history)) }
{}
