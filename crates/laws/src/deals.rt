//! Laws of a deal between desks, where whoever sends its commands follows their guards.

ghost use Rattle.ledger.specs.Answers.{Answers, Runs};
ghost use Rattle.ledger.specs.Good.{Good};
ghost use Rattle.ledger.specs.Ledger.{Field, Ledger, Name};
ghost use Rattle.ledger.specs.Outcomes.{settled};
ghost use Rattle.laws.specs.Deals.{AllMovedOrUnderWay, ChangesByOrder, ComesToAnEnd, Course, Deal, GoesThrough, IsFree, IsNew, IsOver, IsOwn, IsReady, IsTransfer, Keeps, Names, NothingMoved, Turn, moved_in_all, moved_under};
ghost use Rattle.laws.specs.Still.{IsStill};
ghost use Rattle.std.specs.List.{AllByRecursion as Each, AllZip, IsDistinct};
ghost use Rattle.std.specs.Prelude.{◌≡◌, ◌≤ℤ◌, ◌+ℤ◌, ◌⊎◌, ◌∷◌, ℕ, List, pos};
ghost use Rattle.std.specs.Str.{bytes_eq};
ghost use Rattle.words.specs.declared.command.Request.{Request};
ghost use Rattle.words.specs.declared.reply.Reply.{Reply};

/// Take a deal between desks that have had no order under its number. Wherever its course stops, and whatever else
/// the desks were sent meanwhile, one of two things holds. Either no order has moved anything, and each that is open
/// can be aborted. Or the first order has moved all, and each other order has moved all, too, or its desk does not
/// refuse the commit that moves all there.
pub fn all_or_nothing()
    ensures { (c : Deal) (turns : List Turn) (d : Deal) → IsNew c → Course c turns d
        → NothingMoved d ⊎ AllMovedOrUnderWay d }
{}

/// From wherever its course stops, commits and aborts can bring a deal to its end: no more of them than there are desks,
/// and none of them is refused. This holds where there is a key that no desk has kept.
pub fn deals_come_to_an_end()
    ensures { (c : Deal) (turns : List Turn) (d : Deal) (key : List ℕ) → IsNew c → Course c turns d → IsFree key d.first
        → Each (IsFree key) d.others → ComesToAnEnd d }
{}

/// The facts on which the commands of a deal rest stay so: that an order is there, has used all, is committed, is
/// aborted. So what was right to send when it was sent is right whenever it arrives.
pub fn guards_stay()
    ensures { (c d : Deal) (turns more : List Turn) (e : Deal) → IsNew c → Course c turns d → Course d more e
        → Keeps d.number d.first e.first × AllZip (Keeps d.number) d.others e.others }
{}

/// Where the ledgers of all desks are good, all orders of a deal are open and have used nothing, and each desk has a
/// place free for each use: where there are keys that no desk has kept, there is a course by which the deal goes
/// through.
pub fn ready_deals_go_through()
    ensures { (c : Deal) (turns : List Turn) (d : Deal) (commit : List ℕ) (uses : List (List ℕ)) → IsNew c
        → Course c turns d → IsDistinct bytes_eq (commit ∷ uses) → IsReady d.number commit uses d.first
        → Each (IsReady d.number commit uses) d.others → GoesThrough d }
{}

/// A command that names an order changes the settled value of each field by what that order thereby moves there. No
/// other command changes what the order has moved.
pub fn own_commands_move_it_alone()
    ensures own { (A : Ledger) (r : Request) (reply : Reply) (B : Ledger) (n : ℕ) (f : Field) → Good A
        → Names r.command n → Answers A r reply B
        → settled B f +ℤ moved_under A n f.name ≡ settled A f +ℤ moved_under B n f.name }
    ensures others { (A : Ledger) (r : Request) (reply : Reply) (B : Ledger) (n : ℕ) (f : Name)
        → (Names r.command n → ⊥) → Answers A r reply B → moved_under B n f ≡ moved_under A n f }
{}

/// Where nothing else comes, the commands of a deal change the settled value of each field by what the deal's order
/// has moved there. The orders of a transfer never move in more of an article than they move out, and just as much
/// once all others are over: what is under way is missing, and never doubled.
pub fn transfers_between_even_out()
    ensures alone { (c : Deal) (turns : List Turn) (d : Deal) → IsNew c → Course c turns d → Good c.first.ledger
        → Each (λ s. Good s.ledger) c.others → Each (IsOwn c.number) turns
        → ChangesByOrder c.number c.first d.first × AllZip (ChangesByOrder c.number) c.others d.others }
    ensures missing { (c : Deal) (turns : List Turn) (d : Deal) (article : List ℕ) → IsNew c → Course c turns d
        → IsTransfer d → moved_in_all d article ≤ℤ pos 0 }
    ensures even { (c : Deal) (turns : List Turn) (d : Deal) (article : List ℕ) → IsNew c → Course c turns d
        → IsTransfer d → Each (IsOver d.number) d.others → moved_in_all d article ≡ pos 0 }
{}

/// Where no place is free and every open order is firm, no run changes any value, and it stays so. So a firm order
/// may be left with what it has not used. The orders of a deal are not firm, but have used all.
pub fn still_desks_stand()
    ensures { (A : Ledger) (rs : List Request) (replies : List Reply) (B : Ledger) → Good A → IsStill A
        → Runs A rs replies B → IsStill B × ((f : Field) → settled B f ≡ settled A f) }
{}
