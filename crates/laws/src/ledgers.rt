//! Laws of ledgers, answers and runs, and worked examples of the rules.

ghost use Rattle.ledger.specs.Answers.{After, Answers, FirstFailure, IsAccepted, Runs, bound, checks, same_command};
ghost use Rattle.ledger.specs.Changes.{changed_rows, put_content};
ghost use Rattle.laws.specs.Examples.{Plays, firm_order, firm_transfer, long_script, other_bounds, release_and_abort, tight_bounds, transfer, two_checks_fail};
ghost use Rattle.ledger.specs.Future.{Honours, HonoursAlways, Settles, StaysFirm};
ghost use Rattle.ledger.specs.Good.{Good};
ghost use Rattle.ledger.specs.Held.{MayHoldMore, BreaksBound, held_to_add, held_to_take};
ghost use Rattle.ledger.specs.Ledger.{Field as FieldOf, Ledger, Name, Order, is_transfer, line_name, line_on, name_of, order_numbered, places, same_name, new_ledger};
ghost use Rattle.ledger.specs.Next.{accept, add_hold, change_lines, expires, lower_held, new_line, new_order, next, raise_used, set_state, transfer_lines, with_order};
ghost use Rattle.ledger.specs.Outcomes.{FallsBelow, IsInfimum, IsSupremum, RisesAbove, article_total, settled};
ghost use Rattle.ledger.specs.Rows.{Content, IsInKeyOrder, IsRowsOf, firm_row, move_row, order_lines, order_row};
ghost use Rattle.laws.specs.RowsByCommand.{rows_told};
ghost use Rattle.ledger.specs.Tables.{rows_among};
ghost use Rattle.ledger.specs.declared.order.Kind.{Kind};
ghost use Rattle.ledger.specs.declared.rows.Change.{Change};
ghost use Rattle.escrow.specs.Codes.{IsKey};
ghost use Rattle.escrow.specs.declared.quantity.Way.TheVariants.{Add, Take};
ghost use Rattle.std.specs.List.{AllByRecursion as Each, IsDistinct, filter, list_any};
ghost use Rattle.std.specs.Prelude.{◌≡◌, ◌+◌, ◌↔◌, ◌∷◌, ◌++◌, [], ◌+ℤ◌, ◌-ℤ◌, ◌&&◌, ℕ, List, IsNone, IsSomeAnd, IsTrue, Some, map, neg_ℤ, pos};
ghost use Rattle.words.specs.Spelling.{IsInRange};
ghost use Rattle.words.specs.declared.command.Command.TheVariants.{Abort, Commit, Deliver, Expire, Field, Firm, More, Open, Rebound, Release, Use, Writeoff};
ghost use Rattle.words.specs.declared.command.Command.TheVariants as command;
ghost use Rattle.ledger.specs.declared.order.Kind.TheVariants.{Plain, Transfer};
ghost use Rattle.ledger.specs.declared.order.State.TheVariants.{Aborted, Committed};
ghost use Rattle.words.specs.declared.command.Command.{Command};
ghost use Rattle.words.specs.declared.command.Request.{Request};
ghost use Rattle.words.specs.declared.open_line.OpenLine.{OpenLine};
ghost use Rattle.words.specs.declared.reply.Reply.TheVariants.{Done};
ghost use Rattle.words.specs.declared.reply.Reply.{Reply};

/// At a good ledger every request has an answer; at no ledger does it have two. An accepted request is done at the
/// next place, and any other request leaves the ledger as it was.
pub fn exactly_one_answer()
    ensures some { (A : Ledger) (r : Request) → Good A → (reply : Reply) × (B : Ledger) × Answers A r reply B }
    ensures one { (A : Ledger) (r : Request) (p q : Reply) (B C : Ledger) → Answers A r p B → Answers A r q C → (p ≡ q)
        × (B ≡ C) }
    ensures accepted { (A : Ledger) (r : Request) (reply : Reply) (B : Ledger) → IsAccepted A r → Answers A r reply B
        → (reply ≡ Done (places A + 1)) × (B ≡ accept A r) }
    ensures others { (A : Ledger) (r : Request) (reply : Reply) (B : Ledger) → (IsAccepted A r → ⊥)
        → Answers A r reply B → B ≡ A }
{}

/// Where a good ledger answers a request in range, the next ledger is good.
pub fn answers_stay_good()
    ensures { (A : Ledger) (r : Request) (reply : Reply) (B : Ledger) → Good A → IsKey r.key → IsInRange r.command
        → Answers A r reply B → Good B }
{}

/// A run of requests in range from a good ledger has a course, and ends at a good ledger; no run has two courses. So
/// after each number of its requests there is exactly one ledger.
pub fn runs_stay_good()
    ensures some { (A : Ledger) (rs : List Request) → Good A → Each (λ r. IsKey r.key × IsInRange r.command) rs
        → (replies : List Reply) × (B : Ledger) × Runs A rs replies B }
    ensures one { (A : Ledger) (rs : List Request) (ps qs : List Reply) (B C : Ledger) → Runs A rs ps B → Runs A rs qs C
        → (ps ≡ qs) × (B ≡ C) }
    ensures reached { (A : Ledger) (rs : List Request) (i : ℕ) → Good A
        → Each (λ r. IsKey r.key × IsInRange r.command) rs → (B : Ledger) × After A rs i B }
    ensures after { (A : Ledger) (rs : List Request) (i : ℕ) (B C : Ledger) → After A rs i B → After A rs i C → B ≡ C }
    ensures good { (A : Ledger) (rs : List Request) (replies : List Reply) (B : Ledger) → Good A
        → Each (λ r. IsKey r.key × IsInRange r.command) rs → Runs A rs replies B → Good B }
{}

/// The infimum is the settled value less all that open orders hold to take; the supremum is the settled value plus
/// all that they hold to add.
pub fn bounds_are_held()
    ensures infimum { (A : Ledger) (f : FieldOf) → Good A → IsInfimum A f (settled A f -ℤ held_to_take A f.name) }
    ensures supremum { (A : Ledger) (f : FieldOf) → Good A → IsSupremum A f (settled A f +ℤ held_to_add A f.name) }
{}

/// The test of a check asks about all outcomes of the ledger with the amount in it. It is one comparison with the
/// infimum or the supremum of the ledger as it is. This holds for a delivery and a write-off, for an amount more on
/// an order that may hold it, and for a line of an `open` or a `transfer`, where this line and those before it are
/// each on a field of its own.
pub fn tests_are_comparisons()
    ensures deliver { (A : Ledger) (f : Name) (q : ℕ) → Good A → RisesAbove (next A (Deliver f.branch f.article q)) f
        ↔ BreaksBound Add A f q }
    ensures writeoff { (A : Ledger) (f : Name) (q : ℕ) → Good A → FallsBelow (next A (Writeoff f.branch f.article q)) f
        ↔ BreaksBound Take A f q }
    ensures more { (A : Ledger) (n : ℕ) (l : OpenLine) (i : ℕ) → Good A
        → IsSomeAnd (order_numbered A n) (MayHoldMore (line_name (new_line l)) l.way)
        → (bound l.way (next A (More n l.way l.branch l.article l.qty)) (line_name (new_line l)) i).fails
        ↔ BreaksBound l.way A (line_name (new_line l)) l.qty }
    ensures line { (A : Ledger) (n : ℕ) (kind : Kind) (until : ℕ) (before : List OpenLine) (l : OpenLine) (i : ℕ)
        → Good A
        → IsDistinct same_name (map line_name (new_order n kind until before).lines)
        → IsNone (line_on (new_order n kind until before) (line_name (new_line l)))
        → (bound l.way (with_order (new_order n kind until (before ++ l ∷ [])) A) (line_name (new_line l)) i).fails
        ↔ BreaksBound l.way A (line_name (new_line l)) l.qty }
{}

/// Whatever uses, releases, commits, aborts, `firm` and expiries come to a good ledger, every field stays within its
/// bounds and no open order is refused its commit.
pub fn good_ledgers_honour()
    ensures answered { (A : Ledger) → Good A → Honours A }
    ensures always { (A : Ledger) → Good A → HonoursAlways A }
{}

/// A commit, a `firm` or a use of a transfer leaves the total of every article as it was.
pub fn transfers_even_out()
    ensures { (A : Ledger) (r : Request) (n : ℕ) (reply : Reply) (B : Ledger) (article : List ℕ) → Good A
        → Settles r.command n → Answers A r reply B
        → IsSomeAnd (order_numbered A n) (λ o. IsTrue (is_transfer o))
        → article_total B article ≡ article_total A article }
{}

/// A firm order is firm after any run, and is not aborted: only its commit ends it.
pub fn firm_orders_stay()
    ensures { (A : Ledger) (rs : List Request) (replies : List Reply) (B : Ledger) (n : ℕ) → Good A
        → Runs A rs replies B → IsSomeAnd (order_numbered A n) (λ o. IsTrue o.firm)
        → IsSomeAnd (order_numbered B n) StaysFirm }
{}

/// Commands in range are the same exactly where their spellings are.
pub fn spellings_tell_commands()
    ensures { (c d : Command) → IsInRange c → IsInRange d → IsTrue (same_command c d) ↔ (c ≡ d) }
{}

/// Two good ledgers with equal rows are equal.
pub fn rows_tell_all()
    ensures { (A B : Ledger) (C : Content) → Good A → Good B → IsRowsOf A C → IsRowsOf B C → A ≡ B }
{}

/// No ledger has two contents. A good one has one, whose rows stand in the order of their keys.
pub fn rows_are_one()
    ensures some { (A : Ledger) → Good A → (C : Content) × IsRowsOf A C }
    ensures one { (A : Ledger) (C D : Content) → IsRowsOf A C → IsRowsOf A D → C ≡ D }
    ensures order { (A : Ledger) (C : Content) → Good A → IsRowsOf A C → IsInKeyOrder C }
{}

/// The rows that an accepted request changes, put into the rows of a good ledger, give the rows of the next ledger.
pub fn changes_suffice()
    ensures { (A : Ledger) (r : Request) (C D : Content) → Good A → IsKey r.key → IsInRange r.command → IsAccepted A r
        → IsRowsOf A C → IsRowsOf (accept A r) D → put_content (changed_rows A r D) C ≡ D }
{}

/// The rows that an accepted request in range changes at a good ledger are those of the table, in which each command
/// has a line.
pub fn each_command_changes_its_rows()
    ensures { (A : Ledger) (r : Request) (next : Content) → Good A → IsInRange r.command
        → FirstFailure (checks A r.command) None → changed_rows A r next ≡ rows_told A r next }
{}

/// To put in the rows of two lists of changes together is to put in those of the first, and then those of the second.
pub fn changes_are_put_in_turn()
    ensures { (first second : List Change) (C : Content) → put_content (rows_among (first ++ second)) C
        ≡ put_content (rows_among second) (put_content (rows_among first) C) }
{}

/// The worked examples of the desk's rules are theorems about the definitions: each request of a script gets this
/// answer, and leaves these numbers.
pub fn worked_examples_hold()
    ensures long_script { Plays new_ledger long_script }
    ensures tight_bounds { Plays new_ledger tight_bounds }
    ensures transfer { Plays new_ledger transfer }
    ensures release_and_abort { Plays new_ledger release_and_abort }
    ensures other_bounds { Plays new_ledger other_bounds }
    ensures firm_order { Plays new_ledger firm_order }
    ensures firm_transfer { Plays new_ledger firm_transfer }
    ensures two_checks { Plays new_ledger two_checks_fail }
{}
