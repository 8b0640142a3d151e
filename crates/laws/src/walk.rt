//! Laws of a desk that a stop has ended while it carried out a log.

ghost use Rattle.ledger.specs.Answers.{After, Runs};
ghost use Rattle.ledger.specs.Good.{Good};
ghost use Rattle.ledger.specs.Ledger.{Ledger, places};
ghost use Rattle.ledger.specs.Rolled.{rolled};
ghost use Rattle.laws.specs.Walks.{AreInRange, AreKeptBehind, GoesOnBehind, KeepsAt};
ghost use Rattle.std.specs.Prelude.{◌≡◌, ◌≢◌, ◌<◌, ◌≤◌, ◌+◌, ◌∷◌, ℕ, List, [], drop};
ghost use Rattle.words.specs.declared.command.Request.{Request};
ghost use Rattle.words.specs.declared.reply.Reply.{Reply};

/// A desk began at A, and a stop ended it at B after some of the log's requests. The requests that it keeps are exactly
/// one list, and stand in the log; the desk goes on after the fewest requests of the log in which they stand. It had
/// carried out at least so many, and what it carried out beyond them changed nothing. From there it replies as a desk
/// that no stop has ended, and comes to the ledger of that desk.
pub fn stopped_desks_find_where_to_go_on()
    ensures kept { (A B : Ledger) (log : List Request) (i : ℕ) → Good A → AreInRange log → After A log i B
        → (kept : List Request) × AreKeptBehind B (places A) kept }
    ensures one { (B : Ledger) (place : ℕ) (kept others : List Request) → Good B → AreKeptBehind B place kept
        → AreKeptBehind B place others → kept ≡ others }
    ensures found { (A B : Ledger) (log : List Request) (i : ℕ) (kept : List Request) → Good A → AreInRange log
        → After A log i B → AreKeptBehind B (places A) kept → (j : ℕ) × GoesOnBehind kept log j }
    ensures stands { (A B : Ledger) (log : List Request) (i j : ℕ) (kept : List Request) → Good A → AreInRange log
        → After A log i B → AreKeptBehind B (places A) kept → GoesOnBehind kept log j
        → (j ≤ i) × ((k : ℕ) → j ≤ k → k ≤ i → After A log k B) }
    ensures goes_on { (A B C : Ledger) (log : List Request) (j : ℕ) (replies : List Reply) → After A log j B
        → Runs A log replies C → Runs B (drop j log) (drop j replies) C }
{}

/// The desk of A may be rolled up between two requests of the log, by all who carry it out. From there on the log is
/// carried out as from a beginning, so a desk that was stopped finds where to go on by what it has kept since. Which
/// side of the roll it stands on tells what it keeps: where a key stayed at the roll and one went, another request is
/// kept at the first place behind the roll than before.
pub fn a_roll_begins_the_log_anew()
    ensures found { (K : ℕ) (A B : Ledger) (log : List Request) (i : ℕ) → Good A → AreInRange log
        → After (rolled K A) log i B → (kept : List Request) × (j : ℕ) × AreKeptBehind B (places (rolled K A)) kept
        × GoesOnBehind kept log j × (j ≤ i) × ((k : ℕ) → j ≤ k → k ≤ i → After (rolled K A) log k B) }
    ensures sides { (K : ℕ) (A B : Ledger) (log : List Request) (i : ℕ) (r s : Request) → Good A → 1 ≤ K
        → K < places A → After (rolled K A) log i B → KeepsAt A 1 r → KeepsAt B 1 s → r.key ≢ s.key }
{}

/// One walk over the log finds where a desk goes on: the walk takes each kept request in turn where it first comes,
/// and passes what comes between. Where the log ends before all are taken, it is not the log of that desk.
pub fn one_walk_finds_the_place()
    ensures taken { (n : Request) (kept log : List Request) (j : ℕ) → GoesOnBehind kept log j
        → GoesOnBehind (n ∷ kept) (n ∷ log) (j + 1) }
    ensures passed { (n r : Request) (kept log : List Request) (j : ℕ) → r ≢ n → GoesOnBehind (n ∷ kept) log j
        → GoesOnBehind (n ∷ kept) (r ∷ log) (j + 1) }
    ensures end { (log : List Request) → GoesOnBehind [] log 0 }
    ensures other { (n : Request) (kept : List Request) (j : ℕ) → GoesOnBehind (n ∷ kept) [] j → ⊥ }
{}
