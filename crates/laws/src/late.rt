//! The law about copies that come late into a log.

ghost use Rattle.ledger.specs.Answers.{Runs};
ghost use Rattle.ledger.specs.Ledger.{Ledger, kept_under};
ghost use Rattle.laws.specs.Late.{Entry, carried, requests};
ghost use Rattle.laws.specs.Walks.{AreInRange};
ghost use Rattle.std.specs.List.{AllByRecursion as Each, Contains};
ghost use Rattle.std.specs.Prelude.{◌≡◌, ◌<◌, ◌≤◌, ◌∷◌, ◌++◌, List};
ghost use Rattle.words.specs.declared.reply.Reply.{Reply};

/// What was carried out of a log stays carried out as the log grows. After an entry that is carried out, another entry
/// with its key is carried out only if the first had been read when the other was asked for; an older entry might as
/// well not stand in the log. So where all entries that come with that key are older, what is kept under the key stays
/// as it was: nothing, where the request was refused.
pub fn late_copies_change_nothing()
    ensures fresh { (log more : List Entry) → (rest : List Entry) × (carried (log ++ more) ≡ carried log ++ rest)
        × ((e : Entry) → Contains (carried log) e
        → Each (λ x. x.request.key ≡ e.request.key → e.position ≤ x.base) rest) }
    ensures passed_over { (log more : List Entry) (e late : Entry) → Contains (carried log) e
        → late.request.key ≡ e.request.key → late.base < e.position
        → carried (log ++ late ∷ more) ≡ carried (log ++ more) }
    ensures unchanged { (A B C : Ledger) (log more : List Entry) (e : Entry) (before replies : List Reply)
        → Contains (carried log) e → Each (λ x. x.request.key ≡ e.request.key → x.base < e.position) more
        → Runs A (requests (carried log)) before B → Runs A (requests (carried (log ++ more))) replies C
        → kept_under C e.request.key ≡ kept_under B e.request.key }
    ensures range { (log : List Entry) → AreInRange (requests log) → AreInRange (requests (carried log)) }
{}
