//! What is true of every text, and of every run that is resumed. The functions do nothing when run; the contract of
//! each is a law.

ghost use Rattle.std.specs.Prelude.{◌≡◌, ◌⊎◌, ◌≤◌, ◌+◌, ◌-◌, ℕ, ◌++◌, List, drop, flat_map, length, take};
ghost use Rattle.std.specs.List.{AllByRecursion as Each};
ghost use Rattle.escrow.specs.Codes.{IsKey};
ghost use Rattle.words.specs.Spelling.{IsInRange};
ghost use Rattle.words.specs.declared.command.Request.{Request};
ghost use Rattle.words.specs.declared.reply.Reply.{Reply};
ghost use Rattle.ledger.specs.Answers.{Runs};
ghost use Rattle.ledger.specs.Good.{Good};
ghost use Rattle.ledger.specs.Ledger.{Ledger};
ghost use Rattle.ledger.specs.Rows.{Content, IsRowsOf};
ghost use Rattle.desk.specs.Resuming.{ResumesAgain, ResumableAt};
ghost use Rattle.desk.specs.Together.{IsBatch, ResumesWithin, ResumesWithinAgain, RunsInLists, ResumableWithin};
ghost use Rattle.desk.specs.Text.{IsText};

/// At a good ledger there is exactly one text for each input: what a script reads settles what it writes.
pub fn exactly_one_text()
    ensures some { (old : Ledger) (input : List ℕ) → Good old → (out : List ℕ) × (new : Ledger)
        × IsText old input out new }
    ensures one { (old : Ledger) (input out other : List ℕ) (new last : Ledger) → IsText old input out new
        → IsText old input other last → (out ≡ other) × (new ≡ last) }
{}

/// A run that is cut any number of times, and resumed each time after its last reply, comes to the same replies and the
/// same ledger as a run that is not cut. Where a stop cut it, an opening finds a ledger at which it may be resumed.
pub fn resuming_is_invisible()
    ensures same { (A : Ledger) (requests : List Request) (k : ℕ) (given : List (List Reply)) (replies : List Reply)
        (B last : Ledger) → 1 ≤ k → ResumesAgain A requests k given B
        → k + length (flat_map (λ some. some) given) ≡ length requests + 1 → Runs A requests replies last
        → (flat_map (λ some. some) given ≡ drop (k - 1) replies) × (B ≡ last) }
    ensures found { (A B C D : Ledger) (requests : List Request) (k : ℕ) (x y z : Content) → Good A
        → Each (λ r. IsKey r.key × IsInRange r.command) requests → Good D
        → ResumableAt A requests k B → ResumableAt A requests k C → IsRowsOf B y → IsRowsOf C z → (x ≡ y) ⊎ (x ≡ z)
        → IsRowsOf D x → ResumableAt A requests k D }
{}

/// A batch that was kept and comes again gets the same replies and changes nothing. So a caller whom a failing commit
/// cut off, and who goes on at the first request without a reply, gets the replies and the ledger of a run that was
/// never cut, whether the batch after the last reply was kept or not.
pub fn batches_come_again()
    ensures same { (A B : Ledger) (requests : List Request) (replies : List Reply) → IsBatch A requests replies B
        → Runs B requests replies B }
    ensures found { (A mid B : Ledger) (requests : List Request) (replies untold : List Reply) (count : ℕ)
        → Runs A (take (length replies) requests) replies mid
        → IsBatch mid (take count (drop (length replies) requests)) untold B
        → ResumableWithin A requests (length replies + 1) mid × ResumableWithin A requests (length replies + 1) B }
    ensures resumed { (A B last : Ledger) (requests : List Request) (k : ℕ) (replies : List Reply) → 1 ≤ k
        → k ≤ length requests + 1 → ResumableWithin A requests k B → Runs B (drop (k - 1) requests) replies last
        → (before : List Reply) × (length before + 1 ≡ k) × Runs A requests (before ++ replies) last }
{}

/// A list that is carried out together may be cut off by failing commits any number of times, and go on each time after
/// its last reply. It comes to the replies and the ledger of a list that is carried out one by one and never cut off,
/// whether the batches of those commits were kept or not. Lists that are carried out one after the other are one list.
pub fn batches_are_invisible()
    ensures wider { (A B : Ledger) (requests : List Request) (k : ℕ) → 1 ≤ k → ResumableAt A requests k B
        → ResumableWithin A requests k B }
    ensures on { (A B mid C : Ledger) (requests : List Request) (k : ℕ) (replies : List Reply) → 1 ≤ k
        → k ≤ length requests + 1 → ResumableWithin A requests k B
        → Runs B (take (length replies) (drop (k - 1) requests)) replies mid
        → ResumableWithin B (drop (k - 1) requests) (length replies + 1) C → ResumesWithin A requests k replies C }
    ensures same { (A : Ledger) (requests : List Request) (k : ℕ) (given : List (List Reply)) (replies : List Reply)
        (B last : Ledger) → 1 ≤ k → ResumesWithinAgain A requests k given B
        → k + length (flat_map (λ some. some) given) ≡ length requests + 1 → Runs A requests replies last
        → (flat_map (λ some. some) given ≡ drop (k - 1) replies) × (B ≡ last) }
    ensures found { (A B C D : Ledger) (requests : List Request) (k : ℕ) (x y z : Content) → Good B → Good C → Good D
        → ResumableWithin A requests k B → ResumableWithin A requests k C → IsRowsOf B y → IsRowsOf C z
        → (x ≡ y) ⊎ (x ≡ z) → IsRowsOf D x → ResumableWithin A requests k D }
    ensures cut_into_lists { (A B : Ledger) (lists : List (List Request)) (given : List (List Reply))
        → RunsInLists A lists given B
        → Runs A (flat_map (λ requests. requests) lists) (flat_map (λ replies. replies) given) B }
    ensures as_one_by_one { (A B C : Ledger) (requests : List Request) (replies others : List Reply)
        → Runs A requests replies B → Runs A requests others C → (replies ≡ others) × (B ≡ C)
        × ((x y : Content) → IsRowsOf B x → IsRowsOf C y → x ≡ y) }
{}
