//! Laws of a ledger that is rolled up: it stands for the one before, and has room again.

ghost use Rattle.laws.specs.Roll.{NothingGoneIsNamed, NamesNothingGone, Event, FieldHolds, FirstButFull, Knows, NoneFull, RunsWithRolls, StandsFor, raise_reply, requests_among};
ghost use Rattle.laws.specs.RollExample.{after, before};
ghost use Rattle.laws.specs.Deals.{Keeps, Names, Side};
ghost use Rattle.laws.specs.Walks.{AreInRange};
ghost use Rattle.ledger.specs.Answers.{Answers, IsAccepted, Runs, checks};
ghost use Rattle.ledger.specs.Changes.{put_content};
ghost use Rattle.ledger.specs.Good.{Good};
ghost use Rattle.ledger.specs.Ledger.{Ledger, Order, kept_under, new_ledger, open_orders, order_numbered, places};
ghost use Rattle.ledger.specs.Rolled.{first_of_deals, gone, is_recent, is_recent_deal, named_order, rolled, rolled_rows};
ghost use Rattle.ledger.specs.Rows.{Content, IsRowsOf};
ghost use Rattle.std.specs.List.{AllByRecursion as Each, AllZip};
ghost use Rattle.std.specs.Prelude.{◌≡◌, ◌≢◌, ◌≤◌, ◌+◌, ◌-◌, ◌↔◌, ℕ, IsNone, IsSome, IsTrue, List, MatchOption, Option, Some, length, map, min};
ghost use Rattle.words.specs.declared.command.Command.{Command};
ghost use Rattle.words.specs.declared.command.Request.{Request};
ghost use Rattle.words.specs.declared.reply.Refusal.TheVariants.{Full};
ghost use Rattle.words.specs.declared.reply.Refusal.{Refusal};
ghost use Rattle.words.specs.declared.reply.Reply.TheVariants.{Done, Refused};
ghost use Rattle.words.specs.declared.reply.Reply.{Reply};

/// A command names the order whose number is in it. No command names two.
pub fn commands_name_orders()
    ensures { (c : Command) (n : ℕ) → (named_order c ≡ Some n) ↔ Names c n }
{}

/// Where a good ledger is rolled up, the new ledger is good.
pub fn rolled_is_good()
    ensures { (K : ℕ) (A : Ledger) → Good A → Good (rolled K A) }
{}

/// Where a good ledger is rolled up, the new ledger stands for it. Each field has its name, its bounds and its settled
/// value. Open orders hold as much on it, and so its infimum and its supremum are the same.
pub fn rolled_stands()
    ensures stands { (K : ℕ) (A : Ledger) → Good A → StandsFor (gone K A) A (rolled K A) }
    ensures holds { (K : ℕ) (A : Ledger) → Good A
        → AllZip (FieldHolds A (rolled K A)) A.fields (rolled K A).fields }
{}

/// Where a good ledger is rolled up, the new one has the last K keys, or all, where there are no more than K. As many
/// orders are open. There are at most K orders beside these.
pub fn rolled_has_room()
    ensures places { (K : ℕ) (A : Ledger) → Good A → places (rolled K A) ≡ min K (places A) }
    ensures open { (K : ℕ) (A : Ledger) → Good A → open_orders (rolled K A) ≡ open_orders A }
    ensures orders { (K : ℕ) (A : Ledger) → Good A → length (rolled K A).orders ≤ open_orders A + K }
{}

/// Where a request names no key and no order that went, the ledger rolled up answers it as the good ledger before
/// does. It gives the same refusal, or the place less those that are gone. Where the ledger before is not full for
/// the command, each accepts what the other accepts. Where the ledger before is full and the new one is not, the new
/// one answers as a ledger with room: of the checks that do not find the ledger before full, the first that fails
/// decides.
pub fn rolled_answers()
    ensures alike { (K : ℕ) (A : Ledger) (r : Request) (reply : Reply) (M : Ledger) → Good A → NamesNothingGone K A r
        → Answers A r reply M → reply ≢ Refused Full 0
        → (p : Reply) × (N : Ledger) × Answers (rolled K A) r p N × (reply ≡ raise_reply (gone K A) p) }
    ensures accepts { (K : ℕ) (A : Ledger) (r : Request) → Good A → NamesNothingGone K A r
        → NoneFull (checks A r.command) → IsAccepted A r ↔ IsAccepted (rolled K A) r }
    ensures roomy { (K : ℕ) (A : Ledger) (r : Request) (found : Option (Refusal × ℕ)) → Good A
        → NamesNothingGone K A r → IsNone (kept_under A r.key) → FirstButFull (checks A r.command) found
        → NoneFull (checks (rolled K A) r.command)
        → (reply : Reply) × (N : Ledger) × Answers (rolled K A) r reply N
        × MatchOption found (reply ≡ Done (places (rolled K A) + 1)) (λ e. reply ≡ Refused e.0 e.1) }
{}

/// Where each request of a run names no key and no order that went, the ledger rolled up gives the run the replies of
/// the ledger before, but for the places that are gone. Behind the run it still stands for that ledger.
pub fn rolled_runs()
    ensures { (K : ℕ) (A : Ledger) (rs : List Request) (replies : List Reply) (M : Ledger) → Good A
        → AreInRange rs → Each (NamesNothingGone K A) rs → Runs A rs replies M
        → Each (λ reply. reply ≢ Refused Full 0) replies
        → (ps : List Reply) × (N : Ledger) × Runs (rolled K A) rs ps N
        × (replies ≡ map (raise_reply (gone K A)) ps) × StandsFor (gone K A) M N }
{}

/// Where one good ledger stands for another, it answers a run as the other, and then still stands for it.
pub fn stands_stay()
    ensures { (d : ℕ) (A B : Ledger) (rs : List Request) (replies : List Reply) (M : Ledger) → Good A → Good B
        → AreInRange rs → StandsFor d A B → Each (Knows A B) rs → Runs A rs replies M
        → Each (λ reply. reply ≢ Refused Full 0) replies
        → (ps : List Reply) × (N : Ledger) × Runs B rs ps N × (replies ≡ map (raise_reply d) ps) × StandsFor d M N }
{}

/// The rows of a ledger rolled up are made from the rows of the ledger before. Where the rows of a good ledger are
/// put into the rows of a new desk, the new desk has them as they are. So one commit of the rows of a ledger rolled up
/// makes a new desk the desk of that ledger.
pub fn rows_fill_a_new_desk()
    ensures rolled { (K : ℕ) (A : Ledger) (C : Content) → Good A → IsRowsOf A C
        → IsRowsOf (rolled K A) (rolled_rows (is_recent_deal K A) K A C) }
    ensures fill { (B : Ledger) (C N : Content) → Good B → IsRowsOf B C → IsRowsOf new_ledger N → put_content C N ≡ C }
    ensures new_desk { (K : ℕ) (A : Ledger) (C N : Content) → Good A → IsRowsOf A C → IsRowsOf new_ledger N
        → IsRowsOf (rolled K A) (put_content (rolled_rows (is_recent_deal K A) K A C) N) }
{}

/// A deal rests on facts of an order: that it is there, has used all, is committed, is aborted. Where one ledger stands
/// for another that is good and knows the order, these facts stay. Where a ledger is rolled up, they stay for each
/// order of a deal that one of the last K commands names.
pub fn sides_stand()
    ensures known { (d n : ℕ) (s t : Side) → Good s.ledger → StandsFor d s.ledger t.ledger
        → (IsSome (order_numbered s.ledger n) → IsSome (order_numbered t.ledger n)) → Keeps n s t }
    ensures rolled { (K n : ℕ) (s : Side) → Good s.ledger → first_of_deals ≤ n → IsTrue (is_recent K s.ledger n)
        → Keeps n s (record s { ledger = rolled K s.ledger }) }
{}

/// Two desks may be rolled up each at its own times: no reply shows it, but for the places that are gone. Where one
/// ledger stands for two, runs of requests that it knows are answered alike by all three, and it stands for both then.
/// Where a ledger and the one that stands for it are rolled up with one K, the one still stands for the other.
pub fn rolls_are_not_seen()
    ensures in_turn { (d e : ℕ) (A B C : Ledger) → StandsFor d A B → StandsFor e B C → StandsFor (d + e) A C }
    ensures rolls { (K d : ℕ) (A C : Ledger) → Good A → Good C → StandsFor d A C
        → StandsFor (d + gone K C - gone K A) (rolled K A) (rolled K C) }
    ensures runs { (a b : ℕ) (A B C : Ledger) (rs : List Request) (ps qs : List Reply) (M N : Ledger)
        → Good A → Good B → Good C → AreInRange rs → StandsFor a A C → StandsFor b B C
        → Each (Knows A C) rs → Each (Knows B C) rs → Runs A rs ps M → Runs B rs qs N
        → Each (λ p. p ≢ Refused Full 0) ps → Each (λ q. q ≢ Refused Full 0) qs
        → (shown : List Reply) × (D : Ledger) × Good D × (ps ≡ map (raise_reply a) shown)
        × (qs ≡ map (raise_reply b) shown) × StandsFor a M D × StandsFor b N D }
{}

/// A desk may be rolled up any number of times between its requests. From each good ledger there is one such run.
/// Where a desk that is never rolled up answers no request `Full`, the desk with rolls gives its replies: each place
/// is lower only by the places that have gone. This holds where, at each roll, the requests after it name no key and
/// no order that goes.
pub fn rolls_in_between()
    ensures some { (A : Ledger) (events : List Event) → Good A → AreInRange (requests_among events)
        → (told : List Reply) × (B : Ledger) × RunsWithRolls 0 A events told B }
    ensures one { (A : Ledger) (events : List Event) (p q : List Reply) (B C : Ledger)
        → RunsWithRolls 0 A events p B → RunsWithRolls 0 A events q C → (p ≡ q) × (B ≡ C) }
    ensures replies { (A : Ledger) (events : List Event) (replies : List Reply) (M : Ledger) → Good A
        → AreInRange (requests_among events) → NothingGoneIsNamed A events → Runs A (requests_among events) replies M
        → Each (λ reply. reply ≢ Refused Full 0) replies
        → (d : ℕ) × (B : Ledger) × RunsWithRolls 0 A events replies B × StandsFor d M B }
{}

/// A worked example: a small ledger is rolled up with its last two keys.
pub fn a_roll_is_worked_out()
    ensures { rolled 2 before ≡ after }
{}
