//! The ledger in memory.

ghost use Rattle.ledger.specs.Future.{Honours, HonoursAlways, Settles};
ghost use Rattle.ledger.specs.Good.{Good};
ghost use Rattle.ledger.specs.Ledger.{name_of, new_ledger, field_named, kept_under, order_numbered, Ledger, is_transfer, places, insert_in_order};
ghost use Rattle.ledger.specs.Next.{accept, move_made, next};
ghost use Rattle.ledger.specs.Outcomes.{article_total};
ghost use Rattle.book.specs.Plans.{Fits, HasRoomFor, KeepsStorage, RoomStays, NoRoomGrows};
ghost use Rattle.book.specs.inner.StepsSeen.{MayBePut, number_cmp};
ghost use Rattle.ledger.specs.Changes.{put_rows};
ghost use Rattle.book.specs.inner.RunningNumbers.{IsUpToDate, with_entries};
ghost use Rattle.ledger.specs.Tables.{rows_among};
ghost use Rattle.book.specs.Model.{field_of, kept_of, order_of, move_of, nothing_stored, slots_cmp, slots_of};
ghost use Rattle.std.specs.Cmp.Lexicographic.{slice_cmp};
ghost use Rattle.std.specs.Ordering.{nat_cmp, is_lt};
ghost use Rattle.std.specs.Prelude.{◌≡◌, IfSome, MatchOption, find, OnErr, OnOk, ◌<◌, ◌≤◌, ◌+◌, ◌-◌, None, ℕ, List, IsSomeAnd, IsTrue, length, map, option_map};
ghost use Rattle.std.specs.Str.{bytes_eq};
ghost use Rattle.std.specs.Vec.{vec_capacity, vec_len};
ghost use Rattle.words.specs.declared.command.Command.{Command};

mod changed_rows;
mod checks;
mod fields;
mod made;
mod plan;
mod rolled;
mod steps;
mod tables;
mod views;

use crate::kept_words::KeptWords;
use crate::order::{Order, OrderEntry};
use crate::orders::Orders;
use escrow::{Article, Branch, FieldName, Key, Level, Moment, OrderNo, Quantity};
use index::InOrder;
use ledger::Change;
pub use plan::{Plan, Planned};
use std::alloc::Global;
use std::marker::Model;
pub use tables::TablesFault;
pub use views::{FieldView, KeptView, OrderView};
use words::{Command, Memory};

/// A field: the level at which it started, and its stock as it is now, with its bounds.
#[derive(Clone, Copy)]
pub struct FieldEntry {
    pub start: Level,
    pub quantity: Quantity,
}

/// A field under its name.
pub type Field = (FieldName, FieldEntry);

/// A delivery (amount above 0) or a write-off (amount below 0), with the place of its command.
#[derive(Drop)]
pub struct MoveEntry {
    pub place: u64,
    pub branch: Branch,
    pub article: Article,
    pub amount: i64,
}

impl MoveEntry {
    /// Returns the name of the field that is moved.
    pub(crate) fn name(&self) -> FieldName
        ensures { result ≡ name_of self.now.branch self.now.article }
    {
        FieldName {
            branch: self.branch,
            article: self.article,
        }
    }
}

/// What is kept under an accepted key: its place and the words of its command.
#[derive(Drop)]
pub struct KeptEntry {
    pub place: u64,
    pub words: KeptWords,
}

/// A good ledger: all fields, with their stock as it is now, and all moves, orders and kept keys of the desk.
/// Contracts see it as its ledger, with the room that has been made for entries to come, and the memory that the book
/// has.
#[derive(Drop)]
pub struct Book {
    clock: Moment,
    fields: InOrder<FieldName, FieldEntry>,
    moves: Vec<MoveEntry>,
    orders: Orders,
    kept: InOrder<Key, KeptEntry>,
}

impl Model for Book {
    ghost use Rattle.book.specs.inner.RunningNumbers.{Stands};
    ghost use Rattle.book.specs.Model.{BookView, view_of};

    ghost Value = { BookView };

    ghost view = { view_of };

    ghost invariant = { Stands };
}

impl Book {
    /// Returns the book of a new desk: its clock stands at 0, and nothing else is in it. Takes no memory.
    #[tactic(auto, using(ledger::proofs::Runs::good_new))]
    pub fn new(alloc: Global) -> Book
        ensures ledger { result.ledger ≡ new_ledger }
        ensures room { result.room ≡ record { fields = 0; moves = 0; orders = 0; kept = 0 } }
        ensures storage { result.storage ≡ nothing_stored }
    {
        Book {
            clock: Moment::first(),
            fields: InOrder::new(alloc),
            moves: Vec::new(alloc),
            orders: Orders::new(alloc),
            kept: InOrder::new(alloc),
        }
    }

    /// Returns the field of that name, if there is one.
    fn field_entry(&self, name: &FieldName) -> Option<&FieldEntry>
        ensures good { Good self.now.ledger }
        ensures found { let found = field_named self.now.ledger name.now in MatchOption result (found ≡ None)
            (λ entry. found ≡ Some (field_of (name.now, entry.now))) }
        ensures up_to_date { IfSome result (λ entry. IsUpToDate self.now.ledger (name.now, entry.now)) }
    {
        self.fields.get(name)
    }

    /// Returns the order of that number, if there is one.
    fn order_entry(&self, number: OrderNo) -> Option<&OrderEntry>
        ensures { let found = order_numbered self.now.ledger number in MatchOption result (found ≡ None)
            (λ entry. found ≡ Some (order_of (number, entry.now))) }
    {
        self.orders.get(&number)
    }

    /// Returns what is kept under that key, if anything is.
    fn kept_entry(&self, key: Key) -> Option<&KeptEntry>
        ensures { let found = kept_under self.now.ledger key in MatchOption result (found ≡ None)
            (λ entry. found ≡ Some (kept_of (key, entry.now))) }
    {
        self.kept.get(&key)
    }

    /// Makes room for the plan: for the fields that it changes, and for one move, one order and one kept key more. (An
    /// `expire` may change many orders; each goes in the place where it stood, and needs no room.) Room made before
    /// stays, and the ledger stays as it was, also where memory is refused. Memory is wanted only where there was no
    /// room for the plan.
    pub fn make_room(&mut self, plan: &Plan) -> Result<(), Memory>
        requires { Fits self.old.ledger plan.now }
        ensures ok { OnOk result (HasRoomFor self.new plan.now) }
        ensures same { self.new.ledger ≡ self.old.ledger }
        ensures room_stays { RoomStays self.old self.new }
        ensures memory { OnErr result (HasRoomFor self.old plan.now → ⊥) }
    {
        self.fields.reserve(plan.field_count())?;
        self.moves.reserve(1)?;
        self.orders.reserve()?;
        Ok(self.kept.reserve(1)?)
    }
}

fn insert_kept(kept: &mut InOrder<Key, KeptEntry>, key: Key, entry: KeptEntry)
    requires room { 1 ≤ kept.old.room }
    requires absent { find (λ k. bytes_eq k.key key) (map kept_of kept.old.entries) ≡ None }
    ensures kept { map kept_of kept.new.entries ≡ insert_in_order (λ a b. is_lt (slice_cmp nat_cmp a.key b.key))
        (kept_of (key, entry)) (map kept_of kept.old.entries) }
    ensures room { kept.new.room ≤ kept.old.room }
    ensures storage { kept.new.storage ≡ kept.old.storage }
{
    kept.insert(key, entry);
}

/// Puts the fields in, each by its name.
fn adopt_fields(
    fields: &mut InOrder<FieldName, FieldEntry>,
    changed: &InOrder<FieldName, FieldEntry>,
)
    requires { length changed.now.entries ≤ fields.old.room }
    ensures fields { fields.new.entries ≡ with_entries changed.now.entries fields.old.entries }
    ensures room { fields.new.room ≤ fields.old.room }
    ensures storage { fields.new.storage ≡ fields.old.storage }
{
    for place in 0..changed.len() {
        let (name, entry) = changed.entry_at(place);
        fields.put(*name, *entry);
    }
}

/// Puts the move in, if there is one.
fn adopt_move(moves: &mut Vec<MoveEntry>, moved: Option<MoveEntry>)
    requires { vec_len moves.old < vec_capacity moves.old }
    ensures moves { (A : Ledger) (c : Command) → map move_of moves.old.items ≡ A.moves
        → option_map move_of moved ≡ move_made (places A + 1) c → map move_of moves.new.items ≡ (next A c).moves }
    ensures room { vec_capacity moves.new - vec_len moves.new ≤ vec_capacity moves.old - vec_len moves.old }
    ensures storage { vec_capacity moves.new ≡ vec_capacity moves.old }
{
    if let Some(entry) = moved {
        moves.push_reserved(entry);
    }
}

/// Puts the orders in, each by its number.
fn adopt_orders(orders: &mut Orders, made: Vec<Order>)
    requires { MayBePut orders.old.room made.items orders.old.entries }
    ensures orders { map order_of orders.new.entries ≡ put_rows number_cmp (map order_of made.items)
        (map order_of orders.old.entries) }
    ensures room { orders.new.room ≤ orders.old.room }
    ensures storage { orders.new.storage ≡ orders.old.storage }
    ensures lines { map slots_of orders.new.entries ≡ put_rows slots_cmp (map slots_of made.items)
        (map slots_of orders.old.entries) }
{
    for order in made {
        orders.put(order.0, order.1);
    }
}

impl Book {
    /// Carries the plan out, and returns its rows. Takes no memory, and always succeeds. The ledger stays good, and
    /// honours its open orders. A commit, a `firm` or a use of a transfer leaves the total of every article as it was.
    pub fn adopt(&mut self, plan: Plan) -> Vec<Change>
        requires fits { Fits self.old.ledger plan }
        requires room { HasRoomFor self.old plan }
        ensures next { self.new.ledger ≡ accept self.old.ledger plan.request }
        ensures good { Good self.new.ledger }
        ensures honours { Honours self.new.ledger × HonoursAlways self.new.ledger }
        ensures even { (n : ℕ) (article : List ℕ) → Settles plan.request.command n
            → IsSomeAnd (order_numbered self.old.ledger n) (λ o. IsTrue (is_transfer o))
            → article_total self.new.ledger article ≡ article_total self.old.ledger article }
        ensures room_used { NoRoomGrows self.old self.new }
        ensures storage { KeepsStorage self.old plan self.new }
        ensures rows { rows_among result.items ≡ plan.changes }
    {
        let (parts, changes) = plan.into_parts();
        let (key, place, words) = (parts.key, parts.place, parts.words);
        self.clock = parts.clock;
        adopt_fields(&mut self.fields, &parts.fields);
        adopt_move(&mut self.moves, parts.moved);
        adopt_orders(&mut self.orders, parts.orders);
        insert_kept(&mut self.kept, key, KeptEntry { place, words });
        changes
    }
}
