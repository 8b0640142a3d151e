//! A stream of lines that comes in pieces.

ghost use Rattle.std.specs.Prelude.{◌≡◌, ◌∷◌, ◌++◌, [], ℕ, List, Option, None, Some, IfOk, IsOk, MatchOption, OnErr, OnOk, ◌≢◌};
ghost use Rattle.words.specs.Items.{IsItem};
ghost use Rattle.words.specs.Stream.{EndsBehind, EndsLine, Feeds, HasNoNewline, extended, pending};
ghost use Rattle.words.specs.Words.{parts_at};
ghost use Rattle.words.specs.declared.item.Item.{Item};

use crate::cut::cut;
use crate::item::{Item, read_item};
use crate::limits::MAX_LINE_LEN;
use crate::reply::Memory;
use std::alloc::Global;
use std::marker::Model;

/// What has come of a line that has not ended: its bytes, at most 4,096, or only the fact that they are more.
#[derive(Drop)]
pub struct Lines {
    rest: Vec<u8>,
    is_overlong: bool,
}

impl Model for Lines {
    ghost use Rattle.std.specs.Prelude.{◌≡◌, ◌≤◌, ◌∷◌, [], List, None, Option, Some, ℕ, if◌then◌else◌, length};
    ghost use Rattle.words.specs.Words.{parts_at};
    ghost use Rattle.words.specs.declared.limits.TheConstants.{MAX_LINE_LEN};

    ghost Value = { Option (List ℕ) };

    ghost view = { λ a. if a.is_overlong then None else Some a.rest.items };

    ghost invariant = { λ a. (length a.rest.items ≤ MAX_LINE_LEN) × (parts_at 10 a.rest.items ≡ a.rest.items ∷ []) };
}

impl Lines {
    /// Returns the beginning of a stream. Takes no memory.
    pub fn new(alloc: Global) -> Lines
        ensures { result ≡ Some [] }
    {
        Lines {
            rest: Vec::new(alloc),
            is_overlong: false,
        }
    }

    /// Ends the stream. The result is `Bad` exactly where bytes stand after the last newline. They are dropped, so that
    /// another stream may begin. Takes no memory.
    pub fn finish(&mut self) -> Option<Item>
        ensures bad { MatchOption result (self.old ≡ Some []) (λ item. (item ≡ Item.Bad) × (self.old ≢ Some [])) }
        ensures empty { self.new ≡ Some [] }
    {
        let is_ended = self.rest.is_empty() && !self.is_overlong;
        self.rest.clear();
        self.is_overlong = false;
        if is_ended { None } else { Some(Item::Bad) }
    }

    /// Takes the next piece of the stream, and returns the items of the lines that end in it. After an `Err` all is as
    /// before the call. A piece that only lengthens a line which is too long already wants no memory.
    pub fn feed(&mut self, alloc: Global, piece: &[u8]) -> Result<Vec<Item>, Memory>
        ensures ok { IfOk result (λ items. Feeds self.old piece.now items.items self.new) }
        ensures err { OnErr result (self.new ≡ self.old) }
        ensures overlong { self.old ≡ None → parts_at 10 piece.now ≡ piece.now ∷ [] → IsOk result }
    {
        let Some((end, after)) = cut(piece, b'\n') else {
            return match self.extend(piece) {
                Ok(()) => Ok(Vec::new(alloc)),
                Err(Memory) => Err(Memory),
            };
        };
        let Ok(first) = self.end_line(alloc, end) else {
            return Err(Memory);
        };
        let Ok(ended) = ended_items(alloc, first, after) else {
            return Err(Memory);
        };
        match self.restart(alloc, ended.1) {
            Ok(()) => Ok(ended.0),
            Err(Memory) => Err(Memory),
        }
    }

    /// Takes a piece in which no line ends.
    fn extend(&mut self, piece: &[u8]) -> Result<(), Memory>
        requires { parts_at 10 piece.now ≡ piece.now ∷ [] }
        ensures ok { OnOk result (self.new ≡ extended self.old piece.now) }
        ensures err { OnErr result (self.new ≡ self.old) }
        ensures overlong { self.old ≡ None → IsOk result }
        ensures one { HasNoNewline self.old }
    {
        if self.is_overlong {
            return Ok(());
        }
        if piece.len() > MAX_LINE_LEN - self.rest.len() {
            self.rest.clear();
            self.is_overlong = true;
            return Ok(());
        }
        let Ok(()) = self.rest.extend_from_slice(piece) else {
            return Err(Memory);
        };
        Ok(())
    }

    /// Returns the item of the line that ends with these bytes.
    fn end_line(&self, alloc: Global, end: &[u8]) -> Result<Item, Memory>
        ensures ok { IfOk result (EndsLine self.now end.now) }
        ensures one { HasNoNewline self.now }
    {
        if self.is_overlong || end.len() > MAX_LINE_LEN - self.rest.len() {
            return Ok(Item::Bad);
        }
        let Ok(mut line) = Vec::from_slice(alloc, &self.rest) else {
            return Err(Memory);
        };
        let Ok(()) = line.extend_from_slice(end) else {
            return Err(Memory);
        };
        read_item(alloc, &line)
    }

    /// Begins the next line with what stands after the last newline.
    fn restart(&mut self, alloc: Global, rest: &[u8]) -> Result<(), Memory>
        requires { parts_at 10 rest.now ≡ rest.now ∷ [] }
        ensures ok { OnOk result (self.new ≡ pending rest.now) }
        ensures err { OnErr result (self.new ≡ self.old) }
    {
        if rest.len() > MAX_LINE_LEN {
            self.rest.clear();
            self.is_overlong = true;
            return Ok(());
        }
        let Ok(fresh) = Vec::from_slice(alloc, rest) else {
            return Err(Memory);
        };
        self.rest = fresh;
        self.is_overlong = false;
        Ok(())
    }
}

/// Returns the first item with the items of the lines that end in the bytes, and what stands after the last newline.
fn ended_items(alloc: Global, first: Item, bytes: &[u8]) -> Result<(Vec<Item>, &[u8]), Memory>
    ensures items { IfOk result (λ r. EndsBehind first (parts_at 10 bytes.now) r.0.items (pending r.1.now)) }
    ensures rest { IfOk result (λ r. parts_at 10 r.1.now ≡ r.1.now ∷ []) }
{
    let mut items = Vec::new(alloc);
    let Ok(()) = items.push(first) else {
        return Err(Memory);
    };
    let mut rest = bytes;
    while let Some((line, after)) = cut(rest, b'\n') {
        let Ok(item) = read_item(alloc, line) else {
            return Err(Memory);
        };
        let Ok(()) = items.push(item) else {
            return Err(Memory);
        };
        rest = after;
    }
    Ok((items, rest))
}

/// Does nothing when run; the contract is a law. A stream may be cut anywhere. A piece gives exactly one list of items,
/// and leaves exactly one rest; two pieces, one after the other, give and leave what the two joined do.
pub fn cuts_do_not_matter()
    ensures some { (old : Option (List ℕ)) (piece : List ℕ) → (items : List Item) × (new : Option (List ℕ))
        × Feeds old piece items new }
    ensures one { (old new other : Option (List ℕ)) (piece : List ℕ) (xs ys : List Item) → Feeds old piece xs new
        → Feeds old piece ys other → (xs ≡ ys) × (new ≡ other) }
    ensures joined { (old mid new : Option (List ℕ)) (p q : List ℕ) (xs ys : List Item) → Feeds old p xs mid
        → Feeds mid q ys new → Feeds old (p ++ q) (xs ++ ys) new }
{}
