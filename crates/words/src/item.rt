//! What a line of a script says.

ghost use Rattle.std.specs.Prelude.{◌≡◌, ◌≤◌, ◌∷◌, [], List, ℕ, IfNone, IfOk, IfSome, OnErr, codes, decimal, length};
ghost use Rattle.escrow.specs.Codes.{IsArticle, IsBranch};
ghost use Rattle.escrow.specs.Ranges.{IsOrderNo};
ghost use Rattle.words.specs.Items.{IsItem, IsRequest, MayWantMemory};
ghost use Rattle.words.specs.Words.{words_of};
ghost use Rattle.words.specs.declared.command.Request.{Request};
ghost use Rattle.words.specs.declared.item.Item.{Item};

use crate::command::Request;
use crate::cut::cut;
use crate::limits::MAX_LINE_LEN;
use crate::read::WordsFault;
use crate::reply::Memory;
use crate::spelled::SpelledCommand;
use crate::word::{last_word, word_then};
use escrow::{Article, Branch, Key, OrderNo};
use std::alloc::Global;

/// What a line of a script says.
#[derive(Drop)]
pub enum Item {
    /// A key and a command.
    Request(Request),
    /// `? field BRANCH ARTICLE`
    AskField(Branch, Article),
    /// `? order NUMBER`
    AskOrder(OrderNo),
    /// Any other line.
    Bad,
}

/// Returns what stands after the first two words of a question, which are `?` and the noun.
fn ask_then<'a>(bytes: &'a [u8], noun: &[u8]) -> Option<&'a [u8]>
    ensures found { IfSome result (λ rest. words_of bytes.now ≡ codes "?" ∷ noun.now ∷ words_of rest.now) }
    ensures none { IfNone result ((word : List ℕ) (words : List (List ℕ))
        → words_of bytes.now ≡ codes "?" ∷ noun.now ∷ word ∷ words → ⊥) }
{
    let (mark, rest) = cut(bytes, b' ')?;
    if mark != b"?".as_slice() {
        return None;
    }
    let (word, rest) = cut(rest, b' ')?;
    if word != noun {
        return None;
    }
    Some(rest)
}

/// Reads a question for a field.
fn read_ask_field(bytes: &[u8]) -> Option<(Branch, Article)>
    ensures form { IfSome result (λ r. IsBranch r.0 × IsArticle r.1) }
    ensures found { IfSome result (λ r. words_of bytes.now ≡ codes "?" ∷ codes "field" ∷ r.0 ∷ r.1 ∷ []) }
    ensures none { IfNone result ((b a : List ℕ) → IsBranch b → IsArticle a
        → words_of bytes.now ≡ codes "?" ∷ codes "field" ∷ b ∷ a ∷ [] → ⊥) }
{
    let rest = ask_then(bytes, b"field")?;
    let Some((branch, rest)) = word_then::<Branch>(rest) else {
        return None;
    };
    let article = last_word::<Article>(rest)?;
    Some((branch, article))
}

/// Reads a question for an order.
fn read_ask_order(bytes: &[u8]) -> Option<OrderNo>
    ensures form { IfSome result IsOrderNo }
    ensures found { IfSome result (λ n. words_of bytes.now ≡ codes "?" ∷ codes "order" ∷ decimal n ∷ []) }
    ensures none { IfNone result ((n : ℕ) → IsOrderNo n → words_of bytes.now ≡ codes "?" ∷ codes "order" ∷ decimal n
        ∷ [] → ⊥) }
{
    let rest = ask_then(bytes, b"order")?;
    last_word::<OrderNo>(rest)
}

/// Reads a key and a command.
fn read_request(alloc: Global, bytes: &[u8]) -> Result<Option<Request>, Memory>
    ensures found { IfOk result (λ found. IfSome found (IsRequest bytes.now)) }
    ensures none { IfOk result (λ found. IfNone found ((r : Request) → IsRequest bytes.now r → ⊥)) }
    ensures memory { OnErr result (MayWantMemory bytes.now) }
{
    let Some(key) = word_then::<Key>(bytes) else {
        return Ok(None);
    };
    match SpelledCommand::read(alloc, key.1) {
        Ok(command) => Ok(Some(Request {
            key: key.0,
            command,
        })),
        Err(WordsFault::BadCommand) => Ok(None),
        Err(WordsFault::Memory) => Err(Memory),
    }
}

/// Reads a line, which is given without its newline. `Memory` is the answer only where the line is a request, or a key
/// that is followed by what begins as an `open` does.
pub fn read_item(alloc: Global, line: &[u8]) -> Result<Item, Memory>
    ensures item { IfOk result (λ item. IsItem line.now item) }
    ensures memory { OnErr result (MayWantMemory line.now) }
{
    if line.len() > MAX_LINE_LEN {
        return Ok(Item::Bad);
    }
    if let Some((branch, article)) = read_ask_field(line) {
        return Ok(Item::AskField(branch, article));
    }
    if let Some(number) = read_ask_order(line) {
        return Ok(Item::AskOrder(number));
    }
    match read_request(alloc, line) {
        Ok(Some(request)) => Ok(Item::Request(request)),
        Ok(None) => Ok(Item::Bad),
        Err(Memory) => Err(Memory),
    }
}

/// Does nothing when run; the contract is a law: each line is exactly one item.
pub fn exactly_one_item()
    ensures some { (line : List ℕ) → (item : Item) × IsItem line item }
    ensures one { (line : List ℕ) (i j : Item) → IsItem line i → IsItem line j → i ≡ j }
{}

/// Does nothing when run; the contract is a law. No request is longer than 2,558 bytes: an `open` of 64 order lines
/// with the longest key, codes and numbers has so many. A line of a script may be longer than that, so the limit of a
/// line refuses no request.
pub fn no_request_is_too_long()
    ensures length { (line : List ℕ) (r : Request) → IsRequest line r → length line ≤ 2558 }
    ensures limit { 2558 ≤ MAX_LINE_LEN }
{}
