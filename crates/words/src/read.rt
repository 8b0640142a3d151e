//! Commands, read from their one spelling.

ghost use Rattle.std.specs.Prelude.{◌≡◌, ◌≢◌, ◌<◌, ◌↔◌, ◌++◌, ◌∷◌, [], List, ℕ, IfErr, IfNone, IfOk, IfSome, IsErrOf, codes, decimal, length};
ghost use Rattle.escrow.specs.Codes.{IsArticle, IsBranch};
ghost use Rattle.escrow.specs.Ranges.{IsLevel, IsMoment, IsOrderNo, IsQty};
ghost use Rattle.words.specs.Kinds.{AreNoCommand, AreNoneOf, is_end, is_order, is_stock};
ghost use Rattle.words.specs.OpenLines.{IsOpenLine, AreOpenLines, line_words, way_word};
ghost use Rattle.words.specs.Spelling.{IsInRange, IsOpening, Spells, command_words};
ghost use Rattle.words.specs.Words.{words_of};
ghost use Rattle.words.specs.declared.command.Command.{Command};
ghost use Rattle.words.specs.declared.open_line.OpenLine.{OpenLine};

use crate::command::Command;
use crate::cut::cut;
use crate::open_line::{OpenLine, OpenLines};
use crate::word::{last_word, word_then};
use escrow::{Article, Branch, Level, Moment, OrderNo, Qty, Way};
use std::alloc::{AllocFailed, Global};
use thiserror::Error;

/// Reads two bounds and a start that end the line.
fn read_levels(bytes: &[u8]) -> Option<(Level, Level, Level)>
    ensures form { IfSome result (λ r. IsLevel r.0 × IsLevel r.1 × IsLevel r.2) }
    ensures found { IfSome result (λ r. words_of bytes.now ≡ decimal r.0 ∷ decimal r.1 ∷ decimal r.2 ∷ []) }
    ensures none { IfNone result ((lo hi start : ℕ) → IsLevel lo → IsLevel hi → IsLevel start
        → words_of bytes.now ≡ decimal lo ∷ decimal hi ∷ decimal start ∷ [] → ⊥) }
{
    let Some((lo, rest)) = word_then::<Level>(bytes) else {
        return None;
    };
    let Some((hi, rest)) = word_then::<Level>(rest) else {
        return None;
    };
    let start = last_word::<Level>(rest)?;
    Some((lo, hi, start))
}

/// Reads a field and a quantity that end the line.
fn read_move(bytes: &[u8]) -> Option<(Branch, Article, Qty)>
    ensures form { IfSome result (λ r. IsBranch r.0 × IsArticle r.1 × IsQty r.2) }
    ensures found { IfSome result (λ r. words_of bytes.now ≡ r.0 ∷ r.1 ∷ decimal r.2 ∷ []) }
    ensures none { IfNone result ((b a : List ℕ) (qty : ℕ) → IsBranch b → IsArticle a → IsQty qty
        → words_of bytes.now ≡ b ∷ a ∷ decimal qty ∷ [] → ⊥) }
{
    let Some((branch, rest)) = word_then::<Branch>(bytes) else {
        return None;
    };
    let Some((article, rest)) = word_then::<Article>(rest) else {
        return None;
    };
    let qty = last_word::<Qty>(rest)?;
    Some((branch, article, qty))
}

/// Reads a field with its bounds and its start.
fn read_field(bytes: &[u8]) -> Option<Command>
    ensures form { IfSome result IsInRange }
    ensures found { IfSome result (λ c. codes "field" ∷ words_of bytes.now ≡ command_words c) }
    ensures none { IfNone result (AreNoCommand (codes "field" ∷ words_of bytes.now)) }
{
    let Some((branch, rest)) = word_then::<Branch>(bytes) else {
        return None;
    };
    let Some((article, rest)) = word_then::<Article>(rest) else {
        return None;
    };
    let (lo, hi, start) = read_levels(rest)?;
    Some(Command::Field {
        branch,
        article,
        lo,
        hi,
        start,
    })
}

/// Reads a field with other bounds.
fn read_rebound(bytes: &[u8]) -> Option<Command>
    ensures form { IfSome result IsInRange }
    ensures found { IfSome result (λ c. codes "rebound" ∷ words_of bytes.now ≡ command_words c) }
    ensures none { IfNone result (AreNoCommand (codes "rebound" ∷ words_of bytes.now)) }
{
    let Some((branch, rest)) = word_then::<Branch>(bytes) else {
        return None;
    };
    let Some((article, rest)) = word_then::<Article>(rest) else {
        return None;
    };
    let Some((lo, rest)) = word_then::<Level>(rest) else {
        return None;
    };
    let hi = last_word::<Level>(rest)?;
    Some(Command::Rebound {
        branch,
        article,
        lo,
        hi,
    })
}

/// Reads a number, a field and a quantity that end the line.
fn read_part(bytes: &[u8]) -> Option<(OrderNo, Branch, Article, Qty)>
    ensures form { IfSome result (λ r. IsOrderNo r.0 × IsBranch r.1 × IsArticle r.2 × IsQty r.3) }
    ensures found { IfSome result (λ r. words_of bytes.now ≡ decimal r.0 ∷ r.1 ∷ r.2 ∷ decimal r.3 ∷ []) }
    ensures none { IfNone result ((n : ℕ) (b a : List ℕ) (qty : ℕ) → IsOrderNo n → IsBranch b → IsArticle a → IsQty qty
        → words_of bytes.now ≡ decimal n ∷ b ∷ a ∷ decimal qty ∷ [] → ⊥) }
{
    let Some((number, rest)) = word_then::<OrderNo>(bytes) else {
        return None;
    };
    let (branch, article, qty) = read_move(rest)?;
    Some((number, branch, article, qty))
}

/// Reads a number, a way, a field and a quantity.
fn read_more(bytes: &[u8]) -> Option<Command>
    ensures form { IfSome result IsInRange }
    ensures found { IfSome result (λ c. codes "more" ∷ words_of bytes.now ≡ command_words c) }
    ensures none { IfNone result (AreNoCommand (codes "more" ∷ words_of bytes.now)) }
{
    let Some((number, rest)) = word_then::<OrderNo>(bytes) else {
        return None;
    };
    let Some((way, rest)) = word_then::<Way>(rest) else {
        return None;
    };
    let (branch, article, qty) = read_move(rest)?;
    Some(Command::More {
        number,
        way,
        branch,
        article,
        qty,
    })
}

/// Reads an article, two branches and a quantity that end the line.
fn read_goods(bytes: &[u8]) -> Option<(Article, Branch, Branch, Qty)>
    ensures form { IfSome result (λ r. IsArticle r.0 × IsBranch r.1 × IsBranch r.2 × IsQty r.3) }
    ensures found { IfSome result (λ r. words_of bytes.now ≡ r.0 ∷ r.1 ∷ r.2 ∷ decimal r.3 ∷ []) }
    ensures none { IfNone result ((a from to : List ℕ) (qty : ℕ) → IsArticle a → IsBranch from → IsBranch to → IsQty qty
        → words_of bytes.now ≡ a ∷ from ∷ to ∷ decimal qty ∷ [] → ⊥) }
{
    let Some((article, rest)) = word_then::<Article>(bytes) else {
        return None;
    };
    let Some((from, rest)) = word_then::<Branch>(rest) else {
        return None;
    };
    let Some((to, rest)) = word_then::<Branch>(rest) else {
        return None;
    };
    let qty = last_word::<Qty>(rest)?;
    Some((article, from, to, qty))
}

/// Reads a number and a moment, and returns with them what stands after the next space.
fn terms_then(bytes: &[u8]) -> Option<(OrderNo, Moment, &[u8])>
    ensures form { IfSome result (λ r. IsOrderNo r.0 × IsMoment r.1) }
    ensures found { IfSome result (λ r. words_of bytes.now ≡ decimal r.0 ∷ decimal r.1 ∷ words_of r.2.now) }
    ensures none { IfNone result ((n until : ℕ) (word : List ℕ) (words : List (List ℕ)) → IsOrderNo n → IsMoment until
        → words_of bytes.now ≡ decimal n ∷ decimal until ∷ word ∷ words → ⊥) }
{
    let Some(number) = word_then::<OrderNo>(bytes) else {
        return None;
    };
    let Some(until) = word_then::<Moment>(number.1) else {
        return None;
    };
    Some((number.0, until.0, until.1))
}

/// Reads a number, a moment, an article, two branches and a quantity.
fn read_transfer(bytes: &[u8]) -> Option<Command>
    ensures form { IfSome result IsInRange }
    ensures found { IfSome result (λ c. codes "transfer" ∷ words_of bytes.now ≡ command_words c) }
    ensures none { IfNone result (AreNoCommand (codes "transfer" ∷ words_of bytes.now)) }
{
    let Some((number, until, rest)) = terms_then(bytes) else {
        return None;
    };
    let (article, from, to, qty) = read_goods(rest)?;
    Some(Command::Transfer {
        number,
        until,
        article,
        from,
        to,
        qty,
    })
}

/// Reads a way, a field and a quantity, and returns with them what stands after the next space.
fn line_then(bytes: &[u8]) -> Option<(OpenLine, &[u8])>
    ensures form { IfSome result (λ r. IsOpenLine r.0) }
    ensures found { IfSome result (λ r. words_of bytes.now ≡ line_words (r.0 ∷ []) ++ words_of r.1.now) }
    ensures shorter { IfSome result (λ r. length r.1.now < length bytes.now) }
    ensures none { IfNone result ((line : OpenLine) (word : List ℕ) (words : List (List ℕ)) → IsOpenLine line
        → words_of bytes.now ≡ line_words (line ∷ []) ++ (word ∷ words) → ⊥) }
{
    let Some((way, rest)) = word_then::<Way>(bytes) else {
        return None;
    };
    let Some((branch, rest)) = word_then::<Branch>(rest) else {
        return None;
    };
    let Some((article, rest)) = word_then::<Article>(rest) else {
        return None;
    };
    let Some((qty, rest)) = word_then::<Qty>(rest) else {
        return None;
    };
    let line = OpenLine {
        way,
        branch,
        article,
        qty,
    };
    Some((line, rest))
}

/// Reads a way, a field and a quantity that end the line.
fn last_line(bytes: &[u8]) -> Option<OpenLine>
    ensures form { IfSome result IsOpenLine }
    ensures found { IfSome result (λ line. words_of bytes.now ≡ line_words (line ∷ [])) }
    ensures none { IfNone result ((line : OpenLine) → IsOpenLine line → words_of bytes.now ≡ line_words (line ∷ [])
        → ⊥) }
{
    let Some((way, rest)) = word_then::<Way>(bytes) else {
        return None;
    };
    let (branch, article, qty) = read_move(rest)?;
    Some(OpenLine {
        way,
        branch,
        article,
        qty,
    })
}

/// Why no command was read.
#[derive(Clone, Copy, Debug, PartialEq, Eq, Error)]
pub enum WordsFault {
    /// The bytes are no spelling of a command.
    #[error("not a command")]
    BadCommand,
    /// Memory was refused: for the order lines of an `open`, or for a copy of the words.
    #[error("out of memory")]
    Memory,
}

/// Reads order lines that end the line, one at least.
fn read_lines(alloc: Global, bytes: &[u8]) -> Result<Vec<OpenLine>, WordsFault>
    ensures found { IfOk result (λ lines. words_of bytes.now ≡ line_words lines.items) }
    ensures bad { IsErrOf result WordsFault.BadCommand → (lines : List OpenLine) → AreOpenLines lines
        → words_of bytes.now ≡ line_words lines → ⊥ }
{
    let mut lines = Vec::new(alloc);
    let mut rest = bytes;
    while let Some((line, after)) = line_then(rest) {
        let Ok(()) = lines.push(line) else {
            return Err(WordsFault::Memory);
        };
        rest = after;
    }
    let Some(line) = last_line(rest) else {
        return Err(WordsFault::BadCommand);
    };
    let Ok(()) = lines.push(line) else {
        return Err(WordsFault::Memory);
    };
    Ok(lines)
}

/// Reads a number, a moment and order lines.
fn read_open(alloc: Global, bytes: &[u8]) -> Result<Command, WordsFault>
    ensures form { IfOk result IsInRange }
    ensures found { IfOk result (λ c. codes "open" ∷ words_of bytes.now ≡ command_words c) }
    ensures bad { IsErrOf result WordsFault.BadCommand → AreNoCommand (codes "open" ∷ words_of bytes.now) }
{
    let Some(terms) = terms_then(bytes) else {
        return Err(WordsFault::BadCommand);
    };
    let lines = match read_lines(alloc, terms.2) {
        Ok(lines) => lines,
        Err(fault) => return Err(fault),
    };
    match OpenLines::new(lines) {
        Some(lines) => Ok(Command::Open {
            number: terms.0,
            until: terms.1,
            lines,
        }),
        None => Err(WordsFault::BadCommand),
    }
}

/// Reads a command about stock: a field, a delivery, a write-off or other bounds.
fn read_stock(verb: &[u8], rest: &[u8]) -> Option<Command>
    ensures form { IfSome result IsInRange }
    ensures found { IfSome result (λ c. verb.now ∷ words_of rest.now ≡ command_words c) }
    ensures none { IfNone result (AreNoneOf is_stock (verb.now ∷ words_of rest.now)) }
{
    if verb == b"field".as_slice() {
        return read_field(rest);
    }
    if verb == b"deliver".as_slice() {
        let (branch, article, qty) = read_move(rest)?;
        return Some(Command::Deliver {
            branch,
            article,
            qty,
        });
    }
    if verb == b"writeoff".as_slice() {
        let (branch, article, qty) = read_move(rest)?;
        return Some(Command::Writeoff {
            branch,
            article,
            qty,
        });
    }
    if verb == b"rebound".as_slice() {
        return read_rebound(rest);
    }
    None
}

/// Reads a command that changes what an order holds, or a transfer.
fn read_order(verb: &[u8], rest: &[u8]) -> Option<Command>
    ensures form { IfSome result IsInRange }
    ensures found { IfSome result (λ c. verb.now ∷ words_of rest.now ≡ command_words c) }
    ensures none { IfNone result (AreNoneOf is_order (verb.now ∷ words_of rest.now)) }
{
    if verb == b"transfer".as_slice() {
        return read_transfer(rest);
    }
    if verb == b"more".as_slice() {
        return read_more(rest);
    }
    if verb == b"use".as_slice() {
        let (number, branch, article, qty) = read_part(rest)?;
        return Some(Command::Use {
            number,
            branch,
            article,
            qty,
        });
    }
    if verb == b"release".as_slice() {
        let (number, branch, article, qty) = read_part(rest)?;
        return Some(Command::Release {
            number,
            branch,
            article,
            qty,
        });
    }
    None
}

/// Reads a command that ends an order or makes it firm, or moves the clock on.
fn read_end(verb: &[u8], rest: &[u8]) -> Option<Command>
    ensures form { IfSome result IsInRange }
    ensures found { IfSome result (λ c. verb.now ∷ words_of rest.now ≡ command_words c) }
    ensures none { IfNone result (AreNoneOf is_end (verb.now ∷ words_of rest.now)) }
{
    if verb == b"commit".as_slice() {
        let number = last_word::<OrderNo>(rest)?;
        return Some(Command::Commit { number });
    }
    if verb == b"abort".as_slice() {
        let number = last_word::<OrderNo>(rest)?;
        return Some(Command::Abort { number });
    }
    if verb == b"firm".as_slice() {
        let number = last_word::<OrderNo>(rest)?;
        return Some(Command::Firm { number });
    }
    if verb == b"expire".as_slice() {
        let now = last_word::<Moment>(rest)?;
        return Some(Command::Expire { now });
    }
    None
}

/// Returns the command whose one spelling the bytes are. Fails with `BadCommand` where they are no command's spelling,
/// and with `Memory` only where the bytes begin as an `open` does, and memory for its order lines was refused.
pub fn read_command(alloc: Global, bytes: &[u8]) -> Result<Command, WordsFault>
    ensures found { IfOk result (λ c. Spells c bytes.now) }
    ensures bad { IsErrOf result WordsFault.BadCommand → (c : Command) → Spells c bytes.now → ⊥ }
    ensures memory { IsErrOf result WordsFault.Memory → IsOpening bytes.now }
{
    let Some((verb, rest)) = cut(bytes, b' ') else {
        return Err(WordsFault::BadCommand);
    };
    if verb == b"open".as_slice() {
        return read_open(alloc, rest);
    }
    match read_plain(verb, rest) {
        Some(command) => Ok(command),
        None => Err(WordsFault::BadCommand),
    }
}

/// Reads a command that is no `open`.
fn read_plain(verb: &[u8], rest: &[u8]) -> Option<Command>
    requires { verb.now ≢ codes "open" }
    ensures form { IfSome result IsInRange }
    ensures found { IfSome result (λ c. verb.now ∷ words_of rest.now ≡ command_words c) }
    ensures none { IfNone result (AreNoCommand (verb.now ∷ words_of rest.now)) }
{
    if let Some(command) = read_stock(verb, rest) {
        return Some(command);
    }
    if let Some(command) = read_order(verb, rest) {
        return Some(command);
    }
    if let Some(command) = read_end(verb, rest) {
        return Some(command);
    }
    None
}
