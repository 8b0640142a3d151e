//! The values that are written as one word, and the words of a line from its front.

ghost use Rattle.std.specs.Prelude.{◌≡◌, ◌≢◌, ◌<◌, ◌≤◌, ◌∷◌, [], List, ℕ, IfNone, IfSome, decimal, length};
ghost use Rattle.escrow.specs.Codes.{IsArticle, IsBranch, IsKey};
ghost use Rattle.escrow.specs.Ranges.{IsLevel, IsMoment, IsOrderNo, IsQty};
ghost use Rattle.words.specs.OpenLines.{way_word};
ghost use Rattle.words.specs.Words.{words_of};

use crate::cut::{cut, is_one_word};
use escrow::{Article, Branch, Key, Level, MAX_MOMENT, Moment, OrderNo, Qty, Way};
use itoa::Buffer;

/// A value that is written as one word.
pub trait Word: Sized {
    /// What holds of each value of the type.
    ghost is_value: { Self → Type 0 };

    /// The one word of a value.
    ghost text: { Self → List ℕ };

    /// Returns the value whose word the bytes are, or `None` exactly where they are no value's word.
    fn read_word(bytes: &[u8]) -> Option<Self>
        ensures form { IfSome result is_value }
        ensures found { IfSome result (λ x. bytes.now ≡ text x) }
        ensures none { IfNone result ((x : Self) → is_value x → bytes.now ≢ text x) };
}

/// Returns the value of the first word, and what stands after the space that follows it; `None` exactly where there is
/// no space, or the first word is no value's word.
pub fn word_then<W: Word>(bytes: &[u8]) -> Option<(W, &[u8])>
    ensures form { IfSome result (λ r. W.is_value r.0) }
    ensures found { IfSome result (λ r. words_of bytes.now ≡ W.text r.0 ∷ words_of r.1.now) }
    ensures shorter { IfSome result (λ r. length r.1.now < length bytes.now) }
    ensures none { IfNone result ((x : W) (word : List ℕ) (words : List (List ℕ)) → W.is_value x
        → words_of bytes.now ≡ W.text x ∷ word ∷ words → ⊥) }
{
    let Some((word, rest)) = cut(bytes, b' ') else {
        return None;
    };
    let Some(value) = W::read_word(word) else {
        return None;
    };
    Some((value, rest))
}

/// Returns the value whose word all of the bytes are, or `None` exactly where they are no value's word.
pub fn last_word<W: Word>(bytes: &[u8]) -> Option<W>
    ensures form { IfSome result W.is_value }
    ensures found { IfSome result (λ x. words_of bytes.now ≡ W.text x ∷ []) }
    ensures none { IfNone result ((x : W) → W.is_value x → words_of bytes.now ≡ W.text x ∷ [] → ⊥) }
{
    if !is_one_word(bytes) {
        return None;
    }
    W::read_word(bytes)
}

/// Returns the number that the bytes spell in decimal without a zero in front, or `None` exactly where they spell none
/// that is at most 4,000,000,000.
pub fn read_number(bytes: &[u8]) -> Option<u64>
    ensures range { IfSome result (λ n. n ≤ MAX_MOMENT) }
    ensures found { IfSome result (λ n. bytes.now ≡ decimal n) }
    ensures none { IfNone result ((n : ℕ) → n ≤ MAX_MOMENT → bytes.now ≢ decimal n) }
{
    let Ok(text) = str::from_utf8(bytes) else {
        return None;
    };
    let Ok(number) = text.parse::<u64>() else {
        return None;
    };
    if number > MAX_MOMENT {
        return None;
    }
    let mut buffer = Buffer::new();
    if buffer.format(number).as_bytes() == bytes {
        Some(number)
    } else {
        None
    }
}

/// Returns the way that the bytes spell, as `take` or `add`.
pub fn read_way(bytes: &[u8]) -> Option<Way>
    ensures found { IfSome result (λ way. bytes.now ≡ way_word way) }
    ensures none { IfNone result ((way : Way) → bytes.now ≢ way_word way) }
{
    if bytes == b"take".as_slice() {
        return Some(Way::Take);
    }
    if bytes == b"add".as_slice() {
        return Some(Way::Add);
    }
    None
}

impl Word for Way {
    ghost is_value = { λ _. Unit {0} };

    ghost text = { way_word };

    fn read_word(bytes: &[u8]) -> Option<Way> {
        read_way(bytes)
    }
}

impl Word for Branch {
    ghost is_value = { IsBranch };

    ghost text = { λ bytes. bytes };

    fn read_word(bytes: &[u8]) -> Option<Branch> {
        Branch::read(bytes).ok()
    }
}

impl Word for Article {
    ghost is_value = { IsArticle };

    ghost text = { λ bytes. bytes };

    fn read_word(bytes: &[u8]) -> Option<Article> {
        Article::read(bytes).ok()
    }
}

impl Word for Key {
    ghost is_value = { IsKey };

    ghost text = { λ bytes. bytes };

    fn read_word(bytes: &[u8]) -> Option<Key> {
        Key::read(bytes).ok()
    }
}

impl Word for Level {
    ghost is_value = { IsLevel };

    ghost text = { decimal };

    fn read_word(bytes: &[u8]) -> Option<Level> {
        let number = read_number(bytes)?;
        Level::new(number)
    }
}

impl Word for Qty {
    ghost is_value = { IsQty };

    ghost text = { decimal };

    fn read_word(bytes: &[u8]) -> Option<Qty> {
        let number = read_number(bytes)?;
        Qty::new(number)
    }
}

impl Word for Moment {
    ghost is_value = { IsMoment };

    ghost text = { decimal };

    fn read_word(bytes: &[u8]) -> Option<Moment> {
        let number = read_number(bytes)?;
        Moment::new(number)
    }
}

impl Word for OrderNo {
    ghost is_value = { IsOrderNo };

    ghost text = { decimal };

    fn read_word(bytes: &[u8]) -> Option<OrderNo> {
        let number = read_number(bytes)?;
        OrderNo::new(number)
    }
}
