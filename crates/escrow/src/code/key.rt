//! The key of a request.

ghost use Rattle.std.specs.Prelude.{◌≡◌, ◌↔◌, OkIff, IsTrue};
ghost use Rattle.std.specs.List.{list_all};
ghost use Rattle.escrow.specs.Codes.{IsKey, is_key_byte as key_byte};

use crate::code::BadCode;
use crate::code::article::is_article_byte;
use crate::fixed_text::FixedText;
use crate::limits::MAX_KEY_LEN;
use std::marker::Model;

/// The key of a request: 1 to 36 bytes of `A-Z`, `a-z`, `0-9` and `-`. Keys are compared and ordered by
/// their bytes.
#[derive(Clone, Copy, PartialEq, Eq, PartialOrd, Ord)]
pub struct Key {
    text: FixedText<MAX_KEY_LEN>,
}

impl Model for Key {
    ghost use Rattle.std.specs.Prelude.{List, ℕ};
    ghost use Rattle.escrow.specs.Codes.{IsKey};

    ghost Value = { List ℕ };

    ghost view = { λ a. a.text };

    ghost invariant = { λ a. IsKey a.text };

    ghost inverse = { λ text. record { text = text } };
}

impl Key {
    /// Returns the key of these bytes, or `BadCode` exactly where they are no key.
    pub fn read(bytes: &[u8]) -> Result<Key, BadCode>
        ensures { OkIff result (IsKey bytes.now) bytes.now }
    {
        if !is_key(bytes) {
            return Err(BadCode);
        }
        Ok(Key {
            text: FixedText::new(bytes),
        })
    }

    /// Returns the bytes of the key.
    pub fn as_bytes(&self) -> &[u8]
        ensures value { result.now ≡ self.now }
        ensures form { IsKey self.now }
    {
        self.text.as_bytes()
    }

    /// Returns the key as a text, which is ASCII.
    pub fn as_str(&self) -> &str
        ensures value { result.now ≡ self.now }
        ensures form { IsKey self.now }
    {
        self.text.as_str()
    }
}

fn is_key(bytes: &[u8]) -> bool
    ensures { IsTrue result ↔ IsKey bytes.now }
{
    !bytes.is_empty() && bytes.len() <= MAX_KEY_LEN && all_key_bytes(bytes)
}

fn all_key_bytes(bytes: &[u8]) -> bool
    ensures { result ≡ list_all key_byte bytes.now }
{
    bytes.iter().copied().all(is_key_byte)
}

fn is_key_byte(byte: u8) -> bool
    ensures { result ≡ key_byte byte }
{
    is_article_byte(byte) || byte.is_ascii_lowercase()
}
