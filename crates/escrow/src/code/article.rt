//! The code of an article.

ghost use Rattle.std.specs.Prelude.{◌≡◌, ◌↔◌, OkIff, IsTrue};
ghost use Rattle.std.specs.List.{list_all};
ghost use Rattle.escrow.specs.Codes.{IsArticle, is_article_byte as article_byte};

use crate::code::BadCode;
use crate::code::branch::is_branch_byte;
use crate::fixed_text::FixedText;
use crate::limits::MAX_ARTICLE_LEN;
use std::marker::Model;

/// The code of an article: 1 to 16 bytes of `A-Z`, `0-9` and `-`, the first of them no `-`. Codes are
/// compared and ordered by their bytes.
#[derive(Clone, Copy, PartialEq, Eq, PartialOrd, Ord)]
pub struct Article {
    text: FixedText<MAX_ARTICLE_LEN>,
}

impl Model for Article {
    ghost use Rattle.std.specs.Prelude.{List, ℕ};
    ghost use Rattle.escrow.specs.Codes.{IsArticle};

    ghost Value = { List ℕ };

    ghost view = { λ a. a.text };

    ghost invariant = { λ a. IsArticle a.text };

    ghost inverse = { λ text. record { text = text } };
}

impl Article {
    /// Returns the article with this code, or `BadCode` exactly where the bytes are no article's code.
    pub fn read(bytes: &[u8]) -> Result<Article, BadCode>
        ensures { OkIff result (IsArticle bytes.now) bytes.now }
    {
        if !is_article(bytes) {
            return Err(BadCode);
        }
        Ok(Article {
            text: FixedText::new(bytes),
        })
    }

    /// Returns the bytes of the code.
    pub fn as_bytes(&self) -> &[u8]
        ensures value { result.now ≡ self.now }
        ensures form { IsArticle self.now }
    {
        self.text.as_bytes()
    }

    /// Returns the code as a text, which is ASCII.
    pub fn as_str(&self) -> &str
        ensures value { result.now ≡ self.now }
        ensures form { IsArticle self.now }
    {
        self.text.as_str()
    }
}

fn is_article(bytes: &[u8]) -> bool
    ensures { IsTrue result ↔ IsArticle bytes.now }
{
    !bytes.is_empty()
        && bytes.len() <= MAX_ARTICLE_LEN
        && bytes[0] != b'-'
        && all_article_bytes(bytes)
}

fn all_article_bytes(bytes: &[u8]) -> bool
    ensures { result ≡ list_all article_byte bytes.now }
{
    bytes.iter().copied().all(is_article_byte)
}

pub(crate) fn is_article_byte(byte: u8) -> bool
    ensures { result ≡ article_byte byte }
{
    is_branch_byte(byte) || byte == b'-'
}
