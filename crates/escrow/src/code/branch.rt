//! The code of a branch.

ghost use Rattle.std.specs.Prelude.{◌≡◌, ◌↔◌, OkIff, IsTrue};
ghost use Rattle.std.specs.List.{list_all};
ghost use Rattle.escrow.specs.Codes.{IsBranch, is_branch_byte as branch_byte};

use crate::code::BadCode;
use crate::fixed_text::FixedText;
use crate::limits::MAX_BRANCH_LEN;
use std::marker::Model;

/// The code of a branch: 1 to 8 bytes of `A-Z` and `0-9`. Codes are compared and ordered by their bytes.
#[derive(Clone, Copy, PartialEq, Eq, PartialOrd, Ord)]
pub struct Branch {
    text: FixedText<MAX_BRANCH_LEN>,
}

impl Model for Branch {
    ghost use Rattle.std.specs.Prelude.{List, ℕ};
    ghost use Rattle.escrow.specs.Codes.{IsBranch};

    ghost Value = { List ℕ };

    ghost view = { λ a. a.text };

    ghost invariant = { λ a. IsBranch a.text };

    ghost inverse = { λ text. record { text = text } };
}

impl Branch {
    /// Returns the branch with this code, or `BadCode` exactly where the bytes are no branch's code.
    pub fn read(bytes: &[u8]) -> Result<Branch, BadCode>
        ensures { OkIff result (IsBranch bytes.now) bytes.now }
    {
        if !is_branch(bytes) {
            return Err(BadCode);
        }
        Ok(Branch {
            text: FixedText::new(bytes),
        })
    }

    /// Returns the bytes of the code.
    pub fn as_bytes(&self) -> &[u8]
        ensures value { result.now ≡ self.now }
        ensures form { IsBranch self.now }
    {
        self.text.as_bytes()
    }

    /// Returns the code as a text, which is ASCII.
    pub fn as_str(&self) -> &str
        ensures value { result.now ≡ self.now }
        ensures form { IsBranch self.now }
    {
        self.text.as_str()
    }
}

fn is_branch(bytes: &[u8]) -> bool
    ensures { IsTrue result ↔ IsBranch bytes.now }
{
    !bytes.is_empty() && bytes.len() <= MAX_BRANCH_LEN && all_branch_bytes(bytes)
}

fn all_branch_bytes(bytes: &[u8]) -> bool
    ensures { result ≡ list_all branch_byte bytes.now }
{
    bytes.iter().copied().all(is_branch_byte)
}

pub(crate) fn is_branch_byte(byte: u8) -> bool
    ensures { result ≡ branch_byte byte }
{
    byte.is_ascii_uppercase() || byte.is_ascii_digit()
}
