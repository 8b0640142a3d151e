//! Words that stand in objects.

ghost use Rattle.std.specs.Prelude.{◌≡◌};
ghost use Rattle.std.specs.Str.{IsUtf8};
ghost use Rattle.words.specs.OpenLines.{way_word};
ghost use Rattle.desk.specs.Replies.{kind_word, state_word};

use escrow::Way;
use ledger::{Kind, Standing};
use std::str;

/// Returns the text that these UTF-8 bytes are.
pub fn utf8_text(bytes: &[u8]) -> &str
    requires { IsUtf8 bytes.now }
    ensures { result.now ≡ bytes.now }
{
    match str::from_utf8(bytes) {
        Ok(text) => text,
        Err(_) => unreachable!(),
    }
}

pub fn kind_text(kind: Kind) -> &'static str
    ensures { result.now ≡ kind_word kind }
{
    match kind {
        Kind::Plain => "plain",
        Kind::Transfer => "transfer",
    }
}

pub fn state_text(state: Standing) -> &'static str
    ensures { result.now ≡ state_word state }
{
    match state {
        Standing::Open => "open",
        Standing::Firm => "firm",
        Standing::Committed => "committed",
        Standing::Aborted => "aborted",
    }
}

pub fn way_text(way: Way) -> &'static str
    ensures { result.now ≡ way_word way }
{
    match way {
        Way::Take => "take",
        Way::Add => "add",
    }
}
