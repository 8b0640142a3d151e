//! The task to roll a desk over: to make one in a new file that goes on in its place.

ghost use Rattle.std.specs.Prelude.{◌≡◌, ◌≤◌, ℕ, Option, decimal, option_map, IfNone, IfSome, IsSome};
ghost use Rattle.command_line.specs.Tasks.{AsksForKeys};

use words::read_number;

/// How many keys the new desk can know, at the most.
const MAX_KEYS: u32 = 200_000;

/// How many keys the new desk knows where the words say nothing.
const KEYS: u64 = 100_000;

/// Which desk is rolled over, and to where.
#[derive(Clone, Copy)]
pub struct RollOver<'a> {
    /// The file of the desk.
    pub old: &'a str,
    /// The file of the new desk.
    pub new: &'a str,
    /// How many keys of the last commands the new desk knows, where the words say that.
    pub keys: Option<u32>,
}

impl<'a> RollOver<'a> {
    /// Returns how many keys of the last commands the new desk knows.
    pub fn last_keys(&self) -> u64
        ensures said { IfSome self.now.keys (λ keys. result ≡ keys) }
        ensures unsaid { IfNone self.now.keys (result ≡ 100000) }
    {
        match self.keys {
            Some(keys) => u64::from(keys),
            None => KEYS,
        }
    }
}

/// Returns how many keys a word asks for; `None` where it is no such number, or too large.
fn keys_named(word: &str) -> Option<u32>
    ensures named { IfSome result (λ keys. (word.now ≡ decimal keys) × (keys ≤ 200000)) }
    ensures taken { (keys : ℕ) → keys ≤ 200000 → word.now ≡ decimal keys → IsSome result }
{
    let number = read_number(word.as_bytes())?;
    let keys = u32::try_from(number).ok()?;
    if keys <= MAX_KEYS { Some(keys) } else { None }
}

/// Returns how many keys the word asks for, if there is a word; `None` where the word is no such number.
pub fn keys_asked(word: Option<&str>) -> Option<Option<u32>>
    ensures named { IfSome result (AsksForKeys (option_map (λ s. s.now) word.entry)) }
    ensures taken { (keys : Option ℕ) → AsksForKeys (option_map (λ s. s.now) word.entry) keys → IsSome result }
{
    match word {
        Some(word) => Some(Some(keys_named(word)?)),
        None => Some(None),
    }
}
