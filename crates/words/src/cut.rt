//! Bytes, cut in two at the first byte of one value.

ghost use Rattle.std.specs.Prelude.{◌≡◌, ◌<◌, ◌==◌, ◌∷◌, [], List, ℕ, IfSome, MatchOption, length, position};
ghost use Rattle.std.specs.Bool.{OnFalse, OnTrue};
ghost use Rattle.words.specs.Words.{parts_at, words_of};

/// Returns the place of the first byte that equals `at`.
fn place_of(bytes: &[u8], at: u8) -> Option<usize>
    ensures { result ≡ position (λ byte. byte == at) bytes.now }
{
    bytes.iter().position(|byte| *byte == at)
}

/// Returns what stands before the first byte that equals `at`, and what stands after it; `None` where there is no such
/// byte.
pub fn cut(bytes: &[u8], at: u8) -> Option<(&[u8], &[u8])>
    ensures parts { MatchOption result (parts_at at bytes.now ≡ bytes.now ∷ [])
        (λ r. parts_at at bytes.now ≡ r.0.now ∷ parts_at at r.1.now) }
    ensures shorter { IfSome result (λ r. length r.1.now < length bytes.now) }
{
    let place = place_of(bytes, at)?;
    Some((&bytes[..place], &bytes[place + 1..]))
}

/// Returns whether no space stands in the bytes.
pub fn is_one_word(bytes: &[u8]) -> bool
    ensures yes { OnTrue result (words_of bytes.now ≡ bytes.now ∷ []) }
    ensures no { OnFalse result ((word : List ℕ) → words_of bytes.now ≡ word ∷ [] → ⊥) }
{
    match cut(bytes, b' ') {
        Some(_) => false,
        None => true,
    }
}
