//! A short text in a fixed array.

ghost use Rattle.std.specs.Prelude.{◌≡◌, ◌<◌, ◌≤◌, Some, length, nat_eq, refl};
ghost use Rattle.std.specs.Cmp.{partial_equiv_from_equiv};
ghost use Rattle.std.specs.Cmp.Lexicographic.{nat_list_cmp_total, nat_list_eq_equiv, pointwise, slice_cmp, texts_po, texts_ties};
ghost use Rattle.std.specs.Ordering.{nat_cmp};
ghost use Rattle.std.specs.Str.{IsUtf8};

use std::cmp::Ordering;
use std::marker::Model;
use std::str;

/// A text of at most `N` bytes, and of at most 255, compared and ordered by its bytes. The rest of the array is zeros.
#[derive(Clone, Copy)]
pub struct FixedText<const N: usize> {
    cells: [u8; N],
    len: u8,
}

impl<const N: usize> Model for FixedText<N> {
    ghost use Rattle.std.specs.Prelude.{◌-◌, ◌++◌, List, ℕ, length, take, replicate};
    ghost use Rattle.escrow.specs.Padding.{IsPadded};
    ghost use Rattle.escrow.specs.Padding.{padded_back};
    ghost use Rattle.std.proofs.Common.{ap};

    ghost Value = { List ℕ };

    ghost view = { λ a. take a.len a.cells };

    ghost invariant = { λ a. IsPadded N a.len a.cells };

    ghost inverse = { λ text. record { cells = text ++ replicate (N - length text) 0; len = length text } };

    ghost inverse_ok = { λ a h. ap (λ (p : List ℕ × ℕ). record { cells = p.0; len = p.1 })
        (padded_back N a.len a.cells h) };
}

impl<const N: usize> FixedText<N> {
    /// Returns the text of these bytes.
    pub fn new(bytes: &[u8]) -> FixedText<N>
        requires fits { length bytes.now ≤ N }
        requires short { N < 256 }
        ensures { result ≡ bytes.now }
    {
        let mut cells = [0; N];
        cells[..bytes.len()].copy_from_slice(bytes);
        FixedText {
            cells,
            len: bytes.len() as u8,
        }
    }

    /// Returns the bytes of the text, without the zeros.
    pub fn as_bytes(&self) -> &[u8]
        ensures { result.now ≡ self.now }
    {
        &self.cells[..usize::from(self.len)]
    }

    /// Returns the text as a `str`.
    pub fn as_str(&self) -> &str
        requires { IsUtf8 self.now }
        ensures { result.now ≡ self.now }
    {
        // The bytes are UTF-8, as the `requires` says.
        unsafe { str::from_utf8_unchecked(self.as_bytes()) }
    }
}

impl<const N: usize> PartialEq for FixedText<N> {
    ghost eq = { pointwise nat_eq };

    ghost laws = { partial_equiv_from_equiv nat_list_eq_equiv };

    fn eq(&self, other: &FixedText<N>) -> bool {
        self.as_bytes() == other.as_bytes()
    }
}

impl<const N: usize> Eq for FixedText<N> {
    ghost laws = { nat_list_eq_equiv };
}

impl<const N: usize> PartialOrd for FixedText<N> {
    ghost partial_cmp = { λ a b. Some (slice_cmp nat_cmp a b) };

    ghost laws = { texts_po };

    fn partial_cmp(&self, other: &FixedText<N>) -> Option<Ordering> {
        Some(self.cmp(other))
    }
}

impl<const N: usize> Ord for FixedText<N> {
    ghost cmp = { slice_cmp nat_cmp };

    ghost total = { nat_list_cmp_total };

    ghost matches_partial_cmp = { λ a b. refl };

    ghost matches_eq = { texts_ties };

    fn cmp(&self, other: &FixedText<N>) -> Ordering {
        self.as_bytes().cmp(other.as_bytes())
    }
}
