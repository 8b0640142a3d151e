//! What the next opening finds after a stop.

use crate::keep::Keep;
use std::alloc::Global;

/// A keeper that is opened anew where a stop has left it.
pub trait Recover: Keep {
    ghost use Rattle.std.specs.Prelude.{◌≡◌, false, List, [], ◌∷◌, IfSome};
    ghost use Rattle.ledger.specs.Rows.{Content};
    ghost use Rattle.keep.specs.Content.{IsAmong};

    /// With what the store is opened.
    type Options: Drop;

    // Apart from what it holds, the keeper is set as these options say.
    ghost is_set: { Self.Options → Self → Type 0 };

    /// Returns the keeper that the next opening finds after a stop at this moment, or `None` where that opening fails.
    /// That keeper is not stopped, and is set as the options say. While the disk is honest, the keeper holds one of the
    /// contents that the stop could leave, and another stop leaves that content and nothing else. A disk that is honest
    /// after the opening was honest before the stop.
    fn recover(self, alloc: Global, options: Self::Options) -> Option<Self>
        ensures going { IfSome result (λ again. Self.Keep.stopped again ≡ false) }
        ensures settings { IfSome result (is_set options) }
        ensures honest { IfSome result (λ again. Self.Keep.is_honest again → Self.Keep.is_honest self) }
        ensures found { IfSome result (λ again. Self.Keep.is_honest again → (these : List Content)
            → Self.Keep.leaves self these → ∥ ((x : Content) × Self.Keep.holds again x × IsAmong these x) ∥₁) }
        ensures alone { IfSome result (λ again. Self.Keep.is_honest again → (x : Content)
            → Self.Keep.holds again x → Self.Keep.leaves again (x ∷ [])) };
}
