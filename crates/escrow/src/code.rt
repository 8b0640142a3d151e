//! Codes: short texts that name a branch, an article or a request.

ghost use Rattle.std.specs.Prelude.{◌≡◌};

pub mod article;
pub mod branch;
pub mod key;

use thiserror::Error;

/// The bytes are no code of the kind that was asked for.
#[derive(Clone, Copy, Debug, PartialEq, Eq, Error)]
#[error("not a code")]
pub struct BadCode;
