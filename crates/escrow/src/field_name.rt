//! The name of a field.

use crate::code::article::Article;
use crate::code::branch::Branch;

/// The name of a field, which is the stock of one article at one branch. Names are ordered by branch, then by
/// article.
#[derive(Clone, Copy, PartialEq, Eq, PartialOrd, Ord)]
pub struct FieldName {
    pub branch: Branch,
    pub article: Article,
}
