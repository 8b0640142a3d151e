//! Codes, numbers in their ranges, and one quantity of stock under escrow. Nothing here takes memory.
#![tactic(auto)]

mod code;
mod field_name;
mod fixed_text;
mod limits;
mod number;
mod quantity;

pub use code::BadCode;
pub use code::article::Article;
pub use code::branch::Branch;
pub use code::key::Key;
pub use field_name::FieldName;
pub use limits::{
    MAX_ARTICLE_LEN, MAX_BRANCH_LEN, MAX_KEY_LEN, MAX_LEVEL, MAX_MOMENT, MAX_ORDER_NO, MAX_QTY,
};
pub use number::{Level, Moment, OrderNo, Qty};
pub use quantity::{BadBounds, Bound, Quantity, Rebound, Way};
