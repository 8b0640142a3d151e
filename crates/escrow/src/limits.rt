//! The limits of codes and numbers.

/// The greatest level of stock.
pub const MAX_LEVEL: u64 = 1_000_000_000;

/// The greatest quantity that a command names. The least is 1.
pub const MAX_QTY: u64 = 1_000_000;

/// The last moment, in whole minutes. The first is 0.
pub const MAX_MOMENT: u64 = 4_000_000_000;

/// The greatest number of an order. The least is 1.
pub const MAX_ORDER_NO: u64 = 999_999_999;

/// The greatest length of a branch's code, in bytes.
pub const MAX_BRANCH_LEN: usize = 8;

/// The greatest length of an article's code, in bytes.
pub const MAX_ARTICLE_LEN: usize = 16;

/// The greatest length of a key, in bytes.
pub const MAX_KEY_LEN: usize = 36;
