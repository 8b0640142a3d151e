//! The limits of lines.

/// The greatest number of order lines of an `open`. The least is 1.
pub const MAX_ORDER_LINES: usize = 64;

/// The greatest length of a script's line, in bytes without its newline.
pub const MAX_LINE_LEN: usize = 4096;
