//! Exit statuses.

/// Something was found, matched or written.
pub const FOUND: u8 = 0;

/// Nothing was found, or nothing matched.
pub const UNFOUND: u8 = 1;

/// There was a fault.
pub const FAULT: u8 = 2;
