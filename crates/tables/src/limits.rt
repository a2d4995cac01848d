//! How much there may be of each kind of row. All memory for them is taken at once.

pub const MOST_SCOPES: usize = 256;

pub const MOST_SYMBOLS: usize = 512;

pub const MOST_REFERENCES: usize = 512;

pub const MOST_REDECLARATIONS: usize = 256;

pub const MOST_CONFLICTS: usize = 256;

pub const MOST_HOISTED: usize = 512;

/// What one declaration adds to the redeclarations at the most.
pub const REDECLARATIONS_AT_ONCE: usize = 2;
