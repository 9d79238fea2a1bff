//! The limits of worlds, queries and scripts (own). Definitions and code cite these constants, so that each stands once.

/// The greatest origin. The least is 0.
pub const LAST_ORIGIN: u16 = 1_023;

/// The greatest number of a batch. The least is 1.
pub const LAST_NUMBER: u32 = 4_294_967_295;

/// The most rows of a batch.
pub const MAX_ROWS: u32 = 1_048_576;

/// The most columns of a table.
pub const MAX_COLUMNS: usize = 32;

/// The most columns of GROUP BY, each counted once.
pub const MAX_KEYS: usize = 16;

/// The most aggregates of a query, each counted once.
pub const MAX_CALLS: usize = 32;

/// The most items of a query.
pub const MAX_ITEMS: usize = 64;

/// The most bytes of a query's text, and of its canonical text.
pub const MAX_QUERY_LEN: usize = 16_384;

/// How deep a condition may be nested: the most operators above one of its operands, the operand counted too.
pub const DEEPEST_CONDITION: u64 = 64;

/// The most parentheses of a condition that may be open at once.
pub const MAX_OPEN: usize = 64;

/// The most bytes of a name: of a column, an alias or a replica.
pub const MAX_NAME_LEN: usize = 63;

/// The most bytes of a text value.
pub const MAX_TEXT_LEN: usize = 255;

/// The most bytes of one input: a script, a batch file or a summary file.
pub const MAX_INPUT_LEN: usize = 67_108_864;
