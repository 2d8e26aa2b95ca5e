//! What a text and its table have room for.

/// How many bytes a text may have.
pub const MAX_TEXT: usize = 1_048_576;

/// How many bytes a name may have.
pub const MAX_NAME: usize = 40;

/// How many rows a table may have.
pub const MAX_ROWS: usize = 4_096;

/// How many states a table may name.
pub const MAX_STATES: usize = 64;

/// How many kinds of events a table may name.
pub const MAX_KINDS: usize = 128;

/// How many guards a table may name.
pub const MAX_GUARDS: usize = 64;

/// How many actions a table may name.
pub const MAX_ACTIONS: usize = 64;

/// How many guards a row may have.
pub const MAX_ROW_GUARDS: usize = 4;

/// How many actions a row may have.
pub const MAX_ROW_ACTIONS: usize = 8;
