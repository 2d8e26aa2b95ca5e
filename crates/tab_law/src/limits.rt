//! Every limit of laws, books and steps, each named here alone.

/// Registers of a machine, facts of an event, arguments of a deed.
pub const PLACES: usize = 64;

/// Deeds of one step.
pub const MAX_DEEDS: usize = 32;

/// Actions of one row, each of which gives the chain one member.
pub const MAX_ROW_ACTIONS: usize = 8;

/// Emits of one action that count, with a condition or without.
pub const MAX_EMITS: usize = 4;

/// Tests of one guard.
pub const MAX_TESTS: usize = 8;

/// Numbers that one test may list.
pub const MAX_NUMBERS: usize = 8;

/// Kinds of events of one book.
pub const MAX_KINDS: usize = 128;

/// Guards of one book.
pub const MAX_GUARDS: usize = 64;

/// Actions of one book.
pub const MAX_ACTIONS: usize = 64;
