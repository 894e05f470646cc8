// The most that a routine may have.

pub const MOST_VARIABLES: usize = 32;

pub const MOST_COMMANDS: usize = 1023;

pub const MOST_TERMS: usize = 4096;

// How many values may wait while a term is worked out.
pub const MOST_WAITING: u32 = 16;

// How deep commands may be joined.
pub const DEEPEST: u32 = 64;
