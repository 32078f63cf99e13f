// The numbers that document 01 fixes, each once and by the Rust's name where it has one: the limits that code tests, and how many
// bytes a record of each kind has on the tape.
#![tactic(auto)]

// ---- number 3

// The longest text, in bytes.
pub const MAX_TEXT: usize = 16777215;
// The most strings, contents or segments of a book, over all layers.
pub const MAX_POOL: usize = 1048575;
// The most nodes, pairs, containers or diagnostics.
pub const MAX_LIST: usize = 262143;

pub const MAX_LAYERS: usize = 32;

// ---- number 18

// The most strings of one new layer.
pub const MAX_NEW_STRINGS: usize = 3583;
// The fewest work words that a caller may lend.
pub const MIN_WORK_WORDS: usize = 16384;

// Where the work words begin that an index of strings may have: those before are the interner's.
pub const INDEX_AT: usize = 15360;

// ---- section 4: the bytes of a tape's head and of a record

// Command 1 and the lengths of both texts.
pub const HEAD_SIZE: usize = 9;

pub const STRING_SIZE: usize = 5;

pub const CONTENT_SIZE: usize = 10;

pub const SEGMENT_SIZE: usize = 37;

pub const NODE_SIZE: usize = 49;

pub const PAIR_SIZE: usize = 18;

pub const CONTAINER_SIZE: usize = 13;

pub const DIAGNOSTIC_SIZE: usize = 18;
