//! The limits of a program's sources. Each is also a word of `specs/Limits.antt`.

/// A text has at most so many 16-bit units.
pub const MOST_UNITS: u64 = 1_048_576;

/// A program has at most so many tokens, before strings are joined.
pub const MOST_TOKENS: u64 = 400_000;

/// A program has at most so many files, the entry counted.
pub const MOST_FILES: u64 = 512;

/// A file stands at most so deep; the entry stands at 1.
pub const MOST_DEPTH: u32 = 32;
