//! How long and how deep a message may be, how many keys a key set may have, and how long the claims of a token may be.

/// The limits of a run, the argument of `--limits`.
#[derive(Clone, Copy)]
pub enum Limits {
    /// Header buckets of at most 1,024 bytes whose items nest at most 8 deep, at most 16 usable keys, and claims of at most
    /// 4,096 bytes.
    Small,
    /// Header buckets of at most 65,535 bytes whose items nest at most 16 deep, at most 256 usable keys, and claims of at
    /// most 65,535 bytes.
    Large,
}

/// The most bytes of a header bucket under small limits.
pub const SMALL_HEADER: usize = 1_024;

/// How deep the items of a header bucket, and those of claims, may nest under small limits.
pub const SMALL_NESTING: usize = 8;

/// The most usable keys of a key set under small limits.
pub const SMALL_KEYS: usize = 16;

/// The most bytes of the claims of a token under small limits.
pub const SMALL_CLAIMS: usize = 4_096;

/// The most bytes of a header bucket under large limits.
pub const LARGE_HEADER: usize = 65_535;

/// How deep the items of a header bucket, and those of claims, may nest under large limits.
pub const LARGE_NESTING: usize = 16;

/// The most usable keys of a key set under large limits.
pub const LARGE_KEYS: usize = 256;

/// The most bytes of the claims of a token under large limits.
pub const LARGE_CLAIMS: usize = 65_535;
