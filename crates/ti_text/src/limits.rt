//! The limits of the product, as `specs/Limits.antt` has them.

/// The most bytes of a block of source.
pub const BLOCK_BYTES_MAX: usize = 1_048_576;

/// The most blocks of a source.
pub const BLOCKS_MAX: usize = 65_535;

/// The most bytes of a names field. An entry has one more, its NUL (term(5)).
pub const NAMES_MAX: usize = 127;

/// The most bytes of an entry in the legacy storage format (term(5)).
pub const ENTRY_MAX: usize = 4_096;

/// The most bytes of an entry in the extended number format (term(5)).
pub const EXTENDED_ENTRY_MAX: usize = 32_768;

/// The greatest number that the legacy storage format has room for (term(5)).
pub const LEGACY_NUMBER_MAX: u32 = 32_767;

/// The greatest number that the extended number format has room for (term(5)).
pub const NUMBER_MAX: u32 = 2_147_483_647;

/// The most parameters of a format, `%p1` to `%p9` (terminfo(5), "Parameterized Strings").
pub const PARAMETERS_MAX: usize = 9;
