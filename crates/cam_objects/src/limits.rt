//! The limits that are told of no file, by the names that they have in `specs/Limits`. The others are those of
//! `cam_refusals`.

/// The least number of an aperture or a block.
pub(crate) const FIRST_NUMBER: u32 = 10;

/// The greatest number of an aperture or a block.
pub(crate) const LAST_NUMBER: u32 = 2_147_483_647;

/// The greatest number of a tool.
pub(crate) const LAST_TOOL: u16 = 9_999;

/// The coordinates of a place on the board are below this in absolute value, in half nm.
pub(crate) const PLACE_LIMIT: u64 = 2_000_000_000;
