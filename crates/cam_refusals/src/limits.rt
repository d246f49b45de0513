//! The limits of files, layers and scripts.

/// The greatest number of items of a layer, of objects of a block or a repeat, of segments of a contour and of points
/// of a rout.
pub const COUNT_LIMIT: usize = 1_000_000;

/// The greatest number of leaves of a layer, of an item and of a block, and of holes and slots of a drill layer.
pub const LEAF_LIMIT: u64 = 4_000_000;

/// The greatest number of blocks in one another.
pub const DEPTH_LIMIT: u64 = 8;

/// The greatest number of file attributes of a layer.
pub const ATTRIBUTE_LIMIT: usize = 1_000;

/// The coordinates of a point and the steps of a repeat are below this in absolute value: a metre, in nm.
pub const BOARD_LIMIT: u64 = 1_000_000_000;

/// The greatest diameter, side or width: 200 mm, in nm.
pub const SIZE_LIMIT: u64 = 200_000_000;

/// The greatest number of bytes of a file.
pub const FILE_LIMIT: usize = 268_435_456;

/// The greatest number of bytes of a line of a script.
pub const LINE_LIMIT: usize = 65_536;
