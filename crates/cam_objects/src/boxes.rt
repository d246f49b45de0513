//! Boxes of what is painted, in half nm.

pub(crate) mod extent;
pub(crate) mod first_copies;
pub(crate) mod first_copy;
pub(crate) mod item_boxes;
pub(crate) mod items;
pub(crate) mod lines;
pub(crate) mod object_boxes;
pub(crate) mod placed;
pub(crate) mod shapes;
