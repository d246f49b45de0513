//! What drill layers check, drill and rout, and its boxes.

pub(crate) mod bounds;
pub(crate) mod checks;
pub(crate) mod item_boxes;
pub(crate) mod painting;
