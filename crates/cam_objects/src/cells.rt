//! What many items reach: what a redraw passes over, and an edit follows.

pub(crate) mod item_list;
pub(crate) mod kept;
pub(crate) mod numbers;
pub(crate) mod reach;
pub(crate) mod sides;
