//! Pointing at layers: which items lie at a place or in a box, and the box of them all.

pub(crate) mod asked;
pub(crate) mod drill_layer;
pub(crate) mod enclosed;
pub(crate) mod layer;
pub(crate) mod topmost;
pub(crate) mod whole;
