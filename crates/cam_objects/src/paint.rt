//! Layers, painted on a canvas from the last leaf on.

pub(crate) mod layer;
pub(crate) mod objects;
pub(crate) mod prints;
pub(crate) mod repeat;
pub(crate) mod run;
