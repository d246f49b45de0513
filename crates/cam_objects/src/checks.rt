//! What an item and an entry have to meet for a layer to take them.

pub(crate) mod attributes;
pub(crate) mod demands;
pub(crate) mod facts;
pub(crate) mod inside;
pub(crate) mod layer;
pub(crate) mod moving;
pub(crate) mod room;
