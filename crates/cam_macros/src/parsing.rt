//! Parts and expressions from their texts.

pub(crate) mod mark;
pub(crate) mod parts;
pub(crate) mod scanner;
pub(crate) mod variables;
