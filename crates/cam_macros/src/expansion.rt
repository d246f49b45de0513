//! Values of expressions, and primitives of parts.

pub(crate) mod arithmetic;
pub(crate) mod parts;
pub(crate) mod shapes;
pub(crate) mod stack;
pub(crate) mod variables;
