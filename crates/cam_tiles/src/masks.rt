//! Masks: which pixel centres of a tile are marked.

pub(crate) mod field;
pub(crate) mod figure_runs;
pub(crate) mod figures;
pub(crate) mod heights;
pub(crate) mod inks;
pub(crate) mod join;
pub(crate) mod macros;
pub(crate) mod marked;
pub(crate) mod marks;
pub(crate) mod mask;
pub(crate) mod parts;
pub(crate) mod placed;
pub(crate) mod runs;
pub(crate) mod shapes;
pub(crate) mod swath;
pub(crate) mod turning;
pub(crate) mod words;
