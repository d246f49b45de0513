//! Items of a layer.

use crate::object::{Object, Objects};
use std::mem::size_of;

/// What a layer lists: an object, or objects that are painted again and again (Gerber Layer Format
/// Specification, "Step and Repeat (SR)"), the copy of column `c` and row `r` shifted by `c * i` and
/// `r * j` nm. The copies are painted column by column.
#[derive(Clone, Debug, Drop)]
pub enum Item {
    One(Object),
    Repeat {
        columns: u32,
        rows: u32,
        i: i64,
        j: i64,
        objects: Objects,
    },
}

// A layer keeps up to a million items. Fields lie in the order in which they are declared, so the flags of an arc stand
// first, beside the tag and before the aperture, in bytes that its alignment leaves free. Behind the points they would
// take eight bytes more of each item.
const _: () = prove!(size_of::<Item>() == 64);
