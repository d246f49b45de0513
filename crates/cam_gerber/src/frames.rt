//! The open blocks and the open repeat.

use crate::object_list::ObjectList;
use std::collections::VecDeque;

/// A block that is open.
#[derive(Drop)]
pub struct OpenBlock {
    pub number: u32,
    pub objects: ObjectList,
    /// How many leaves the objects have.
    pub leaves: u64,
}

/// A repeat that is open: its columns, rows and steps, in nm.
#[derive(Drop)]
pub struct OpenRepeat {
    pub columns: u32,
    pub rows: u32,
    pub i: i64,
    pub j: i64,
    pub objects: ObjectList,
    /// How many leaves the objects of one copy have, counted up to one past the limit.
    pub leaves: u64,
}

/// What is open behind the commands so far.
#[derive(Drop)]
pub struct Frames {
    /// Innermost first.
    pub blocks: VecDeque<OpenBlock>,
    pub repeat: Option<OpenRepeat>,
}
