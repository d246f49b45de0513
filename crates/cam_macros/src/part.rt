//! The parts of a macro.

use crate::expression::Expression;
use crate::fields::Fields;
use cam_units::Items;

/// A part of a macro that is no comment.
#[derive(Debug, Drop)]
pub enum Part {
    /// `$variable=value`, the variable from 1 to 9,999.
    Assignment { variable: u32, value: Expression },
    /// A primitive's code, where one past 9,999 counts as 10,000, and its fields.
    Primitive { code: u32, fields: Fields },
}

/// The parts of a macro, in order.
pub type Parts = Items<Part>;
