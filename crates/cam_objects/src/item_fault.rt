//! Why an item is refused.

/// Why an item is refused, in the order in which the refusals are told.
#[derive(Clone, Copy, Debug, PartialEq, Eq)]
pub enum ItemFault {
    /// A repeat of no column, of no row or of one copy, or without an object; a contour without a
    /// segment; a rout without a point.
    Malformed,
    /// A number that the dictionary does not have.
    UnknownAperture,
    /// A tool that the drill layer does not have.
    UnknownTool,
    /// A draw with anything but a solid circle or a solid rectangle, or an arc with anything but a
    /// solid circle.
    WrongAperture,
    /// An arc that starts at its centre.
    ZeroRadius,
    /// A control point outside the board, as it stands or in a leaf, or a step of a repeat of
    /// 1,000,000,000 nm or more.
    OutOfBoard,
    /// More segments, points, objects or leaves than the limits allow.
    TooMuch,
}
