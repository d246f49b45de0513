//! What commands are made of.

/// Which syntax a command has (Gerber Layer Format Specification, "Commands overview").
#[derive(Clone, Copy, Debug, PartialEq, Eq)]
pub enum Style {
    /// It ends with `*` alone.
    Word,
    /// It stands between two `%`.
    Extended,
}

/// How many digits a coordinate has before and behind its decimal point, 1 to 6 each
/// (Gerber Layer Format Specification, "Format specification (FS)").
#[derive(Clone, Copy, Debug, PartialEq, Eq)]
pub struct Format {
    pub integers: u8,
    pub decimals: u8,
}

/// A number that a command may leave out.
#[derive(Clone, Copy, Debug, PartialEq, Eq)]
pub enum Slot<T> {
    /// Its letter is not written.
    Omitted,
    /// Its letter is written, and what follows does not fit the grammar of the number.
    Malformed,
    Written(T),
}

/// Whether objects darken or clear the image ("Load polarity (LP)").
#[derive(Clone, Copy, Debug, PartialEq, Eq)]
pub enum Polarity {
    Dark,
    Clear,
}

/// Which coordinates of an aperture change their sign ("Load mirroring (LM)").
#[derive(Clone, Copy, Debug, PartialEq, Eq)]
pub enum Mirror {
    Neither,
    X,
    Y,
    Both,
}

/// How a plot goes from the current point to its end ("Linear plotting (G01)" and
/// "Circular plotting (G02, G03)").
#[derive(Clone, Copy, Debug, PartialEq, Eq)]
pub enum Mode {
    Linear,
    Clockwise,
    Counterclockwise,
}

/// What an operation does ("Operations (D01/D02/D03)").
#[derive(Clone, Copy, Debug, PartialEq, Eq)]
pub enum OperationCode {
    /// D01
    Plot,
    /// D02
    Move,
    /// D03
    Flash,
}

/// `[G01|G02|G03][X..][Y..][I..][J..][D01|D02|D03]`, where a coordinate or the D code stands.
///
/// Coordinates have an optional sign and up to 15 digits, in the units of the format's last decimal.
#[derive(Clone, Copy, Debug, PartialEq, Eq)]
pub struct Operation {
    /// The G code before it, if one stands there.
    pub mode: Option<Mode>,
    pub x: Slot<i64>,
    pub y: Slot<i64>,
    pub i: Slot<i64>,
    pub j: Slot<i64>,
    pub code: Option<OperationCode>,
}

/// The parameters of a step and repeat, `SR[Xa][Yb][Ii][Jj]` ("Step and repeat (SR)").
#[derive(Clone, Copy, Debug, PartialEq, Eq)]
pub struct Repeat {
    /// At least 1.
    pub columns: Slot<u32>,
    /// At least 1.
    pub rows: Slot<u32>,
    /// The step of the columns in 10^-9 of a unit.
    pub i: Slot<i64>,
    /// The step of the rows in 10^-9 of a unit.
    pub j: Slot<i64>,
}
