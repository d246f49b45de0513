//! Why a file, a line of a script or a call is refused.

ghost use Rattle.std.specs.Prelude.{◌≡◌};
ghost use Rattle.cam_refusals.specs.Refusals.{number_of};

use std::fmt::{self, Debug, Formatter, Write};

/// Why a file, a line of a script or a call is refused, each with the number that a reply tells.
///
/// ```rust
/// use cam_refusals::Refusal;
///
/// assert!(rt; Refusal::RotationRefused.number() == 13);
/// ```
#[derive(Clone, Copy, PartialEq, Eq)]
pub enum Refusal {
    /// A byte that may not stand there: of a command, or outside the comments of a drill file (1).
    BadByte,
    /// The command has no end (2).
    Unterminated,
    /// A word or an extended command of no known form (3).
    UnknownCommand,
    /// A number that does not fit its grammar, or is out of its range (4).
    BadNumber,
    /// A coordinate before the format (5).
    NoFormat,
    /// A coordinate, a definition, a repeat's parameters, a tool or the end of a header before the
    /// unit (6).
    NoUnit,
    /// The format or the unit is set to another value (7).
    SetAgain,
    /// A format or a unit that is not read (8).
    FormatRefused,
    /// A number is selected that is not defined (9).
    UnknownAperture,
    /// A number that is defined or that an open block defines, or the name of a macro or a template
    /// (10).
    Redefined,
    /// A template that is not read or not known, or that has a parameter too many (11).
    TemplateRefused,
    /// A primitive other than 1, 2, 4, 20 and 21 (12).
    PrimitiveRefused,
    /// A rotation that is no multiple of 90 degrees (13).
    RotationRefused,
    /// A scaling other than 1 (14).
    ScaleRefused,
    /// A plot or a flash without an aperture (15).
    NoneSelected,
    /// A plot with anything but a solid circle or, for a straight draw, a solid rectangle (16).
    WrongAperture,
    /// An arc not under G75 (17).
    ArcMode,
    /// An arc that starts at its centre (18).
    ZeroRadius,
    /// A flash in a region (19).
    FlashInRegion,
    /// G37 outside a region (20).
    NotInRegion,
    /// A repeat in a block (21).
    NestedRepeat,
    /// A block that is closed and not open, a block in a repeat, a region in a region, an extended
    /// command in a region, or an end in a region or a block (22).
    StrayBlock,
    /// A point, a centre or a leaf outside the board, or a step of a repeat of a metre or more
    /// (23).
    OutOfBoard,
    /// A diameter, a side or a coordinate of a primitive outside its limits (24).
    SizeRefused,
    /// A count or a depth past its limit (25).
    TooMuch,
    /// There is no M02 (26).
    NoEnd,
    /// An old command that would change the image (28).
    OldRefused,
    /// A part of a macro outside the grammar, or of a value that has no meaning (29).
    MacroFault,
    /// Memory was refused (30).
    NoMemory,
    /// The first line is not M48, or there is no line (40).
    NoHeader,
    /// A line of no known form, or of the other part of the file (41).
    UnknownLine,
    /// A tool is selected that is not declared (42).
    UnknownTool,
    /// A tool is declared again (43).
    ToolAgain,
    /// A hit, a slot or a lowering, and no tool is selected (44).
    NoToolSelected,
    /// A coordinate without a point (45).
    NoPoint,
    /// A rout along an arc (46).
    RoutArc,
    /// A line in the wrong mode, or with the tool in the wrong height (47).
    RoutState,
    /// There is no M30 (48).
    DrillNoEnd,
    /// A window, or the depth of a history, outside its limits (50).
    OutOfLimits,
    /// Some tile is still to be drawn (51).
    StillDirty,
    /// There is no layer of this name (60).
    NoLayer,
    /// The layer has no item at this place, or an insertion is past its end (61).
    NoItem,
    /// The layer has no aperture or block of this number (62).
    NoAperture,
    /// A draw with anything but a solid circle or a solid rectangle, or an arc with anything but a
    /// solid circle (63).
    EditWrongAperture,
    /// A region or a repeat has no aperture, and a repeat no polarity (64).
    HasNone,
    /// A control point would leave the board, as it stands or in a leaf (65).
    EditOutOfBoard,
    /// The layer has no tool of this number (66).
    NoTool,
    /// An arc of radius 0, or a tool's diameter outside 1 to 200,000,000 nm (67).
    EditSizeRefused,
    /// The edit or its item does not go with the kind of the layer, or the item is malformed (68).
    WrongKind,
    /// The item or the layer would have more than the limits allow (69).
    EditTooMuch,
    /// No edit is left to undo (70).
    NothingToUndo,
    /// No edit is left to redo (71).
    NothingToRedo,
    /// A group is open (72).
    GroupOpen,
    /// No group is open (73).
    NoGroup,
    /// The layer has no attribute of this name (74).
    NoAttribute,
    /// The key or the fields of an attribute are outside their grammar (75).
    AttributeRefused,
    /// The words are no command (80).
    BadLine,
    /// The line is longer than a line may be (81).
    LineTooLong,
    /// A file cannot be read or written, or is too long (82).
    FileFault,
    /// A layer has this name (83).
    NameTaken,
    /// No window was set (84).
    NoWindow,
    /// There are as many layers as there may be (85).
    TooManyLayers,
    /// A pointer is null that may not be, or a length is past 2^63 - 1 (90).
    NoPointer,
    /// A tile is dirty, or there is no such tile, layer or window (91).
    NotClean,
}

impl Refusal {
    /// The number by which it is told: from 1 to 91.
    pub fn number(self) -> u8
        ensures { result ≡ number_of self }
    {
        match self {
            Refusal::BadByte => 1,
            Refusal::Unterminated => 2,
            Refusal::UnknownCommand => 3,
            Refusal::BadNumber => 4,
            Refusal::NoFormat => 5,
            Refusal::NoUnit => 6,
            Refusal::SetAgain => 7,
            Refusal::FormatRefused => 8,
            Refusal::UnknownAperture => 9,
            Refusal::Redefined => 10,
            Refusal::TemplateRefused => 11,
            Refusal::PrimitiveRefused => 12,
            Refusal::RotationRefused => 13,
            Refusal::ScaleRefused => 14,
            Refusal::NoneSelected => 15,
            Refusal::WrongAperture => 16,
            Refusal::ArcMode => 17,
            Refusal::ZeroRadius => 18,
            Refusal::FlashInRegion => 19,
            Refusal::NotInRegion => 20,
            Refusal::NestedRepeat => 21,
            Refusal::StrayBlock => 22,
            Refusal::OutOfBoard => 23,
            Refusal::SizeRefused => 24,
            Refusal::TooMuch => 25,
            Refusal::NoEnd => 26,
            Refusal::OldRefused => 28,
            Refusal::MacroFault => 29,
            Refusal::NoMemory => 30,
            Refusal::NoHeader => 40,
            Refusal::UnknownLine => 41,
            Refusal::UnknownTool => 42,
            Refusal::ToolAgain => 43,
            Refusal::NoToolSelected => 44,
            Refusal::NoPoint => 45,
            Refusal::RoutArc => 46,
            Refusal::RoutState => 47,
            Refusal::DrillNoEnd => 48,
            Refusal::OutOfLimits => 50,
            Refusal::StillDirty => 51,
            Refusal::NoLayer => 60,
            Refusal::NoItem => 61,
            Refusal::NoAperture => 62,
            Refusal::EditWrongAperture => 63,
            Refusal::HasNone => 64,
            Refusal::EditOutOfBoard => 65,
            Refusal::NoTool => 66,
            Refusal::EditSizeRefused => 67,
            Refusal::WrongKind => 68,
            Refusal::EditTooMuch => 69,
            Refusal::NothingToUndo => 70,
            Refusal::NothingToRedo => 71,
            Refusal::GroupOpen => 72,
            Refusal::NoGroup => 73,
            Refusal::NoAttribute => 74,
            Refusal::AttributeRefused => 75,
            Refusal::BadLine => 80,
            Refusal::LineTooLong => 81,
            Refusal::FileFault => 82,
            Refusal::NameTaken => 83,
            Refusal::NoWindow => 84,
            Refusal::TooManyLayers => 85,
            Refusal::NoPointer => 90,
            Refusal::NotClean => 91,
        }
    }
}

/// As `Refusal(13)`, by its number.
impl Debug for Refusal {
    fn fmt<W: Write>(&self, f: &mut Formatter<W>) -> fmt::Result {
        f.debug_tuple("Refusal").field(&self.number()).finish()
    }
}
