//! Why an edit is refused.

ghost use Rattle.std.specs.Prelude.{◌≡◌};
ghost use Rattle.cam_refusals.specs.Refusals.{number_of};
ghost use Rattle.cam_edits.specs.Faults.{edit_refusal};
ghost use Rattle.cam_edits.specs.declared.fault.EditFault.TheVariants.{Memory};

use cam_refusals::Refusal;
use std::alloc::AllocError;
use thiserror::Error;

/// Why an edit is refused, in the order in which the refusals are told.
#[derive(Clone, Copy, Debug, PartialEq, Eq, Drop, Error)]
pub enum EditFault {
    /// There is no layer of the name (60).
    #[error("there is no layer of this name")]
    NoLayer,
    /// The edit or its item does not go with the kind of the layer, or the item is malformed: a repeat of one copy or
    /// none or without an object, a contour without a segment, a rout without a point (68).
    #[error("the edit does not go with the layer")]
    WrongKind,
    /// The key or the fields of an attribute are not written as they may be (75).
    #[error("the key or the fields of the attribute are outside their grammar")]
    AttributeRefused,
    /// The layer has no attribute of the name that is to be dropped (74).
    #[error("the layer has no attribute of this name")]
    NoAttribute,
    /// The layer has no item at the place, or an insertion is to stand past its end (61).
    #[error("the layer has no item at this place")]
    NoItem,
    /// A region or a repeat has no aperture, and a repeat no polarity (64).
    #[error("the item has none")]
    HasNone,
    /// The layer has no aperture or block of the number (62).
    #[error("the layer has no aperture of this number")]
    NoAperture,
    /// The drill layer has no tool of the number (66).
    #[error("the layer has no tool of this number")]
    NoTool,
    /// A draw with anything but a solid circle or a solid rectangle, or an arc with anything but a
    /// solid circle (63).
    #[error("a draw needs a solid circle or a solid rectangle, an arc a solid circle")]
    WrongAperture,
    /// An arc of radius 0, or a tool's diameter outside 1 to 200,000,000 nm (67).
    #[error("the size is outside its limits")]
    SizeRefused,
    /// A control point would leave the board, as it stands or in a leaf (65).
    #[error("a control point would leave the board")]
    OutOfBoard,
    /// The item or the layer would have more than the limits allow, or a layer a 1,001st attribute (69).
    #[error("the layer would pass its limits")]
    TooMuch,
    /// Memory was refused (30).
    #[error("no memory")]
    Memory,
}

impl EditFault {
    /// The refusal that is told of it.
    pub fn refusal(self) -> Refusal
        ensures { result ≡ edit_refusal self }
    {
        match self {
            EditFault::NoLayer => Refusal::NoLayer,
            EditFault::WrongKind => Refusal::WrongKind,
            EditFault::AttributeRefused => Refusal::AttributeRefused,
            EditFault::NoAttribute => Refusal::NoAttribute,
            EditFault::NoItem => Refusal::NoItem,
            EditFault::HasNone => Refusal::HasNone,
            EditFault::NoAperture => Refusal::NoAperture,
            EditFault::NoTool => Refusal::NoTool,
            EditFault::WrongAperture => Refusal::EditWrongAperture,
            EditFault::SizeRefused => Refusal::EditSizeRefused,
            EditFault::OutOfBoard => Refusal::EditOutOfBoard,
            EditFault::TooMuch => Refusal::EditTooMuch,
            EditFault::Memory => Refusal::NoMemory,
        }
    }

    /// The number by which a refusal is told: 60 to 69, 74, 75 or 30.
    pub fn number(self) -> u8
        ensures { result ≡ number_of (edit_refusal self) }
    {
        self.refusal().number()
    }
}

impl From<AllocError> for EditFault {
    ghost from_gives = { λ _ fault. fault ≡ Memory };

    fn from(_error: AllocError) -> EditFault {
        EditFault::Memory
    }
}
