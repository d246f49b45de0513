//! The names of extended commands, their first two letters.

ghost use Rattle.std.specs.Prelude.{◌≡◌, [], ◌∷◌};
ghost use Rattle.cam_commands.specs.ExtendedCommands.{name_of};

/// An extended command with free text, which is kept byte for byte.
#[derive(Clone, Copy, Debug, PartialEq, Eq)]
pub enum FreeText {
    /// TF
    FileAttribute,
    /// TA
    ApertureAttribute,
    /// TO
    ObjectAttribute,
    /// TD
    DeleteAttribute,
    /// IN
    ImageName,
    /// LN
    LoadName,
}

/// An old extended command that newer files no longer have.
#[derive(Clone, Copy)]
pub enum OldForm {
    /// IP
    ImagePolarity,
    /// AS
    AxesSelect,
    /// IR
    ImageRotation,
    /// MI
    MirrorImage,
    /// OF
    Offset,
    /// SF
    ScaleFactor,
}

#[derive(Clone, Copy)]
pub enum Name {
    /// FS
    FormatSpecification,
    /// MO
    UnitMode,
    /// AD
    ApertureDefinition,
    /// AM
    ApertureMacro,
    /// AB
    ApertureBlock,
    /// SR
    StepAndRepeat,
    /// LP
    LoadPolarity,
    /// LM
    LoadMirroring,
    /// LR
    LoadRotation,
    /// LS
    LoadScaling,
    Free(FreeText),
    Old(OldForm),
}

/// The name of these two letters.
pub fn name_of(first: u8, second: u8) -> Option<Name>
    ensures { result ≡ name_of (first ∷ second ∷ []) }
{
    match (first, second) {
        (b'F', b'S') => Some(Name::FormatSpecification),
        (b'M', b'O') => Some(Name::UnitMode),
        (b'A', b'D') => Some(Name::ApertureDefinition),
        (b'A', b'M') => Some(Name::ApertureMacro),
        (b'A', b'B') => Some(Name::ApertureBlock),
        (b'S', b'R') => Some(Name::StepAndRepeat),
        (b'L', b'P') => Some(Name::LoadPolarity),
        (b'L', b'M') => Some(Name::LoadMirroring),
        (b'L', b'R') => Some(Name::LoadRotation),
        (b'L', b'S') => Some(Name::LoadScaling),
        (b'T', b'F') => Some(Name::Free(FreeText::FileAttribute)),
        (b'T', b'A') => Some(Name::Free(FreeText::ApertureAttribute)),
        (b'T', b'O') => Some(Name::Free(FreeText::ObjectAttribute)),
        (b'T', b'D') => Some(Name::Free(FreeText::DeleteAttribute)),
        (b'I', b'N') => Some(Name::Free(FreeText::ImageName)),
        (b'L', b'N') => Some(Name::Free(FreeText::LoadName)),
        (b'I', b'P') => Some(Name::Old(OldForm::ImagePolarity)),
        (b'A', b'S') => Some(Name::Old(OldForm::AxesSelect)),
        (b'I', b'R') => Some(Name::Old(OldForm::ImageRotation)),
        (b'M', b'I') => Some(Name::Old(OldForm::MirrorImage)),
        (b'O', b'F') => Some(Name::Old(OldForm::Offset)),
        (b'S', b'F') => Some(Name::Old(OldForm::ScaleFactor)),
        _ => None,
    }
}
