//! The commands of a file.

ghost use Rattle.std.specs.Prelude.{◌≡◌};
ghost use Rattle.cam_commands.specs.Commands.{is_extended};
ghost use Rattle.cam_commands.specs.Borrowed.{shown};

use crate::names::FreeText;
use crate::parts::{Format, Mirror, Mode, Operation, Polarity, Repeat, Style};
use cam_units::Unit;

/// What one word or extended command of a file says. A number that has to stand there and does not fit its
/// grammar is `None`.
///
/// Texts are slices of the file. The bytes in them that a file may have anywhere, line ends, spaces and tabs,
/// do not count, but for the text of `KeepText`.
#[derive(Clone, Copy, Debug)]
pub enum Command<'a> {
    /// `FSLAX..Y..` with the same digits for X and Y.
    SetFormat(Format),
    /// Any other `FS` or `MO`.
    RefusedFormat,
    /// `MOMM` and `MOIN`, or the words G71 and G70.
    SetUnit { unit: Unit, style: Style },
    /// What stands behind `AD`.
    DefineAperture(&'a [u8]),
    /// What stands behind `AM`: the macro's name and its parts, each but the last ended by `*`.
    DefineMacro(&'a [u8]),
    /// `LPD` and `LPC`.
    SetPolarity(Polarity),
    /// `LMN`, `LMX`, `LMY` and `LMXY`.
    SetMirror(Mirror),
    /// `LR`, in 10^-9 of a degree, counterclockwise, below 10^6 degrees in absolute value.
    SetRotation(Option<i64>),
    /// `LS`, in 10^-9, below 10^6 in absolute value.
    SetScale(Option<i64>),
    /// `ABDn`, n from 10 to 2,147,483,647.
    OpenBlock(Option<u32>),
    /// `AB`.
    CloseBlock,
    /// `SR` with parameters.
    SetRepeat(Repeat),
    /// `SR` alone.
    CloseRepeat,
    /// An attribute (`TF`, `TA`, `TO`, `TD`) or a name (`IN`, `LN`), with all that stands behind the two letters.
    KeepText { name: FreeText, text: &'a [u8] },
    /// `IPPOS`, `ASAXBY`, `IR0`, `MIA0B0`, `OFA0B0` or `SFA1B1`: it changes nothing.
    NeutralOld,
    /// Any other `IP`, `AS`, `IR`, `MI`, `OF` or `SF`, or the words G55, G91, M00 and M01.
    RefusedOld(Style),
    /// G01, G02 or G03 alone.
    SetMode(Mode),
    /// G74.
    SingleQuadrant,
    /// G75.
    MultiQuadrant,
    /// G36.
    BeginRegion,
    /// G37.
    EndRegion,
    /// G90, a comment or the empty word.
    Nothing,
    /// `Dn` from D10 on, also behind G54; n up to 2,147,483,647.
    Select(Option<u32>),
    /// D01, D02 or D03, or coordinates alone.
    Operate(Operation),
    /// M02.
    End,
    /// Anything else.
    Unknown,
}

impl Command<'_> {
    /// Whether the command stands between two `%` and is known, and neither an attribute nor a name.
    pub fn is_extended(&self) -> bool
        ensures { result ≡ is_extended (shown self.now) }
    {
        match self {
            Command::SetUnit { style, .. } | Command::RefusedOld(style) => *style
                == Style::Extended,
            Command::SetFormat(_)
            | Command::RefusedFormat
            | Command::DefineAperture(_)
            | Command::DefineMacro(_)
            | Command::SetPolarity(_)
            | Command::SetMirror(_)
            | Command::SetRotation(_)
            | Command::SetScale(_)
            | Command::OpenBlock(_)
            | Command::CloseBlock
            | Command::SetRepeat(_)
            | Command::CloseRepeat
            | Command::NeutralOld => true,
            _ => false,
        }
    }
}
