//! Extended commands, and what they say: worked out by hand.

use crate::commands::words::Said;
use cam_commands::{Command, Format, FreeText, Mirror, Polarity, Style};
use cam_units::Unit;

/// Extended commands.
pub const EXTENDED: &[Said] = &[
    (
        Command::SetFormat(Format {
            integers: 3,
            decimals: 6,
        }),
        b"%FSLAX36Y36*%%FSLAX36Y36 *\n%% F S L A X 3 6\nY36*%",
    ),
    (
        Command::SetFormat(Format {
            integers: 1,
            decimals: 1,
        }),
        b"%FSLAX11Y11*%",
    ),
    (
        Command::SetFormat(Format {
            integers: 6,
            decimals: 6,
        }),
        b"%FSLAX66Y66*%",
    ),
    (
        Command::RefusedFormat,
        b"%FS*%%FSLAXY*%%FSLAX36Y35*%%FSLAX36*%%FSLAY36X36*%%FSLAX37Y37*%%FSLAX07Y07*%%FSLAX60Y60*%\
          %FSLAX3Y3*%%FSLAX366Y366*%%FSLAX3.6Y3.6*%%FSLAX36Y36I36*%%FSTAX36Y36*%%FSLIX36Y36*%%FSDAX36Y36*%\
          %FSX36Y36*%%FSlaX36Y36*%%MO*%%MOCM*%%MOMMM*%%MOmm*%%MOM*%%MOINCH*%",
    ),
    (
        Command::SetUnit {
            unit: Unit::Mm,
            style: Style::Extended,
        },
        b"%MOMM*%% M O\r\nM M *%",
    ),
    (
        Command::SetUnit {
            unit: Unit::Inch,
            style: Style::Extended,
        },
        b"%MOIN*%",
    ),
    (Command::DefineAperture(b"D10C,1X0.5"), b"%ADD10C,1X0.5*%"),
    (Command::DefineAperture(b""), b"%AD*%"),
    (Command::DefineAperture(b" D 10C,1 "), b"%A D D 10C,1 *%"),
    (Command::DefineMacro(b"B*1,1,2,0,0"), b"%AMB*1,1,2,0,0*%"),
    (
        Command::DefineMacro(b"B*\n1,1,2,0,0"),
        b"%AMB*\n1,1,2,0,0*\n%",
    ),
    (Command::DefineMacro(b"B"), b"%AMB*%"),
    (Command::DefineMacro(b"B*"), b"%AMB**%"),
    (Command::DefineMacro(b""), b"%AM*%"),
    (Command::SetPolarity(Polarity::Dark), b"%LPD*%%L P D*%"),
    (Command::SetPolarity(Polarity::Clear), b"%LPC*%"),
    (Command::SetMirror(Mirror::Neither), b"%LMN*%"),
    (Command::SetMirror(Mirror::X), b"%LMX*%"),
    (Command::SetMirror(Mirror::Y), b"%LMY*%"),
    (Command::SetMirror(Mirror::Both), b"%LMXY*%%LM X Y*%"),
    (
        Command::SetRotation(Some(0)),
        b"%LR0*%%LR-0*%%LR0.0*%%LR.0*%%LR0.0000000009*%",
    ),
    (
        Command::SetRotation(Some(90_000_000_000)),
        b"%LR90*%%LR+90.*%%LR090.0*%%LR9 0*%%LR90.0000000009*%",
    ),
    (Command::SetRotation(Some(180_000_000_000)), b"%LR180*%"),
    (Command::SetRotation(Some(270_000_000_000)), b"%LR270.000*%"),
    (Command::SetRotation(Some(45_000_000_000)), b"%LR45*%"),
    (Command::SetRotation(Some(-90_000_000_000)), b"%LR-90*%"),
    (
        Command::SetRotation(Some(1)),
        b"%LR0.000000001*%%LR.0000000019*%",
    ),
    (
        Command::SetRotation(Some(999_999_999_999_999)),
        b"%LR999999.9999999999*%",
    ),
    (
        Command::SetRotation(Some(-999_999_999_999_999)),
        b"%LR-999999.999999999*%",
    ),
    (
        Command::SetRotation(None),
        b"%LR*%%LR.*%%LR-*%%LR+.*%%LR1000000*%%LR-1000000*%%LR1.2.3*%%LR9-0*%%LR--90*%%LR90-*%",
    ),
    (
        Command::SetScale(Some(1_000_000_000)),
        b"%LS1*%%LS1.0*%%LS+1.*%%LS01*%%LS1.0000000009*%",
    ),
    (Command::SetScale(Some(2_000_000_000)), b"%LS2*%"),
    (Command::SetScale(Some(500_000_000)), b"%LS.5*%"),
    (Command::SetScale(Some(0)), b"%LS0*%"),
    (Command::SetScale(Some(-1_000_000_000)), b"%LS-1*%"),
    (
        Command::SetScale(None),
        b"%LS*%%LS.*%%LS1000000*%%LS1.0.0*%",
    ),
    (
        Command::OpenBlock(Some(10)),
        b"%ABD10*%%ABD010*%%A B D 1 0*%",
    ),
    (Command::OpenBlock(Some(2_147_483_647)), b"%ABD2147483647*%"),
    (
        Command::OpenBlock(None),
        b"%ABD2147483648*%%ABD18446744073709551626*%%ABD9*%%ABD5*%%ABD*%%ABD+10*%%ABD10.*%",
    ),
    (Command::CloseBlock, b"%AB*%%A\nB *%"),
    (Command::CloseRepeat, b"%SR*%%SR \n*%"),
    (
        Command::NeutralOld,
        b"%IPPOS*%%I P P O S*%%ASAXBY*%%ASAX*%%ASBY*%%IR0*%%IR0.*%%IR0.000*%%MIA0B0*%%MIA0*%%MIB0*%\
          %MIA0.B0.0*%%OFA0B0*%%OFA0.0*%%OFB0.*%%OFA0.00B0*%%SFA1B1*%%SFA1.0*%%SFB1.*%%SFA1.B1.000*%",
    ),
    (
        Command::RefusedOld(Style::Extended),
        b"%IPNEG*%%IP*%%IPPOSX*%%ASAYBX*%%AS*%%ASBYAX*%%ASAXBYX*%%IR*%%IR90*%%IR-0*%%IR+0*%%IR00*%%IR.0*%\
          %IR0.1*%%IR0.0.0*%%MI*%%MIA1B0*%%MIA0B1*%%MIB0A0*%%MIA0B*%%MIAB0*%%MIA0A0*%%MIA0B0X*%%OF*%\
          %OFA1*%%OFA-0*%%OFA0B0.5*%%OFX0*%%SF*%%SFA0B0*%%SFA1B2*%%SFA1.1*%%SFA01*%%SFA10*%%SFA+1B1*%",
    ),
];

/// Attributes and names, and what is no extended command.
pub const FREE: &[Said] = &[
    (
        Command::KeepText {
            name: FreeText::FileAttribute,
            text: b".x, a\n\xc3\xa9 ",
        },
        b"%TF.x, a\n\xc3\xa9 *%",
    ),
    (
        Command::KeepText {
            name: FreeText::ApertureAttribute,
            text: b"abc",
        },
        b"%TAabc*%",
    ),
    (
        Command::KeepText {
            name: FreeText::ObjectAttribute,
            text: b"abc",
        },
        b"%TOabc*%",
    ),
    (
        Command::KeepText {
            name: FreeText::DeleteAttribute,
            text: b"abc",
        },
        b"%TDabc*%",
    ),
    (
        Command::KeepText {
            name: FreeText::ImageName,
            text: b"abc",
        },
        b"%INabc*%",
    ),
    (
        Command::KeepText {
            name: FreeText::LoadName,
            text: b"abc",
        },
        b"%LNabc*%",
    ),
    (
        Command::KeepText {
            name: FreeText::DeleteAttribute,
            text: b"",
        },
        b"%TD*%% T D*\n%",
    ),
    (
        Command::KeepText {
            name: FreeText::ObjectAttribute,
            text: b" .N, a\tb",
        },
        b"%\nT\rO .N, a\tb*%",
    ),
    (
        Command::Unknown,
        b"%*%%F*%%M02*%%G01*%%D10*%%X1D01*%%fslax36y36*%%XX*%%TX*%%KO*%%LP*%%LPX*%%LPd*%%LPDC*%%LM*%\
          %LMYX*%%LMNX*%%LM0*%%LRabc*%%LR90D*%%LR,90*%%LSX*%%LS1,1*%%AB10*%%ABX*%%ABD10X*%%ABd10*%%SRA1*%\
          %SRY2X2*%%SRX2X2*%%SRX2Y2J1I1*%%SRXa*%%SRX2,Y2*%%SR2*%%FSLAX36Y36*MOMM*%%MOMM*FSLAX36Y36*%\
          %MOMM**%%LPD*LPC*%%ADD10C,1*ADD11C,2*%%SR*SR*%%AB*AB*%%IPPOS*OFA0B0*%%IPNEG**%%TF.x*TA.y*%%IN**%\
          %LR0*LR0*%",
    ),
];
