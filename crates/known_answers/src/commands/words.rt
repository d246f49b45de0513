//! Words, and the command that they say: worked out by hand.

use cam_commands::{Command, Mode, Style};
use cam_units::Unit;

/// A command, and a text of words that say it.
pub type Said = (Command<'static>, &'static [u8]);

/// Words.
pub const WORDS: &[Said] = &[
    (Command::SetMode(Mode::Linear), b"G01*G1*G001*G 0\t1\n*"),
    (Command::SetMode(Mode::Clockwise), b"G02*G2*"),
    (
        Command::SetMode(Mode::Counterclockwise),
        b"G03*G00000000000000000000003*",
    ),
    (Command::SingleQuadrant, b"G74*G074*"),
    (Command::MultiQuadrant, b"G75*G 7 5*"),
    (Command::BeginRegion, b"G36*G036*"),
    (Command::EndRegion, b"G37*G3\r\n7*"),
    (
        Command::SetUnit {
            unit: Unit::Inch,
            style: Style::Word,
        },
        b"G70*G070*",
    ),
    (
        Command::SetUnit {
            unit: Unit::Mm,
            style: Style::Word,
        },
        b"G71*G7 1*",
    ),
    (
        Command::Nothing,
        b"G90*G090** *G04*G4*G04 X1D01 % \xff*G4 c*G04,*",
    ),
    (
        Command::RefusedOld(Style::Word),
        b"G55*G055*G91*M00*M0*M01*M1*M 0 0 1*",
    ),
    (Command::End, b"M02*M2*M002*M 0 2*"),
    (
        Command::Select(Some(10)),
        b"D10*D010*G54D10*G054D0010*G 5 4 D 1 0*",
    ),
    (
        Command::Select(Some(2_147_483_647)),
        b"D2147483647*G54D2147483647*",
    ),
    (
        Command::Select(None),
        b"D2147483648*G54D2147483648*D18446744073709551626*",
    ),
    (
        Command::Unknown,
        b"G*G00*G05*G38*G92*G54*G54D*G54D9*G54D03*G54X1*G54D10X1*G36X1*G75D01*G70D10*G90X1D01*G55D10*\
          G01G02*G01M02*G+1*G1.*g01*M*M03*M30*M02X1*M2.*M-2*m02*D*D0*D04*D9*D5*D+10*D1.0*d10*D10D11*D10X1*\
          D01X1*X0Y0D10*X0Y0D4*X0D*X0D+1*X0D1.*G01D10*Y1X1*X1X1*X1Z1*X1J1I1*X1D01Y1*I1X1D01*x1D01*X1,Y1*\
          XaD01*X1e3D01*N10*Z1*1*-1*?*",
    ),
];
