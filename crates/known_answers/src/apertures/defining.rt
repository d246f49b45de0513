//! Texts behind AD, and what they define: worked out by hand.

use crate::tables::{number, two_texts, word};
use cam_units::Unit;

/// What a definition gives: the number of its fault, or an aperture, sizes in nm.
#[derive(Clone, Copy)]
pub enum Wanted {
    Fault(u8),
    Circle(i64, i64),
    Rect(i64, i64, i64),
    Obround(i64, i64, i64),
    /// One dark disc about the flash point, of a macro.
    Disc(i64),
}

/// A definition: the texts behind AM and AD, the unit, the number of the aperture, and what is wanted.
#[derive(Clone, Copy)]
pub struct Definition<'a> {
    pub macro_text: &'a [u8],
    pub text: &'a [u8],
    pub unit: Unit,
    pub number: u32,
    pub wanted: Wanted,
}

/// What a word and three numbers of a row want.
fn wanted_of(word: &[u8], [first, second, third]: [i64; 3]) -> Option<Wanted> {
    match word.first() {
        Some(b'f') => Some(Wanted::Fault(u8::try_from(first).ok()?)),
        Some(b'c') => Some(Wanted::Circle(first, second)),
        Some(b'r') => Some(Wanted::Rect(first, second, third)),
        Some(b'o') => Some(Wanted::Obround(first, second, third)),
        Some(b'd') => Some(Wanted::Disc(first)),
        _ => None,
    }
}

/// The unit that the word names.
fn unit_of(word: &[u8]) -> Option<Unit> {
    match word.first() {
        Some(b'm') => Some(Unit::Mm),
        Some(b'i') => Some(Unit::Inch),
        _ => None,
    }
}

/// Three numbers, and the text behind them.
fn three_numbers(row: &[u8]) -> Option<([i64; 3], &[u8])> {
    let (first, rest) = number(row)?;
    let (second, rest) = number(rest)?;
    let (third, text) = number(rest)?;
    Some(([first, second, third], text))
}

/// What a word and the numbers behind it want, and the text behind them.
fn wanted_by(row: &[u8]) -> Option<(Wanted, &[u8])> {
    let (word, rest) = word(row)?;
    let (numbers, text) = three_numbers(rest)?;
    Some((wanted_of(word, numbers)?, text))
}

/// The definition of a row.
pub fn definition_of(row: &[u8]) -> Option<Definition<'_>> {
    let (unit, rest) = word(row)?;
    let (aperture, rest) = number(rest)?;
    let (wanted, texts) = wanted_by(rest)?;
    let (macro_text, text) = two_texts(texts)?;
    Some(Definition {
        macro_text,
        text,
        unit: unit_of(unit)?,
        number: u32::try_from(aperture).ok()?,
        wanted,
    })
}

/// The unit, the number of the aperture, what is wanted and its numbers, and the texts behind AM and AD.
pub const DEFINITIONS: &[u8] = b"\
mm 10 circle 1000000 0 0 !D10C,1|\
mm 10 circle 1000000 500000 0 !D10C,1X0.5|\
mm 10 circle 1000000 0 0 !D10C,1X0|\
mm 10 circle 0 0 0 !D10C,0|\
mm 10 circle 200000000 0 0 !D10C,200|\
mm 10 circle 200000000 0 0 !D10C,200.0000004|\
mm 0 fault 24 0 0 !D10C,200.0000005|\
mm 10 circle 0 0 0 !D10C,-0.0000004|\
mm 0 fault 24 0 0 !D10C,-0.0000005|\
mm 0 fault 24 0 0 !D10C,1X-0.000001|\
mm 0 fault 24 0 0 !D10C,1X200.000001|\
inch 10 circle 2540000 0 0 !D10C,0.1|\
inch 10 circle 200000000 0 0 !D10C,7.874015748|\
inch 0 fault 24 0 0 !D10C,7.87401577|\
mm 10 circle 1000000 0 0 !D10C,1.0000004999|\
mm 10 rectangle 2000000 1000000 500000 !D10R,2X1X0.5|\
mm 10 rectangle 1 1000000 0 !D10R,0.000001X1|\
mm 0 fault 24 0 0 !D10R,0X1|\
mm 10 rectangle 1 1000000 0 !D10R,0.0000005X1|\
mm 0 fault 24 0 0 !D10R,0.0000004X1|\
mm 0 fault 24 0 0 !D10R,1X200.000001|\
mm 10 obround 2000000 1000000 0 !D10O,2X1|\
mm 10 obround 2000000 1000000 500000 !D10O,2X1X0.5|\
mm 2147483647 circle 1000000 0 0 !D2147483647C,1|\
mm 0 fault 4 0 0 !D2147483648C,1|\
mm 0 fault 4 0 0 !D9C,1|\
mm 10 circle 1000000 0 0 !D010C,1|\
mm 0 fault 4 0 0 !D+10C,1|\
mm 0 fault 4 0 0 !DC,1|\
mm 0 fault 3 0 0 !D10|\
mm 0 fault 3 0 0 !D10,1|\
mm 0 fault 3 0 0 !C,1|\
mm 0 fault 3 0 0 !|\
mm 0 fault 4 0 0 !D10C|\
mm 0 fault 4 0 0 !D10C,|\
mm 0 fault 4 0 0 !D10C,1X|\
mm 0 fault 4 0 0 !D10C,1.2.3|\
mm 0 fault 4 0 0 !D10C,.|\
mm 10 circle 500000 0 0 !D10C,.5|\
mm 10 circle 5000000 0 0 !D10C,5.|\
mm 0 fault 24 0 0 !D10C,999999.9|\
mm 0 fault 4 0 0 !D10C,1000000|\
mm 0 fault 11 0 0 !D10C,1X0.5X0.5|\
mm 0 fault 4 0 0 !D10R,2|\
mm 0 fault 11 0 0 !D10R,2X1X0.5X0.5|\
mm 0 fault 4 0 0 !D10O,2|\
mm 0 fault 11 0 0 !D10P,1X5|\
mm 0 fault 4 0 0 !D10P,|\
mm 0 fault 11 0 0 !D10NONE,1|\
mm 0 fault 11 0 0 !D10NONE|\
mm 0 fault 3 0 0 !D10NONE,1x2|\
mm 0 fault 3 0 0 !D10C,abc|\
mm 0 fault 3 0 0 !D10C,1,2|\
mm 0 fault 3 0 0 !D5C,abc|\
mm 0 fault 4 0 0 !D5C,-1|\
mm 0 fault 4 0 0 !D5P,1|\
mm 0 fault 11 0 0 !D10C,-1X1X1|\
mm 10 disc 1000000 0 0 M1*1,1,$1,0,0!D10M1,1|\
mm 10 disc 0 0 0 M1*1,1,$1,0,0!D10M1|\
mm 10 disc 1000000 0 0 M1*1,1,$1,0,0!D 1 0 M 1 , 1|\
mm 0 fault 24 0 0 M1*1,1,$1,0,0!D10M1,-1|\
mm 0 fault 24 0 0 M1*1,1,$1,0,0!D10M1,200.000001|\
mm 0 fault 12 0 0 MU*5,1,8,0,0,1,0!D10MU|\
mm 0 fault 13 0 0 MR*21,1,2,1,0,0,45!D10MR|\
mm 0 fault 24 0 0 MS*1,1,$1,201,0!D10MS,1|\
mm 0 fault 29 0 0 MF*1,2,1,0,0!D10MF|\
mm 0 fault 29 0 0 ME*1,2,1,0,0*5,1!D10ME|\
mm 0 fault 4 0 0 MU*5,1,8,0,0,1,0!D5MU|\
mm 0 fault 4 0 0 M1*1,1,$1,0,0!D10M1,1X|\
mm 10 circle 1000000 0 0 C*1,1,1,0,0!D10C,1|\
mm 0 fault 11 0 0 P*1,1,1,0,0!D10P,1|\
mm 10 disc 1000000 0 0 .abc*1,1,1,0,0!D10.abc|\
mm 10 disc 1000000 0 0 .5C*1,1,$1,0,0!D10.5C,1|\
mm 10 disc 1000000 0 0 -$_+1*1,1,$1,0,0!D10-$_+1,1|\
mm 0 fault 11 0 0 !D10.5C,1|\
mm 0 fault 4 0 0 !D-10C,1";

/// The text behind AD, and the number that it defines.
pub const NUMBERS: &[(&[u8], Option<u32>)] = &[
    (b"D10C,1", Some(10)),
    (b"D10NONE,1", Some(10)),
    (b"D10C,-", Some(10)),
    (b"D10.5C,1", Some(10)),
    (b"D9C,1", None),
    (b"D-10C,1", None),
    (b"D10C,abc", None),
    (b"D10", None),
];
