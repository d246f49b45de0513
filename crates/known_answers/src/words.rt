//! Texts and what they are cut into (Gerber Layer Format Specification, "Syntax").

use crate::tables::each;
use cam_words::{Kind, Word, Words};
use std::test::Fail;

/// A text, its words in order, and the number and the place of the fault behind them, where there is one.
struct Row {
    text: &'static [u8],
    words: &'static [(Kind, &'static [u8], usize)],
    fault: Option<(u8, usize)>,
}

const ROWS: &[Row] = &[
    Row {
        text: b"",
        words: &[],
        fault: None,
    },
    Row {
        text: b"G04 a % b*\r\n%FSLAX46Y46*%\n D10*%TF.x,\xc3\xa9* %G4 c*G41*",
        words: &[
            (Kind::Comment, b"G04 a % b", 0),
            (Kind::Extended, b"FSLAX46Y46", 13),
            (Kind::Plain, b"D10", 27),
            (Kind::Extended, b"TF.x,\xc3\xa9", 32),
            (Kind::Comment, b"G4 c", 42),
            (Kind::Plain, b"G41", 47),
        ],
        fault: None,
    },
    Row {
        text: b"%AMB*1,1,2,0,0*\n%*M02*\n",
        words: &[
            (Kind::Extended, b"AMB*1,1,2,0,0", 1),
            // the empty word
            (Kind::Plain, b"", 17),
            (Kind::Plain, b"M02", 18),
        ],
        fault: None,
    },
    Row {
        text: b"D10*\tX1%Y*D11*",
        words: &[(Kind::Plain, b"D10", 0)],
        fault: Some((1, 5)),
    },
    Row {
        text: b"%MO\x7fMM*%",
        words: &[],
        fault: Some((1, 0)),
    },
    Row {
        text: b"\nD10\xc3",
        words: &[],
        fault: Some((1, 1)),
    },
    Row {
        text: b"\nG04 % \xc3\xa9",
        words: &[],
        fault: Some((2, 1)),
    },
    Row {
        text: b" %MOMM%",
        words: &[],
        fault: Some((2, 1)),
    },
    Row {
        text: b"%MOMM*",
        words: &[],
        fault: Some((2, 0)),
    },
];

/// Whether the text is cut so, and gives nothing more behind that.
fn is_right(row: &Row) -> bool {
    let mut words = Words::new(row.text);
    for &(kind, text, at) in row.words {
        if words.next() != Some(Ok(Word { kind, text, at })) {
            return false;
        }
    }
    if let Some((number, at)) = row.fault {
        match words.next() {
            Some(Err(fault)) if fault.code.number() == number && fault.at == at => {}
            _ => return false,
        }
    }
    words.next().is_none() && words.next().is_none()
}

#[test]
fn cuttings() -> Result<(), Fail> {
    each(ROWS, is_right)
}
