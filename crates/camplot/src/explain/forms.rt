//! What does not fit a line of a script, word by word.

use cam_script::parse_line;
use std::alloc::Global;

/// The forms of lines and of their parts, as docs/formats.md has them: a row begins with what it is a form of.
const FORMS: &str = "\
LINE load NAME KIND PATH
LINE window X0 Y0 PITCH W H
LINE redraw N
LINE plot NAME PATH
LINE write NAME PATH
LINE insert NAME K ITEM
LINE delete NAME K
LINE move NAME K DX DY
LINE reorder NAME K M
LINE aperture NAME K N
LINE polarity NAME K POL
LINE tool NAME K T
LINE diameter NAME T D
LINE setattr NAME KEY [FIELDS]
LINE dropattr NAME KEY
LINE begin
LINE end
LINE abort
LINE undo
LINE redo
LINE list [NAME]
ITEM flash N X Y TURN POL
ITEM draw N X1 Y1 X2 Y2 TURN POL
ITEM arc N X1 Y1 X2 Y2 CX CY DIR POL
ITEM region POL X Y SEGMENT
ITEM hit T X Y
ITEM rout T X Y [X Y ..]
SEGMENT l X Y [SEGMENT]
SEGMENT cw X Y CX CY [SEGMENT]
SEGMENT ccw X Y CX CY [SEGMENT]";

/// The first words of all lines.
pub const COMMANDS: &str =
    "load window redraw plot write insert delete move reorder aperture polarity tool diameter \
setattr dropattr begin end abort undo redo list";

/// What may stand for the words of the forms: a row has them, a line that is accepted with such a word in place of `?`, and
/// what such a word is.
const WORDS: &str = "\
NAME = list ? = 1 to 32 letters, digits, _, - and .
PATH = write a ? = 1 to 255 bytes of ASCII
KIND = load a ? b = gerber or drill
X0 Y0 PITCH X Y X1 Y1 X2 Y2 CX CY DX DY D = window ? 0 1 1 1 = a whole number of nm, at most 4000000000
N K M T W H = redraw ? = a whole number without sign, at most 4294967295
POL = polarity a 0 ? = dark or clear
TURN = insert a 0 flash 10 0 0 ? dark = r0, r90, r180, r270, m0, m90, m180 or m270
DIR = insert a 0 arc 10 1 0 0 1 0 0 ? dark = cw or ccw
KEY = dropattr a ? = 1 to 255 bytes of ASCII but comma, % and *
FIELDS = setattr a b ? = 1 to 4096 bytes of ASCII but % and *
ITEM = = flash, draw, arc, region, hit or rout
SEGMENT = = l, cw or ccw";

/// The first thing that does not fit.
pub enum Misfit<'a> {
    /// The first word is no command.
    NoCommand {
        word: &'a str,
    },
    /// This word cannot stand where it stands in the form.
    Word {
        form: &'static str,
        place: &'static str,
        word: &'a str,
    },
    /// The line ends before this place of the form.
    Missing {
        form: &'static str,
        place: &'static str,
    },
    /// This word stands past the end of the form.
    Extra {
        form: &'static str,
        word: &'a str,
    },
}

/// The form of what a place stands for that begins with this word.
pub fn form_of(place: &str, word: &str) -> Option<&'static str> {
    for row in FORMS.lines() {
        if let Some((of, form)) = row.split_once(' ')
            && of == place
            && form.split_ascii_whitespace().next() == Some(word)
        {
            return Some(form);
        }
    }
    None
}

/// Whether a line begins with a command. One without a word does.
pub fn begins_with_command(line: &str) -> bool {
    match line.split_ascii_whitespace().next() {
        Some(word) => form_of("LINE", word).is_some(),
        None => true,
    }
}

/// A line to try a word of a place in, and what such a word is.
fn words_of(place: &str) -> Option<(&'static str, &'static str)> {
    for row in WORDS.lines() {
        if let Some((places, told)) = row.split_once(" =")
            && places.split_ascii_whitespace().any(|it| it == place)
        {
            return told.split_once("= ");
        }
    }
    None
}

/// What a word of a place is.
pub fn meaning(place: &str) -> &'static str {
    match words_of(place) {
        Some((_, meaning)) => meaning,
        None => "as docs/formats.md has it",
    }
}

/// Whether a word may stand at a place, as far as there is memory to try it.
pub fn fits(alloc: Global, place: &str, word: &str) -> bool {
    let Some((line, _)) = words_of(place) else {
        return false;
    };
    let Some((before, behind)) = line.split_once('?') else {
        return false;
    };
    match format!(in alloc; "{before}{word}{behind}") {
        // (taken by a call, what was read is not taken apart in the proof of this function)
        Ok(line) => parse_line(alloc, line.as_bytes()).err().is_none(),
        Err(_) => true,
    }
}

/// What does not fit in a line that says nothing. `None` where all words fit.
pub fn first_misfit<'a>(alloc: Global, line: &'a str) -> Option<Misfit<'a>> {
    let mut words = line.split_ascii_whitespace();
    let word = words.next()?;
    let Some(mut form) = form_of("LINE", word) else {
        return Some(Misfit::NoCommand { word });
    };
    let mut places = form.split_ascii_whitespace();
    places.next();
    for word in words {
        let Some(mut place) = places.next() else {
            return Some(Misfit::Extra { form, word });
        };
        if place == "..]" {
            places = "X Y ..]".split_ascii_whitespace();
            place = places.next()?;
        }
        // it stands in brackets where it may be left out
        let place = place.strip_prefix('[').unwrap_or(place);
        let place = place.strip_suffix(']').unwrap_or(place);
        if let Some(part) = form_of(place, word) {
            form = part;
            places = part.split_ascii_whitespace();
            places.next();
        } else if !fits(alloc, place, word) {
            return Some(Misfit::Word { form, place, word });
        }
    }
    let place = places.next()?;
    if place.starts_with('[') || place == "..]" {
        return None;
    }
    Some(Misfit::Missing { form, place })
}
