//! Why a line is bad.

use super::forms::{COMMANDS, Misfit, first_misfit, fits, form_of, meaning};
use super::near::nearest;
use super::shown;
use std::alloc::{AllocError, Global};

/// What a file is in place of a script, by a line of it that begins with no command.
pub fn other_file(line: &str) -> Option<&'static str> {
    let line = line.trim();
    if line.starts_with('%') || line.ends_with('%') || line.ends_with('*') {
        return Some("this is a Gerber file and no script: `load NAME gerber PATH` reads it");
    }
    if line == "M48" {
        return Some("this is a drill file and no script: `load NAME drill PATH` reads it");
    }
    None
}

/// What the bytes of a line show of how it was written.
fn cause(line: &str) -> Option<&'static str> {
    if line.starts_with('\u{feff}') {
        return Some("a byte order mark stands before it: save the script as UTF-8 without one");
    }
    if line.contains('\r') {
        return Some("a CR alone ends no line: save the script with LF or CR LF");
    }
    None
}

/// The words of which one may be meant at a place.
fn choice(place: &str) -> &'static str {
    match place {
        "LINE" => COMMANDS,
        "KIND" | "POL" | "TURN" | "DIR" | "ITEM" | "SEGMENT" => meaning(place),
        _ => "",
    }
}

/// Which word was meant, where one is near; the number of an aperture is meant by its name in a file.
fn meant(alloc: Global, place: &str, word: &str) -> Result<String, AllocError> {
    if let Some(number) = word.strip_prefix('D')
        && place == "N"
        && fits(alloc, place, number)
    {
        return format!(in alloc; ": did you mean {number}?");
    }
    match nearest(choice(place), word) {
        Some(near) => { format!(in alloc; ": did you mean {near}?") }
        None => Ok(String::new(alloc)),
    }
}

/// What else a word shows that does not fit at a place.
fn hint(alloc: Global, place: &str, word: &str) -> Result<String, AllocError> {
    if word.starts_with('#') {
        return String::from_str(alloc, ": a comment has a line of its own");
    }
    if word.contains('"') || word.contains('\'') {
        return String::from_str(alloc, ": a path has no quotation marks and no blanks");
    }
    let small = word.to_ascii_lowercase(alloc)?;
    let small = small.as_str();
    if small != word && (form_of(place, small).is_some() || fits(alloc, place, small)) {
        return String::from_str(alloc, ": write it in small letters");
    }
    if place == "PATH" {
        return String::from_str(alloc, ": a path has no blanks");
    }
    meant(alloc, place, word)
}

/// The misfit in words.
fn told(alloc: Global, misfit: Misfit<'_>) -> Result<String, AllocError> {
    match misfit {
        Misfit::NoCommand { word } => {
            let hint = hint(alloc, "LINE", word)?;
            let word = shown(alloc, word.as_bytes())?;
            let colon = if hint.as_str().ends_with('?') {
                ""
            } else {
                ":"
            };
            format!(in alloc;
                "no command is \"{word}\"{hint}{colon} camplot --help has all of them"
            )
        }
        Misfit::Word { form, place, word } => {
            let hint = hint(alloc, place, word)?;
            let word = shown(alloc, word.as_bytes())?;
            let meaning = meaning(place);
            format!(in alloc; "{form}: {place} is {meaning}, and \"{word}\" is not{hint}")
        }
        Misfit::Missing { form, place } => { format!(in alloc; "{form}: {place} is missing") }
        Misfit::Extra { form, word } => {
            let place = if form.ends_with("PATH") { "PATH" } else { "" };
            let hint = hint(alloc, place, word)?;
            let word = shown(alloc, word.as_bytes())?;
            format!(in alloc; "{form}: \"{word}\" is one word too many{hint}")
        }
    }
}

/// Why a line is bad. `None` where no reason shows.
pub fn why_bad(alloc: Global, line: &str) -> Result<Option<String>, AllocError> {
    if let Some(cause) = cause(line) {
        return Ok(Some(cause.to_string(alloc)?));
    }
    match first_misfit(alloc, line) {
        Some(misfit) => Ok(Some(told(alloc, misfit)?)),
        None => Ok(None),
    }
}
