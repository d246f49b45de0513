//! The word that was meant.

use cam_station::{ListedEntry, Name, Station};
use std::alloc::{AllocError, Global};

/// How many apertures or tools of a layer are looked at.
const MOST_ENTRIES: usize = 10_000;

/// How many bytes two words have in common at their beginnings, large letters as small ones.
fn same_at_start(one: &[u8], two: &[u8]) -> usize {
    let mut count = 0usize;
    for (a, b) in one.iter().zip(two.iter()) {
        if a.to_ascii_lowercase() != b.to_ascii_lowercase() {
            break;
        }
        count = count.saturating_add(1);
    }
    count
}

/// And at their ends.
fn same_at_end(one: &[u8], two: &[u8]) -> usize {
    let mut count = 0usize;
    for (a, b) in one.iter().rev().zip(two.iter().rev()) {
        if a.to_ascii_lowercase() != b.to_ascii_lowercase() {
            break;
        }
        count = count.saturating_add(1);
    }
    count
}

/// Whether two words have the same two bytes at a place, one behind the other and the other way round.
fn are_swapped(one: &[u8], two: &[u8], place: usize) -> bool {
    let next = place.saturating_add(1);
    one.len() == two.len() && one.get(place) == two.get(next) && one.get(next) == two.get(place)
}

/// How far two words are apart: how many bytes the longer one has between what both begin with and what both end with, two
/// that are swapped as one. `None` where that is more than two, or more than they have in common.
fn distance(one: &[u8], two: &[u8]) -> Option<usize> {
    let short = one.len().min(two.len());
    let start = same_at_start(one, two);
    let common = start.saturating_add(same_at_end(one, two)).min(short);
    let apart = match one.len().max(two.len()).saturating_sub(common) {
        2 if are_swapped(one, two, start) => 1,
        apart => apart,
    };
    if apart > 2 || apart > common {
        return None;
    }
    Some(apart)
}

/// The word of a text that is nearest to a wrong one, if one is near; a comma behind it is none of it.
pub fn nearest<'a>(words: &'a str, wrong: &str) -> Option<&'a str> {
    let mut found = None;
    let mut least = usize::MAX;
    for word in words.split_ascii_whitespace() {
        let word = word.strip_suffix(',').unwrap_or(word);
        if let Some(apart) = distance(word.as_bytes(), wrong.as_bytes())
            && apart < least
        {
            least = apart;
            found = Some(word);
        }
    }
    found
}

/// The names of all layers, with blanks between them.
fn names_of(alloc: Global, station: &Station) -> Result<String, AllocError> {
    let mut names = String::new(alloc);
    for layer in 0..station.layer_count() {
        if let Some(sheet) = station.layer(layer) {
            names.push_str(sheet.name.as_str())?;
            names.push_str(" ")?;
        }
    }
    Ok(names)
}

/// The number of an aperture, a block or a tool.
fn number_of(entry: &ListedEntry<'_>) -> u32 {
    match entry {
        ListedEntry::Numbered { number, .. } => *number,
        ListedEntry::Sized { tool, .. } => u32::from(*tool),
    }
}

/// The numbers of the apertures and blocks, or of the tools, of a layer, with blanks between them.
fn numbers_of(alloc: Global, station: &Station, layer: usize) -> Result<String, AllocError> {
    let mut numbers = String::new(alloc);
    for i in 0..MOST_ENTRIES {
        let Some(entry) = station.entry(layer, i) else {
            break;
        };
        let number = format!(in alloc; "{} ", number_of(&entry))?;
        numbers.push_str(number.as_str())?;
    }
    Ok(numbers)
}

/// Which word was meant, of these.
fn meant(alloc: Global, words: &str, wrong: &str) -> Result<Option<String>, AllocError> {
    match nearest(words, wrong) {
        Some(word) => Ok(Some(format!(in alloc; "did you mean {word}?")?)),
        None => Ok(None),
    }
}

/// Which layer was meant by a line whose layer is not there.
pub fn meant_layer(
    alloc: Global,
    line: &str,
    station: &Station,
) -> Result<Option<String>, AllocError> {
    let Some(wrong) = line.split_ascii_whitespace().nth(1) else {
        return Ok(None);
    };
    let names = names_of(alloc, station)?;
    meant(alloc, names.as_str(), wrong)
}

/// The layer of a line, and the word that names an aperture or a tool.
fn entry_named<'a>(line: &'a str) -> Option<(&'a str, &'a str)> {
    let mut words = line.split_ascii_whitespace();
    let place = match words.next()? {
        "insert" => 2,
        "diameter" => 0,
        _ => 1,
    };
    Some((words.next()?, words.nth(place)?))
}

/// Which aperture or tool was meant by a line whose is not there.
pub fn meant_entry(
    alloc: Global,
    line: &str,
    station: &Station,
) -> Result<Option<String>, AllocError> {
    let Some((name, wrong)) = entry_named(line) else {
        return Ok(None);
    };
    let name = Name::from_string(name.to_string(alloc)?);
    let Some(layer) = station.layer_place(&name) else {
        return Ok(None);
    };
    let numbers = numbers_of(alloc, station, layer)?;
    meant(alloc, numbers.as_str(), wrong)
}
