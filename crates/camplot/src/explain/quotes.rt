//! Quotation marks in words that are taken as they are.

use std::str;

/// What is told of an accepted line that writes a file or sets an attribute, where a word of it begins with a quotation mark.
pub fn quoted(line: &[u8]) -> Option<&'static str> {
    let line = str::from_utf8(line).ok()?;
    if !line.contains('"') && !line.contains('\'') {
        return None;
    }
    let mut words = line.split_ascii_whitespace();
    let told = match words.next()? {
        "plot" | "write" => {
            "ok, with the quotation marks in the name of the file: write the path without them"
        }
        "setattr" => "ok, with the quotation marks in the attribute: write its words without them",
        _ => return None,
    };
    let is_quoted = words.any(|word| word.starts_with('"') || word.starts_with('\''));
    is_quoted.then_some(told)
}
