//! Plays tables: lists of rows, and tables that are one text each.
//!
//! In such a text a line ends before a `|`, or with the text; one that begins with `#` is a note, and each other is a
//! row: numbers and words, each with a space behind it, and a text, or two with a `!` between them. One text is a small
//! term, and a list of as many rows a great one, which each proof about it carries.

use std::alloc::{AllocError, Global};
use std::fmt::Debug;
use std::str;
use std::test::Fail;

/// A table that is one text, and how many rows it has.
pub(crate) type Table = (&'static [u8], usize);

/// The rows of the table, in order.
fn rows_of(alloc: Global, table: &'static [u8]) -> Result<Vec<&'static [u8]>, AllocError> {
    let mut rows = Vec::new(alloc);
    for line in table.split(|byte| *byte == b'|') {
        if !line.starts_with(b"#") {
            rows.push(line)?;
        }
    }
    Ok(rows)
}

/// What a test fails with: a row, counted from 0, of a table of so many.
fn wrong_row(place: usize, count: usize) -> Fail {
    Fail::new(format_args!("row {place} of {count} is not right"))
}

/// Plays tables that are one text each: fails at the first row that is not right.
pub(crate) fn each_row<E: Debug + Drop, F: FnMut(Global, &[u8]) -> Result<bool, E>>(
    alloc: Global,
    tables: &[Table],
    mut is_right: F,
) -> Result<(), Fail>
    requires { F.IsAlwaysCallable is_right }
{
    for &(table, count) in tables {
        let rows = rows_of(alloc, table)?;
        if rows.len() != count {
            return Err(Fail::new(format_args!("{} rows for {count}", rows.len())));
        }
        for (place, &row) in rows.as_slice().iter().enumerate() {
            if !is_right(alloc, row)? {
                return Err(wrong_row(place, count));
            }
        }
    }
    Ok(())
}

/// Plays a table: fails at the first row that is not right.
pub(crate) fn each<T, F: FnMut(&T) -> bool>(rows: &[T], mut is_right: F) -> Result<(), Fail>
    requires { F.IsAlwaysCallable is_right }
{
    for (place, row) in rows.iter().enumerate() {
        if !is_right(row) {
            return Err(wrong_row(place, rows.len()));
        }
    }
    Ok(())
}

/// The same with a check that needs memory.
pub(crate) fn each_in<T, E: Debug + Drop, F: FnMut(Global, &T) -> Result<bool, E>>(
    alloc: Global,
    rows: &[T],
    mut is_right: F,
) -> Result<(), Fail>
    requires { F.IsAlwaysCallable is_right }
{
    for (place, row) in rows.iter().enumerate() {
        if !is_right(alloc, row)? {
            return Err(wrong_row(place, rows.len()));
        }
    }
    Ok(())
}

/// The texts before and behind the first of these bytes.
pub(crate) fn cut(text: &[u8], mark: u8) -> Option<(&[u8], &[u8])> {
    let mut parts = text.splitn(2, |byte| *byte == mark);
    Some((parts.next()?, parts.next()?))
}

/// A word, and the text behind it.
pub(crate) fn word(row: &[u8]) -> Option<(&[u8], &[u8])> {
    cut(row, b' ')
}

/// The texts before and behind the `!`.
pub(crate) fn two_texts(text: &[u8]) -> Option<(&[u8], &[u8])> {
    cut(text, b'!')
}

/// The whole number that the word is.
pub(crate) fn number_in(word: &[u8]) -> Option<i64> {
    str::from_utf8(word).ok()?.parse().ok()
}

/// A whole number, and the text behind it.
pub(crate) fn number(row: &[u8]) -> Option<(i64, &[u8])> {
    let (word, text) = word(row)?;
    Some((number_in(word)?, text))
}

/// A number of one byte, and the text behind it.
pub(crate) fn numbered(row: &[u8]) -> Option<(u8, &[u8])> {
    let (number, text) = number(row)?;
    Some((u8::try_from(number).ok()?, text))
}
