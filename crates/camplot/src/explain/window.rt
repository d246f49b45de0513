//! Which number of a window is out of range, and by how much.

use std::alloc::{AllocError, Global};

/// How many pixels a side may have, and how many nm a pitch.
const MOST_PIXELS: i64 = 32_768;

const MOST_PITCH: i64 = 100_000_000;

/// How far from (0, 0) the centre of no pixel may lie, in half nm.
const REACH: i64 = 2_000_000_000;

/// The numbers of a window, in the order of its line.
#[derive(Clone, Copy)]
struct Numbers {
    x: i64,
    y: i64,
    pitch: i64,
    width: i64,
    height: i64,
}

fn numbers_of(line: &str) -> Option<Numbers> {
    let mut words = line.split_ascii_whitespace();
    if words.next()? != "window" {
        return None;
    }
    Some(Numbers {
        x: words.next()?.parse().ok()?,
        y: words.next()?.parse().ok()?,
        pitch: words.next()?.parse().ok()?,
        width: words.next()?.parse().ok()?,
        height: words.next()?.parse().ok()?,
    })
}

/// A number that may be from 1 to `most`, and how far it is from that.
fn out_of(
    alloc: Global,
    name: &str,
    unit: &str,
    number: i64,
    most: i64,
) -> Result<Option<String>, AllocError> {
    if number < 1 {
        let text = format!(in alloc; "{name} is {number}, and has to be at least 1")?;
        return Ok(Some(text));
    }
    if number > most {
        let over = number.saturating_sub(most);
        let text = format!(in alloc;
            "{name} is {number}, {over} {unit} more than the {most} that it may be"
        )?;
        return Ok(Some(text));
    }
    Ok(None)
}

/// How many nm the pixels of a side lie too far up, or too far down if that is negative; 0 if they lie on the board.
fn astray(from: i64, pitch: i64, count: i64) -> i64 {
    let first = from.saturating_mul(2).saturating_add(pitch);
    let all = pitch
        .saturating_mul(2)
        .saturating_mul(count.saturating_sub(1));
    let last = first.saturating_add(all);
    if last >= REACH {
        return last
            .saturating_sub(REACH)
            .saturating_div(2)
            .saturating_add(1);
    }
    if first <= -REACH {
        let below = REACH.saturating_add(first).saturating_div(2);
        return below.saturating_sub(1);
    }
    0
}

/// A side's first number whose pixels lie too far from (0, 0).
fn off_board(
    alloc: Global,
    name: &str,
    from: i64,
    by: i64,
    ways: (&str, &str),
) -> Result<Option<String>, AllocError> {
    if by == 0 {
        return Ok(None);
    }
    let (way, sign) = if by > 0 {
        (ways.1, "much")
    } else {
        (ways.0, "little")
    };
    let far = by.unsigned_abs();
    let text = format!(in alloc;
        "{name} is {from}, {far} nm too {sign}: the centres of the {way} pixels lie 1 m or more from (0, 0)"
    )?;
    Ok(Some(text))
}

/// What of a window's line is out of range; `None` where nothing is seen to be.
pub fn why_out(alloc: Global, line: &str) -> Result<Option<String>, AllocError> {
    let Some(it) = numbers_of(line) else {
        return Ok(None);
    };
    if let Some(text) = out_of(alloc, "W", "pixels", it.width, MOST_PIXELS)? {
        return Ok(Some(text));
    }
    if let Some(text) = out_of(alloc, "H", "pixels", it.height, MOST_PIXELS)? {
        return Ok(Some(text));
    }
    if let Some(text) = out_of(alloc, "PITCH", "nm", it.pitch, MOST_PITCH)? {
        return Ok(Some(text));
    }
    let x = astray(it.x, it.pitch, it.width);
    if let Some(text) = off_board(alloc, "X0", it.x, x, ("leftmost", "rightmost"))? {
        return Ok(Some(text));
    }
    let y = astray(it.y, it.pitch, it.height);
    off_board(alloc, "Y0", it.y, y, ("lowest", "topmost"))
}
