//! Pictures without a black pixel.

use cam_station::{Line, LineFault, Station, parse_line};
use cam_units::Bounds;
use std::alloc::{AllocError, Global};

/// How far from (0, 0) a window may reach that is shown, in half nm.
const REACH: i64 = 1_990_000_000;

/// About how many pixels the longer side of a window has that is shown.
const PIXELS: u64 = 1000;

/// Whether a picture, a PBM file, has no black pixel.
pub fn is_white(picture: &[u8]) -> bool {
    match picture.splitn(3, |byte| *byte == b'\n').nth(2) {
        Some(rows) => rows.iter().all(|byte| *byte == 0),
        None => false,
    }
}

/// The box of the layer that a line plots, by what was read of the line.
fn bounds_of(read: &Result<Option<Line>, LineFault>, station: &Station) -> Option<Bounds> {
    match read {
        Ok(Some(Line::Plot { name, .. })) => station.bounds(station.layer_place(name)?),
        _ => None,
    }
}

/// The box of the layer that a line plots.
fn plotted(alloc: Global, line: &[u8], station: &Station) -> Option<Bounds> {
    let read = parse_line(alloc, line);
    let bounds = bounds_of(&read, station);
    // Dropped in a call, it is not taken apart in the proof of this function.
    drop(read);
    bounds
}

/// Half of a place, in nm, on the board.
fn on_board(place: i64) -> i64 {
    place.clamp(-REACH, REACH) / 2
}

/// Where the layer lies that a line plots, and a window that shows all of it.
pub fn where_it_lies(alloc: Global, line: &[u8], station: &Station) -> Result<String, AllocError> {
    let Some(Bounds::Closed { low, high }) = plotted(alloc, line, station) else {
        return String::from_str(alloc, "the layer paints nothing");
    };
    let (left, below) = (on_board(low.x), on_board(low.y));
    let (right, above) = (on_board(high.x), on_board(high.y));
    let (across, up) = (right.abs_diff(left), above.abs_diff(below));
    let pitch = across.max(up) / PIXELS + 1;
    let x = left.saturating_sub_unsigned(pitch);
    let y = below.saturating_sub_unsigned(pitch);
    let width = (across / pitch).saturating_add(3);
    let height = (up / pitch).saturating_add(3);
    format!(in alloc;
        "the layer lies from ({left}, {below}) to ({right}, {above}): window {x} {y} {pitch} {width} {height}"
    )
}
