//! The insides of contours in the rows of a tile, or of tiles side by side: each segment is counted once for all of them,
//! by marks that turn over the columns left of them.

ghost use Rattle.std.specs.Prelude.{◌≡◌, ◌≢◌, ◌↔◌, ◌-◌, ◌<◌, ◌≤◌, ℕ, IsTrue, length};
ghost use Rattle.cam_units.specs.Board.{IsOnBoard};
ghost use Rattle.cam_units.specs.declared.point.Spot.{Spot};
ghost use Rattle.cam_shapes.specs.Cap.{IsSoundCap, is_in_cap};
ghost use Rattle.cam_shapes.specs.Contour.{IsSoundSeg};
ghost use Rattle.cam_shapes.specs.Edge.{crosses_ray, edge, is_above};
ghost use Rattle.cam_shapes.specs.Sides.{changes_side};
ghost use Rattle.cam_tiles.specs.Machinery.Levels.{IsOnRow, levels_of};
ghost use Rattle.cam_tiles.specs.Machinery.Masks.{IsWithin};
ghost use Rattle.cam_tiles.specs.Machinery.Turning.{AreWide, TurnsCentres};

use crate::masks::field::Field;
use crate::masks::heights::{HasHeights, crossed_heights};
use crate::masks::marks::{mark_column, mark_ends, mark_runs};
use cam_rows::{Centres, cap_runs, edge_runs};
use cam_shapes::{Cap, Seg};
use cam_units::Point;

/// Counts what a segment from a point changes.
#[inline]
pub(crate) fn turn_segment(marks: &mut [u64], field: &Field, here: Point, seg: Seg)
    requires wide { AreWide field.now.columns marks.old }
    requires here { IsOnBoard here }
    requires seg { IsSoundSeg seg }
    ensures { TurnsCentres field.now (λ s. IsTrue (changes_side s here seg)) marks.old marks.new }
{
    match seg {
        Seg::Line { to } => turn_line(marks, field, here, to),
        Seg::Curve { to, centre, ccw } => {
            let cap = Cap {
                from: here,
                to,
                centre,
                ccw,
            };
            turn_line(marks, field, here, to);
            turn_cap(marks, field, &cap);
        }
    }
}

/// Counts a line: most of a long contour are passed over by their heights alone.
#[inline]
pub(crate) fn turn_line(marks: &mut [u64], field: &Field, from: Point, to: Point)
    requires wide { AreWide field.now.columns marks.old }
    requires from { IsOnBoard from }
    requires to { IsOnBoard to }
    ensures { TurnsCentres field.now (λ s. IsTrue (crosses_ray s (edge from to))) marks.old marks.new }
{
    if crossed_heights(from, to).are_apart(field.rows) {
        return;
    }
    turn_edge(marks, field, from, to);
}

/// Counts an edge: in each row that it crosses by one mark, where it does not lie left of all columns.
pub(crate) fn turn_edge(marks: &mut [u64], field: &Field, from: Point, to: Point)
    requires wide { AreWide field.now.columns marks.old }
    requires from { IsOnBoard from }
    requires to { IsOnBoard to }
    ensures { TurnsCentres field.now (λ s. IsTrue (crosses_ray s (edge from to))) marks.old marks.new }
{
    if 2 * from.x.max(to.x) <= field.grid.x {
        return;
    }
    let band = field.grid.levels().band(crossed_heights(from, to));
    if band.end <= band.first {
        return;
    }
    let mut ends = [0u32; 64];
    let ends = &mut ends[..(band.end - band.first) as usize];
    let top = Centres {
        x: field.grid.x,
        y: field.grid.levels().height(band.first),
        step: field.grid.step,
        n: field.columns,
    };
    match edge_runs(from, to, &top, ends) {
        Some(end) => mark_column(marks, band.first, ends.len(), end),
        None => mark_ends(marks, band.first, ends),
    }
}

/// Counts a cap: in each row that it may reach by its run.
fn turn_cap(marks: &mut [u64], field: &Field, cap: &Cap)
    requires wide { AreWide field.now.columns marks.old }
    requires cap { IsSoundCap cap.now }
    ensures { TurnsCentres field.now (λ s. IsTrue (is_in_cap s cap.now)) marks.old marks.new }
{
    let band = field.grid.levels().band(cap.heights());
    if band.end <= band.first {
        return;
    }
    let mut firsts = [0u32; 64];
    let mut ends = [0u32; 64];
    let firsts = &mut firsts[..(band.end - band.first) as usize];
    let ends = &mut ends[..(band.end - band.first) as usize];
    let top = Centres {
        x: field.grid.x,
        y: field.grid.levels().height(band.first),
        step: field.grid.step,
        n: field.columns,
    };
    cap_runs(cap, &top, firsts, ends);
    mark_runs(marks, band.first, firsts, ends);
}
