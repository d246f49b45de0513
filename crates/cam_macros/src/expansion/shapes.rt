//! Primitives from the values of their fields.

ghost use Rattle.std.specs.Prelude.{◌≡◌, ◌≤◌, length, unsigned_abs, IfOk, IfErr};
ghost use Rattle.cam_refusals.specs.Limits.{size_limit};
ghost use Rattle.cam_macros.specs.Answers.{IsUnlessMemory};
ghost use Rattle.cam_macros.specs.Expansion.{paint_of, rotation, coordinate_of, rotation_field, size_of, point_of};
ghost use Rattle.cam_macros.specs.Expansion.{outline_points, disc_of, bar_of, rect_of, count_of, outline_through};
ghost use Rattle.cam_macros.specs.Expansion.{outline_made, rect_turned};
ghost use Rattle.cam_macros.specs.Machinery.Values.{numbers};

use crate::expansion::arithmetic::{BILLION, Fixed};
use crate::fault::MacroFault;
use crate::primitive::{MacroPrimitive, Points, PrimShape};
use cam_refusals::limits::SIZE_LIMIT;
use cam_units::{Nm, Point, Turn, Unit, fix9_nm};
use std::alloc::Global;

/// One unit.
const UNIT: i64 = BILLION as i64;

/// 90 degrees.
const QUARTER: u64 = 90_000_000_000;

impl Fixed {
    /// Whether the primitive paints.
    fn paint(self) -> Result<bool, MacroFault>
        ensures { result ≡ paint_of self.billionths }
    {
        match self.billionths {
            0 => Ok(false),
            UNIT => Ok(true),
            _ => Err(MacroFault::Malformed),
        }
    }

    /// So many degrees counterclockwise.
    fn rotation(self) -> Result<Turn, MacroFault>
        ensures { result ≡ rotation self.billionths }
    {
        let degrees = self.billionths.unsigned_abs();
        if degrees % QUARTER != 0 {
            return Err(MacroFault::RotationRefused);
        }
        let quarters = degrees / QUARTER % 4;
        if quarters == 0 {
            return Ok(Turn::R0);
        }
        if quarters == 2 {
            return Ok(Turn::R180);
        }
        if (quarters == 1) == (self.billionths > 0) {
            return Ok(Turn::R90);
        }
        Ok(Turn::R270)
    }

    /// A diameter, side or width.
    fn size(self, unit: Unit) -> Result<Nm, MacroFault>
        ensures { result ≡ size_of unit self.billionths }
    {
        let length = fix9_nm(self.billionths, unit);
        if length.0 < 0 || length.0.unsigned_abs() > SIZE_LIMIT {
            return Err(MacroFault::SizeRefused);
        }
        Ok(length)
    }

    /// A coordinate.
    fn coordinate(self, unit: Unit) -> Result<Nm, MacroFault>
        ensures value { result ≡ coordinate_of unit self.billionths }
        ensures bound { IfOk result (λ length. unsigned_abs length.0 ≤ size_limit) }
    {
        let length = fix9_nm(self.billionths, unit);
        if length.0.unsigned_abs() > SIZE_LIMIT {
            return Err(MacroFault::SizeRefused);
        }
        Ok(length)
    }

    /// How many points an outline has.
    fn count(self) -> Result<usize, MacroFault>
        ensures value { result ≡ count_of self.billionths }
        ensures most { IfOk result (λ count. count ≤ 5000) }
    {
        let count = self.billionths.unsigned_abs() / BILLION;
        if self.billionths <= 0 || self.billionths.unsigned_abs() % BILLION != 0 || count > 5_000 {
            return Err(MacroFault::Malformed);
        }
        Ok(count as usize)
    }
}

/// The coordinates of a point, in 10^-9 units.
#[derive(Clone, Copy)]
struct Place {
    x: Fixed,
    y: Fixed,
}

impl Place {
    /// The point in nm, turned about the origin.
    fn point(self, unit: Unit, turn: Turn) -> Result<Point, MacroFault>
        ensures { result ≡ point_of unit turn self.x.billionths self.y.billionths }
    {
        let x = self.x.coordinate(unit)?;
        let y = self.y.coordinate(unit)?;
        Ok(turn.apply(Point { x: x.0, y: y.0 }))
    }
}

/// The rotation, which may be left out.
#[tactic(auto, using(crate::proofs::FieldLemmas::turn_short))]
fn turn(fields: &[Fixed]) -> Result<Turn, MacroFault>
    ensures { result ≡ rotation_field (numbers fields.now) }
{
    match fields {
        [] => Ok(Turn::R0),
        [degrees] => degrees.rotation(),
        _ => Err(MacroFault::Malformed),
    }
}

/// A disc: exposure, diameter, x, y [, rotation].
pub(crate) fn disc(unit: Unit, fields: &[Fixed]) -> Result<MacroPrimitive, MacroFault>
    ensures { result ≡ disc_of unit (numbers fields.now) }
{
    let [exposure, diameter, x, y, more @ ..] = fields else {
        return Err(MacroFault::Malformed);
    };
    let paint = exposure.paint()?;
    let turn = turn(more)?;
    let diameter = diameter.size(unit)?;
    let centre = Place { x: *x, y: *y }.point(unit, turn)?;
    Ok(MacroPrimitive {
        paint,
        shape: PrimShape::Disc { centre, diameter },
    })
}

/// A bar: exposure, width, x1, y1, x2, y2 [, rotation].
pub(crate) fn bar(unit: Unit, fields: &[Fixed]) -> Result<MacroPrimitive, MacroFault>
    ensures { result ≡ bar_of unit (numbers fields.now) }
{
    let [exposure, width, x1, y1, x2, y2, more @ ..] = fields else {
        return Err(MacroFault::Malformed);
    };
    let paint = exposure.paint()?;
    let turn = turn(more)?;
    let width = width.size(unit)?;
    let from = Place { x: *x1, y: *y1 }.point(unit, turn)?;
    let to = Place { x: *x2, y: *y2 }.point(unit, turn)?;
    Ok(MacroPrimitive {
        paint,
        shape: PrimShape::Bar { from, to, width },
    })
}

/// A rectangle: exposure, width, height, x, y [, rotation].
pub(crate) fn rect(unit: Unit, fields: &[Fixed]) -> Result<MacroPrimitive, MacroFault>
    ensures { result ≡ rect_of unit (numbers fields.now) }
{
    let [exposure, width, height, x, y, more @ ..] = fields else {
        return Err(MacroFault::Malformed);
    };
    let paint = exposure.paint()?;
    let turn = turn(more)?;
    let width = width.size(unit)?;
    let height = height.size(unit)?;
    let centre = Place { x: *x, y: *y }.point(unit, turn)?;
    Ok(MacroPrimitive {
        paint,
        shape: turned_rect(turn, centre, width, height),
    })
}

/// A rectangle, whose sides a quarter turn exchanges.
fn turned_rect(turn: Turn, centre: Point, width: Nm, height: Nm) -> PrimShape
    ensures { result ≡ rect_turned turn centre width height }
{
    match turn {
        Turn::R0 | Turn::R180 | Turn::M0 | Turn::M180 => PrimShape::Rect {
            centre,
            width,
            height,
        },
        Turn::R90 | Turn::R270 | Turn::M90 | Turn::M270 => PrimShape::Rect {
            centre,
            width: height,
            height: width,
        },
    }
}

/// An outline: exposure, n, n + 1 points [, rotation].
pub(crate) fn outline(
    alloc: Global,
    unit: Unit,
    fields: &[Fixed],
) -> Result<MacroPrimitive, MacroFault>
    ensures ok { IfOk result (λ prim. outline_made unit (numbers fields.now) ≡ Ok prim) }
    ensures fault { IfErr result (λ fault. IsUnlessMemory fault (outline_made unit (numbers fields.now))) }
{
    let [exposure, count, more @ ..] = fields else {
        return Err(MacroFault::Malformed);
    };
    let paint = exposure.paint()?;
    let count = count.count()?;
    outline_through(alloc, unit, Corners { paint, count }, more)
}

/// What an outline tells before its points.
#[derive(Clone, Copy)]
struct Corners {
    paint: bool,
    count: usize,
}

/// The outline of so many points and one more, behind which a rotation may stand.
fn outline_through(
    alloc: Global,
    unit: Unit,
    corners: Corners,
    fields: &[Fixed],
) -> Result<MacroPrimitive, MacroFault>
    requires { corners.count ≤ 5000 }
    ensures ok { IfOk result (λ prim.
        outline_through unit corners.paint corners.count (numbers fields.now) ≡ Ok prim) }
    ensures fault { IfErr result (λ fault.
        IsUnlessMemory fault (outline_through unit corners.paint corners.count (numbers fields.now))) }
{
    let Corners { paint, count } = corners;
    if fields.len() < 2 * count + 2 {
        return Err(MacroFault::Malformed);
    }
    let turn = turn(&fields[2 * count + 2..])?;
    let points = points(alloc, unit, turn, &fields[..2 * count])?;
    Ok(MacroPrimitive {
        paint,
        shape: PrimShape::Outline { points },
    })
}

/// The points whose coordinates follow one another.
fn points(alloc: Global, unit: Unit, turn: Turn, fields: &[Fixed]) -> Result<Points, MacroFault>
    ensures ok { IfOk result (λ points. outline_points unit turn (numbers fields.now) ≡ Ok points) }
    ensures fault { IfErr result (λ fault. IsUnlessMemory fault (outline_points unit turn (numbers fields.now))) }
{
    let mut points = Vec::new(alloc);
    let mut rest = fields;
    while let [x, y, more @ ..] = rest {
        points.push(Place { x: *x, y: *y }.point(unit, turn)?)?;
        rest = more;
    }
    Ok(Points::from_vec(points))
}
