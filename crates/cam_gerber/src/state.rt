//! The graphics state.

ghost use Rattle.std.specs.Prelude.{◌≡◌, ◌≤◌, ◌<◌, ◌^◌, true, ◌+ℤ◌, Some, None, unsigned_abs};
ghost use Rattle.std.specs.Prelude.{MatchOption, IfOk};
ghost use Rattle.cam_objects.specs.Turning.{after};
ghost use Rattle.cam_gerber.specs.Faults.{has_any_coordinate, has_malformed, is_arc, is_malformed};
ghost use Rattle.cam_objects.specs.Soundness.{is_on_board};
ghost use Rattle.cam_gerber.specs.Faults.{is_same_point, is_written, lacks_code, leading_faults, path_faults};
ghost use Rattle.cam_shapes.specs.declared.segments.Seg.TheVariants.{Curve};
ghost use Rattle.cam_gerber.specs.Making.{segment};
ghost use Rattle.cam_gerber.specs.State.{Past, code_of, decimals_of};
ghost use Rattle.cam_gerber.specs.Machinery.Tracking.{IsJudged, IsOperated, StopsAtFirst, TracksModal, centre_by};
ghost use Rattle.cam_gerber.specs.Machinery.Tracking.{mode_by, moved, moved_point, path_faults_by, stroke_along};
ghost use Rattle.cam_refusals.specs.Checks.{first_holding};

use crate::modal::Modal;
use cam_commands::{Mode, Operation, OperationCode, Slot};
use cam_objects::Object;
use cam_refusals::Refusal;
use cam_shapes::Seg;
use cam_units::{Nm, Point, Turn, Unit, coord_nm, fits_board};

fn is_on_board(point: Point) -> bool
    ensures { result ≡ is_on_board point }
{
    fits_board(point)
}

fn is_same_point(p: Point, q: Point) -> bool
    ensures { result ≡ is_same_point p q }
{
    p == q
}

/// The sum of a coordinate of the board and an offset.
fn plus(from: Nm, offset: Nm) -> Nm
    requires from { unsigned_abs from.0 < 10 ^ 9 }
    requires offset { unsigned_abs offset.0 < 10 ^ 18 }
    ensures { result.0 ≡ from.0 +ℤ offset.0 }
{
    Nm(from.0 + offset.0)
}

/// Whether the number does not fit its grammar.
pub(crate) fn is_malformed<T>(slot: &Slot<T>) -> bool
    ensures { result ≡ is_malformed slot.now }
{
    matches!(slot, Slot::Malformed)
}

fn is_written(slot: Slot<i64>) -> bool
    ensures { result ≡ is_written slot }
{
    !matches!(slot, Slot::Omitted)
}

/// Whether a number of the operation does not fit its grammar.
fn has_malformed(operation: &Operation) -> bool
    ensures { result ≡ has_malformed operation.now }
{
    is_malformed(&operation.x)
        || is_malformed(&operation.y)
        || is_malformed(&operation.i)
        || is_malformed(&operation.j)
}

/// Whether the operation writes a coordinate.
fn has_any_coordinate(operation: &Operation) -> bool
    ensures { result ≡ has_any_coordinate operation.now }
{
    is_written(operation.x)
        || is_written(operation.y)
        || is_written(operation.i)
        || is_written(operation.j)
}

/// What the operation does; coordinates alone plot.
pub fn code_of(operation: &Operation) -> OperationCode
    ensures { result ≡ code_of operation.now }
{
    operation.code.unwrap_or(OperationCode::Plot)
}

impl Modal {
    fn decimals(&self) -> u32
        ensures value { result ≡ decimals_of self.now.format }
        ensures short { result ≤ 6 }
    {
        match self.format {
            None => 0,
            Some(format) => u32::from(format.decimals),
        }
    }

    /// The coordinate, in nm, that a slot leaves; `None` where it is 10^18 nm or more in absolute value.
    #[tactic(auto, unfolding(crate::specs::State::coordinate_nm))]
    fn moved(&self, slot: Slot<i64>, old: Nm) -> Option<Nm>
        requires { unsigned_abs old.0 < 10 ^ 18 }
        ensures { let new_is = moved self.now.format self.now.unit slot old.0 in MatchOption result
            (10 ^ 18 ≤ unsigned_abs new_is)
            (λ new. (new.0 ≡ new_is) × (unsigned_abs new.0 < 10 ^ 18)) }
    {
        match slot {
            Slot::Omitted | Slot::Malformed => Some(old),
            Slot::Written(n) => coord_nm(n, self.decimals(), self.unit.unwrap_or(Unit::Mm)),
        }
    }

    /// The point that an operation leaves, if it lies on the board.
    pub fn moved_point(&self, operation: &Operation) -> Option<Point>
        ensures { IsJudged result (moved_point self.now operation.now) }
    {
        let x = self.moved(operation.x, Nm(self.point.x))?;
        let y = self.moved(operation.y, Nm(self.point.y))?;
        let to = Point { x: x.0, y: y.0 };
        if is_on_board(to) { Some(to) } else { None }
    }

    /// The centre of the operation's arc, if it lies on the board.
    fn centre(&self, operation: &Operation) -> Option<Point>
        ensures { IsJudged result (centre_by self.now operation.now) }
    {
        let i = self.moved(operation.i, Nm(0))?;
        let j = self.moved(operation.j, Nm(0))?;
        let centre = Point {
            x: plus(Nm(self.point.x), i).0,
            y: plus(Nm(self.point.y), j).0,
        };
        if is_on_board(centre) {
            Some(centre)
        } else {
            None
        }
    }

    /// Whether coordinates stand alone, and the last operation was no plot.
    fn lacks_code(&self, operation: &Operation) -> bool
        ensures { (past : Past) → TracksModal past self.now → result ≡ lacks_code past operation.now }
    {
        operation.code.is_none() && self.code != Some(OperationCode::Plot)
    }

    /// What any operation may be refused for.
    pub fn leading_fault(&self, operation: &Operation) -> Option<Refusal>
        ensures { (past : Past) → TracksModal past self.now
            → result ≡ first_holding (leading_faults past operation.now) }
    {
        if self.lacks_code(operation) {
            return Some(Refusal::UnknownCommand);
        }
        if has_malformed(operation) {
            return Some(Refusal::BadNumber);
        }
        if !has_any_coordinate(operation) {
            return None;
        }
        if self.format.is_none() {
            return Some(Refusal::NoFormat);
        }
        if self.unit.is_none() {
            return Some(Refusal::NoUnit);
        }
        None
    }

    /// Whether the operation goes along an arc.
    pub fn is_arc(&self, operation: &Operation) -> bool
        ensures { result ≡ is_arc (mode_by self.now operation.now) }
    {
        match operation.mode.unwrap_or(self.mode) {
            Mode::Linear => false,
            Mode::Clockwise | Mode::Counterclockwise => true,
        }
    }

    /// The arc to the point of the operation.
    fn arc(&self, operation: &Operation, ccw: bool) -> Result<Seg, Refusal>
        ensures ok { IfOk result (λ seg. seg
            ≡ Curve (moved_point self.now operation.now) (centre_by self.now operation.now) ccw) }
        ensures on_board { IfOk result (λ seg. is_on_board (moved_point self.now operation.now) ≡ true) }
        ensures faults { StopsAtFirst result
            (path_faults true self.now.arcs self.now.point
            (moved_point self.now operation.now) (centre_by self.now operation.now)) }
    {
        if !self.arcs {
            return Err(Refusal::ArcMode);
        }
        let Some(centre) = self.centre(operation) else {
            return Err(Refusal::OutOfBoard);
        };
        if is_same_point(self.point, centre) {
            return Err(Refusal::ZeroRadius);
        }
        let Some(to) = self.moved_point(operation) else {
            return Err(Refusal::OutOfBoard);
        };
        Ok(Seg::Curve { to, centre, ccw })
    }

    /// The line or the arc that is plotted.
    pub fn path(&self, operation: &Operation) -> Result<Seg, Refusal>
        ensures ok { IfOk result (λ seg. seg
            ≡ segment (mode_by self.now operation.now) (moved_point self.now operation.now)
            (centre_by self.now operation.now)) }
        ensures on_board { IfOk result (λ seg. is_on_board (moved_point self.now operation.now) ≡ true) }
        ensures faults { StopsAtFirst result (path_faults_by self.now operation.now) }
    {
        match operation.mode.unwrap_or(self.mode) {
            Mode::Linear => match self.moved_point(operation) {
                Some(to) => Ok(Seg::Line { to }),
                None => Err(Refusal::OutOfBoard),
            },
            Mode::Clockwise => self.arc(operation, false),
            Mode::Counterclockwise => self.arc(operation, true),
        }
    }

    /// Apertures are first mirrored, then rotated.
    pub fn turn(&self) -> Turn
        ensures { result ≡ after self.now.mirror self.now.rotation }
    {
        self.mirror.then(self.rotation)
    }

    /// The stroke of an aperture along a segment from the current point.
    pub fn stroke(&self, aperture: u32, seg: Seg) -> Object
        ensures { result ≡ stroke_along self.now aperture seg }
    {
        match seg {
            Seg::Line { to } => Object::Draw {
                aperture,
                from: self.point,
                to,
                turn: self.turn(),
                dark: self.dark,
            },
            Seg::Curve { to, centre, ccw } => Object::Arc {
                ccw,
                dark: self.dark,
                aperture,
                from: self.point,
                to,
                centre,
            },
        }
    }

    /// The operation went to a point.
    pub fn operated(&mut self, operation: &Operation, to: Point)
        requires { is_on_board to ≡ true }
        ensures { IsOperated self.old operation.now to self.new }
    {
        self.mode = operation.mode.unwrap_or(self.mode);
        self.code = Some(code_of(operation));
        self.point = to;
    }
}
