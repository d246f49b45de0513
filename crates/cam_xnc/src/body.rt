//! Lines of the body.

ghost use Rattle.std.specs.Prelude.{◌≡◌, ◌+◌, ◌≤◌, ◌||◌, false, IfNone};
ghost use Rattle.cam_xnc.specs.declared.statement.Statement.TheVariants as statement;
ghost use Rattle.cam_xnc.specs.DrillState.{DrillPast, drill_mode_in};
ghost use Rattle.cam_refusals.specs.Checks.{first_holding};
ghost use Rattle.cam_refusals.specs.Limits.{leaf_limit};
ghost use Rattle.cam_xnc.specs.Faults.{body_checks, cut_checks, drilled_checks, is_lowered};
ghost use Rattle.cam_xnc.specs.Faults.{is_malformed_coordinate, is_pointless, is_too_much};
ghost use Rattle.cam_objects.specs.Soundness.{is_on_board};
ghost use Rattle.cam_xnc.specs.Machinery.Tracking.{Obeys, Tracks, moved, moved_point};

use crate::modes::Mode;
use crate::state::DrillState;
use crate::statement::{Coordinate, Statement};
use cam_objects::{DrillItem, Points};
use cam_refusals::limits::{COUNT_LIMIT, LEAF_LIMIT};
use cam_refusals::{Refusal, Stop};
use cam_units::{Nm, Point, Unit, fits_board, fix9_nm};
use std::mem;

fn is_lowered(mode: Mode) -> bool
    ensures { result ≡ is_lowered mode }
{
    matches!(mode, Mode::Lowered)
}

fn are_malformed(x: Coordinate, y: Coordinate) -> bool
    ensures { result ≡ (is_malformed_coordinate x || is_malformed_coordinate y) }
{
    matches!(x, Coordinate::Malformed) || matches!(y, Coordinate::Malformed)
}

fn are_pointless(x: Coordinate, y: Coordinate) -> bool
    ensures { result ≡ (is_pointless x || is_pointless y) }
{
    matches!(x, Coordinate::Pointless) || matches!(y, Coordinate::Pointless)
}

/// The coordinate that a line leaves, in nm; before the unit lengths are as in mm.
#[tactic(auto, unfolding(crate::specs::DrillState::length_nm))]
fn moved(unit: Option<Unit>, coordinate: Coordinate, old: Nm) -> Nm
    ensures { result.0 ≡ moved unit coordinate old.0 }
{
    match coordinate {
        Coordinate::Omitted | Coordinate::Malformed | Coordinate::Pointless => old,
        Coordinate::Written(n) => fix9_nm(n, unit.unwrap_or(Unit::Mm)),
    }
}

/// The point that a line leaves.
fn moved_point(unit: Option<Unit>, x: Coordinate, y: Coordinate, from: Point) -> Point
    ensures { result ≡ moved_point unit x y from }
{
    Point {
        x: moved(unit, x, Nm(from.x)).0,
        y: moved(unit, y, Nm(from.y)).0,
    }
}

fn is_on_board(point: Point) -> bool
    ensures { result ≡ is_on_board point }
{
    fits_board(point)
}

impl DrillState {
    /// Whether the layer with one item more, of so many holes and slots, is past a limit.
    fn is_too_much(&self, more: usize) -> bool
        ensures past { (past : DrillPast) → Tracks past self.now → result ≡ is_too_much past more }
        ensures room { result ≡ false → self.now.leaves + more ≤ leaf_limit }
    {
        self.layer.items.len() >= COUNT_LIMIT
            || self.leaves.saturating_add(more) > LEAF_LIMIT as usize
    }

    fn select(&mut self, number: Option<u16>) -> Result<(), Stop>
        ensures { Obeys body_checks (statement.Select number) self.old result self.new }
    {
        let Some(number) = number else {
            return Err(Stop::Fault(Refusal::BadNumber));
        };
        if number != 0 && self.layer.tools.get(number).is_none() {
            return Err(Stop::Fault(Refusal::UnknownTool));
        }
        if is_lowered(self.mode) {
            return Err(Stop::Fault(Refusal::RoutState));
        }
        self.tool = if number == 0 { None } else { Some(number) };
        Ok(())
    }

    /// The fault of a hit or a slot, by what is wrong with its coordinates and its points.
    fn drilled_fault(&self, malformed: bool, pointless: bool, off: bool) -> Option<Refusal>
        ensures first { (past : DrillPast) → Tracks past self.now
            → result ≡ first_holding (drilled_checks past malformed pointless off 1 (drill_mode_in past)) }
        ensures room { IfNone result (self.now.leaves + 1 ≤ leaf_limit) }
    {
        let drilling = matches!(self.mode, Mode::Drilling);
        if malformed {
            Some(Refusal::BadNumber)
        } else if off {
            Some(Refusal::OutOfBoard)
        } else if drilling && self.is_too_much(1) {
            Some(Refusal::TooMuch)
        } else if self.tool.is_none() {
            Some(Refusal::NoToolSelected)
        } else if pointless {
            Some(Refusal::NoPoint)
        } else if drilling {
            None
        } else {
            Some(Refusal::RoutState)
        }
    }

    fn hit_at(&mut self, x: Coordinate, y: Coordinate) -> Result<(), Stop>
        ensures { Obeys body_checks (statement.HitAt x y) self.old result self.new }
    {
        let at = moved_point(self.unit, x, y, self.at);
        let malformed = are_malformed(x, y);
        let pointless = are_pointless(x, y);
        if let Some(code) = self.drilled_fault(malformed, pointless, !is_on_board(at)) {
            return Err(Stop::Fault(code));
        }
        let tool = self.tool.unwrap_or(0);
        self.layer.items.push(DrillItem::Hit { tool, at })?;
        self.leaves += 1;
        self.at = at;
        Ok(())
    }

    /// A slot. Its end keeps from its start what it leaves out.
    fn slot(
        &mut self,
        start_x: Coordinate,
        start_y: Coordinate,
        end_x: Coordinate,
        end_y: Coordinate,
    ) -> Result<(), Stop>
        ensures { Obeys body_checks (statement.Slot start_x start_y end_x end_y) self.old result self.new }
    {
        let start = moved_point(self.unit, start_x, start_y, self.at);
        let end = moved_point(self.unit, end_x, end_y, start);
        let malformed = are_malformed(start_x, start_y) | are_malformed(end_x, end_y);
        let pointless = are_pointless(start_x, start_y) | are_pointless(end_x, end_y);
        let off = !(is_on_board(start) & is_on_board(end));
        if let Some(code) = self.drilled_fault(malformed, pointless, off) {
            return Err(Stop::Fault(code));
        }
        let tool = self.tool.unwrap_or(0);
        let mut points = Vec::new(self.alloc);
        points.push(start)?;
        points.push(end)?;
        let points = Points::from_vec(points);
        self.layer.items.push(DrillItem::Rout { tool, points })?;
        self.leaves += 1;
        self.at = end;
        Ok(())
    }

    fn rout_to(&mut self, x: Coordinate, y: Coordinate) -> Result<(), Stop>
        ensures { Obeys body_checks (statement.RoutTo x y) self.old result self.new }
    {
        if are_malformed(x, y) {
            return Err(Stop::Fault(Refusal::BadNumber));
        }
        let at = moved_point(self.unit, x, y, self.at);
        if !is_on_board(at) {
            return Err(Stop::Fault(Refusal::OutOfBoard));
        }
        if are_pointless(x, y) {
            return Err(Stop::Fault(Refusal::NoPoint));
        }
        if is_lowered(self.mode) {
            return Err(Stop::Fault(Refusal::RoutState));
        }
        self.mode = Mode::Raised;
        self.at = at;
        Ok(())
    }

    fn lower(&mut self) -> Result<(), Stop>
        ensures { Obeys body_checks statement.Lower self.old result self.new }
    {
        if self.tool.is_none() {
            return Err(Stop::Fault(Refusal::NoToolSelected));
        }
        if !matches!(self.mode, Mode::Raised) {
            return Err(Stop::Fault(Refusal::RoutState));
        }
        let mut points = Vec::new(self.alloc);
        points.push(self.at)?;
        self.points = points;
        self.mode = Mode::Lowered;
        Ok(())
    }

    /// The fault of a cut.
    fn cut_fault(&self, x: Coordinate, y: Coordinate, to: Point) -> Option<Refusal>
        ensures { (past : DrillPast) → Tracks past self.now
            → result ≡ first_holding (cut_checks past x y to (drill_mode_in past)) }
    {
        let lowered = is_lowered(self.mode);
        if are_malformed(x, y) {
            Some(Refusal::BadNumber)
        } else if !is_on_board(to) {
            Some(Refusal::OutOfBoard)
        } else if lowered && self.points.len() >= COUNT_LIMIT {
            Some(Refusal::TooMuch)
        } else if are_pointless(x, y) {
            Some(Refusal::NoPoint)
        } else if lowered {
            None
        } else {
            Some(Refusal::RoutState)
        }
    }

    fn cut_to(&mut self, x: Coordinate, y: Coordinate) -> Result<(), Stop>
        ensures { Obeys body_checks (statement.CutTo x y) self.old result self.new }
    {
        let at = moved_point(self.unit, x, y, self.at);
        if let Some(code) = self.cut_fault(x, y, at) {
            return Err(Stop::Fault(code));
        }
        self.points.push(at)?;
        self.at = at;
        Ok(())
    }

    fn raise(&mut self) -> Result<(), Stop>
        ensures { Obeys body_checks statement.Raise self.old result self.new }
    {
        if !is_lowered(self.mode) {
            return Err(Stop::Fault(Refusal::RoutState));
        }
        let more = match self.points.len() {
            0 => 0,
            1 => 1,
            len => len - 1,
        };
        if self.is_too_much(more) {
            return Err(Stop::Fault(Refusal::TooMuch));
        }
        let tool = self.tool.unwrap_or(0);
        let points = Points::from_vec(mem::replace(&mut self.points, Vec::new(self.alloc)));
        self.layer.items.push(DrillItem::Rout { tool, points })?;
        self.leaves += more;
        self.mode = Mode::Raised;
        Ok(())
    }

    /// Takes what one more line of the body says.
    pub fn obey_body(&mut self, statement: Statement) -> Result<(), Stop>
        ensures { Obeys body_checks statement self.old result self.new }
    {
        match statement {
            Statement::Neutral => Ok(()),
            Statement::Select(number) => self.select(number),
            Statement::DrillMode => {
                if is_lowered(self.mode) {
                    return Err(Stop::Fault(Refusal::RoutState));
                }
                self.mode = Mode::Drilling;
                Ok(())
            }
            Statement::HitAt { x, y } => self.hit_at(x, y),
            Statement::Slot {
                start_x,
                start_y,
                end_x,
                end_y,
            } => self.slot(start_x, start_y, end_x, end_y),
            Statement::RoutTo { x, y } => self.rout_to(x, y),
            Statement::Lower => self.lower(),
            Statement::CutTo { x, y } => self.cut_to(x, y),
            Statement::Raise => self.raise(),
            Statement::CutArc => Err(Stop::Fault(Refusal::RoutArc)),
            Statement::End => {
                if is_lowered(self.mode) {
                    return Err(Stop::Fault(Refusal::RoutState));
                }
                Ok(())
            }
            _ => Err(Stop::Fault(Refusal::UnknownLine)),
        }
    }
}
