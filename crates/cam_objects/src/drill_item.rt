//! Items of a drill layer.

ghost use Rattle.std.specs.Prelude.{◌≡◌};
ghost use Rattle.cam_objects.specs.DrillSoundness.{drill_count_from, drill_count_of, tool_of};

use crate::points::Points;
use cam_units::Point;

/// What a drill layer lists (XNC Format Specification, "Drilling" and "Routing"), points in nm, a
/// tool by its number.
#[derive(Clone, Debug, Drop)]
pub enum DrillItem {
    /// A hole at a point.
    Hit { tool: u16, at: Point },
    /// A slot along the straight lines from each point to the next, or a hole where there is one
    /// point.
    Rout { tool: u16, points: Points },
}

impl DrillItem {
    /// The number of its tool.
    pub(crate) fn tool(&self) -> u16
        ensures { result ≡ tool_of self.now }
    {
        match self {
            DrillItem::Hit { tool, .. } | DrillItem::Rout { tool, .. } => *tool,
        }
    }

    /// How many holes and slots there are: one, or one for each segment of a rout.
    pub fn leaf_count(&self) -> usize
        ensures { result ≡ drill_count_of self.now }
    {
        match self {
            DrillItem::Hit { .. } => 1,
            DrillItem::Rout { points, .. } => segment_count(points.as_slice()),
        }
    }
}

/// How many segments a rout of the points has, or one for the hole at its only point.
fn segment_count(points: &[Point]) -> usize
    ensures { result ≡ drill_count_from points.now }
{
    match points {
        [] => 0,
        [_] => 1,
        [_, rest @ ..] => rest.len(),
    }
}
