//! The circles that bound an arc's stroke.

ghost use Rattle.cam_shapes.specs.Arc.{IsSoundArc};
ghost use Rattle.cam_rows.specs.ArcRuns.{IsRingOf};

use crate::circle::squared_distance;
use cam_shapes::Arc;
use cam_units::isqrt;

/// The squares of the distances from an arc's centre, in half nanometres, at which its stroke begins, and behind which
/// it ends: a place whose squared distance is `inner` or more, and less than `outer`, is near the arc's circle.
#[derive(Clone, Copy, Debug)]
pub struct Ring {
    pub inner: u128,
    pub outer: u128,
}

/// Where the circles lie that bound an arc's stroke, by one root.
pub fn ring_of(arc: &Arc) -> Ring
    requires { IsSoundArc arc.now }
    ensures { IsRingOf result arc.now }
{
    let radius = squared_distance(&arc.centre, &arc.from);
    let width = arc.width.0 as u64;
    let width = u128::from(width * width);
    let spread = u128::from(isqrt(4 * width * radius));
    let outer = radius + width + spread + 1;
    if radius <= width {
        return Ring { inner: 0, outer };
    }
    Ring {
        inner: (radius + width).saturating_sub(spread),
        outer,
    }
}
