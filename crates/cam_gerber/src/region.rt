//! The contour that is plotted.

use cam_shapes::Seg;
use cam_units::Point;

/// Whether the file is in a region, and its contour so far.
#[derive(Drop)]
pub struct Region {
    pub inside: bool,
    /// Where the contour starts, in nm.
    pub start: Point,
    pub segs: Vec<Seg>,
}
