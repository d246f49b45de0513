//! Single leaves, painted on a canvas, but for those whose boxes miss it.

ghost use Rattle.std.specs.Prelude.{◌≡◌, ◌∷◌, [], Some, true};
ghost use Rattle.cam_units.specs.Board.{IsOnBoard, IsSize};
ghost use Rattle.cam_shapes.specs.Disc.{IsSoundDisc};
ghost use Rattle.cam_shapes.specs.Placing.{IsPlaceable, IsPlaceablePoint, placed_contour, placed_direction};
ghost use Rattle.cam_shapes.specs.Shifting.{IsShiftable};
ghost use Rattle.cam_objects.specs.Canvases.{IsSoundFigure, IsSoundPrint, Paints, leaf_of, shape_of};
ghost use Rattle.cam_objects.specs.Leaves.{Drilled, Filled, arc_leaves, drawn, leaf, placed, polarity_in};
ghost use Rattle.cam_objects.specs.Machinery.Boxes.{IsSizedTip};

use crate::boxes::shapes::{contour_bounds, drawn_bounds, hole_bounds, sweep_bounds};
use crate::canvas::{Canvas, Figure, Print, misses};
use crate::placing::place::Place;
use crate::tip::Tip;
use cam_shapes::{Arc, Capsule, Contour, Disc, Swept};
use cam_units::Point;

/// Paints a leaf, if its box meets the canvas.
pub(crate) fn paint_leaf<C: Canvas>(print: Print<'_>, canvas: &mut C)
    requires { IsSoundPrint print }
    ensures { Paints C.has C.place C.ink canvas.old (leaf_of print.entry ∷ []) canvas.new }
{
    if misses(canvas, print.bounds) {
        return;
    }
    canvas.paint(print);
}

/// The straight stroke of a tip.
fn drawn<'a>(from: Point, to: Point, tip: Tip) -> Figure<'a>
    requires from { IsOnBoard from }
    requires to { IsOnBoard to }
    requires tip { IsSizedTip tip }
    ensures shape { shape_of result ≡ drawn tip from to }
    ensures sound { IsSoundFigure result }
{
    match tip {
        Tip::Round(width) => Figure::Stroke(Capsule { from, to, width }),
        Tip::Rectangular { width, height } => Figure::Swept(Swept {
            from,
            to,
            width,
            height,
        }),
    }
}

/// Paints a straight stroke of a tip that lies as it does at the place.
pub(crate) fn paint_stroke<C: Canvas>(
    place: &Place,
    from: Point,
    to: Point,
    tip: Tip,
    dark: bool,
    canvas: &mut C,
)
    requires offset { IsShiftable place.now.offset }
    requires from { IsPlaceablePoint place.now.turn place.now.offset from }
    requires to { IsPlaceablePoint place.now.turn place.now.offset to }
    requires tip { IsSizedTip tip }
    ensures { Paints C.has C.place C.ink canvas.old
        (leaf (drawn tip (placed place.now from) (placed place.now to)) (polarity_in place.now.dark dark) ∷ [])
        canvas.new }
{
    let from = place.point(from);
    let to = place.point(to);
    let print = Print {
        figure: drawn(from, to, tip),
        dark: place.polarity(dark),
        bounds: drawn_bounds(&from, &to, &tip),
    };
    paint_leaf(print, canvas);
}

/// Paints a stroke along an arc.
pub(crate) fn paint_sweep<C: Canvas>(place: &Place, stroke: Arc, dark: bool, canvas: &mut C)
    requires offset { IsShiftable place.now.offset }
    requires from { IsPlaceablePoint place.now.turn place.now.offset stroke.from }
    requires to { IsPlaceablePoint place.now.turn place.now.offset stroke.to }
    requires centre { IsPlaceablePoint place.now.turn place.now.offset stroke.centre }
    requires width { IsSize stroke.width.0 }
    ensures { Paints C.has C.place C.ink canvas.old
        (arc_leaves (Some stroke.width) (placed place.now stroke.from) (placed place.now stroke.to)
        (placed place.now stroke.centre) (placed_direction place.now.turn stroke.ccw) (polarity_in place.now.dark dark))
        canvas.new }
{
    let arc = Arc {
        from: place.point(stroke.from),
        to: place.point(stroke.to),
        centre: place.point(stroke.centre),
        ccw: place.direction(stroke.ccw),
        width: stroke.width,
    };
    let print = Print {
        figure: Figure::Sweep(arc),
        dark: place.polarity(dark),
        bounds: sweep_bounds(&arc),
    };
    paint_leaf(print, canvas);
}

/// Paints a region.
pub(crate) fn paint_region<C: Canvas>(place: &Place, contour: &Contour, dark: bool, canvas: &mut C)
    requires offset { IsShiftable place.now.offset }
    requires contour { IsPlaceable place.now.turn place.now.offset contour.now }
    ensures { Paints C.has C.place C.ink canvas.old
        (leaf (Filled (placed_contour place.now.turn place.now.offset contour.now))
        (polarity_in place.now.dark dark) ∷ []) canvas.new }
{
    let print = Print {
        figure: Figure::Filled {
            contour,
            turn: place.turn,
            offset: place.offset,
        },
        dark: place.polarity(dark),
        bounds: place.bounds(contour_bounds(contour)),
    };
    paint_leaf(print, canvas);
}

/// Drills a hole.
pub(crate) fn paint_hole<C: Canvas>(disc: Disc, canvas: &mut C)
    requires { IsSoundDisc disc }
    ensures { Paints C.has C.place C.ink canvas.old (leaf (Drilled disc) true ∷ []) canvas.new }
{
    let print = Print {
        figure: Figure::Drilled(disc),
        dark: true,
        bounds: hole_bounds(&disc),
    };
    paint_leaf(print, canvas);
}
