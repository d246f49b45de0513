//! Laws of what is told. Each function does nothing: its contract is a law.

ghost use Rattle.cam_ask.specs.Painted.{PaintedLaw};

/// Each place that an item covers lies in the box of what it paints, and that box in the item's own.
pub fn painted_boxes_hold_what_is_covered()
    ensures { PaintedLaw }
{}
