//! The objects of Gerber texts, each behind the settings in which it differs from those in force.

ghost use Rattle.std.specs.Prelude.{◌≡◌, ◌∷◌, All, OnOk};
ghost use Rattle.std.specs.List.{flat_map};
ghost use Rattle.cam_units.specs.Board.{IsOnBoard};
ghost use Rattle.cam_objects.specs.Soundness.{points_of_contour, points_of_seg};
ghost use Rattle.cam_writers.specs.GerberTexts.{Phrases, arc_mode, with_contour, with_object, with_objects};
ghost use Rattle.cam_writers.specs.GerberTexts.{with_segment, with_segments};
ghost use Rattle.cam_writers.specs.Machinery.Tracking.{ArePoints, TracksPhrases};

use crate::gerber_commands::push_word;
use crate::gerber_state::GerberText;
use cam_commands::Mode;
use cam_objects::Object;
use cam_shapes::{Contour, Seg};
use cam_units::Point;
use std::alloc::AllocError;

/// The mode of arcs of a direction.
fn arc_mode(ccw: bool) -> Mode
    ensures { result ≡ arc_mode ccw }
{
    if ccw {
        Mode::Counterclockwise
    } else {
        Mode::Clockwise
    }
}

impl GerberText {
    /// Writes a segment of a contour from a point, behind its mode where another is in force.
    fn write_segment(&mut self, here: Point, seg: &Seg) -> Result<(), AllocError>
        requires here { IsOnBoard here }
        requires seg { All IsOnBoard (points_of_seg seg.now) }
        ensures { (phrases : Phrases) → TracksPhrases phrases self.old
            → OnOk result (TracksPhrases (with_segment here seg.now phrases) self.new) }
    {
        match seg {
            Seg::Line { to } => {
                self.set_mode(Mode::Linear)?;
                self.plot_line(*to)
            }
            Seg::Curve { to, centre, ccw } => {
                self.set_mode(arc_mode(*ccw))?;
                self.plot_arc(here, *to, *centre)
            }
        }
    }

    /// Writes the segments of a contour from a point.
    fn write_segments(&mut self, start: Point, segs: &[Seg]) -> Result<(), AllocError>
        requires start { IsOnBoard start }
        requires segs { All (λ seg. All IsOnBoard (points_of_seg seg)) segs.now }
        ensures { (phrases : Phrases) → TracksPhrases phrases self.old
            → OnOk result (TracksPhrases (with_segments start segs.now phrases) self.new) }
    {
        let mut here = start;
        for seg in segs {
            self.write_segment(here, seg)?;
            here = seg.end();
        }
        Ok(())
    }

    /// Writes a contour.
    fn write_contour(&mut self, contour: &Contour) -> Result<(), AllocError>
        requires { All IsOnBoard (points_of_contour contour.now) }
        ensures { (phrases : Phrases) → TracksPhrases phrases self.old
            → OnOk result (TracksPhrases (with_contour contour.now phrases) self.new) }
    {
        push_word(&mut self.text, b"G36")?;
        self.go_to(contour.start)?;
        self.write_segments(contour.start, contour.segs.as_slice())?;
        push_word(&mut self.text, b"G37")
    }

    /// Writes an object, and before it the settings in which it differs from those in force.
    pub fn write_object(&mut self, object: &Object) -> Result<(), AllocError>
        requires { ArePoints object.now }
        ensures { (phrases : Phrases) → TracksPhrases phrases self.old
            → OnOk result (TracksPhrases (with_object phrases object.now) self.new) }
    {
        match object {
            Object::Flash {
                aperture,
                at,
                turn,
                dark,
            } => {
                self.set_polarity(*dark)?;
                self.set_turn(*turn)?;
                self.select(*aperture)?;
                self.flash(*at)
            }
            Object::Draw {
                aperture,
                from,
                to,
                turn,
                dark,
            } => {
                self.set_polarity(*dark)?;
                self.set_turn(*turn)?;
                self.select(*aperture)?;
                self.set_mode(Mode::Linear)?;
                self.start_at(*from)?;
                self.plot_line(*to)
            }
            Object::Arc {
                ccw,
                dark,
                aperture,
                from,
                to,
                centre,
            } => {
                self.set_polarity(*dark)?;
                self.select(*aperture)?;
                self.set_mode(arc_mode(*ccw))?;
                self.start_at(*from)?;
                self.plot_arc(*from, *to, *centre)
            }
            Object::Region { contour, dark } => {
                self.set_polarity(*dark)?;
                self.write_contour(contour)
            }
        }
    }

    /// Writes objects in order.
    pub fn write_objects(&mut self, objects: &[Object]) -> Result<(), AllocError>
        requires { All ArePoints objects.now }
        ensures { (phrases : Phrases) → TracksPhrases phrases self.old
            → OnOk result (TracksPhrases (with_objects phrases objects.now) self.new) }
    {
        for object in objects {
            self.write_object(object)?;
        }
        Ok(())
    }
}
