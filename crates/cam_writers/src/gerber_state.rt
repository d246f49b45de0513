//! The text of a Gerber layer so far, and the settings in force at its end.

ghost use Rattle.std.specs.Prelude.{◌≡◌, ◌∷◌, IfOk, OnOk};
ghost use Rattle.cam_units.specs.Board.{IsOnBoard};
ghost use Rattle.cam_objects.specs.Attributes.{AreAttributes};
ghost use Rattle.cam_gerber.specs.Faults.{is_same_point};
ghost use Rattle.cam_writers.specs.Phrases.{ArcTo, FlashAt, LineTo, MoveTo, mirror_of, rotation_of};
ghost use Rattle.cam_writers.specs.GerberTexts.{Phrases, is_same_mode, is_same_turn, opening, with_aperture};
ghost use Rattle.cam_writers.specs.GerberTexts.{with_mirror, with_mode, with_polarity, with_rotation, with_start};
ghost use Rattle.cam_writers.specs.GerberTexts.{with_turn};
ghost use Rattle.cam_writers.specs.Machinery.Tracking.{TracksPhrases};

use crate::gerber_commands::{
    push_arc, push_attributes, push_extended, push_mirror, push_mode, push_operation,
    push_polarity, push_rotation, push_selection, push_word,
};
use cam_commands::Mode;
use cam_objects::Attribute;
use cam_units::{Point, Turn};
use std::alloc::{AllocError, Global};

/// The text of a Gerber layer so far, and what is in force at its end.
#[derive(Drop)]
pub struct GerberText {
    pub text: Vec<u8>,
    /// Objects darken.
    pub dark: bool,
    /// How apertures are mirrored, R0 or M0.
    pub mirror: Turn,
    /// How they are rotated behind that, R0 to R270.
    pub rotation: Turn,
    /// The number of the current aperture.
    pub aperture: Option<u32>,
    pub mode: Mode,
    /// The current point, in nm.
    pub point: Point,
}

/// The mirror of a turn.
fn mirror_of(turn: Turn) -> Turn
    ensures { result ≡ mirror_of turn }
{
    match turn {
        Turn::R0 | Turn::R90 | Turn::R180 | Turn::R270 => Turn::R0,
        Turn::M0 | Turn::M90 | Turn::M180 | Turn::M270 => Turn::M0,
    }
}

/// The rotation of a turn behind its mirror.
fn rotation_of(turn: Turn) -> Turn
    ensures { result ≡ rotation_of turn }
{
    match turn {
        Turn::R0 | Turn::M0 => Turn::R0,
        Turn::R90 | Turn::M90 => Turn::R90,
        Turn::R180 | Turn::M180 => Turn::R180,
        Turn::R270 | Turn::M270 => Turn::R270,
    }
}

fn is_same_turn(turn: Turn, other: Turn) -> bool
    ensures { result ≡ is_same_turn turn other }
{
    turn == other
}

fn is_same_mode(mode: Mode, other: Mode) -> bool
    ensures { result ≡ is_same_mode mode other }
{
    mode == other
}

fn is_same_point(point: Point, other: Point) -> bool
    ensures { result ≡ is_same_point point other }
{
    point == other
}

impl GerberText {
    /// The commands before the dictionary, file attributes among them.
    pub fn new(alloc: Global, attributes: &[Attribute]) -> Result<GerberText, AllocError>
        requires { AreAttributes attributes.now }
        ensures { IfOk result (TracksPhrases (opening attributes.now)) }
    {
        let mut text = Vec::new(alloc);
        push_extended(&mut text, b"FSLAX46Y46")?;
        push_extended(&mut text, b"MOMM")?;
        push_attributes(&mut text, attributes)?;
        push_word(&mut text, b"G01")?;
        push_word(&mut text, b"G75")?;
        Ok(GerberText {
            text,
            dark: true,
            mirror: Turn::R0,
            rotation: Turn::R0,
            aperture: None,
            mode: Mode::Linear,
            point: Point { x: 0, y: 0 },
        })
    }

    /// Sets the polarity, where another is in force.
    pub fn set_polarity(&mut self, dark: bool) -> Result<(), AllocError>
        ensures { (phrases : Phrases) → TracksPhrases phrases self.old
            → OnOk result (TracksPhrases (with_polarity dark phrases) self.new) }
    {
        if self.dark != dark {
            push_polarity(&mut self.text, dark)?;
            self.dark = dark;
        }
        Ok(())
    }

    /// Sets the mirror of a turn, where another is in force.
    fn set_mirror(&mut self, turn: Turn) -> Result<(), AllocError>
        ensures { (phrases : Phrases) → TracksPhrases phrases self.old
            → OnOk result (TracksPhrases (with_mirror turn phrases) self.new) }
    {
        let mirror = mirror_of(turn);
        if !is_same_turn(self.mirror, mirror) {
            push_mirror(&mut self.text, turn)?;
            self.mirror = mirror;
        }
        Ok(())
    }

    /// Sets the rotation of a turn, where another is in force.
    fn set_rotation(&mut self, turn: Turn) -> Result<(), AllocError>
        ensures { (phrases : Phrases) → TracksPhrases phrases self.old
            → OnOk result (TracksPhrases (with_rotation turn phrases) self.new) }
    {
        let rotation = rotation_of(turn);
        if !is_same_turn(self.rotation, rotation) {
            push_rotation(&mut self.text, turn)?;
            self.rotation = rotation;
        }
        Ok(())
    }

    /// Sets the mirror and the rotation of a turn, each where another is in force.
    pub fn set_turn(&mut self, turn: Turn) -> Result<(), AllocError>
        ensures { (phrases : Phrases) → TracksPhrases phrases self.old
            → OnOk result (TracksPhrases (with_turn turn phrases) self.new) }
    {
        self.set_mirror(turn)?;
        self.set_rotation(turn)
    }

    /// Selects an aperture, where another is in force.
    pub fn select(&mut self, number: u32) -> Result<(), AllocError>
        ensures { (phrases : Phrases) → TracksPhrases phrases self.old
            → OnOk result (TracksPhrases (with_aperture number phrases) self.new) }
    {
        if self.aperture != Some(number) {
            push_selection(&mut self.text, number)?;
            self.aperture = Some(number);
        }
        Ok(())
    }

    /// Sets the mode, where another is in force.
    pub fn set_mode(&mut self, mode: Mode) -> Result<(), AllocError>
        ensures { (phrases : Phrases) → TracksPhrases phrases self.old
            → OnOk result (TracksPhrases (with_mode mode phrases) self.new) }
    {
        if !is_same_mode(self.mode, mode) {
            push_mode(&mut self.text, mode)?;
            self.mode = mode;
        }
        Ok(())
    }

    /// Goes to a point.
    pub fn go_to(&mut self, to: Point) -> Result<(), AllocError>
        ensures { (phrases : Phrases) → TracksPhrases phrases self.old
            → OnOk result (TracksPhrases (MoveTo to ∷ phrases) self.new) }
    {
        push_operation(&mut self.text, to, b"D02*\n")?;
        self.point = to;
        Ok(())
    }

    /// Goes to the start of a stroke, where the current point is another.
    pub fn start_at(&mut self, from: Point) -> Result<(), AllocError>
        ensures { (phrases : Phrases) → TracksPhrases phrases self.old
            → OnOk result (TracksPhrases (with_start from phrases) self.new) }
    {
        if !is_same_point(self.point, from) {
            self.go_to(from)?;
        }
        Ok(())
    }

    /// Flashes at a point.
    pub fn flash(&mut self, at: Point) -> Result<(), AllocError>
        ensures { (phrases : Phrases) → TracksPhrases phrases self.old
            → OnOk result (TracksPhrases (FlashAt at ∷ phrases) self.new) }
    {
        push_operation(&mut self.text, at, b"D03*\n")?;
        self.point = at;
        Ok(())
    }

    /// Plots a line to a point.
    pub fn plot_line(&mut self, to: Point) -> Result<(), AllocError>
        ensures { (phrases : Phrases) → TracksPhrases phrases self.old
            → OnOk result (TracksPhrases (LineTo to ∷ phrases) self.new) }
    {
        push_operation(&mut self.text, to, b"D01*\n")?;
        self.point = to;
        Ok(())
    }

    /// Plots an arc.
    pub fn plot_arc(&mut self, from: Point, to: Point, centre: Point) -> Result<(), AllocError>
        requires from { IsOnBoard from }
        requires centre { IsOnBoard centre }
        ensures { (phrases : Phrases) → TracksPhrases phrases self.old
            → OnOk result (TracksPhrases (ArcTo from to centre ∷ phrases) self.new) }
    {
        push_arc(&mut self.text, from, to, centre)?;
        self.point = to;
        Ok(())
    }
}
