//! The text of a drill layer.

ghost use Rattle.std.specs.Prelude.{◌≡◌, ◌≤◌, ◌++◌, ◌∷◌, [], codes, decimal, fold, IfOk, OnOk, Ok};
ghost use Rattle.cam_objects.specs.Contents.{drill_content_of};
ghost use Rattle.cam_objects.specs.DrillSoundness.{IsSoundDrillLayer, tool_of};
ghost use Rattle.cam_xnc.specs.declared.statement.Statement.TheVariants.{HitAt};
ghost use Rattle.cam_xnc.specs.Reading.{drill_reading_of};
ghost use Rattle.cam_writers.specs.DrillTexts.{Lines, declaration, drill_text, line_at, opening, point_line, text_of};
ghost use Rattle.cam_writers.specs.DrillTexts.{with_cut, with_drill_mode, with_item, with_rout, with_selected, with_tool};
ghost use Rattle.cam_writers.specs.Machinery.Tracking.{Tracks};

use crate::lengths::{push_decimal, push_mm};
use cam_objects::{DrillItem, DrillLayer, Tools};
use cam_units::{Nm, Point};
use std::alloc::{AllocError, Global};

/// Writes a line.
fn push_line(text: &mut Vec<u8>, line: &[u8]) -> Result<(), AllocError>
    ensures { OnOk result (text.new.items ≡ text.old.items ++ (line.now ++ codes "\n")) }
{
    text.extend_from_slice(line)?;
    text.extend_from_slice(b"\n")
}

/// Writes the line that selects a tool.
fn push_tool_line(text: &mut Vec<u8>, tool: u16) -> Result<(), AllocError>
    ensures { OnOk result (text.new.items ≡ text.old.items ++ ((codes "T" ++ decimal tool) ++ codes "\n")) }
{
    text.extend_from_slice(b"T")?;
    push_decimal(text, u64::from(tool))?;
    text.extend_from_slice(b"\n")
}

/// Writes the line that declares a tool of a diameter at the text's end, as canonical texts have it: `T1C0.800000`. An
/// error where memory is refused; the text then has a part of the line.
#[tactic(auto, unfolding(crate::specs::DrillTexts::declaration))]
pub fn push_declaration(text: &mut Vec<u8>, tool: u16, diameter: Nm) -> Result<(), AllocError>
    ensures { OnOk result
        (text.new.items ≡ text.old.items ++ (declaration (tool, diameter) ++ codes "\n")) }
{
    text.extend_from_slice(b"T")?;
    push_decimal(text, u64::from(tool))?;
    text.extend_from_slice(b"C")?;
    push_mm(text, diameter)?;
    text.extend_from_slice(b"\n")
}

/// Writes the line of each tool.
fn push_declarations(text: &mut Vec<u8>, tools: &Tools) -> Result<(), AllocError>
    ensures { (lines : Lines) → text.old.items ≡ text_of lines
        → OnOk result (text.new.items ≡ text_of (fold with_tool lines tools.now)) }
{
    for place in 0..tools.len() {
        if let Some((tool, diameter)) = tools.at(place) {
            push_declaration(text, tool, diameter)?;
        }
    }
    Ok(())
}

/// Writes a line of a word and a point.
#[tactic(auto, unfolding(crate::specs::DrillTexts::point_line))]
fn push_point_line(text: &mut Vec<u8>, word: &[u8], at: Point) -> Result<(), AllocError>
    ensures { OnOk result
        (text.new.items ≡ text.old.items ++ (point_line word.now at ++ codes "\n")) }
{
    text.extend_from_slice(word)?;
    text.extend_from_slice(b"X")?;
    push_mm(text, Nm(at.x))?;
    text.extend_from_slice(b"Y")?;
    push_mm(text, Nm(at.y))?;
    text.extend_from_slice(b"\n")
}

/// Writes the line of each cut of a rout.
fn push_cuts(text: &mut Vec<u8>, points: &[Point]) -> Result<(), AllocError>
    ensures { (lines : Lines) → text.old.items ≡ text_of lines
        → OnOk result (text.new.items ≡ text_of (fold with_cut lines points.now)) }
{
    for to in points {
        push_point_line(text, b"G01", *to)?;
    }
    Ok(())
}

/// The text of a drill layer so far.
#[derive(Drop)]
struct DrillText {
    text: Vec<u8>,
    /// The tool in force at its end.
    tool: Option<u16>,
    /// Whether coordinates are hits at its end.
    is_drilling: bool,
}

impl DrillText {
    /// The lines before the items.
    fn new(alloc: Global, tools: &Tools) -> Result<DrillText, AllocError>
        ensures { IfOk result (Tracks (opening tools.now)) }
    {
        let mut text = Vec::new(alloc);
        push_line(&mut text, b"M48")?;
        push_line(&mut text, b"METRIC")?;
        push_declarations(&mut text, tools)?;
        push_line(&mut text, b"%")?;
        push_line(&mut text, b"G05")?;
        Ok(DrillText {
            text,
            tool: None,
            is_drilling: true,
        })
    }

    /// Selects a tool, where another is in force.
    fn select(&mut self, tool: u16) -> Result<(), AllocError>
        requires { 1 ≤ tool }
        ensures { (lines : Lines) → Tracks lines self.old
            → OnOk result (Tracks (with_selected tool lines) self.new) }
    {
        if self.tool != Some(tool) {
            push_tool_line(&mut self.text, tool)?;
            self.tool = Some(tool);
        }
        Ok(())
    }

    /// Sets the drill mode, where another is in force.
    fn set_drill_mode(&mut self) -> Result<(), AllocError>
        ensures { (lines : Lines) → Tracks lines self.old
            → OnOk result (Tracks (with_drill_mode lines) self.new) }
    {
        if !self.is_drilling {
            push_line(&mut self.text, b"G05")?;
            self.is_drilling = true;
        }
        Ok(())
    }

    /// Writes a hit.
    fn write_hit(&mut self, at: Point) -> Result<(), AllocError>
        ensures { (lines : Lines) → Tracks lines self.old
            → OnOk result (Tracks (line_at [] HitAt at ∷ lines) self.new) }
    {
        push_point_line(&mut self.text, b"", at)
    }

    /// Writes a rout.
    fn write_rout(&mut self, points: &[Point]) -> Result<(), AllocError>
        ensures { (lines : Lines) → Tracks lines self.old
            → OnOk result (Tracks (with_rout points.now lines) self.new) }
    {
        let [start, rest @ ..] = points else {
            return Ok(());
        };
        push_point_line(&mut self.text, b"G00", *start)?;
        push_line(&mut self.text, b"M15")?;
        push_cuts(&mut self.text, rest)?;
        push_line(&mut self.text, b"M16")?;
        self.is_drilling = false;
        Ok(())
    }

    /// Writes an item, and before it the settings in which it differs from those in force.
    fn write_item(&mut self, item: &DrillItem) -> Result<(), AllocError>
        requires { 1 ≤ tool_of item.now }
        ensures { (lines : Lines) → Tracks lines self.old
            → OnOk result (Tracks (with_item lines item.now) self.new) }
    {
        match item {
            DrillItem::Hit { tool, at } => {
                self.select(*tool)?;
                self.set_drill_mode()?;
                self.write_hit(*at)
            }
            DrillItem::Rout { tool, points } => {
                self.select(*tool)?;
                self.write_rout(points.as_slice())
            }
        }
    }
}

/// The canonical text of a sound drill layer, an XNC drill file; an error where no memory is left
/// for it. It is read as the same tools and items.
///
/// (XNC Format Specification, "Header", "Drilling" and "Routing".)
pub fn xnc_text(alloc: Global, layer: &DrillLayer) -> Result<Vec<u8>, AllocError>
    requires { IsSoundDrillLayer layer.now }
    ensures text { IfOk result (λ text.
        text.items ≡ drill_text layer.now.tools layer.now.items.items) }
    ensures reads_back { IfOk result (λ text. drill_reading_of text.items ≡ Ok (drill_content_of layer.now)) }
{
    let mut written = DrillText::new(alloc, &layer.tools)?;
    for item in &layer.items {
        written.write_item(item)?;
    }
    push_line(&mut written.text, b"M30")?;
    Ok(written.text)
}
