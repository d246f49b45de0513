//! Layers, made of rows.

ghost use Rattle.std.specs.Prelude.{IfOk, IfSome, OnOk};
ghost use Rattle.cam_objects.specs.Soundness.{IsSound};

use crate::layers::rows::{Drawn, Entered, Entries, Listed, Side};
use crate::places::At;
use cam_apertures::Aperture;
use cam_objects::{Contour, Entry, Item, Layer, Object, Objects, Seg, Segments, layers_stay_sound};
use cam_units::{Nm, Point, Turn};
use std::alloc::{AllocError, Global};

pub(crate) fn point((x, y): At) -> Point {
    Point { x, y }
}

fn seg(side: &Side) -> Seg {
    match *side {
        Side::Line(to) => Seg::Line { to: point(to) },
        Side::Curve(to, centre, ccw) => Seg::Curve {
            to: point(to),
            centre: point(centre),
            ccw,
        },
    }
}

fn segs(alloc: Global, sides: &[Side]) -> Result<Vec<Seg>, AllocError> {
    let mut segs = Vec::new(alloc);
    for side in sides {
        segs.push(seg(side))?;
    }
    Ok(segs)
}

fn zigzag(alloc: Global, times: u32) -> Result<Vec<Seg>, AllocError> {
    let mut segs = Vec::new(alloc);
    for place in 0..times {
        let x = if place % 2 == 0 { 1 } else { 0 };
        segs.push(Seg::Line {
            to: Point { x, y: 0 },
        })?;
    }
    Ok(segs)
}

fn region(start: At, segs: Vec<Seg>, dark: bool) -> Object {
    let contour = Contour {
        start: point(start),
        segs: Segments::from_vec(segs),
    };
    Object::Region { contour, dark }
}

fn draw(aperture: u32, from: At, to: At, turn: Turn, dark: bool) -> Object {
    Object::Draw {
        aperture,
        from: point(from),
        to: point(to),
        turn,
        dark,
    }
}

fn object(alloc: Global, drawn: &Drawn) -> Result<Object, AllocError> {
    match *drawn {
        Drawn::Flash(aperture, at, turn, dark) => Ok(Object::Flash {
            aperture,
            at: point(at),
            turn,
            dark,
        }),
        // a turn that changes no place of a round stroke
        Drawn::Draw(aperture, from, to, dark) => Ok(draw(aperture, from, to, Turn::M90, dark)),
        Drawn::TurnedDraw(aperture, from, to, turn, dark) => {
            Ok(draw(aperture, from, to, turn, dark))
        }
        Drawn::Arc(aperture, from, to, centre, ccw, dark) => Ok(Object::Arc {
            ccw,
            dark,
            aperture,
            from: point(from),
            to: point(to),
            centre: point(centre),
        }),
        Drawn::Region(start, sides, dark) => Ok(region(start, segs(alloc, sides)?, dark)),
        Drawn::Zigzag(times) => Ok(region((0, 0), zigzag(alloc, times)?, true)),
    }
}

fn objects(alloc: Global, drawn: &[Drawn]) -> Result<Objects, AllocError> {
    let mut objects = Vec::new(alloc);
    for one in drawn {
        objects.push(object(alloc, one)?)?;
    }
    Ok(Objects::from_vec(objects))
}

/// An object, so many times.
fn copies(alloc: Global, times: u32, drawn: &Drawn) -> Result<Objects, AllocError> {
    let mut objects = Vec::new(alloc);
    for _ in 0..times {
        objects.push(object(alloc, drawn)?)?;
    }
    Ok(Objects::from_vec(objects))
}

/// The aperture that an entry is, if it is no block.
fn aperture(entered: &Entered) -> Option<Aperture> {
    match entered {
        Entered::Circle(diameter, hole) => Some(Aperture::Circle {
            diameter: Nm(*diameter),
            hole: Nm(*hole),
        }),
        Entered::Rect(width, height, hole) => Some(Aperture::Rect {
            width: Nm(*width),
            height: Nm(*height),
            hole: Nm(*hole),
        }),
        Entered::Obround(width, height, hole) => Some(Aperture::Obround {
            width: Nm(*width),
            height: Nm(*height),
            hole: Nm(*hole),
        }),
        Entered::Block(_) | Entered::Many(..) => None,
    }
}

/// The objects of a block.
fn block(alloc: Global, entered: &Entered) -> Result<Objects, AllocError> {
    match entered {
        Entered::Block(drawn) => objects(alloc, drawn),
        Entered::Many(times, drawn) => copies(alloc, *times, drawn),
        _ => Ok(Objects::from_vec(Vec::new(alloc))),
    }
}

pub(crate) fn entry(alloc: Global, entered: &Entered) -> Result<Entry, AllocError> {
    match aperture(entered) {
        Some(aperture) => Ok(Entry::Aperture(aperture)),
        None => Ok(Entry::Block(block(alloc, entered)?)),
    }
}

fn repeat(columns: u32, rows: u32, (i, j): At, objects: Objects) -> Item {
    Item::Repeat {
        columns,
        rows,
        i,
        j,
        objects,
    }
}

pub(crate) fn item(alloc: Global, listed: &Listed) -> Result<Item, AllocError> {
    match listed {
        Listed::One(drawn) => Ok(Item::One(object(alloc, drawn)?)),
        Listed::Repeat(columns, rows, steps, drawn) => {
            Ok(repeat(*columns, *rows, *steps, objects(alloc, drawn)?))
        }
        Listed::Repeats(columns, rows, steps, times, drawn) => {
            Ok(repeat(*columns, *rows, *steps, copies(alloc, *times, drawn)?))
        }
    }
}

/// No entry and no item.
fn no_layer(alloc: Global) -> Layer
    ensures { IsSound result }
{
    Layer::new(alloc)
}

/// Puts the entry behind the others, and tells whether it may be added.
fn add_entry(layer: &mut Layer, number: u32, entry: Entry) -> Result<bool, AllocError>
    requires { IsSound layer.old }
    ensures { OnOk result (IsSound layer.new) }
{
    layers_stay_sound();
    if !layer.check_entry(number, &entry) {
        return Ok(false);
    }
    layer.add_entry(number, entry)?;
    Ok(true)
}

/// Puts the entries behind the others, and tells whether each may be added.
fn add_entries(alloc: Global, layer: &mut Layer, entries: Entries) -> Result<bool, AllocError>
    requires { IsSound layer.old }
    ensures { OnOk result (IsSound layer.new) }
{
    for (number, entered) in entries {
        if !add_entry(layer, *number, entry(alloc, entered)?)? {
            return Ok(false);
        }
    }
    Ok(true)
}

/// Puts the item behind the others, and tells whether it is accepted.
fn add_item(layer: &mut Layer, item: Item) -> Result<bool, AllocError>
    requires { IsSound layer.old }
    ensures { OnOk result (IsSound layer.new) }
{
    layers_stay_sound();
    if layer.check_item(&item).is_err() {
        return Ok(false);
    }
    if !layer.has_room(&item) {
        return Ok(false);
    }
    layer.push(item)?;
    Ok(true)
}

/// Puts the items behind the others, and tells whether each is accepted.
fn add_items(alloc: Global, layer: &mut Layer, items: &[Listed]) -> Result<bool, AllocError>
    requires { IsSound layer.old }
    ensures { OnOk result (IsSound layer.new) }
{
    for listed in items {
        if !add_item(layer, item(alloc, listed)?)? {
            return Ok(false);
        }
    }
    Ok(true)
}

/// Puts entries and items behind the others, and tells whether each is accepted.
fn fill(
    alloc: Global,
    layer: &mut Layer,
    entries: Entries,
    items: &[Listed],
) -> Result<bool, AllocError>
    requires { IsSound layer.old }
    ensures { OnOk result (IsSound layer.new) }
{
    if !add_entries(alloc, layer, entries)? {
        return Ok(false);
    }
    add_items(alloc, layer, items)
}

/// The layer of these entries and items; `None` where one of them is refused.
pub(crate) fn layer(
    alloc: Global,
    entries: Entries,
    items: &[Listed],
) -> Result<Option<Layer>, AllocError>
    ensures { IfOk result (λ made. IfSome made IsSound) }
{
    let mut layer = no_layer(alloc);
    if !fill(alloc, &mut layer, entries, items)? {
        return Ok(None);
    }
    Ok(Some(layer))
}

/// A layer of these entries, without an item; `None` where one may not be added.
pub(crate) fn dictionary(alloc: Global, entries: Entries) -> Result<Option<Layer>, AllocError>
    ensures { IfOk result (λ made. IfSome made IsSound) }
{
    layer(alloc, entries, &[])
}
