//! What layers are drawn and written as.

ghost use Rattle.std.specs.Prelude.{◌≡◌, ◌++◌, ◌<◌, ◌≤◌, length, min, replicate, true, vec_capacity, vec_len};
ghost use Rattle.std.specs.Prelude.{IfErr, IfOk, OnOk, Some, option_map, option_to_list};
ghost use Rattle.cam_edits.specs.Images.{image_of};
ghost use Rattle.cam_edits.specs.Sheets.{AreSound, IsSound, content_of, sheets_of};
ghost use Rattle.cam_station.specs.TileTables.{dirty_in, drawn, redrawn_in};
ghost use Rattle.cam_station.specs.Machine.{fault};
ghost use Rattle.cam_refusals.specs.declared.refusal.Refusal.TheVariants.{NoMemory};
ghost use Rattle.cam_station.specs.Writing.{text_of};
ghost use Rattle.cam_tiles.specs.Picture.{accepts};
ghost use Rattle.cam_tiles.specs.declared.window.Window.{Window};
ghost use Rattle.cam_tiles.specs.Tables.{blank, dirty_count, redrawn};

use crate::fault::{Fault, without_place};
use crate::watch::Watch;
use cam_edits::{Board, SheetContent};
use cam_refusals::Refusal;
use cam_tiles::{Raster, Source, Window};
use cam_writers::{gerber_text, xnc_text};
use std::alloc::{AllocError, Global};

/// A raster of an accepted window, its tiles dirty; 30 where memory was refused.
fn blank(alloc: Global, window: Window) -> Result<Raster, Fault>
    requires { accepts window ≡ true }
    ensures made { IfOk result (λ raster. raster ≡ blank window) }
    ensures memory { IfErr result (λ told. told ≡ fault NoMemory) }
{
    match Raster::new(alloc, window) {
        Ok(raster) => Ok(raster),
        Err(_) => Err(without_place(Refusal::NoMemory)),
    }
}

/// A raster of the window in force, if one is, and room for it behind those that there are; 30 where memory was refused.
pub(crate) fn blank_behind(
    alloc: Global,
    window: Option<Window>,
    rasters: &mut Vec<Raster>,
) -> Result<Option<Raster>, Fault>
    requires { (w : Window) → window ≡ Some w → accepts w ≡ true }
    ensures made { IfOk result (λ raster. raster ≡ option_map blank window) }
    ensures room { OnOk result (vec_len rasters.new < vec_capacity rasters.new) }
    ensures kept { rasters.new.items ≡ rasters.old.items }
    ensures memory { IfErr result (λ told. told ≡ fault NoMemory) }
{
    if rasters.reserve(1).is_err() {
        return Err(without_place(Refusal::NoMemory));
    }
    match window {
        Some(window) => Ok(Some(blank(alloc, window)?)),
        None => Ok(None),
    }
}

/// Puts a raster, if there is one, behind those that there are; there is room for it.
pub(crate) fn put_behind(rasters: &mut Vec<Raster>, raster: Option<Raster>)
    requires { vec_len rasters.old < vec_capacity rasters.old }
    ensures { rasters.new.items ≡ rasters.old.items ++ option_to_list raster }
{
    if let Some(raster) = raster {
        rasters.push_reserved(raster);
    }
}

/// So many rasters of an accepted window, their tiles dirty; 30 where memory was refused.
pub(crate) fn blanks(alloc: Global, window: Window, count: usize) -> Result<Vec<Raster>, Fault>
    requires { accepts window ≡ true }
    ensures made { IfOk result (λ rasters. rasters.items ≡ replicate count (blank window)) }
    ensures memory { IfErr result (λ told. told ≡ fault NoMemory) }
{
    let Ok(mut rasters) = Vec::with_capacity(alloc, count) else {
        return Err(without_place(Refusal::NoMemory));
    };
    for _ in 0..count {
        rasters.push_reserved(blank(alloc, window)?);
    }
    Ok(rasters)
}

/// Draws dirty tiles, by layer and then by number, and answers how many.
pub(crate) fn draw_all(alloc: Global, board: &Board, rasters: &mut [Raster], at_most: u32) -> u32
    requires sound { AreSound (sheets_of board.now) }
    requires layers { length rasters.old ≤ length (sheets_of board.now) }
    ensures drawn { result ≡ min at_most (dirty_in rasters.old) }
    ensures tiles { rasters.new ≡ redrawn_in at_most (sheets_of board.now) rasters.old }
{
    let mut left = at_most;
    for place in 0..rasters.len() {
        left -= draw(alloc, board.content(place), &mut rasters[place], left);
    }
    at_most - left
}

/// Draws the dirty tiles of a layer, as many at once as a watch wants to wait for, and answers how many.
pub(crate) fn draw_watched<F, V: Watch<F>>(
    alloc: Global,
    content: &SheetContent,
    raster: &mut Raster,
    watch: &mut V,
) -> u32
    requires { IsSound (content_of content.now) }
    ensures count { result ≡ dirty_count raster.old }
    ensures tiles { raster.new ≡ drawn (content_of content.now) raster.old }
{
    let dirty = raster.dirty();
    let at_once = watch.tiles_at_once(dirty).max(1);
    let mut done = 0u32;
    while done < dirty {
        done += draw(alloc, content, raster, at_once.min(dirty - done));
        watch.drawn(done, dirty);
    }
    done
}

/// Draws dirty tiles of a layer, those of least number first, and answers how many: by the cells that its items reach, where
/// they are known, and by the first copies of its repeats.
pub(crate) fn draw(alloc: Global, content: &SheetContent, raster: &mut Raster, at_most: u32) -> u32
    requires { IsSound (content_of content.now) }
    ensures drawn { result ≡ min at_most (dirty_count raster.old) }
    ensures tiles { raster.new ≡ redrawn (image_of (content_of content.now)) at_most raster.old }
{
    match content {
        SheetContent::Gerber(layer) => {
            let (cells, copies) = (layer.cells(), layer.first_copies());
            let mut source = Source::gerber_by_cells(alloc, layer.layer(), cells, copies);
            raster.redraw(&mut source, at_most)
        }
        SheetContent::Drill(layer) => {
            let mut source = Source::drill_by_cells(alloc, layer.layer(), layer.cells());
            raster.redraw(&mut source, at_most)
        }
    }
}

/// The canonical text of a layer, as a file of its kind.
pub(crate) fn text(alloc: Global, content: &SheetContent) -> Result<Vec<u8>, AllocError>
    requires sound { IsSound (content_of content.now) }
    ensures { IfOk result (λ text. text.items ≡ text_of (content_of content.now)) }
{
    match content {
        SheetContent::Gerber(layer) => gerber_text(alloc, layer.layer()),
        SheetContent::Drill(layer) => xnc_text(alloc, layer.layer()),
    }
}
