//! The tiles that steps touch on the layers of a station.

ghost use Rattle.std.specs.Prelude.{◌≡◌, ◌∷◌, [], map};
ghost use Rattle.std.specs.Option.{option_copied};
ghost use Rattle.cam_edits.specs.Touches.{touch_of};
ghost use Rattle.cam_station.specs.TileTables.{touched_in};
ghost use Rattle.cam_station.specs.Machinery.Touching.{group_touches, last_accepted, touches_of};
ghost use Rattle.cam_tiles.specs.Touched.{touched_by};

use cam_edits::BoardStep;
use cam_tiles::Raster;
use cam_undo::History;
use cam_units::Bounds;

/// Makes the tiles dirty that the step touches which was accepted last.
pub(crate) fn touch_accepted(rasters: &mut [Raster], history: &History<BoardStep>)
    ensures { rasters.new ≡ touched_in (last_accepted (touches_of history.now)) rasters.old }
{
    match history.open_group() {
        Some(group) => touch(rasters, &group[group.len().saturating_sub(1)..]),
        None => touch_group(rasters, history.last_undo()),
    }
}

/// Makes the tiles dirty that the steps of a group touch, where there is one.
pub(crate) fn touch_group(rasters: &mut [Raster], group: Option<&[BoardStep]>)
    ensures { rasters.new ≡ touched_in (group_touches (option_copied group.entry)) rasters.old }
{
    if let Some(steps) = group {
        touch(rasters, steps);
    }
}

/// Makes the tiles dirty that the steps touch, each on its layer.
pub(crate) fn touch(rasters: &mut [Raster], steps: &[BoardStep])
    ensures { rasters.new ≡ touched_in (map touch_of steps.now) rasters.old }
{
    for step in steps {
        touch_one(rasters, step);
    }
}

/// Makes the tiles dirty that a step touches.
fn touch_one(rasters: &mut [Raster], step: &BoardStep)
    ensures { rasters.new ≡ touched_in (touch_of step.now ∷ []) rasters.old }
{
    let sheet = step.sheet();
    if sheet < rasters.len() {
        touch_boxes(&mut rasters[sheet], step.boxes());
    }
}

/// Makes the tiles dirty that boxes touch.
fn touch_boxes(raster: &mut Raster, boxes: &[Bounds])
    ensures { raster.new ≡ touched_by boxes.now raster.old }
{
    for bounds in boxes {
        raster.touch(*bounds);
    }
}
