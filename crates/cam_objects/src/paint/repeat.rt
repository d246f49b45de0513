//! Repeats, painted on a canvas from the last copy on.

ghost use Rattle.std.specs.Prelude.{ℕ, ◌<◌};
ghost use Rattle.cam_objects.specs.Canvases.{Paints};
ghost use Rattle.cam_objects.specs.Machinery.Painting.{IsReadyToPrint, IsUnseen};
ghost use Rattle.cam_objects.specs.Machinery.Repeats.{
  IsPaintableRepeat,
  leaves_of_column,
  leaves_of_copy,
  leaves_of_repeat,
};
ghost use Rattle.cam_objects.specs.Machinery.Runs.{IsInRun, IsWithinCount};

use crate::boxes::placed::moved;
use crate::canvas::{Canvas, is_done_in};
use crate::cells::kept::ItemCells;
use crate::dictionary::Dictionary;
use crate::object::Object;
use crate::paint::objects::paint_block;
use crate::paint::run::Run;
use crate::placing::copies::Copies;
use crate::placing::place::Place;
use cam_units::Bounds;

/// A repeat of objects among the entries that they name, with the box of what its first copy paints, in half nm, and the
/// cells that the objects reach, where they are known.
#[derive(Clone, Copy)]
pub(crate) struct Repeat<'a> {
    pub entries: &'a Dictionary,
    pub objects: &'a [Object],
    pub copies: Copies,
    pub first: Bounds,
    pub cells: Option<&'a ItemCells>,
}

impl<'a> Repeat<'a> {
    /// Paints it from the last column on, if something is left to paint in the box of all copies: those whose boxes meet
    /// that of the canvas.
    pub(crate) fn paint<C: Canvas>(&self, canvas: &mut C)
        requires repeat { IsPaintableRepeat self.now }
        requires ready { IsReadyToPrint self.now.entries.now (leaves_of_repeat self.now) }
        ensures { Paints C.has C.place C.ink canvas.old (leaves_of_repeat self.now) canvas.new }
    {
        let whole = canvas.bounds();
        let rows = self.copies.rows_over(self.first, whole);
        if rows.end <= rows.first {
            return;
        }
        if is_done_in(canvas, self.copies.bounds(self.first)) {
            return;
        }
        let columns = self.copies.columns_over(self.first, whole);
        for column in (columns.first..columns.end).rev() {
            self.paint_column(column, rows, canvas);
        }
    }

    /// Paints a column, from its last row on: the copies in a run of its rows, where no other covers a pixel.
    fn paint_column<C: Canvas>(&self, column: u32, rows: Run, canvas: &mut C)
        requires repeat { IsPaintableRepeat self.now }
        requires column { column < self.now.copies.columns }
        requires ready { IsReadyToPrint self.now.entries.now (leaves_of_column self.now column) }
        requires within { IsWithinCount self.now.copies.rows rows }
        requires unseen { (row : ℕ) → row < self.now.copies.rows → ¬ IsInRun rows row
            → IsUnseen C.has C.place canvas.old (leaves_of_copy self.now column row) }
        ensures { Paints C.has C.place C.ink canvas.old (leaves_of_column self.now column) canvas.new }
    {
        for row in (rows.first..rows.end).rev() {
            self.paint_copy(column, row, canvas);
        }
    }

    /// Paints the copy in a column and a row, if something is left to paint in its box.
    fn paint_copy<C: Canvas>(&self, column: u32, row: u32, canvas: &mut C)
        requires repeat { IsPaintableRepeat self.now }
        requires column { column < self.now.copies.columns }
        requires row { row < self.now.copies.rows }
        requires ready { IsReadyToPrint self.now.entries.now (leaves_of_copy self.now column row) }
        ensures { Paints C.has C.place C.ink canvas.old (leaves_of_copy self.now column row) canvas.new }
    {
        let by = self.copies.offset(column, row);
        if is_done_in(canvas, moved(self.first, by)) {
            return;
        }
        let entries = self.entries;
        let place = Place::shifted(by);
        paint_block(
            entries,
            entries.len(),
            self.objects,
            self.cells,
            &place,
            canvas,
        );
    }
}
