//! The station: a board, the tiles of its layers in a window, and the history of what was done to the board.

ghost use Rattle.std.specs.Prelude.{◌≡◌, IfErr, IfNone, IfOk, IfSome, None, Ok, OnErr, OnOk, Some};
ghost use Rattle.cam_edits.specs.Sheets.{AreSound, IsSound, sheet_of, sheets_of};
ghost use Rattle.cam_station.specs.Machine.{abort_step, begin_step, edit_of, edit_step, end_step, fault};
ghost use Rattle.cam_station.specs.Machine.{list_layer_step, list_step, load_step, memory_of, plot_step};
ghost use Rattle.cam_station.specs.Machine.{redo_step, redraw_step, station_of, step, undo_step, window_step};
ghost use Rattle.cam_station.specs.Machine.{with_sheet, write_step};
ghost use Rattle.cam_station.specs.TileTables.{tile_at};
ghost use Rattle.cam_refusals.specs.declared.refusal.Refusal.TheVariants.{NoMemory};
ghost use Rattle.cam_station.specs.Calls.{IsRun, after_refusal};
ghost use Rattle.cam_undo.specs.Counted.{counts_at};

use crate::fault::{Fault, without_place};
use crate::reading::read;
use crate::reply::{Numbers, Reply};
use crate::showing::{blank_behind, blanks, draw_all, draw_watched, put_behind, text};
use crate::touching::{touch, touch_accepted, touch_group};
use crate::watch::{Unwatched, Watch};
use cam_edits::{Board, BoardStep, Change, Edit, Name, Reversible, Sheet, plan};
use cam_refusals::Refusal;
use cam_script::{Bytes, Command, FileKind};
use cam_tiles::{Raster, Window};
use cam_undo::{Counts, History};
use std::alloc::{AllocError, Global};
use std::collections::VecDeque;
use std::marker::Model;

/// The greatest number of layers.
const LAYERS: usize = 32;

/// The greatest depth.
const DEPTH: u32 = 1_000;

/// A board, the tiles of each of its layers in a window, and up to `depth` edits and groups that can be taken back.
#[derive(Drop)]
pub struct Station {
    alloc: Global,
    board: Board,
    window: Option<Window>,
    rasters: Vec<Raster>,
    history: History<BoardStep>,
}

impl Model for Station {
    ghost use Rattle.cam_edits.specs.Sheets.{sheets_of};
    ghost use Rattle.cam_undo.specs.Timelines.{IsTied, timeline_of};
    ghost use Rattle.cam_station.specs.Machine.{State};
    ghost use Rattle.cam_station.specs.Machinery.Stations.{IsStation};
    ghost use Rattle.cam_station.specs.Machinery.Touching.{touches_of};
    ghost use Rattle.cam_station.specs.Sound.{IsSoundTimeline};

    ghost Value = { State };

    ghost view = { λ s. record {
      depth = s.history.depth;
      window = s.window;
      timeline = timeline_of ⟦<BoardStep as Reversible>⟧ s.history s.board;
      touches = touches_of s.history;
      tables = s.rasters.items;
    } };

    ghost invariant = { λ s. IsStation s.history.depth s.window (sheets_of s.board) s.rasters.items
        × IsTied ⟦<BoardStep as Reversible>⟧ s.history s.board
        × IsSoundTimeline (timeline_of ⟦<BoardStep as Reversible>⟧ s.history s.board) };
}

impl Station {
    /// An empty station that can take back `depth` edits and groups, from 1 to 1,000; 50 at any other
    /// depth, and 30 where memory was refused.
    pub fn new(alloc: Global, depth: u32) -> Result<Station, Fault>
        ensures { station_of depth (memory_of result) ≡ result }
    {
        if depth < 1 || DEPTH < depth {
            return Err(without_place(Refusal::OutOfLimits));
        }
        let Ok(history) = History::new(alloc, depth as usize) else {
            return Err(without_place(Refusal::NoMemory));
        };
        Ok(Station {
            alloc,
            board: Board::new(alloc),
            window: None,
            rasters: Vec::new(alloc),
            history,
        })
    }

    /// One command. Where it is refused, nothing changes, but that a plot keeps the tiles that it drew.
    ///
    /// The refusals, in the order of their checks: a load 72 while a group is open, 83 where the name is taken, 85
    /// where there are 32 layers, then the fault of its file, with its place: 1 to 26, 28 and 29 of a Gerber file; of a
    /// drill file 1, 4, 6, 23 to 25 and 40 to 48. A window outside its limits 50; a redraw 84 without a window; a plot
    /// 60 without such a layer, 84 without a window; a write 60; an edit as [`plan`] refuses it; a begin 72 while a
    /// group is open; an end or an abort 73 without one; an undo or a redo 72, then 70 or 71 where there is nothing to
    /// take back or to make again; a list of a layer 60. Last comes 30, where memory was refused. Where it was refused
    /// to the reader, 30 has the place 0 and can come before a fault of the file. Redraws, begins, ends and lists take
    /// no memory.
    pub fn apply(&mut self, command: Command) -> Result<Reply, Fault>
        ensures step { step self.old command (memory_of result) ≡ (self.new, result) }
        ensures refused { OnErr result (self.new ≡ after_refusal self.old command) }
    {
        self.step(command)
    }

    /// One step of the machine.
    fn step(&mut self, command: Command) -> Result<Reply, Fault>
        ensures { step self.old command (memory_of result) ≡ (self.new, result) }
    {
        match command {
            Command::Load { name, kind, file } => self.load(name, kind, &file),
            Command::SetWindow {
                x,
                y,
                pitch,
                width,
                height,
            } => self.set_window(Window {
                x,
                y,
                pitch,
                width,
                height,
            }),
            Command::Redraw { at_most } => self.redraw(at_most),
            Command::Plot { name } => self.plot::<(), Unwatched>(&name, &mut Unwatched),
            Command::Write { name } => self.write(&name),
            Command::Insert { name, k, item } => self.change(name, Change::Insert { k, item }),
            Command::Delete { name, k } => self.change(name, Change::Delete { k }),
            Command::Move { name, k, dx, dy } => self.change(name, Change::Move { k, dx, dy }),
            Command::Reorder { name, k, m } => self.change(name, Change::Reorder { k, m }),
            Command::Aperture { name, k, n } => self.change(name, Change::Aperture { k, n }),
            Command::Polarity { name, k, dark } => self.change(name, Change::Polarity { k, dark }),
            Command::Tool { name, k, t } => self.change(name, Change::Tool { k, t }),
            Command::Diameter { name, t, d } => self.change(name, Change::Diameter { t, d }),
            Command::SetAttribute { name, key, fields } => self.change(
                name,
                Change::SetAttribute { key, fields },
            ),
            Command::DropAttribute { name, key } => self.change(
                name,
                Change::DropAttribute { key },
            ),
            Command::Begin => self.begin(),
            Command::End => self.end(),
            Command::Abort => self.abort(),
            Command::Undo => self.undo(),
            Command::Redo => self.redo(),
            Command::ListAll => Ok(self.list()),
            Command::ListLayer { name } => self.list_layer(&name),
        }
    }

    /// Applies the commands, the first one first, and answers what each of them answered.
    /// Where there is no room for the answers, nothing changes.
    pub fn apply_all(
        &mut self,
        mut commands: VecDeque<Command>,
    ) -> Result<Vec<Result<Reply, Fault>>, AllocError>
        ensures ok { IfOk result (λ answers. IsRun self.old commands.items answers.items self.new) }
        ensures err { OnErr result (self.new ≡ self.old) }
    {
        let mut answers = Vec::with_capacity(self.alloc, commands.len())?;
        while let Some(command) = commands.pop_front() {
            let answer = self.apply(command);
            answers.push_reserved(answer);
        }
        Ok(answers)
    }

    /// The rows of a tile of the layer that was loaded as number `layer`, counted from 0: from the top, bit i for column i.
    /// `None` where the tile is dirty, and where there is no such tile, layer or window.
    pub fn tile(&self, layer: usize, tile: u32) -> Option<&[u64; 64]>
        ensures some { IfSome result (λ rows. tile_at self.now.tables layer tile ≡ Some rows.now) }
        ensures none { IfNone result (tile_at self.now.tables layer tile ≡ None) }
    {
        match self.rasters.get(layer) {
            Some(raster) => raster.rows(tile),
            None => None,
        }
    }

    /// How many edits and groups can be taken back, how many can be made again, and how many edits the open group has.
    pub fn history(&self) -> Counts
        ensures { result ≡ counts_at self.now.timeline }
    {
        self.history.counts()
    }

    /// The board.
    pub(crate) fn board(&self) -> &Board
        ensures value { sheets_of result.now ≡ self.now.timeline.document }
        ensures sound { AreSound (sheets_of result.now) }
    {
        &self.board
    }

    /// Reads a file as the last layer; what was done before it can't be taken back any more.
    fn load(&mut self, name: Name, kind: FileKind, file: &Bytes) -> Result<Reply, Fault>
        ensures { load_step self.old name kind file.now (memory_of result) ≡ (self.new, result) }
    {
        if self.history.open_group().is_some() {
            return Err(without_place(Refusal::GroupOpen));
        }
        if self.board.place(&name).is_some() {
            return Err(without_place(Refusal::NameTaken));
        }
        if LAYERS <= self.board.len() {
            return Err(without_place(Refusal::TooManyLayers));
        }
        let content = read(self.alloc, kind, file)?;
        let count = content.item_count() as u64;
        self.add(Sheet { name, content })?;
        Ok(Reply::Numbers(Numbers::One(count)))
    }

    /// Adds a layer, its tiles dirty, and forgets what was done before. Where memory was refused, nothing changes.
    fn add(&mut self, sheet: Sheet) -> Result<(), Fault>
        requires closed { self.old.timeline.group ≡ None }
        requires sound { IsSound (sheet_of sheet).content }
        ensures ok { OnOk result (self.new ≡ with_sheet self.old (sheet_of sheet).name (sheet_of sheet).content) }
        ensures err { OnErr result (self.new ≡ self.old) }
        ensures memory { IfErr result (λ told. told ≡ fault NoMemory) }
    {
        let raster = match blank_behind(self.alloc, self.window, &mut self.rasters) {
            Ok(raster) => raster,
            Err(fault) => {
                // one call, where this way out would take the sheet apart field by field
                drop(sheet);
                return Err(fault);
            }
        };
        if self.board.add(sheet).is_err() {
            drop(raster);
            return Err(without_place(Refusal::NoMemory));
        }
        put_behind(&mut self.rasters, raster);
        self.history.clear();
        Ok(())
    }

    /// Makes all tiles dirty in another window.
    fn set_window(&mut self, window: Window) -> Result<Reply, Fault>
        ensures { window_step self.old window (memory_of result) ≡ (self.new, result) }
    {
        if !window.is_accepted() {
            return Err(without_place(Refusal::OutOfLimits));
        }
        self.rasters = blanks(self.alloc, window, self.board.len())?;
        self.window = Some(window);
        Ok(Reply::Done)
    }

    /// Draws dirty tiles, by layer and then by number.
    fn redraw(&mut self, at_most: u32) -> Result<Reply, Fault>
        ensures { redraw_step self.old at_most ≡ (self.new, result) }
    {
        if self.window.is_none() {
            return Err(without_place(Refusal::NoWindow));
        }
        let drawn = draw_all(self.alloc, &self.board, &mut self.rasters, at_most);
        Ok(Reply::Numbers(Numbers::One(u64::from(drawn))))
    }

    /// Does what [`Station::apply`] does, and lets a watch see the tiles that a plot draws.
    pub(crate) fn apply_watched<F, V: Watch<F>>(
        &mut self,
        command: Command,
        watch: &mut V,
    ) -> Result<Reply, Fault>
        ensures step { step self.old command (memory_of result) ≡ (self.new, result) }
    {
        match command {
            Command::Plot { name } => self.plot::<F, V>(&name, watch),
            other => self.step(other),
        }
    }

    /// Draws the dirty tiles of a layer, and keeps them also where there is no memory for the file.
    fn plot<F, V: Watch<F>>(&mut self, name: &Name, watch: &mut V) -> Result<Reply, Fault>
        ensures { plot_step self.old name.now (memory_of result) ≡ (self.new, result) }
    {
        let Some(place) = self.board.place(name) else {
            return Err(without_place(Refusal::NoLayer));
        };
        if self.window.is_none() {
            return Err(without_place(Refusal::NoWindow));
        }
        let raster = &mut self.rasters[place];
        let drawn = draw_watched::<F, V>(self.alloc, self.board.content(place), raster, watch);
        match raster.to_pbm() {
            Ok(bytes) => Ok(Reply::Bytes {
                bytes: Bytes::from_vec(bytes),
                drawn: u64::from(drawn),
            }),
            Err(_) => Err(without_place(Refusal::NoMemory)),
        }
    }

    fn write(&self, name: &Name) -> Result<Reply, Fault>
        ensures { write_step self.now name.now (memory_of result) ≡ (self.now, result) }
    {
        let Some(place) = self.board.place(name) else {
            return Err(without_place(Refusal::NoLayer));
        };
        match text(self.alloc, self.board.content(place)) {
            Ok(text) => Ok(Reply::Bytes {
                bytes: Bytes::from_vec(text),
                drawn: 0,
            }),
            Err(_) => Err(without_place(Refusal::NoMemory)),
        }
    }

    /// Changes the layer of this name.
    fn change(&mut self, name: Name, change: Change) -> Result<Reply, Fault>
        ensures { edit_step self.old (edit_of name change) (memory_of result) ≡ (self.new, result) }
    {
        self.edit(Edit { name, change })
    }

    fn edit(&mut self, edit: Edit) -> Result<Reply, Fault>
        ensures { edit_step self.old edit (memory_of result) ≡ (self.new, result) }
    {
        match plan(self.alloc, &self.board, edit) {
            Ok(step) => match self.history.accept(&mut self.board, step) {
                Ok(()) => {
                    touch_accepted(&mut self.rasters, &self.history);
                    Ok(Reply::Done)
                }
                Err(_) => Err(without_place(Refusal::NoMemory)),
            },
            Err(fault) => Err(without_place(fault.refusal())),
        }
    }

    fn begin(&mut self) -> Result<Reply, Fault>
        ensures { begin_step self.old ≡ (self.new, result) }
    {
        match self.history.begin() {
            Ok(()) => Ok(Reply::Done),
            Err(fault) => Err(without_place(fault.refusal())),
        }
    }

    fn end(&mut self) -> Result<Reply, Fault>
        ensures { end_step self.old ≡ (self.new, result) }
    {
        match self.history.end() {
            Ok(()) => Ok(Reply::Done),
            Err(fault) => Err(without_place(fault.refusal())),
        }
    }

    fn abort(&mut self) -> Result<Reply, Fault>
        ensures { abort_step self.old (memory_of result) ≡ (self.new, result) }
    {
        match self.history.abort(&mut self.board) {
            Ok(steps) => {
                touch(&mut self.rasters, &steps);
                Ok(Reply::Done)
            }
            Err(fault) => Err(without_place(fault.refusal())),
        }
    }

    fn undo(&mut self) -> Result<Reply, Fault>
        ensures { undo_step self.old (memory_of result) ≡ (self.new, result) }
    {
        match self.history.undo(&mut self.board) {
            Ok(()) => {
                touch_group(&mut self.rasters, self.history.last_redo());
                Ok(Reply::Done)
            }
            Err(fault) => Err(without_place(fault.refusal())),
        }
    }

    fn redo(&mut self) -> Result<Reply, Fault>
        ensures { redo_step self.old (memory_of result) ≡ (self.new, result) }
    {
        match self.history.redo(&mut self.board) {
            Ok(()) => {
                touch_group(&mut self.rasters, self.history.last_undo());
                Ok(Reply::Done)
            }
            Err(fault) => Err(without_place(fault.refusal())),
        }
    }

    fn list(&self) -> Reply
        ensures { list_step self.now ≡ (self.now, Ok result) }
    {
        let layers = self.board.len() as u64;
        let counts = self.history.counts();
        Reply::Numbers(Numbers::Three(layers, counts.past as u64, counts.future as u64))
    }

    fn list_layer(&self, name: &Name) -> Result<Reply, Fault>
        ensures { list_layer_step self.now name.now ≡ (self.now, result) }
    {
        let Some(place) = self.board.place(name) else {
            return Err(without_place(Refusal::NoLayer));
        };
        let content = self.board.content(place);
        let items = content.item_count() as u64;
        let entries = content.entry_count() as u64;
        Ok(Reply::Numbers(Numbers::Two(items, entries)))
    }
}
