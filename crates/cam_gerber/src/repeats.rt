//! Repeats, and the end of a file.

ghost use Rattle.std.specs.Prelude.{◌≡◌, ◌*◌, ◌||◌, ◌&&◌, min, not};
ghost use Rattle.cam_commands.specs.Commands as command;
ghost use Rattle.cam_objects.specs.Leaves.{item_leaves, meaning_in};
ghost use Rattle.cam_objects.specs.declared.item.Item.TheVariants as item;
ghost use Rattle.cam_gerber.specs.Faults.{are_leaves_on_board, is_left_out, is_malformed};
ghost use Rattle.cam_objects.specs.Soundness.{is_short};
ghost use Rattle.cam_gerber.specs.Homes.{copies_written, has_copies};
ghost use Rattle.cam_gerber.specs.Machinery.Closing.{Adds, opened_by, step_by};
ghost use Rattle.cam_gerber.specs.Machinery.Tracking.{HasPast, Settles, Takes};
ghost use Rattle.cam_gerber.specs.Machinery.WellMade.{IsWellMadeItem};

use crate::built::Built;
use crate::checks::is_of_board;
use crate::frames::OpenRepeat;
use crate::homes::has_room;
use crate::object_list::ObjectList;
use crate::running::Running;
use crate::state::is_malformed;
use cam_commands::{Repeat, Slot};
use cam_objects::Item;
use cam_refusals::limits::{BOARD_LIMIT, COUNT_LIMIT};
use cam_refusals::{Refusal, Stop};
use cam_units::{Nm, Unit, fix9_nm};
use std::alloc::Global;

/// One column or row where none are written.
fn copies_written(slot: Slot<u32>) -> u32
    ensures { result ≡ copies_written slot }
{
    match slot {
        Slot::Written(n) => n,
        Slot::Omitted | Slot::Malformed => 1,
    }
}

/// A step in nm; one that is not written is 0.
fn step(unit: Unit, slot: &Slot<i64>) -> Nm
    ensures { result.0 ≡ step_by unit slot.now }
{
    match slot {
        Slot::Written(n) => fix9_nm(*n, unit),
        Slot::Omitted | Slot::Malformed => Nm(0),
    }
}

/// Whether the step is under a metre.
fn is_short(step: Nm) -> bool
    ensures { result ≡ is_short step.0 }
{
    step.0.unsigned_abs() < BOARD_LIMIT
}

/// Whether there is more than one copy.
fn has_copies(repeat: &Repeat) -> bool
    ensures { result ≡ has_copies repeat.now }
{
    u64::from(copies_written(repeat.columns)) * u64::from(copies_written(repeat.rows)) > 1
}

/// Whether a number of the repeat does not fit its grammar.
fn has_malformed(repeat: &Repeat) -> bool
    ensures { result
        ≡ (is_malformed repeat.now.columns || is_malformed repeat.now.rows
        || is_malformed repeat.now.i || is_malformed repeat.now.j) }
{
    is_malformed(&repeat.columns)
        || is_malformed(&repeat.rows)
        || is_malformed(&repeat.i)
        || is_malformed(&repeat.j)
}

/// How many leaves copies of so many leaves have, up to the greatest number.
fn copied_leaves(columns: u32, rows: u32, leaves: u64) -> u64
    ensures { result ≡ min (columns * rows * leaves) 18446744073709551615 }
{
    let copies = u64::from(columns) * u64::from(rows);
    copies.saturating_mul(leaves)
}

/// Whether the steps are under a metre.
fn has_steps_on_board(unit: Unit, repeat: &Repeat) -> bool
    ensures { result ≡ (is_short (step_by unit repeat.now.i) && is_short (step_by unit repeat.now.j)) }
{
    is_short(step(unit, &repeat.i)) && is_short(step(unit, &repeat.j))
}

impl OpenRepeat {
    /// A repeat that is opened, without an object.
    fn new(alloc: Global, unit: Unit, repeat: &Repeat) -> OpenRepeat
        ensures { result ≡ opened_by unit repeat.now }
    {
        OpenRepeat {
            columns: copies_written(repeat.columns),
            rows: copies_written(repeat.rows),
            i: step(unit, &repeat.i).0,
            j: step(unit, &repeat.j).0,
            objects: ObjectList::new(alloc),
            leaves: 0,
        }
    }

    /// The item that it is when it is closed.
    fn into_item(self) -> Item
        ensures { result ≡ item.Repeat self.columns self.rows self.i self.j self.objects }
    {
        Item::Repeat {
            columns: self.columns,
            rows: self.rows,
            i: self.i,
            j: self.j,
            objects: self.objects.into_objects(),
        }
    }
}

impl Built {
    /// Whether a leaf of the item lies outside the board.
    fn is_outside(&self, item: &Item) -> bool
        requires { IsWellMadeItem self.now.layer.apertures item.now }
        ensures { result ≡ not (are_leaves_on_board (item_leaves (meaning_in self.now.layer.apertures) item.now)) }
    {
        is_of_board(&self.layer.check_item(item))
    }

    /// Adds an item of so many leaves.
    fn add_item(&mut self, item: Item, leaves: u64) -> Result<(), Stop>
        requires { IsWellMadeItem self.old.layer.apertures item }
        ensures { Adds item leaves self.old result self.new }
    {
        if self.is_outside(&item) {
            return Err(Stop::Fault(Refusal::OutOfBoard));
        }
        if self.layer.items.len() >= COUNT_LIMIT || !has_room(self.leaves, leaves) {
            return Err(Stop::Fault(Refusal::TooMuch));
        }
        self.layer.items.push(item)?;
        self.leaves += leaves;
        Ok(())
    }
}

impl Running {
    /// Closes the open repeat, which joins the items if it has objects.
    fn settle(&mut self) -> Result<(), Stop>
        requires { HasPast self.old }
        ensures { Settles self.old result self.new }
    {
        let Some(repeat) = self.frames.repeat.take() else {
            return Ok(());
        };
        if repeat.objects.is_empty() {
            return Ok(());
        }
        let leaves = copied_leaves(repeat.columns, repeat.rows, repeat.leaves);
        self.built.add_item(repeat.into_item(), leaves)
    }

    /// Whether the repeat would lie in a block.
    fn is_nested(&self, repeat: &Repeat) -> bool
        ensures { result ≡ (has_copies repeat.now && not (is_left_out self.now.frames.blocks.items)) }
    {
        has_copies(repeat) && !self.frames.blocks.is_empty()
    }

    /// SR with parameters: the open repeat is closed, and a repeat of more than one copy is opened.
    pub fn set_repeat(&mut self, repeat: &Repeat) -> Result<(), Stop>
        requires { HasPast self.old }
        ensures { Takes (command.SetRepeat repeat.now) self.old result self.new }
    {
        if has_malformed(repeat) {
            return Err(Stop::Fault(Refusal::BadNumber));
        }
        let Some(unit) = self.modal.unit else {
            return Err(Stop::Fault(Refusal::NoUnit));
        };
        if self.is_nested(repeat) {
            return Err(Stop::Fault(Refusal::NestedRepeat));
        }
        if self.region.inside {
            return Err(Stop::Fault(Refusal::StrayBlock));
        }
        if !has_steps_on_board(unit, repeat) {
            return Err(Stop::Fault(Refusal::OutOfBoard));
        }
        if let Err(stop) = self.settle() {
            return Err(stop);
        }
        if has_copies(repeat) {
            self.frames.repeat = Some(OpenRepeat::new(self.alloc, unit, repeat));
        }
        Ok(())
    }

    /// SR alone: the open repeat is closed.
    pub fn close_repeat(&mut self) -> Result<(), Stop>
        requires { HasPast self.old }
        ensures { Takes command.CloseRepeat self.old result self.new }
    {
        if self.region.inside {
            return Err(Stop::Fault(Refusal::StrayBlock));
        }
        self.settle()
    }

    /// M02: the open repeat is closed.
    pub fn end(&mut self) -> Result<(), Stop>
        requires { HasPast self.old }
        ensures { Takes command.End self.old result self.new }
    {
        if self.region.inside || !self.frames.blocks.is_empty() {
            return Err(Stop::Fault(Refusal::StrayBlock));
        }
        self.settle()
    }
}
