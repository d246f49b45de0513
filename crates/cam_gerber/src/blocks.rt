//! Blocks.

ghost use Rattle.std.specs.Prelude.{◌≡◌, ◌==◌};
ghost use Rattle.std.specs.List.{list_any};
ghost use Rattle.cam_commands.specs.Commands as command;
ghost use Rattle.cam_gerber.specs.Faults.{is_taken};
ghost use Rattle.cam_gerber.specs.State.{Past};
ghost use Rattle.cam_gerber.specs.Machinery.Tracking.{HasPast, Takes, TracksPlaces};

use crate::frames::OpenBlock;
use crate::object_list::ObjectList;
use crate::running::Running;
use cam_objects::Entry;
use cam_refusals::limits::DEPTH_LIMIT;
use cam_refusals::{Refusal, Stop};

impl Running {
    /// Whether an open block has the number.
    fn is_open(&self, number: u32) -> bool
        ensures { result ≡ list_any (λ block. block.number == number) self.now.frames.blocks.items }
    {
        self.frames
            .blocks
            .iter()
            .any(|block| block.number == number)
    }

    /// Whether the dictionary or an open block has the number.
    pub fn is_taken(&self, number: u32) -> bool
        ensures { (past : Past) → TracksPlaces past self.now → result ≡ is_taken past number }
    {
        if self.built.is_defined(number) {
            return true;
        }
        self.is_open(number)
    }

    /// AB with a number: a block is opened.
    pub fn open_block(&mut self, number: Option<u32>) -> Result<(), Stop>
        ensures { Takes (command.OpenBlock number) self.old result self.new }
    {
        let Some(number) = number else {
            return Err(Stop::Fault(Refusal::BadNumber));
        };
        if self.is_taken(number) {
            return Err(Stop::Fault(Refusal::Redefined));
        }
        if self.region.inside {
            return Err(Stop::Fault(Refusal::StrayBlock));
        }
        if self.frames.repeat.is_some() {
            return Err(Stop::Fault(Refusal::StrayBlock));
        }
        if self.frames.blocks.len() as u64 >= DEPTH_LIMIT {
            return Err(Stop::Fault(Refusal::TooMuch));
        }
        let objects = ObjectList::new(self.alloc);
        self.frames.blocks.push_front(OpenBlock {
            number,
            objects,
            leaves: 0,
        })?;
        Ok(())
    }

    /// AB alone: the innermost block is closed, and joins the dictionary.
    pub fn close_block(&mut self) -> Result<(), Stop>
        requires { HasPast self.old }
        ensures { Takes command.CloseBlock self.old result self.new }
    {
        if self.region.inside {
            return Err(Stop::Fault(Refusal::StrayBlock));
        }
        let Some(block) = self.frames.blocks.pop_front() else {
            return Err(Stop::Fault(Refusal::StrayBlock));
        };
        let OpenBlock {
            number,
            objects,
            ..
        } = block;
        let entry = Entry::Block(objects.into_objects());
        self.built.layer.apertures.push(number, entry)?;
        Ok(())
    }
}
