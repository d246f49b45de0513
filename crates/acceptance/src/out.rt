//! An output in memory.

ghost use Rattle.acceptance.specs.InMemory.{IsSilent};

use crate::countdown::Countdown;
use cam_station::Out;
use std::alloc::Global;

/// The bytes that were said.
#[derive(Drop)]
pub struct MemoryOut {
    /// All of them, in order.
    pub said: Vec<u8>,
    says: Countdown,
    failures: u64,
}

impl MemoryOut {
    /// Nothing was said; no call is to fail.
    pub fn new(alloc: Global) -> MemoryOut
        ensures { IsSilent result 0 }
    {
        MemoryOut::failing(alloc, 0)
    }

    /// Nothing was said; the call of this number, counted from 1, is to fail, and none at 0.
    pub fn failing(alloc: Global, say: u64) -> MemoryOut
        ensures { IsSilent result say }
    {
        MemoryOut {
            said: Vec::new(alloc),
            says: Countdown::at(say),
            failures: 0,
        }
    }
}

impl Out for MemoryOut {
    ghost use Rattle.std.specs.Prelude.{◌≡◌};
    ghost use Rattle.std.specs.Bool.{OnFalse, OnTrue};
    ghost use Rattle.std.specs.Io.KnownBytes.{Appends};
    ghost use Rattle.cam_station.specs.Files.{HasRisenBy, unsaid};
    ghost use Rattle.acceptance.specs.InMemory.{IsAfterSay, IsToFail, said_by, unsaid_calls};

    ghost said = { said_by };

    ghost failed = { unsaid_calls };

    fn say(&mut self, bytes: &[u8]) -> bool
        ensures said { OnTrue result (Appends (said_by self.old) (said_by self.new) bytes.now) }
        ensures counted { HasRisenBy (unsaid result) (unsaid_calls self.old) (unsaid_calls self.new) }
        ensures strikes { OnTrue result (¬ IsToFail self.old) }
        ensures left { IsAfterSay self.old self.new }
        // A call that fails, by its number or for want of memory, says nothing.
        ensures silent { OnFalse result (said_by self.new ≡ said_by self.old) }
    {
        if self.says.strikes() {
            self.failures = self.failures.saturating_add(1);
            return false;
        }
        if self.said.extend_from_slice(bytes).is_err() {
            self.failures = self.failures.saturating_add(1);
            return false;
        }
        true
    }

    fn failures(&self) -> u64 {
        self.failures
    }
}
