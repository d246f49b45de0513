//! Files in memory.

ghost use Rattle.std.specs.Prelude.{◌≡◌, IfOk};
ghost use Rattle.acceptance.specs.InMemory.{IsEmpty};

use crate::countdown::Countdown;
use cam_station::{Bytes, FileFault, Files};
use std::alloc::{AllocError, Global};
use std::collections::BTreeMap;

/// Files in memory. A path that is not there counts as a failure.
#[derive(Drop)]
pub struct MemoryFiles {
    alloc: Global,
    /// What each path holds.
    pub held: BTreeMap<String, Bytes>,
    gets: Countdown,
    puts: Countdown,
    failures: u64,
}

impl MemoryFiles {
    /// No file; no call is to fail.
    pub fn new(alloc: Global) -> MemoryFiles
        ensures { IsEmpty result 0 0 }
    {
        MemoryFiles::failing(alloc, 0, 0)
    }

    /// No file; the get and the put of these numbers, counted from 1, are to fail, and none
    /// at 0.
    pub fn failing(alloc: Global, get: u64, put: u64) -> MemoryFiles
        ensures { IsEmpty result get put }
    {
        MemoryFiles {
            alloc,
            held: BTreeMap::new(alloc),
            gets: Countdown::at(get),
            puts: Countdown::at(put),
            failures: 0,
        }
    }
}

fn copy_of(alloc: Global, bytes: &[u8]) -> Result<Bytes, AllocError>
    ensures { IfOk result (λ copy. copy ≡ bytes.now) }
{
    Ok(Bytes::from_vec(bytes.to_vec(alloc)?))
}

impl Files for MemoryFiles {
    ghost use Rattle.std.specs.Prelude.{◌≡◌, IfErr, IfOk, MatchResult, OnErr, OnOk};
    ghost use Rattle.cam_station.specs.Files.{
      FailsIfAbsent,
      HasRisenBy,
      Holds,
      MayHaveStored,
      Stored,
      failures_of,
    };
    ghost use Rattle.acceptance.specs.InMemory.{
      FailsBy,
      IsAfterGet,
      IsAfterPut,
      KeepsFiles,
      failed_calls,
      get_of,
      put_of,
      told_files,
    };

    ghost contents = { told_files };

    ghost failed = { failed_calls };

    fn get(&mut self, alloc: Global, path: &str) -> Result<Vec<u8>, FileFault>
        ensures kept { told_files self.new ≡ told_files self.old }
        ensures held { IfOk result (λ bytes. Holds (told_files self.old) path.now bytes.items) }
        ensures absent { IfErr result (λ fault. FailsIfAbsent (told_files self.old) path.now fault) }
        ensures counted { HasRisenBy (failures_of result) (failed_calls self.old) (failed_calls self.new) }
        // Memory alone can be wanting where the file is there.
        ensures exact { MatchResult result
            (λ bytes. get_of self.old path.now ≡ Ok bytes.items)
            (FailsBy (get_of self.old path.now)) }
        ensures left { IsAfterGet self.old self.new }
    {
        if self.gets.strikes() {
            self.failures = self.failures.saturating_add(1);
            return Err(FileFault::Failed);
        }
        match self.held.get(path) {
            Some(bytes) => match bytes.as_slice().to_vec(alloc) {
                Ok(copy) => Ok(copy),
                Err(_) => Err(FileFault::Memory),
            },
            None => {
                self.failures = self.failures.saturating_add(1);
                Err(FileFault::Failed)
            }
        }
    }

    fn put(&mut self, path: &str, bytes: &[u8]) -> Result<(), FileFault>
        ensures stored { OnOk result
            (Stored (told_files self.old) (told_files self.new) path.now bytes.now) }
        ensures lost { OnErr result
            (MayHaveStored (told_files self.old) (told_files self.new) path.now) }
        ensures counted { HasRisenBy (failures_of result) (failed_calls self.old) (failed_calls self.new) }
        ensures exact { MatchResult result
            (λ done. put_of self.old ≡ Ok done)
            (FailsBy (put_of self.old)) }
        ensures left { IsAfterPut self.old self.new }
        ensures unchanged { OnErr result (KeepsFiles self.old self.new) }
    {
        if self.puts.strikes() {
            self.failures = self.failures.saturating_add(1);
            return Err(FileFault::Failed);
        }
        let Ok(key) = String::from_str(self.alloc, path) else {
            return Err(FileFault::Memory);
        };
        let Ok(copy) = copy_of(self.alloc, bytes) else {
            return Err(FileFault::Memory);
        };
        match self.held.insert(key, copy) {
            Ok(_) => Ok(()),
            Err(_) => Err(FileFault::Memory),
        }
    }

    fn failures(&self) -> u64 {
        self.failures
    }
}
