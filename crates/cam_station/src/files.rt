//! The files that a script reads and writes.

ghost use Rattle.std.specs.Prelude.{◌≡◌, ℕ, IfErr, IfOk, OnOk, OnErr};
ghost use Rattle.cam_station.specs.Files.{
  FailsIfAbsent,
  HasRisenBy,
  Holds,
  MayHaveStored,
  Stored,
  ToldFiles,
  failures_of,
};

use std::alloc::Global;
use thiserror::Error;

/// Why a file was not read or not written.
#[derive(Clone, Copy, Debug, PartialEq, Eq, Drop, Error)]
pub enum FileFault {
    /// The file could not be read or written.
    #[error("the file failed")]
    Failed,
    /// Memory for its bytes was refused.
    #[error("no memory")]
    Memory,
}

/// Files by their paths.
pub trait Files {
    // What each path holds, as far as the type can tell; nothing where it can tell of none.
    ghost contents: { Self → ToldFiles };

    // How many calls failed; the count stays at `u64::MAX`.
    ghost failed: { Self → ℕ };

    /// The bytes of a file. A path without a file fails.
    fn get(&mut self, alloc: Global, path: &str) -> Result<Vec<u8>, FileFault>
        ensures kept { contents self.new ≡ contents self.old }
        ensures held { IfOk result (λ bytes. Holds (contents self.old) path.now bytes.items) }
        ensures absent { IfErr result (λ fault. FailsIfAbsent (contents self.old) path.now fault) }
        ensures counted { HasRisenBy (failures_of result) (failed self.old) (failed self.new) };

    /// Writes a file anew. Where that fails nothing is known of what this path holds.
    fn put(&mut self, path: &str, bytes: &[u8]) -> Result<(), FileFault>
        ensures stored { OnOk result
            (Stored (contents self.old) (contents self.new) path.now bytes.now) }
        ensures lost { OnErr result
            (MayHaveStored (contents self.old) (contents self.new) path.now) }
        ensures counted { HasRisenBy (failures_of result) (failed self.old) (failed self.new) };

    /// How many calls failed so far; the count stays at `u64::MAX`.
    fn failures(&self) -> u64
        ensures { result ≡ failed self.now };
}
