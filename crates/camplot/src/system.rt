//! The files of the system, and an output that is a writer.
//!
//! No clause can say what the system's files hold, so its files tell nothing of it; what is read from a reader and said
//! to a writer is told as far as these tell it. What is asked of the system is told in the words of [`Calls`].

ghost use Rattle.std.specs.Prelude.{◌≡◌, is_some};
ghost use Rattle.camplot.specs.Disk.{makes_none};

use crate::calls::{About, Calls, Found};
use crate::originals::Originals;
use crate::reading::{IoFault, Why, fault_of, write_whole};
use crate::saving::{own_path, save};
use cam_station::{FileFault, Files, Out};
use std::alloc::{AllocError, Global};
use std::io::{ErrorKind, Write};

/// What is said of a path without a file that is read, and of one whose folder is not there.
const NO_FILE: &str = "there is no such file";

const NO_FOLDER: &str = "there is no such folder";

/// What to do where a file that was loaded would be replaced.
const KEPT: &str =
    "only the text of its own layer replaces a file that was loaded: name another file";

/// Why no file can be made next to one that is there, in words, where that one may well be written.
fn why_none_is_made(kind: ErrorKind) -> Option<&'static str>
    ensures { is_some result ≡ makes_none kind }
{
    match kind {
        ErrorKind::PermissionDenied => Some("permission is denied"),
        ErrorKind::ReadOnlyFilesystem => Some("its file system is read-only"),
        ErrorKind::ResourceBusy | ErrorKind::CrossesDevices => Some("the file is mounted there"),
        ErrorKind::InvalidFilename => Some("its name would be too long"),
        _ => None,
    }
}

/// The files of the system, by their paths.
#[derive(Drop)]
pub struct Disk<'a, C> {
    alloc: Global,
    calls: C,
    originals: Originals<'a>,
    failures: u64,
    why: Why,
    /// Whether the bytes that were put last went straight to their path.
    is_straight: bool,
    /// Why they did, where a file next to it could not be made.
    straight: Option<&'static str>,
}

impl<'a, C: Calls> Disk<'a, C> {
    pub fn new(alloc: Global, calls: C, originals: Originals<'a>) -> Disk<'a, C> {
        Disk {
            alloc,
            calls,
            originals,
            failures: 0,
            why: Why::NONE,
            is_straight: false,
            straight: None,
        }
    }
}

impl<C> Disk<'_, C> {
    ghost use Rattle.std.specs.Prelude.{◌≡◌};
    ghost use Rattle.cam_station.specs.Files.{HasRisenBy, fault_failures};
    ghost use Rattle.camplot.specs.Disk.{fault_heard};

    /// Why the last of its files that failed did, and what to do.
    pub fn why(&self) -> Why {
        self.why
    }

    /// Why the bytes that were put last went straight to their path, where they usually do not.
    pub fn straight(&self) -> Option<&'static str> {
        self.straight
    }

    /// Counts a failure of a file, and keeps why it failed; want of memory is none.
    fn counted(&mut self, fault: IoFault, missing: &'static str) -> FileFault
        ensures fault { result ≡ fault_heard fault }
        ensures counted { HasRisenBy (fault_failures (fault_heard fault)) self.old.failures self.new.failures }
        ensures calls { self.new.calls ≡ self.old.calls }
        ensures straight { self.new.is_straight ≡ self.old.is_straight }
    {
        let told = fault.file_fault();
        if told == FileFault::Failed {
            self.failures = self.failures.saturating_add(1);
            self.why = fault.why(missing);
        }
        told
    }

    /// Counts a file that may not be replaced as a failure.
    fn kept(&mut self, reason: &'static str) -> FileFault
        ensures fault { result ≡ FileFault.Failed }
        ensures counted { HasRisenBy 1 self.old.failures self.new.failures }
        ensures calls { self.new.calls ≡ self.old.calls }
        ensures straight { self.new.is_straight ≡ self.old.is_straight }
    {
        self.failures = self.failures.saturating_add(1);
        self.why = Why {
            reason,
            remedy: Some(KEPT),
        };
        FileFault::Failed
    }
}

impl<C: Calls> Disk<'_, C> {
    ghost use Rattle.std.specs.Prelude.{◌≡◌, IfErr, OnErr, OnOk, None, is_some, true, false};
    ghost use Rattle.cam_station.specs.Files.{HasRisenBy, MayHaveStored, Stored, failures_of};
    ghost use Rattle.camplot.specs.Disk.{
      IsHeardOf,
      IsPlain,
      IsReplaced,
      IsUnmadeBy,
      MayBeStraight,
      TellsOf,
      found_of,
      own_path,
    };

    /// Keeps the file of a load, so that no picture replaces it.
    fn keep(&mut self, path: &str) -> Result<(), AllocError>
        ensures kept { C.contents self.new.calls ≡ C.contents self.old.calls }
        ensures failures { self.new.failures ≡ self.old.failures }
        ensures error { OnErr result (C.error self.new.calls ≡ None) }
    {
        if !self.originals.loads() {
            return Ok(());
        }
        match self.calls.node(path) {
            Some(node) => self.originals.keep(node),
            None => Ok(()),
        }
    }

    /// Writes straight to the path.
    #[tactic(auto, using(crate::proofs::Faults::tells_of, crate::proofs::Faults::heard_of,))]
    fn put_straight(
        &mut self,
        path: &str,
        bytes: &[u8],
        reason: Option<&'static str>,
    ) -> Result<(), FileFault>
        ensures stored { OnOk result
            (Stored (C.contents self.old.calls) (C.contents self.new.calls) path.now bytes.now) }
        ensures straight { self.new.is_straight ≡ true }
        ensures known { C.known self.new.calls ≡ C.known self.old.calls }
        ensures counted { HasRisenBy (failures_of result) self.old.failures self.new.failures }
        ensures fault { IfErr result (λ told. IsHeardOf (C.error self.new.calls) told) }
    {
        self.is_straight = true;
        self.straight = reason;
        match self.calls.write_over(path, bytes) {
            Ok(count) => {
                prove!(count == bytes.len());
                Ok(())
            }
            Err(error) => Err(self.counted(fault_of(&error), NO_FOLDER)),
        }
    }

    /// What is done where no file of the program's own took the path: a file that is there is written straight on, where
    /// its folder alone was why.
    #[tactic(auto, using(crate::proofs::Faults::heard_of,))]
    fn put_anyway(
        &mut self,
        fault: IoFault,
        path: &str,
        is_there: bool,
        bytes: &[u8],
    ) -> Result<(), FileFault>
        ensures stored { OnOk result
            (Stored (C.contents self.old.calls) (C.contents self.new.calls) path.now bytes.now) }
        ensures kept { self.new.is_straight ≡ false → C.contents self.new.calls ≡ C.contents self.old.calls }
        ensures straight { self.old.is_straight ≡ false
            → (is_there ≡ true → IsPlain (found_of (C.known self.old.calls)))
            → IsUnmadeBy (C.known self.old.calls) fault
            → self.new.is_straight ≡ true → MayBeStraight (C.known self.new.calls) }
        ensures counted { HasRisenBy (failures_of result) self.old.failures self.new.failures }
        ensures fault { TellsOf (C.error self.old.calls) fault
            → IfErr result (λ told. IsHeardOf (C.error self.new.calls) told) }
    {
        if is_there
            && let IoFault::Failed(kind) = fault
            && let Some(reason) = why_none_is_made(kind)
        {
            return self.put_straight(path, bytes, Some(reason));
        }
        Err(self.counted(fault, NO_FOLDER))
    }

    /// Writes the file at a path without links.
    #[tactic(auto, using(crate::proofs::Faults::heard_none, crate::proofs::Replacing::lost_and_lost, crate::proofs::Replacing::lost_and_stored, crate::proofs::Replacing::lost_and_kept, crate::proofs::Replacing::kept_is_lost,))]
    fn put_whole(&mut self, path: &str, like: Option<About>, bytes: &[u8]) -> Result<(), FileFault>
        ensures replaced { OnOk result (IsReplaced (C.contents self.old.calls) (C.contents self.new.calls)
            (own_path path.now) path.now bytes.now) }
        ensures whole { self.new.is_straight ≡ false → OnErr result
            (MayHaveStored (C.contents self.old.calls) (C.contents self.new.calls) (own_path path.now)) }
        ensures straight { self.old.is_straight ≡ false
            → (is_some like ≡ true → IsPlain (found_of (C.known self.old.calls)))
            → self.new.is_straight ≡ true → MayBeStraight (C.known self.new.calls) }
        ensures counted { HasRisenBy (failures_of result) self.old.failures self.new.failures }
        ensures fault { C.error self.old.calls ≡ None
            → IfErr result (λ told. IsHeardOf (C.error self.new.calls) told) }
    {
        let Ok(own) = own_path(self.alloc, path) else {
            return Err(FileFault::Memory);
        };
        match save(&mut self.calls, own.as_str(), path, like, bytes) {
            Ok(node) => {
                if let Some(old) = like {
                    self.originals.replaced(old, node);
                }
                Ok(())
            }
            Err(fault) => self.put_anyway(fault, path, like.is_some(), bytes),
        }
    }

    /// Writes over a plain file, unless it is one that was loaded.
    #[tactic(auto, using(crate::proofs::Faults::heard_none, crate::proofs::Faults::tells_of, crate::proofs::Faults::heard_of, crate::proofs::Replacing::kept_is_lost, crate::proofs::Replacing::kept_and_replaced, crate::proofs::Replacing::kept_and_lost, crate::proofs::Replacing::named_is_replaced, crate::proofs::Replacing::named_is_lost, crate::proofs::Straight::still_plain,))]
    fn put_over(&mut self, about: About, path: &str, bytes: &[u8]) -> Result<(), FileFault>
        ensures replaced { OnOk result (IsReplaced (C.contents self.old.calls) (C.contents self.new.calls)
            (own_path path.now) path.now bytes.now) }
        ensures whole { self.new.is_straight ≡ false → OnErr result
            (MayHaveStored (C.contents self.old.calls) (C.contents self.new.calls) (own_path path.now)) }
        ensures straight { self.old.is_straight ≡ false → IsPlain (found_of (C.known self.old.calls))
            → self.new.is_straight ≡ true → MayBeStraight (C.known self.new.calls) }
        ensures counted { HasRisenBy (failures_of result) self.old.failures self.new.failures }
        ensures fault { C.error self.old.calls ≡ None
            → IfErr result (λ told. IsHeardOf (C.error self.new.calls) told) }
    {
        if let Some(reason) = self.originals.forbids(about.node) {
            return Err(self.kept(reason));
        }
        if about.links > 1 && self.originals.room().is_err() {
            return Err(FileFault::Memory);
        }
        match self.calls.resolve(self.alloc, path) {
            Ok(real) => self.put_whole(real.as_str(), Some(about), bytes),
            Err(error) => Err(self.counted(fault_of(&error), NO_FOLDER)),
        }
    }
}

impl<'a, C: Calls> Files for Disk<'a, C> {
    ghost use Rattle.std.specs.Prelude.{◌≡◌, ◌≤◌, IfErr, IfOk, OnErr, OnOk, None, length};
    ghost use Rattle.cam_station.specs.Files.{
      FailsIfAbsent,
      HasRisenBy,
      Holds,
      MayHaveStored,
      Stored,
      failures_of,
    };
    ghost use Rattle.cam_refusals.specs.Limits.{file_limit};
    ghost use Rattle.camplot.specs.Disk.{IsHeardOf, IsReplaced, MayBeStraight, own_path};

    ghost contents = { λ _. None };

    ghost failed = { λ disk. disk.failures };

    fn get(&mut self, alloc: Global, path: &str) -> Result<Vec<u8>, FileFault>
        // Of the system's files nothing is told.
        ensures held { IfOk result (λ bytes. Holds None path.now bytes.items) }
        ensures absent { IfErr result (FailsIfAbsent None path.now) }
        ensures counted { HasRisenBy (failures_of result) self.old.failures self.new.failures }
        ensures bound { IfOk result (λ bytes. length bytes.items ≤ file_limit) }
        // Of the calls it is told which path was read, and that want of memory is no failure of the file.
        ensures kept { C.contents self.new.calls ≡ C.contents self.old.calls }
        ensures asked { IfOk result (λ bytes. Holds (C.contents self.old.calls) path.now bytes.items) }
        ensures fault { IfErr result (λ told. IsHeardOf (C.error self.new.calls) told) }
    {
        if self.keep(path).is_err() {
            return Err(FileFault::Memory);
        }
        match self.calls.read(alloc, path) {
            Ok(bytes) => Ok(bytes),
            Err(fault) => Err(self.counted(fault, NO_FILE)),
        }
    }

    #[tactic(auto, using(crate::proofs::Faults::tells_of, crate::proofs::Faults::heard_of, crate::proofs::Replacing::kept_is_lost, crate::proofs::Replacing::kept_and_replaced, crate::proofs::Replacing::kept_and_lost, crate::proofs::Replacing::kept_and_stored, crate::proofs::Replacing::stored_is_replaced,))]
    fn put(&mut self, path: &str, bytes: &[u8]) -> Result<(), FileFault>
        ensures stored { OnOk result (Stored None None path.now bytes.now) }
        ensures lost { OnErr result (MayHaveStored None None path.now) }
        ensures counted { HasRisenBy (failures_of result) self.old.failures self.new.failures }
        // The path has the bytes, or what it had before, unless it is no plain file or no file can be made next to it. The
        // program's own file next to it aside, no other path was written.
        ensures replaced { OnOk result (IsReplaced (C.contents self.old.calls) (C.contents self.new.calls)
            (own_path path.now) path.now bytes.now) }
        ensures whole { ¬ MayBeStraight (C.known self.new.calls) → OnErr result
            (MayHaveStored (C.contents self.old.calls) (C.contents self.new.calls) (own_path path.now)) }
        ensures fault { IfErr result (λ told. IsHeardOf (C.error self.new.calls) told) }
    {
        self.is_straight = false;
        self.straight = None;
        match self.calls.find(path) {
            Ok(Found::Nothing) => self.put_whole(path, None, bytes),
            Ok(Found::Plain(about)) => self.put_over(about, path, bytes),
            Ok(Found::Other) => self.put_straight(path, bytes, None),
            Err(error) => Err(self.counted(fault_of(&error), NO_FOLDER)),
        }
    }

    fn failures(&self) -> u64 {
        self.failures
    }
}

/// A writer as the output: what it holds is what was said.
#[derive(Drop)]
pub struct Screen<W> {
    writer: W,
    failures: u64,
}

impl<W: Write> Screen<W> {
    pub fn new(writer: W) -> Screen<W> {
        Screen {
            writer,
            failures: 0,
        }
    }
}

impl<W: Write> Out for Screen<W> {
    ghost said = { λ screen. W.contents screen.writer };

    ghost failed = { λ screen. screen.failures };

    fn say(&mut self, bytes: &[u8]) -> bool {
        if write_whole(&mut self.writer, bytes).is_err() {
            self.failures = self.failures.saturating_add(1);
            return false;
        }
        true
    }

    fn failures(&self) -> u64 {
        self.failures
    }
}
