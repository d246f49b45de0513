//! The calls on files of the system that the program makes, as a trait.
//!
//! No clause can say what the system's files hold. What reads and writes them is generic over these calls, so its clauses
//! can say which path is asked for, what that path and all others hold then, and which error is told.

ghost use Rattle.std.specs.Prelude.{◌≡◌, ◌≤◌, length, string_bytes, IfErr, IfOk, OnErr, OnOk, Option, None};
ghost use Rattle.std.specs.declared.io.ErrorKind.{ErrorKind};
ghost use Rattle.cam_refusals.specs.Limits.{file_limit};
ghost use Rattle.cam_station.specs.Files.{Holds, MayHaveStored, Stored, ToldFiles};
ghost use Rattle.camplot.specs.Disk.{HasMoved, IsNamed, Known, TellsOf, error_of, found_by, made_by};

use crate::reading::IoFault;
use std::alloc::Global;
use std::io;
use std::time::SystemTime;

/// What tells a file of the system from all others, whatever its paths: the device that it is on, its number there, and
/// when it was made, since a number is given again once a file is gone.
#[derive(Clone, Copy, PartialEq, Eq)]
pub struct Node {
    pub device: u64,
    pub number: u64,
    pub born: Option<SystemTime>,
}

/// A plain file that can be written.
#[derive(Clone, Copy)]
pub struct About {
    pub node: Node,
    /// Who may read and write it, and whose it is.
    pub mode: u32,
    pub user: u32,
    pub group: u32,
    /// How many paths it has.
    pub links: u64,
}

/// What stands at a path that is to be written.
#[derive(Clone, Copy)]
pub enum Found {
    /// Nothing: a file is made there.
    Nothing,
    /// A plain file.
    Plain(About),
    /// A pipe, a device, or a link that leads nowhere.
    Other,
}

/// A file that was made.
#[derive(Clone, Copy)]
pub struct Made {
    pub node: Node,
    /// How many bytes it has.
    pub count: usize,
}

/// The calls.
pub trait Calls {
    // what each path holds, as far as the type can tell; such a type has no links
    ghost contents: { Self → ToldFiles };

    // the kind of the error that the last call answered, if it answered one; a removal answers none
    ghost error: { Self → Option ErrorKind };

    // what is known of the path that `find` looked at last, and whether a file took it since
    ghost known: { Self → Known };

    /// All bytes of a file.
    fn read(&mut self, alloc: Global, path: &str) -> Result<Vec<u8>, IoFault>
        ensures kept { contents self.new ≡ contents self.old }
        ensures held { IfOk result (λ bytes. Holds (contents self.old) path.now bytes.items) }
        ensures bound { IfOk result (λ bytes. length bytes.items ≤ file_limit) }
        ensures fault { IfErr result (λ fault. TellsOf (error self.new) fault) }
        ensures known { known self.new ≡ known self.old };

    /// What tells the plain file at a path from others. `None` where there is none, or none can be seen.
    fn node(&mut self, path: &str) -> Option<Node>
        ensures kept { contents self.new ≡ contents self.old }
        ensures error { error self.new ≡ None }
        ensures known { known self.new ≡ known self.old };

    /// What stands at a path that is to be written. A plain file that may not be written is an error, and so is a folder.
    fn find(&mut self, path: &str) -> io::Result<Found>
        ensures kept { contents self.new ≡ contents self.old }
        ensures error { error self.new ≡ error_of result }
        ensures known { known self.new ≡ found_by result };

    /// The path of a file without links.
    fn resolve(&mut self, alloc: Global, path: &str) -> io::Result<String>
        ensures kept { contents self.new ≡ contents self.old }
        ensures named { IfOk result (λ real. IsNamed (contents self.old) path.now (string_bytes real)) }
        ensures error { error self.new ≡ error_of result }
        ensures known { known self.new ≡ known self.old };

    /// Makes a file of these bytes, all of which are on the disk then, in place of one that an earlier run has left there.
    /// Where there is a file that it will replace, it is given to the same user and group, and with the same permissions.
    fn make(&mut self, path: &str, like: Option<About>, bytes: &[u8]) -> io::Result<Made>
        ensures made { OnOk result
            (Stored (contents self.old) (contents self.new) path.now bytes.now) }
        ensures count { IfOk result (λ made. made.count ≡ length bytes.now) }
        ensures lost { OnErr result
            (MayHaveStored (contents self.old) (contents self.new) path.now) }
        ensures error { error self.new ≡ error_of result }
        ensures known { known self.new ≡ made_by (known self.old) result };

    /// Gives a file, which was made so, another path. What was there before is replaced, at once.
    fn rename(&mut self, from: &str, made: Made, to: &str) -> io::Result<()>
        ensures moved { OnOk result
            (HasMoved (contents self.old) (contents self.new) from.now to.now) }
        ensures kept { OnErr result (contents self.new ≡ contents self.old) }
        ensures error { error self.new ≡ error_of result }
        ensures known { known self.new ≡ made_by (known self.old) result };

    /// Removes a file, if that is possible.
    fn remove(&mut self, path: &str)
        ensures lost { MayHaveStored (contents self.old) (contents self.new) path.now }
        ensures error { error self.new ≡ error self.old }
        ensures known { known self.new ≡ known self.old };

    /// Writes the bytes over those at a path. Where that fails, nothing is known of what it holds.
    fn write_over(&mut self, path: &str, bytes: &[u8]) -> io::Result<usize>
        ensures stored { OnOk result
            (Stored (contents self.old) (contents self.new) path.now bytes.now) }
        ensures count { IfOk result (λ count. count ≡ length bytes.now) }
        ensures lost { OnErr result
            (MayHaveStored (contents self.old) (contents self.new) path.now) }
        ensures error { error self.new ≡ error_of result }
        ensures known { known self.new ≡ known self.old };
}
