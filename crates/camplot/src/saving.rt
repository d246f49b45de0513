//! How a file is written: whole, or not at all.
//!
//! The bytes go to a file of the program's own next to the one that is written, and once they are all on the disk it takes
//! that one's path. So whatever fails, and whenever the run is killed, the path has the file of before or the new one.

ghost use Rattle.std.specs.Prelude.{◌≡◌, IfErr, IfOk, OnErr, OnOk, string_bytes};
ghost use Rattle.cam_station.specs.Files.{MayHaveStored};
ghost use Rattle.camplot.specs.Disk.{HasMoved, IsReplaced, IsUnmadeBy, TellsOf, found_of, own_path};

use crate::calls::{About, Calls, Made, Node};
use crate::reading::{IoFault, fault_of};
use std::alloc::{AllocError, Global};

/// What is behind the path of a file in that of the program's own. A script cannot name such a path, since it has blanks.
const OWN: &str = " (camplot, unfinished)";

/// The path of the program's own file, while the file at this path is written.
pub fn own_path(alloc: Global, path: &str) -> Result<String, AllocError>
    ensures { IfOk result (λ own. string_bytes own ≡ own_path path.now) }
{
    let mut own = String::from_str(alloc, path)?;
    own.push_str(OWN)?;
    Ok(own)
}

/// Gives a file that was made the path of another. Where that fails, it is removed.
#[tactic(auto, using(crate::proofs::Faults::tells_of, crate::proofs::Replacing::kept_and_lost,))]
fn replace<C: Calls>(calls: &mut C, own: &str, made: Made, path: &str) -> Result<Node, IoFault>
    ensures ok { OnOk result
        (HasMoved (C.contents calls.old) (C.contents calls.new) own.now path.now) }
    ensures err { OnErr result
        (MayHaveStored (C.contents calls.old) (C.contents calls.new) own.now) }
    ensures fault { IfErr result (λ fault. TellsOf (C.error calls.new) fault) }
    ensures found { found_of (C.known calls.new) ≡ found_of (C.known calls.old) }
    ensures unmade { IfErr result (λ fault. IsUnmadeBy (C.known calls.new) fault) }
{
    match calls.rename(own, made, path) {
        Ok(()) => Ok(made.node),
        Err(error) => {
            calls.remove(own);
            Err(fault_of(&error))
        }
    }
}

/// Writes a file by way of another, the program's own. Where that fails, the file is the one of before, as is each but the
/// program's own.
#[tactic(auto, using(crate::proofs::Faults::tells_of, crate::proofs::Replacing::made_and_moved, crate::proofs::Replacing::stored_is_lost, crate::proofs::Replacing::lost_and_lost,))]
pub fn save<C: Calls>(
    calls: &mut C,
    own: &str,
    path: &str,
    like: Option<About>,
    bytes: &[u8],
) -> Result<Node, IoFault>
    ensures ok { OnOk result
        (IsReplaced (C.contents calls.old) (C.contents calls.new) own.now path.now bytes.now) }
    ensures err { OnErr result
        (MayHaveStored (C.contents calls.old) (C.contents calls.new) own.now) }
    ensures fault { IfErr result (λ fault. TellsOf (C.error calls.new) fault) }
    ensures found { found_of (C.known calls.new) ≡ found_of (C.known calls.old) }
    ensures unmade { IfErr result (λ fault. IsUnmadeBy (C.known calls.new) fault) }
{
    match calls.make(own, like, bytes) {
        Ok(made) => replace(calls, own, made, path),
        Err(error) => Err(fault_of(&error)),
    }
}
