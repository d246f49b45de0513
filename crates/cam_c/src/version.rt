//! The version of the library, and the function that answers it.

ghost use Rattle.std.specs.Prelude.{◌≡◌, List, Option, length, ℕ};
ghost use Rattle.std.specs.Borrow.{u8};
ghost use Rattle.cam_c.specs.Calls.{IsCopied};
ghost use Rattle.cam_c.specs.Lent.{lent_room};
ghost use Rattle.cam_c.specs.Version.{VersionToldTo, version};
ghost use base.Logic.{ex};
ghost use types.Logic.{sem};
ghost use denote.RawPtr.{Testable};

use crate::exports::LONGEST;
use crate::session::copy;
use core::slots::Slots;

/// What `CAMPLOT_VERSION` is in the header, and what the program prints.
const VERSION: &[u8] = b"1.1.0";

/// How many bytes that is.
const LENGTH: usize = VERSION.len();

/// Copies the version into a room that holds it, and tells its length.
fn copy_version(room: Slots<u8>) -> (Slots<u8>, usize)
    ensures length { result.1 ≡ length version }
    ensures room { IsCopied version room result.0 }
{
    copy(VERSION, room)
}

/// Copies the version, and tells how long it is.
#[unsafe(no_mangle)]
pub unsafe extern "C" fn camplot_version(room: *mut u8, capacity: usize) -> usize
    ghost old: { List (Option ℕ) }
    requires* { sem 𝓛 (lent_room u8 old room) ∗ ⌜ Testable room ⌝ ∗ ⌜ length old ≡ capacity ⌝ }
    ensures* { ex 𝓤 (λ (xs : List (Option ℕ)). sem 𝓛 (lent_room u8 xs room) ∗ ⌜ VersionToldTo room old xs result ⌝) }
{
    if room.is_null() {
        return LENGTH;
    }
    if capacity > LONGEST {
        return LENGTH;
    }
    let (room, count) = copy_version(unsafe { Slots::from_raw_parts(room, capacity) });
    let _ = unsafe { room.into_raw_parts() };
    count
}
