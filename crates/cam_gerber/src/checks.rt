//! What the checks of a layer tell.

ghost use Rattle.std.specs.Prelude.{◌≡◌};
ghost use Rattle.cam_gerber.specs.Machinery.WellMade.{is_of_board};

use cam_objects::ItemFault;

/// Whether an item is refused for the board.
pub fn is_of_board(check: &Result<(), ItemFault>) -> bool
    ensures { result ≡ is_of_board check.now }
{
    matches!(check, Err(ItemFault::OutOfBoard))
}
