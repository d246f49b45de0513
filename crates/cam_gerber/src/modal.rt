//! The values that stay in force until a command changes them.

ghost use Rattle.std.specs.Prelude.{◌≤◌};
ghost use Rattle.std.specs.Option.{ForSome};
ghost use Rattle.cam_units.specs.Board.{IsOnBoard};

use cam_commands::{Format, Mode, OperationCode};
use cam_units::{Point, Turn, Unit};

/// The values in force behind the commands so far.
#[derive(Drop)]
pub struct Modal {
    pub format: Option<Format>,
    pub unit: Option<Unit>,
    /// Objects darken.
    pub dark: bool,
    /// How apertures are mirrored, before they are rotated.
    pub mirror: Turn,
    pub rotation: Turn,
    /// The number of the current aperture.
    pub aperture: Option<u32>,
    pub mode: Mode,
    /// Arcs may be plotted.
    pub arcs: bool,
    /// What the last operation did.
    pub code: Option<OperationCode>,
    /// The current point, in nm.
    pub point: Point,
    ghost short: { ForSome format (λ f. f.decimals ≤ 6) },
    ghost on_board: { IsOnBoard point },
}
