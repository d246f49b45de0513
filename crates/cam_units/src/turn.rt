//! Mirrors and quarter turns.

ghost use Rattle.std.specs.Prelude.{◌≡◌};
ghost use Rattle.cam_units.specs.Board.{IsOnBoard};
ghost use Rattle.cam_units.specs.Turns.{IsTurnable, applied, matrix_of, product};
ghost use Rattle.cam_units.specs.declared.turn.Turn.TheVariants.{R90, M0};

use crate::point::Point;

/// A mirror and a quarter turn of an aperture (Gerber Layer Format Specification,
/// "Aperture Transformations (LP, LM, LR, LS)").
///
/// `R90` turns by 90 degrees counterclockwise; `M90` negates x first and then turns so.
#[derive(Clone, Copy, Debug, PartialEq, Eq)]
pub enum Turn {
    R0,
    R90,
    R180,
    R270,
    M0,
    M90,
    M180,
    M270,
}

impl Turn {
    /// First this turn, then `next`.
    #[tactic(auto, using(crate::proofs::TurnLaws::product_assoc))]
    pub fn then(self, next: Turn) -> Turn
        ensures { matrix_of result ≡ product (matrix_of next) (matrix_of self) }
    {
        match next {
            Turn::R0 => self,
            Turn::R90 => self.quartered(),
            Turn::R180 => self.quartered().quartered(),
            Turn::R270 => self.quartered().quartered().quartered(),
            Turn::M0 => self.mirrored(),
            Turn::M90 => self.mirrored().quartered(),
            Turn::M180 => self.mirrored().quartered().quartered(),
            Turn::M270 => self.mirrored().quartered().quartered().quartered(),
        }
    }

    /// The point, mirrored and turned about (0, 0).
    pub fn apply(self, point: Point) -> Point
        requires { IsTurnable point }
        ensures value { result ≡ applied (matrix_of self) point }
        ensures turnable { IsTurnable result }
        ensures on_board { IsOnBoard point → IsOnBoard result }
    {
        let Point { x, y } = point;
        match self {
            Turn::R0 => Point { x, y },
            Turn::R90 => Point { x: -y, y: x },
            Turn::R180 => Point { x: -x, y: -y },
            Turn::R270 => Point { x: y, y: -x },
            Turn::M0 => Point { x: -x, y },
            Turn::M90 => Point { x: -y, y: -x },
            Turn::M180 => Point { x, y: -y },
            Turn::M270 => Point { x: y, y: x },
        }
    }

    /// First this turn, then a quarter turn counterclockwise.
    fn quartered(self) -> Turn
        ensures { matrix_of result ≡ product (matrix_of R90) (matrix_of self) }
    {
        match self {
            Turn::R0 => Turn::R90,
            Turn::R90 => Turn::R180,
            Turn::R180 => Turn::R270,
            Turn::R270 => Turn::R0,
            Turn::M0 => Turn::M90,
            Turn::M90 => Turn::M180,
            Turn::M180 => Turn::M270,
            Turn::M270 => Turn::M0,
        }
    }

    /// First this turn, then x is negated.
    fn mirrored(self) -> Turn
        ensures { matrix_of result ≡ product (matrix_of M0) (matrix_of self) }
    {
        match self {
            Turn::R0 => Turn::M0,
            Turn::R90 => Turn::M270,
            Turn::R180 => Turn::M180,
            Turn::R270 => Turn::M90,
            Turn::M0 => Turn::R0,
            Turn::M90 => Turn::R270,
            Turn::M180 => Turn::R180,
            Turn::M270 => Turn::R90,
        }
    }
}
