//! The expressions of a primitive.

ghost use Rattle.std.specs.Prelude.{◌≡◌, ◌++◌, ◌∷◌, [], IfOk, IfErr, OnOk};
ghost use Rattle.std.specs.Prelude.{Ok};
ghost use Rattle.cam_macros.specs.Answers.{IsUnlessMemory};
ghost use Rattle.cam_macros.specs.Expansion.{all_worth};
ghost use Rattle.cam_macros.specs.Machinery.Values.{numbers};
ghost use Rattle.cam_macros.specs.Machinery.Variables.{looked_up};

use crate::expansion::arithmetic::Fixed;
use crate::expansion::stack::left_by;
use crate::expansion::variables::Variables;
use crate::expression::{Expression, Step};
use crate::fault::MacroFault;
use std::alloc::{AllocError, Global};
use std::marker::Model;

/// The expressions of a primitive, in order.
#[derive(Debug, Drop)]
pub struct Fields {
    // One behind the other: postfix order tells where each ends.
    steps: Vec<Step>,
}

impl Model for Fields {
    ghost use Rattle.std.specs.Prelude.{List};
    ghost use Rattle.std.specs.Coded.{coded_list};
    ghost use Rattle.cam_macros.specs.Tree.{Tree};
    ghost use Rattle.cam_macros.specs.Postfix.{tree_code};

    ghost Value = { List Tree };

    ghost coded = { coded_list tree_code };

    ghost use Rattle.std.specs.Prelude.{◌≡◌};
    ghost use Rattle.cam_macros.specs.Postfix.{postfixes, trees_of};

    ghost view = { λ fields. trees_of fields.steps.items };

    ghost invariant = { λ fields. fields.steps.items ≡ postfixes (trees_of fields.steps.items) };
}

impl Fields {
    /// No expression.
    pub(crate) fn new(alloc: Global) -> Fields
        ensures { result ≡ [] }
    {
        Fields {
            steps: Vec::new(alloc),
        }
    }

    /// Puts an expression behind the others.
    #[tactic(auto, using(crate::proofs::FlatFields::pushed))]
    pub(crate) fn push(&mut self, added: Expression) -> Result<(), AllocError>
        ensures { OnOk result (self.new ≡ self.old ++ added ∷ []) }
    {
        let mut steps = added.into_steps();
        self.steps.append(&mut steps)
    }

    /// Gives back the room that no expression takes.
    pub(crate) fn shrink(&mut self)
        ensures { self.new ≡ self.old }
    {
        self.steps.shrink_to_fit();
    }

    /// The values in order; the fault of the first expression without one.
    pub(crate) fn values(
        &self,
        alloc: Global,
        variables: &Variables<'_>,
    ) -> Result<Vec<Fixed>, MacroFault>
        ensures ok { IfOk result (λ values.
            all_worth (looked_up variables.now) self.now ≡ Ok (numbers values.items)) }
        ensures fault { IfErr result (λ fault.
            IsUnlessMemory fault (all_worth (looked_up variables.now) self.now)) }
    {
        let stack = left_by(alloc, self.steps.as_slice(), variables)?;
        Ok(stack.into_values())
    }
}
