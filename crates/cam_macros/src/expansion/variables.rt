//! The variables of a macro.

ghost use Rattle.std.specs.Prelude.{◌≡◌, ℕ, OnOk};
ghost use Rattle.cam_macros.specs.Arithmetic.{setting, parameter};
ghost use Rattle.cam_macros.specs.Machinery.Variables.{looked_up};

use crate::expansion::arithmetic::Fixed;
use std::alloc::{AllocError, Global};
use std::collections::BTreeMap;

/// The parameters, and the variables that parts have set.
#[derive(Drop)]
pub(crate) struct Variables<'a> {
    params: &'a [i64],
    set: BTreeMap<u32, Fixed>,
}

impl<'a> Variables<'a> {
    pub(crate) fn new(alloc: Global, params: &'a [i64]) -> Variables<'a>
        ensures { (n : ℕ) → looked_up result n ≡ parameter params.now n }
    {
        Variables {
            params,
            set: BTreeMap::new(alloc),
        }
    }

    /// What a variable is worth: what was set last, else the parameter, else 0.
    pub(crate) fn value(&self, variable: u32) -> Fixed
        ensures { result.billionths ≡ looked_up self.now variable }
    {
        if let Some(value) = self.set.get(&variable) {
            return *value;
        }
        if variable == 0 {
            return Fixed { billionths: 0 };
        }
        let place = variable as usize - 1;
        if place < self.params.len() {
            return Fixed {
                billionths: self.params[place],
            };
        }
        Fixed { billionths: 0 }
    }

    pub(crate) fn set(&mut self, variable: u32, value: Fixed) -> Result<(), AllocError>
        ensures { OnOk result
            ((n : ℕ) → looked_up self.new n ≡ setting (looked_up self.old) variable value.billionths n) }
    {
        self.set.insert(variable, value)?;
        Ok(())
    }
}
