//! Evaluation on a stack of values.

ghost use Rattle.std.specs.Prelude.{◌≡◌, [], ◌∷◌, Ok, Some, OnOk, IfOk, IfErr, MatchOption};
ghost use Rattle.cam_macros.specs.Answers.{IsUnlessMemory};
ghost use Rattle.cam_macros.specs.Arithmetic.{within};
ghost use Rattle.cam_macros.specs.Machinery.Scanning.{IsFaultOf};
ghost use Rattle.cam_macros.specs.Machinery.Stack.{put, stack_of, stepped, run, answer};
ghost use Rattle.cam_macros.specs.Machinery.Variables.{looked_up};

use crate::expansion::arithmetic::Fixed;
use crate::expansion::variables::Variables;
use crate::expression::Step;
use crate::fault::MacroFault;
use std::alloc::Global;
use std::marker::Model;

/// Values, the top last.
#[derive(Drop)]
pub(crate) struct Stack {
    values: Vec<Fixed>,
}

impl Model for Stack {
    ghost use Rattle.std.specs.Prelude.{List, ℤ};
    ghost use Rattle.cam_macros.specs.Machinery.Stack.{stack_of};

    ghost Value = { List ℤ };

    ghost view = { λ s. stack_of s.values.items };
}

impl Stack {
    /// Puts a value on top; a fault where it is too large.
    #[tactic(auto, using(crate::proofs::Evaluation::stack_of_push))]
    fn put(&mut self, value: i128) -> Result<(), MacroFault>
        ensures ok { OnOk result (put self.old (within value) ≡ Some self.new) }
        ensures fault { IfErr result (λ fault. IsFaultOf fault (put self.old (within value))) }
    {
        let Some(value) = Fixed::within(value) else {
            return Err(MacroFault::Malformed);
        };
        self.values.push(value)?;
        Ok(())
    }

    #[tactic(auto, using(crate::proofs::Evaluation::stack_of_push))]
    fn pop(&mut self) -> Option<Fixed>
        ensures { MatchOption result (self.old ≡ []) (λ value. self.old ≡ value.billionths ∷ self.new) }
    {
        self.values.pop()
    }

    /// The values, the top last.
    pub(crate) fn into_values(self) -> Vec<Fixed>
        ensures { stack_of result.items ≡ self }
    {
        let Stack { values } = self;
        values
    }

    fn step(&mut self, step: Step, variables: &Variables<'_>) -> Result<(), MacroFault>
        ensures ok { OnOk result (stepped (looked_up variables.now) step self.old ≡ Some self.new) }
        ensures fault { IfErr result (λ fault. IsFaultOf fault (stepped (looked_up variables.now) step self.old)) }
    {
        match step {
            Step::Push(number) => self.put(i128::from(number)),
            Step::Read(variable) => {
                let value = variables.value(variable);
                self.put(i128::from(value.billionths))
            }
            Step::Negate => {
                let Some(value) = self.pop() else {
                    return Err(MacroFault::Malformed);
                };
                self.put(-i128::from(value.billionths))
            }
            Step::Apply(operator) => {
                let Some(right) = self.pop() else {
                    return Err(MacroFault::Malformed);
                };
                let Some(left) = self.pop() else {
                    return Err(MacroFault::Malformed);
                };
                let Some(value) = operator.applied(left, right) else {
                    return Err(MacroFault::Malformed);
                };
                self.put(value)
            }
        }
    }
}

/// The values that steps leave.
pub(crate) fn left_by(
    alloc: Global,
    steps: &[Step],
    variables: &Variables<'_>,
) -> Result<Stack, MacroFault>
    ensures ok { IfOk result (λ stack. run (looked_up variables.now) steps.now [] ≡ Some stack) }
    ensures fault { IfErr result (λ fault. IsFaultOf fault (run (looked_up variables.now) steps.now [])) }
{
    let mut stack = Stack {
        values: Vec::new(alloc),
    };
    for step in steps {
        stack.step(*step, variables)?;
    }
    Ok(stack)
}

/// The value that steps leave on top.
pub(crate) fn evaluated(
    alloc: Global,
    steps: &[Step],
    variables: &Variables<'_>,
) -> Result<Fixed, MacroFault>
    ensures ok { IfOk result (λ value. answer (run (looked_up variables.now) steps.now []) ≡ Ok value.billionths) }
    ensures fault { IfErr result (λ fault. IsUnlessMemory fault (answer (run (looked_up variables.now) steps.now []))) }
{
    let mut stack = left_by(alloc, steps, variables)?;
    match stack.pop() {
        Some(value) => Ok(value),
        None => Err(MacroFault::Malformed),
    }
}
