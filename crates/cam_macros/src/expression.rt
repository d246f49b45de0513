//! Expressions and their values.

ghost use Rattle.std.specs.Prelude.{◌≡◌, IfOk, IfErr};
ghost use Rattle.cam_macros.specs.Grammar.{IsExpression};
ghost use Rattle.cam_macros.specs.Postfix.{postfix};
ghost use Rattle.cam_macros.specs.Expansion.{worth};
ghost use Rattle.cam_macros.specs.Answers.{IsMalformed, IsUnlessMemory, Nothing};
ghost use Rattle.cam_macros.specs.Machinery.Variables.{looked_up};

use crate::expansion::arithmetic::Fixed;
use crate::expansion::stack::evaluated;
use crate::expansion::variables::Variables;
use crate::fault::MacroFault;
use crate::parsing::scanner::steps;
use std::alloc::{AllocError, Global};
use std::marker::Model;

/// The operators of the arithmetic.
#[derive(Clone, Copy, Debug, PartialEq, Eq)]
pub enum Operator {
    Add,
    Subtract,
    Multiply,
    Divide,
}

/// A step of the evaluation on a stack of values.
#[derive(Clone, Copy, Debug, PartialEq, Eq)]
pub enum Step {
    /// Puts a number, in 10^-9 units, on top.
    Push(u64),
    /// Puts the value of a variable on top.
    Read(u32),
    /// Negates the value on top.
    Negate,
    /// Puts the answer in place of the two values on top.
    Apply(Operator),
}

/// An expression, kept in postfix order.
#[derive(Debug, Drop)]
pub struct Expression {
    steps: Vec<Step>,
}

impl Model for Expression {
    ghost use Rattle.cam_macros.specs.Tree.{Tree};
    ghost use Rattle.cam_macros.specs.Postfix.{tree_code};

    ghost Value = { Tree };

    ghost coded = { tree_code };

    ghost use Rattle.std.specs.Prelude.{◌≡◌};
    ghost use Rattle.cam_macros.specs.Postfix.{tree_of, postfix};

    ghost view = { λ expression. tree_of expression.steps.items };

    ghost invariant = { λ expression. expression.steps.items ≡ postfix (tree_of expression.steps.items) };
}

impl Expression {
    /// The expression of a text without the bytes that do not count; `Malformed` where the
    /// text is outside the grammar.
    #[tactic(auto, using(crate::proofs::ExpressionLemmas::kept_expressions))]
    pub(crate) fn parse(alloc: Global, text: &[u8]) -> Result<Expression, MacroFault>
        ensures ok { IfOk result (IsExpression text.now) }
        ensures fault { IfErr result (λ fault. IsMalformed fault (Nothing (IsExpression text.now))) }
    {
        let steps = steps(alloc, text)?;
        Ok(Expression { steps })
    }

    /// The steps, in postfix order.
    pub(crate) fn into_steps(self) -> Vec<Step>
        ensures { result.items ≡ postfix self }
    {
        let Expression { steps } = self;
        steps
    }

    /// A copy, in room for its steps and no more.
    pub(crate) fn in_exact_room(&self, alloc: Global) -> Result<Expression, AllocError>
        ensures { IfOk result (λ same. same ≡ self.now) }
    {
        let steps = self.steps.as_slice().to_vec(alloc)?;
        Ok(Expression { steps })
    }

    /// The value; `Malformed` where a value at any step is 10^6 units or more in absolute
    /// value, or a divisor is 0.
    #[tactic(auto, using(crate::proofs::Evaluation::worth_is))]
    pub(crate) fn value(
        &self,
        alloc: Global,
        variables: &Variables<'_>,
    ) -> Result<Fixed, MacroFault>
        ensures ok { IfOk result (λ value. worth (looked_up variables.now) self.now ≡ Ok value.billionths) }
        ensures fault { IfErr result (λ fault.
            IsUnlessMemory fault (worth (looked_up variables.now) self.now)) }
    {
        evaluated(alloc, self.steps.as_slice(), variables)
    }
}
