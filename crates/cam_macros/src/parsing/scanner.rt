//! Expressions read from left to right into postfix order.

ghost use Rattle.std.specs.Prelude.{◌≡◌, ◌+◌, ◌≤◌, ◌<◌, ◌∷◌, ◌++◌, OnOk, IfOk, IfErr};
ghost use Rattle.std.specs.Prelude.{Some, length, replicate, option_map};
ghost use Rattle.std.specs.List.{prefix_len};
ghost use Rattle.std.specs.Char.{is_ascii_digit};
ghost use Rattle.cam_macros.specs.declared.expression.Step.TheVariants.{Negate};
ghost use Rattle.cam_macros.specs.Scanning.{Behind, charged, closed, finished, is_run_byte, group_opened, operator_at, scan};
ghost use Rattle.cam_macros.specs.Scanning.{scanned, start, waiting, Wanted, with_minus, with_operand, step_scanned};
ghost use Rattle.cam_macros.specs.Scanning.{with_sum, with_term};
ghost use Rattle.cam_macros.specs.Machinery.Scanning.{IsFaultOf, IsStep, number_then, prefixed, status_of};
ghost use Rattle.cam_macros.specs.Machinery.Scanning.{variable_then};

use crate::expression::{Operator, Step};
use crate::fault::MacroFault;
use crate::parsing::mark::{Mark, mark_of};
use crate::parsing::variables::variable;
use cam_numbers::{Blanks, unsigned_decimal};
use std::alloc::{AllocError, Global};
use std::marker::Model;

/// How many pairs of parentheses may stand within one another.
const DEEPEST: u32 = 64;

/// How many operators and signs an expression may have.
const MOST_OPERATORS: u32 = 1_000;

/// What waits for the next operand within a pair of parentheses.
#[derive(Clone, Copy)]
struct Level {
    sum: Option<Operator>,
    term: Option<Operator>,
    minuses: u32,
}

const EMPTY: Level = Level {
    sum: None,
    term: None,
    minuses: 0,
};

/// What is still to be read, and whether it has to begin with an operand.
#[derive(Clone, Copy)]
struct Rest<'a> {
    wanted: bool,
    text: &'a [u8],
}

/// The steps so far, and the operators that wait for what is to come.
#[derive(Drop)]
struct Scanner {
    steps: Vec<Step>,
    level: Level,
    outer: Vec<Level>,
    room: u32,
    budget: u32,
}

impl Model for Scanner {
    ghost use Rattle.std.specs.Prelude.{reverse};
    ghost use Rattle.cam_macros.specs.declared.expression.Step.TheVariants.{Negate};
    ghost use Rattle.cam_macros.specs.Scanning.{Scan, scan_of};

    ghost Value = { Scan };

    ghost view = { λ s. scan_of s.steps.items s.level (reverse s.outer.items) s.room s.budget };

    ghost use Rattle.cam_macros.specs.declared.expression.Step.TheVariants.{Negate};
    ghost use Rattle.cam_macros.specs.Machinery.Scanning.{IsScanner};

    ghost invariant = { λ s. IsScanner s.level s.outer.items s.room s.budget };
}

impl Scanner {
    fn new(alloc: Global) -> Scanner
        ensures { result ≡ start }
    {
        Scanner {
            steps: Vec::new(alloc),
            level: EMPTY,
            outer: Vec::new(alloc),
            room: DEEPEST,
            budget: MOST_OPERATORS,
        }
    }

    /// Writes what waits for an operand that is whole.
    fn end_operand(&mut self) -> Result<(), AllocError>
        ensures { OnOk result (self.new ≡ with_operand self.old) }
    {
        push_negations(&mut self.steps, self.level.minuses)?;
        push_waiting(&mut self.steps, self.level.term)?;
        self.level.term = None;
        self.level.minuses = 0;
        Ok(())
    }

    /// Writes a number or a variable.
    fn leaf(&mut self, step: Step) -> Result<(), AllocError>
        ensures { OnOk result (self.new ≡ step_scanned step self.old) }
    {
        self.steps.push(step)?;
        self.end_operand()
    }

    /// Counts an operator or a sign; a fault where there are too many.
    fn charge(&mut self) -> Result<(), MacroFault>
        ensures { IsStep result (charged self.old) self.new }
    {
        if self.budget == 0 {
            return Err(MacroFault::Malformed);
        }
        self.budget -= 1;
        Ok(())
    }

    /// Takes a minus before an operand.
    fn negate(&mut self) -> Result<(), MacroFault>
        ensures { IsStep result (option_map with_minus (charged self.old)) self.new }
    {
        if self.budget == 0 {
            return Err(MacroFault::Malformed);
        }
        self.budget -= 1;
        self.level.minuses += 1;
        Ok(())
    }

    /// Takes an operator between terms.
    fn between_terms(&mut self, operator: Operator) -> Result<(), MacroFault>
        ensures { IsStep result (option_map (with_sum operator) (charged self.old)) self.new }
    {
        self.charge()?;
        push_waiting(&mut self.steps, self.level.sum)?;
        self.level.sum = Some(operator);
        Ok(())
    }

    /// Takes an operator between factors.
    fn between_factors(&mut self, operator: Operator) -> Result<(), MacroFault>
        ensures { IsStep result (option_map (with_term operator) (charged self.old)) self.new }
    {
        self.charge()?;
        self.level.term = Some(operator);
        Ok(())
    }

    /// Opens a pair of parentheses; a fault where they would be too deep.
    #[tactic(auto, using(crate::proofs::ScannerLemmas::reverse_push, crate::proofs::ScannerLemmas::counts_push))]
    fn open(&mut self) -> Result<(), MacroFault>
        ensures { IsStep result (group_opened self.old) self.new }
    {
        if self.room == 0 {
            return Err(MacroFault::Malformed);
        }
        self.outer.push(self.level)?;
        self.level = EMPTY;
        self.room -= 1;
        Ok(())
    }

    /// Closes a pair of parentheses; a fault where none is open.
    #[tactic(auto, using(crate::proofs::ScannerLemmas::reverse_push))]
    fn close(&mut self) -> Result<(), MacroFault>
        ensures { IsStep result (closed self.old) self.new }
    {
        push_waiting(&mut self.steps, self.level.sum)?;
        let Some(level) = self.outer.pop() else {
            return Err(MacroFault::Malformed);
        };
        self.level = level;
        self.room += 1;
        self.end_operand()?;
        Ok(())
    }

    /// Takes a number, with which the text begins.
    fn number<'a>(&mut self, text: &'a [u8]) -> Result<Rest<'a>, MacroFault>
        ensures ok { IfOk result (λ rest.
            number_then self.old text.now ≡ scan (status_of rest.wanted) self.new rest.text.now) }
        ensures shorter { IfOk result (λ rest.
            length rest.text.now + prefix_len is_run_byte text.now ≡ length text.now) }
        ensures fault { IfErr result (λ fault. IsFaultOf fault (number_then self.old text.now)) }
    {
        let (run, text) = text.split_at(numeric_len(text));
        let Some(number) = unsigned_decimal(run, Blanks::Refused) else {
            return Err(MacroFault::Malformed);
        };
        self.leaf(Step::Push(number))?;
        Ok(Rest {
            wanted: false,
            text,
        })
    }

    /// Takes a variable's number, with which the text begins.
    fn variable<'a>(&mut self, text: &'a [u8]) -> Result<Rest<'a>, MacroFault>
        ensures ok { IfOk result (λ rest.
            variable_then self.old text.now ≡ scan (status_of rest.wanted) self.new rest.text.now) }
        ensures shorter { IfOk result (λ rest. length rest.text.now ≤ length text.now) }
        ensures fault { IfErr result (λ fault. IsFaultOf fault (variable_then self.old text.now)) }
    {
        let (run, text) = text.split_at(digits_len(text));
        let Some(variable) = variable(run) else {
            return Err(MacroFault::Malformed);
        };
        self.leaf(Step::Read(variable))?;
        Ok(Rest {
            wanted: false,
            text,
        })
    }

    /// Takes a sign or an opening parenthesis before an operand.
    fn before_operand(&mut self, mark: Mark) -> Result<(), MacroFault>
        ensures { IsStep result (prefixed mark self.old) self.new }
    {
        match mark {
            Mark::Open => self.open(),
            Mark::Plus => self.charge(),
            Mark::Minus => self.negate(),
            _ => Err(MacroFault::Malformed),
        }
    }

    /// Takes an operator or a closing parenthesis, and tells whether an operand has to follow.
    fn behind_operand(&mut self, mark: Mark) -> Result<bool, MacroFault>
        ensures ok { IfOk result (λ wanted. operator_at mark self.old ≡ Some (status_of wanted, self.new)) }
        ensures fault { IfErr result (λ fault. IsFaultOf fault (operator_at mark self.old)) }
    {
        match mark {
            Mark::Plus => {
                self.between_terms(Operator::Add)?;
                Ok(true)
            }
            Mark::Minus => {
                self.between_terms(Operator::Subtract)?;
                Ok(true)
            }
            Mark::Times => {
                self.between_factors(Operator::Multiply)?;
                Ok(true)
            }
            Mark::Over => {
                self.between_factors(Operator::Divide)?;
                Ok(true)
            }
            Mark::Close => {
                self.close()?;
                Ok(false)
            }
            _ => Err(MacroFault::Malformed),
        }
    }

    /// Takes what begins an operand.
    #[tactic(auto, using(crate::proofs::Marks::operands))]
    fn operand<'a>(&mut self, text: &'a [u8]) -> Result<Rest<'a>, MacroFault>
        ensures ok { IfOk result (λ rest.
            scan Wanted self.old text.now ≡ scan (status_of rest.wanted) self.new rest.text.now) }
        ensures shorter { IfOk result (λ rest. length rest.text.now < length text.now) }
        ensures fault { IfErr result (λ fault. IsFaultOf fault (scan Wanted self.old text.now)) }
    {
        let [first, behind @ ..] = text else {
            return Err(MacroFault::Malformed);
        };
        match mark_of(*first) {
            Mark::Numeral => self.number(text),
            Mark::Dollar => self.variable(behind),
            mark => match self.before_operand(mark) {
                Ok(()) => Ok(Rest {
                    wanted: true,
                    text: behind,
                }),
                Err(fault) => Err(fault),
            },
        }
    }

    /// Takes what stands behind an operand.
    #[tactic(auto, using(crate::proofs::Marks::operators))]
    fn operator<'a>(&mut self, first: u8, behind: &'a [u8]) -> Result<Rest<'a>, MacroFault>
        ensures ok { IfOk result (λ rest.
            scan Behind self.old (first ∷ behind.now) ≡ scan (status_of rest.wanted) self.new rest.text.now) }
        ensures shorter { IfOk result (λ rest. length rest.text.now ≤ length behind.now) }
        ensures fault { IfErr result (λ fault. IsFaultOf fault (scan Behind self.old (first ∷ behind.now))) }
    {
        let wanted = self.behind_operand(mark_of(first))?;
        Ok(Rest {
            wanted,
            text: behind,
        })
    }

    /// All steps, once the text is at its end; a fault where parentheses are open.
    fn finish(self) -> Result<Vec<Step>, MacroFault>
        ensures ok { IfOk result (λ steps. finished Behind self ≡ Some steps.items) }
        ensures fault { IfErr result (λ fault. IsFaultOf fault (finished Behind self)) }
    {
        if !self.outer.is_empty() {
            return Err(MacroFault::Malformed);
        }
        let Scanner {
            mut steps,
            level,
            outer: _,
            room: _,
            budget: _,
        } = self;
        push_waiting(&mut steps, level.sum)?;
        Ok(steps)
    }
}

fn push_negations(steps: &mut Vec<Step>, count: u32) -> Result<(), AllocError>
    ensures { OnOk result (steps.new.items ≡ steps.old.items ++ replicate count Negate) }
{
    for _i in 0..count {
        steps.push(Step::Negate)?;
    }
    Ok(())
}

fn push_waiting(steps: &mut Vec<Step>, operator: Option<Operator>) -> Result<(), AllocError>
    ensures { OnOk result (steps.new.items ≡ steps.old.items ++ waiting operator) }
{
    if let Some(operator) = operator {
        steps.push(Step::Apply(operator))?;
    }
    Ok(())
}

/// How many digits and points stand first.
fn numeric_len(text: &[u8]) -> usize
    ensures value { result ≡ prefix_len is_run_byte text.now }
    ensures within { result ≤ length text.now }
{
    text.iter()
        .take_while(|byte| byte.is_ascii_digit() || **byte == b'.')
        .count()
}

/// How many digits stand first.
fn digits_len(text: &[u8]) -> usize
    ensures value { result ≡ prefix_len is_ascii_digit text.now }
    ensures within { result ≤ length text.now }
{
    text.iter().take_while(|byte| byte.is_ascii_digit()).count()
}

/// The steps of an expression; a fault where the text is none.
pub(crate) fn steps(alloc: Global, text: &[u8]) -> Result<Vec<Step>, MacroFault>
    ensures ok { IfOk result (λ steps. scanned text.now ≡ Some steps.items) }
    ensures fault { IfErr result (λ fault. IsFaultOf fault (scanned text.now)) }
{
    let mut scanner = Scanner::new(alloc);
    let mut rest = Rest { wanted: true, text };
    while let Some((first, behind)) = rest.text.split_first() {
        rest = if rest.wanted {
            scanner.operand(rest.text)?
        } else {
            scanner.operator(*first, behind)?
        };
    }
    if rest.wanted {
        return Err(MacroFault::Malformed);
    }
    scanner.finish()
}
