//! The words that the program is called with, `camplot SCRIPT [--depth N] [--explain] [--progress]`.

ghost use Rattle.std.specs.Prelude.{◌≡◌, ◌≤◌, ℕ, [], true, false, Option, map, unwrap_or, string_bytes};
ghost use Rattle.std.specs.Prelude.{IfOk, IfErr, IfSome, MatchResult};
ghost use Rattle.clap.specs.Words.{Text, app_of, rule_of};
ghost use Rattle.clap.specs.Faults.{fault_of};
ghost use Rattle.camplot.specs.Synopsis.{Asks, IsCallFor, IsFaultIn, IsOfMemory, IsPlainPath, WantsProgress};
ghost use Rattle.camplot.specs.Synopsis.{camplot, depth_option, explain_option, explained_call, plain_call};
ghost use Rattle.camplot.specs.Synopsis.{progress_option, script_argument};
ghost use Rattle.camplot.specs.declared.options.OptionsFault.TheVariants.{Refused, Memory};

use crate::help::VERSION;
use clap::{Arg, ArgAction, Command, value_parser};
use std::alloc::{AllocError, Global};

/// What a call of the program asks for.
#[derive(Drop)]
pub struct Call {
    /// The path of the script; `-` is the standard input.
    pub path: String,
    /// How many edits and groups can be taken back.
    pub depth: u32,
    /// Whether refused lines are explained on standard error.
    pub explain: bool,
    /// Whether each line is named there before it is run.
    pub progress: bool,
}

/// Why a call of the program gives no options.
#[derive(Drop)]
pub enum OptionsFault {
    /// Clap's answer: what is wrong with the words, the help that they ask for, or that clap has no
    /// memory.
    Refused(clap::Error),
    /// There is no memory for the command or for a copy of the path.
    Memory,
}

impl From<clap::Error> for OptionsFault {
    ghost from_gives = { λ error fault. fault ≡ Refused error };

    fn from(error: clap::Error) -> OptionsFault {
        OptionsFault::Refused(error)
    }
}

impl From<AllocError> for OptionsFault {
    ghost from_gives = { λ _ fault. fault ≡ Memory };

    fn from(_error: AllocError) -> OptionsFault {
        OptionsFault::Memory
    }
}

/// SCRIPT, the path of the script.
fn script_argument<'a>(alloc: Global) -> Arg<'a>
    ensures rule { rule_of result ≡ script_argument }
    ensures local { result.global ≡ false }
{
    Arg::new(alloc, "script")
        .value_name("SCRIPT")
        .help("The script of commands to run; - is standard input")
        .required(true)
        .action(ArgAction::Set)
}

/// `--depth N`, the undo depth.
fn depth_option<'a>(alloc: Global) -> Arg<'a>
    ensures rule { rule_of result ≡ depth_option }
    ensures local { result.global ≡ false }
{
    Arg::new(alloc, "depth")
        .long("depth")
        .value_name("N")
        .help("How many edits can be taken back, from 1 to 1000")
        .action(ArgAction::Set)
        .value_parser(value_parser!(u32).range(1..=1000))
        .default_value("100")
}

/// `--explain`, a flag.
fn explain_option<'a>(alloc: Global) -> Arg<'a>
    ensures rule { rule_of result ≡ explain_option }
    ensures local { result.global ≡ false }
{
    Arg::new(alloc, "explain")
        .long("explain")
        .help("Say on standard error why each refused line was refused, and what to do")
        .action(ArgAction::SetTrue)
}

/// `--progress`, a flag.
fn progress_option<'a>(alloc: Global) -> Arg<'a>
    ensures rule { rule_of result ≡ progress_option }
    ensures local { result.global ≡ false }
{
    Arg::new(alloc, "progress")
        .long("progress")
        .help("Say on standard error which line is run next, and of how many")
        .action(ArgAction::SetTrue)
}

/// The program's command line; an `Err` is for memory.
fn command<'a>(alloc: Global, after_help: &'a str) -> Result<Command<'a>, AllocError>
    ensures { IfOk result (λ made. app_of made ≡ camplot) }
{
    Command::new(alloc, "camplot")
        .about("Edits and plots the layers of a printed circuit board")
        .version(VERSION)
        .after_help(after_help)
        .arg(script_argument(alloc))?
        .arg(depth_option(alloc))?
        .arg(explain_option(alloc))?
        .arg(progress_option(alloc))
}

/// The path of the script, the undo depth, from 1 to 1,000, and whether refused lines are explained and lines named, as the
/// words ask for. The first word is the program's name. The error is `Refused` where clap takes no such words or has no memory
/// to read them, and `Memory` where there is none for the command or the path. `after_help` is what `--help` prints last.
pub fn options(alloc: Global, words: &[String], after_help: &str) -> Result<Call, OptionsFault>
    ensures given { IfOk result
        (λ r. IsCallFor (map string_bytes words.now) (string_bytes r.path) r.depth) }
    ensures explain { IfOk result (λ r. Asks (map string_bytes words.now) r.explain) }
    ensures progress { IfOk result (λ r. WantsProgress (map string_bytes words.now) r.progress) }
    ensures accepted { fault_of camplot (map string_bytes words.now) ≡ []
        → IfErr result IsOfMemory }
    ensures refused { IfErr result (IsFaultIn (map string_bytes words.now)) }
    ensures plain { (name script : Text) (depth : Option ℕ) → IsPlainPath script
        → IfSome depth (λ n. (1 ≤ n) × (n ≤ 1000))
        → map string_bytes words.now ≡ plain_call name script depth
        → MatchResult result (λ r. (string_bytes r.path ≡ script) × (r.depth ≡ unwrap_or depth 100))
        IsOfMemory }
    ensures unasked { (name script : Text) (depth : Option ℕ) → IsPlainPath script
        → IfSome depth (λ n. (1 ≤ n) × (n ≤ 1000))
        → map string_bytes words.now ≡ plain_call name script depth
        → IfOk result (λ r. r.explain ≡ false) }
    ensures asked { (name script : Text) (depth : Option ℕ) → IsPlainPath script
        → IfSome depth (λ n. (1 ≤ n) × (n ≤ 1000))
        → map string_bytes words.now ≡ explained_call name script depth
        → IfOk result (λ r. r.explain ≡ true) }
{
    let matches = command(alloc, after_help)?.try_get_matches_from(words)?;
    let script = matches.get_str("script").unwrap();
    let depth = matches.get_one::<u32>("depth").unwrap();
    let explain = matches.get_flag("explain");
    let progress = matches.get_flag("progress");
    Ok(Call {
        path: script.to_string(alloc)?,
        depth,
        explain,
        progress,
    })
}
