//! `camplot SCRIPT [--depth N] [--explain] [--progress]` runs a script of edits and plots over the layers of a printed
//! circuit board, and says one reply line for each line that is neither empty nor a comment. With `--explain` it says on
//! standard error why each refused line was refused, and with `--progress` which line it runs.
//!
//! Its exit status is 0 where no line was refused, 1 where some line was, and 2 where the call is
//! refused, the script cannot be read, memory or the output failed.
#![tactic(auto)]

ghost use Rattle.std.specs.Prelude.{◌≡◌, ◌≢◌, ◌⊎◌};
ghost use Rattle.std.specs.Process.{exit_status};
ghost use Rattle.clap.specs.Words.{kind_of};
ghost use Rattle.clap.specs.declared.error.kind.ErrorKind.TheVariants.{DisplayHelp, DisplayVersion};
ghost use Rattle.camplot.specs.Endings.{outcome_status};

mod calls;
mod documents;
mod ending;
mod explain;
mod help;
mod options;
mod originals;
mod reading;
mod saving;
mod script;
mod system;
mod system_calls;

use calls::Calls;
use cam_station::FileFault;
use documents::{as_installed, documents};
use ending::{Ending, Outcome};
use explain::Notes;
use help::AFTER_HELP;
use options::{Call, OptionsFault, options};
use originals::{Course, Originals};
use reading::{Counted, IoFault, fault_of};
use script::run_script;
use std::io::IsTerminal;
use std::process::ExitCode;
use std::{env, io};
use system::{Disk, Screen};
use system_calls::SystemCalls;

/// What is said where memory was refused.
const NO_MEMORY: &str = "no memory";

/// The words of the call, the program's name first. The error is of memory, or a word that is not
/// UTF-8.
fn words(rt: &HostRuntime) -> io::Result<Vec<String>> {
    Ok(env::args(rt)?.collect(rt.alloc())?)
}

/// The files of a run, which keep the script and what is loaded.
fn files<'a>(
    rt: &HostRuntime,
    call: &Call,
    course: &'a Course,
) -> Disk<'a, SystemCalls<HostRuntime>> {
    let mut calls = SystemCalls::new(*rt);
    let script = calls.node(match call.path.as_str() {
        "-" => "/dev/stdin",
        path => path,
    });
    Disk::new(
        rt.alloc(),
        calls,
        Originals::new(rt.alloc(), course, script),
    )
}

/// Runs the script as the call says, over the system's files and streams; why it was not read, where it was not.
fn run(rt: &HostRuntime, call: &Call, documents: Option<&str>) -> (Ending, &'static str) {
    let alloc = rt.alloc();
    let course = Course::new();
    let mut input = Counted::new(rt.stdin());
    let mut out = Screen::new(io::writer(rt));
    let mut files = files(rt, call, &course);
    let errors = rt.stderr();
    let is_terminal = call.progress && errors.is_terminal();
    let mut notes = Notes::new(
        alloc,
        errors,
        SystemCalls::new(*rt),
        call,
        &course,
        documents,
    );
    notes.is_terminal = is_terminal;
    let ending = run_script(alloc, call, &mut files, &mut input, &mut out, &mut notes);
    notes.ends();
    let why = if call.path.as_str() == "-" {
        input.why
    } else {
        files.why()
    };
    (ending, why.reason)
}

/// Says on standard error what failed. A text that cannot be printed changes no exit status.
fn complain(rt: &HostRuntime, complaint: &str) {
    let _ = eprintln!(rt; "camplot: {complaint}");
}

/// Says why the call has no words.
fn complain_of_words(rt: &HostRuntime, error: &io::Error) {
    match fault_of(error) {
        IoFault::Memory => complain(rt, NO_MEMORY),
        _ => {
            let _ = eprintln!(rt; "camplot: {error}");
        }
    }
}

/// Says what failed in a run.
fn complain_of_run(rt: &HostRuntime, call: &Call, ending: &Ending, why: &str) {
    if let Some(complaint) = ending.complaint() {
        complain(rt, complaint);
    }
    if let Ending::Unread(FileFault::Failed) = ending {
        let path = call.path.as_str();
        let _ = eprintln!(rt; "camplot: {path}: {why}");
    }
}

/// Prints clap's answer; the exit status that it asks for.
fn answered(rt: &HostRuntime, error: &clap::Error) -> u8
    ensures asked { (kind_of error.now ≡ DisplayHelp) ⊎ (kind_of error.now ≡ DisplayVersion) → result ≡ 0 }
    ensures mistake { kind_of error.now ≢ DisplayHelp → kind_of error.now ≢ DisplayVersion → result ≡ 2 }
{
    let _ = error.print(rt);
    error.exit_code() as u8
}

/// What the words of a call lead to, where no script is run for them.
fn no_call(rt: &HostRuntime, fault: OptionsFault) -> Outcome {
    match fault {
        OptionsFault::Refused(error) => Outcome::Answered(answered(rt, &error)),
        OptionsFault::Memory => {
            complain(rt, NO_MEMORY);
            Outcome::NoWords
        }
    }
}

/// Does what the words of the call ask for.
fn outcome(rt: &HostRuntime) -> Outcome {
    let words = match words(rt) {
        Ok(words) => words,
        Err(error) => {
            complain_of_words(rt, &error);
            return Outcome::NoWords;
        }
    };
    let documents = documents(rt);
    let documents = documents.as_deref();
    let Ok(after_help) = as_installed(rt.alloc(), AFTER_HELP, documents) else {
        complain(rt, NO_MEMORY);
        return Outcome::NoWords;
    };
    match options(rt.alloc(), words.as_slice(), after_help.as_str()) {
        Ok(call) => {
            let (ending, why) = run(rt, &call, documents);
            complain_of_run(rt, &call, &ending, why);
            Outcome::Ended(ending)
        }
        Err(fault) => no_call(rt, fault),
    }
}

/// The program: how it ended, and the exit status that tells of it.
fn program(rt: &HostRuntime, ended: &mut Outcome) -> ExitCode
    ensures { exit_status result ≡ outcome_status ended.new }
{
    *ended = outcome(rt);
    ExitCode::from(ended.status())
}

fn main(rt: HostRuntime) -> ExitCode {
    program(&rt, &mut Outcome::NoWords)
}
