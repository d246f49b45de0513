//! Runs of scripts.

ghost use Rattle.std.specs.Prelude.{◌≡◌, ◌≤◌, ℕ, List, Result, Some, true};
ghost use Rattle.std.specs.Prelude.{IfErr, IfNone, IfOk, IfSome, OnErr};
ghost use Rattle.std.specs.Str.Lines.{lines};
ghost use Rattle.cam_station.specs.declared.files.FileFault.{FileFault};
ghost use Rattle.cam_station.specs.Machine.{MemoryGrant, fault, fresh, is_depth, step};
ghost use Rattle.cam_station.specs.Run.{
  EndsBy,
  RunsAllLines,
  World,
  file_refusal,
  files_seen,
  load_turn,
  moment,
  put_turn,
  turn,
};
ghost use Rattle.cam_station.specs.Machinery.Lines.{HasNoBytes, IsBegun, ReplyIsUnsaid, TurnGives, TurnLeadsTo, tells};

use crate::fault::{Fault, without_place};
use crate::files::{FileFault, Files};
use crate::out::Out;
use crate::reply::{Numbers, Reply};
use crate::reply_line::say_reply;
use crate::station::Station;
use crate::watch::{Unwatched, Watch};
use cam_edits::Name;
use cam_refusals::Refusal;
use cam_script::{Bytes, Command, FileKind, FilePath, Line, Lines, parse_line};
use std::alloc::Global;
use thiserror::Error;

/// Why a run did not come to the script's end.
#[derive(Clone, Copy, Debug, PartialEq, Eq, Drop, Error)]
pub enum RunFault {
    /// The depth is not from 1 to 1,000.
    #[error("the depth is not from 1 to 1000")]
    Depth,
    /// The station was refused memory.
    #[error("no memory")]
    Memory,
    /// A reply could not be said.
    #[error("output failed")]
    Output,
}

/// The refusal of a file.
pub(crate) fn file_refusal(why: FileFault) -> Fault
    ensures { result ≡ fault (file_refusal why) }
{
    match why {
        FileFault::Failed => without_place(Refusal::FileFault),
        FileFault::Memory => without_place(Refusal::NoMemory),
    }
}

/// Gets the file, and loads it.
fn load<F: Files>(
    alloc: Global,
    station: &mut Station,
    name: Name,
    kind: FileKind,
    path: &FilePath,
    files: &mut F,
) -> Result<Reply, Fault>
    ensures { (memory : MemoryGrant) × (got : Result (List ℕ) FileFault)
        × TurnGives (load_turn station.old name kind path.now memory got)
        station.new (Some result)
        (files_seen (F.contents files.old) (F.failed files.old))
        (files_seen (F.contents files.new) (F.failed files.new)) }
{
    match files.get(alloc, path.as_str()) {
        Ok(bytes) => station.apply(Command::Load {
            name,
            kind,
            file: Bytes::from_vec(bytes),
        }),
        Err(fault) => Err(file_refusal(fault)),
    }
}

/// The bytes that an answer has for a file.
fn bytes_of(answer: &Result<Reply, Fault>) -> Option<&Bytes>
    ensures some { IfSome result (λ bytes.
        (drawn : ℕ) × (answer.now ≡ Ok (Reply.Bytes bytes.now drawn))) }
    ensures none { IfNone result (HasNoBytes answer.now) }
{
    match answer {
        Ok(Reply::Bytes { bytes, drawn: _ }) => Some(bytes),
        Ok(Reply::Done) | Ok(Reply::Numbers(_)) | Err(_) => None,
    }
}

/// Takes a step, puts the bytes of its answer under the path, and tells of these as a plot does, or counts them.
fn put<F: Files, V: Watch<F>>(
    station: &mut Station,
    command: Command,
    counts: bool,
    path: &FilePath,
    files: &mut F,
    watch: &mut V,
) -> Result<Reply, Fault>
    ensures { (memory : MemoryGrant) × (put : Result (Unit {0}) FileFault)
        × TurnGives (put_turn (tells counts) path.now put (step station.old command memory))
        station.new (Some result)
        (files_seen (F.contents files.old) (F.failed files.old))
        (files_seen (F.contents files.new) (F.failed files.new)) }
{
    let answer = station.apply_watched::<F, V>(command, watch);
    let Some(bytes) = bytes_of(&answer) else {
        return answer;
    };
    let text = bytes.as_slice();
    match files.put(path.as_str(), text) {
        Ok(()) => {
            if counts {
                return Ok(Reply::Numbers(Numbers::One(text.len() as u64)));
            }
            answer
        }
        Err(fault) => Err(file_refusal(fault)),
    }
}

/// Runs one line, up to its reply, if it has one.
fn run_line<F: Files, V: Watch<F>>(
    alloc: Global,
    station: &mut Station,
    line: &[u8],
    files: &mut F,
    watch: &mut V,
) -> Option<Result<Reply, Fault>>
    ensures { (w : World) × TurnGives (turn station.old line.now w) station.new result
        (files_seen (F.contents files.old) (F.failed files.old))
        (files_seen (F.contents files.new) (F.failed files.new)) }
{
    match parse_line(alloc, line) {
        Err(fault) => Some(Err(without_place(fault.refusal()))),
        Ok(None) => None,
        Ok(Some(Line::Command(command))) => Some(station.apply(command)),
        Ok(Some(Line::Load { name, kind, path })) => {
            Some(load(alloc, station, name, kind, &path, files))
        }
        Ok(Some(Line::Plot { name, path })) => {
            Some(put(station, Command::Plot { name }, false, &path, files, watch))
        }
        Ok(Some(Line::Write { name, path })) => {
            Some(put(station, Command::Write { name }, true, &path, files, watch))
        }
    }
}

/// Runs one line and says its reply; 1 if the line was refused, else 0.
fn serve_line<F: Files, O: Out, V: Watch<F>>(
    alloc: Global,
    station: &mut Station,
    line: &[u8],
    files: &mut F,
    out: &mut O,
    watch: &mut V,
) -> Result<u64, RunFault>
    ensures ok { IfOk result (λ count. (w : World)
        × TurnLeadsTo (turn station.old line.now w) station.new
        (moment (F.contents files.old) (F.failed files.old) (O.said out.old) (O.failed out.old) 0)
        (moment (F.contents files.new) (F.failed files.new) (O.said out.new) (O.failed out.new)
        count)) }
    ensures bound { IfOk result (λ count. count ≤ 1) }
    ensures output { IfErr result (λ fault. fault ≡ RunFault.Output) }
    ensures stops { OnErr result ((w : World) × ReplyIsUnsaid (turn station.old line.now w)
        (moment (F.contents files.old) (F.failed files.old) (O.said out.old) (O.failed out.old) 0)
        (moment (F.contents files.new) (F.failed files.new) (O.said out.new) (O.failed out.new) 0)) }
{
    let Some(reply) = run_line(alloc, station, line, files, watch) else {
        return Ok(0);
    };
    watch.reply();
    if !say_reply(out, &reply) {
        return Err(RunFault::Output);
    }
    watch.replied(line, &reply, station, files);
    match reply {
        Ok(_) => Ok(0),
        Err(_) => Ok(1),
    }
}

/// A station of this depth.
fn begin(alloc: Global, depth: u32) -> Result<Station, RunFault>
    ensures { IsBegun depth result }
{
    match Station::new(alloc, depth) {
        Ok(station) => Ok(station),
        Err(fault) => {
            if fault.code == Refusal::OutOfLimits {
                Err(RunFault::Depth)
            } else {
                Err(RunFault::Memory)
            }
        }
    }
}

/// Runs a script on a new station of this depth, from 1 to 1,000, and counts the lines that
/// were refused.
///
/// Each line that is neither empty nor a comment has one reply line on `out`. A `load` gets
/// its file before anything else is checked, and a `plot` or a `write` puts its bytes last. A
/// refused line does not end the run; a reply that cannot be said does, and then nothing is known of how
/// much of it was said.
pub fn run<F: Files, O: Out>(
    alloc: Global,
    depth: u32,
    script: &[u8],
    files: &mut F,
    out: &mut O,
) -> Result<u64, RunFault>
    // The lines' replies were said, and their files got and put, as the machine answers them.
    ensures ok { IfOk result (λ refused. (is_depth depth ≡ true) × (ws : List World)
        × RunsAllLines (fresh depth) (lines script.now) ws
        (moment (F.contents files.old) (F.failed files.old) (O.said out.old) (O.failed out.old) 0)
        (moment (F.contents files.new) (F.failed files.new) (O.said out.new) (O.failed out.new)
        refused)) }
    // At another depth, or without memory, nothing was done; else a reply could not be said.
    ensures err { IfErr result (λ fault. EndsBy fault depth (lines script.now)
        (moment (F.contents files.old) (F.failed files.old) (O.said out.old) (O.failed out.old) 0)
        (moment (F.contents files.new) (F.failed files.new) (O.said out.new) (O.failed out.new) 0)) }
{
    run_watched(alloc, depth, script, files, out, &mut Unwatched)
}

/// Does what [`run`] does, and lets a watch see it.
pub fn run_watched<F: Files, O: Out, V: Watch<F>>(
    alloc: Global,
    depth: u32,
    script: &[u8],
    files: &mut F,
    out: &mut O,
    watch: &mut V,
) -> Result<u64, RunFault>
    ensures ok { IfOk result (λ refused. (is_depth depth ≡ true) × (ws : List World)
        × RunsAllLines (fresh depth) (lines script.now) ws
        (moment (F.contents files.old) (F.failed files.old) (O.said out.old) (O.failed out.old) 0)
        (moment (F.contents files.new) (F.failed files.new) (O.said out.new) (O.failed out.new)
        refused)) }
    ensures err { IfErr result (λ fault. EndsBy fault depth (lines script.now)
        (moment (F.contents files.old) (F.failed files.old) (O.said out.old) (O.failed out.old) 0)
        (moment (F.contents files.new) (F.failed files.new) (O.said out.new) (O.failed out.new) 0)) }
{
    let mut station = begin(alloc, depth)?;
    watch.script(script);
    let mut lines = Lines::new(script);
    let mut number = 0u64;
    let mut refused = 0u64;
    while let Some(line) = lines.next() {
        number = number.saturating_add(1);
        watch.line(number, line);
        let count = serve_line(alloc, &mut station, line, files, out, watch)?;
        refused += count;
    }
    Ok(refused)
}
