//! One line of a script for a caller who has the bytes of its file in hand.

ghost use Rattle.std.specs.Prelude.{◌≡◌, List, None, Ok, Option, Result, Some, ℕ};
ghost use Rattle.std.specs.Option.{option_copied};
ghost use Rattle.cam_station.specs.declared.files.FileFault.{FileFault};
ghost use Rattle.cam_station.specs.Machine.{MemoryGrant, Outcome, step};
ghost use Rattle.cam_station.specs.Run.{World, load_turn, plot_turn, turn, write_turn};
ghost use Rattle.cam_station.specs.Serving.{IsHanded, IsServed, without_bytes};
ghost use Rattle.cam_station.specs.Machinery.Answers.{bytes_in};

use crate::fault::{Fault, without_place};
use crate::files::FileFault;
use crate::reply::{Numbers, Reply};
use crate::running::file_refusal;
use crate::station::Station;
use cam_edits::Name;
use cam_refusals::limits::FILE_LIMIT;
use cam_script::{Bytes, Command, FileKind, FilePath, Line, parse_line};
use std::alloc::Global;

/// What a line leaves beside the station.
#[derive(Drop)]
pub struct Served {
    /// The reply, if the line has one; for a plot it tells how many tiles were drawn.
    pub reply: Option<Result<Reply, Fault>>,
    /// The bytes that a plot or a write has for its file.
    pub file: Option<Bytes>,
}

/// What an answer leaves, with the bytes that it has for a file.
fn parted(answer: Result<Reply, Fault>) -> Served
    ensures reply { without_bytes (Some answer) ≡ result.reply }
    ensures file { bytes_in answer ≡ result.file }
{
    match answer {
        Ok(Reply::Done) => Served {
            reply: Some(Ok(Reply::Done)),
            file: None,
        },
        Ok(Reply::Numbers(numbers)) => Served {
            reply: Some(Ok(Reply::Numbers(numbers))),
            file: None,
        },
        Ok(Reply::Bytes { bytes, drawn }) => Served {
            reply: Some(Ok(Reply::Numbers(Numbers::One(drawn)))),
            file: Some(bytes),
        },
        Err(fault) => Served {
            reply: Some(Err(fault)),
            file: None,
        },
    }
}

/// What an answer leaves that is put nowhere.
fn told(answer: Result<Reply, Fault>) -> Served
    ensures reply { without_bytes (Some answer) ≡ result.reply }
    ensures file { result.file ≡ None }
{
    let Served { reply, file: _ } = parted(answer);
    Served { reply, file: None }
}

/// A copy of the bytes that were handed in; they have failed where they are more than 268,435,456, or are missing.
fn copied(alloc: Global, file: Option<&[u8]>) -> Result<Bytes, FileFault>
    ensures { IsHanded (option_copied file.entry) result }
{
    let Some(bytes) = file else {
        return Err(FileFault::Failed);
    };
    if bytes.len() > FILE_LIMIT {
        return Err(FileFault::Failed);
    }
    match Vec::from_slice(alloc, bytes) {
        Ok(bytes) => Ok(Bytes::from_vec(bytes)),
        Err(_) => Err(FileFault::Memory),
    }
}

/// Loads the file that was handed in.
fn load(
    alloc: Global,
    station: &mut Station,
    name: Name,
    kind: FileKind,
    path: &FilePath,
    file: Option<&[u8]>,
) -> Served
    ensures { (memory : MemoryGrant) × (got : Result (List ℕ) FileFault)
        × IsServed (option_copied file.entry) (load_turn station.old name kind path.now memory got)
        station.new result.reply result.file }
{
    match copied(alloc, file) {
        Ok(file) => told(station.apply(Command::Load { name, kind, file })),
        Err(fault) => told(Err(file_refusal(fault))),
    }
}

/// Plots, and keeps the picture.
fn plot(station: &mut Station, name: Name, path: &FilePath) -> Served
    ensures { (handed : Option (List ℕ)) → (memory : MemoryGrant)
        × IsServed handed (plot_turn path.now (Ok tt) (step station.old (Command.Plot name) memory))
        station.new result.reply result.file }
{
    parted(station.apply(Command::Plot { name }))
}

/// Writes a layer, and keeps its text.
fn write(station: &mut Station, name: Name, path: &FilePath) -> Served
    ensures { (handed : Option (List ℕ)) → (memory : MemoryGrant)
        × IsServed handed (write_turn path.now (Ok tt) (step station.old (Command.Write name) memory))
        station.new result.reply result.file }
{
    let Served { reply, file } = parted(station.apply(Command::Write { name }));
    match file {
        Some(text) => Served {
            reply: Some(Ok(Reply::Numbers(Numbers::One(text.as_slice().len() as u64)))),
            file: Some(text),
        },
        None => Served { reply, file: None },
    }
}

/// Runs one line of a script, as [`run`](crate::run) does, for a caller who hands in the bytes of the file that a `load`
/// reads, and has those back that a `plot` or a `write` has for its file. No path is looked at. A `load` without bytes, or
/// with more than 268,435,456, is refused 82.
pub fn apply_line(alloc: Global, station: &mut Station, line: &[u8], file: Option<&[u8]>) -> Served
    ensures { (w : World) × IsServed (option_copied file.entry) (turn station.old line.now w)
        station.new result.reply result.file }
{
    match parse_line(alloc, line) {
        Err(fault) => told(Err(without_place(fault.refusal()))),
        Ok(None) => Served {
            reply: None,
            file: None,
        },
        Ok(Some(Line::Command(command))) => told(station.apply(command)),
        Ok(Some(Line::Load { name, kind, path })) => load(alloc, station, name, kind, &path, file),
        Ok(Some(Line::Plot { name, path })) => plot(station, name, &path),
        Ok(Some(Line::Write { name, path })) => write(station, name, &path),
    }
}
