//! Sessions: a station, and what its last call leaves to be read.

ghost use Rattle.std.specs.Prelude.{◌≡◌, IfErr, IfOk, None, Option, Some, length, ℕ};
ghost use Rattle.std.specs.Option.{option_copied};
ghost use Rattle.core.specs.Mem.Slots.{slots_len};
ghost use Rattle.cam_c.specs.Calls.{
  IsApplied,
  IsCopied,
  IsFresh,
  IsQuestioned,
  IsRedrawn,
  IsTileCopied,
  IsUnopened,
  code_of,
  text_told,
};

use crate::line::line_of;
use crate::loose::Loose;
use cam_ask::ask;
use cam_refusals::Refusal;
use cam_station::{Bytes, Command, Fault, Reply, Station, apply_line};
use core::slots::Slots;
use std::alloc::Global;

/// A station, with the reply to its last line, and the bytes that this had for a file.
#[derive(Drop)]
pub struct Session {
    pub(crate) alloc: Global,
    pub(crate) station: Station,
    pub(crate) reply: Option<Result<Reply, Fault>>,
    pub(crate) file: Option<Bytes>,
}

/// 0 for a line that was accepted or has no reply, else the number of its refusal.
fn code(reply: &Option<Result<Reply, Fault>>) -> u32
    ensures { result ≡ code_of reply.now }
{
    match reply {
        Some(Err(fault)) => u32::from(fault.number()),
        Some(Ok(_)) | None => 0,
    }
}

/// Copies values into a room that holds them, and tells how many they are; a smaller room stays as it is.
pub(crate) fn copy<T: Copy>(text: &[T], mut room: Slots<T>) -> (Slots<T>, usize)
    ensures length { result.1 ≡ length text.now }
    ensures room { IsCopied text.now room result.0 }
{
    let count = text.len();
    if count <= room.len() {
        room.copy_in(0, text);
    }
    (room, count)
}

/// An empty station that can take back `depth` edits and groups, from 1 to 1,000; 50 at any other depth, and 30 where
/// memory was refused.
pub(crate) fn begin(alloc: Global, depth: u32) -> Result<Loose<Session, Global>, u32>
    ensures ok { IfOk result (λ session. IsFresh depth session.value) }
    ensures err { IfErr result (λ code. IsUnopened depth code) }
{
    match Station::new(alloc, depth) {
        Ok(station) => {
            let session = Session {
                alloc,
                station,
                reply: None,
                file: None,
            };
            match Box::new(alloc, session) {
                Ok(session) => Ok(Loose::of(session)),
                Err(_) => Err(u32::from(Refusal::NoMemory.number())),
            }
        }
        Err(fault) => Err(u32::from(fault.number())),
    }
}

/// Gives the memory of a session back.
pub(crate) fn end(session: Box<Session>) {
    drop(session);
}

impl Session {
    /// One line of a script with the bytes of its file, where some were handed in: a turn of a run. What it leaves is
    /// kept until the next line; 0 where it was accepted, else the number of its refusal.
    fn serve(&mut self, line: &[u8], file: Option<&[u8]>) -> u32
        ensures { IsApplied self.old line.now (option_copied file.entry) self.new result }
    {
        let served = apply_line(self.alloc, &mut self.station, line, file);
        let number = code(&served.reply);
        self.reply = served.reply;
        self.file = served.file;
        number
    }

    /// One line, without a file.
    pub(crate) fn apply(&mut self, line: &[u8]) -> u32
        ensures { IsApplied self.old line.now None self.new result }
    {
        self.serve(line, None)
    }

    /// One line, with the bytes of the file that it loads.
    pub(crate) fn load(&mut self, line: &[u8], file: &[u8]) -> u32
        ensures { IsApplied self.old line.now (Some file.now) self.new result }
    {
        self.serve(line, Some(file))
    }

    /// Answers a question: its text is kept for `copy_text`, and the reply tells whether there is one. 0 where it was
    /// answered, else the number of the refusal.
    pub(crate) fn ask(&mut self, question: &[u8]) -> u32
        ensures { IsQuestioned self.old question.now self.new result }
    {
        match ask(self.alloc, &self.station, question) {
            Ok(text) => {
                self.reply = Some(Ok(Reply::Done));
                self.file = Some(text);
            }
            Err(why) => {
                self.reply = Some(Err(why));
                self.file = None;
            }
        }
        code(&self.reply)
    }

    /// Draws at most so many dirty tiles: one step of the station's machine.
    pub(crate) fn redraw(&mut self, at_most: u32) -> u32
        ensures { IsRedrawn self.old at_most self.new result }
    {
        let answer = self.station.apply(Command::Redraw { at_most });
        self.reply = Some(answer);
        self.file = None;
        code(&self.reply)
    }

    /// How many bytes a text of the last call has: that of its file, or else the line of its reply. None where there is
    /// no such text.
    pub(crate) fn text_length(&mut self, of_file: bool) -> usize
        ensures length { result ≡ length (text_told of_file self.old) }
        ensures kept { self.new ≡ self.old }
    {
        if of_file {
            return match &self.file {
                Some(file) => file.as_slice().len(),
                None => 0,
            };
        }
        match &self.reply {
            Some(reply) => line_of(reply).as_slice().len(),
            None => 0,
        }
    }

    /// Copies this text into a room that holds it, and tells how many bytes it has.
    pub(crate) fn copy_text(&mut self, of_file: bool, room: Slots<u8>) -> (Slots<u8>, usize)
        ensures length { result.1 ≡ length (text_told of_file self.old) }
        ensures room { IsCopied (text_told of_file self.old) room result.0 }
        ensures kept { self.new ≡ self.old }
    {
        if of_file {
            return match &self.file {
                Some(file) => copy(file.as_slice(), room),
                None => copy(&[], room),
            };
        }
        match &self.reply {
            Some(reply) => copy(line_of(reply).as_slice(), room),
            None => copy(&[], room),
        }
    }

    /// Copies the rows of a clean tile of the layer that was loaded as number `layer`; 91 where the tile is dirty, or not
    /// there.
    #[tactic(auto, using(crate::proofs::Rooms::filling))]
    pub(crate) fn copy_tile(&mut self, layer: u32, tile: u32, rows: Slots<u64>) -> (Slots<u64>, u32)
        requires { slots_len rows ≡ 64 }
        ensures tile { IsTileCopied self.old layer tile rows result.0 result.1 }
        ensures kept { self.new ≡ self.old }
    {
        match self.station.tile(layer as usize, tile) {
            Some(kept) => {
                let (rows, _) = copy(kept, rows);
                (rows, 0)
            }
            None => (rows, u32::from(Refusal::NotClean.number())),
        }
    }
}
