//! What `--explain` and `--progress` tell on standard error.
//!
//! [`Notes`] sees the run. Where a line is refused, or plots a picture that is all white, a line about it goes to standard
//! error after its reply. Standard error that cannot be written to changes nothing.

ghost use Rattle.std.specs.Prelude.{◌≡◌};

mod advice;
mod bad_line;
mod forms;
mod kind;
mod near;
mod place;
mod progress;
mod quotes;
mod remedies;
mod white;
mod window;

use crate::calls::Calls;
use crate::documents::as_installed;
use crate::options::Call;
use crate::originals::Course;
use crate::reading::{Why, write_whole};
use crate::system::Disk;
use advice::advice_on;
use bad_line::{other_file, why_bad};
use cam_refusals::Refusal;
use cam_station::{Fault, Reply, Station, Watch};
use forms::begins_with_command;
use kind::kind_of;
use place::{column_at, line_at};
use progress::tiles_at_once;
use quotes::quoted;
use remedies::remedy_of;
use std::alloc::{AllocError, Global};
use std::io::Write;
use std::str;
use white::{is_white, where_it_lies};

/// How many bytes of a line are shown.
const MOST_SHOWN: usize = 60;

/// What is told of a group that nothing closes.
const OPEN: &str = "the script ends inside this group: no `end` and no `abort` closed it";

/// Erases the line of a terminal on which progress stands.
const ERASED: &str = "\r\u{1b}[K";

/// The line as it is shown: its first 60 bytes, with `?` for each that is not printed as it is.
fn shown(alloc: Global, line: &[u8]) -> Result<String, AllocError> {
    let line = line.trim_ascii();
    let mut text = String::new(alloc);
    for byte in line.iter().take(MOST_SHOWN) {
        let shown = match byte {
            b' '..=b'~' => char::from(*byte),
            b'\t' => ' ',
            _ => '?',
        };
        text.push(shown)?;
    }
    if line.len() > MOST_SHOWN {
        text.push_str("..")?;
    }
    Ok(text)
}

/// Whether a line has a word, and is no comment.
fn is_run(line: &[u8]) -> bool {
    line.trim_ascii()
        .first()
        .is_some_and(|first| *first != b'#')
}

/// The last word of a line, which is the path of a line that reads or writes a file.
fn path_in(line: &[u8]) -> Option<&str> {
    str::from_utf8(line).ok()?.split_ascii_whitespace().last()
}

/// The line and the column of a place in a file, where the file is one that can be read again: a pipe would wait for more,
/// or be empty.
fn line_and_column<C: Calls>(
    calls: &mut C,
    alloc: Global,
    path: &str,
    at: usize,
) -> Option<(usize, usize)> {
    calls.node(path)?;
    let bytes = calls.read(alloc, path).ok()?;
    let bytes = bytes.as_slice();
    if at > bytes.len() {
        return None;
    }
    Some((line_at(bytes, at), column_at(bytes, at)))
}

/// Where in the file of a load a place lies: its line and its column too, where the file can be read again.
fn place_in_file<C: Calls>(
    calls: &mut C,
    alloc: Global,
    path: &str,
    at: usize,
) -> Result<String, AllocError> {
    match line_and_column(calls, alloc, path, at) {
        Some((line, column)) => { format!(in alloc; " at byte {at}, {path}:{line}:{column}") }
        None => { format!(in alloc; " at byte {at} of {path}") }
    }
}

/// What is told of the file of a refused line: the place in it, or why it failed.
fn file_part<C: Calls>(
    calls: &mut C,
    alloc: Global,
    line: &[u8],
    fault: Fault,
    why: Why,
) -> Result<String, AllocError> {
    if fault.code == Refusal::FileFault {
        let reason = why.reason;
        return format!(in alloc; " ({reason})");
    }
    match (fault.at, path_in(line)) {
        (Some(at), Some(path)) => place_in_file(calls, alloc, path, at),
        _ => Ok(String::new(alloc)),
    }
}

/// What to do about the file of a line that failed, where its path shows it.
fn path_advice(line: &[u8]) -> Option<&'static str> {
    let path = path_in(line)?;
    if path.contains('"') || path.contains('\'') {
        return Some("write the path without quotation marks");
    }
    if path.starts_with('~') {
        return Some("write the home folder in place of ~: no shell reads the path");
    }
    None
}

/// What to do about a refusal: what its line shows, or else what is advised for its number.
fn advised(
    alloc: Global,
    code: Refusal,
    shown: Option<&'static str>,
    documents: Option<&str>,
) -> Result<String, AllocError> {
    let (_, advice) = advice_on(code.number());
    as_installed(alloc, shown.unwrap_or(advice), documents)
}

/// What goes to standard error in the course of a run.
#[derive(Drop)]
pub struct Notes<'a, W, C> {
    alloc: Global,
    errors: W,
    calls: C,
    call: &'a Call,
    course: &'a Course,
    /// The folder of the documents, if the program is installed.
    documents: Option<&'a str>,
    /// Whether standard error is a terminal, where progress stands in one line.
    pub is_terminal: bool,
    /// How many lines the script has.
    lines: u64,
    /// The number of the line that is run.
    number: u64,
    /// The line as it is shown, where progress is told.
    command: String,
    /// What the script is, where it is a file of another kind than text.
    kind: Option<&'static str>,
    /// Whether the script was told to be a file of another kind.
    is_other_file: bool,
    /// The number of the line that began the open group.
    group: Option<u64>,
}

impl<'a, W: Write, C: Calls> Notes<'a, W, C> {
    pub fn new(
        alloc: Global,
        errors: W,
        calls: C,
        call: &'a Call,
        course: &'a Course,
        documents: Option<&'a str>,
    ) -> Notes<'a, W, C> {
        Notes {
            alloc,
            errors,
            calls,
            call,
            course,
            documents,
            is_terminal: false,
            lines: 0,
            number: 0,
            command: String::new(alloc),
            kind: None,
            is_other_file: false,
            group: None,
        }
    }

    /// Writes a text, where that is possible.
    fn write(&mut self, text: &str) {
        let _ = write_whole(&mut self.errors, text.as_bytes());
    }

    /// Names the line that is run, and how far it is, over what stands there where that is a terminal.
    fn name_line(&mut self, how_far: &str) -> Result<(), AllocError> {
        let (number, lines) = (self.number, self.lines);
        let command = self.command.as_str();
        let (before, end) = if self.is_terminal {
            (ERASED, "")
        } else {
            ("", "\n")
        };
        let text = format!(in self.alloc; "{before}{number} of {lines}  {command}{how_far}{end}")?;
        self.write(text.as_str());
        Ok(())
    }

    /// Names the line that is run next.
    fn name_next(&mut self, line: &[u8]) -> Result<(), AllocError> {
        self.command = shown(self.alloc, line)?;
        self.name_line("")
    }

    /// Names the plot that is run, and how many of its dirty tiles it has drawn.
    fn name_tiles(&mut self, done: u32, dirty: u32) -> Result<(), AllocError> {
        let how_far = format!(in self.alloc; "  {done} of {dirty} tiles")?;
        self.name_line(how_far.as_str())
    }

    /// Why a line is bad; nothing where it was told that the script is a file of another kind.
    fn bad_line(&mut self, line: &[u8]) -> Result<Option<String>, AllocError> {
        let line = String::from_utf8_lossy(self.alloc, line)?;
        let line = line.as_str();
        if !begins_with_command(line) {
            if self.is_other_file {
                return Ok(None);
            }
            if let Some(kind) = self.kind {
                self.is_other_file = true;
                return Ok(Some(format!(in self.alloc; "the script {kind}")?));
            }
            if let Some(other) = other_file(line) {
                self.is_other_file = true;
                return Ok(Some(other.to_string(self.alloc)?));
            }
        }
        match why_bad(self.alloc, line)? {
            Some(why) => Ok(Some(why)),
            None => Ok(Some(advised(self.alloc, Refusal::BadLine, None, self.documents)?)),
        }
    }

    /// What to do about a refused line; nothing where it was told before.
    fn remedy(
        &mut self,
        line: &[u8],
        fault: Fault,
        why: Why,
        station: &Station,
    ) -> Result<Option<String>, AllocError> {
        if fault.code == Refusal::BadLine {
            return self.bad_line(line);
        }
        if fault.code == Refusal::FileFault {
            let shown = why.remedy.or(path_advice(line));
            return Ok(Some(advised(self.alloc, fault.code, shown, self.documents)?));
        }
        if let Ok(line) = str::from_utf8(line)
            && let Some(remedy) = remedy_of(self.alloc, &mut self.calls, line, fault, station)?
        {
            return Ok(Some(remedy));
        }
        Ok(Some(advised(self.alloc, fault.code, None, self.documents)?))
    }

    /// Writes a line about this one.
    fn tell(&mut self, line: &[u8], told: &str) -> Result<(), AllocError> {
        let command = shown(self.alloc, line)?;
        let path = self.call.path.as_str();
        let number = self.number;
        let text = format!(in self.alloc; "{path}:{number}: {command}: {told}\n")?;
        self.write(text.as_str());
        Ok(())
    }

    /// Explains a refused line.
    fn explain(
        &mut self,
        line: &[u8],
        fault: Fault,
        why: Why,
        station: &Station,
    ) -> Result<(), AllocError> {
        let Some(remedy) = self.remedy(line, fault, why, station)? else {
            return Ok(());
        };
        let file = file_part(&mut self.calls, self.alloc, line, fault, why)?;
        let code = fault.number();
        let (name, _) = advice_on(code);
        let told = format!(in self.alloc; "refused {code}, {name}{file}: {remedy}")?;
        self.tell(line, told.as_str())
    }

    /// Tells of quotation marks in an accepted line, and of a file that went straight to its path, for this reason.
    fn note_accepted(&mut self, line: &[u8], straight: Option<&str>) -> Result<(), AllocError> {
        if let Some(told) = quoted(line) {
            self.tell(line, told)?;
        }
        let Some(reason) = straight else {
            return Ok(());
        };
        if !self.course.puts() {
            return Ok(());
        }
        let told = format!(in self.alloc;
            "ok, written straight to its path, where a failure leaves it cut: no file can be made next to it ({reason})"
        )?;
        self.tell(line, told.as_str())
    }

    /// Whether a group is open after an accepted line.
    fn group_after(&mut self, line: &[u8]) {
        match line.trim_ascii() {
            b"begin" => self.group = Some(self.number),
            b"end" | b"abort" => self.group = None,
            _ => {}
        }
    }

    /// Tells of a group that is open at the end of the script.
    pub fn ends(&mut self) {
        if let Some(number) = self.group
            && self.call.explain
        {
            self.number = number;
            let _ = self.tell(b"begin", OPEN);
        }
    }

    /// Tells of a picture that is all white where its layer lies.
    fn note_white(&mut self, line: &[u8], drawn: u64, station: &Station) -> Result<(), AllocError> {
        let lies = where_it_lies(self.alloc, line, station)?;
        let told = format!(in self.alloc; "ok {drawn}, all white: {lies}")?;
        self.tell(line, told.as_str())
    }
}

impl<C: Calls, W: Write, D: Calls> Watch<Disk<'_, D>> for Notes<'_, W, C> {
    fn script(&mut self, script: &[u8]) {
        let ends = script.iter().filter(|byte| **byte == b'\n').count() as u64;
        let is_ended = script.is_empty() || script.ends_with(b"\n");
        self.lines = ends.saturating_add(u64::from(!is_ended));
        self.kind = kind_of(script);
    }

    fn line(&mut self, number: u64, line: &[u8]) {
        self.number = number;
        self.course.begins(line);
        if self.call.progress && is_run(line) {
            let _ = self.name_next(line);
        }
    }

    fn tiles_at_once(&self, dirty: u32) -> u32 {
        if !self.call.progress {
            return dirty;
        }
        tiles_at_once(dirty, self.is_terminal)
    }

    fn drawn(&mut self, done: u32, dirty: u32) {
        if self.call.progress && done < dirty {
            let _ = self.name_tiles(done, dirty);
        }
    }

    fn reply(&mut self) {
        if self.call.progress && self.is_terminal {
            self.write(ERASED);
        }
    }

    fn replied(
        &mut self,
        line: &[u8],
        reply: &Result<Reply, Fault>,
        station: &Station,
        files: &Disk<'_, D>,
    ) {
        if reply.is_ok() {
            self.course.is_accepted();
        }
        if !self.call.explain {
            return;
        }
        if reply.is_ok() {
            self.group_after(line);
            let _ = self.note_accepted(line, files.straight());
        }
        let _ = match reply {
            Err(fault) => self.explain(line, *fault, files.why(), station),
            Ok(Reply::Bytes { bytes, drawn }) if is_white(bytes.as_slice()) => {
                self.note_white(line, *drawn, station)
            }
            Ok(_) => Ok(()),
        };
    }
}
