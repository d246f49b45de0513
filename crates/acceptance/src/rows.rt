//! Worked examples, each a script over files in memory: what each of its lines says, and what it leaves. The program's own
//! run, over `crates/camplot/data`, is one more.

mod drills;
mod edits;
mod fronts;
mod plots;
mod refusals;
mod strokes;
mod texts;

use crate::boards::{File, held};
use crate::files::MemoryFiles;
use crate::out::MemoryOut;
use cam_station::run;
use std::alloc::{AllocError, Global};
use std::process::Abort;
use std::test::Fail;

/// A script over files in memory: what each of its lines says, and the texts and pictures that it leaves.
#[derive(Clone, Copy)]
pub struct Row {
    /// What it shows.
    pub shows: &'static str,
    pub depth: u32,
    pub files: &'static [File],
    pub script: &'static [u8],
    pub replies: &'static [u8],
    pub written: &'static [File],
    pub pictures: &'static [Picture],
}

/// A script without a line, over no file.
pub const WHOLE: Row = Row {
    shows: "",
    depth: 100,
    files: &[],
    script: b"",
    replies: b"",
    written: &[],
    pictures: &[],
};

/// A picture of 256 by 256 pixels that is white but for some bytes: those of a few rows, from a byte of each on.
#[derive(Clone, Copy)]
pub struct Picture {
    pub path: &'static str,
    pub top: usize,
    pub left: usize,
    pub rows: &'static [&'static [u8]],
}

/// The head of such a picture, and the bytes of each of its rows.
const HEAD: &[u8] = b"P4\n256 256\n";

const ROW_BYTES: usize = 32;

/// All bytes of the picture.
fn bytes_of(alloc: Global, picture: &Picture) -> Result<Vec<u8>, AllocError> {
    let mut bytes = Vec::from_slice(alloc, HEAD)?;
    for row in 0..256_usize {
        let shown = picture.rows.get(row.wrapping_sub(picture.top));
        for byte in 0..ROW_BYTES {
            let black = match shown {
                Some(black) => black.get(byte.wrapping_sub(picture.left)),
                None => None,
            };
            bytes.push(black.copied().unwrap_or(0))?;
        }
    }
    Ok(bytes)
}

/// How many of these replies refuse a line.
fn refusals_in(replies: &[u8]) -> u64 {
    let lines = replies.split(|byte| *byte == b'\n');
    lines.filter(|line| line.starts_with(b"refused ")).count() as u64
}

/// Whether the files hold these bytes under a path.
fn holds(files: &MemoryFiles, path: &str, bytes: &[u8]) -> bool {
    match files.held.get(path) {
        Some(held) => held.as_slice() == bytes,
        None => false,
    }
}

/// Compares what a script left with what it was to leave: its texts and pictures, and no other file.
fn leaves(rt: &impl Abort, alloc: Global, row: &Row, files: &MemoryFiles) -> Result<(), Fail> {
    for &(path, bytes) in row.written {
        assert!(rt; holds(files, path, bytes), "{}: {path}", row.shows);
    }
    for picture in row.pictures {
        let bytes = bytes_of(alloc, picture)?;
        assert!(rt;
            holds(files, picture.path, bytes.as_slice()),
            "{}: {}",
            row.shows,
            picture.path
        );
    }
    let put = row.written.len().saturating_add(row.pictures.len());
    assert!(rt;
        files.held.len() == row.files.len().saturating_add(put),
        "{}",
        row.shows
    );
    Ok(())
}

/// Runs a row's script over files and compares what it says with replies, and how many of its lines are refused.
pub fn says(
    rt: &impl Abort,
    alloc: Global,
    row: &Row,
    replies: &[u8],
    files: &mut MemoryFiles,
) -> Result<(), Fail> {
    let mut out = MemoryOut::new(alloc);
    let refused = run(alloc, row.depth, row.script, files, &mut out)?;
    assert_eq!(rt; out.said.as_slice(), replies, "{}", row.shows);
    assert!(rt; refused == refusals_in(replies), "{}", row.shows);
    Ok(())
}

/// Plays a row.
fn plays(rt: &impl Abort, alloc: Global, row: &Row) -> Result<(), Fail> {
    let mut files = held(alloc, row.files)?;
    says(rt, alloc, row, row.replies, &mut files)?;
    leaves(rt, alloc, row, &files)
}

/// Plays rows.
fn each(rt: &impl Abort, alloc: Global, rows: &[Row]) -> Result<(), Fail> {
    for row in rows {
        plays(rt, alloc, row)?;
    }
    Ok(())
}

// The rows of one table, in parts: the proof of each function that names a constant has all of it.

#[test]
fn plotted(rt: HostRuntime) -> Result<(), Fail> {
    each(&rt, rt.alloc(), plots::rows())
}

#[test]
fn stroked(rt: HostRuntime) -> Result<(), Fail> {
    each(&rt, rt.alloc(), strokes::rows())
}

#[test]
fn written(rt: HostRuntime) -> Result<(), Fail> {
    each(&rt, rt.alloc(), texts::rows())
}

#[test]
fn refused(rt: HostRuntime) -> Result<(), Fail> {
    each(&rt, rt.alloc(), refusals::rows())
}

#[test]
fn edited(rt: HostRuntime) -> Result<(), Fail> {
    each(&rt, rt.alloc(), edits::rows())
}

#[test]
fn drilled(rt: HostRuntime) -> Result<(), Fail> {
    each(&rt, rt.alloc(), drills::rows())
}
