//! Files that were cut off, and lines of a script at their limit.

use super::{Row, WHOLE, says};
use crate::boards::{HOLE_AND_SLOT, held};
use crate::files::MemoryFiles;
use crate::out::MemoryOut;
use cam_station::run;
use std::alloc::Global;
use std::process::Abort;
use std::test::Fail;

/// A block in a block, flashed mirrored, turned and clear.
const NESTED: &[u8] =
    b"%FSLAX36Y36*%\n%MOMM*%\n%ADD10C,1*%\n%ADD11C,0.5*%\n%ADD13R,10X10*%\n%ABD12*%\n\
D10*\nX1000000Y0D03*\n%LPC*%\nD11*\nX1000000Y0D03*\n%LPD*%\n%AB*%\n%ABD14*%\n%LMX*%\n%LR90*%\nD12*\nX0Y0D03*\n\
%LMN*%\n%LR0*%\n%AB*%\nD13*\nX0Y0D03*\n%LPC*%\nD12*\nX0Y0D03*\nD14*\nX3000000Y0D03*\nM02*\n";

/// The place of the first byte of the command that a text ends in, if it ends in one.
fn begun_at(text: &[u8]) -> Option<usize> {
    let mut begun = None;
    let mut last = b'*';
    for (at, &byte) in text.iter().enumerate() {
        match begun {
            None if byte != b'\n' => {
                begun = Some(at);
                last = if byte == b'%' { b'%' } else { b'*' };
            }
            Some(_) if byte == last => begun = None,
            _ => {}
        }
    }
    begun
}

/// Loads a text as a file of the kind that a script loads, and compares what is said of it.
fn is_told(
    rt: &impl Abort,
    alloc: Global,
    script: &'static [u8],
    text: &'static [u8],
    told: &[u8],
) -> Result<(), Fail> {
    let mut files = held(alloc, &[("a", text)])?;
    let row = Row {
        shows: "a front of a file",
        script,
        ..WHOLE
    };
    says(rt, alloc, &row, told, &mut files)
}

/// Loads the first bytes of the nested blocks, which end before the last command does: between two commands the end of
/// the file is missed where the text ends, and a command that is cut is told at its first byte.
fn front_of_nested(rt: &impl Abort, alloc: Global, count: usize) -> Result<(), Fail> {
    let text = NESTED.get(..count).unwrap_or(NESTED);
    let told = match begun_at(text) {
        Some(at) => format!(in alloc; "refused 2 {at}\n")?,
        None => format!(in alloc; "refused 26 {count}\n")?,
    };
    is_told(rt, alloc, b"load top gerber a\n", text, told.as_bytes())
}

/// Each front of the nested blocks that ends before the `*` of the last command is refused.
#[test]
fn fronts_of_nested_blocks(rt: HostRuntime) -> Result<(), Fail> {
    for count in 0..NESTED.len().saturating_sub(1) {
        front_of_nested(&rt, rt.alloc(), count)?;
    }
    Ok(())
}

/// Fronts of a drill file: without its first line, with that line alone, and with more of the header.
const DRILL_FRONTS: &[(usize, &[u8])] = &[
    (0, b"refused 40 0\n"),
    (2, b"refused 40 0\n"),
    (3, b"refused 48 3\n"),
];

/// How many lines are refused when the first bytes of the drill file are loaded.
fn refusals_of_front(alloc: Global, count: usize) -> Result<u64, Fail> {
    let text = HOLE_AND_SLOT.get(..count).unwrap_or(HOLE_AND_SLOT);
    let mut files = held(alloc, &[("a", text)])?;
    let mut out = MemoryOut::new(alloc);
    Ok(run(alloc, 1, b"load top drill a\n", &mut files, &mut out)?)
}

/// Each front of a drill file without its whole last line is refused.
#[test]
fn fronts_of_a_drill_file(rt: HostRuntime) -> Result<(), Fail> {
    for &(count, told) in DRILL_FRONTS {
        let text = HOLE_AND_SLOT.get(..count).unwrap_or(HOLE_AND_SLOT);
        is_told(&rt, rt.alloc(), b"load top drill a\n", text, told)?;
    }
    for count in 0..HOLE_AND_SLOT.len() {
        assert!(rt; refusals_of_front(rt.alloc(), count)? == 1, "{count}");
    }
    Ok(())
}

/// Runs a line of so many blanks, and compares what is said of it.
fn blanks_are_told(rt: &impl Abort, alloc: Global, count: usize, told: &[u8]) -> Result<(), Fail> {
    let mut script = vec![in alloc; b' '; count]?;
    script.push(b'\n')?;
    let mut files = MemoryFiles::new(alloc);
    let mut out = MemoryOut::new(alloc);
    run(alloc, 1, script.as_slice(), &mut files, &mut out)?;
    assert_eq!(rt; out.said.as_slice(), told);
    Ok(())
}

/// A blank line of 65,536 bytes has no reply, and one that is longer is refused.
#[test]
fn long_blank_lines(rt: HostRuntime) -> Result<(), Fail> {
    blanks_are_told(&rt, rt.alloc(), 65_536, b"")?;
    blanks_are_told(&rt, rt.alloc(), 65_537, b"refused 81\n")
}
