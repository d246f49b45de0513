//! What to do about a refused line, where it shows more than its number.

use super::kind::kind_of;
use super::near::{meant_entry, meant_layer};
use super::window::why_out;
use crate::calls::Calls;
use cam_refusals::Refusal;
use cam_station::{Fault, Station};
use std::alloc::{AllocError, Global};

/// What the file of a load is, where it is of another kind than both that are read.
fn other_kind<C: Calls>(
    calls: &mut C,
    alloc: Global,
    line: &str,
) -> Result<Option<String>, AllocError> {
    let Some(path) = line.split_ascii_whitespace().last() else {
        return Ok(None);
    };
    if calls.node(path).is_none() {
        return Ok(None);
    }
    let Ok(bytes) = calls.read(alloc, path) else {
        return Ok(None);
    };
    match kind_of(bytes.as_slice()) {
        Some(kind) => Ok(Some(format!(in alloc; "the file {kind}")?)),
        None => Ok(None),
    }
}

/// What to do about this line; nothing where only its number is known.
pub fn remedy_of<C: Calls>(
    alloc: Global,
    calls: &mut C,
    line: &str,
    fault: Fault,
    station: &Station,
) -> Result<Option<String>, AllocError> {
    if fault.at.is_some() {
        return other_kind(calls, alloc, line);
    }
    match fault.code {
        Refusal::OutOfLimits => why_out(alloc, line),
        Refusal::NoLayer => meant_layer(alloc, line, station),
        Refusal::NoAperture | Refusal::NoTool => meant_entry(alloc, line, station),
        _ => Ok(None),
    }
}
